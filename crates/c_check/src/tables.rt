// The tables of a program that has been looked through.
ghost use Rattle.std.specs.Prelude.{◌≡◌, ℕ, List, map, length, reverse, vec_len, None, IfOk};
ghost use Rattle.c_mentions.specs.Tags.{now};
ghost use Rattle.c_linkage.specs.Names.{defining};
ghost use Rattle.c_linkage.specs.FileNames.{file_name, AreConsistent};
ghost use Rattle.c_file.specs.Files.{State as Program};
ghost use Rattle.c_file.specs.Standing.{Stands};
ghost use Rattle.c_linkage.specs.Wanted.{started};
ghost use Rattle.c_file.specs.Made.{objects as objects_of, room};
ghost use Rattle.c_linkage.specs.Defined.{bodies_of};
ghost use Rattle.c_check.specs.Placing.{ArePlaces};
ghost use Rattle.c_check.specs.Placing.{AreStarts};
ghost use Rattle.c_check.specs.Tables.{IsFrom, AreTables, AreAll, AreRows};
ghost use Rattle.c_judge.specs.Parts.{IsWithinSize};
ghost use Rattle.c_linkage.specs.declared.definitions.Definition.{Definition};

use crate::faults::CheckFault;
use crate::object_types::object_types;
use c_linkage::{Definition, FileName, Started, State};
use c_rows::{
    Places, Starts, bodies, numbered, object_rows, objects, room, start_numbers, static_names,
    symbol_rows, unit_rows,
};
use c_tree::{CType, ObjectRow, StructDef, SymbolRow, UnitRow};
use ldb_words::Text;
use std::alloc::{AllocError, Global};

/// The definitions of a program's objects, its functions with bodies, and the types of its objects.
#[derive(Drop)]
pub struct Defined<'a> {
    pub objects: Vec<Definition<'a>>,
    pub bodies: Vec<Definition<'a>>,
    pub types: Vec<CType>,
}

/// The rows of a program's objects and names.
#[derive(Drop)]
pub struct Tables {
    pub objects: Vec<ObjectRow>,
    pub symbols: Vec<SymbolRow>,
}

/// The rows of a program but for its structs, functions and stopping points.
#[derive(Drop)]
pub struct Rows {
    pub tables: Tables,
    pub units: Vec<UnitRow>,
    pub strings: Vec<Text>,
}

/// Which object or function of these each name means.
fn places<'s, 'a>(
    alloc: Global,
    names: &'s [FileName<'a>],
    objects: &'s [Definition<'a>],
    bodies: &'s [Definition<'a>],
) -> Result<Places<'s>, AllocError>
    requires { AreConsistent (reverse (map file_name names.now)) }
    ensures { IfOk result (λ p. (q : Program) → reverse (map file_name names.now) ≡ q.names → map defining objects.now ≡ objects_of q → map defining bodies.now ≡ bodies_of q.definitions → ArePlaces p q) }
{
    let statics = static_names(alloc, names)?;
    let objects = numbered(alloc, objects)?;
    let functions = numbered(alloc, bodies)?;
    Ok(Places {
        statics,
        objects,
        functions,
    })
}

/// The objects with initializers by their names.
fn starts<'s, 'a>(
    alloc: Global,
    defs: &'s [StructDef],
    of: &'s [Started<'a>],
) -> Result<Starts<'s, 'a>, AllocError>
    ensures { IfOk result (λ k. (q : Program) → defs.now ≡ q.others → map started of.now ≡ q.starts → AreStarts k q) }
{
    let numbers = start_numbers(alloc, of)?;
    Ok(Starts { defs, of, numbers })
}

/// The rows of objects of these types, and of names.
fn tables_of<'s, 'a>(
    alloc: Global,
    state: &'s State<'a>,
    objects: &'s [Definition<'a>],
    bodies: &'s [Definition<'a>],
    types: &[CType],
) -> Result<Tables, AllocError>
    requires { length types.now ≡ length objects.now }
    ensures { IfOk result (λ t. (q : Program) → IsFrom state.now objects.now bodies.now types.now q → AreTables q t) }
{
    let places = places(alloc, state.names.rows(), objects, bodies)?;
    let defs = state.others.as_slice();
    let of = state.starts.as_slice();
    let starts = starts(alloc, defs, of)?;
    let objects = object_rows(alloc, &places, &starts, objects, types)?;
    let names = state.here.table.symbols();
    let links = state.here.table.links();
    let symbols = symbol_rows(alloc, &places, names, links)?;
    Ok(Tables { objects, symbols })
}

/// Copies of some texts.
fn copies(alloc: Global, texts: &[&Text]) -> Result<Vec<Text>, AllocError>
    ensures { IfOk result (λ l. l.items ≡ map now texts.now) }
{
    let mut copies = Vec::new(alloc);
    for text in texts {
        copies.push(Text::from_slice(alloc, text.as_bytes())?)?;
    }
    Ok(copies)
}

/// The definitions of a program's objects and functions, and the objects' types.
fn definitions_of<'a>(alloc: Global, state: &State<'a>) -> Result<Defined<'a>, AllocError>
    ensures len { IfOk result (λ d. vec_len d.types ≡ vec_len d.objects) }
    ensures from { IfOk result (λ d. (n : ℕ) (q : Program) → Stands n state.now q → IsFrom state.now d.objects.items d.bodies.items d.types.items q) }
{
    let definitions = state.definitions.as_slice();
    let objects = objects(alloc, definitions)?;
    let bodies = bodies(alloc, definitions)?;
    let listed = objects.as_slice();
    let types = object_types(alloc, &state.names, listed)?;
    Ok(Defined {
        objects,
        bodies,
        types,
    })
}

/// How much room the static data take, where that is at most 1,048,576 bytes.
fn room_of<'a>(state: &State<'a>, types: &[CType]) -> Option<u32>
    ensures { (n : ℕ) (q : Program) (objects bodies : List Definition) → Stands n state.now q → IsFrom state.now objects bodies types.now q → IsWithinSize (room q) result }
{
    let defs = state.others.as_slice();
    let strings = state.strings.as_slice();
    room(defs, types, strings)
}

/// The rows, whose objects and functions are defined so.
fn filled<'a>(
    alloc: Global,
    names: &[Text],
    state: &State<'a>,
    defined: &Defined<'a>,
) -> Result<Rows, AllocError>
    requires { vec_len defined.now.types ≡ vec_len defined.now.objects }
    ensures { IfOk result (λ r. (n : ℕ) (q : Program) → Stands n state.now q → state.now.unknown ≡ None → IsFrom state.now defined.now.objects.items defined.now.bodies.items defined.now.types.items q → AreAll q names.now r) }
{
    let objects = defined.objects.as_slice();
    let bodies = defined.bodies.as_slice();
    let types = defined.types.as_slice();
    let tables = tables_of(alloc, &*state, objects, bodies, types)?;
    let functions = state.functions.as_slice();
    let units = unit_rows(alloc, names, functions)?;
    let texts = state.strings.as_slice();
    let strings = copies(alloc, texts)?;
    Ok(Rows {
        tables,
        units,
        strings,
    })
}

/// The rows of a program in which each name is declared, of files of these names. Or TooBig, where its static data have more than 1,048,576 bytes.
pub fn rows_of<'a>(alloc: Global, names: &[Text], state: &State<'a>) -> Result<Rows, CheckFault>
    ensures { AreRows names.now state.now result }
{
    let defined = match definitions_of(alloc, &*state) {
        Ok(defined) => defined,
        Err(_) => return Err(CheckFault::NoMemory),
    };
    let types = defined.types.as_slice();
    match room_of(&*state, types) {
        None => Err(CheckFault::TooBig),
        Some(_) => match filled(alloc, names, &*state, &defined) {
            Ok(rows) => Ok(rows),
            Err(_) => Err(CheckFault::NoMemory),
        },
    }
}
