// The files of a program in order.
ghost use Rattle.std.specs.Prelude.{◌≡◌, ◌∷◌, [], map, IfOk, OnOk, None, true, false};
ghost use Rattle.c_scope.specs.Environment.{innermost};
ghost use Rattle.c_file.specs.Looked.{HasBuiltIns, IsFirst, Starts, Follows, Looks, in_file};
ghost use Rattle.c_file.specs.Programs.{incomplete, completed_one, completed_by};
ghost use Rattle.c_linkage.specs.FileTags.{externals_of, tags_of};
ghost use Rattle.c_file.specs.Standing.{LooksThrough};
ghost use Rattle.c_scope.specs.Table.{with_name};
ghost use Rattle.c_mentions.specs.Tags.{now};

use crate::externals::externals;
use c_defs::Structs;
use c_judge::{Fault, Symbol};
use c_linkage::{FileFault, FileNames, State, tags_of};
use c_scope::{Environment, Link, Mark, StructTags, Table};
use c_tree::{CType, StructDef};
use c_trees::unit::Unit;
use ldb_words::{Many, Text};
use std::alloc::{AllocError, Global};
use std::collections::VecDeque;

/// Declares a built-in function: its name, its result, and its parameters.
fn built_in<'a>(
    alloc: Global,
    table: &mut Table<'a>,
    name: &'a [u8],
    gives: CType,
    parameters: Many<CType>,
) -> Result<(), AllocError>
    ensures { OnOk result (table.new ≡ with_name table.old name.now (record { name = name.now; ctype = gives; register = false; function = true }) parameters (record { up = innermost table.old.visible; unit = 0; local = None })) }
{
    let link = Link {
        up: table.innermost(),
        unit: 0,
        local: None,
    };
    let symbol = Symbol {
        name: Text::from_slice(alloc, name)?,
        ctype: gives,
        register: false,
        function: true,
    };
    table.declare(name, symbol, parameters, link)
}

/// One `int`.
fn one_int(alloc: Global) -> Result<Many<CType>, AllocError>
    ensures { IfOk result (λ ts. ts ≡ CType.Int ∷ []) }
{
    let mut types = Many::new(alloc);
    types.push(CType::Int)?;
    Ok(types)
}

/// The built-in functions, which each file declares.
fn built_ins<'a>(alloc: Global) -> Result<Table<'a>, AllocError>
    ensures { IfOk result HasBuiltIns }
{
    let mut table = Table::new(alloc);
    let Ok(()) = built_in(alloc, &mut table, b"getchar", CType::Int, Many::new(alloc)) else {
        drop(table);
        return Err(AllocError);
    };
    let Ok(int) = one_int(alloc) else {
        drop(table);
        return Err(AllocError);
    };
    let Ok(()) = built_in(alloc, &mut table, b"putchar", CType::Int, int) else {
        drop(table);
        return Err(AllocError);
    };
    let Ok(int) = one_int(alloc) else {
        drop(table);
        return Err(AllocError);
    };
    let Ok(()) = built_in(alloc, &mut table, b"exit", CType::Void, int) else {
        drop(table);
        return Err(AllocError);
    };
    let _outside = table.begin();
    Ok(table)
}

/// Structs with these tags that are not complete.
fn incomplete(alloc: Global, tags: &[&Text]) -> Result<Vec<StructDef>, AllocError>
    ensures { IfOk result (λ ds. ds.items ≡ map incomplete (map now tags.now)) }
{
    let mut defs = Vec::new(alloc);
    for tag in tags {
        let tag = Text::from_slice(alloc, tag.as_bytes())?;
        defs.push(StructDef {
            tag,
            size: 0,
            members: Many::new(alloc),
        })?;
    }
    Ok(defs)
}

/// The structs with these tags before a file, none of which is complete.
fn unfinished<'a>(alloc: Global, tags: &[&'a Text]) -> Result<Structs<'a>, AllocError>
    ensures { IfOk result (λ s. s ≡ map incomplete (map now tags.now)) }
{
    let defs = incomplete(alloc, tags)?;
    Structs::new(alloc, defs)
}

/// What is declared before the first file.
fn at_first_here<'a>(alloc: Global, tags: &[&'a Text]) -> Result<Environment<'a>, AllocError>
    ensures { IfOk result (IsFirst (map now tags.now)) }
{
    let texts = Vec::from_slice(alloc, tags)?;
    if texts.len() > u32::MAX as usize {
        return Err(AllocError);
    }
    let tags_here = StructTags::new(alloc, texts)?;
    let defs = unfinished(alloc, tags)?;
    let table = built_ins(alloc)?;
    Ok(Environment {
        unit: 0,
        table,
        locals: 0,
        defs,
        tags: tags_here,
    })
}

/// The program before its first file.
fn at_first<'a>(alloc: Global, tags: &[&'a Text]) -> Result<State<'a>, AllocError>
    ensures { IfOk result (Starts (map now tags.now)) }
{
    let others = incomplete(alloc, tags)?;
    let here = at_first_here(alloc, tags)?;
    Ok(State {
        here,
        others,
        names: FileNames::new(alloc),
        definitions: Vec::new(alloc),
        calls: Vec::new(alloc),
        late: Vec::new(alloc),
        starts: Vec::new(alloc),
        functions: Vec::new(alloc),
        points: Vec::new(alloc),
        strings: Vec::new(alloc),
        unknown: None,
    })
}

/// A struct as either of two completes it.
fn completed_one(d: StructDef, e: StructDef) -> StructDef
    ensures { result ≡ completed_one d e }
{
    if d.members.len() == 0 { e } else { d }
}

/// Structs as either of two lists completes them.
fn completed_by(
    alloc: Global,
    ds: Vec<StructDef>,
    es: Vec<StructDef>,
) -> Result<Vec<StructDef>, AllocError>
    ensures { IfOk result (λ cs. cs.items ≡ completed_by ds.items es.items) }
{
    let mut ds = VecDeque::from(ds);
    let mut es = VecDeque::from(es);
    let mut completed = Vec::new(alloc);
    'completing: while let Some(d) = ds.pop_front() {
        match es.pop_front() {
            None => return Ok(completed),
            Some(e) => completed.push(completed_one(d, e))?,
        }
    }
    Ok(completed)
}

/// The program before its next file: what this one declared is out of scope, and its structs are completed for the others.
fn next_file<'a>(
    alloc: Global,
    state: State<'a>,
    tags: &[&'a Text],
) -> Result<State<'a>, AllocError>
    ensures { IfOk result (Follows (map now tags.now) state.entry) }
{
    let mut state = state;
    if state.here.unit == u32::MAX {
        drop(state);
        return Err(AllocError);
    }
    let defs = match unfinished(alloc, tags) {
        Ok(defs) => defs,
        Err(f) => {
            drop(state);
            return Err(f);
        }
    };
    let completed = std::mem::replace(&mut state.here.defs, defs);
    let others = std::mem::replace(&mut state.others, Vec::new(alloc));
    match completed_by(alloc, others, completed.into_defs()) {
        Ok(others) => state.others = others,
        Err(f) => {
            drop(state);
            return Err(f);
        }
    }
    state.here.unit += 1;
    state.here.table.end(Mark {
        height: 3,
        start: 0,
    });
    let _outside = state.here.table.begin();
    Ok(state)
}

/// A fault in this file. A name is never unknown here, since the walk goes on behind it.
fn in_file(unit: u32, f: Fault) -> FileFault
    ensures { result ≡ in_file unit f }
{
    match f {
        Fault::Rule { rule, at } => FileFault::Rule { rule, unit, at },
        Fault::Unknown { name: _ } => FileFault::NoMemory,
        Fault::NoMemory => FileFault::NoMemory,
    }
}

/// A file, and what stands before the next one. At a broken rule it answers in which file it is.
fn file<'a>(
    alloc: Global,
    state: State<'a>,
    tags: &[&'a Text],
    unit: &'a Unit,
) -> Result<State<'a>, FileFault>
    ensures { Looks (map now tags.now) unit.now.externals state.entry result }
{
    let number = state.here.unit;
    match externals(alloc, state, unit.externals.as_slice()) {
        Ok(s) => {
            let next = next_file(alloc, s, tags)?;
            Ok(next)
        }
        Err(f) => Err(in_file(number, f)),
    }
}

/// Looks through the files of a program with these tags.
fn files_with<'a>(
    alloc: Global,
    tags: &[&'a Text],
    units: &'a [Unit],
) -> Result<State<'a>, FileFault>
    ensures { map now tags.now ≡ tags_of (map externals_of units.now) → LooksThrough (map externals_of units.now) result }
{
    let mut state = at_first(alloc, tags)?;
    for unit in units {
        state = match file(alloc, state, tags, unit) {
            Ok(s) => s,
            Err(f) => return Err(f),
        };
    }
    Ok(state)
}

/// Looks through the files of a program. Answers the first rule that is broken.
pub fn all_files<'a>(alloc: Global, units: &'a [Unit]) -> Result<State<'a>, FileFault>
    ensures { LooksThrough (map externals_of units.now) result }
{
    let found = tags_of(alloc, units)?;
    files_with(alloc, &found.tags, units)
}
