// The rows of a program's objects (C90 6.5.7, 6.7.2).
ghost use Rattle.std.specs.Prelude.{◌≡◌, ◌++◌, ◌∷◌, ℕ, List, map, length, replicate, option_map, IfOk, OnOk};
ghost use Rattle.c_tree.specs.declared.rows.Start.TheVariants.{Number};
ghost use Rattle.c_typing.specs.Plain.{plain};
ghost use Rattle.c_defs.specs.Depths.{deepest};
ghost use Rattle.c_defs.specs.Leaves.{leaf_count};
ghost use Rattle.c_linkage.specs.FileNumbers.{number_at};
ghost use Rattle.c_linkage.specs.Names.{defining};
ghost use Rattle.c_initial.specs.Begins.{Within};
ghost use Rattle.c_initial.specs.Starts.{begins_of_row, begins_in};
ghost use Rattle.c_linkage.specs.Wanted.{started};
ghost use Rattle.c_rows.specs.Placed.{start_by};
ghost use Rattle.c_rows.specs.Objects.{start_number, started_at, starts_by, object_said, said_by, said_all};

use crate::places::Places;
use c_defs::StructsView;
use c_initial::Begin;
use c_judge::copied;
use c_linkage::{Definition, FileNumbers, Started};
use c_tree::{CType, ObjectRow, Start, StructDef};
use ldb_words::{Many, Text};
use std::alloc::{AllocError, Global};

/// The objects with initializers, and their numbers by file and name.
#[derive(Drop)]
pub struct Starts<'s, 'a> {
    pub defs: &'s [StructDef],
    pub of: &'s [Started<'a>],
    pub numbers: FileNumbers<'s>,
}

/// The numbers of objects with initializers. Fails also where there are 2^32.
pub fn start_numbers<'s, 'a>(
    alloc: Global,
    starts: &'s [Started<'a>],
) -> Result<FileNumbers<'s>, AllocError>
    ensures { IfOk result (λ m. (u : ℕ) (name : List ℕ) → number_at m u name ≡ start_number 0 (map started starts.now) u name) }
{
    let mut numbers = FileNumbers::new(alloc);
    let mut i = starts.len();
    'numbering: while i > 0 {
        i -= 1;
        let Ok(number) = u32::try_from(i) else {
            return Err(AllocError);
        };
        let s = &starts[i];
        numbers.set(s.unit, s.name.as_bytes(), number)?;
    }
    Ok(numbers)
}

/// A leaf that holds a place at first: so many bytes past the begin of the object of a name. Offsets of 2^32 and more, which no place within an
/// object has, are refused.
fn place_start<'s>(
    places: &Places<'s>,
    unit: u32,
    name: &'s Text,
    bytes: u64,
) -> Result<Start, AllocError>
    ensures { IfOk result (λ s. s ≡ start_by places.now unit (Within name.now bytes)) }
{
    let object = places.object(unit, name.as_bytes()).unwrap_or(0);
    match u32::try_from(bytes) {
        Err(_) => Err(AllocError),
        Ok(offset) => Ok(Start::Object { object, offset }),
    }
}

/// Adds so many zeros.
fn add_zeros(starts: &mut Vec<Start>, n: u64) -> Result<(), AllocError>
    ensures { OnOk result (starts.new.items ≡ starts.old.items ++ replicate n (Number 0)) }
{
    for _ in 0..n {
        starts.push(Start::Number(0))?;
    }
    Ok(())
}

/// Adds what a leaf holds at first, or the leaves of a run of zeros.
fn add_begin<'s, 'a>(
    places: &Places<'s>,
    unit: u32,
    starts: &mut Vec<Start>,
    begin: &'s Begin<'a>,
) -> Result<(), AllocError>
    ensures { OnOk result (starts.new.items ≡ starts.old.items ++ map (start_by places.now unit) (begins_of_row begin.now)) }
{
    match *begin {
        Begin::Bits(n) => starts.push(Start::Number(n))?,
        Begin::Within(name, bytes) => starts.push(place_start(places, unit, name, bytes)?)?,
        Begin::Text(k) => starts.push(Start::Str(k))?,
        Begin::Zeros(n) => add_zeros(starts, n)?,
    }
    Ok(())
}

/// What the leaves of an initialized object hold at first.
fn given<'s, 'a>(
    alloc: Global,
    places: &Places<'s>,
    unit: u32,
    begins: &'s [Begin<'a>],
) -> Result<Vec<Start>, AllocError>
    ensures { IfOk result (λ l. l.items ≡ map (start_by places.now unit) (begins_in begins.now)) }
{
    let mut starts = Vec::new(alloc);
    for begin in begins {
        add_begin(places, unit, &mut starts, begin)?;
    }
    Ok(starts)
}

/// What the leaves of an object without an initializer hold at first: zeros (C90 6.5.7).
fn zeros(alloc: Global, defs: &[StructDef], t: &CType) -> Result<Vec<Start>, AllocError>
    ensures { IfOk result (λ l. l.items ≡ replicate (leaf_count defs.now deepest (plain t.now)) (Number 0)) }
{
    let n = StructsView::of(defs).leaf_count(t)?;
    let mut starts = Vec::new(alloc);
    add_zeros(&mut starts, u64::from(n))?;
    Ok(starts)
}

/// The initializer of an object, where it has one.
fn found<'s, 'a>(starts: &Starts<'s, 'a>, d: &'s Definition<'a>) -> Option<&'s Started<'a>>
    ensures { option_map (λ s. started s.now) result ≡ started_at starts.now.of.now (number_at starts.now.numbers d.now.unit d.now.name.now) }
{
    match starts.numbers.find(d.unit, d.name.as_bytes()) {
        None => None,
        Some(n) => starts.of.get(n as usize),
    }
}

/// What the leaves of an object hold at first.
fn held<'s, 'a>(
    alloc: Global,
    places: &Places<'s>,
    starts: &Starts<'s, 'a>,
    d: &'s Definition<'a>,
    t: &CType,
) -> Result<Vec<Start>, AllocError>
    ensures { IfOk result (λ l. l.items ≡ starts_by places.now starts.now (defining d.now) (plain t.now)) }
{
    match found(&*starts, d) {
        None => zeros(alloc, starts.defs, t),
        Some(s) => given(alloc, places, d.unit, &s.begins),
    }
}

/// The row of an object of a type.
fn object_row<'s, 'a>(
    alloc: Global,
    places: &Places<'s>,
    starts: &Starts<'s, 'a>,
    d: &'s Definition<'a>,
    t: &CType,
) -> Result<ObjectRow, AllocError>
    ensures { IfOk result (λ o. object_said o ≡ said_by places.now starts.now (defining d.now) (plain t.now)) }
{
    let start = held(alloc, places, starts, d, t)?;
    let name = Text::from_slice(alloc, d.name.as_bytes())?;
    Ok(ObjectRow {
        name,
        unit: d.unit,
        is_static: d.is_static,
        ctype: copied(t)?,
        start: Many::from_vec(start),
    })
}

/// The rows of some objects of these types.
pub fn object_rows<'s, 'a>(
    alloc: Global,
    places: &Places<'s>,
    starts: &Starts<'s, 'a>,
    objects: &'s [Definition<'a>],
    types: &[CType],
) -> Result<Vec<ObjectRow>, AllocError>
    requires { length types.now ≡ length objects.now }
    ensures { IfOk result (λ os. map object_said os.items ≡ said_all places.now starts.now (map defining objects.now) (map plain types.now)) }
{
    let mut rows = Vec::new(alloc);
    for (i, d) in objects.iter().enumerate() {
        let row = object_row(alloc, places, starts, d, &types[i])?;
        rows.push(row)?;
    }
    Ok(rows)
}
