// The leaves of types, and what stands there.

ghost use Rattle.evaluating.specs.Told.{StoresNone};

use abs_mem::AbsMem;
use c_tree::{CType, Leaf, StructDef, members, size_of};
use frame_bytes::{Frame, Place};
use ldb_words::Kind;
use ps_ops::Operators;
use std::alloc::{AllocError, Global};
use table_asks::{AskFault, memory_fault};

/// The deepest that a type may be.
const DEEPEST: u32 = 64;

/// The most parts that a type may have. A type whose leaves don't overlap has fewer.
const MOST_PARTS: usize = 4_194_304;

/// Leaves that are gathered, and how many parts of a type were met.
#[derive(Drop)]
struct Gathered {
    leaves: Vec<Leaf>,
    parts: usize,
}

impl Gathered {
    /// Adds a leaf.
    fn add(&mut self, at: u32, kind: Kind) -> Result<(), AllocError> {
        self.leaves.push(Leaf { at, kind })?;
        Ok(())
    }
}

/// Adds the leaves of a type that stands at an offset.
#[cycle(gathering)]
fn add_type(
    gathered: &mut Gathered,
    defs: &[StructDef],
    deep: u32,
    t: &CType,
    at: u32,
) -> Result<(), AllocError> {
    if deep == 0 || gathered.parts >= MOST_PARTS {
        return Err(AllocError);
    }
    gathered.parts = gathered.parts.saturating_add(1);
    match t {
        CType::Char => gathered.add(at, Kind::Byte),
        CType::Int | CType::Unsigned => gathered.add(at, Kind::Word),
        CType::Pointer(_) => gathered.add(at, Kind::Address),
        CType::Void => Ok(()),
        CType::Array(item, n) => add_items(gathered, defs, deep, item, *n, at),
        CType::Struct(s) => add_members(gathered, defs, deep, *s, at),
    }
}

/// Adds the leaves of so many items, one behind the other.
#[cycle(gathering)]
fn add_items(
    gathered: &mut Gathered,
    defs: &[StructDef],
    deep: u32,
    item: &CType,
    n: u32,
    at: u32,
) -> Result<(), AllocError> {
    if deep == 0 {
        return Err(AllocError);
    }
    let size = size_of(item, defs).unwrap_or(0);
    let mut at = at;
    for _ in 0..n {
        add_type(gathered, defs, deep - 1, item, at)?;
        at = at.wrapping_add(size);
    }
    Ok(())
}

/// Adds the leaves of the members of a struct.
#[cycle(gathering)]
fn add_members(
    gathered: &mut Gathered,
    defs: &[StructDef],
    deep: u32,
    s: u32,
    at: u32,
) -> Result<(), AllocError> {
    if deep == 0 {
        return Err(AllocError);
    }
    for member in members(defs, s) {
        add_type(
            gathered,
            defs,
            deep - 1,
            &member.ctype,
            at.wrapping_add(member.at),
        )?;
    }
    Ok(())
}

/// The leaves of a type in order. There is no memory for a type whose leaves overlap to more than four million parts.
pub fn leaves_of(alloc: Global, defs: &[StructDef], t: &CType) -> Result<Vec<Leaf>, AllocError> {
    let mut gathered = Gathered {
        leaves: Vec::new(alloc),
        parts: 0,
    };
    add_type(&mut gathered, defs, DEEPEST, t, 0)?;
    Ok(gathered.leaves)
}

/// A place so many bytes further.
pub fn further(place: Place, bytes: u32) -> Place {
    Place {
        space: place.space,
        at: place.at.wrapping_add(bytes),
    }
}

/// What stands in the leaves at a place, in order. rangecheck comes where one is outside.
pub fn fetch_leaves<W: AbsMem + Drop>(
    alloc: Global,
    talk: &mut Operators<W>,
    frame: &Frame,
    place: Place,
    leaves: &[Leaf],
) -> Result<Vec<u32>, AskFault>
    ensures told { StoresNone W.seen talk.old result talk.new }
{
    talk.memory.set_frame(Some(frame));
    let mut values = Vec::new(alloc);
    for leaf in leaves {
        match talk.memory.fetch(further(place, leaf.at), leaf.kind) {
            Err(fault) => return Err(memory_fault(fault)),
            Ok(value) => match values.push(value) {
                Ok(()) => {}
                Err(_) => return Err(AskFault::NoMemory),
            },
        }
    }
    Ok(values)
}
