// Sizes and leaves of types (C90 6.1.2.5, 6.5.2.1). The layout is the same on all targets.
ghost use Rattle.std.specs.Prelude.{◌≡◌, ◌≤◌, ◌<◌, ◌*◌, ◌%◌, ◌^◌, ◌++◌, IfOk, OnOk, [], ◌∷◌};
ghost use Rattle.c_tree.specs.declared.types.Leaf.{Leaf};
ghost use Rattle.c_tree.specs.declared.layout.LeafFault.TheVariants.{NoMemory};
ghost use Rattle.c_tree.specs.Layout.{size_of as size, struct_size_of, members_of, leaves_within, leaves_of_members, repeated};
ghost use Rattle.c_tree.specs.Listed.{IsSize, AreLeaves, kept_at};
ghost use Rattle.std.specs.Prelude.{List, length};
ghost use Rattle.std.specs.List.{AllByRecursion};
ghost use Rattle.c_tree.specs.declared.types.CType.{CType};
ghost use Rattle.c_tree.specs.declared.types.StructDef.{StructDef};
ghost use Rattle.c_tree.specs.Layout.{leaves_of, IsWithin};
ghost use Rattle.c_tree.specs.Ordered.{AllLaidOut, IsAligned, LieIn};

use crate::{CType, Leaf, Member, StructDef};
use ldb_words::Kind;
use std::alloc::{AllocError, Global};

/// The largest size of a type, in bytes.
pub const LARGEST: u32 = 1_048_576;

/// The deepest that a type may be.
const DEEPEST: u32 = 64;

/// A type has more than 1,048,576 bytes.
#[derive(Clone, Copy, PartialEq, Eq, Debug)]
pub struct TooBig;

/// Why a type's leaves are not given.
#[derive(Clone, Copy, PartialEq, Eq, Debug)]
pub enum LeafFault {
    /// The type has more than 1,048,576 bytes.
    TooBig,
    NoMemory,
}

impl From<AllocError> for LeafFault {
    ghost from_gives = { λ _ e. e ≡ NoMemory };

    fn from(_: AllocError) -> Self {
        LeafFault::NoMemory
    }
}

/// The size of a type in bytes, or TooBig exactly where it is above 1,048,576.
/// Of a type that is not complete it is that of what is known: `void`, an array without a bound and a struct without members have none.
pub fn size_of(t: &CType, defs: &[StructDef]) -> Result<u32, TooBig>
    ensures { IsSize (size defs.now t.now) result }
{
    match t {
        CType::Char => Ok(1),
        CType::Int | CType::Unsigned | CType::Pointer(_) => Ok(4),
        CType::Void | CType::Array(_, 0) => Ok(0),
        CType::Array(item, n) => items_size(size_of(item, defs)?, *n),
        CType::Struct(s) => limited(struct_size(defs, *s)),
    }
}

/// The size of so many items of a size.
fn items_size(size: u32, n: u32) -> Result<u32, TooBig>
    requires { size ≤ 1048576 }
    ensures { IsSize (n * size) result }
{
    let all = u64::from(n) * u64::from(size);
    if all > u64::from(LARGEST) {
        return Err(TooBig);
    }
    Ok(all as u32)
}

/// A size that is not too large.
fn limited(size: u32) -> Result<u32, TooBig>
    ensures { IsSize size result }
{
    if size > LARGEST {
        return Err(TooBig);
    }
    Ok(size)
}

/// The size of a struct by its number.
fn struct_size(defs: &[StructDef], s: u32) -> u32
    ensures { result ≡ struct_size_of defs.now s }
{
    match defs.get(s as usize) {
        None => 0,
        Some(def) => def.size,
    }
}

/// The leaves of a type in order, or TooBig exactly where its size is above 1,048,576, or NoMemory.
/// In structs that are laid out they stand in order of offset. Offsets are added modulo 2^32.
/// A type is at most 64 deep: what lies deeper is left out.
pub fn leaves(alloc: Global, t: &CType, defs: &[StructDef]) -> Result<Vec<Leaf>, LeafFault>
    ensures { AreLeaves defs.now t.now result }
{
    if size_of(t, defs).is_err() {
        return Err(LeafFault::TooBig);
    }
    let mut out = Vec::new(alloc);
    add_leaves(&mut out, t, defs, 0, DEEPEST)?;
    Ok(out)
}

/// Adds the leaves of a type of at most this depth that stands at an offset.
#[cycle(leaves)]
fn add_leaves(
    out: &mut Vec<Leaf>,
    t: &CType,
    defs: &[StructDef],
    at: u32,
    deep: u32,
) -> Result<(), AllocError>
    ensures { OnOk result (out.new.items ≡ out.old.items ++ kept_at at (leaves_within defs.now deep t.now)) }
{
    if deep == 0 {
        return Ok(());
    }
    match t {
        CType::Char => add_leaf(out, at, Kind::Byte),
        CType::Int | CType::Unsigned => add_leaf(out, at, Kind::Word),
        CType::Pointer(_) => add_leaf(out, at, Kind::Address),
        CType::Void => Ok(()),
        CType::Array(item, n) => add_items(out, item, *n, defs, at, deep - 1),
        CType::Struct(s) => add_members(out, members(defs, *s), defs, at, deep - 1),
    }
}

/// The members of a struct by its number; none where there is no such struct.
pub fn members(defs: &[StructDef], s: u32) -> &[Member]
    ensures { result.now ≡ members_of defs.now s }
{
    match defs.get(s as usize) {
        None => &[],
        Some(def) => def.members.as_slice(),
    }
}

/// Adds one leaf.
fn add_leaf(out: &mut Vec<Leaf>, at: u32, kind: Kind) -> Result<(), AllocError>
    ensures { OnOk result (out.new.items ≡ out.old.items ++ record { at = at; kind = kind } ∷ []) }
{
    out.push(Leaf { at, kind })?;
    Ok(())
}

/// Adds the leaves of so many items, one behind the other.
#[cycle(leaves)]
fn add_items(
    out: &mut Vec<Leaf>,
    item: &CType,
    n: u32,
    defs: &[StructDef],
    at: u32,
    deep: u32,
) -> Result<(), AllocError>
    ensures { OnOk result (out.new.items ≡ out.old.items ++ kept_at at (repeated n (size defs.now item.now) 0 (leaves_within defs.now deep item.now))) }
{
    let size = wrapped_size(item, defs);
    let mut at = at;
    for _i in 0..n {
        add_leaves(out, item, defs, at, deep)?;
        at = at.wrapping_add(size);
    }
    Ok(())
}

/// Adds the leaves of a struct's members.
#[cycle(leaves)]
fn add_members(
    out: &mut Vec<Leaf>,
    members: &[Member],
    defs: &[StructDef],
    at: u32,
    deep: u32,
) -> Result<(), AllocError>
    ensures { OnOk result (out.new.items ≡ out.old.items ++ kept_at at (leaves_of_members (leaves_within defs.now deep) members.now)) }
{
    for member in members {
        add_leaves(out, &member.ctype, defs, at.wrapping_add(member.at), deep)?;
    }
    Ok(())
}

/// The size of a type modulo 2^32.
fn wrapped_size(t: &CType, defs: &[StructDef]) -> u32
    ensures { result ≡ size defs.now t.now % 2 ^ 32 }
{
    match t {
        CType::Char => 1,
        CType::Int | CType::Unsigned | CType::Pointer(_) => 4,
        CType::Void => 0,
        CType::Array(item, n) => n.wrapping_mul(wrapped_size(item, defs)),
        CType::Struct(s) => struct_size(defs, *s),
    }
}

/// Where each struct stands as the layout has it, the leaves of a type ascend: each begins where the one before it has ended or behind that, and the last ends inside the type's size.
pub fn leaves_ascend()
    ensures { (defs : List StructDef) (t : CType) → AllLaidOut defs → LieIn 0 (leaves_of defs t) (size defs t) }
{}

/// There each leaf stands at a multiple of its width.
pub fn leaves_are_aligned()
    ensures { (defs : List StructDef) (t : CType) → AllLaidOut defs → AllByRecursion IsAligned (leaves_of defs t) }
{}

/// There a type that is at most 64 deep has at most four bytes for each leaf.
pub fn leaves_fill()
    ensures { (defs : List StructDef) (t : CType) → AllLaidOut defs → IsWithin defs 64 t → size defs t ≤ 4 * length (leaves_of defs t) }
{}
