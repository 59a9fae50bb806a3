// How many leaves types have.
ghost use Rattle.std.specs.Prelude.{◌≡◌, ◌≤◌, ◌+◌, ◌*◌, drop, IfOk};
ghost use Rattle.c_tree.specs.Layout.{members_of};
ghost use Rattle.c_typing.specs.Plain.{plain};
ghost use Rattle.c_defs.specs.Leaves.{leaf_count, leaves_of_members};
ghost use Rattle.c_defs.specs.Kept.{AreKept, IsCount};

use crate::rows::{StructRow, row_at};
use c_tree::{CType, Member, StructDef, members};
use std::alloc::AllocError;

/// The deepest that a member may be.
const DEEPEST_MEMBER: u32 = 63;

/// So many items of so many leaves.
fn times(n: u32, leaves: u32) -> Result<u32, AllocError>
    ensures { IfOk result (λ all. all ≡ n * leaves) }
{
    match n.checked_mul(leaves) {
        None => Err(AllocError),
        Some(all) => Ok(all),
    }
}

/// So many leaves and so many more.
fn plus(leaves: u32, more: u32) -> Result<u32, AllocError>
    ensures { IfOk result (λ all. all ≡ leaves + more) }
{
    match leaves.checked_add(more) {
        None => Err(AllocError),
        Some(all) => Ok(all),
    }
}

/// How many leaves a type has that is at most so deep. Where they are 2^32 or more, there is no memory for them.
#[cycle(counting)]
#[tactic(auto, using(crate::proofs::Counted::array_count, crate::proofs::Counted::struct_count))]
pub fn leaf_count(
    defs: &[StructDef],
    rows: &[Option<StructRow<'_>>],
    deep: u32,
    t: &CType,
) -> Result<u32, AllocError>
    requires kept { AreKept defs.now rows.now }
    requires deep { deep ≤ 64 }
    ensures { IfOk result (λ n. n ≡ leaf_count defs.now deep (plain t.now)) }
{
    if deep == 0 {
        return Ok(0);
    }
    match t {
        CType::Void => Ok(0),
        CType::Array(item, n) => times(*n, leaf_count(defs, rows, deep - 1, item)?),
        CType::Struct(s) => leaves_of_struct(defs, rows, deep - 1, *s),
        CType::Char | CType::Int | CType::Unsigned | CType::Pointer(_) => Ok(1),
    }
}

/// How many leaves a struct's members have that are at most so deep, where that is kept.
fn kept_leaves(defs: &[StructDef], rows: &[Option<StructRow<'_>>], deep: u32, s: u32) -> Option<u32>
    requires kept { AreKept defs.now rows.now }
    requires deep { deep ≤ 64 }
    ensures { IsCount result (leaves_of_members (leaf_count defs.now deep) (members_of defs.now s)) }
{
    match row_at(rows, s) {
        None => None,
        Some(row) => {
            if row.deepest <= deep.min(DEEPEST_MEMBER) {
                return row.leaves;
            }
            None
        }
    }
}

/// How many leaves a struct's members have that are at most so deep.
#[cycle(counting)]
fn leaves_of_struct(
    defs: &[StructDef],
    rows: &[Option<StructRow<'_>>],
    deep: u32,
    s: u32,
) -> Result<u32, AllocError>
    requires kept { AreKept defs.now rows.now }
    requires deep { deep ≤ 63 }
    ensures { IfOk result (λ n. n ≡ leaves_of_members (leaf_count defs.now deep) (members_of defs.now s)) }
{
    match kept_leaves(defs, rows, deep, s) {
        Some(leaves) => Ok(leaves),
        None => leaves_of_members(defs, rows, deep, members(defs, s)),
    }
}

/// How many leaves some members have that are at most so deep.
#[cycle(counting)]
pub fn leaves_of_members(
    defs: &[StructDef],
    rows: &[Option<StructRow<'_>>],
    deep: u32,
    members: &[Member],
) -> Result<u32, AllocError>
    requires kept { AreKept defs.now rows.now }
    requires deep { deep ≤ 64 }
    ensures { IfOk result (λ n. n ≡ leaves_of_members (leaf_count defs.now deep) members.now) }
{
    let mut leaves = 0;
    for member in members {
        leaves = plus(leaves, leaf_count(defs, rows, deep, &member.ctype)?)?;
    }
    Ok(leaves)
}

/// What is left of so many leaves behind those of some members.
fn behind(
    defs: &[StructDef],
    rows: &[Option<StructRow<'_>>],
    deep: u32,
    all: u32,
    first: &[Member],
) -> Result<u32, AllocError>
    requires kept { AreKept defs.now rows.now }
    requires deep { deep ≤ 64 }
    requires all { leaves_of_members (leaf_count defs.now deep) first.now ≤ all }
    ensures { IfOk result (λ n. n + leaves_of_members (leaf_count defs.now deep) first.now ≡ all) }
{
    let before = leaves_of_members(defs, rows, deep, first)?;
    Ok(all - before)
}

/// How many leaves a struct's members have behind the first `k`.
pub fn leaves_behind(
    defs: &[StructDef],
    rows: &[Option<StructRow<'_>>],
    deep: u32,
    s: u32,
    k: usize,
) -> Result<u32, AllocError>
    requires kept { AreKept defs.now rows.now }
    requires deep { deep ≤ 64 }
    ensures { IfOk result (λ n. n ≡ leaves_of_members (leaf_count defs.now deep) (drop k (members_of defs.now s))) }
{
    let members = members(defs, s);
    match members.get(k..) {
        None => Ok(0),
        Some(rest) => match kept_leaves(defs, rows, deep, s) {
            None => leaves_of_members(defs, rows, deep, rest),
            Some(all) => behind(defs, rows, deep, all, &members[..k]),
        },
    }
}
