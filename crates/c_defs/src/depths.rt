// How deep types are.
ghost use Rattle.std.specs.Prelude.{◌≡◌, ◌≤◌, ◌+◌, ℕ, nat_le};
ghost use Rattle.c_tree.specs.Layout.{members_of};
ghost use Rattle.c_typing.specs.Plain.{plain};
ghost use Rattle.c_defs.specs.Depths.{is_within, are_within};
ghost use Rattle.c_defs.specs.Kept.{AreKept};

use crate::rows::{StructRow, is_struct, row_at};
use c_tree::{CType, Member, StructDef, members};

/// How deep a type is, where that is at most so deep; one more stands for a deeper type.
#[cycle(depth)]
pub fn depth(defs: &[StructDef], rows: &[Option<StructRow<'_>>], deep: u32, t: &CType) -> u32
    requires kept { AreKept defs.now rows.now }
    requires deep { deep ≤ 64 }
    ensures most { result ≤ deep + 1 }
    ensures within { (n : ℕ) → n ≤ deep → is_within defs.now n (plain t.now) ≡ nat_le result n }
{
    if deep == 0 {
        return 1;
    }
    match t {
        CType::Pointer(target) => {
            if is_struct(target) {
                return 1;
            }
            depth(defs, rows, deep - 1, target) + 1
        }
        CType::Array(item, _) => depth(defs, rows, deep - 1, item) + 1,
        CType::Struct(s) => struct_depth(defs, rows, deep - 1, *s) + 1,
        CType::Char | CType::Int | CType::Unsigned | CType::Void => 1,
    }
}

/// How deep the deepest member of a struct is, where that is at most so deep; one more stands for a deeper one.
#[cycle(depth)]
fn struct_depth(defs: &[StructDef], rows: &[Option<StructRow<'_>>], deep: u32, s: u32) -> u32
    requires kept { AreKept defs.now rows.now }
    requires deep { deep ≤ 63 }
    ensures most { result ≤ deep + 1 }
    ensures within { (n : ℕ) → n ≤ deep → are_within (is_within defs.now n) (members_of defs.now s) ≡ nat_le result n }
{
    match row_at(rows, s) {
        Some(row) => row.deepest.min(deep + 1),
        None => deepest(defs, rows, deep, members(defs, s)),
    }
}

/// How deep the deepest of some members is, where that is at most so deep; one more stands for a deeper one.
#[cycle(depth)]
pub fn deepest(
    defs: &[StructDef],
    rows: &[Option<StructRow<'_>>],
    deep: u32,
    members: &[Member],
) -> u32
    requires kept { AreKept defs.now rows.now }
    requires deep { deep ≤ 63 }
    ensures most { result ≤ deep + 1 }
    ensures within { (n : ℕ) → n ≤ deep → are_within (is_within defs.now n) members.now ≡ nat_le result n }
{
    let mut deepest = 0;
    for member in members {
        let d = depth(defs, rows, deep, &member.ctype);
        if d > deep {
            return d;
        }
        deepest = deepest.max(d);
    }
    deepest
}
