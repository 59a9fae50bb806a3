// How types are aligned (C90 6.1.2.5, 6.5.2.1).
ghost use Rattle.std.specs.Prelude.{◌≡◌, ◌≤◌};
ghost use Rattle.c_tree.specs.Layout.{members_of, alignment_within, alignment_of_members};
ghost use Rattle.c_defs.specs.Kept.{AreKept, bytes_aligned};

use crate::rows::{StructRow, row_at};
use c_tree::{CType, Member, StructDef, members};

/// Whether a type that is at most so deep is aligned at 4 bytes. The others are aligned at 1.
#[cycle(aligning)]
pub fn is_wide(defs: &[StructDef], rows: &[Option<StructRow<'_>>], deep: u32, t: &CType) -> bool
    requires kept { AreKept defs.now rows.now }
    requires deep { deep ≤ 64 }
    ensures { alignment_within defs.now deep t.now ≡ bytes_aligned result }
{
    if deep == 0 {
        return false;
    }
    match t {
        CType::Int | CType::Unsigned | CType::Pointer(_) => true,
        CType::Char | CType::Void => false,
        CType::Array(item, _) => is_wide(defs, rows, deep - 1, item),
        CType::Struct(s) => is_struct_wide(defs, rows, deep - 1, *s),
    }
}

/// Whether a member of a struct is aligned at 4 bytes.
#[cycle(aligning)]
fn is_struct_wide(defs: &[StructDef], rows: &[Option<StructRow<'_>>], deep: u32, s: u32) -> bool
    requires kept { AreKept defs.now rows.now }
    requires deep { deep ≤ 63 }
    ensures { alignment_of_members (alignment_within defs.now deep) (members_of defs.now s) ≡ bytes_aligned result }
{
    if let Some(row) = row_at(rows, s) {
        if row.deepest <= deep {
            return row.wide;
        }
    }
    any_wide(defs, rows, deep, members(defs, s))
}

/// Whether one of some members is aligned at 4 bytes.
#[cycle(aligning)]
pub fn any_wide(
    defs: &[StructDef],
    rows: &[Option<StructRow<'_>>],
    deep: u32,
    members: &[Member],
) -> bool
    requires kept { AreKept defs.now rows.now }
    requires deep { deep ≤ 64 }
    ensures { alignment_of_members (alignment_within defs.now deep) members.now ≡ bytes_aligned result }
{
    for member in members {
        if is_wide(defs, rows, deep, &member.ctype) {
            return true;
        }
    }
    false
}
