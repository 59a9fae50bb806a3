// The layout of structs (C90 6.5.2.1): each member stands at the least offset that fits its alignment, and the size at the least multiple of the largest.
ghost use Rattle.std.specs.Prelude.{◌≡◌, if◌then◌else◌, ◌≤◌, IfOk};
ghost use Rattle.c_struct.specs.Laying.{open_of, IsPlace, IsMember, AreLaidOrLarge, IsRowOrLarge};

use crate::members::{OpenStruct, WrittenMember};
use c_defs::StructsView;
use c_judge::copied;
use c_tree::{CType, LARGEST, Member, StructDef, size_of};
use ldb_words::{Many, Text};
use std::alloc::{AllocError, Global};

/// The alignment of what is aligned at 4 bytes or at 1.
fn alignment(wide: bool) -> u32
    ensures { result ≡ (if wide then 4 else 1) }
{
    if wide { 4 } else { 1 }
}

/// Where a member of a type stands behind what ends at `from`, and where it ends; nothing where it ends behind the largest size.
fn place(defs: &StructsView<'_, '_>, from: u32, t: &CType) -> Option<(u32, u32)>
    requires { from ≤ 1048576 }
    ensures { IsPlace defs.now from t.now result }
{
    let at = from.next_multiple_of(alignment(defs.is_wide(t)));
    match size_of(t, defs.defs()) {
        Err(_) => None,
        Ok(size) => {
            if at + size > LARGEST {
                return None;
            }
            Some((at, at + size))
        }
    }
}

/// A member at an offset.
fn member(alloc: Global, m: &WrittenMember, at: u32) -> Result<Member, AllocError>
    ensures { IfOk result (IsMember m.now at) }
{
    Ok(Member {
        name: Text::from_slice(alloc, m.name.as_bytes())?,
        at,
        ctype: copied(&m.ctype)?,
    })
}

/// The members of a struct with their offsets, and where the last ends; nothing where it ends behind the largest size.
fn lay(
    alloc: Global,
    defs: &StructsView<'_, '_>,
    written: &[WrittenMember],
) -> Result<Option<(Many<Member>, u32)>, AllocError>
    ensures { IfOk result (AreLaidOrLarge defs.now written.now) }
{
    let mut laid = Many::new(alloc);
    let mut end = 0;
    for m in written {
        let p = match place(defs, end, &m.ctype) {
            Some(p) => p,
            None => return Ok(None),
        };
        laid.push(member(alloc, m, p.0)?)?;
        end = p.1;
    }
    Ok(Some((laid, end)))
}

/// The row of a struct that is completed; nothing where it has more than 1,048,576 bytes.
pub fn row(
    alloc: Global,
    defs: &StructsView<'_, '_>,
    o: &OpenStruct,
) -> Result<Option<StructDef>, AllocError>
    ensures { IfOk result (IsRowOrLarge defs.now (open_of o.now)) }
{
    match lay(alloc, defs, &o.members)? {
        None => Ok(None),
        Some((members, end)) => {
            let wide = defs.any_wide(members.as_slice());
            Ok(Some(StructDef {
                tag: Text::from_slice(alloc, o.tag.as_bytes())?,
                size: end.next_multiple_of(alignment(wide)),
                members,
            }))
        }
    }
}
