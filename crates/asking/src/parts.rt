// How much there is inside a type.

ghost use Rattle.table_model.specs.Types.{is_within, each_part};
ghost use Rattle.asking.specs.Printing.{FoundWithin};

use ps_store::{DictId, PsObj, PsStore};
use table_model::Lack;
use table_read::{dict_at, items_at};
use table_types::{TypeKind, member_in, type_kind};

/// How many parts may still be walked behind a type that is at most so deep: it and those of its item, its target or its members, a
/// struct counting anew wherever it stands. None is walked behind the last.
#[cycle(parts)]
pub fn parts_left(store: &PsStore, deep: u32, left: u32, t: DictId) -> Result<u32, Lack>
    ensures { FoundWithin result (is_within store.now deep t) }
{
    if left == 0 {
        return Ok(0);
    }
    if deep == 0 {
        return Err(Lack::TooDeep);
    }
    match type_kind(store, t)? {
        TypeKind::Int | TypeKind::Unsigned | TypeKind::Char => Ok(left - 1),
        TypeKind::Pointer => {
            let to = dict_at(store, t, b"to")?;
            match type_kind(store, to)? {
                TypeKind::Struct => Ok(left - 1),
                _ => parts_left(store, deep - 1, left - 1, to),
            }
        }
        TypeKind::Array => {
            let item = dict_at(store, t, b"to")?;
            parts_left(store, deep - 1, left - 1, item)
        }
        TypeKind::Struct => {
            let members = items_at(store, t, b"members")?;
            members_left(store, deep - 1, left - 1, members)
        }
    }
}

/// The same behind the types of some members.
#[cycle(parts)]
fn members_left(store: &PsStore, deep: u32, left: u32, members: &[PsObj]) -> Result<u32, Lack>
    ensures { FoundWithin result (each_part store.now (λ m. is_within store.now deep m) members.now) }
{
    let mut rest = left;
    for object in members {
        if rest == 0 {
            return Ok(0);
        }
        let member = match member_in(store, *object) {
            Ok(member) => member,
            Err(lack) => return Err(lack),
        };
        rest = match parts_left(store, deep, rest, member.ctype) {
            Ok(more) => more,
            Err(lack) => return Err(lack),
        };
    }
    Ok(rest)
}
