// How deep types are.

ghost use Rattle.std.specs.Prelude.{◌≡◌};
ghost use Rattle.table_model.specs.Types.{is_within, each_part};
ghost use Rattle.table_types.specs.Offsets.{checked};

use crate::kinds::{TypeKind, member_in, type_kind};
use ps_store::{DictId, PsObj, PsStore};
use table_model::Lack;
use table_read::{dict_at, items_at};

/// The most that a type is deep.
const MOST_DEEP: u32 = 64;

/// Checks that a type is at most so deep.
#[cycle(depth)]
#[tactic(auto, using(crate::proofs::Unfolding::within_none, crate::proofs::Unfolding::within_by))]
fn check_within(store: &PsStore, deep: u32, t: DictId) -> Result<(), Lack>
    ensures { result ≡ is_within store.now deep t }
{
    if deep == 0 {
        return Err(Lack::TooDeep);
    }
    match type_kind(store, t)? {
        TypeKind::Int | TypeKind::Unsigned | TypeKind::Char => Ok(()),
        TypeKind::Pointer => {
            let to = dict_at(store, t, b"to")?;
            match type_kind(store, to)? {
                TypeKind::Struct => Ok(()),
                _ => check_within(store, deep - 1, to),
            }
        }
        TypeKind::Array => {
            let item = dict_at(store, t, b"to")?;
            check_within(store, deep - 1, item)
        }
        TypeKind::Struct => {
            let members = items_at(store, t, b"members")?;
            check_members(store, deep - 1, members)
        }
    }
}

/// Checks that the types of some members are at most so deep.
#[cycle(depth)]
fn check_members(store: &PsStore, deep: u32, members: &[PsObj]) -> Result<(), Lack>
    ensures { result ≡ each_part store.now (λ m. is_within store.now deep m) members.now }
{
    for object in members {
        let member = member_in(store, *object)?;
        check_within(store, deep, member.ctype)?;
    }
    Ok(())
}

/// Checks that a type is at most 64 deep: an integer and a pointer to a struct are 1 deep, and another pointer, an array and a struct
/// are one deeper than what they lead to or hold.
pub fn check_type(store: &PsStore, t: DictId) -> Result<(), Lack>
    ensures { result ≡ checked store.now t }
{
    check_within(store, MOST_DEEP, t)
}
