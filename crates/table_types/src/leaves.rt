// The leaf at an offset.

ghost use Rattle.std.specs.Prelude.{◌≡◌, None};
ghost use Rattle.table_types.specs.Offsets.{scalar_at, item_at, nearer, holder, member_at, leaf_within, leaf_in};

use crate::kinds::{TypeKind, member_in, type_kind};
use ldb_words::Kind;
use ps_store::{DictId, PsObj, PsStore};
use table_model::{Found, Lack};
use table_read::{dict_at, items_at, number_at};

/// The most that a type is deep.
const MOST_DEEP: u32 = 64;

/// A scalar's leaf, if the offset is its beginning.
fn scalar_at(kind: Kind, at: u32) -> Option<Kind>
    ensures { result ≡ scalar_at kind at }
{
    if at == 0 { Some(kind) } else { None }
}

/// Of a member and the best one so far, by their offsets and types, the one nearest below an offset; of equal ones the later.
fn nearer(at: u32, best: Option<(u32, DictId)>, from: u32, ctype: DictId) -> Option<(u32, DictId)>
    ensures { result ≡ nearer at best from ctype }
{
    match best {
        None => {
            if from <= at {
                Some((from, ctype))
            } else {
                None
            }
        }
        Some((greatest, old)) => {
            if from <= at && greatest <= from {
                Some((from, ctype))
            } else {
                Some((greatest, old))
            }
        }
    }
}

/// The offset and the type of the member nearest below an offset.
fn holder(store: &PsStore, at: u32, members: &[PsObj]) -> Result<Option<(u32, DictId)>, Lack>
    ensures { result ≡ holder store.now at None members.now }
{
    let mut best = None;
    for object in members {
        let member = member_in(store, *object)?;
        best = nearer(at, best, member.at, member.ctype);
    }
    Ok(best)
}

/// The kind of the leaf at an offset, of the member that holds it, whose type is at most so deep.
#[cycle(leaf)]
fn leaf_held(
    store: &PsStore,
    deep: u32,
    held: Option<(u32, DictId)>,
    at: u32,
) -> Result<Option<Kind>, Lack>
    ensures { result ≡ member_at (λ m j. leaf_within store.now deep m j) at held }
{
    match held {
        None => Ok(None),
        Some((from, ctype)) => leaf_within(store, deep, ctype, at.saturating_sub(from)),
    }
}

/// The kind of the leaf at an offset of an item of an array.
#[cycle(leaf)]
fn leaf_of_item(
    store: &PsStore,
    deep: u32,
    item: DictId,
    size: u32,
    count: u32,
    at: u32,
) -> Result<Option<Kind>, Lack>
    ensures { result ≡ item_at (λ j. leaf_within store.now deep item j) size count at }
{
    if size > 0 && at / size < count {
        leaf_within(store, deep, item, at % size)
    } else {
        Ok(None)
    }
}

/// The kind of the leaf at an offset of a type that is at most so deep.
#[cycle(leaf)]
#[tactic(auto, using(crate::proofs::Unfolding::leaf_none, crate::proofs::Unfolding::leaf_by))]
fn leaf_within(store: &PsStore, deep: u32, t: DictId, at: u32) -> Result<Option<Kind>, Lack>
    ensures { result ≡ leaf_within store.now deep t at }
{
    if deep == 0 {
        return Err(Lack::TooDeep);
    }
    match type_kind(store, t)? {
        TypeKind::Int | TypeKind::Unsigned => Ok(scalar_at(Kind::Word, at)),
        TypeKind::Char => Ok(scalar_at(Kind::Byte, at)),
        TypeKind::Pointer => Ok(scalar_at(Kind::Address, at)),
        TypeKind::Array => {
            let item = dict_at(store, t, b"to")?;
            let size = number_at(store, item, b"size")?;
            let count = number_at(store, t, b"count")?;
            leaf_of_item(store, deep - 1, item, size, count, at)
        }
        TypeKind::Struct => {
            let members = items_at(store, t, b"members")?;
            match holder(store, at, members) {
                Err(lack) => Err(lack),
                Ok(held) => leaf_held(store, deep - 1, held, at),
            }
        }
    }
}

/// The kind of the leaf at an offset of an object, if there is one. Its type is at most 64 deep on the way.
pub fn leaf_in(store: &PsStore, found: Option<Found>, at: u32) -> Result<Option<Kind>, Lack>
    ensures { result ≡ leaf_in store.now found at }
{
    match found {
        None => Ok(None),
        Some(o) => leaf_within(store, MOST_DEEP, o.ctype, at),
    }
}
