// Leaves that are live.

ghost use Rattle.std.specs.Prelude.{◌≡◌};
ghost use Rattle.ldb_words.specs.declared.kinds.Kind.TheVariants.{Byte};
ghost use Rattle.table_model.specs.Types.{same_kind};
ghost use Rattle.table_types.specs.Offsets.{offset_of, is_kind, kind_live, if_offset, items_live, members_live, type_live, checked_found, run_from, byte_run, MOST_RUN};

use crate::depth::check_type;
use crate::kinds::{TypeKind, member_in, type_kind};
use crate::leaves::leaf_in;
use ldb_words::Kind;
use ps_store::{DictId, PsObj, PsStore};
use table_model::{Found, Lack};
use table_read::{dict_at, items_at, number_at};

/// The most that a type is deep.
const MOST_DEEP: u32 = 64;

/// The most bytes of a run that are counted: one more than an integer can be.
const MOST_RUN: u32 = 2_147_483_648;

/// Where in its object a pointer leads.
pub fn offset_of(found: Option<Found>) -> u32
    ensures { result ≡ offset_of found }
{
    match found {
        None => 0,
        Some(o) => o.at,
    }
}

/// Whether two kinds are the same.
fn same_kind(a: Kind, b: Kind) -> bool
    ensures { result ≡ same_kind a b }
{
    match (a, b) {
        (Kind::Byte, Kind::Byte) | (Kind::Word, Kind::Word) | (Kind::Address, Kind::Address) => {
            true
        }
        _ => false,
    }
}

/// Whether a leaf of a kind is live at an offset of an object.
pub fn kind_live(store: &PsStore, found: Option<Found>, kind: Kind, at: u32) -> Result<bool, Lack>
    ensures { result ≡ kind_live store.now found kind at }
{
    match leaf_in(store, found, at)? {
        None => Ok(false),
        Some(leaf) => Ok(same_kind(leaf, kind)),
    }
}

/// Whether a type whose depth is at most `deep` is live at an offset, which has to be one of 32 bits.
#[cycle(live)]
fn live_from(
    store: &PsStore,
    found: Option<Found>,
    deep: u32,
    t: DictId,
    at: u64,
) -> Result<bool, Lack>
    ensures { result ≡ if_offset at (type_live store.now found deep t at) }
{
    if at > 4_294_967_295 {
        return Ok(false);
    }
    live_within(store, found, deep, t, at as u32)
}

/// Whether each leaf of a type that begins at an offset is live.
#[cycle(live)]
#[tactic(auto, using(crate::proofs::Unfolding::live_none, crate::proofs::Unfolding::live_by))]
fn live_within(
    store: &PsStore,
    found: Option<Found>,
    deep: u32,
    t: DictId,
    at: u32,
) -> Result<bool, Lack>
    ensures { result ≡ type_live store.now found deep t at }
{
    if deep == 0 {
        return Err(Lack::TooDeep);
    }
    match type_kind(store, t)? {
        TypeKind::Int => kind_live(store, found, Kind::Word, at),
        TypeKind::Unsigned => kind_live(store, found, Kind::Word, at),
        TypeKind::Char => kind_live(store, found, Kind::Byte, at),
        TypeKind::Pointer => kind_live(store, found, Kind::Address, at),
        TypeKind::Array => {
            let item = dict_at(store, t, b"to")?;
            let size = number_at(store, item, b"size")?;
            let count = number_at(store, t, b"count")?;
            items_live(store, found, deep - 1, item, count, size, at)
        }
        TypeKind::Struct => {
            let members = items_at(store, t, b"members")?;
            members_live(store, found, deep - 1, members, at)
        }
    }
}

/// Whether so many items are live one behind another.
#[cycle(live)]
#[tactic(auto, using(crate::proofs::Rows::items_lack, crate::proofs::Rows::items_on))]
fn items_live(
    store: &PsStore,
    found: Option<Found>,
    deep: u32,
    item: DictId,
    count: u32,
    size: u32,
    at: u32,
) -> Result<bool, Lack>
    ensures { result ≡ items_live (λ j. type_live store.now found deep item j) count size at }
{
    let mut next = u64::from(at);
    for _ in 0..count {
        if next > 4_294_967_295 {
            return Ok(false);
        }
        match live_from(store, found, deep, item, next) {
            Ok(true) => next += u64::from(size),
            Ok(false) => return Ok(false),
            Err(lack) => return Err(lack),
        }
    }
    Ok(true)
}

/// Whether the members of a struct that begins at an offset are live.
#[cycle(live)]
fn members_live(
    store: &PsStore,
    found: Option<Found>,
    deep: u32,
    members: &[PsObj],
    at: u32,
) -> Result<bool, Lack>
    ensures { result ≡ members_live store.now (λ m j. type_live store.now found deep m j) at members.now }
{
    for object in members {
        let member = member_in(store, *object)?;
        let next = u64::from(at) + u64::from(member.at);
        if !live_from(store, found, deep, member.ctype, next)? {
            return Ok(false);
        }
    }
    Ok(true)
}

/// Whether each leaf of a type that begins at an offset of an object is live. The types are at most 64 deep on the way.
pub fn type_live(store: &PsStore, found: Option<Found>, t: DictId, at: u32) -> Result<bool, Lack>
    ensures { result ≡ type_live store.now found 64 t at }
{
    live_within(store, found, MOST_DEEP, t, at)
}

/// Checks that the type of a found object is at most 64 deep.
pub fn check_found(store: &PsStore, found: Option<Found>) -> Result<(), Lack>
    ensures { result ≡ checked_found store.now found }
{
    match found {
        None => Ok(()),
        Some(o) => check_type(store, o.ctype),
    }
}

/// Whether a Byte leaf is live at an offset, which has to be one of 32 bits.
fn byte_live(store: &PsStore, found: Option<Found>, at: u64) -> Result<bool, Lack>
    ensures { result ≡ if_offset at (kind_live store.now found Byte at) }
{
    if at > 4_294_967_295 {
        return Ok(false);
    }
    kind_live(store, found, Kind::Byte, at as u32)
}

/// How many Byte leaves stand one behind another from an offset on, at most 2,147,483,648.
#[tactic(auto, using(crate::proofs::Rows::run_first, crate::proofs::Rows::run_done, crate::proofs::Rows::run_lack, crate::proofs::Rows::run_stop, crate::proofs::Rows::run_on))]
fn run_from(store: &PsStore, found: Option<Found>, at: u32) -> Result<u32, Lack>
    ensures { result ≡ run_from store.now found MOST_RUN 0 at }
{
    for count in 0..MOST_RUN {
        let next = u64::from(at) + u64::from(count);
        match byte_live(store, found, next) {
            Ok(true) => {}
            Ok(false) => return Ok(count),
            Err(lack) => return Err(lack),
        }
    }
    Ok(MOST_RUN)
}

/// How many Byte leaves stand one behind another from where a pointer leads, at most 2,147,483,648.
pub fn byte_run(store: &PsStore, found: Option<Found>) -> Result<u32, Lack>
    ensures { result ≡ byte_run store.now found }
{
    check_found(store, found)?;
    run_from(store, found, offset_of(found))
}
