// Accesses of a memory.

ghost use Rattle.ps_store.specs.Store.{closed_part};
ghost use Rattle.std.specs.Prelude.{◌≡◌, ◌≤◌, OnOk, length};
ghost use Rattle.ps_places.specs.Accesses.{value_of, may_store, fetch_of, fetching, store_of, storing, immediate_value, placing_value, Over, LedAct, troubled};

use crate::place::{kind_named, space_name, space_named, text_of, top_word};
use abs_mem::{AbsMem, MemFault};
use frame_bytes::{Place, Space};
use ldb_words::Kind;
use ps_step::fault::{PsError, PsFault};
use ps_step::machine::{MOST_OPERANDS, PsCore};
use ps_step::operands::{quadruple_of, triple_of};
use ps_store::PsObj;
use ps_words::word_in;

/// Why an operator over a memory has no result: an error of the program or want of memory, or what the memory answered that is
/// no error of the program: a link that failed, or a bad reply.
#[derive(Drop)]
pub enum Trouble {
    Ps(PsFault),
    Broken(MemFault),
}

/// The value of a kind: of a Byte the lowest byte, read as a `char`.
fn value_of(kind: Kind, bits: u32) -> PsObj
    ensures { result ≡ value_of kind bits }
{
    match kind {
        Kind::Byte => PsObj::Int(i32::from(((bits % 256) as u8).cast_signed())),
        Kind::Word | Kind::Address => PsObj::Int(bits.cast_signed()),
    }
}

/// Whether an operator may store to a space: only `ps` may to the target.
fn may_store(raw: bool, space: Space) -> bool
    ensures { result ≡ may_store raw space }
{
    match space {
        Space::Immediate => true,
        Space::Memory | Space::Registers => raw,
    }
}

/// What a memory's fault is to an operator: a place outside is the error rangecheck.
pub fn troubled(fault: MemFault) -> Trouble
    ensures { result ≡ troubled fault }
{
    match fault {
        MemFault::Outside { .. } => Trouble::Ps(PsFault::Error(PsError::RangeCheck)),
        other => Trouble::Broken(other),
    }
}

/// The place and the kind that `fetch` takes.
pub fn fetch_of(core: &PsCore) -> Result<(Place, Kind), PsError>
    ensures asked { result ≡ fetch_of core.now }
    ensures enough { OnOk result (3 ≤ length core.now.operands) }
{
    let (space, at, kind) = triple_of(&core.operands)?;
    let space = text_of(&core.store, space)?;
    let at = word_in(at)?;
    let kind = text_of(&core.store, kind)?;
    let space = space_named(core.store.string_get(space))?;
    let kind = kind_named(core.store.string_get(kind))?;
    Ok((Place { space, at }, kind))
}

/// `fetch`: the value of a kind at a place. rangecheck comes where the place is outside. An error leaves all as it was.
pub fn fetch<M: AbsMem>(core: &mut PsCore, memory: &mut M) -> Result<(), Trouble>
    ensures does { Over fetching (M.seen memory.old) core.old result (M.seen memory.new) core.new }
    ensures calls { LedAct M.leads memory.old result memory.new }
    ensures closed { closed_part core.new.store ≡ closed_part core.old.store }
{
    match fetch_of(core) {
        Err(error) => Err(Trouble::Ps(PsFault::Error(error))),
        Ok((place, kind)) => match memory.fetch(place, kind) {
            Err(fault) => Err(troubled(fault)),
            Ok(bits) => {
                core.operands.replace(3, value_of(kind, bits));
                Ok(())
            }
        },
    }
}

/// The place, the kind and the value that `store` takes. invalidaccess comes where `raw` does not say that the target may be
/// stored to.
pub fn store_of(core: &PsCore, raw: bool) -> Result<(Place, Kind, u32), PsError>
    ensures asked { result ≡ store_of raw core.now }
    ensures enough { OnOk result (4 ≤ length core.now.operands) }
{
    let (value, space, at, kind) = quadruple_of(&core.operands)?;
    let value = word_in(value)?;
    let space = text_of(&core.store, space)?;
    let at = word_in(at)?;
    let kind = text_of(&core.store, kind)?;
    let space = space_named(core.store.string_get(space))?;
    if !may_store(raw, space) {
        return Err(PsError::InvalidAccess);
    }
    let kind = kind_named(core.store.string_get(kind))?;
    Ok((Place { space, at }, kind, value))
}

/// `store`: the lowest bytes of a value are put at a place, the cell or, where `raw` says so, the target. invalidaccess comes
/// where they may not be, rangecheck where the place is outside. An error leaves all as it was.
pub fn store<M: AbsMem>(core: &mut PsCore, memory: &mut M, raw: bool) -> Result<(), Trouble>
    ensures does { Over (storing raw) (M.seen memory.old) core.old result (M.seen memory.new) core.new }
    ensures calls { LedAct M.leads memory.old result memory.new }
    ensures closed { closed_part core.new.store ≡ closed_part core.old.store }
{
    match store_of(core, raw) {
        Err(error) => Err(Trouble::Ps(PsFault::Error(error))),
        Ok((place, kind, value)) => match memory.store(place, kind, value) {
            Err(fault) => Err(troubled(fault)),
            Ok(()) => {
                core.operands.take(4);
                Ok(())
            }
        },
    }
}

/// The value that `Immediate` takes.
fn immediate_value(core: &PsCore) -> Result<u32, PsError>
    ensures value { result ≡ immediate_value core.now }
    ensures enough { OnOk result (1 ≤ length core.now.operands) }
{
    let value = top_word(core)?;
    if core.operands.len() >= MOST_OPERANDS {
        return Err(PsError::StackOverflow);
    }
    Ok(value)
}

/// `Immediate`: the cell's place, where the value is put. An error leaves all as it was. Where memory runs out the cell may hold the
/// value.
pub fn immediate<M: AbsMem>(core: &mut PsCore, memory: &mut M) -> Result<(), Trouble>
    ensures does { Over placing_value (M.seen memory.old) core.old result (M.seen memory.new) core.new }
    ensures calls { LedAct M.leads memory.old result memory.new }
    ensures closed { closed_part core.new.store ≡ closed_part core.old.store }
{
    let cell = Place {
        space: Space::Immediate,
        at: 0,
    };
    match immediate_value(core) {
        Err(error) => Err(Trouble::Ps(PsFault::Error(error))),
        Ok(value) => match memory.store(cell, Kind::Word, value) {
            Err(fault) => Err(troubled(fault)),
            Ok(()) => {
                core.operands.set_top(space_name(Space::Immediate));
                match core.operands.push(PsObj::Int(0)) {
                    Ok(()) => Ok(()),
                    Err(_) => Err(Trouble::Ps(PsFault::NoMemory)),
                }
            }
        },
    }
}
