// Places as operands.

ghost use Rattle.ps_store.specs.Store.{closed_part};
ghost use Rattle.std.specs.Prelude.{◌≡◌, ◌≤◌, OnOk, length};
ghost use Rattle.ps_step.specs.Effects.{Does};
ghost use Rattle.frame_bytes.specs.declared.frame.Space.TheVariants.{Memory, Registers};
ghost use Rattle.ps_places.specs.Places.{text_of, named_text, name_of, space_named, kind_named, space_name, top_word, placing, placing_at, placing_local};

use frame_bytes::Space;
use ldb_words::Kind;
use ps_step::fault::{PsError, PsFault};
use ps_step::machine::{MOST_OPERANDS, PsCore};
use ps_step::operands::one_of;
use ps_store::{Part, PsObj, PsStore, StringId};
use ps_words::word_in;

/// The string of a name's characters, for which a string may stand: typecheck comes where an object is neither.
pub fn text_of(store: &PsStore, object: PsObj) -> Result<StringId, PsError>
    ensures { text_of store.now object ≡ named_text store.now result }
{
    match object {
        PsObj::Name(t, _) | PsObj::Str(t, _) => Ok(t),
        _ => Err(PsError::TypeCheck),
    }
}

/// The same, where limitcheck comes for more than 127 characters.
pub fn name_of(store: &PsStore, object: PsObj) -> Result<StringId, PsError>
    ensures { name_of store.now object ≡ named_text store.now result }
{
    let t = text_of(store, object)?;
    if store.string_get(t).len() > 127 {
        return Err(PsError::LimitCheck);
    }
    Ok(t)
}

/// The space with a name.
pub fn space_named(text: &[u8]) -> Result<Space, PsError>
    ensures { result ≡ space_named text.now }
{
    if text.len() > 127 {
        return Err(PsError::LimitCheck);
    }
    if text == b"d".as_slice() {
        Ok(Space::Memory)
    } else if text == b"r".as_slice() {
        Ok(Space::Registers)
    } else if text == b"i".as_slice() {
        Ok(Space::Immediate)
    } else {
        Err(PsError::RangeCheck)
    }
}

/// The kind with a name.
pub fn kind_named(text: &[u8]) -> Result<Kind, PsError>
    ensures { result ≡ kind_named text.now }
{
    if text.len() > 127 {
        return Err(PsError::LimitCheck);
    }
    if text == b"c".as_slice() {
        Ok(Kind::Byte)
    } else if text == b"w".as_slice() {
        Ok(Kind::Word)
    } else if text == b"p".as_slice() {
        Ok(Kind::Address)
    } else {
        Err(PsError::RangeCheck)
    }
}

/// The name of a space: one of the first three strings of the table's part of the store.
pub fn space_name(space: Space) -> PsObj
    ensures { result ≡ space_name space }
{
    let index = match space {
        Space::Memory => 0,
        Space::Registers => 1,
        Space::Immediate => 2,
    };
    PsObj::Name(
        StringId {
            part: Part::Table,
            index,
        },
        false,
    )
}

/// Leaves a place where the topmost operand was. stackoverflow comes where 100,000 operands are there.
pub fn leave_place(core: &mut PsCore, space: Space, at: u32) -> Result<(), PsFault>
    requires some { 1 ≤ length core.old.operands }
    ensures does { Does result core.old core.new (placing space at core.old) }
    ensures closed { closed_part core.new.store ≡ closed_part core.old.store }
{
    if core.operands.len() >= MOST_OPERANDS {
        return Err(PsFault::Error(PsError::StackOverflow));
    }
    core.operands.set_top(space_name(space));
    core.operands.push(PsObj::Int(at.cast_signed()))?;
    Ok(())
}

/// The word that is the topmost operand.
pub fn top_word(core: &PsCore) -> Result<u32, PsError>
    ensures word { result ≡ top_word core.now }
    ensures some { OnOk result (1 ≤ length core.now.operands) }
{
    let a = one_of(&core.operands)?;
    word_in(a)
}

/// Leaves the place in a space whose offset is the topmost operand.
fn leave_at(core: &mut PsCore, space: Space) -> Result<(), PsFault>
    ensures does { Does result core.old core.new (placing_at space core.old) }
    ensures closed { closed_part core.new.store ≡ closed_part core.old.store }
{
    let n = top_word(core)?;
    leave_place(core, space, n)
}

/// `Absolute`: the place in memory at an address. An error leaves the state as it was.
pub fn absolute(core: &mut PsCore) -> Result<(), PsFault>
    ensures does { Does result core.old core.new (placing_at Memory core.old) }
    ensures closed { closed_part core.new.store ≡ closed_part core.old.store }
{
    leave_at(core, Space::Memory)
}

/// `Register`: the place of a register of the frame. An error leaves the state as it was.
pub fn register(core: &mut PsCore) -> Result<(), PsFault>
    ensures does { Does result core.old core.new (placing_at Registers core.old) }
    ensures closed { closed_part core.new.store ≡ closed_part core.old.store }
{
    leave_at(core, Space::Registers)
}

/// `Local`: the place in memory so far from the base of the frame, modulo 2^32. rangecheck comes where there is no frame.
/// An error leaves the state as it was.
pub fn local(core: &mut PsCore, base: Option<u32>) -> Result<(), PsFault>
    ensures does { Does result core.old core.new (placing_local base core.old) }
    ensures closed { closed_part core.new.store ≡ closed_part core.old.store }
{
    let n = top_word(core)?;
    match base {
        Some(base) => leave_place(core, Space::Memory, base.wrapping_add(n)),
        None => Err(PsFault::Error(PsError::RangeCheck)),
    }
}
