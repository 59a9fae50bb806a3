// A string that lies in a memory.

ghost use Rattle.ps_store.specs.Store.{closed_part};
ghost use Rattle.std.specs.Prelude.{◌≡◌, ◌≤◌, OnOk, length};
ghost use Rattle.ps_places.specs.Accesses.{LedAct};
ghost use Rattle.ps_append.specs.Characters.{bytes_from, string_place, ReadsBytes, AppendsChars};

use crate::append::append_string;
use abs_mem::AbsMem;
use frame_bytes::Place;
use ldb_words::{Kind, Text};
use ps_places::{Trouble, space_named, text_of, troubled};
use ps_step::arithmetic::integer_of;
use ps_step::fault::{PsError, PsFault};
use ps_step::machine::PsCore;
use ps_step::operands::triple_of;
use ps_step::values::count_of;
use ps_words::word_in;

/// Reads the bytes from a place on up to the first NUL, at most so many, and adds them. It is as deep as it reads bytes.
#[tactic(auto, using(crate::proofs::Reading::none_read, crate::proofs::Reading::fault_read, crate::proofs::Reading::end_read, crate::proofs::Reading::no_room, crate::proofs::Reading::more_read))]
fn read_bytes<M: AbsMem>(
    memory: &mut M,
    place: Place,
    most: u32,
    bytes: &mut Text,
) -> Result<(), Trouble>
    ensures reads { ReadsBytes (λ b. bytes_from most b place) bytes.old (M.seen memory.old) result bytes.new (M.seen memory.new) }
    ensures calls { LedAct M.leads memory.old result memory.new }
{
    if most == 0 {
        return Ok(());
    }
    let byte = match memory.fetch(place, Kind::Byte) {
        Ok(bits) => (bits % 256) as u8,
        Err(fault) => return Err(troubled(fault)),
    };
    if byte == 0 {
        return Ok(());
    }
    if let Err(_) = bytes.push(byte) {
        return Err(Trouble::Ps(PsFault::NoMemory));
    }
    let next = Place {
        space: place.space,
        at: place.at.wrapping_add(1),
    };
    read_bytes(memory, next, most - 1, bytes)
}

/// The place of the string that `PutChars` takes, and how many of its bytes are read at most.
pub fn string_place(core: &PsCore) -> Result<(Place, u32), PsError>
    ensures asked { result ≡ string_place core.now }
    ensures enough { OnOk result (3 ≤ length core.now.operands) }
{
    let (space, at, count) = triple_of(&core.operands)?;
    let space = text_of(&core.store, space)?;
    let at = word_in(at)?;
    integer_of(count)?;
    let space = space_named(core.store.string_get(space))?;
    let count = count_of(count)?;
    Ok((Place { space, at }, count.min(201)))
}

/// `PutChars`: the string at a place, of at most so many bytes. rangecheck comes where a byte of it is outside. An error leaves
/// all as it was.
#[tactic(auto, using(crate::proofs::Reading::unasked, crate::proofs::Reading::chars_appended, crate::proofs::Reading::chars_without_room, crate::proofs::Reading::chars_troubled))]
pub fn put_chars<M: AbsMem>(
    core: &mut PsCore,
    memory: &mut M,
    out: &mut Text,
) -> Result<(), Trouble>
    ensures does { AppendsChars out.old (M.seen memory.old) core.old result out.new (M.seen memory.new) core.new }
    ensures calls { LedAct M.leads memory.old result memory.new }
    ensures closed { closed_part core.new.store ≡ closed_part core.old.store }
{
    let mut bytes = Text::new(core.operands.allocator());
    match string_place(core) {
        Err(error) => {
            drop(bytes);
            Err(Trouble::Ps(PsFault::Error(error)))
        }
        Ok((place, most)) => match read_bytes(memory, place, most, &mut bytes) {
            Err(trouble) => {
                drop(bytes);
                Err(trouble)
            }
            Ok(()) => match append_string(out, bytes.as_bytes()) {
                Ok(()) => {
                    drop(bytes);
                    core.operands.take(3);
                    Ok(())
                }
                Err(_) => {
                    drop(bytes);
                    Err(Trouble::Ps(PsFault::NoMemory))
                }
            },
        },
    }
}
