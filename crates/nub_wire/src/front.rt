// What stands at the front of bytes.

ghost use Rattle.std.specs.Prelude.{◌≡◌, ◌≢◌, ◌≤◌, ◌<◌, ◌+◌, ◌/◌, ◌%◌, ◌∷◌, ◌++◌, [], length, MatchOption};
ghost use Rattle.nub_wire.specs.Spelling.{word_bytes, size_byte, reason_byte, kind_byte};
ghost use Rattle.nub_wire.specs.Feeding.{IsPartial};
ghost use Rattle.nub_wire.specs.Held.{IsFront, IsQuiet};

use crate::message::{Chunk, Msg, Reason, Size};
use ldb_words::FaultKind;

/// What stands at the front of bytes: a frame, part of one and nothing more, or no frame however they go on.
#[derive(Drop)]
pub enum Front {
    Part,
    Whole(Msg),
    Nothing,
}

/// The number in the first four bytes, and the bytes behind it.
fn cut_word(bytes: &[u8]) -> Option<(u32, &[u8])>
    ensures { MatchOption result (length bytes.now < 4) (λ p. bytes.now ≡ word_bytes p.0 ++ p.1.now) }
{
    if bytes.len() < 4 {
        None
    } else {
        let number = u32::from(bytes[0]) * 0x0100_0000
            + u32::from(bytes[1]) * 0x0001_0000
            + u32::from(bytes[2]) * 0x0100
            + u32::from(bytes[3]);
        Some((number, &bytes[4..]))
    }
}

/// The first byte, and the bytes behind it.
fn cut_byte(bytes: &[u8]) -> Option<(u8, &[u8])>
    ensures { MatchOption result (bytes.now ≡ []) (λ p. bytes.now ≡ p.0 ∷ p.1.now) }
{
    match bytes {
        [] => None,
        [first, rest @ ..] => Some((*first, rest)),
    }
}

/// The size that a byte names.
fn size_named(byte: u8) -> Option<Size>
    ensures { MatchOption result ((s : Size) → size_byte s ≢ byte) (λ s. size_byte s ≡ byte) }
{
    match byte {
        1 => Some(Size::Byte),
        4 => Some(Size::Word),
        _ => None,
    }
}

/// The reason that a byte names.
fn reason_named(byte: u8) -> Option<Reason>
    ensures { MatchOption result ((r : Reason) → reason_byte r ≢ byte) (λ r. reason_byte r ≡ byte) }
{
    match byte {
        1 => Some(Reason::Break),
        2 => Some(Reason::Pause),
        _ => None,
    }
}

/// The kind of a fault that a byte names.
fn kind_named(byte: u8) -> Option<FaultKind>
    ensures { MatchOption result ((k : FaultKind) → kind_byte k ≢ byte) (λ k. kind_byte k ≡ byte) }
{
    match byte {
        1 => Some(FaultKind::Hazard),
        2 => Some(FaultKind::Illegal),
        3 => Some(FaultKind::Align),
        4 => Some(FaultKind::Outside),
        5 => Some(FaultKind::Break),
        6 => Some(FaultKind::Division),
        7 => Some(FaultKind::Request),
        8 => Some(FaultKind::Window),
        _ => None,
    }
}

/// A fetch's payload.
fn fetched(payload: &[u8]) -> Front
    ensures { IsFront (0 ∷ 6 ∷ 0x02 ∷ payload.now) result }
{
    let Some((address, rest)) = cut_word(payload) else {
        return Front::Part;
    };
    let Some((width, _)) = cut_byte(rest) else {
        return Front::Part;
    };
    match size_named(width) {
        None => Front::Nothing,
        Some(size) => Front::Whole(Msg::Fetch { address, size }),
    }
}

/// A store's payload.
fn stored(payload: &[u8]) -> Front
    ensures { IsFront (0 ∷ 10 ∷ 0x03 ∷ payload.now) result }
{
    let Some((address, rest)) = cut_word(payload) else {
        return Front::Part;
    };
    let Some((width, rest)) = cut_byte(rest) else {
        return Front::Part;
    };
    let Some(size) = size_named(width) else {
        return Front::Nothing;
    };
    match cut_word(rest) {
        None => Front::Part,
        Some((value, _)) => Front::Whole(Msg::Store {
            address,
            size,
            value,
        }),
    }
}

/// The payload of a resume.
fn resumed(payload: &[u8]) -> Front
    ensures { IsFront (0 ∷ 5 ∷ 0x04 ∷ payload.now) result }
{
    match cut_word(payload) {
        None => Front::Part,
        Some((turns, _)) => Front::Whole(Msg::Resume { turns }),
    }
}

/// The payload of a word.
fn answered(payload: &[u8]) -> Front
    ensures { IsFront (0 ∷ 5 ∷ 0x81 ∷ payload.now) result }
{
    match cut_word(payload) {
        None => Front::Part,
        Some((value, _)) => Front::Whole(Msg::Word { value }),
    }
}

/// The payload of an exit.
fn exited(payload: &[u8]) -> Front
    ensures { IsFront (0 ∷ 5 ∷ 0x86 ∷ payload.now) result }
{
    match cut_word(payload) {
        None => Front::Part,
        Some((status, _)) => Front::Whole(Msg::Exited { status }),
    }
}

/// The payload of a stop.
fn stopped(payload: &[u8]) -> Front
    ensures { IsFront (0 ∷ 6 ∷ 0x84 ∷ payload.now) result }
{
    let Some((byte, rest)) = cut_byte(payload) else {
        return Front::Part;
    };
    let Some(reason) = reason_named(byte) else {
        return Front::Nothing;
    };
    match cut_word(rest) {
        None => Front::Part,
        Some((pc, _)) => Front::Whole(Msg::Stopped { reason, pc }),
    }
}

/// The payload of a fault.
fn faulted(payload: &[u8]) -> Front
    ensures { IsFront (0 ∷ 6 ∷ 0x87 ∷ payload.now) result }
{
    let Some((byte, rest)) = cut_byte(payload) else {
        return Front::Part;
    };
    let Some(kind) = kind_named(byte) else {
        return Front::Nothing;
    };
    match cut_word(rest) {
        None => Front::Part,
        Some((pc, _)) => Front::Whole(Msg::Faulted { kind, pc }),
    }
}

/// The payload of an input of so many bytes.
fn input(count: usize, payload: &[u8]) -> Front
    requires some { 1 ≤ count }
    requires fits { count ≤ 1024 }
    ensures { IsFront ((count + 1) / 256 ∷ (count + 1) % 256 ∷ 0x06 ∷ payload.now) result }
{
    if payload.len() < count {
        return Front::Part;
    }
    Front::Whole(Msg::Input {
        bytes: Chunk::copied(&payload[..count]),
    })
}

/// The payload of an output of so many bytes.
fn output(count: usize, payload: &[u8]) -> Front
    requires some { 1 ≤ count }
    requires fits { count ≤ 1024 }
    ensures { IsFront ((count + 1) / 256 ∷ (count + 1) % 256 ∷ 0x85 ∷ payload.now) result }
{
    if payload.len() < count {
        return Front::Part;
    }
    Front::Whole(Msg::Output {
        bytes: Chunk::copied(&payload[..count]),
    })
}

/// What stands behind a length, by the tag.
fn tagged(length: usize, tag: u8, payload: &[u8]) -> Front
    requires { length ≤ 65535 }
    ensures { IsFront (length / 256 ∷ length % 256 ∷ tag ∷ payload.now) result }
{
    match (tag, length) {
        (0x01, 1) => Front::Whole(Msg::Hello),
        (0x02, 6) => fetched(payload),
        (0x03, 10) => stored(payload),
        (0x04, 5) => resumed(payload),
        (0x05, 1) => Front::Whole(Msg::Kill),
        (0x06, 2..=1025) => input(length - 1, payload),
        (0x81, 5) => answered(payload),
        (0x82, 1) => Front::Whole(Msg::Done),
        (0x83, 1) => Front::Whole(Msg::Outside),
        (0x84, 6) => stopped(payload),
        (0x85, 2..=1025) => output(length - 1, payload),
        (0x86, 5) => exited(payload),
        (0x87, 6) => faulted(payload),
        (0x88, 1) => Front::Whole(Msg::Turns),
        (0x89, 1) => Front::Whole(Msg::Stack),
        _ => Front::Nothing,
    }
}

/// What stands at the front of bytes.
pub fn judge(bytes: &[u8]) -> Front
    ensures { IsFront bytes.now result }
{
    match bytes {
        [] => Front::Part,
        [high] => {
            if *high <= 4 {
                Front::Part
            } else {
                Front::Nothing
            }
        }
        [high, low] => {
            let length = 256 * usize::from(*high) + usize::from(*low);
            if 1 <= length && length <= 1025 {
                Front::Part
            } else {
                Front::Nothing
            }
        }
        [high, low, tag, payload @ ..] => tagged(
            256 * usize::from(*high) + usize::from(*low),
            *tag,
            payload,
        ),
    }
}

/// How many bytes more decide something about part of a frame. Of input and output only the last byte does.
pub fn awaited(bytes: &[u8]) -> usize
    requires { IsPartial bytes.now }
    ensures some { 1 ≤ result }
    ensures quiet { IsQuiet bytes.now result }
{
    match bytes {
        [high, low, tag, payload @ ..] => {
            if *tag == 0x06 || *tag == 0x85 {
                let length = 256 * usize::from(*high) + usize::from(*low);
                length.saturating_sub(1).saturating_sub(payload.len())
            } else {
                1
            }
        }
        _ => 1,
    }
}
