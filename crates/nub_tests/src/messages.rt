// Frames from outside.

use crate::append_bytes;
use nub_wire::{Fed, Feeder, Heard, Msg, Size, encode, hear};
use std::alloc::{AllocError, Global};
use test_rows::{append, part};

/// Appends what a feeder makes of a piece: no message yet, no frame from a byte on, or a message as it is spelled again and how many bytes it ended behind.
fn append_fed(alloc: Global, fed: &Fed, out: &mut Vec<u8>) -> Result<(), AllocError> {
    match fed {
        Fed::NotYet => append(out, "not yet;"),
        Fed::BadFrame { at } => append(out, format!(in alloc; "bad at {at};")?.as_str()),
        Fed::Msg { msg, used } => {
            if let Msg::Fetch { address, size } = msg {
                let told = format!(in alloc; "fetch of {size:?} at {address:08x} ")?;
                append(out, told.as_str())?;
            }
            append_bytes(alloc, &encode(msg), out)?;
            append(out, format!(in alloc; " used {used};")?.as_str())
        }
    }
}

/// The bytes that may stand behind a front of a frame; none where the front is refused.
fn append_next(alloc: Global, front: &[u8], out: &mut Vec<u8>) -> Result<(), AllocError> {
    for byte in 0..=u8::MAX {
        let mut feeder = Feeder::new();
        let begun = matches!(&feeder.feed(front), Fed::NotYet);
        let refused = matches!(&feeder.feed(&[byte]), Fed::BadFrame { at: 0 });
        if begun && !refused {
            append(out, format!(in alloc; "{byte} ")?.as_str())?;
        }
    }
    Ok(())
}

/// The messages that a piece ends are spelled again, and counted.
fn spell_again(
    feeder: &mut Feeder,
    piece: &[u8],
    spelled: &mut Vec<u8>,
) -> Result<u32, AllocError> {
    let mut rest = piece;
    let mut count: u32 = 0;
    for _message in 0..20 {
        match feeder.feed(rest) {
            Fed::Msg { msg, used } => {
                spelled.extend_from_slice(&encode(&msg))?;
                rest = rest.get(used..).unwrap_or(&[]);
                count = count.wrapping_add(1);
            }
            Fed::NotYet | Fed::BadFrame { .. } => return Ok(count),
        }
    }
    Ok(count)
}

/// Appends at how many places a stream of messages may be cut, and how many messages both pieces have: those of the stream.
fn append_cuts(alloc: Global, stream: &[u8], out: &mut Vec<u8>) -> Result<(), AllocError> {
    let mut cuts: u32 = 0;
    let mut messages: u32 = 0;
    for cut in 0..stream.len() {
        let mut feeder = Feeder::new();
        let mut spelled = Vec::new(alloc);
        let (front, back) = stream.split_at(cut);
        let first = spell_again(&mut feeder, front, &mut spelled)?;
        let second = spell_again(&mut feeder, back, &mut spelled)?;
        if spelled.as_slice() == stream {
            cuts = cuts.wrapping_add(1);
            messages = messages.wrapping_add(first).wrapping_add(second);
        }
    }
    append(
        out,
        format!(in alloc; "{cuts} cuts {messages} messages")?.as_str(),
    )
}

/// The message of a frame.
fn message_of(frame: &[u8]) -> Option<Msg> {
    match Feeder::new().feed(frame) {
        Fed::Msg { msg, .. } => Some(msg),
        _ => None,
    }
}

/// What the second of two frames is to who sent the first.
fn heard(pieces: &[Vec<u8>]) -> Option<Heard> {
    let asked = message_of(part(pieces, 0))?;
    let reply = message_of(part(pieces, 1))?;
    Some(hear(&asked, 0, &reply))
}

/// Appends the answer to a row about messages.
pub fn append_message(
    alloc: Global,
    kind: &str,
    pieces: &[Vec<u8>],
    out: &mut Vec<u8>,
) -> Result<(), AllocError> {
    match kind {
        "feed" => {
            let mut feeder = Feeder::new();
            for piece in pieces {
                append_fed(alloc, &feeder.feed(piece), out)?;
            }
            Ok(())
        }
        "next" => append_next(alloc, part(pieces, 0), out),
        "cuts" => append_cuts(alloc, part(pieces, 0), out),
        "heard" => append(out, format!(in alloc; "{:?}", heard(pieces))?.as_str()),
        "spelled" => {
            let frame = encode(&Msg::Fetch {
                address: 0x1000_0000,
                size: Size::Word,
            });
            append_bytes(alloc, &frame, out)
        }
        _ => append(out, "no such row"),
    }
}
