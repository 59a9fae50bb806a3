// The operators of a command over a target behind a link.

use abs_mem::{AbsMem, Joined, Wire};
use frame_bytes::{Place, Space};
use ldb_words::{Kind, Order, Text};
use machine_state::{CONTEXT, MIPS};
use near_link::NearLink;
use nub_wire::Side;
use obj_file::read_image;
use ps_ops::{Operators, Standing, View};
use std::alloc::{AllocError, Global};
use test_rows::{append, numbers};

/// The operators over the memory of a target behind a link.
pub type Talk = Operators<Wire<NearLink>>;

/// A link to a new machine of a target, which has one word of text and no static objects.
fn link_to(alloc: Global, target: u8) -> Result<Option<NearLink>, AllocError> {
    let bytes = [
        0x4c, 0x44, 0x42, 0x49, 1, target, 0, 0, 0, 0x40, 0, 0, 0, 0, 0, 4, 0, 0, 0, 0, 0, 0, 0, 0,
    ];
    match read_image(alloc, &bytes) {
        Ok(image) => {
            let link = NearLink::new(alloc, &[image], Vec::new(alloc))?;
            Ok(Some(link))
        }
        Err(_) => Ok(None),
    }
}

/// The operators over a new machine of a target. They work in the innermost frame, and may store to the target.
pub fn talk_to(alloc: Global, target: u8) -> Result<Option<Talk>, AllocError> {
    let order = if target == MIPS {
        Order::Little
    } else {
        Order::Big
    };
    let Some(link) = link_to(alloc, target)? else {
        return Ok(None);
    };
    let side = Side::First;
    let wire = Wire { link, side, order };
    Ok(Some(Operators {
        memory: Joined::new(wire, order),
        view: View {
            target,
            context: CONTEXT,
            standing: Standing::Numbered { number: 0 },
            raw: true,
        },
        out: Text::new(alloc),
        fault: None,
    }))
}

/// Puts the numbers behind the first one into the target's memory, one after another from that address on, and appends what isn't
/// put.
fn put(
    talk: &mut Talk,
    given: &[u32],
    kind: Kind,
    size: u32,
    out: &mut Vec<u8>,
) -> Result<(), AllocError> {
    let space = Space::Memory;
    let mut at = given.first().copied().unwrap_or(0);
    for value in given.get(1..).unwrap_or(&[]) {
        if talk
            .memory
            .store(Place { space, at }, kind, *value)
            .is_err()
        {
            append(out, "not put ")?;
        }
        at = at.wrapping_add(size);
    }
    Ok(())
}

/// Puts words into the target's memory, from an address on.
pub fn put_words(
    alloc: Global,
    talk: &mut Talk,
    text: &[u8],
    out: &mut Vec<u8>,
) -> Result<(), AllocError> {
    let given = numbers(alloc, text)?;
    put(talk, given.as_slice(), Kind::Word, 4, out)
}

/// Puts bytes into the target's memory, from an address on.
pub fn put_bytes(
    alloc: Global,
    talk: &mut Talk,
    text: &[u8],
    out: &mut Vec<u8>,
) -> Result<(), AllocError> {
    let given = numbers(alloc, text)?;
    put(talk, given.as_slice(), Kind::Byte, 1, out)
}
