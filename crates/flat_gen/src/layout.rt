// Frames. From the stack pointer up: bytes of the target's own; the parameters; the temporaries; the other locals. Each local has 4 bytes more than its size rounded up to 4, and the whole is a multiple of 8.

ghost use Rattle.std.specs.Prelude.{◌≡◌, ◌+◌, ◌*◌, [], ◌++◌, false, IfOk, OnOk};
ghost use Rattle.flat_gen.specs.declared.layout.TheConstants.{GREATEST_FRAME};
ghost use Rattle.flat_gen.specs.Layout.{room as room_of, rooms as rooms_of, frame_size, places_from, layout};

use ldb_words::Many;
use slot_ir::{SlotFunction, SlotLocal};
use std::alloc::{AllocError, Global};

/// The bytes of the greatest frame. A function that would have a greater one has one of this size, for which no stack has room.
pub const GREATEST_FRAME: u32 = 0x0010_0000;

/// Where the temporaries and the locals of a function lie above the stack pointer, the bytes of its frame, and whether it is not too great.
#[derive(Drop)]
pub struct Layout {
    pub frame: u32,
    pub fits: bool,
    pub temporaries: u32,
    pub locals: Many<u32>,
}

/// The bytes that a local takes.
fn room(size: u32) -> u64
    ensures { result ≡ room_of size }
{
    u64::from(size).next_multiple_of(4) + 4
}

/// The bytes that locals take.
fn rooms(locals: &[SlotLocal]) -> Result<u64, AllocError>
    ensures { IfOk result (λ n. n ≡ rooms_of locals.now) }
{
    let mut bytes: u64 = 0;
    for local in locals {
        bytes = bytes.checked_add(room(local.size)).ok_or(AllocError)?;
    }
    Ok(bytes)
}

/// The bytes that a function's frame would have.
fn frame_bytes(linkage: u32, function: &SlotFunction) -> Result<u64, AllocError>
    ensures { IfOk result (λ n. n ≡ frame_size linkage function.now) }
{
    let locals = rooms(function.locals.as_slice())?;
    let words = 4 * u64::from(function.temporaries) + u64::from(linkage);
    let bytes = locals.checked_add(words).ok_or(AllocError)?;
    bytes.checked_next_multiple_of(8).ok_or(AllocError)
}

/// Where the next local begins.
fn next_place(at: u32, size: u32) -> Result<u32, AllocError>
    ensures { IfOk result (λ n. n ≡ at + room_of size) }
{
    let room = u32::try_from(room(size)).map_err(|_| AllocError)?;
    at.checked_add(room).ok_or(AllocError)
}

/// Adds where each of some locals begins, and answers where the last ends.
fn add_places(places: &mut Vec<u32>, at: u32, locals: &[SlotLocal]) -> Result<u32, AllocError>
    ensures end { IfOk result (λ n. n ≡ at + rooms_of locals.now) }
    ensures places { OnOk result (places.new.items ≡ places.old.items ++ places_from at locals.now) }
{
    let mut end = at;
    for local in locals {
        places.push(end)?;
        end = next_place(end, local.size)?;
    }
    Ok(end)
}

/// The layout of a function whose frame is too great.
fn too_great(alloc: Global) -> Layout
    ensures { result ≡ record { frame = GREATEST_FRAME; fits = false; temporaries = 0; locals = [] } }
{
    Layout {
        frame: GREATEST_FRAME,
        fits: false,
        temporaries: 0,
        locals: Many::new(alloc),
    }
}

/// The bytes of some temporaries.
fn bytes_of(temporaries: u32) -> Result<u32, AllocError>
    ensures { IfOk result (λ n. n ≡ temporaries * 4) }
{
    temporaries.checked_mul(4).ok_or(AllocError)
}

/// The layout of a function's frame, which begins with so many bytes of the target's own.
#[tactic(auto, unfolding(crate::specs::Layout::layout))]
pub fn layout_of(alloc: Global, linkage: u32, function: &SlotFunction) -> Result<Layout, AllocError>
    ensures { IfOk result (λ l. l ≡ layout linkage function.now) }
{
    let bytes = frame_bytes(linkage, function)?;
    if bytes > u64::from(GREATEST_FRAME) {
        return Ok(too_great(alloc));
    }
    let locals = function.locals.as_slice();
    let params = locals.get(..function.params as usize).ok_or(AllocError)?;
    let others = locals.get(function.params as usize..).ok_or(AllocError)?;
    let mut places = Vec::new(alloc);
    let temporaries = add_places(&mut places, linkage, params)?;
    let behind = temporaries
        .checked_add(bytes_of(function.temporaries)?)
        .ok_or(AllocError)?;
    let _end = add_places(&mut places, behind, others)?;
    Ok(Layout {
        frame: bytes as u32,
        fits: true,
        temporaries,
        locals: Many::from_vec(places),
    })
}
