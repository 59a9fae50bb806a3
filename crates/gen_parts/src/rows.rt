// The rows of functions.
ghost use Rattle.std.specs.Prelude.{◌≡◌, IfOk, map, slice_get};
ghost use Rattle.gen_parts.specs.Rows.{from_base as from_base_of, slot_by, place_by, local_places, saved_place, row};
ghost use Rattle.gen_parts.specs.Uses.{offset_of};

use crate::uses::offset_of;
use flat_ir::FlatFunction;
use ldb_words::{Many, Text};
use obj_file::{FunctionRow, LocalPlace};
use slot_ir::{Home, SlotFunction, SlotLocal};
use std::alloc::{AllocError, Global};

/// The register that the first register local is in, on either target.
const FIRST_REGISTER: u8 = 16;

/// Where a function's code lies in the text: its first byte, the first behind it, and where the code of each place of its flat code begins.
#[derive(Drop)]
pub struct Spots<'a> {
    pub entry: u32,
    pub end: u32,
    pub places: &'a [u32],
}

/// A distance from the stack pointer as one from the frame's base.
fn from_base(frame: u32, at: u32) -> Result<i32, AllocError>
    ensures { IfOk result (λ d. d ≡ from_base_of frame at) }
{
    let at = i32::try_from(at).map_err(|_| AllocError)?;
    let frame = i32::try_from(frame).map_err(|_| AllocError)?;
    at.checked_sub(frame).ok_or(AllocError)
}

/// Where a local in memory lies. In a frame that is too great locals lie nowhere, and 0 stands for that.
fn slot_of(function: &FlatFunction, number: u32) -> Result<LocalPlace, AllocError>
    ensures { IfOk result (λ p. p ≡ slot_by function.now.frame (slice_get function.now.locals number)) }
{
    match function.locals.as_slice().get(number as usize) {
        Some(at) => Ok(LocalPlace::Slot(from_base(function.frame, *at)?)),
        None => Ok(LocalPlace::Slot(0)),
    }
}

/// Where a local lies.
fn place_of(
    function: &FlatFunction,
    number: u32,
    local: &SlotLocal,
) -> Result<LocalPlace, AllocError>
    ensures { IfOk result (λ p. p ≡ place_by function.now.frame (slice_get function.now.locals number) local.now.home) }
{
    match local.home {
        Home::Block => slot_of(function, number),
        Home::Register(register) => {
            let register = FIRST_REGISTER.checked_add(register).ok_or(AllocError)?;
            Ok(LocalPlace::Reg(register))
        }
    }
}

/// Where locals lie.
fn places_of(
    alloc: Global,
    function: &FlatFunction,
    locals: &[SlotLocal],
) -> Result<Many<LocalPlace>, AllocError>
    ensures { IfOk result (λ ps. ps ≡ local_places function.now 0 locals.now) }
{
    let mut places = Vec::new(alloc);
    let mut number: u32 = 0;
    for local in locals {
        places.push(place_of(function, number, local)?)?;
        number = number.checked_add(1).ok_or(AllocError)?;
    }
    Ok(Many::from_vec(places))
}

/// Where stopping points lie in the text.
fn points_of(alloc: Global, spots: &Spots, places: &[u32]) -> Result<Many<u32>, AllocError>
    ensures { IfOk result (λ ps. ps ≡ map (offset_of spots.now.places.now) places.now) }
{
    let mut points = Vec::new(alloc);
    for place in places {
        points.push(offset_of(spots.places, *place)?)?;
    }
    Ok(Many::from_vec(points))
}

/// The registers that a function saves, each with its distance from the stack pointer, as distances from the frame's base.
fn saved_of(alloc: Global, frame: u32, saved: &[(u8, u32)]) -> Result<Many<(u8, i32)>, AllocError>
    ensures { IfOk result (λ ps. ps ≡ map (saved_place frame) saved.now) }
{
    let mut rows = Vec::new(alloc);
    for (register, at) in saved {
        rows.push((*register, from_base(frame, *at)?))?;
    }
    Ok(Many::from_vec(rows))
}

/// The row of a function that saves these registers.
pub fn row_of(
    alloc: Global,
    slots: &SlotFunction,
    function: &FlatFunction,
    spots: &Spots,
    saved: &[(u8, u32)],
) -> Result<FunctionRow, AllocError>
    ensures { IfOk result (λ r. r ≡ row slots.now function.now spots.now.entry spots.now.end spots.now.places.now saved.now) }
{
    Ok(FunctionRow {
        name: Text::from_slice(alloc, slots.name.as_bytes())?,
        entry: spots.entry,
        end: spots.end,
        frame: function.frame,
        saved: saved_of(alloc, function.frame, saved)?,
        points: points_of(alloc, spots, function.places.as_slice())?,
        locals: places_of(alloc, function, slots.locals.as_slice())?,
    })
}
