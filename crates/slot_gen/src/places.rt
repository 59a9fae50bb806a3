// Where the stopping points of a function stand, and how many temporaries its code takes.
ghost use Rattle.std.specs.Prelude.{◌≡◌, ◌≤◌, ◌+◌, ℕ, max, IfOk, if◌then◌else◌, length, option_map, slice_get};
ghost use Rattle.std.specs.List.{AllZip};
ghost use Rattle.slot_gen.specs.Bounds.{IsBelow, AreBelow};
ghost use Rattle.slot_gen.specs.Rows.{AreConsecutive, StandsAt, is_stop};

use crate::emit::next;
use crate::functions::first_point;
use slot_ir::SlotOp;
use std::alloc::{AllocError, Global};

/// The place of each of a function's points, which are numbered one after another, in one pass over its code. It has a meaning where the point's stop stands in the code.
pub fn places(alloc: Global, points: &[u32], code: &[SlotOp]) -> Result<Vec<u32>, AllocError>
    ensures { IfOk result (λ places. AreConsecutive points.now → AllZip (StandsAt code.now) points.now places.items) }
{
    let first = first_point(points);
    let mut places = vec![in alloc; 0; points.len()]?;
    let mut at = 0;
    for op in code {
        note(&mut places, first, *op, at);
        at = next(at)?;
    }
    Ok(places)
}

/// The place of an operator, noted for the point that it stops at, where that is one of these points from the first one on.
fn note(places: &mut Vec<u32>, first: u32, op: SlotOp, at: u32)
    ensures many { length places.new.items ≡ length places.old.items }
    ensures each { (i : ℕ) → slice_get places.new.items i ≡ if is_stop (first + i) op then option_map (λ _. at) (slice_get places.old.items i) else slice_get places.old.items i }
{
    if let SlotOp::Stop { point } = op {
        if let Some(number) = point.checked_sub(first) {
            if let Some(place) = places.get_mut(number as usize) {
                *place = at;
            }
        }
    }
}

/// One more than the highest temporary that a function's code names.
pub fn temporaries(code: &[SlotOp]) -> Result<u32, AllocError>
    ensures below { IfOk result (λ n. AreBelow n code.now) }
    ensures least { IfOk result (λ n. (m : ℕ) → AreBelow m code.now → n ≤ m) }
{
    let mut most = 0;
    for i in 0..code.len() {
        most = higher(most, above(code[i])?);
    }
    Ok(most)
}

/// The higher of two numbers.
fn higher(a: u32, b: u32) -> u32
    ensures { result ≡ max a b }
{
    if a < b { b } else { a }
}

/// One more than the highest temporary that an operator names.
fn above(op: SlotOp) -> Result<u32, AllocError>
    ensures below { IfOk result (λ n. IsBelow n op) }
    ensures least { IfOk result (λ n. (m : ℕ) → IsBelow m op → n ≤ m) }
{
    match op {
        SlotOp::Const { to, .. }
        | SlotOp::Null { to }
        | SlotOp::StaticAddress { to, .. }
        | SlotOp::TextAddress { to, .. }
        | SlotOp::LocalAddress { to, .. }
        | SlotOp::ReadRegister { to, .. }
        | SlotOp::GetChar { to } => next(to),
        SlotOp::Convert { at, .. }
        | SlotOp::Unary { at, .. }
        | SlotOp::Offset { at, .. }
        | SlotOp::JumpIfZero { at, .. }
        | SlotOp::JumpIfNotZero { at, .. }
        | SlotOp::JumpIfEqual { at, .. }
        | SlotOp::Return { at }
        | SlotOp::PutChar { at }
        | SlotOp::Exit { at } => next(at),
        SlotOp::WriteRegister { from, .. } => next(from),
        SlotOp::Load { to, from, .. } | SlotOp::Take { to, from } | SlotOp::Move { to, from, .. } =>
            next(higher(to, from)),
        SlotOp::Store { at, from, .. } => next(higher(at, from)),
        SlotOp::Binary {
            to,
            left,
            right,
            ..
        }
        | SlotOp::Compare {
            to,
            left,
            right,
            ..
        }
        | SlotOp::Distance {
            to,
            left,
            right,
            ..
        } => next(higher(higher(to, left), right)),
        SlotOp::Index {
            to,
            pointer,
            index,
            ..
        } => next(higher(higher(to, pointer), index)),
        SlotOp::Call { at, arguments, .. } => at
            .checked_add(higher(arguments, 1))
            .ok_or(AllocError),
        SlotOp::Jump { .. } | SlotOp::Stop { .. } | SlotOp::Zero { .. } | SlotOp::Leave { .. } => {
            Ok(0)
        }
    }
}
