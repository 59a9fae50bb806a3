// Pointers. Each operator first says which addresses it asks for; the objects to which these belong are then given.

ghost use Rattle.ps_store.specs.Store.{closed_part};
ghost use Rattle.std.specs.Prelude.{◌≡◌, ◌≤◌, ◌+ℤ◌, ◌*ℤ◌, pos, OnOk, length};
ghost use Rattle.ps_step.specs.Arithmetic.{in_range, quotient};
ghost use Rattle.ps_step.specs.Effects.{Does};
ghost use Rattle.ps_pointers.specs.Pointers.{or_pointer, address_at, sum_operands, pointer_sum, leaving_sum, distance, difference_operands, pointer_difference, leaving_difference, comparison_operands, order_of, leaving_order};

use ps_step::arithmetic::integer_of;
use ps_step::fault::{PsError, PsFault};
use ps_step::machine::PsCore;
use ps_step::operands::{pair_of, triple_of};
use ps_store::PsObj;
use ps_words::word_in;
use table_model::Found;

/// The object to which an address belongs, or the error pointer.
pub(crate) fn live(found: Option<Found>) -> Result<Found, PsError>
    ensures { result ≡ or_pointer found }
{
    found.ok_or(PsError::Pointer)
}

/// The pointer, the number of items and an item's size that `ptradd` takes.
pub fn sum_operands(core: &PsCore) -> Result<(u32, i32, i32), PsError>
    ensures asked { result ≡ sum_operands core.now }
    ensures enough { OnOk result (3 ≤ length core.now.operands) }
{
    let (pointer, count, size) = triple_of(&core.operands)?;
    let pointer = word_in(pointer)?;
    let count = integer_of(count)?;
    let size = integer_of(size)?;
    Ok((pointer, count, size))
}

/// An offset in an object, from 0 to its size, as an address.
fn address_at(o: Found, at: i64) -> Result<u32, PsError>
    ensures { result ≡ or_pointer (address_at o at) }
{
    if at < 0 || i64::from(o.size) < at {
        return Err(PsError::Pointer);
    }
    Ok(o.base.wrapping_add(at as u32))
}

/// An offset, so many items of a size further.
fn moved(at: u32, count: i32, size: i32) -> i64
    ensures { result ≡ pos at +ℤ (count *ℤ size) }
{
    i64::from(at) + i64::from(count) * i64::from(size)
}

/// A pointer into an object, so many items of a size further.
fn pointer_sum(found: Option<Found>, count: i32, size: i32) -> Result<u32, PsError>
    ensures { result ≡ pointer_sum found count size }
{
    let o = live(found)?;
    address_at(o, moved(o.at, count, size))
}

/// `ptradd`, where a pointer's object was found: the pointer so many items of a size further. The error pointer comes where it
/// leaves the object, or the pointer has none. An error leaves the state as it was.
pub fn leave_sum(
    core: &mut PsCore,
    found: Option<Found>,
    count: i32,
    size: i32,
) -> Result<(), PsFault>
    requires { 3 ≤ length core.old.operands }
    ensures does { Does result core.old core.new (leaving_sum found count size core.old) }
    ensures closed { closed_part core.new.store ≡ closed_part core.old.store }
{
    let pointer = pointer_sum(found, count, size)?;
    core.operands.replace(3, PsObj::Int(pointer.cast_signed()));
    Ok(())
}

/// How far two pointers into one object are from each other.
fn distance(p: Option<Found>, q: Option<Found>) -> Result<i64, PsError>
    ensures { result ≡ distance p q }
{
    let a = live(p)?;
    let b = live(q)?;
    if a.base != b.base || a.size != b.size {
        return Err(PsError::Pointer);
    }
    Ok(i64::from(a.at) - i64::from(b.at))
}

/// The pointers and an item's size that `ptrsub` takes.
pub fn difference_operands(core: &PsCore) -> Result<(u32, u32, i32), PsError>
    ensures asked { result ≡ difference_operands core.now }
    ensures enough { OnOk result (3 ≤ length core.now.operands) }
{
    let (p, q, size) = triple_of(&core.operands)?;
    let p = word_in(p)?;
    let q = word_in(q)?;
    let size = integer_of(size)?;
    Ok((p, q, size))
}

/// A number, if it is an integer of 32 bits.
fn in_range(n: i64) -> Result<i32, PsError>
    ensures { result ≡ in_range n }
{
    if n < -2_147_483_648 || 2_147_483_647 < n {
        return Err(PsError::RangeCheck);
    }
    Ok(n as i32)
}

/// How many items of a size lie between two pointers into one object.
fn pointer_difference(p: Option<Found>, q: Option<Found>, size: i32) -> Result<i32, PsError>
    ensures { result ≡ pointer_difference p q size }
{
    let apart = distance(p, q)?;
    if size == 0 {
        return Err(PsError::UndefinedResult);
    }
    match apart.checked_div(i64::from(size)) {
        Some(items) => in_range(items),
        None => Err(PsError::RangeCheck),
    }
}

/// `ptrsub`, where the pointers' objects were found: how many items of a size lie between them. The error pointer comes where
/// they are not in one object, undefinedresult where the size is 0, rangecheck where the number has no 32 bits. An error leaves
/// the state as it was.
pub fn leave_difference(
    core: &mut PsCore,
    p: Option<Found>,
    q: Option<Found>,
    size: i32,
) -> Result<(), PsFault>
    requires { 3 ≤ length core.old.operands }
    ensures does { Does result core.old core.new (leaving_difference p q size core.old) }
    ensures closed { closed_part core.new.store ≡ closed_part core.old.store }
{
    let items = pointer_difference(p, q, size)?;
    core.operands.replace(3, PsObj::Int(items));
    Ok(())
}

/// The pointers that `ptrcmp` takes.
pub fn comparison_operands(core: &PsCore) -> Result<(u32, u32), PsError>
    ensures asked { result ≡ comparison_operands core.now }
    ensures enough { OnOk result (2 ≤ length core.now.operands) }
{
    let (p, q) = pair_of(&core.operands)?;
    let p = word_in(p)?;
    let q = word_in(q)?;
    Ok((p, q))
}

/// -1, 0 or 1, as a number is below 0, 0 or above.
fn order_of(apart: i64) -> i32
    ensures { result ≡ order_of apart }
{
    if apart < 0 {
        -1
    } else if apart == 0 {
        0
    } else {
        1
    }
}

/// `ptrcmp`, where the pointers' objects were found: their order. The error pointer comes where they are not in one object. An
/// error leaves the state as it was.
pub fn leave_order(core: &mut PsCore, p: Option<Found>, q: Option<Found>) -> Result<(), PsFault>
    requires { 2 ≤ length core.old.operands }
    ensures does { Does result core.old core.new (leaving_order p q core.old) }
    ensures closed { closed_part core.new.store ≡ closed_part core.old.store }
{
    let apart = distance(p, q)?;
    core.operands.replace(2, PsObj::Int(order_of(apart)));
    Ok(())
}
