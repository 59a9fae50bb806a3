// Stopping points of a function.

ghost use Rattle.std.specs.Prelude.{◌≡◌};
ghost use Rattle.table_read.specs.Reads.{in_ok};
ghost use Rattle.table_model.specs.Rows.{points_of, point_address, point_at, point_below, nearest};
ghost use Rattle.table_model.specs.Frames.{point_in, point_of_row, point_of};

use crate::functions::function_at;
use crate::reading::{dict_in, items_at, number_at};
use frame_bytes::Frame;
use ps_store::{DictId, PsObj, PsStore};
use table_model::{FunctionRow, Lack};

/// The points of a function.
pub fn points_of(store: &PsStore, function: DictId) -> Result<&[PsObj], Lack>
    ensures { in_ok (λ items. items.now) result ≡ points_of store.now function }
{
    items_at(store, function, b"points")
}

/// The address of a point.
pub fn point_address(store: &PsStore, point: DictId) -> Result<u32, Lack>
    ensures { result ≡ point_address store.now point }
{
    number_at(store, point, b"address")
}

/// The first of some points at an address.
pub fn point_at(store: &PsStore, pc: u32, points: &[PsObj]) -> Result<Option<DictId>, Lack>
    ensures { result ≡ point_at store.now pc points.now }
{
    for point in points {
        let p = dict_in(*point)?;
        let at = point_address(store, p)?;
        if at == pc {
            return Ok(Some(p));
        }
    }
    Ok(None)
}

/// The first of those points that have the greatest address below one.
pub fn point_below(store: &PsStore, pc: u32, points: &[PsObj]) -> Result<Option<DictId>, Lack>
    ensures { result ≡ point_below store.now pc points.now }
{
    let mut best = None;
    for point in points {
        let p = dict_in(*point)?;
        let at = point_address(store, p)?;
        best = nearest(best, pc, at, p);
    }
    Ok(best.map(|(_, p)| p))
}

/// Of a point and the best one so far the one with the greatest address below an address; the first of those there.
fn nearest(best: Option<(u32, DictId)>, pc: u32, at: u32, point: DictId) -> Option<(u32, DictId)>
    ensures { result ≡ nearest best pc at point }
{
    match best {
        None => { if at < pc { Some((at, point)) } else { None } }
        Some((greatest, old)) => {
            if at < pc && greatest < at {
                Some((at, point))
            } else {
                Some((greatest, old))
            }
        }
    }
}

/// The point at which the innermost frame stands, or an outer one.
fn point_in(
    store: &PsStore,
    is_inner: bool,
    pc: u32,
    points: &[PsObj],
) -> Result<Option<DictId>, Lack>
    ensures { result ≡ point_in store.now is_inner pc points.now }
{
    if is_inner {
        point_at(store, pc, points)
    } else {
        point_below(store, pc, points)
    }
}

/// The point of a frame in its function.
pub fn point_of_row(
    store: &PsStore,
    is_inner: bool,
    pc: u32,
    row: Option<FunctionRow>,
) -> Result<DictId, Lack>
    ensures { result ≡ point_of_row store.now is_inner pc row }
{
    let row = match row {
        None => return Err(Lack::NoPoint),
        Some(row) => row,
    };
    let points = points_of(store, row.function)?;
    match point_in(store, is_inner, pc, points)? {
        None => Err(Lack::NoPoint),
        Some(point) => Ok(point),
    }
}

/// The point of the frame with a number, 0 being the innermost: the one at its pc, and of an outer frame the one with the
/// greatest address below its pc.
#[tactic(auto, unfolding(table_model::specs::Frames::point_of))]
pub fn point_of(store: &PsStore, number: u32, frame: &Frame) -> Result<DictId, Lack>
    ensures { result ≡ point_of store.now number frame.now }
{
    let row = function_at(store, frame.pc)?;
    point_of_row(store, number == 0, frame.pc, row)
}
