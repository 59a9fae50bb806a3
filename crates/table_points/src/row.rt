// Points and what is told of them.

ghost use Rattle.std.specs.Prelude.{◌≡◌, true};
ghost use Rattle.table_read.specs.Reads.{in_ok};
ghost use Rattle.table_model.specs.Frames.{told_row, told_frame};
ghost use Rattle.ps_store.specs.Store.{bytes_of};
ghost use Rattle.std.specs.List.{AllByRecursion};
ghost use Rattle.table_points.specs.Named.{IsNamed};
ghost use Rattle.table_points.specs.Rows.{row_in, told_at};

use frame_bytes::Frame;
use ps_store::{PsStore, StringId};
use table_model::{FunctionRow, Lack};
use table_read::{function_at, number_at, point_address, point_of_row, string_at};

/// What a stop line and a frame line tell of a point: the table's strings for the names of its file and function, its line and
/// column from 1, and the address of its no-op.
#[derive(Clone, Copy)]
pub struct Point {
    pub file: StringId,
    pub function: StringId,
    pub line: u32,
    pub column: u32,
    pub at: u32,
}

/// Whether a point's names are strings of the table's closed ones, so that they last.
pub fn is_named(store: &PsStore, point: &Point) -> bool
    ensures { result ≡ true → IsNamed store.now point.now }
{
    store.is_closed_string(point.file) && store.is_closed_string(point.function)
}

/// Whether those of all these points are.
pub fn are_named(store: &PsStore, points: &[Point]) -> bool
    ensures { result ≡ true → AllByRecursion (IsNamed store.now) points.now }
{
    points.iter().all(|point| is_named(store, point))
}

/// What a frame at a pc tells in a function, of which the names are known.
fn told_at(
    store: &PsStore,
    is_inner: bool,
    pc: u32,
    row: FunctionRow,
    file: StringId,
    function: StringId,
) -> Result<Point, Lack>
    ensures { in_ok (row_in store.now) result ≡ told_at store.now is_inner pc row (bytes_of store.now file) (bytes_of store.now function) }
{
    let point = point_of_row(store, is_inner, pc, Some(row))?;
    let line = number_at(store, point, b"line")?;
    let column = number_at(store, point, b"column")?;
    let at = point_address(store, point)?;
    Ok(Point {
        file,
        function,
        line,
        column,
        at,
    })
}

/// What a frame at a pc tells, by the function that holds this pc.
fn told_row(
    store: &PsStore,
    is_inner: bool,
    pc: u32,
    row: Option<FunctionRow>,
) -> Result<Point, Lack>
    ensures { in_ok (row_in store.now) result ≡ told_row store.now is_inner pc row }
{
    match row {
        None => Err(Lack::NoPoint),
        Some(found) => {
            let function = string_at(store, found.function, b"name")?;
            let file = string_at(store, found.unit, b"file")?;
            told_at(store, is_inner, pc, found, file, function)
        }
    }
}

/// What the frame with a number tells: the names of its function and file, then its point.
#[tactic(auto, unfolding(table_model::specs::Frames::told_frame))]
pub fn told_frame(store: &PsStore, number: u32, frame: &Frame) -> Result<Point, Lack>
    ensures { in_ok (row_in store.now) result ≡ told_frame store.now number frame.now }
{
    let row = function_at(store, frame.pc)?;
    told_row(store, number == 0, frame.pc, row)
}
