// Points by their places.

ghost use Rattle.std.specs.Prelude.{◌≡◌, option_map};
ghost use Rattle.ps_store.specs.Store.{bytes_of};
ghost use Rattle.table_read.specs.Reads.{in_ok};
ghost use Rattle.table_model.specs.Reading.{first_in};
ghost use Rattle.table_model.specs.Places.{is_column, on_line, in_function, in_unit, spot_point};
ghost use Rattle.table_points.specs.Rows.{row_in};

use crate::row::Point;
use ps_store::{DictId, PsObj, PsStore, StringId};
use table_model::Lack;
use table_read::{dict_in, functions_of, number_at, point_address, points_of, string_at, units_of};

/// Whether a column is meant: any is where none is given.
fn is_column(wanted: Option<u32>, column: u32) -> bool
    ensures { result ≡ is_column wanted column }
{
    match wanted {
        None => true,
        Some(wanted) => column == wanted,
    }
}

/// A point of a function, if it is on a line, and in a column if one is given.
fn on_line(
    store: &PsStore,
    file: StringId,
    line: u32,
    column: Option<u32>,
    function: DictId,
    object: PsObj,
) -> Result<Option<Point>, Lack>
    ensures { in_ok (option_map (row_in store.now)) result ≡ on_line store.now (bytes_of store.now file) line column function object }
{
    let point = dict_in(object)?;
    let at_line = number_at(store, point, b"line")?;
    let at_column = number_at(store, point, b"column")?;
    if at_line != line || !is_column(column, at_column) {
        return Ok(None);
    }
    let at = point_address(store, point)?;
    let name = string_at(store, function, b"name")?;
    Ok(Some(Point {
        file,
        function: name,
        line: at_line,
        column: at_column,
        at,
    }))
}

/// The first of some points on a line.
fn first_on_line(
    store: &PsStore,
    file: StringId,
    line: u32,
    column: Option<u32>,
    function: DictId,
    points: &[PsObj],
) -> Result<Option<Point>, Lack>
    ensures { in_ok (option_map (row_in store.now)) result ≡ first_in (on_line store.now (bytes_of store.now file) line column function) points.now }
{
    for point in points {
        match on_line(store, file, line, column, function, *point)? {
            Some(found) => return Ok(Some(found)),
            None => {}
        }
    }
    Ok(None)
}

/// The first point of a function on a line.
fn in_function(
    store: &PsStore,
    file: StringId,
    line: u32,
    column: Option<u32>,
    object: PsObj,
) -> Result<Option<Point>, Lack>
    ensures { in_ok (option_map (row_in store.now)) result ≡ in_function store.now (bytes_of store.now file) line column object }
{
    let function = dict_in(object)?;
    let points = points_of(store, function)?;
    first_on_line(store, file, line, column, function, points)
}

/// The first point of some functions on a line.
fn first_in_functions(
    store: &PsStore,
    file: StringId,
    line: u32,
    column: Option<u32>,
    functions: &[PsObj],
) -> Result<Option<Point>, Lack>
    ensures { in_ok (option_map (row_in store.now)) result ≡ first_in (in_function store.now (bytes_of store.now file) line column) functions.now }
{
    for function in functions {
        match in_function(store, file, line, column, *function)? {
            Some(found) => return Ok(Some(found)),
            None => {}
        }
    }
    Ok(None)
}

/// What a unit answers if it is the file's: the first point on the line, or that there is none.
fn in_unit(
    store: &PsStore,
    file: &[u8],
    line: u32,
    column: Option<u32>,
    number: usize,
    object: PsObj,
) -> Result<Option<Option<Point>>, Lack>
    ensures { in_ok (option_map (option_map (row_in store.now))) result ≡ in_unit store.now file.now line column number object }
{
    let unit = dict_in(object)?;
    let name = string_at(store, unit, b"file")?;
    if store.string_get(name) != file {
        return Ok(None);
    }
    let functions = functions_of(store, number, unit)?;
    let found = first_in_functions(store, name, line, column, functions)?;
    Ok(Some(found))
}

/// The first point on a line of a file, in a column if one is given. The first unit of the file answers.
#[tactic(auto, unfolding(table_model::specs::Places::spot_point))]
pub fn spot_point(
    store: &PsStore,
    file: &[u8],
    line: u32,
    column: Option<u32>,
) -> Result<Option<Point>, Lack>
    ensures { in_ok (option_map (row_in store.now)) result ≡ spot_point store.now file.now line column }
{
    let units = units_of(store)?;
    for (number, unit) in units.iter().enumerate() {
        match in_unit(store, file, line, column, number, *unit)? {
            Some(found) => return Ok(found),
            None => {}
        }
    }
    Ok(None)
}
