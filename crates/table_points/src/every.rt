// Every point of a table.

ghost use Rattle.std.specs.Prelude.{◌≡◌, ◌∷◌, [], map};
ghost use Rattle.ps_store.specs.Store.{bytes_of};
ghost use Rattle.table_read.specs.Reads.{in_ok};
ghost use Rattle.table_model.specs.Reading.{all_from, all_in};
ghost use Rattle.table_model.specs.Places.{row_of, rows_of, rows_in, all_points};
ghost use Rattle.table_points.specs.Rows.{row_in};
ghost use Rattle.table_points.specs.Every.{Adds, Tells};

use crate::row::Point;
use ps_store::{PsObj, PsStore, StringId};
use std::alloc::Global;
use table_model::Lack;
use table_read::{dict_in, functions_of, number_at, point_address, points_of, string_at, units_of};

/// Why the points of a table are not told: what the table lacks, or memory.
#[derive(Drop)]
pub enum PointsFault {
    Lacks(Lack),
    NoMemory,
}

impl From<Lack> for PointsFault {
    ghost use Rattle.std.specs.Prelude.{◌≡◌};
    ghost use Rattle.table_points.specs.declared.every.PointsFault.TheVariants.{Lacks};

    ghost from_gives = { λ lack e. e ≡ Lacks lack };

    fn from(lack: Lack) -> PointsFault {
        PointsFault::Lacks(lack)
    }
}

/// A point of a function.
fn point_in(
    store: &PsStore,
    file: StringId,
    function: StringId,
    object: PsObj,
) -> Result<Point, Lack>
    ensures { in_ok (λ p. row_in store.now p ∷ []) result ≡ row_of store.now (bytes_of store.now file) (bytes_of store.now function) object }
{
    let point = dict_in(object)?;
    let line = number_at(store, point, b"line")?;
    let column = number_at(store, point, b"column")?;
    let at = point_address(store, point)?;
    Ok(Point {
        at,
        line,
        column,
        file,
        function,
    })
}

/// Adds the points of a function that has the name.
fn add_points(
    store: &PsStore,
    file: StringId,
    function: StringId,
    objects: &[PsObj],
    points: &mut Vec<Point>,
) -> Result<(), PointsFault>
    ensures { Adds store.now (all_in (row_of store.now (bytes_of store.now file) (bytes_of store.now function)) objects.now) points.old.items result points.new.items }
{
    for object in objects {
        match point_in(store, file, function, *object) {
            Err(lack) => return Err(PointsFault::Lacks(lack)),
            Ok(point) => match points.push(point) {
                Ok(()) => {}
                Err(_) => return Err(PointsFault::NoMemory),
            },
        }
    }
    Ok(())
}

/// Adds the points of a function.
fn add_function(
    store: &PsStore,
    file: StringId,
    object: PsObj,
    points: &mut Vec<Point>,
) -> Result<(), PointsFault>
    ensures { Adds store.now (rows_of store.now (bytes_of store.now file) object) points.old.items result points.new.items }
{
    let function = dict_in(object)?;
    let name = string_at(store, function, b"name")?;
    let objects = points_of(store, function)?;
    add_points(store, file, name, objects, points)
}

/// Adds the points of some functions.
fn add_functions(
    store: &PsStore,
    file: StringId,
    functions: &[PsObj],
    points: &mut Vec<Point>,
) -> Result<(), PointsFault>
    ensures { Adds store.now (all_in (rows_of store.now (bytes_of store.now file)) functions.now) points.old.items result points.new.items }
{
    for function in functions {
        match add_function(store, file, *function, points) {
            Ok(()) => {}
            Err(fault) => return Err(fault),
        }
    }
    Ok(())
}

/// Adds the points of the unit with a number.
fn add_unit(
    store: &PsStore,
    number: usize,
    object: PsObj,
    points: &mut Vec<Point>,
) -> Result<(), PointsFault>
    ensures { Adds store.now (rows_in store.now number object) points.old.items result points.new.items }
{
    let unit = dict_in(object)?;
    let file = string_at(store, unit, b"file")?;
    let functions = functions_of(store, number, unit)?;
    add_functions(store, file, functions, points)
}

/// Adds the points of some units, which are the table's first ones.
fn add_units(store: &PsStore, units: &[PsObj], points: &mut Vec<Point>) -> Result<(), PointsFault>
    ensures { Adds store.now (all_from (rows_in store.now) 0 units.now) points.old.items result points.new.items }
{
    for (number, unit) in units.iter().enumerate() {
        match add_unit(store, number, *unit, points) {
            Ok(()) => {}
            Err(fault) => return Err(fault),
        }
    }
    Ok(())
}

/// Every point of a table, in its order. Where the functions of a unit are still to be run none is told.
#[tactic(auto, unfolding(table_model::specs::Places::all_points))]
pub fn all_points(alloc: Global, store: &PsStore) -> Result<Vec<Point>, PointsFault>
    ensures { Tells (all_points store.now) (in_ok (λ ps. map (row_in store.now) ps.items) result) }
{
    let mut points = Vec::new(alloc);
    let units = units_of(store)?;
    match add_units(store, units, &mut points) {
        Ok(()) => Ok(points),
        Err(fault) => Err(fault),
    }
}
