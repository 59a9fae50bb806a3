// The first point of a function by its name.

ghost use Rattle.std.specs.Prelude.{◌≡◌, option_map};
ghost use Rattle.table_read.specs.Reads.{in_ok};
ghost use Rattle.table_model.specs.Reading.{truth_at, all_from, all_in};
ghost use Rattle.table_model.specs.Places.{called, called_in, function_point};
ghost use Rattle.table_points.specs.Rows.{row_in};
ghost use Rattle.table_points.specs.Naming.{named_of, choice_of, nothing_read, with_external, with_static, with_one, with_all, chosen_by, named_point, point_among};

use crate::row::Point;
use ps_store::{DictId, PsObj, PsStore};
use table_model::Lack;
use table_read::{
    dict_in, entry, functions_of, number_at, point_address, points_of, string_at, units_of,
};

/// A function of the name, with the number of its unit.
#[derive(Clone, Copy)]
pub struct NamedFunction {
    pub number: usize,
    pub unit: DictId,
    pub function: DictId,
    pub is_static: bool,
}

/// Which function is meant, by those that were read: the first external one, the first static one, and whether static ones are of
/// several units.
#[derive(Clone, Copy)]
pub struct Meant {
    pub external: Option<NamedFunction>,
    pub inner: Option<NamedFunction>,
    pub several: bool,
}

/// One external function more: the first one is meant.
fn add_external(meant: Meant, more: NamedFunction) -> Meant
    ensures { choice_of result ≡ with_external (choice_of meant) (named_of more) (option_map named_of meant.external) }
{
    match meant.external {
        None => Meant {
            external: Some(more),
            ..meant
        },
        Some(_) => meant,
    }
}

/// One static function more.
fn add_static(meant: Meant, more: NamedFunction) -> Meant
    ensures { choice_of result ≡ with_static (choice_of meant) (named_of more) (option_map named_of meant.inner) }
{
    match meant.inner {
        None => Meant {
            inner: Some(more),
            ..meant
        },
        Some(first) => Meant {
            several: meant.several || more.number != first.number,
            ..meant
        },
    }
}

/// One function more.
fn add(meant: Meant, more: NamedFunction) -> Meant
    ensures { choice_of result ≡ with_one (choice_of meant) (named_of more) }
{
    if more.is_static {
        add_static(meant, more)
    } else {
        add_external(meant, more)
    }
}

/// The truth under a name.
fn truth_at(store: &PsStore, d: DictId, name: &[u8]) -> Result<bool, Lack>
    ensures { result ≡ truth_at store.now d name.now }
{
    match entry(store, d, name)? {
        PsObj::Bool(truth) => Ok(truth),
        _ => Err(Lack::WrongType),
    }
}

/// One function more of a unit, if it has the name.
fn add_called(
    store: &PsStore,
    name: &[u8],
    number: usize,
    unit: DictId,
    object: PsObj,
    meant: Meant,
) -> Result<Meant, Lack>
    ensures { in_ok choice_of result ≡ in_ok (with_all (choice_of meant)) (called store.now name.now number unit object) }
{
    let function = dict_in(object)?;
    let text = string_at(store, function, b"name")?;
    let is_static = truth_at(store, function, b"static")?;
    if store.string_get(text) == name {
        Ok(add(
            meant,
            NamedFunction {
                number,
                unit,
                function,
                is_static,
            },
        ))
    } else {
        Ok(meant)
    }
}

/// The functions of a unit that have the name, behind those that were read.
fn add_functions(
    store: &PsStore,
    name: &[u8],
    number: usize,
    unit: DictId,
    functions: &[PsObj],
    before: Meant,
) -> Result<Meant, Lack>
    ensures { in_ok choice_of result ≡ in_ok (with_all (choice_of before)) (all_in (called store.now name.now number unit) functions.now) }
{
    let mut meant = before;
    for function in functions {
        match add_called(store, name, number, unit, *function, meant) {
            Ok(more) => meant = more,
            Err(lack) => return Err(lack),
        }
    }
    Ok(meant)
}

/// The same of a unit of the table.
fn add_unit(
    store: &PsStore,
    name: &[u8],
    number: usize,
    object: PsObj,
    before: Meant,
) -> Result<Meant, Lack>
    ensures { in_ok choice_of result ≡ in_ok (with_all (choice_of before)) (called_in store.now name.now number object) }
{
    let unit = dict_in(object)?;
    let functions = functions_of(store, number, unit)?;
    add_functions(store, name, number, unit, functions, before)
}

/// Which functions of the table have the name: all units are read.
fn functions_named(store: &PsStore, name: &[u8], units: &[PsObj]) -> Result<Meant, Lack>
    ensures { in_ok choice_of result ≡ in_ok (with_all nothing_read) (all_from (called_in store.now name.now) 0 units.now) }
{
    let mut meant = Meant {
        external: None,
        inner: None,
        several: false,
    };
    for (number, unit) in units.iter().enumerate() {
        match add_unit(store, name, number, *unit, meant) {
            Ok(more) => meant = more,
            Err(lack) => return Err(lack),
        }
    }
    Ok(meant)
}

/// The function that is meant: the external one, or else the first static one where one unit alone has any.
fn chosen(meant: Meant) -> Option<NamedFunction>
    ensures { option_map named_of result ≡ chosen_by (choice_of meant) }
{
    match meant.external {
        Some(external) => Some(external),
        None => { if meant.several { None } else { meant.inner } }
    }
}

/// The first point of a function; none where it has none.
fn first_point(store: &PsStore, function: NamedFunction) -> Result<Option<Point>, Lack>
    ensures { in_ok (option_map (row_in store.now)) result ≡ named_point store.now (named_of function) }
{
    let points = points_of(store, function.function)?;
    let Some(first) = points.first() else {
        return Ok(None);
    };
    let point = dict_in(*first)?;
    let line = number_at(store, point, b"line")?;
    let column = number_at(store, point, b"column")?;
    let at = point_address(store, point)?;
    let file = string_at(store, function.unit, b"file")?;
    let name = string_at(store, function.function, b"name")?;
    Ok(Some(Point {
        file,
        function: name,
        line,
        column,
        at,
    }))
}

/// The point at which the body of the function with a name begins, among the functions of some units.
fn point_among(store: &PsStore, name: &[u8], units: &[PsObj]) -> Result<Option<Point>, Lack>
    ensures { in_ok (option_map (row_in store.now)) result ≡ point_among store.now name.now units.now }
{
    match functions_named(store, name, units) {
        Err(lack) => Err(lack),
        Ok(meant) => match chosen(meant) {
            None => Ok(None),
            Some(function) => first_point(store, function),
        },
    }
}

/// The point at which the body of the function with a name begins.
#[tactic(auto, unfolding(table_model::specs::Places::function_point))]
pub fn function_point(store: &PsStore, name: &[u8]) -> Result<Option<Point>, Lack>
    ensures { in_ok (option_map (row_in store.now)) result ≡ function_point store.now name.now }
{
    match units_of(store) {
        Err(lack) => Err(lack),
        Ok(units) => point_among(store, name, units),
    }
}
