// The function that holds an address.

ghost use Rattle.std.specs.Prelude.{◌≡◌};
ghost use Rattle.table_read.specs.Reads.{in_ok};
ghost use Rattle.table_model.specs.Rows.{units_of, functions_in, functions_of, covers, covering, covering_in, function_at};
ghost use Rattle.table_model.specs.Reading.{first_in};

use crate::reading::{dict_in, entry, items_at, number_at, top_of};
use ps_store::{DictId, PsObj, PsStore};
use table_model::{FunctionRow, Lack};

/// The units of the table.
pub fn units_of(store: &PsStore) -> Result<&[PsObj], Lack>
    ensures { in_ok (λ items. items.now) result ≡ units_of store.now }
{
    let top = top_of(store)?;
    items_at(store, top, b"units")
}

/// The functions of a unit, which may still have to be run.
fn functions_in(store: &PsStore, unit: usize, object: PsObj) -> Result<&[PsObj], Lack>
    ensures { in_ok (λ items. items.now) result ≡ functions_in store.now unit object }
{
    match object {
        PsObj::Array(a, _) => Ok(store.array_get(a)),
        PsObj::Str(_, true) => Err(Lack::Unforced { unit }),
        _ => Err(Lack::WrongType),
    }
}

/// The functions of the unit with a number.
pub fn functions_of(store: &PsStore, number: usize, unit: DictId) -> Result<&[PsObj], Lack>
    ensures { in_ok (λ items. items.now) result ≡ functions_of store.now number unit }
{
    functions_in(store, number, entry(store, unit, b"functions")?)
}

/// Whether a function's text holds an address.
fn covers(store: &PsStore, pc: u32, function: DictId) -> Result<bool, Lack>
    ensures { result ≡ covers store.now pc function }
{
    let from = number_at(store, function, b"entry")?;
    let end = number_at(store, function, b"end")?;
    Ok(from <= pc && pc < end)
}

/// The row of a function, if its text holds an address.
fn covering(
    store: &PsStore,
    pc: u32,
    unit: DictId,
    object: PsObj,
) -> Result<Option<FunctionRow>, Lack>
    ensures { result ≡ covering store.now pc unit object }
{
    let function = dict_in(object)?;
    let holds = covers(store, pc, function)?;
    Ok(if holds {
        Some(FunctionRow { unit, function })
    } else {
        None
    })
}

/// The first of a unit's functions whose text holds an address.
fn covering_in(
    store: &PsStore,
    pc: u32,
    number: usize,
    object: PsObj,
) -> Result<Option<FunctionRow>, Lack>
    ensures { result ≡ covering_in store.now pc number object }
{
    let unit = dict_in(object)?;
    let functions = functions_of(store, number, unit)?;
    first_covering(store, pc, unit, functions)
}

/// The first of some functions whose text holds an address.
fn first_covering(
    store: &PsStore,
    pc: u32,
    unit: DictId,
    functions: &[PsObj],
) -> Result<Option<FunctionRow>, Lack>
    ensures { result ≡ first_in (covering store.now pc unit) functions.now }
{
    for function in functions {
        let row = covering(store, pc, unit, *function)?;
        if row.is_some() {
            return Ok(row);
        }
    }
    Ok(None)
}

/// The first function whose text holds an address, the units being asked in order.
#[tactic(auto, unfolding(table_model::specs::Rows::function_at))]
pub fn function_at(store: &PsStore, pc: u32) -> Result<Option<FunctionRow>, Lack>
    ensures { result ≡ function_at store.now pc }
{
    let units = units_of(store)?;
    for (number, unit) in units.iter().enumerate() {
        let row = covering_in(store, pc, number, *unit)?;
        if row.is_some() {
            return Ok(row);
        }
    }
    Ok(None)
}
