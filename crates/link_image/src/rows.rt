// The rows of functions, with addresses.

ghost use Rattle.std.specs.Prelude.{◌≡◌, ◌++◌, OnOk, IfOk, map};
ghost use Rattle.obj_placed.specs.Placed.{moved_point, moved_row, placed_rows};
ghost use Rattle.machine_state.specs.declared.layout.TheConstants.{TEXT as FIRST_TEXT};

use crate::sizes::{size_of, sum};
use ldb_words::{Many, Text};
use machine_state::TEXT;
use obj_file::{FunctionRow, Object};
use std::alloc::{AllocError, Global};

/// Offsets in a text that begins at an address, as addresses.
fn moved(alloc: Global, base: u32, offsets: &[u32]) -> Result<Many<u32>, AllocError>
    ensures { IfOk result (λ m. m ≡ map (moved_point base) offsets.now) }
{
    let mut addresses = Vec::new(alloc);
    for offset in offsets {
        addresses.push(sum(base, *offset)?)?;
    }
    Ok(Many::from_vec(addresses))
}

/// The row of a function whose text begins at an address.
fn moved_row(alloc: Global, base: u32, row: &FunctionRow) -> Result<FunctionRow, AllocError>
    ensures { IfOk result (λ r. r ≡ moved_row base row.now) }
{
    Ok(FunctionRow {
        name: Text::from_slice(alloc, row.name.as_bytes())?,
        entry: sum(base, row.entry)?,
        end: sum(base, row.end)?,
        frame: row.frame,
        saved: Many::from_vec(Vec::from_slice(alloc, row.saved.as_slice())?),
        points: moved(alloc, base, row.points.as_slice())?,
        locals: Many::from_vec(Vec::from_slice(alloc, row.locals.as_slice())?),
    })
}

/// The rows of functions whose text begins at an address.
fn add_rows(
    alloc: Global,
    rows: &mut Vec<FunctionRow>,
    base: u32,
    functions: &[FunctionRow],
) -> Result<(), AllocError>
    ensures { OnOk result (rows.new.items ≡ rows.old.items ++ map (moved_row base) functions.now) }
{
    for row in functions {
        rows.push(moved_row(alloc, base, row)?)?;
    }
    Ok(())
}

/// The rows of the functions of some objects, whose texts stand one after another.
pub fn rows_of(alloc: Global, objects: &[Object]) -> Result<Vec<FunctionRow>, AllocError>
    ensures { IfOk result (λ v. v.items ≡ placed_rows FIRST_TEXT objects.now) }
{
    let mut rows = Vec::new(alloc);
    let mut base = TEXT;
    for object in objects {
        add_rows(alloc, &mut rows, base, object.functions.as_slice())?;
        base = sum(base, size_of(object.text.as_bytes())?)?;
    }
    Ok(rows)
}
