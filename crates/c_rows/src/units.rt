// The rows of a program's files.
ghost use Rattle.std.specs.Prelude.{◌≡◌, ◌<◌, ◌++◌, ◌∷◌, ℕ, [], map, length, IfOk, OnOk, if◌then◌else◌, ◌==◌};
ghost use Rattle.c_rows.specs.Units.{file_of, files_functions, functions_by};

use c_tree::{Function, UnitRow};
use ldb_words::{Many, Text};
use std::alloc::{AllocError, Global};

/// Files of these names, which have no functions yet.
fn files(alloc: Global, names: &[Text]) -> Result<Vec<UnitRow>, AllocError>
    ensures files { IfOk result (λ us. map file_of us.items ≡ names.now) }
    ensures functions { IfOk result (λ us. (u : ℕ) → files_functions us.items u ≡ []) }
{
    let mut units = Vec::new(alloc);
    for name in names {
        let file = Text::from_slice(alloc, name.as_bytes())?;
        units.push(UnitRow {
            file,
            functions: Many::new(alloc),
        })?;
    }
    Ok(units)
}

/// Adds the number of a function to its file, where there is such a file.
fn add_function(units: &mut Vec<UnitRow>, unit: u32, number: u32) -> Result<(), AllocError>
    ensures files { OnOk result (map file_of units.new.items ≡ map file_of units.old.items) }
    ensures functions { OnOk result ((u : ℕ) → u < length units.old.items → files_functions units.new.items u ≡ (if unit == u then files_functions units.old.items u ++ number ∷ [] else files_functions units.old.items u)) }
{
    match units.get_mut(unit as usize) {
        None => Ok(()),
        Some(row) => row.functions.push(number),
    }
}

/// The files of these names with the numbers of their functions. Fails also where there are 2^32 functions.
pub fn unit_rows(
    alloc: Global,
    names: &[Text],
    functions: &[Function],
) -> Result<Vec<UnitRow>, AllocError>
    ensures files { IfOk result (λ us. map file_of us.items ≡ names.now) }
    ensures functions { IfOk result (λ us. (u : ℕ) → u < length names.now → files_functions us.items u ≡ functions_by u 0 functions.now) }
{
    let mut units = files(alloc, names)?;
    for (i, f) in functions.iter().enumerate() {
        let Ok(number) = u32::try_from(i) else {
            return Err(AllocError);
        };
        add_function(&mut units, f.unit, number)?;
    }
    Ok(units)
}
