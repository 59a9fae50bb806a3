// Units, functions and stopping points of a table.
ghost use Rattle.std.specs.Prelude.{◌≡◌, OnOk, IfOk, Some, slice_get};
ghost use Rattle.ps_text.specs.Code.{render};
ghost use Rattle.ps_emit.specs.Grown.{Grows};
ghost use Rattle.ps_emit.specs.Places.{homes};
ghost use Rattle.ps_emit.specs.Symbols.{made_with};
ghost use Rattle.ps_emit.specs.Functions.{truth, register_offset, saved_register, saved_code, point_code, symbol_at, point_in, points_code, made_by, function_code, function_in, made_in, functions_code, deferred, unit_code, units_code};

use crate::symbols::{Scene, add_link, open_scope};
use crate::terms::{add_integer, add_number, add_string, add_word};
use c_tree::{Function, Point, Program, UnitRow};
use ldb_words::Text;
use obj_file::FunctionRow;
use std::alloc::{AllocError, Global};

/// Adds a truth value.
fn add_truth(text: &mut Text, b: bool) -> Result<(), AllocError>
    ensures { OnOk result (Grows (truth b) text.old text.new) }
{
    if b {
        add_word(text, b"true")
    } else {
        add_word(text, b"false")
    }
}

/// Adds a register and an offset.
fn add_register_offset(text: &mut Text, register: u8, offset: i32) -> Result<(), AllocError>
    ensures { OnOk result (Grows (register_offset register offset) text.old text.new) }
{
    add_integer(text, i32::from(register))?;
    add_integer(text, offset)
}

/// Adds a saved register with its offset.
fn add_saved_register(text: &mut Text, register: u8, offset: i32) -> Result<(), AllocError>
    ensures { OnOk result (Grows (saved_register register offset) text.old text.new) }
{
    add_word(text, b"[")?;
    add_register_offset(text, register, offset)?;
    add_word(text, b"]")
}

/// Adds saved registers with their offsets.
fn add_saved(text: &mut Text, saved: &[(u8, i32)]) -> Result<(), AllocError>
    ensures { OnOk result (Grows (saved_code saved.now) text.old text.new) }
{
    for i in 0..saved.len() {
        add_saved_register(text, saved[i].0, saved[i].1)?;
    }
    Ok(())
}

/// Adds a stopping point at an address.
fn add_point(text: &mut Text, address: u32, point: &Point) -> Result<(), AllocError>
    ensures { OnOk result (Grows (point_code address point.now) text.old text.new) }
{
    add_number(text, point.line)?;
    add_number(text, point.column)?;
    add_number(text, address)?;
    add_link(text, point.symbol)?;
    add_word(text, b"NewPoint")
}

/// Adds a stopping point at an address behind the symbols that come into scope there, and gives the number below which all symbols are made.
fn add_opened_point(
    alloc: Global,
    text: &mut Text,
    scene: Scene,
    made: u32,
    point: &Point,
    address: u32,
) -> Result<u32, AllocError>
    ensures text { OnOk result (Grows (point_in scene.entry.program.now scene.entry.functions.now (homes scene.entry.places.now scene.entry.locals.now) made address (Some point.now)) text.old text.new) }
    ensures made { IfOk result (λ n. n ≡ made_with made point.now.symbol) }
{
    let made = open_scope(alloc, text, scene, made, point.symbol)?;
    add_point(text, address, point)?;
    Ok(made)
}

/// The same for a stopping point by its number.
fn add_point_of(
    alloc: Global,
    text: &mut Text,
    scene: Scene,
    made: u32,
    x: u32,
    address: u32,
) -> Result<u32, AllocError>
    ensures text { OnOk result (Grows (point_in scene.entry.program.now scene.entry.functions.now (homes scene.entry.places.now scene.entry.locals.now) made address (slice_get scene.entry.program.now.points x)) text.old text.new) }
    ensures made { IfOk result (λ n. n ≡ made_with made (symbol_at (slice_get scene.entry.program.now.points x))) }
{
    match scene.program.points.as_slice().get(x as usize) {
        Some(point) => add_opened_point(alloc, text, scene, made, point, address),
        None => Ok(made),
    }
}

/// Adds stopping points at their addresses, each behind the symbols that come into scope there, and gives the number below which all symbols are made.
fn add_points(
    alloc: Global,
    text: &mut Text,
    scene: Scene,
    made: u32,
    points: &[u32],
    addresses: &[u32],
) -> Result<u32, AllocError>
    ensures text { OnOk result (Grows (points_code scene.entry.program.now scene.entry.functions.now (homes scene.entry.places.now scene.entry.locals.now) made points.now addresses.now) text.old text.new) }
    ensures made { IfOk result (λ n. n ≡ made_by scene.entry.program.now scene.entry.functions.now made points.now addresses.now) }
{
    let mut made = made;
    for i in 0..points.len() {
        if i >= addresses.len() {
            return Ok(made);
        }
        made = add_point_of(alloc, text, scene, made, points[i], addresses[i])?;
    }
    Ok(made)
}

/// Adds a function, and gives the number below which all symbols are made.
fn add_function(
    alloc: Global,
    text: &mut Text,
    scene: Scene,
    made: u32,
    function: &Function,
    row: &FunctionRow,
) -> Result<u32, AllocError>
    requires places { scene.places.now ≡ row.now.locals }
    requires locals { scene.locals.now ≡ function.now.locals }
    ensures text { OnOk result (Grows (function_code scene.entry.program.now scene.entry.functions.now made function.now row.now) text.old text.new) }
    ensures made { IfOk result (λ n. n ≡ made_by scene.entry.program.now scene.entry.functions.now made function.now.points row.now.points) }
{
    add_string(text, function.name.as_bytes())?;
    add_truth(text, function.is_static)?;
    add_number(text, row.entry)?;
    add_number(text, row.end)?;
    add_number(text, row.frame)?;
    add_word(text, b"[")?;
    add_saved(text, row.saved.as_slice())?;
    add_word(text, b"]")?;
    add_word(text, b"[")?;
    let made = add_points(
        alloc,
        text,
        scene,
        made,
        function.points.as_slice(),
        row.points.as_slice(),
    )?;
    add_word(text, b"]")?;
    add_word(text, b"NewFunction")?;
    Ok(made)
}

/// Adds a function by its number, and gives the number below which all symbols are made.
fn add_function_of(
    alloc: Global,
    text: &mut Text,
    program: &Program,
    rows: &[FunctionRow],
    made: u32,
    f: u32,
) -> Result<u32, AllocError>
    ensures text { OnOk result (Grows (function_in program.now rows.now made (slice_get program.now.functions f) (slice_get rows.now f)) text.old text.new) }
    ensures made { IfOk result (λ n. n ≡ made_in program.now rows.now made (slice_get program.now.functions f) (slice_get rows.now f)) }
{
    let Some(function) = program.functions.as_slice().get(f as usize) else {
        return Ok(made);
    };
    let Some(row) = rows.get(f as usize) else {
        return Ok(made);
    };
    let scene = Scene {
        program,
        functions: rows,
        places: row.locals.as_slice(),
        locals: function.locals.as_slice(),
    };
    add_function(alloc, text, scene, made, function, row)
}

/// Adds functions by their numbers.
fn add_functions(
    alloc: Global,
    text: &mut Text,
    program: &Program,
    rows: &[FunctionRow],
    functions: &[u32],
) -> Result<(), AllocError>
    ensures { OnOk result (Grows (functions_code program.now rows.now 0 functions.now) text.old text.new) }
{
    let mut made: u32 = 0;
    for f in functions {
        made = add_function_of(alloc, text, program, rows, made, *f)?;
    }
    Ok(())
}

/// The text that leaves a unit's functions.
fn deferred(
    alloc: Global,
    program: &Program,
    rows: &[FunctionRow],
    unit: &UnitRow,
) -> Result<Text, AllocError>
    ensures { IfOk result (λ t. t ≡ render (deferred program.now rows.now unit.now)) }
{
    let mut text = Text::new(alloc);
    add_integer(&mut text, 1)?;
    add_word(&mut text, b"dict")?;
    add_word(&mut text, b"begin")?;
    add_word(&mut text, b"[")?;
    add_functions(alloc, &mut text, program, rows, unit.functions.as_slice())?;
    add_word(&mut text, b"]")?;
    add_word(&mut text, b"end")?;
    Ok(text)
}

/// Adds a unit.
fn add_unit(
    alloc: Global,
    text: &mut Text,
    program: &Program,
    rows: &[FunctionRow],
    unit: &UnitRow,
) -> Result<(), AllocError>
    ensures { OnOk result (Grows (unit_code program.now rows.now unit.now) text.old text.new) }
{
    let functions = deferred(alloc, program, rows, unit)?;
    add_string(text, unit.file.as_bytes())?;
    add_string(text, functions.as_bytes())?;
    add_word(text, b"cvx")?;
    add_word(text, b"NewUnit")
}

/// Adds units.
pub fn add_units(
    alloc: Global,
    text: &mut Text,
    program: &Program,
    rows: &[FunctionRow],
    units: &[UnitRow],
) -> Result<(), AllocError>
    ensures { OnOk result (Grows (units_code program.now rows.now units.now) text.old text.new) }
{
    for unit in units {
        add_unit(alloc, text, program, rows, unit)?;
    }
    Ok(())
}
