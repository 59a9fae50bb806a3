// The slot code of files of C, and where it stops.

use c_check::check_program;
use c_discard::{discard_program, discard_units};
use c_lex::tokens;
use c_syntax::{Unit, parse_unit};
use c_tree::Program;
use ldb_words::Text;
use slot_gen::lower;
use slot_ir::{SlotCode, SlotFunction, SlotOp};
use slot_run::is_lowerable;
use std::alloc::{AllocError, Global};
use std::fs;
use std::rt::Files;
use test_rows::append;

/// The tree of a file.
fn unit_of(alloc: Global, text: &[u8]) -> Option<Unit> {
    if text.len() > 1_048_576 {
        return None;
    }
    let found = tokens(alloc, text).ok()?;
    parse_unit(alloc, text, &found).ok()
}

/// Adds the trees of the files whose names stand between blanks, and these names, as many. Or tells that one of them has no tree.
fn add_units(
    rt: &(impl Files + AllocGlobal),
    files: &str,
    names: &mut Vec<Text>,
    units: &mut Vec<Unit>,
) -> Result<bool, AllocError> {
    let alloc = rt.alloc();
    for file in files.split_ascii_whitespace() {
        let Ok(text) = fs::read(rt, file) else {
            return Ok(false);
        };
        match unit_of(alloc, &text) {
            Some(unit) => units.push(unit)?,
            None => return Ok(false),
        }
        names.push(Text::from_slice(alloc, file.as_bytes())?)?;
    }
    Ok(true)
}

/// The slot code of a program, where it can be made of it.
fn code_of_program(alloc: Global, program: &Program) -> Result<Option<SlotCode>, AllocError> {
    if !is_lowerable(alloc, program)? {
        return Ok(None);
    }
    Ok(Some(lower(alloc, program)?))
}

/// The slot code of files with these names, where they are a program of which it can be made.
fn code_of_units(
    alloc: Global,
    names: &[Text],
    units: &[Unit],
) -> Result<Option<SlotCode>, AllocError> {
    if names.len() != units.len() {
        return Ok(None);
    }
    match check_program(alloc, names, units) {
        Ok(program) => {
            let code = code_of_program(alloc, &program);
            discard_program(program);
            code
        }
        Err(_) => Ok(None),
    }
}

/// The slot code of the files whose names stand between blanks, where they are a program of which it can be made.
pub fn code_of(
    rt: &(impl Files + AllocGlobal),
    files: &[u8],
) -> Result<Option<SlotCode>, AllocError> {
    let alloc = rt.alloc();
    let files = std::str::from_utf8(files).unwrap_or("");
    let mut names = Vec::new(alloc);
    let mut units = Vec::new(alloc);
    let code = match add_units(rt, files, &mut names, &mut units) {
        Ok(true) => code_of_units(alloc, &names, &units),
        Ok(false) => Ok(None),
        Err(fault) => Err(fault),
    };
    discard_units(units);
    code
}

/// Whether each stopping point stands at its place.
fn are_placed(function: &SlotFunction) -> bool {
    let mut placed = function.points.len() == function.places.len();
    for (point, place) in function
        .points
        .as_slice()
        .iter()
        .zip(function.places.as_slice())
    {
        let op = function.code.as_slice().get(*place as usize);
        placed = placed && op == Some(&SlotOp::Stop { point: *point });
    }
    placed
}

/// Appends the stopping points of the function of a number, in the order of its code.
pub fn append_stops(
    alloc: Global,
    code: &SlotCode,
    number: &[u32],
    out: &mut Vec<u8>,
) -> Result<(), AllocError> {
    let number = number.first().copied().unwrap_or(0);
    let Some(function) = code.functions.as_slice().get(number as usize) else {
        return append(out, "no function");
    };
    append(
        out,
        if are_placed(function) {
            "placed"
        } else {
            "elsewhere"
        },
    )?;
    for op in function.code.as_slice() {
        if let SlotOp::Stop { point } = op {
            append(out, format!(in alloc; " {point}")?.as_str())?;
        }
    }
    Ok(())
}
