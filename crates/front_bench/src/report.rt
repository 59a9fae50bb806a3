// What is written of a program.

use crate::front::{Refusal, Source, Spot, program_of};
use c_check::CheckFault;
use c_discard::discard_program;
use c_tree::{Point, Program};
use std::alloc::{AllocError, Global};

/// Appends `F:L.C`.
fn append_place(
    alloc: Global,
    out: &mut Vec<u8>,
    file: &[u8],
    line: u32,
    column: u32,
) -> Result<(), AllocError> {
    out.extend_from_slice(file)?;
    let place = format!(in alloc; ":{line}.{column}\n")?;
    out.extend_from_slice(place.as_bytes())
}

/// The line and the column of an offset in a text, both from 1.
fn line_and_column(text: &[u8], at: u32) -> (u32, u32) {
    let mut line: u32 = 1;
    let mut column: u32 = 1;
    for byte in text.iter().take(at as usize) {
        if *byte == b'\n' {
            line = line.saturating_add(1);
            column = 1;
        } else {
            column = column.saturating_add(1);
        }
    }
    (line, column)
}

/// Appends a cause and the place of an offset.
fn append_spot(
    alloc: Global,
    out: &mut Vec<u8>,
    sources: &[Source],
    cause: &str,
    spot: Spot,
) -> Result<(), AllocError> {
    out.extend_from_slice(cause.as_bytes())?;
    match sources.get(spot.unit) {
        None => Ok(()),
        Some(source) => {
            let (line, column) = line_and_column(&source.text, spot.at);
            append_place(alloc, out, source.name.as_bytes(), line, column)
        }
    }
}

/// Appends a cause with a name.
fn append_name(out: &mut Vec<u8>, cause: &str, name: &[u8]) -> Result<(), AllocError> {
    out.extend_from_slice(cause.as_bytes())?;
    out.extend_from_slice(name)?;
    out.push(b'\n')?;
    Ok(())
}

/// Appends why a program of trees is refused.
fn append_fault(
    alloc: Global,
    out: &mut Vec<u8>,
    sources: &[Source],
    fault: &CheckFault,
) -> Result<(), AllocError> {
    match fault {
        CheckFault::Arguments => out.extend_from_slice(b"limit arguments\n"),
        CheckFault::Rule { rule, unit, at } => {
            let cause = format!(in alloc; "type {rule} ")?;
            let spot = Spot {
                unit: *unit as usize,
                at: *at,
            };
            append_spot(alloc, out, sources, cause.as_str(), spot)
        }
        CheckFault::Twice { name } => append_name(out, "twice ", name.as_bytes()),
        CheckFault::Unknown { name } => append_name(out, "unknown ", name.as_bytes()),
        CheckFault::NoMain => out.extend_from_slice(b"nomain\n"),
        CheckFault::TooBig => out.extend_from_slice(b"limit data\n"),
        CheckFault::NoMemory => Err(AllocError),
    }
}

/// Appends why files are refused.
fn append_refusal(
    alloc: Global,
    out: &mut Vec<u8>,
    sources: &[Source],
    why: &Refusal,
) -> Result<(), AllocError> {
    out.extend_from_slice(b"program refused ")?;
    match why {
        Refusal::Source => out.extend_from_slice(b"limit source\n"),
        Refusal::Lex(spot) => append_spot(alloc, out, sources, "lex ", *spot),
        Refusal::Tokens => out.extend_from_slice(b"limit tokens\n"),
        Refusal::Syntax(spot) => append_spot(alloc, out, sources, "syntax ", *spot),
        Refusal::Deep(spot) => append_spot(alloc, out, sources, "deep ", *spot),
        Refusal::Check(fault) => append_fault(alloc, out, sources, fault),
    }
}

/// The name of the file that has a stopping point.
fn file_of<'a>(program: &'a Program, point: &Point) -> &'a [u8] {
    let functions = program.functions.as_slice();
    let Some(function) = functions.get(point.function as usize) else {
        return &[];
    };
    match program.units.as_slice().get(function.unit as usize) {
        None => &[],
        Some(unit) => unit.file.as_bytes(),
    }
}

/// Appends `accepted` and each stopping point of a program.
fn append_points(alloc: Global, out: &mut Vec<u8>, program: &Program) -> Result<(), AllocError> {
    out.extend_from_slice(b"accepted\n")?;
    for point in program.points.as_slice() {
        append_place(
            alloc,
            out,
            file_of(program, point),
            point.line,
            point.column,
        )?;
    }
    Ok(())
}

/// The lines that tell what some files are: `accepted` and each stopping point, or why they are refused.
pub fn report(alloc: Global, sources: &[Source]) -> Result<Vec<u8>, AllocError> {
    let mut out = Vec::new(alloc);
    match program_of(alloc, sources)? {
        Err(why) => append_refusal(alloc, &mut out, sources, &why)?,
        Ok(program) => {
            let appended = append_points(alloc, &mut out, &program);
            discard_program(program);
            appended?;
        }
    }
    Ok(out)
}
