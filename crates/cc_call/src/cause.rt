// The lines that tell why sources are refused.
ghost use Rattle.std.specs.Prelude.{◌≡◌, ◌++◌, codes, IfOk, OnOk};
ghost use Rattle.cc_call.specs.Lines.{name_in, place_text, cause_text, is_refusal, refused_line, end};

use ldb_cc::BuildFault;
use ldb_words::Text;
use std::alloc::{AllocError, Global};

/// Whether a fault is a cause of a refusal: want of memory is none.
pub fn is_refusal(fault: &BuildFault) -> bool
    ensures { result ≡ is_refusal fault.now }
{
    !matches!(fault, BuildFault::NoMemory)
}

/// The name of a source.
fn name_in(names: &[Text], unit: u32) -> &[u8]
    ensures { result.now ≡ name_in names.now unit }
{
    let unit = unit as usize;
    if unit < names.len() {
        names[unit].as_bytes()
    } else {
        &[]
    }
}

/// Adds a place in a source.
fn add_place(
    alloc: Global,
    line: &mut Text,
    names: &[Text],
    unit: u32,
    row: u32,
    column: u32,
) -> Result<(), AllocError>
    ensures { OnOk result (line.new ≡ line.old ++ place_text names.now unit row column) }
{
    line.append(name_in(names, unit))?;
    let place = format!(in alloc; ":{row}.{column}")?;
    line.append(place.as_bytes())?;
    Ok(())
}

/// Adds a cause.
fn add_cause(
    alloc: Global,
    line: &mut Text,
    names: &[Text],
    fault: &BuildFault,
) -> Result<(), AllocError>
    ensures { OnOk result (line.new ≡ line.old ++ cause_text names.now fault.now) }
{
    match fault {
        BuildFault::Source => line.append(b"limit source"),
        BuildFault::Lex {
            unit,
            line: row,
            column,
        } => {
            line.append(b"lex ")?;
            add_place(alloc, line, names, *unit, *row, *column)
        }
        BuildFault::Tokens => line.append(b"limit tokens"),
        BuildFault::Syntax {
            unit,
            line: row,
            column,
        } => {
            line.append(b"syntax ")?;
            add_place(alloc, line, names, *unit, *row, *column)
        }
        BuildFault::Deep {
            unit,
            line: row,
            column,
        } => {
            line.append(b"deep ")?;
            add_place(alloc, line, names, *unit, *row, *column)
        }
        BuildFault::Arguments => line.append(b"limit arguments"),
        BuildFault::Rule {
            rule,
            unit,
            line: row,
            column,
        } => {
            let head = format!(in alloc; "type {rule} ")?;
            line.append(head.as_bytes())?;
            add_place(alloc, line, names, *unit, *row, *column)
        }
        BuildFault::Twice { name } => {
            line.append(b"twice ")?;
            line.append(name.as_bytes())
        }
        BuildFault::Unknown { name } => {
            line.append(b"unknown ")?;
            line.append(name.as_bytes())
        }
        BuildFault::NoMain => line.append(b"nomain"),
        BuildFault::Statics => line.append(b"limit data"),
        BuildFault::NoMemory => Err(AllocError),
    }
}

/// The line that tells why sources of these names are refused.
pub fn refused_line(alloc: Global, names: &[Text], fault: &BuildFault) -> Result<Text, AllocError>
    ensures { IfOk result (λ line. line ≡ refused_line names.now fault.now) }
{
    let mut line = Text::from_slice(alloc, b"program refused ")?;
    add_cause(alloc, &mut line, names, fault)?;
    line.push(b'\n')?;
    Ok(line)
}
