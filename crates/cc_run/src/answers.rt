// What programs do, and why sources are refused.

ghost use Rattle.std.specs.Prelude.{◌≤◌, length};

use crate::run::{Ended, run_built};
use crate::sources::Sources;
use ldb_cc::{Aim, BuildFault, Built, compile};
use ldb_words::Text;
use std::alloc::{AllocError, Global};
use test_rows::{append, append_escaped};

/// Compiles sources.
fn built(alloc: Global, aim: Aim, sources: &Sources) -> Result<Built, BuildFault> {
    if sources.names.len() != sources.texts.len() {
        return Err(BuildFault::NoMemory);
    }
    compile(alloc, aim, &sources.names, &sources.texts)
}

/// Appends a place in a source.
fn append_place(
    alloc: Global,
    sources: &Sources,
    unit: u32,
    line: u32,
    column: u32,
    out: &mut Vec<u8>,
) -> Result<(), AllocError> {
    match sources.names.get(unit as usize) {
        Some(name) => out.extend_from_slice(name.as_bytes())?,
        None => append(out, "?")?,
    }
    append(out, format!(in alloc; ":{line}.{column}")?.as_str())
}

/// Appends a name.
fn append_name(what: &str, name: &Text, out: &mut Vec<u8>) -> Result<(), AllocError> {
    append(out, what)?;
    out.extend_from_slice(name.as_bytes())
}

/// Appends the cause of a refusal.
fn append_cause(
    alloc: Global,
    sources: &Sources,
    fault: &BuildFault,
    out: &mut Vec<u8>,
) -> Result<(), AllocError> {
    match fault {
        BuildFault::Source => append(out, "limit source"),
        BuildFault::Lex { unit, line, column } => {
            append(out, "lex ")?;
            append_place(alloc, sources, *unit, *line, *column, out)
        }
        BuildFault::Tokens => append(out, "limit tokens"),
        BuildFault::Syntax { unit, line, column } => {
            append(out, "syntax ")?;
            append_place(alloc, sources, *unit, *line, *column, out)
        }
        BuildFault::Deep { unit, line, column } => {
            append(out, "deep ")?;
            append_place(alloc, sources, *unit, *line, *column, out)
        }
        BuildFault::Arguments => append(out, "limit arguments"),
        BuildFault::Rule {
            rule,
            unit,
            line,
            column,
        } => {
            append(out, format!(in alloc; "type {rule} ")?.as_str())?;
            append_place(alloc, sources, *unit, *line, *column, out)
        }
        BuildFault::Twice { name } => append_name("twice ", name, out),
        BuildFault::Unknown { name } => append_name("unknown ", name, out),
        BuildFault::NoMain => append(out, "nomain"),
        BuildFault::Statics => append(out, "limit data"),
        BuildFault::NoMemory => append(out, "no memory"),
    }
}

/// Appends how a run of a program for a target ends and what it writes, or why it is refused.
fn append_run(
    alloc: Global,
    aim: Aim,
    sources: &Sources,
    input: &[u8],
    out: &mut Vec<u8>,
) -> Result<(), AllocError> {
    match built(alloc, aim, sources) {
        Err(fault) => append_cause(alloc, sources, &fault, out),
        Ok(built) => {
            let Ended {
                event,
                status,
                output,
            } = run_built(alloc, &built.image, input)?;
            append(out, event)?;
            if event == "exit" {
                append(out, format!(in alloc; " {status}")?.as_str())?;
            }
            append(out, " ")?;
            append_escaped(alloc, out, &output)
        }
    }
}

/// Where a word first stands in a text, or the text's length.
fn place_of(text: &[u8], word: &[u8]) -> usize
    ensures { result ≤ length text.now }
{
    for i in 0..text.len() {
        if text[i..].starts_with(word) {
            return i;
        }
    }
    text.len()
}

/// What a table says of its target and its anchors.
fn head_of(table: &[u8]) -> &[u8] {
    let from = place_of(table, b"<< /ldb ");
    let to = place_of(table, b" /structs << ");
    if from < to { &table[from..to] } else { &[] }
}

/// Appends what the table of a program for a target says of its target and its anchors, or why the program is refused.
fn append_table(
    alloc: Global,
    aim: Aim,
    sources: &Sources,
    out: &mut Vec<u8>,
) -> Result<(), AllocError> {
    match built(alloc, aim, sources) {
        Err(fault) => append_cause(alloc, sources, &fault, out),
        Ok(built) => append_escaped(alloc, out, head_of(built.table.as_bytes())),
    }
}

/// Appends the answer for MIPS, and that for SPARC where it is another.
fn append_both(mips: &[u8], sparc: &[u8], out: &mut Vec<u8>) -> Result<(), AllocError> {
    out.extend_from_slice(mips)?;
    if mips == sparc {
        return Ok(());
    }
    append(out, " and ")?;
    out.extend_from_slice(sparc)
}

/// Appends how the runs of a program for both targets end and what they write.
pub fn append_runs(
    alloc: Global,
    sources: &Sources,
    input: &[u8],
    out: &mut Vec<u8>,
) -> Result<(), AllocError> {
    let mut mips = Vec::new(alloc);
    append_run(alloc, Aim::Mips, sources, input, &mut mips)?;
    let mut sparc = Vec::new(alloc);
    append_run(alloc, Aim::Sparc, sources, input, &mut sparc)?;
    append_both(&mips, &sparc, out)
}

/// Appends the tables of a program for both targets, or why it is refused.
pub fn append_causes(
    alloc: Global,
    sources: &Sources,
    out: &mut Vec<u8>,
) -> Result<(), AllocError> {
    let mut mips = Vec::new(alloc);
    append_table(alloc, Aim::Mips, sources, &mut mips)?;
    let mut sparc = Vec::new(alloc);
    append_table(alloc, Aim::Sparc, sources, &mut sparc)?;
    append_both(&mips, &sparc, out)
}
