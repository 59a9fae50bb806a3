// The rows of tables of programs.

use crate::front::{Source, program_of};
use crate::report::report;
use crate::sources;
use c_discard::discard_program;
use c_tree::{Program, Start};
use ldb_words::Text;
use std::alloc::{AllocError, Global};
use test_rows::{Subject, append, append_escaped, part};

/// The files that rows name.
#[derive(Drop)]
pub struct Tables {
    pub rt: HostRuntime,
}

fn source(alloc: Global, name: &[u8], text: &[u8]) -> Result<Source, AllocError> {
    Ok(Source {
        name: Text::from_slice(alloc, name)?,
        text: Vec::from_slice(alloc, text)?,
    })
}

/// The files of a row: its parts are a name and a text by turns, or the texts of `t.c` and `u.c`.
fn files_of(alloc: Global, by_turns: bool, parts: &[Vec<u8>]) -> Result<Vec<Source>, AllocError> {
    let mut files = Vec::new(alloc);
    if by_turns {
        for pair in parts.chunks(2) {
            files.push(source(alloc, part(pair, 0), part(pair, 1))?)?;
        }
    } else {
        files.push(source(alloc, b"t.c", part(parts, 0))?)?;
        if parts.len() > 1 {
            files.push(source(alloc, b"u.c", part(parts, 1))?)?;
        }
    }
    Ok(files)
}

/// Appends the first line of a report.
fn append_first_line(report: &[u8], out: &mut Vec<u8>) -> Result<(), AllocError> {
    let end = report.iter().position(|byte| *byte == b'\n');
    let line = report.get(..end.unwrap_or(report.len()));
    out.extend_from_slice(line.unwrap_or(&[]))
}

/// Appends what the leaves of each object hold at first.
fn append_held(alloc: Global, program: &Program, out: &mut Vec<u8>) -> Result<(), AllocError> {
    for object in program.objects.as_slice() {
        for start in object.start.as_slice() {
            let told = match start {
                Start::Number(n) => format!(in alloc; "{n} ")?,
                Start::Str(n) => format!(in alloc; "string {n} ")?,
                Start::Object { object, offset } => format!(in alloc; "{object}+{offset} ")?,
            };
            append(out, told.as_str())?;
        }
        append(out, "; ")?;
    }
    Ok(())
}

/// Appends how many functions, objects and stopping points a program has, or what its objects hold.
fn append_program(
    alloc: Global,
    kind: &str,
    program: &Program,
    out: &mut Vec<u8>,
) -> Result<(), AllocError> {
    if kind == "held" {
        return append_held(alloc, program, out);
    }
    let (functions, objects) = (program.functions.len(), program.objects.len());
    let points = program.points.len();
    let counts = format!(in alloc; "{functions} functions {objects} objects {points} points")?;
    append(out, counts.as_str())
}

impl Subject for Tables {
    fn answer(
        &mut self,
        kind: &str,
        parts: &[Vec<u8>],
        out: &mut Vec<u8>,
    ) -> Result<(), AllocError> {
        let alloc = self.rt.alloc();
        let files = if kind == "files" {
            let name = std::str::from_utf8(part(parts, 0)).unwrap_or("");
            let names = [String::from_str(alloc, name)?];
            match sources(&self.rt, &names) {
                Ok(files) => files,
                Err(_) => return append(out, "no file"),
            }
        } else {
            files_of(alloc, kind == "points", parts)?
        };
        if kind == "counts" || kind == "held" {
            if let Ok(program) = program_of(alloc, &files)? {
                let appended = append_program(alloc, kind, &program, out);
                discard_program(program);
                return appended;
            }
        }
        let lines = report(alloc, &files)?;
        match kind {
            "files" | "points" => append_escaped(alloc, out, &lines),
            _ => append_first_line(&lines, out),
        }
    }
}
