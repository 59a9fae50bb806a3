// Tables, and what is told of them.

use crate::escapes::parts_of;
use std::alloc::{AllocError, Global};
use std::io::Write;
use std::process::ExitCode;
use std::rt::{Env, Files};
use std::{env, fs, io};

/// What the rows of tables ask.
pub trait Subject {
    /// Appends the answer to a row of this kind, with the parts of its text.
    fn answer(
        &mut self,
        kind: &str,
        parts: &[Vec<u8>],
        out: &mut Vec<u8>,
    ) -> Result<(), AllocError>;
}

/// Appends a text.
pub fn append(out: &mut Vec<u8>, text: &str) -> Result<(), AllocError> {
    out.extend_from_slice(text.as_bytes())
}

/// The part at an index, or no bytes.
pub fn part(parts: &[Vec<u8>], index: usize) -> &[u8] {
    match parts.get(index) {
        Some(part) => part.as_slice(),
        None => &[],
    }
}

/// The numbers of a text between blanks: decimal ones, with a sign perhaps, and those of base 16 behind `0x`. What is none counts as 0.
pub fn numbers(alloc: Global, text: &[u8]) -> Result<Vec<u32>, AllocError> {
    let mut found = Vec::new(alloc);
    let text = std::str::from_utf8(text).unwrap_or("");
    for word in text.split_ascii_whitespace() {
        found.push(number(word))?;
    }
    Ok(found)
}

fn number(word: &str) -> u32 {
    match word.strip_prefix("0x") {
        Some(digits) => u32::from_str_radix(digits, 16).unwrap_or(0),
        None => match word.parse::<i32>() {
            Ok(value) => value.cast_unsigned(),
            Err(_) => word.parse::<u32>().unwrap_or(0),
        },
    }
}

/// Appends a row that is answered otherwise, with its answer, and says whether it is.
fn differs<S: Subject>(
    alloc: Global,
    subject: &mut S,
    line: &str,
    out: &mut Vec<u8>,
) -> Result<bool, AllocError> {
    let (asked, wanted) = line.rsplit_once(" => ").unwrap_or((line, ""));
    let (kind, text) = asked.split_once(' ').unwrap_or((asked, ""));
    let parts = parts_of(alloc, text.as_bytes())?;
    let mut found = Vec::new(alloc);
    subject.answer(kind, &parts, &mut found)?;
    if found.as_slice() == wanted.as_bytes() {
        return Ok(false);
    }
    append(out, line)?;
    append(out, "\n  but ")?;
    out.extend_from_slice(&found)?;
    append(out, "\n")?;
    Ok(true)
}

/// Appends the rows of a table that are answered otherwise, and how many rows there are and how many of them these are.
fn tell_table<S: Subject>(
    alloc: Global,
    subject: &mut S,
    name: &str,
    text: &str,
    out: &mut Vec<u8>,
) -> Result<(), AllocError> {
    let mut rows: u32 = 0;
    let mut wrong: u32 = 0;
    for line in text.lines() {
        if !line.is_empty() && !line.starts_with('#') {
            rows = rows.wrapping_add(1);
            if differs(alloc, subject, line, out)? {
                wrong = wrong.wrapping_add(1);
            }
        }
    }
    let told = format!(in alloc; "{name}: {rows} rows, {wrong} of them otherwise\n")?;
    append(out, told.as_str())
}

/// Answers the rows of the tables that the program's words name, and prints for each table the rows that are answered otherwise than they say, and how many there are.
pub fn run_tables<S: Subject>(
    rt: &(impl Env + Files + Print + AllocGlobal),
    subject: &mut S,
) -> io::Result<ExitCode> {
    let alloc = rt.alloc();
    let mut out = Vec::new(alloc);
    if let Ok(args) = env::args(rt) {
        for name in args.skip(1) {
            let text = fs::read_to_string(rt, name.as_str())?;
            tell_table(alloc, subject, name.as_str(), text.as_str(), &mut out)?;
        }
    }
    io::writer(rt).write_all(&out)?;
    Ok(ExitCode::SUCCESS)
}
