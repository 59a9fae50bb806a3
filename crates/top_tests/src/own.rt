// Sessions with generated programs.

use crate::sessions::called;
use ldb_edge::{MemFiles, MemSink, MemSource};
use std::alloc::{AllocError, Global};
use test_rows::{append, append_escaped, part};

/// What is counted of a transcript.
#[derive(Drop)]
struct Counts {
    stops: usize,
    lines: usize,
    exit: Vec<u8>,
    sum: u32,
}

/// What a call with these words prints, over these files and commands.
fn printed(
    alloc: Global,
    words: &str,
    files: &mut MemFiles,
    commands: &[u8],
) -> Result<Vec<u8>, AllocError> {
    let mut list = Vec::new(alloc);
    for word in words.split(' ') {
        list.push(String::from_str(alloc, word)?)?;
    }
    let commands = Vec::from_slice(alloc, commands)?;
    let mut source = MemSource::new(commands, Vec::new(alloc));
    let mut sink = MemSink::new(Vec::new(alloc), Vec::new(alloc));
    let _status = called(alloc, &list, files, &mut source, &mut sink);
    Vec::from_slice(alloc, sink.bytes())
}

/// Counts the lines of a transcript.
fn counts_of(alloc: Global, transcript: &str) -> Result<Counts, AllocError> {
    let mut counts = Counts {
        stops: 0,
        lines: 0,
        exit: Vec::new(alloc),
        sum: 0,
    };
    for line in transcript.lines() {
        counts.lines = counts.lines.saturating_add(1);
        if line.starts_with("stop ") {
            counts.stops = counts.stops.saturating_add(1);
        }
        if let Some(exit) = line.strip_prefix("exited ") {
            counts.exit = Vec::from_slice(alloc, exit.as_bytes())?;
        }
    }
    for byte in transcript.as_bytes() {
        counts.sum = counts.sum.wrapping_mul(31).wrapping_add(u32::from(*byte));
    }
    Ok(counts)
}

/// The line that sums up the session with a program that was made, which is run on both targets.
fn computed(alloc: Global, number: &str, made: &str) -> Result<Vec<u8>, AllocError> {
    let (program, commands) = made.split_once("----\n").unwrap_or((made, ""));
    let mut rows = Vec::new(alloc);
    let program = Vec::from_slice(alloc, program.as_bytes())?;
    rows.push((String::from_str(alloc, "make.c")?, program))?;
    rows.push((String::from_str(alloc, "in")?, Vec::new(alloc)))?;
    let mut files = MemFiles::new(rows, Vec::new(alloc));
    let words = format!(in alloc; "go both in out make.c schedule={number}")?;
    let transcript = printed(alloc, words.as_str(), &mut files, commands.as_bytes())?;
    let counts = counts_of(alloc, std::str::from_utf8(&transcript).unwrap_or(""))?;
    let stops = counts.stops;
    let lines = counts.lines;
    let sum = counts.sum;
    let length = transcript.len();
    let output = files.get("out").unwrap_or(&[]).len();
    let exit = std::str::from_utf8(&counts.exit).unwrap_or("");
    let line = format!(in alloc;
        "self {number} stops {stops} lines {lines} transcript {length} output {output} exit {exit} sum {sum:08x}\n"
    )?;
    Ok(line.into_bytes())
}

/// Appends the stops, lines and bytes of output of the generated program of a number, and whether the sum of its session is twice what is computed from a session with it.
pub fn append_own(alloc: Global, parts: &[Vec<u8>], out: &mut Vec<u8>) -> Result<(), AllocError> {
    let number = std::str::from_utf8(part(parts, 0)).unwrap_or("");
    let mut files = MemFiles::new(Vec::new(alloc), Vec::new(alloc));
    let made = printed(
        alloc,
        format!(in alloc; "make {number}")?.as_str(),
        &mut files,
        &[],
    )?;
    let wanted = computed(alloc, number, std::str::from_utf8(&made).unwrap_or(""))?;
    let words = format!(in alloc; "self {number}")?;
    for _time in 0..2 {
        let told = printed(alloc, words.as_str(), &mut files, &[])?;
        if told != wanted {
            append(out, "otherwise: ")?;
            append_escaped(alloc, out, &told)?;
        }
    }
    let line = std::str::from_utf8(&wanted).unwrap_or("");
    let (front, _) = line.split_once(" transcript ").unwrap_or((line, ""));
    append(out, front)?;
    let (_, behind) = line.split_once(" output ").unwrap_or(("", line));
    let (output, _) = behind.split_once(" exit ").unwrap_or((behind, ""));
    append(
        out,
        format!(in alloc; " output {output} as computed")?.as_str(),
    )
}
