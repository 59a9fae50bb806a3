// Each form of the outside, with calls that fail.

use ldb_edge::{
    Failed, FileErr, Files, MemFiles, MemSink, MemSource, OsFiles, OsSink, OsSource, Sink, Source,
    SureFiles, SureSink, SureSource,
};
use std::alloc::{AllocError, Global};
use std::io::{Error, ErrorKind, Read, Write};
use std::{fs, io, rt};
use test_rows::{append, numbers, part};

/// What fails in each call, but for a write that is only lost when it is flushed.
#[derive(Drop)]
struct Broken;

impl Read for Broken {
    fn read(&mut self, _buf: &mut [u8]) -> io::Result<usize> {
        Err(Error::from(ErrorKind::BrokenPipe))
    }
}

impl Write for Broken {
    fn write(&mut self, buf: &[u8]) -> io::Result<usize> {
        Ok(buf.len())
    }

    fn flush(&mut self) -> io::Result<()> {
        Err(Error::from(ErrorKind::BrokenPipe))
    }
}

/// The numbers of the calls that fail.
pub fn calls_of(alloc: Global, text: &[u8]) -> Result<Vec<u64>, AllocError> {
    let mut calls = Vec::new(alloc);
    for number in numbers(alloc, text)? {
        calls.push(u64::from(number))?;
    }
    Ok(calls)
}

fn append_quoted(out: &mut Vec<u8>, bytes: &[u8]) -> Result<(), AllocError> {
    append(out, "'")?;
    out.extend_from_slice(bytes)?;
    append(out, "' ")
}

/// Appends what four reads with a buffer of two bytes give.
fn append_reads<S: Source>(source: &mut S, out: &mut Vec<u8>) -> Result<(), AllocError> {
    for _read in 0..4 {
        let mut buf = [0u8; 2];
        match source.read(&mut buf) {
            Ok(count) => append_quoted(out, buf.get(..count).unwrap_or(&[]))?,
            Err(Failed) => append(out, "failed ")?,
        }
    }
    Ok(())
}

/// Appends what a source of this form gives.
fn append_source(alloc: Global, parts: &[Vec<u8>], out: &mut Vec<u8>) -> Result<(), AllocError> {
    let bytes = Vec::from_slice(alloc, part(parts, 1))?;
    match part(parts, 0) {
        b"memory" => {
            let mut source = MemSource::new(bytes, calls_of(alloc, part(parts, 2))?);
            append_reads(&mut source, out)
        }
        b"sure" => append_reads(&mut SureSource::new(bytes), out),
        b"system" => append_reads(&mut OsSource::new(bytes.as_slice()), out),
        _ => append_reads(&mut OsSource::new(Broken), out),
    }
}

/// Appends how many bytes of each piece a sink takes.
fn append_writes<S: Sink>(
    alloc: Global,
    sink: &mut S,
    pieces: &[Vec<u8>],
    out: &mut Vec<u8>,
) -> Result<(), AllocError> {
    for piece in pieces {
        match sink.write(piece) {
            Ok(count) => append(out, format!(in alloc; "{count} ")?.as_str())?,
            Err(Failed) => append(out, "failed ")?,
        }
    }
    Ok(())
}

/// Appends what a sink of this form takes, and what it holds then.
fn append_sink(alloc: Global, parts: &[Vec<u8>], out: &mut Vec<u8>) -> Result<(), AllocError> {
    let held = Vec::from_slice(alloc, part(parts, 1))?;
    let pieces = parts.get(3..).unwrap_or(&[]);
    match part(parts, 0) {
        b"memory" => {
            let mut sink = MemSink::new(held, calls_of(alloc, part(parts, 2))?);
            append_writes(alloc, &mut sink, pieces, out)?;
            append_quoted(out, sink.bytes())
        }
        b"sure" => {
            let mut sink = SureSink::new(held);
            append_writes(alloc, &mut sink, pieces, out)?;
            append_quoted(out, sink.bytes())
        }
        b"system" => {
            let mut bytes = held;
            append_writes(alloc, &mut OsSink::new(&mut bytes), pieces, out)?;
            append_quoted(out, &bytes)
        }
        _ => append_writes(alloc, &mut OsSink::new(Broken), pieces, out),
    }
}

/// Appends what a call of files answers: `read NAME AT`, `append NAME TEXT` or `create NAME`.
fn append_call<F: Files>(
    alloc: Global,
    files: &mut F,
    call: &str,
    out: &mut Vec<u8>,
) -> Result<(), AllocError> {
    let (kind, rest) = call.split_once(' ').unwrap_or((call, ""));
    let (name, last) = rest.split_once(' ').unwrap_or((rest, ""));
    let fault = match kind {
        "read" => {
            let mut buf = [0u8; 2];
            match files.read_at(name, last.parse::<u64>().unwrap_or(0), &mut buf) {
                Ok(count) => return append_quoted(out, buf.get(..count).unwrap_or(&[])),
                Err(fault) => fault,
            }
        }
        "append" => match files.append(name, last.as_bytes()) {
            Ok(count) => return append(out, format!(in alloc; "{count} ")?.as_str()),
            Err(fault) => fault,
        },
        _ => match files.create(name) {
            Ok(()) => return append(out, "created "),
            Err(Failed) => FileErr::Failed,
        },
    };
    append(
        out,
        match fault {
            FileErr::Absent => "absent ",
            FileErr::Failed => "failed ",
        },
    )
}

/// Appends what the calls answer.
fn append_calls<F: Files>(
    alloc: Global,
    files: &mut F,
    calls: &[Vec<u8>],
    out: &mut Vec<u8>,
) -> Result<(), AllocError> {
    for call in calls {
        append_call(alloc, files, std::str::from_utf8(call).unwrap_or(""), out)?;
    }
    Ok(())
}

/// Appends what a file holds.
fn append_held(held: Option<&[u8]>, out: &mut Vec<u8>) -> Result<(), AllocError> {
    match held {
        Some(bytes) => append_quoted(out, bytes),
        None => append(out, "none "),
    }
}

/// Appends what files of this form answer, which in memory begin with `a`, and there what `a` and `b` hold then.
fn append_files(
    rt: &(impl rt::Files + AllocGlobal),
    parts: &[Vec<u8>],
    out: &mut Vec<u8>,
) -> Result<(), AllocError> {
    let alloc = rt.alloc();
    let calls = parts.get(2..).unwrap_or(&[]);
    let mut rows = Vec::new(alloc);
    rows.push((
        String::from_str(alloc, "a")?,
        Vec::from_slice(alloc, b"hello")?,
    ))?;
    match part(parts, 0) {
        b"memory" => {
            let mut files = MemFiles::new(rows, calls_of(alloc, part(parts, 1))?);
            append_calls(alloc, &mut files, calls, out)?;
            append_held(files.get("a"), out)?;
            append_held(files.get("b"), out)
        }
        b"sure" => {
            let mut files = SureFiles::new(rows);
            append_calls(alloc, &mut files, calls, out)?;
            append_held(files.get("a"), out)?;
            append_held(files.get("b"), out)
        }
        _ => append_calls(alloc, &mut OsFiles::new(rt), calls, out),
    }
}

/// Appends the answer to a row about the outside.
pub fn append_edge(
    rt: &(impl rt::Files + AllocGlobal),
    kind: &str,
    parts: &[Vec<u8>],
    out: &mut Vec<u8>,
) -> Result<(), AllocError> {
    match kind {
        "source" => append_source(rt.alloc(), parts, out),
        "sink" => append_sink(rt.alloc(), parts, out),
        "files" => append_files(rt, parts, out),
        _ => {
            let name = std::str::from_utf8(part(parts, 0)).unwrap_or("");
            let removed = fs::remove_file(rt, name).is_ok();
            append(out, if removed { "removed" } else { "not removed" })
        }
    }
}
