// Generated programs and sessions with them.
ghost use Rattle.std.specs.Prelude.{◌≡◌, IfErr, IfOk};
ghost use Rattle.ldb_top.specs.Said.{generated};
ghost use Rattle.ldb_top.specs.Stops.{IsBuildStop};

use crate::opening::begin;
use crate::serving::serve;
use crate::status::Stop;
use crate::words::Aims;
use ldb_edge::{SureFiles, SureSink, SureSource};
use ldb_make::{Made, make};
use ldb_words::Text;
use near_link::NearLink;
use session::Session;
use std::alloc::{AllocError, Global};

/// The name of the output file of a generated session.
const OUTPUT: &str = "output";

/// What is counted of a transcript: its stops and lines, the sum of its bytes, and the number of its exit.
#[derive(Drop)]
struct Counts {
    stops: u64,
    lines: u64,
    sum: u32,
    exit: Text,
}

/// A generated program and its commands, with a line between them.
pub fn made_text(alloc: Global, number: u32) -> Result<Text, AllocError>
    ensures { IfOk result (λ text. text ≡ generated number) }
{
    let Made { program, commands } = make(alloc, number)?;
    let mut text = program;
    text.append(b"----\n")?;
    text.append(commands.as_bytes())?;
    Ok(text)
}

/// Counts the lines of a transcript.
fn counts_of(alloc: Global, transcript: &[u8]) -> Result<Counts, AllocError> {
    let mut counts = Counts {
        stops: 0,
        lines: 0,
        sum: 0,
        exit: Text::new(alloc),
    };
    let mut start = 0;
    for i in 0..transcript.len() {
        let byte = transcript[i];
        counts.sum = counts.sum.wrapping_mul(31).wrapping_add(u32::from(byte));
        if byte == b'\n' {
            counts.add_line(alloc, &transcript[start..i])?;
            start = i + 1;
        }
    }
    Ok(counts)
}

impl Counts {
    /// Counts a line.
    fn add_line(&mut self, alloc: Global, line: &[u8]) -> Result<(), AllocError> {
        self.lines = self.lines.saturating_add(1);
        if line.starts_with(b"stop ") {
            self.stops = self.stops.saturating_add(1);
        }
        if line.starts_with(b"exited ") {
            self.exit = Text::from_slice(alloc, &line[7..])?;
        }
        Ok(())
    }
}

/// The line that sums up a session.
fn summary_line(
    alloc: Global,
    number: u32,
    transcript: &[u8],
    output: usize,
) -> Result<Text, AllocError> {
    let counts = counts_of(alloc, transcript)?;
    let stops = counts.stops;
    let lines = counts.lines;
    let length = transcript.len();
    let sum = counts.sum;
    let head = format!(in alloc;
        "self {number} stops {stops} lines {lines} transcript {length} output {output} exit "
    )?;
    let tail = format!(in alloc; " sum {sum:08x}\n")?;
    let mut line = Text::from_slice(alloc, head.as_bytes())?;
    line.append(counts.exit.as_bytes())?;
    line.append(tail.as_bytes())?;
    Ok(line)
}

/// Serves a session from memory, and sums it up.
fn summary_of(
    alloc: Global,
    number: u32,
    session: &mut Session<NearLink>,
    commands: Text,
) -> Result<Text, AllocError> {
    let mut files = SureFiles::new(Vec::new(alloc));
    let mut source = SureSource::new(commands.into_vec());
    let mut sink = SureSink::new(Vec::new(alloc));
    if serve(alloc, session, OUTPUT, &mut files, &mut source, &mut sink).is_err() {
        return Err(AllocError);
    }
    let output = match files.get(OUTPUT) {
        Some(bytes) => bytes.len(),
        None => 0,
    };
    summary_line(alloc, number, sink.bytes(), output)
}

/// Begins the session with a generated program on both targets, under the schedule of its number.
fn begin_own(alloc: Global, number: u32, program: Text) -> Result<Session<NearLink>, Stop>
    ensures { IfErr result IsBuildStop }
{
    let mut names = Vec::new(alloc);
    names.push(Text::from_slice(alloc, b"make.c")?)?;
    let mut texts = Vec::new(alloc);
    texts.push(program.into_vec())?;
    begin(
        alloc,
        Aims::Both,
        Some(u64::from(number)),
        &names,
        &texts,
        &[],
    )
}

/// Runs the session with a generated program, and sums it up in a line.
pub fn own_text(alloc: Global, number: u32) -> Result<Text, Stop>
    ensures { IfErr result IsBuildStop }
{
    let Made { program, commands } = make(alloc, number)?;
    match begin_own(alloc, number, program) {
        Ok(mut session) => Ok(summary_of(alloc, number, &mut session, commands)?),
        Err(stop) => {
            drop(commands);
            Err(stop)
        }
    }
}
