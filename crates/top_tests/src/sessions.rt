// Whole sessions over forms in memory.
ghost use Rattle.std.specs.Prelude.{◌≡◌};

use crate::broken::Wrong;
use crate::edge::calls_of;
use ldb_edge::{Failed, MemFiles, MemSink, MemSource, Source};
use ldb_top::{Status, ldb};
use std::alloc::{AllocError, Global};
use test_rows::{append, append_escaped, part};

/// What the rows said last: the program in `a.c`, the input, names and texts of other files, the words, the commands, and transcripts, of which the first is the right one and the others are those where a command finds no memory.
#[derive(Drop)]
pub struct Sessions {
    alloc: Global,
    program: Vec<u8>,
    input: Vec<u8>,
    others: Vec<(Vec<u8>, Vec<u8>)>,
    words: Vec<u8>,
    commands: Vec<u8>,
    told: Vec<Vec<u8>>,
}

/// What a call came to: its status, its transcript, and the output file.
#[derive(Drop)]
struct Outcome {
    status: Status,
    transcript: Vec<u8>,
    output: Option<Vec<u8>>,
}

/// A source that gives its bytes one by one, however much is asked for.
#[derive(Drop)]
struct SingleBytes {
    below: MemSource,
}

impl Source for SingleBytes {
    ghost left = { λ s. ⟦<MemSource as Source>⟧.left s.below };

    ghost faults = { λ s. ⟦<MemSource as Source>⟧.faults s.below };

    ghost calls = { λ s. ⟦<MemSource as Source>⟧.calls s.below };

    fn read(&mut self, buf: &mut [u8]) -> Result<usize, Failed> {
        let end = buf.len().min(1);
        self.below.read(&mut buf[..end])
    }
}

/// What a call of the program comes to. Nothing of it is said here, so whoever calls it proves nothing of sessions.
pub fn called<C: Source>(
    alloc: Global,
    words: &[String],
    files: &mut MemFiles,
    commands: &mut C,
    transcript: &mut MemSink,
) -> Status {
    ldb(alloc, words, files, commands, transcript)
}

/// Appends at most so many bytes of a file, or that it isn't there.
fn append_file(
    alloc: Global,
    held: Option<&[u8]>,
    most: usize,
    out: &mut Vec<u8>,
) -> Result<(), AllocError> {
    append(out, " ")?;
    match held {
        Some(bytes) => append_escaped(alloc, out, bytes.get(..most).unwrap_or(bytes)),
        None => append(out, "none"),
    }
}

impl Sessions {
    pub fn new(alloc: Global) -> Sessions {
        Sessions {
            alloc,
            program: Vec::new(alloc),
            input: Vec::new(alloc),
            others: Vec::new(alloc),
            words: Vec::new(alloc),
            commands: Vec::new(alloc),
            told: Vec::new(alloc),
        }
    }

    /// The words, with that of a target in the place of `TARGET`.
    fn word_list(&self, target: &str) -> Result<Vec<String>, AllocError> {
        let mut list = Vec::new(self.alloc);
        let words = std::str::from_utf8(&self.words).unwrap_or("");
        for word in words.split(' ') {
            let word = if word == "TARGET" { target } else { word };
            list.push(String::from_str(self.alloc, word)?)?;
        }
        Ok(list)
    }

    /// The source file `a.c`, the input file, and the other files.
    fn files(&self, fails: Vec<u64>) -> Result<MemFiles, AllocError> {
        let alloc = self.alloc;
        let mut rows = Vec::new(alloc);
        let program = Vec::from_slice(alloc, &self.program)?;
        rows.push((String::from_str(alloc, "a.c")?, program))?;
        let input = Vec::from_slice(alloc, &self.input)?;
        rows.push((String::from_str(alloc, "in")?, input))?;
        for (name, text) in &self.others {
            let name = std::str::from_utf8(name).unwrap_or("");
            let text = Vec::from_slice(alloc, text)?;
            rows.push((String::from_str(alloc, name)?, text))?;
        }
        Ok(MemFiles::new(rows, fails))
    }

    /// A session with the word of this target in which these calls of the files, of the commands and of the transcript fail; its commands come byte by byte, or as much as is asked for.
    fn outcome(
        &self,
        target: &str,
        fails: [&[u8]; 3],
        by_bytes: bool,
    ) -> Result<Outcome, AllocError> {
        let alloc = self.alloc;
        let list = self.word_list(target)?;
        let mut files = self.files(calls_of(alloc, fails[0])?)?;
        let commands = Vec::from_slice(alloc, &self.commands)?;
        let mut source = MemSource::new(commands, calls_of(alloc, fails[1])?);
        let mut sink = MemSink::new(Vec::new(alloc), calls_of(alloc, fails[2])?);
        let status = if by_bytes {
            let mut single = SingleBytes { below: source };
            called(alloc, &list, &mut files, &mut single, &mut sink)
        } else {
            called(alloc, &list, &mut files, &mut source, &mut sink)
        };
        outcome_of(alloc, status, &files, &sink)
    }

    /// Whether a transcript is the right one or, of a session that did not end well, its front, or one of the others.
    fn is_told(&self, outcome: &Outcome) -> bool {
        let transcript = outcome.transcript.as_slice();
        let is_front = match self.told.first() {
            Some(told) => told.starts_with(transcript),
            None => false,
        };
        match outcome.status {
            Status::Done => self.told.iter().any(|told| told.as_slice() == transcript),
            _ => is_front,
        }
    }

    /// The session of which one call goes wrong.
    fn wrong(&self) -> Wrong<'_> {
        Wrong {
            alloc: self.alloc,
            program: &self.program,
            commands: &self.commands,
            told: match self.told.first() {
                Some(told) => told.as_slice(),
                None => &[],
            },
        }
    }

    /// Appends the answer to a row about sessions.
    pub fn answer(
        &mut self,
        kind: &str,
        parts: &[Vec<u8>],
        out: &mut Vec<u8>,
    ) -> Result<(), AllocError> {
        let text = part(parts, 0);
        let held = Vec::from_slice(self.alloc, text)?;
        match kind {
            "program" => {
                self.others.clear();
                self.input.clear();
                self.program = held;
            }
            "file" => {
                let name = Vec::from_slice(self.alloc, text)?;
                let text = Vec::from_slice(self.alloc, part(parts, 1))?;
                self.others.push((name, text))?;
            }
            "input" => self.input = held,
            "words" => self.words = held,
            "commands" => self.commands = held,
            "told" => {
                self.told.clear();
                self.told.push(held)?;
            }
            "or" => {
                self.told.push(held)?;
            }
            "one" => return self.append_whole("mips", parts, out),
            "all" => return self.append_all(parts, out),
            "rebuilt" => return self.append_rebuilt(text, parts, out),
            "coded" => return self.append_coded(text, out),
            "compiled" => return self.append_compiled([text, part(parts, 1)], out),
            "faulty" => return self.wrong().append_faulty(text, part(parts, 1), out),
            _ => return self.append_session(kind, text, out),
        }
        Ok(())
    }

    /// Appends what a call with the word of this target came to: its status and transcript, the first twelve bytes of the file `image`, and the first eleven of the file `table`.
    fn append_call(
        &self,
        target: &str,
        fails: [&[u8]; 2],
        out: &mut Vec<u8>,
    ) -> Result<(), AllocError> {
        let alloc = self.alloc;
        let list = self.word_list(target)?;
        let mut files = self.files(calls_of(alloc, fails[0])?)?;
        let mut source = MemSource::new(Vec::new(alloc), Vec::new(alloc));
        let mut sink = MemSink::new(Vec::new(alloc), calls_of(alloc, fails[1])?);
        let status = called(alloc, &list, &mut files, &mut source, &mut sink);
        append(out, format!(in alloc; "{status:?} ")?.as_str())?;
        append_escaped(alloc, out, sink.bytes())?;
        append_file(alloc, files.get("image"), 12, out)?;
        append_file(alloc, files.get("table"), 11, out)
    }

    /// Appends what calls for both targets came to, of which these calls of the files and of the transcript fail; that for SPARC where it is another.
    fn append_compiled(&self, fails: [&[u8]; 2], out: &mut Vec<u8>) -> Result<(), AllocError> {
        let mut mips = Vec::new(self.alloc);
        self.append_call("mips", fails, &mut mips)?;
        let mut sparc = Vec::new(self.alloc);
        self.append_call("sparc", fails, &mut sparc)?;
        out.extend_from_slice(&mips)?;
        if mips == sparc {
            return Ok(());
        }
        append(out, " and ")?;
        out.extend_from_slice(&sparc)
    }

    /// Appends the status of a session, and its transcript and output, or whether the transcript is told.
    fn append_session(
        &self,
        kind: &str,
        fails: &[u8],
        out: &mut Vec<u8>,
    ) -> Result<(), AllocError> {
        let alloc = self.alloc;
        let outcome = match kind {
            "file_calls" => self.outcome("mips", [fails, &[], &[]], false)?,
            "reads" => self.outcome("mips", [&[], fails, &[]], false)?,
            "writes" => self.outcome("mips", [&[], &[], fails], false)?,
            _ => self.outcome("mips", [&[], &[], &[]], kind == "bytes")?,
        };
        let status = outcome.status;
        append(out, format!(in alloc; "{status:?}")?.as_str())?;
        match kind {
            "session" | "bytes" => {
                let output = outcome.output.map(|bytes| bytes.len());
                append(out, format!(in alloc; " {output:?} ")?.as_str())?;
                append_escaped(alloc, out, &outcome.transcript)
            }
            _ => append(
                out,
                if self.is_told(&outcome) {
                    " as told"
                } else {
                    " otherwise"
                },
            ),
        }
    }

    /// Appends the status of a session with the word of this target, its output file between quotes, and its transcript, of which each line that begins with one of these fronts is cut behind it.
    fn append_whole(
        &self,
        target: &str,
        fronts: &[Vec<u8>],
        out: &mut Vec<u8>,
    ) -> Result<(), AllocError> {
        let outcome = self.outcome(target, [&[], &[], &[]], false)?;
        append_outcome(self.alloc, &outcome, fronts, out)
    }

    /// Appends what sessions for both targets and for both at once came to: once where they came to the same.
    fn append_all(&self, fronts: &[Vec<u8>], out: &mut Vec<u8>) -> Result<(), AllocError> {
        let mut mips = Vec::new(self.alloc);
        self.append_whole("mips", fronts, &mut mips)?;
        out.extend_from_slice(&mips)?;
        for target in ["sparc", "both"] {
            let mut other = Vec::new(self.alloc);
            self.append_whole(target, fronts, &mut other)?;
            if mips != other {
                append(out, " and ")?;
                out.extend_from_slice(&other)?;
            }
        }
        Ok(())
    }

    /// What a session with these commands came to over the image and the table that `cc` wrote for this target, behind what `cc` printed.
    fn rebuilt(
        &self,
        target: &str,
        commands: Vec<u8>,
        printed: &mut Vec<u8>,
    ) -> Result<Outcome, AllocError> {
        let alloc = self.alloc;
        let mut files = self.files(Vec::new(alloc))?;
        let built = list_of(alloc, ["cc", target, "image", "table", "a.c"])?;
        let mut none = MemSource::new(Vec::new(alloc), Vec::new(alloc));
        let mut sink = MemSink::new(Vec::new(alloc), Vec::new(alloc));
        let _built = called(alloc, &built, &mut files, &mut none, &mut sink);
        printed.extend_from_slice(sink.bytes())?;
        let debugged = list_of(alloc, ["debug", "image", "table", "in", "out"])?;
        let mut source = MemSource::new(commands, Vec::new(alloc));
        let mut sink = MemSink::new(Vec::new(alloc), Vec::new(alloc));
        let status = called(alloc, &debugged, &mut files, &mut source, &mut sink);
        outcome_of(alloc, status, &files, &sink)
    }

    /// Appends what `cc` printed and what a session over what it wrote for this target came to, and whether `go` comes to the same.
    fn append_rebuilt(
        &self,
        target: &[u8],
        fronts: &[Vec<u8>],
        out: &mut Vec<u8>,
    ) -> Result<(), AllocError> {
        let alloc = self.alloc;
        let target = std::str::from_utf8(target).unwrap_or("");
        let mut printed = Vec::new(alloc);
        let commands = Vec::from_slice(alloc, &self.commands)?;
        let debugged = self.rebuilt(target, commands, &mut printed)?;
        append_escaped(alloc, out, &printed)?;
        append_outcome(alloc, &debugged, fronts, out)?;
        let mut whole = Vec::new(alloc);
        append_outcome(alloc, &debugged, &[], &mut whole)?;
        let mut wanted = Vec::new(alloc);
        self.append_whole(target, &[], &mut wanted)?;
        append(
            out,
            if whole == wanted {
                " as go"
            } else {
                " otherwise than go"
            },
        )
    }

    /// The last line of a session over what `cc` wrote for this target, where a command with this text follows the others.
    fn last_line(&self, target: &str, command: &str, text: &[u8]) -> Result<Vec<u8>, AllocError> {
        let alloc = self.alloc;
        let mut commands = Vec::from_slice(alloc, &self.commands)?;
        for piece in [command.as_bytes(), text, b"\n"] {
            commands.extend_from_slice(piece)?;
        }
        let outcome = self.rebuilt(target, commands, &mut Vec::new(alloc))?;
        let transcript = std::str::from_utf8(&outcome.transcript).unwrap_or("");
        let line = transcript.lines().last().unwrap_or("");
        Vec::from_slice(alloc, line.as_bytes())
    }

    /// Appends what `eval` answers to an expression and what `ps` answers there to the text that `code` answers, for both targets: once where these are the same.
    fn append_coded(&self, expression: &[u8], out: &mut Vec<u8>) -> Result<(), AllocError> {
        let mut before = Vec::new(self.alloc);
        for target in ["mips", "sparc"] {
            let mut said = self.last_line(target, "eval ", expression)?;
            let code = self.last_line(target, "code ", expression)?;
            let left = self.last_line(target, "ps ", code.get(5..).unwrap_or(&[]))?;
            append(&mut said, " and ")?;
            said.extend_from_slice(&left)?;
            if before != said {
                append_escaped(self.alloc, out, &said)?;
            }
            before = said;
        }
        Ok(())
    }
}

/// Some words.
fn list_of(alloc: Global, words: [&str; 5]) -> Result<Vec<String>, AllocError> {
    let mut list = Vec::new(alloc);
    for word in words {
        list.push(String::from_str(alloc, word)?)?;
    }
    Ok(list)
}

/// What a call came to, over these files and with this transcript.
fn outcome_of(
    alloc: Global,
    status: Status,
    files: &MemFiles,
    sink: &MemSink,
) -> Result<Outcome, AllocError> {
    let transcript = Vec::from_slice(alloc, sink.bytes())?;
    let output = match files.get("out") {
        Some(bytes) => Some(Vec::from_slice(alloc, bytes)?),
        None => None,
    };
    Ok(Outcome {
        status,
        transcript,
        output,
    })
}

/// A line, or the first of these fronts with which it begins, but for empty ones.
fn front_of<'a>(line: &'a [u8], fronts: &[Vec<u8>]) -> &'a [u8] {
    for front in fronts {
        if !front.is_empty() && line.starts_with(front) {
            return line.get(..front.len()).unwrap_or(line);
        }
    }
    line
}

/// Appends the status of a session, its output file between quotes, and its transcript, of which each line that begins with one of these fronts is cut behind it.
fn append_outcome(
    alloc: Global,
    outcome: &Outcome,
    fronts: &[Vec<u8>],
    out: &mut Vec<u8>,
) -> Result<(), AllocError> {
    let status = outcome.status;
    append(out, format!(in alloc; "{status:?} ")?.as_str())?;
    match &outcome.output {
        Some(bytes) => {
            append(out, "'")?;
            append_escaped(alloc, out, bytes)?;
            append(out, "' ")?;
        }
        None => append(out, "none ")?,
    }
    let transcript = std::str::from_utf8(&outcome.transcript).unwrap_or("?");
    for (number, line) in transcript.split('\n').enumerate() {
        if number > 0 {
            append(out, "\\n")?;
        }
        append_escaped(alloc, out, front_of(line.as_bytes(), fronts))?;
    }
    Ok(())
}
