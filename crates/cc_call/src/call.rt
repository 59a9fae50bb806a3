// The call.
ghost use Rattle.std.specs.Prelude.{◌≡◌, ◌≢◌, length, map, string_bytes, MatchResult, Some, Ok};
ghost use Rattle.ldb_edge.specs.Known.{FileMap};
ghost use Rattle.obj_file.specs.Image.{image_bytes};
ghost use Rattle.ldb_cc.specs.Scanning.{items_of};
ghost use Rattle.cc_call.specs.declared.call.Answer.TheVariants.{Refused, Missing};
ghost use Rattle.cc_call.specs.Words.{seen};
ghost use Rattle.cc_call.specs.Lines.{missing_line, refused_line};
ghost use Rattle.cc_call.specs.Found.{AreRead};
ghost use Rattle.cc_call.specs.Outcome.{IsSaid, Writes, LeavesAll, Leaves, HasMissed};
ghost use Rattle.cc_call.specs.Faults.{counts, HasCauses, CountsWrite};

use crate::cause::{is_refusal, refused_line};
use crate::ended::Fault;
use crate::reading::{Found, names_of, read_all};
use crate::saying::put;
use crate::words::CcRequest;
use crate::writing::write_file;
use ldb_cc::{BuildFault, Built, compile};
use ldb_edge::{Files, Sink};
use ldb_words::Text;
use obj_file::write_image;
use std::alloc::Global;

/// How the call ended without a fault: both files were written, the sources are refused, or one isn't there.
#[derive(Clone, Copy)]
pub enum Answer {
    Built,
    Refused,
    Missing,
}

/// Writes a line, and answers.
fn say<S: Sink>(transcript: &mut S, line: &[u8], answer: Answer) -> Result<Answer, Fault>
    ensures said { IsSaid answer line.now (S.taken transcript.old) (S.taken transcript.new) result }
    ensures other { answer ≢ Missing → result ≢ Ok Missing }
    ensures cause { MatchResult result (λ _. S.faults transcript.new ≡ S.faults transcript.old)
        (CountsWrite (S.faults transcript.old) (S.faults transcript.new)) }
{
    match put(transcript, line) {
        Ok(()) => Ok(answer),
        Err(_) => Err(Fault::Write),
    }
}

/// Says that a file isn't there.
fn miss<S: Sink>(alloc: Global, transcript: &mut S, name: &str) -> Result<Answer, Fault>
    ensures said { IsSaid Missing (missing_line name.now) (S.taken transcript.old) (S.taken transcript.new) result }
    ensures cause { MatchResult result (λ _. S.faults transcript.new ≡ S.faults transcript.old)
        (CountsWrite (S.faults transcript.old) (S.faults transcript.new)) }
{
    match format!(in alloc; "nofile {name}\n") {
        Ok(line) => say(transcript, line.as_bytes(), Answer::Missing),
        Err(_) => Err(Fault::NoMemory),
    }
}

/// Says why the sources are refused.
fn refuse<S: Sink>(
    alloc: Global,
    transcript: &mut S,
    names: &[Text],
    fault: &BuildFault,
) -> Result<Answer, Fault>
    ensures said { IsSaid Refused (refused_line names.now fault.now) (S.taken transcript.old) (S.taken transcript.new) result }
    ensures other { result ≢ Ok Missing }
    ensures cause { MatchResult result (λ _. S.faults transcript.new ≡ S.faults transcript.old)
        (CountsWrite (S.faults transcript.old) (S.faults transcript.new)) }
{
    match refused_line(alloc, names, fault) {
        Ok(line) => say(transcript, line.as_bytes(), Answer::Refused),
        Err(_) => Err(Fault::NoMemory),
    }
}

/// Writes the image, then the table, then the line.
fn write_both<F: Files, S: Sink>(
    alloc: Global,
    built: &Built,
    request: &CcRequest<'_>,
    files: &mut F,
    transcript: &mut S,
) -> Result<Answer, Fault>
    ensures writes { Writes (seen request.now) (image_bytes built.now.image) built.now.table (F.held files.old) (F.held files.new) (S.taken transcript.old) (S.taken transcript.new) result }
    ensures other { result ≢ Ok Missing }
    ensures causes { HasCauses result
        (counts (F.read_faults files.old) (F.write_faults files.old) (S.faults transcript.old))
        (counts (F.read_faults files.new) (F.write_faults files.new) (S.faults transcript.new)) }
{
    let image = match write_image(alloc, &built.image) {
        Ok(image) => image,
        Err(_) => return Err(Fault::NoMemory),
    };
    match write_file(files, request.image, &image) {
        Ok(()) => {}
        Err(_) => return Err(Fault::Write),
    }
    match write_file(files, request.table, built.table.as_bytes()) {
        Ok(()) => {}
        Err(_) => return Err(Fault::Write),
    }
    say(transcript, b"built\n", Answer::Built)
}

/// Compiles sources that were read.
fn with_texts<F: Files, S: Sink>(
    alloc: Global,
    request: &CcRequest<'_>,
    texts: &[Vec<u8>],
    files: &mut F,
    transcript: &mut S,
) -> Result<Answer, Fault>
    requires { length texts.now ≡ length request.now.sources.now }
    ensures leaves { (known : FileMap) → F.held files.old ≡ Some known → AreRead known (map string_bytes request.now.sources.now) (map items_of texts.now) →
        LeavesAll (seen request.now) known result (S.taken transcript.old) (S.taken transcript.new) (F.held files.new) }
    ensures other { result ≢ Ok Missing }
    ensures causes { HasCauses result
        (counts (F.read_faults files.old) (F.write_faults files.old) (S.faults transcript.old))
        (counts (F.read_faults files.new) (F.write_faults files.new) (S.faults transcript.new)) }
{
    let names = match names_of(alloc, request.sources) {
        Ok(names) => names,
        Err(_) => return Err(Fault::NoMemory),
    };
    match compile(alloc, request.aim, &names, texts) {
        Ok(built) => write_both(alloc, &built, request, files, transcript),
        Err(fault) => {
            if !is_refusal(&fault) {
                return Err(Fault::NoMemory);
            }
            refuse(alloc, transcript, &names, &fault)
        }
    }
}

/// Reads and compiles the sources of a request, and writes what is built.
pub fn compile_files<F: Files, S: Sink>(
    alloc: Global,
    request: &CcRequest<'_>,
    files: &mut F,
    transcript: &mut S,
) -> Result<Answer, Fault>
    ensures leaves { Leaves (seen request.now) (F.held files.old) (F.held files.new) (S.taken transcript.old) (S.taken transcript.new) result }
    ensures missed { result ≡ Ok Missing → HasMissed (F.missed files.new) (map string_bytes request.now.sources.now) (S.taken transcript.old) (S.taken transcript.new) }
    ensures causes { HasCauses result
        (counts (F.read_faults files.old) (F.write_faults files.old) (S.faults transcript.old))
        (counts (F.read_faults files.new) (F.write_faults files.new) (S.faults transcript.new)) }
{
    match read_all(alloc, files, request.sources) {
        Ok(Found::All(texts)) => with_texts(alloc, request, &texts, files, transcript),
        Ok(Found::Missing(number)) => { miss(alloc, transcript, request.sources[number].as_str()) }
        Err(fault) => Err(fault),
    }
}
