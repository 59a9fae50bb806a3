// Words of the form `cc`.
ghost use Rattle.std.specs.Prelude.{◌≡◌, ◌⊎◌, map, string_bytes};
ghost use Rattle.ldb_edge.specs.Count.{Rose};
ghost use Rattle.cc_call.specs.Faults.{counts, NoFault};
ghost use Rattle.cc_call.specs.Outcome.{HasMissed};
ghost use Rattle.cc_call.specs.Words.{seen};
ghost use Rattle.ldb_top.specs.Compiles.{Compiles};
ghost use Rattle.ldb_top.specs.Faultless.{IsAnswer};

use crate::status::Status;
use cc_call::{Answer, CcRequest, Fault, compile_files};
use ldb_edge::{Files, Sink};
use std::alloc::Global;

/// Compiles the sources of a request, and answers with the status of what came of it.
pub fn with_request<F: Files, S: Sink>(
    alloc: Global,
    request: &CcRequest<'_>,
    files: &mut F,
    transcript: &mut S,
) -> Status
    ensures compiles { Compiles (seen request.now) (F.held files.old) (F.held files.new) (S.taken transcript.old) (S.taken transcript.new) result }
    ensures missed { result ≡ Status.NoFile → HasMissed (F.missed files.new) (map string_bytes request.now.sources.now) (S.taken transcript.old) (S.taken transcript.new) }
    ensures read_fault { result ≡ Status.ReadFault → Rose (F.read_faults files.old) (F.read_faults files.new) }
    ensures write_fault { result ≡ Status.WriteFault →
        Rose (F.write_faults files.old) (F.write_faults files.new) ⊎ Rose (S.faults transcript.old) (S.faults transcript.new) }
    ensures no_fault { IsAnswer result → NoFault
        (counts (F.read_faults files.old) (F.write_faults files.old) (S.faults transcript.old))
        (counts (F.read_faults files.new) (F.write_faults files.new) (S.faults transcript.new)) }
    ensures no_memory { result ≡ Status.NoMemory → NoFault
        (counts (F.read_faults files.old) (F.write_faults files.old) (S.faults transcript.old))
        (counts (F.read_faults files.new) (F.write_faults files.new) (S.faults transcript.new)) }
{
    match compile_files(alloc, request, files, transcript) {
        Ok(Answer::Built) => Status::Done,
        Ok(Answer::Refused) => Status::Refused,
        Ok(Answer::Missing) => Status::NoFile,
        Err(Fault::Read) => Status::ReadFault,
        Err(Fault::Write) => Status::WriteFault,
        Err(Fault::NoMemory) => Status::NoMemory,
    }
}
