// Output to a sink.

ghost use Rattle.std.specs.Prelude.{◌≡◌, OnOk, OnErr};
ghost use Rattle.ldb_edge.specs.Count.{CountsFailure};
ghost use Rattle.ldb_edge.specs.Known.{known_and};
ghost use Rattle.resuming.specs.Runs.{TakesFront};

use ldb_edge::{Failed, Sink};

/// Writes all of some bytes.
pub fn put<S: Sink>(sink: &mut S, bytes: &[u8]) -> Result<(), Failed>
    ensures ok { OnOk result (S.taken sink.new ≡ known_and (S.taken sink.old) bytes.now) }
    ensures err { OnErr result (TakesFront (S.taken sink.old) (S.taken sink.new) bytes.now) }
    ensures cause { CountsFailure (S.faults sink.old) (S.faults sink.new) result }
    ensures leads { S.leads sink.old sink.new }
{
    let mut done = 0;
    while done < bytes.len() {
        let count = sink.write(&bytes[done..])?;
        if count == 0 {
            return Err(Failed);
        }
        done += count;
    }
    Ok(())
}
