// Lines to a sink.
ghost use Rattle.std.specs.Prelude.{◌≡◌, OnOk, OnErr};
ghost use Rattle.ldb_edge.specs.Count.{CountsFailure};
ghost use Rattle.ldb_edge.specs.Known.{known_and};
ghost use Rattle.cc_call.specs.Faults.{TakesFront};

use ldb_edge::{Failed, Sink};

/// Writes a whole text.
pub fn put<S: Sink>(sink: &mut S, text: &[u8]) -> Result<(), Failed>
    ensures ok { OnOk result (S.taken sink.new ≡ known_and (S.taken sink.old) text.now) }
    ensures err { OnErr result (TakesFront (S.taken sink.old) (S.taken sink.new) text.now) }
    ensures cause { CountsFailure (S.faults sink.old) (S.faults sink.new) result }
{
    let mut done = 0;
    while done < text.len() {
        let count = sink.write(&text[done..])?;
        if count == 0 {
            return Err(Failed);
        }
        done += count;
    }
    Ok(())
}
