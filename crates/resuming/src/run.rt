// A resume that was sent, up to its event.

ghost use Rattle.std.specs.Prelude.{◌≡◌, ◌≢◌, None, Option};
ghost use Rattle.machine_state.specs.State.{Behaviour};
ghost use Rattle.nub_wire.specs.Nub.{Host};
ghost use Rattle.nub_wire.specs.Calls.{took_on, gave_on};
ghost use Rattle.resuming.specs.Standing.{Stands};
ghost use Rattle.resuming.specs.Runs.{IsOfRun, message_of, CountsRun, RunsBy, RunTold};

use crate::fault::RunFault;
use crate::writing::put;
use ldb_edge::Sink;
use nub_wire::{Chunk, Ending, Link, Msg, Side};
use wire_talk::Resumption;

/// What a message of a resume tells.
#[derive(Drop)]
enum Told {
    Output(Chunk),
    End(Ending),
}

/// What a message of a resume tells.
fn told_by(message: Msg) -> Told
    requires { IsOfRun message }
    ensures { message_of result ≡ message }
{
    match message {
        Msg::Output { bytes } => Told::Output(bytes),
        Msg::Stopped { reason, pc } => Told::End(Ending::Stopped { reason, pc }),
        Msg::Exited { status } => Told::End(Ending::Exited { status }),
        Msg::Faulted { kind, pc } => Told::End(Ending::Faulted { kind, pc }),
        Msg::Turns => Told::End(Ending::Turns),
        Msg::Stack => Told::End(Ending::Stack),
        _ => unreachable!(),
    }
}

/// Resumes a side for at most `turns` instructions, puts its output as it comes, and says how the run ended. It takes no
/// memory. After a fault the side is not to be asked again.
pub fn run_to_event<L: Link, S: Sink>(
    link: &mut L,
    side: Side,
    turns: u32,
    out: &mut S,
) -> Result<Ending, RunFault>
    ensures told { (b : Behaviour) (h : Host) (beside : Option Host) → Stands b L.conduct side (L.world link.old) h beside → h.nub.ended ≡ None
        → RunTold b L.conduct side turns h beside result (L.world link.new) (S.taken out.old) (S.taken out.new) }
    ensures calls { RunsBy (took_on L.took side) (gave_on L.gave side) turns link.old result link.new }
    ensures cause { CountsRun (L.faults link.old) (L.faults link.new) (S.faults out.old) (S.faults out.new) result }
    ensures leads { S.leads out.old out.new }
{
    let mut resumption = match Resumption::begin(link, side, turns) {
        Ok(resumption) => resumption,
        Err(fault) => return Err(RunFault::Talk(fault)),
    };
    'messages: loop {
        let message = match resumption.next(link, side) {
            Ok(message) => message,
            Err(fault) => return Err(RunFault::Talk(fault)),
        };
        match told_by(message) {
            Told::Output(bytes) => {
                if put(out, bytes.as_slice()).is_err() {
                    return Err(RunFault::Output);
                }
            }
            Told::End(ending) => return Ok(ending),
        }
    }
}
