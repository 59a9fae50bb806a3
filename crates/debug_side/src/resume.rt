// A resume of a side up to its event.

ghost use Rattle.std.specs.Prelude.{◌≡◌, ◌⊎◌, IfOk, Option};
ghost use Rattle.machine_state.specs.declared.layout.TheConstants.{MIPS, SPARC};
ghost use Rattle.machine_state.specs.State.{Behaviour, order_of};
ghost use Rattle.nub_wire.specs.Nub.{Host};
ghost use Rattle.resuming.specs.Standing.{Stands};
ghost use Rattle.resuming.specs.Runs.{CountsRun};
ghost use Rattle.debug_side.specs.Meant.{Met, stood, words_left};
ghost use Rattle.debug_side.specs.Ran.{SideCalled};
ghost use Rattle.debug_side.specs.Told.{KeepsOrder, MayRun, CameTold, its_event, its_output, host_at_event, host_behind};

use crate::event::{Event, event_by, keeps_words, stop_address};
use crate::point::{MachineKind, SideRow};
use crate::words::{pass_no_op, unplant_all};
use abs_mem::Wire;
use ldb_edge::Sink;
use nub_wire::Link;
use resuming::{RunFault, run_to_event};

/// The event that a side keeps; else it runs from where it stands to its event, its output is put, and it stands there.
fn meet<L: Link + Drop, S: Sink>(
    kind: MachineKind,
    wire: &mut Wire<L>,
    row: &mut SideRow,
    limit: u32,
    out: &mut S,
) -> Result<Event, RunFault>
    ensures told { (b : Behaviour) (h : Host) (beside : Option Host) → Stands b L.conduct wire.old.side (L.world wire.old.link) h beside → wire.old.order ≡ order_of h.machine → KeepsOrder b h.machine → MayRun row.old.kept h
        → CameTold b L.conduct wire.old.side (its_event b kind row.old limit h) (its_output b kind row.old limit h) (host_at_event b kind row.old limit h) beside result (L.world wire.new.link) wire.new.order (S.taken out.old) (S.taken out.new) }
    ensures calls { SideCalled L.took L.gave wire.old.side wire.old.link result wire.new.side wire.new.link }
    ensures cause { CountsRun (L.faults wire.old.link) (L.faults wire.new.link) (S.faults out.old) (S.faults out.new) result }
    ensures leads { S.leads out.old out.new }
    ensures event { IfOk result (λ event. Met row.old event) }
    ensures stands { IfOk result (λ event. row.new.stands_at ≡ stood row.old.kept row.old.stands_at event) }
    ensures kept { row.new.kept ≡ row.old.kept }
    ensures breaks { row.new.breaks ≡ row.old.breaks }
    ensures words { row.new.step_words ≡ row.old.step_words }
    ensures stay { row.new.words_stay ≡ row.old.words_stay }
{
    match row.kept {
        Some(event) => Ok(event),
        None => match pass_no_op(kind.context, wire, row.stands_at) {
            Err(fault) => Err(RunFault::Talk(fault)),
            Ok(()) => match run_to_event(&mut wire.link, wire.side, limit, out) {
                Err(fault) => Err(fault),
                Ok(ending) => {
                    let event = event_by(row, ending);
                    row.stands_at = stop_address(event);
                    Ok(event)
                }
            },
        },
    }
}

/// Resumes a side for at most `limit` instructions up to its event, and puts its output as it comes; a side that keeps its
/// event isn't run. Behind the event the words of a step are taken away, but where they may stay and where the turns were used
/// up. It takes no memory. After a fault the side is not to be asked again.
pub fn resume_side<L: Link + Drop, S: Sink>(
    kind: MachineKind,
    wire: &mut Wire<L>,
    row: &mut SideRow,
    limit: u32,
    out: &mut S,
) -> Result<Event, RunFault>
    requires known { (kind.target ≡ MIPS) ⊎ (kind.target ≡ SPARC) }
    ensures told { (b : Behaviour) (h : Host) (beside : Option Host) → Stands b L.conduct wire.old.side (L.world wire.old.link) h beside → wire.old.order ≡ order_of h.machine → KeepsOrder b h.machine → MayRun row.old.kept h
        → CameTold b L.conduct wire.old.side (its_event b kind row.old limit h) (its_output b kind row.old limit h) (host_behind b kind row.old limit h) beside result (L.world wire.new.link) wire.new.order (S.taken out.old) (S.taken out.new) }
    ensures calls { SideCalled L.took L.gave wire.old.side wire.old.link result wire.new.side wire.new.link }
    ensures cause { CountsRun (L.faults wire.old.link) (L.faults wire.new.link) (S.faults out.old) (S.faults out.new) result }
    ensures leads { S.leads out.old out.new }
    ensures event { IfOk result (λ event. Met row.old event) }
    ensures stands { IfOk result (λ event. row.new.stands_at ≡ stood row.old.kept row.old.stands_at event) }
    ensures kept { row.new.kept ≡ row.old.kept }
    ensures breaks { row.new.breaks ≡ row.old.breaks }
    ensures words { IfOk result (λ event. row.new.step_words.items ≡ words_left row.old event) }
    ensures stay { row.new.words_stay ≡ row.old.words_stay }
{
    let kept = row.kept;
    let event = match meet(kind, wire, row, limit, out) {
        Ok(event) => event,
        Err(fault) => return Err(fault),
    };
    if keeps_words(row.words_stay, kept, event) {
        return Ok(event);
    }
    match unplant_all(kind.target, wire, row.step_words.as_slice()) {
        Err(fault) => Err(RunFault::Talk(fault)),
        Ok(()) => {
            row.step_words.clear();
            Ok(event)
        }
    }
}
