// A resume of both sides.

ghost use Rattle.std.specs.Prelude.{◌≡◌, IfOk, Option, None, Some};
ghost use Rattle.ps_store.specs.StoreState.{StoreState};
ghost use Rattle.claims.specs.Resumes.{keeps, frame_after};
ghost use Rattle.session.specs.Counted.{CountsOutput};
ghost use Rattle.session.specs.Events.{event_in, events_in};
ghost use Rattle.session.specs.Resuming.{Came, IsNoneOr, OneBehind, BothBehind, event_on};
ghost use Rattle.machine_state.specs.State.{Behaviour, order_of as machine_order};
ghost use Rattle.nub_wire.specs.Nub.{Host};
ghost use Rattle.session.specs.Meant.{Hosts, AreSteady, AreThere, MayAlsoRun, ResumesAll, kind_of};
ghost use Rattle.resuming.specs.Standing.{Stands};
ghost use Rattle.resuming.specs.Runs.{CountsRun};
ghost use Rattle.debug_side.specs.Told.{KeepsOrder, MayRun, CameTold, its_event, its_output, host_behind};
ghost use Rattle.session.specs.Turned.{order_of};

use crate::merging::{frame_after, kept_of, merged};
use crate::sides::{SideRecord, turn};
use abs_mem::Wire;
use debug_side::{Event, resume_side};
use ldb_edge::Sink;
use nub_wire::Link;
use ps_ops::Operators;
use resuming::{Dropped, RunFault};

/// Resumes a side up to its event.
fn resumed<L: Link + Drop, O: Sink>(
    talk: &mut Operators<Wire<L>>,
    side: &mut SideRecord,
    limit: u32,
    out: &mut O,
) -> Result<Event, RunFault>
    ensures output { CountsOutput (O.faults out.old) (O.faults out.new) result }
    ensures leads { O.leads out.old out.new }
    ensures came { IfOk result (λ event. Came event side.old side.new) }
    ensures stay { side.new.row.words_stay ≡ side.old.row.words_stay }
    ensures other { side.new ≡ record side.old { row = side.new.row } }
    ensures cause { CountsRun (L.faults talk.old.memory.below.below.below.link) (L.faults talk.new.memory.below.below.below.link) (O.faults out.old) (O.faults out.new) result }
    ensures told { (b : Behaviour) (h : Host) (beside : Option Host) → Stands b L.conduct side.old.which (L.world talk.old.memory.below.below.below.link) h beside → order_of side.old.machine ≡ machine_order h.machine → KeepsOrder b h.machine → MayRun side.old.row.kept h
        → CameTold b L.conduct side.old.which (its_event b (kind_of side.old) side.old.row limit h) (its_output b (kind_of side.old) side.old.row limit h) (host_behind b (kind_of side.old) side.old.row limit h) beside result (L.world talk.new.memory.below.below.below.link) talk.new.memory.below.below.below.order (O.taken out.old) (O.taken out.new) }
{
    turn(talk, side);
    let kind = side.kind();
    resume_side(
        kind,
        &mut talk.memory.below.below.below,
        &mut side.row,
        limit,
        out,
    )
}

/// What a side keeps behind a resume.
fn settle_side(side: &mut SideRecord, all: Event, event: Event)
    ensures kept { (s t : StoreState) → events_in t side.new.row.kept ≡ keeps (event_in s all) (event_in t event) }
    ensures own { IsNoneOr event side.new.row.kept }
    ensures frame { (s : StoreState) → side.new.frame ≡ frame_after side.old.frame (event_in s all) }
    ensures other { side.new ≡ record side.old { row = record side.old.row { kept = side.new.row.kept }; frame = side.new.frame } }
{
    side.row.kept = kept_of(all, event);
    side.frame = frame_after(side.frame, all);
}

/// Resumes one side, and says its event.
pub fn resumed_one<L: Link + Drop, O: Sink>(
    talk: &mut Operators<Wire<L>>,
    first: &mut SideRecord,
    limit: u32,
    out: &mut O,
) -> Result<Event, RunFault>
    ensures output { CountsOutput (O.faults out.old) (O.faults out.new) result }
    ensures leads { O.leads out.old out.new }
    ensures behind { IfOk result (λ all. OneBehind (event_on first.old all) first.old first.new) }
    ensures meant { (b : Behaviour) (hs : Hosts) → AreSteady b → AreThere b L.conduct (L.world talk.old.memory.below.below.below.link) first.old None hs → MayRun first.old.row.kept hs.first
        → ResumesAll b L.conduct (L.world talk.new.memory.below.below.below.link) first.old first.new None None hs limit (L.faults talk.old.memory.below.below.below.link) (L.faults talk.new.memory.below.below.below.link) (O.taken out.old) (O.taken out.new) result }
    ensures cause { CountsRun (L.faults talk.old.memory.below.below.below.link) (L.faults talk.new.memory.below.below.below.link) (O.faults out.old) (O.faults out.new) result }
{
    match resumed(talk, first, limit, out) {
        Err(fault) => Err(fault),
        Ok(event) => {
            settle_side(first, event, event);
            Ok(event)
        }
    }
}

/// Resumes both sides, the output of the first one being put, and says the event of both.
pub fn resumed_both<L: Link + Drop, O: Sink>(
    talk: &mut Operators<Wire<L>>,
    first: &mut SideRecord,
    second: &mut SideRecord,
    limit: u32,
    out: &mut O,
) -> Result<Event, RunFault>
    ensures output { CountsOutput (O.faults out.old) (O.faults out.new) result }
    ensures leads { O.leads out.old out.new }
    ensures behind { IfOk result (λ all. BothBehind (event_on first.old all) first.old first.new second.old second.new) }
    ensures meant { (b : Behaviour) (hs : Hosts) → AreSteady b → AreThere b L.conduct (L.world talk.old.memory.below.below.below.link) first.old (Some second.old) hs → MayRun first.old.row.kept hs.first → MayAlsoRun (Some second.old) hs.second
        → ResumesAll b L.conduct (L.world talk.new.memory.below.below.below.link) first.old first.new (Some second.old) (Some second.new) hs limit (L.faults talk.old.memory.below.below.below.link) (L.faults talk.new.memory.below.below.below.link) (O.taken out.old) (O.taken out.new) result }
    ensures cause { CountsRun (L.faults talk.old.memory.below.below.below.link) (L.faults talk.new.memory.below.below.below.link) (O.faults out.old) (O.faults out.new) result }
{
    let event = match resumed(talk, first, limit, out) {
        Ok(event) => event,
        Err(fault) => return Err(fault),
    };
    let other = match resumed(talk, second, limit, &mut Dropped) {
        Ok(other) => other,
        Err(RunFault::Talk(fault)) => return Err(RunFault::Talk(fault)),
        Err(RunFault::Output) => unreachable!(),
    };
    let all = merged(event, Some(other));
    settle_side(first, all, event);
    settle_side(second, all, other);
    Ok(all)
}
