// What is done before a step.

ghost use Rattle.std.specs.Prelude.{◌≡◌, ◌⊎◌, ◌≤◌, [], true, IfOk, IfErr, OnOk, Option, Ok, Err};
ghost use Rattle.table_asks.specs.Faults.{IsUnbroken};
ghost use Rattle.session.specs.Counted.{CountsAsk, CountsTalk};
ghost use Rattle.session.specs.Kept.{IsKept, IsUndone};
ghost use Rattle.session.specs.Resuming.{HasRoomFor, StandsStill};
ghost use Rattle.machine_state.specs.State.{Behaviour};
ghost use Rattle.nub_wire.specs.Nub.{Host};
ghost use Rattle.claims.specs.Side.{SideState};
ghost use Rattle.session.specs.Meant.{IsThere, debugged, ComesTo, Stepped, Unstepped, Settled, TalksTo};
ghost use Rattle.session.specs.Pointed.{Last, AllTold, NoneTold};
ghost use Rattle.session.specs.Turned.{turned};
ghost use Rattle.session.specs.Wanting.{KeepsTable, StaysOne, TableStays};
ghost use Rattle.ps_store.specs.StoreState.{StoreState};
ghost use Rattle.side_meaning.specs.Standing.{IsTable, StandsFor};

use crate::line::Line;
use crate::replies::{room_for, room_for_kept};
use crate::sides::{SideRecord, turn};
use abs_mem::Wire;
use debug_side::{may_stay, plant_for_step, unplant_all};
use nub_wire::Link;
use ps_ops::Operators;
use ps_store::{Mark, PsStore};
use std::alloc::{AllocError, Global};
use table_asks::{AskFault, Inquiry, Point, begin_command, end_command, every_point, memory_fault};
use table_points::are_named;
use wire_talk::TalkFault;

/// Whether points last behind their command: their names are closed, and the command has made nothing since the mark.
fn last(store: &PsStore, mark: Mark, points: &[Point]) -> bool
    ensures { result ≡ true → Last store.now mark points.now }
{
    let now = store.mark();
    let is_same = now.arrays == mark.arrays
        && now.dicts == mark.dicts
        && now.strings == mark.strings
        && now.units == mark.units;
    is_same && are_named(store, points)
}

/// The points that were told, if they last. So do those of every table that the compiler makes: its names are closed with it, and
/// what its units make goes into them.
fn lasting(
    store: &PsStore,
    mark: Mark,
    told: Result<Vec<Point>, AskFault>,
) -> Result<Vec<Point>, AskFault>
    ensures ok { IfOk result (λ points. (told ≡ Ok points) × Last store.now mark points.items) }
    ensures err { IfErr result (λ fault. (told ≡ Err fault) ⊎ (fault ≡ AskFault.NoMemory)) }
{
    match told {
        Ok(points) => {
            if last(store, mark, points.as_slice()) {
                Ok(points)
            } else {
                Err(AskFault::NoMemory)
            }
        }
        Err(fault) => Err(fault),
    }
}

/// All points of a side's table.
fn points_of(inquiry: &mut Inquiry) -> Result<Vec<Point>, AskFault>
    ensures meant { (t : StoreState) → IsTable inquiry.old.core.store t → ComesTo 0 0 (λ points. AllTold inquiry.old.core.store inquiry.new.core.store t points.items) (NoneTold inquiry.old.core.store inquiry.new.core.store t) result }
    ensures table { TableStays inquiry.old.core.store inquiry.new.core.store }
    ensures unbroken { IfErr result (λ fault. IsUnbroken fault) }
{
    let mark = match begin_command(inquiry) {
        Ok(mark) => mark,
        Err(_) => return Err(AskFault::NoMemory),
    };
    let told = every_point(inquiry);
    let points = lasting(&inquiry.core.store, mark, told);
    end_command(inquiry, mark);
    points
}

/// Puts the break word at each point of a side that holds the no-op, unless the words of the step before still stand; where it can't
/// be done, its target stays as it is.
pub fn prepared<L: Link + Drop>(
    talk: &mut Operators<Wire<L>>,
    side: &mut SideRecord,
) -> Result<(), AskFault>
    ensures kept { IsKept side.old side.new }
    ensures still { StandsStill side.old side.new }
    ensures which { side.new.which ≡ side.old.which }
    ensures faults { L.faults talk.old.memory.below.below.below.link ≤ L.faults talk.new.memory.below.below.below.link }
    ensures untouched { result ≡ Err AskFault.NoMemory → talk.new ≡ turned side.old talk.old }
    ensures meant { (b : Behaviour) (h : Host) (beside : Option Host) (a : SideState) → IsThere b L.conduct (L.world talk.old.memory.below.below.below.link) side.old h beside → StandsFor (debugged side.old h) a → a.step_words ≡ []
        → ComesTo (L.faults talk.old.memory.below.below.below.link) (L.faults talk.new.memory.below.below.below.link) (λ u. Stepped b L.conduct (L.world talk.new.memory.below.below.below.link) side.old side.new h beside a) (Unstepped b L.conduct (L.world talk.new.memory.below.below.below.link) side.old side.new h beside a) result }
    ensures stays { (b : Behaviour) (h : Host) (beside : Option Host) (a : SideState) → IsThere b L.conduct (L.world talk.old.memory.below.below.below.link) side.old h beside → StandsFor (debugged side.old h) a → a.step_words ≡ [] → IsUndone result
        → StaysOne b L.conduct (L.world talk.new.memory.below.below.below.link) side.new h beside a }
    ensures count { CountsAsk (L.faults talk.old.memory.below.below.below.link) (L.faults talk.new.memory.below.below.below.link) result }
    ensures table { KeepsTable side.old side.new }
{
    if !side.row.step_words.is_empty() {
        return Ok(());
    }
    turn(talk, side);
    let mut points = match points_of(&mut side.inquiry) {
        Ok(points) => points,
        Err(fault) => return Err(fault),
    };
    let words_stay = may_stay(points.as_slice());
    let target = side.machine.byte();
    match plant_for_step(target, &mut talk.memory.below.below.below, &mut points) {
        Ok(()) => {
            side.row.step_words = points;
            side.row.words_stay = words_stay;
            Ok(())
        }
        Err(fault) => Err(memory_fault(fault)),
    }
}

/// Takes away what was put before a step, which isn't begun or whose event has come.
pub fn unprepared<L: Link + Drop>(
    talk: &mut Operators<Wire<L>>,
    side: &mut SideRecord,
) -> Result<(), TalkFault>
    ensures kept { IsKept side.old side.new }
    ensures still { StandsStill side.old side.new }
    ensures words { OnOk result (side.new.row.step_words.items ≡ []) }
    ensures which { side.new.which ≡ side.old.which }
    ensures faults { L.faults talk.old.memory.below.below.below.link ≤ L.faults talk.new.memory.below.below.below.link }
    ensures meant { (b : Behaviour) (h : Host) (beside : Option Host) → IsThere b L.conduct (L.world talk.old.memory.below.below.below.link) side.old h beside
        → TalksTo (L.faults talk.old.memory.below.below.below.link) (L.faults talk.new.memory.below.below.below.link) (Settled b L.conduct (L.world talk.new.memory.below.below.below.link) side.old side.new h beside) result }
    ensures count { CountsTalk (L.faults talk.old.memory.below.below.below.link) (L.faults talk.new.memory.below.below.below.link) result }
{
    turn(talk, side);
    let target = side.machine.byte();
    let words = side.row.step_words.as_slice();
    match unplant_all(target, &mut talk.memory.below.below.below, words) {
        Ok(()) => {
            side.row.step_words.clear();
            Ok(())
        }
        Err(fault) => Err(fault),
    }
}

/// A line with room for the reply to a resume of a side.
pub fn line_for(alloc: Global, side: &SideRecord) -> Result<Line, AllocError>
    ensures { IfOk result (λ line. HasRoomFor side.now line) }
{
    let table = &side.inquiry.core.store;
    let breaks = room_for(table, side.row.breaks.as_slice(), 0);
    let steps = room_for(table, side.row.step_words.as_slice(), breaks);
    let room = room_for_kept(table, side.row.kept, steps);
    Line::with_room(alloc, room)
}
