// The event of a side.

ghost use Rattle.std.specs.Prelude.{◌≡◌};
ghost use Rattle.debug_side.specs.Meant.{event_of, stop_of, stop_address, keeps_words};

use crate::point::{SideRow, point_at};
use ldb_words::FaultKind;
use nub_wire::{Ending, Reason};
use table_points::Point;

/// What a side came to: a stop at a point, a pause, the end of its program, a fault, or the end of its turns or its stack.
#[derive(Clone, Copy)]
pub enum Event {
    Stops(Point),
    Pauses { pc: u32 },
    Exits { status: u32 },
    Faults { kind: FaultKind, pc: u32 },
    OutOfTurns,
    OutOfStack,
}

/// The point of a stop: that of a breakpoint, else one of a step. A break word where none was put is a fault.
fn stop_of(row: &SideRow, pc: u32) -> Event
    ensures { result ≡ stop_of row.now.breaks.items row.now.step_words.items pc }
{
    match point_at(&row.breaks, pc) {
        Some(point) => Event::Stops(point),
        None => match point_at(&row.step_words, pc) {
            Some(point) => Event::Stops(point),
            None => Event::Faults {
                kind: FaultKind::Break,
                pc,
            },
        },
    }
}

/// The event of a side by the end of its run.
pub fn event_by(row: &SideRow, ending: Ending) -> Event
    ensures { result ≡ event_of row.now.breaks.items row.now.step_words.items ending }
{
    match ending {
        Ending::Stopped {
            reason: Reason::Break,
            pc,
        } => stop_of(row, pc),
        Ending::Stopped {
            reason: Reason::Pause,
            pc,
        } => Event::Pauses { pc },
        Ending::Exited { status } => Event::Exits { status },
        Ending::Faulted { kind, pc } => Event::Faults { kind, pc },
        Ending::Turns => Event::OutOfTurns,
        Ending::Stack => Event::OutOfStack,
    }
}

/// The address of a stop.
pub fn stop_address(event: Event) -> Option<u32>
    ensures { result ≡ stop_address event }
{
    match event {
        Event::Stops(point) => Some(point.at),
        _ => None,
    }
}

/// Whether the words of a step are left behind an event: where they may stay, and where a side that kept no event used up its
/// turns.
pub fn keeps_words(stay: bool, kept: Option<Event>, event: Event) -> bool
    ensures { result ≡ keeps_words stay kept event }
{
    if stay {
        return true;
    }
    match kept {
        Some(_) => false,
        None => match event {
            Event::OutOfTurns => true,
            _ => false,
        },
    }
}
