// The event of a resume, by those of the sides.

ghost use Rattle.std.specs.Prelude.{◌≡◌, Some};
ghost use Rattle.ps_store.specs.StoreState.{StoreState};
ghost use Rattle.claims.specs.Resumes.{merged, keeps, frame_after, state_after};
ghost use Rattle.session.specs.Answered.{state_of, resume_of};
ghost use Rattle.session.specs.Events.{event_in, events_in};
ghost use Rattle.session.specs.Resuming.{IsNoneOr};

use crate::modes::{How, Mode};
use debug_side::Event;

/// The want of stack where a side has it, else a side's fault, else the end of the turns where a side has it, else the first
/// side's event.
fn merged_with(first: Event, second: Event) -> Event
    ensures { (s t : StoreState) → event_in s result ≡ merged (event_in s first) (Some (event_in t second)) }
{
    match first {
        Event::OutOfStack => first,
        Event::Faults { .. } => match second {
            Event::OutOfStack => second,
            _ => first,
        },
        Event::OutOfTurns => match second {
            Event::OutOfStack | Event::Faults { .. } => second,
            _ => first,
        },
        Event::Stops(_) | Event::Pauses { .. } | Event::Exits { .. } => match second {
            Event::OutOfStack | Event::Faults { .. } | Event::OutOfTurns => second,
            _ => first,
        },
    }
}

/// The event of a resume of one side or two. One that is told of the second side has no point, so it is one over either table.
pub fn merged(first: Event, second: Option<Event>) -> Event
    ensures { (s t : StoreState) → event_in s result ≡ merged (event_in s first) (events_in t second) }
{
    match second {
        None => first,
        Some(second) => merged_with(first, second),
    }
}

/// The event that a side keeps: any where another side ran out of turns, and a final one for good.
pub fn kept_of(all: Event, event: Event) -> Option<Event>
    ensures kept { (s t : StoreState) → events_in t result ≡ keeps (event_in s all) (event_in t event) }
    ensures own { IsNoneOr event result }
{
    match event {
        Event::OutOfTurns => None,
        Event::Exits { .. } | Event::Faults { .. } | Event::OutOfStack => Some(event),
        Event::Stops(_) | Event::Pauses { .. } => match all {
            Event::OutOfTurns => Some(event),
            _ => None,
        },
    }
}

/// The number of the frame that is chosen behind an event: where the session stands it is the innermost one.
pub fn frame_after(frame: u32, all: Event) -> u32
    ensures { (s : StoreState) → result ≡ frame_after frame (event_in s all) }
{
    match all {
        Event::Stops(_) | Event::Pauses { .. } => 0,
        _ => frame,
    }
}

/// The mode behind an event.
pub fn mode_after(how: How, all: Event) -> Mode
    ensures { (s : StoreState) → state_of result ≡ state_after (resume_of how) (event_in s all) }
{
    match all {
        Event::Stops(_) | Event::Pauses { .. } => Mode::Stopped,
        Event::OutOfTurns => Mode::Running(how),
        Event::Exits { .. } | Event::Faults { .. } | Event::OutOfStack => Mode::Ended,
    }
}
