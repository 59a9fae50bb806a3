// The texts of replies.

ghost use Rattle.std.specs.Prelude.{◌≡◌, ◌≤◌, ◌++◌, All, IfOk, codes};
ghost use Rattle.claims.specs.Lines.{event_text, fault_text};
ghost use Rattle.claims.specs.Side.{Stops};
ghost use Rattle.table_points.specs.Rows.{row_in};
ghost use Rattle.c_session.specs.Commands.{IsUndefined, refusal_text};
ghost use Rattle.asking.specs.Refusals.{refusal_of};
ghost use Rattle.session.specs.Answered.{reason_of, refusal_reply, limit_reply, error_reply, spent_reply};
ghost use Rattle.session.specs.Events.{event_in, events_in, event_line};
ghost use Rattle.session.specs.Rooms.{Adds, IsEmptyFor, IsWithin, event_room, held_room, RoomForKept};

use crate::line::Line;
use crate::modes::ModeRefusal;
use debug_side::Event;
use ldb_words::{FaultKind, Text, Undef};
use ps_run::PsError;
use ps_store::PsStore;
use std::alloc::{AllocError, Global};
use table_asks::{Cause, Point};

/// The bytes that the reply to a resume has beside the names of a file and a function.
const EVENT_ROOM: usize = 64;

/// The bytes that the reply to a stop at a point may have.
fn point_room(table: &PsStore, point: &Point) -> usize
    ensures { result ≡ held_room (event_room (Stops (row_in table.now point.now))) }
{
    let file = table.string_get(point.file).len();
    let function = table.string_get(point.function).len();
    EVENT_ROOM.saturating_add(file).saturating_add(function)
}

/// The most bytes that the reply to a stop at one of some points may have, and at least so many.
pub fn room_for(table: &PsStore, points: &[Point], least: usize) -> usize
    ensures least { least ≤ result }
    ensures other { EVENT_ROOM ≤ result }
    ensures each { All (λ p. held_room (event_room (Stops (row_in table.now p))) ≤ result) points.now }
{
    let mut most = least.max(EVENT_ROOM);
    for point in points {
        most = most.max(point_room(table, point));
    }
    most
}

/// The same for an event that is kept.
pub fn room_for_kept(table: &PsStore, kept: Option<Event>, least: usize) -> usize
    ensures least { least ≤ result }
    ensures kept { EVENT_ROOM ≤ least → RoomForKept result (events_in table.now kept) }
{
    match kept {
        Some(Event::Stops(point)) => least.max(point_room(table, &point)),
        _ => least,
    }
}

fn fault_text(kind: FaultKind) -> &'static str
    ensures { result.now ≡ fault_text kind }
{
    match kind {
        FaultKind::Hazard => "hazard",
        FaultKind::Illegal => "illegal",
        FaultKind::Align => "align",
        FaultKind::Outside => "outside",
        FaultKind::Break => "break",
        FaultKind::Division => "division",
        FaultKind::Request => "request",
        FaultKind::Window => "window",
    }
}

/// Adds `stop F:L.C FUNC`.
fn add_stop(line: &mut Line, table: &PsStore, point: &Point)
    ensures adds { Adds line.old line.new (event_text (Stops (row_in table.now point.now))) }
    ensures short { IsWithin (Stops (row_in table.now point.now)) }
{
    line.add(b"stop ");
    line.add(table.string_get(point.file));
    line.add(b":");
    line.add_number(point.line);
    line.add(b".");
    line.add_number(point.column);
    line.add(b" ");
    line.add(table.string_get(point.function));
}

/// Adds an event's text.
fn add_event(line: &mut Line, table: &PsStore, event: Event)
    ensures adds { Adds line.old line.new (event_text (event_in table.now event)) }
    ensures short { IsWithin (event_in table.now event) }
{
    match event {
        Event::Stops(point) => add_stop(line, table, &point),
        Event::Pauses { pc } => {
            line.add(b"pause at ");
            line.add_word(pc);
        }
        Event::Exits { status } => {
            line.add(b"exited ");
            line.add_signed(status);
        }
        Event::Faults { kind, pc } => {
            line.add(b"fault ");
            line.add(fault_text(kind).as_bytes());
            line.add(b" at ");
            line.add_word(pc);
        }
        Event::OutOfTurns => line.add(b"turns"),
        Event::OutOfStack => line.add(b"stack"),
    }
}

/// The reply of an event, in a line that has room for it.
pub fn event_reply(mut line: Line, table: &PsStore, event: Event) -> Text
    ensures { IsEmptyFor (event_room (event_in table.now event)) line → result ≡ event_line (event_in table.now event) }
{
    add_event(&mut line, table, event);
    line.add(b"\n");
    line.into_text()
}

/// The reply to a command that the mode refuses.
pub fn mode_reply(alloc: Global, why: ModeRefusal) -> Result<Text, AllocError>
    ensures { IfOk result (λ t. t ≡ refusal_reply (reason_of why)) }
{
    match why {
        ModeRefusal::Ended => Text::from_slice(alloc, b"refused ended\n"),
        ModeRefusal::Running => Text::from_slice(alloc, b"refused running\n"),
    }
}

fn undefined_text(reason: Undef) -> &'static str
    ensures { codes "refused " ++ result.now ≡ refusal_text (IsUndefined reason) }
{
    match reason {
        Undef::Overflow => "undefined overflow",
        Undef::Division => "undefined division",
        Undef::Shift => "undefined shift",
        Undef::Pointer => "undefined pointer",
    }
}

fn cause_text(cause: Cause) -> &'static str
    ensures { codes "refused " ++ result.now ≡ refusal_text (refusal_of cause) }
{
    match cause {
        Cause::NoPlace => "place",
        Cause::NoFrame => "frame",
        Cause::BadSyntax => "syntax",
        Cause::NoScope => "scope",
        Cause::BadType => "type",
        Cause::Undefined(reason) => undefined_text(reason),
    }
}

/// A line of two words.
fn two_words(alloc: Global, first: &str, second: &str) -> Result<Text, AllocError>
    ensures { IfOk result (λ t. t ≡ first.now ++ (codes " " ++ (second.now ++ codes "\n"))) }
{
    let mut text = Text::from_slice(alloc, first.as_bytes())?;
    text.append(b" ")?;
    text.append(second.as_bytes())?;
    text.append(b"\n")?;
    Ok(text)
}

/// The reply to a command that is refused by what it asks.
pub fn refusal(alloc: Global, cause: Cause) -> Result<Text, AllocError>
    ensures { IfOk result (λ t. t ≡ refusal_reply (refusal_of cause)) }
{
    two_words(alloc, "refused", cause_text(cause))
}

/// The reply to a command in which an error of PostScript came.
pub fn error_reply(alloc: Global, error: PsError) -> Result<Text, AllocError>
    ensures { IfOk result (λ t. t ≡ error_reply error) }
{
    two_words(alloc, "psfault", error.name())
}

/// The reply to a command whose steps were taken.
pub fn spent_reply(alloc: Global) -> Result<Text, AllocError>
    ensures { IfOk result (λ t. t ≡ spent_reply) }
{
    two_words(alloc, "psfault", "spent")
}

/// The reply to a new limit of turns.
pub fn limit_reply(alloc: Global, limit: u32) -> Result<Text, AllocError>
    ensures { IfOk result (λ t. t ≡ limit_reply limit) }
{
    let line = format!(in alloc; "limit {limit}\n")?;
    Text::from_slice(alloc, line.as_bytes())
}
