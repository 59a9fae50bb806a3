// `frames` and `frame`.

ghost use Rattle.std.specs.Prelude.{◌≡◌, ◌≤◌, IfErr, IfOk, codes};
ghost use Rattle.ps_store.specs.Store.{closed_part};
ghost use Rattle.table_asks.specs.Closing.{Settles};
ghost use Rattle.table_asks.specs.Faults.{IsUnrefused};
ghost use Rattle.table_asks.specs.Asking.{ComesOver, LedAsk};
ghost use Rattle.table_asks.specs.Talking.{with_target};
ghost use Rattle.table_read.specs.Reads.{in_ok};
ghost use Rattle.table_model.specs.Frames.{row_of_target, told_frames};
ghost use Rattle.asking.specs.Lines.{BeginsWith};
ghost use Rattle.asking.specs.Frames.{listing, choosing, listed, listed_outward, Lists, LedList};

use crate::lines::{append_frame, frames_text};
use abs_mem::{AbsMem, WalkFault, told};
use frame_bytes::Frame;
use ldb_words::Text;
use ps_ops::Operators;
use ps_store::PsStore;
use stack_walk::{first, row_of_target, up};
use std::alloc::Global;
use table_asks::{AskFault, Cause, Inquiry, frame_told, settle_walk};
use table_model::TargetRow;
use table_points::told_frame;

/// The most frames that are listed.
const MOST_FRAMES: u32 = 20_000;

/// Why the lines of frames aren't told in one walk.
#[derive(Drop)]
pub enum ListFault {
    Walk(WalkFault),
    NoMemory,
}

/// So many frames, and their lines.
#[derive(Drop)]
pub struct Listed {
    pub count: u32,
    pub lines: Text,
}

/// The lines from the innermost frame on, in one walk: each frame is told before the one outward of it is looked for, and none
/// is kept.
fn list_outward<M: AbsMem>(
    alloc: Global,
    row: TargetRow,
    table: &PsStore,
    m: &mut M,
    innermost: Frame,
) -> Result<Listed, ListFault>
    ensures meaning { Lists (λ b. listed_outward row table.now b innermost) (M.seen m.old) result (M.seen m.new) }
    ensures calls { LedList M.leads m.old result m.new }
{
    let mut lines = Text::new(alloc);
    let mut frame = innermost;
    for number in 0..MOST_FRAMES {
        let count = number + 1;
        let place = match told_frame(table, number, &frame) {
            Ok(place) => place,
            Err(lack) => return Err(ListFault::Walk(told(lack))),
        };
        match append_frame(alloc, &mut lines, table, number, place) {
            Ok(()) => {}
            Err(_) => return Err(ListFault::NoMemory),
        }
        if count == MOST_FRAMES {
            return Ok(Listed { count, lines });
        }
        match up(row, &frame, table, m) {
            Err(fault) => return Err(ListFault::Walk(fault)),
            Ok(None) => return Ok(Listed { count, lines }),
            Ok(Some(outer)) => frame = outer,
        }
    }
    Ok(Listed {
        count: MOST_FRAMES,
        lines,
    })
}

/// The lines of all frames, in one walk. The context block is at the address.
fn list_frames<M: AbsMem>(
    alloc: Global,
    row: TargetRow,
    context: u32,
    table: &PsStore,
    m: &mut M,
) -> Result<Listed, ListFault>
    ensures meaning { Lists (λ b. in_ok listed (told_frames row table.now b context)) (M.seen m.old) result (M.seen m.new) }
    ensures calls { LedList M.leads m.old result m.new }
{
    match first(row, context, table, m) {
        Err(fault) => Err(ListFault::Walk(fault)),
        Ok(None) => Ok(Listed {
            count: 0,
            lines: Text::new(alloc),
        }),
        Ok(Some(frame)) => list_outward(alloc, row, table, m, frame),
    }
}

/// `frames`: the number of frames, and a line for each from the innermost one on.
pub fn listing<W: AbsMem + Drop>(
    inquiry: &mut Inquiry,
    talk: &mut Operators<W>,
) -> Result<Text, AskFault>
    requires within { inquiry.old.steps.taken ≤ inquiry.old.steps.limit }
    ensures within { inquiry.new.steps.taken ≤ inquiry.new.steps.limit }
    ensures limit { inquiry.new.steps.limit ≡ inquiry.old.steps.limit }
    ensures more { inquiry.old.steps.taken ≤ inquiry.new.steps.taken }
    ensures closed { Settles (closed_part inquiry.old.core.store) (closed_part inquiry.new.core.store) }
    ensures unrefused { IfErr result (λ fault. IsUnrefused fault) }
    ensures word { IfOk result (λ text. BeginsWith (codes "frames ") text) }
    ensures meaning { ComesOver (listing (row_of_target talk.old.view.target) talk.old.view.context) inquiry.old (W.seen talk.old.memory.below.below.below) result inquiry.new (W.seen talk.new.memory.below.below.below) }
    ensures calls { LedAsk W.leads talk.old.memory.below.below.below result talk.new.memory.below.below.below }
    ensures kept { talk.new ≡ with_target talk.old talk.new.memory.below.below.below }
{
    let row = row_of_target(talk.view.target);
    let context = talk.view.context;
    let alloc = inquiry.core.operands.allocator();
    let m = &mut talk.memory.below.below.below;
    'again: loop {
        match list_frames(alloc, row, context, &inquiry.core.store, m) {
            Ok(all) => match frames_text(alloc, all.count, &all.lines) {
                Ok(text) => return Ok(text),
                Err(_) => return Err(AskFault::NoMemory),
            },
            Err(ListFault::NoMemory) => return Err(AskFault::NoMemory),
            Err(ListFault::Walk(fault)) => match settle_walk(inquiry, fault) {
                Ok(()) => {}
                Err(fault) => return Err(fault),
            },
        }
    }
}

/// `frame N`: the line of the frame with the number.
pub fn choosing<W: AbsMem + Drop>(
    inquiry: &mut Inquiry,
    talk: &mut Operators<W>,
    number: u32,
) -> Result<Text, AskFault>
    requires within { inquiry.old.steps.taken ≤ inquiry.old.steps.limit }
    ensures within { inquiry.new.steps.taken ≤ inquiry.new.steps.limit }
    ensures limit { inquiry.new.steps.limit ≡ inquiry.old.steps.limit }
    ensures more { inquiry.old.steps.taken ≤ inquiry.new.steps.taken }
    ensures closed { Settles (closed_part inquiry.old.core.store) (closed_part inquiry.new.core.store) }
    ensures word { IfOk result (λ text. BeginsWith (codes "frame ") text) }
    ensures meaning { ComesOver (choosing (row_of_target talk.old.view.target) talk.old.view.context number) inquiry.old (W.seen talk.old.memory.below.below.below) result inquiry.new (W.seen talk.new.memory.below.below.below) }
    ensures calls { LedAsk W.leads talk.old.memory.below.below.below result talk.new.memory.below.below.below }
    ensures kept { talk.new ≡ with_target talk.old talk.new.memory.below.below.below }
{
    match frame_told(inquiry, talk, number) {
        Err(fault) => Err(fault),
        Ok(None) => Err(AskFault::Refused(Cause::NoFrame)),
        Ok(Some(place)) => {
            let alloc = inquiry.core.operands.allocator();
            let mut line = Text::new(alloc);
            match append_frame(alloc, &mut line, &inquiry.core.store, number, place) {
                Ok(()) => Ok(line),
                Err(_) => Err(AskFault::NoMemory),
            }
        }
    }
}
