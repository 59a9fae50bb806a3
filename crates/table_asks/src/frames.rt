// Frames, what they tell, and the symbols in scope there.

ghost use Rattle.std.specs.Prelude.{◌≡◌, ◌≤◌, IfErr, option_map};
ghost use Rattle.frame_bytes.specs.Bytes.{Bytes};
ghost use Rattle.ps_store.specs.StoreState.{StoreState};
ghost use Rattle.ps_store.specs.Store.{closed_part};
ghost use Rattle.table_read.specs.Reads.{in_ok};
ghost use Rattle.table_model.specs.Frames.{row_of_target, frame_at, told_frame_at};
ghost use Rattle.table_model.specs.Symbols.{scope_of, symbol_named};
ghost use Rattle.table_points.specs.Rows.{row_in};
ghost use Rattle.dialect_model.specs.TableUse.{Looks};
ghost use Rattle.table_asks.specs.Asking.{Comes, ComesOver, LedAsk};
ghost use Rattle.table_asks.specs.Closing.{Settles};
ghost use Rattle.table_asks.specs.Talking.{with_target};
ghost use Rattle.table_asks.specs.Faults.{IsOwn, IsUnrefused};

use crate::fault::AskFault;
use crate::inquiry::{Inquiry, settle, settle_walk};
use crate::walks::place_numbered;
use abs_mem::AbsMem;
use frame_bytes::Frame;
use ps_ops::{Operators, frame_numbered};
use ps_places::error_of;
use ps_store::DictId;
use ps_symbols::symbol_named;
use stack_walk::row_of_target;
use table_points::Point;
use table_read::scope_of;

/// What the frame with a number tells; none where there is no such frame.
pub fn frame_told<W: AbsMem + Drop>(
    inquiry: &mut Inquiry,
    talk: &mut Operators<W>,
    number: u32,
) -> Result<Option<Point>, AskFault>
    requires within { inquiry.old.steps.taken ≤ inquiry.old.steps.limit }
    ensures within { inquiry.new.steps.taken ≤ inquiry.new.steps.limit }
    ensures limit { inquiry.new.steps.limit ≡ inquiry.old.steps.limit }
    ensures more { inquiry.old.steps.taken ≤ inquiry.new.steps.taken }
    ensures closed { Settles (closed_part inquiry.old.core.store) (closed_part inquiry.new.core.store) }
    ensures unrefused { IfErr result (λ fault. IsUnrefused fault) }
    ensures meaning { ComesOver (λ b. Looks (λ s. told_frame_at (row_of_target talk.old.view.target) s b talk.old.view.context number)) inquiry.old (W.seen talk.old.memory.below.below.below) (in_ok (option_map (row_in inquiry.new.core.store)) result) inquiry.new (W.seen talk.new.memory.below.below.below) }
    ensures calls { LedAsk W.leads talk.old.memory.below.below.below result talk.new.memory.below.below.below }
    ensures kept { talk.new ≡ with_target talk.old talk.new.memory.below.below.below }
{
    let row = row_of_target(talk.view.target);
    let context = talk.view.context;
    let m = &mut talk.memory.below.below.below;
    'again: loop {
        match place_numbered(row, context, &inquiry.core.store, m, number) {
            Ok(place) => return Ok(place),
            Err(fault) => match settle_walk(inquiry, fault) {
                Ok(()) => {}
                Err(fault) => return Err(fault),
            },
        }
    }
}

/// The frame with a number; none where there is no such frame.
pub fn frame_found<W: AbsMem + Drop>(
    inquiry: &mut Inquiry,
    talk: &mut Operators<W>,
    number: u32,
) -> Result<Option<Frame>, AskFault>
    requires within { inquiry.old.steps.taken ≤ inquiry.old.steps.limit }
    ensures within { inquiry.new.steps.taken ≤ inquiry.new.steps.limit }
    ensures limit { inquiry.new.steps.limit ≡ inquiry.old.steps.limit }
    ensures more { inquiry.old.steps.taken ≤ inquiry.new.steps.taken }
    ensures closed { Settles (closed_part inquiry.old.core.store) (closed_part inquiry.new.core.store) }
    ensures unrefused { IfErr result (λ fault. IsUnrefused fault) }
    ensures meaning { ComesOver (λ b. Looks (λ s. frame_at (row_of_target talk.old.view.target) s b talk.old.view.context number)) inquiry.old (W.seen talk.old.memory.below.below.below) result inquiry.new (W.seen talk.new.memory.below.below.below) }
    ensures calls { LedAsk W.leads talk.old.memory.below.below.below result talk.new.memory.below.below.below }
    ensures kept { talk.new ≡ with_target talk.old talk.new.memory.below.below.below }
{
    let row = row_of_target(talk.view.target);
    let context = talk.view.context;
    let m = &mut talk.memory.below.below.below;
    'again: loop {
        match frame_numbered(row, context, &inquiry.core.store, m, number) {
            Ok(frame) => return Ok(frame),
            Err(fault) => match settle_walk(inquiry, fault) {
                Ok(()) => {}
                Err(fault) => return Err(fault),
            },
        }
    }
}

/// The innermost symbol in scope in a frame, if there is one.
pub fn scope_found(
    inquiry: &mut Inquiry,
    number: u32,
    frame: &Frame,
) -> Result<Option<DictId>, AskFault>
    requires within { inquiry.old.steps.taken ≤ inquiry.old.steps.limit }
    ensures own { IfErr result (λ fault. IsOwn fault) }
    ensures within { inquiry.new.steps.taken ≤ inquiry.new.steps.limit }
    ensures limit { inquiry.new.steps.limit ≡ inquiry.old.steps.limit }
    ensures more { inquiry.old.steps.taken ≤ inquiry.new.steps.taken }
    ensures closed { Settles (closed_part inquiry.old.core.store) (closed_part inquiry.new.core.store) }
    ensures meaning { Comes (Looks (λ s. scope_of s number frame.now)) inquiry.old result inquiry.new }
{
    'again: loop {
        match scope_of(&inquiry.core.store, number, frame) {
            Ok(scope) => return Ok(scope),
            Err(lack) => match settle(inquiry, lack) {
                Ok(()) => {}
                Err(fault) => return Err(fault),
            },
        }
    }
}

/// The first symbol with a name on the chain that begins with one. No unit is run for it.
pub fn symbol_found(
    inquiry: &Inquiry,
    scope: Option<DictId>,
    name: &[u8],
) -> Result<Option<DictId>, AskFault>
    ensures own { IfErr result (λ fault. IsOwn fault) }
    ensures meaning { Comes (Looks (λ s. symbol_named s scope name.now)) inquiry.now result inquiry.now }
{
    match symbol_named(&inquiry.core.store, scope, name) {
        Ok(symbol) => Ok(symbol),
        Err(lack) => Err(AskFault::Raised(error_of(lack))),
    }
}
