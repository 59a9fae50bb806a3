// What is looked up for an operator.

ghost use Rattle.std.specs.Prelude.{◌≡◌};
ghost use Rattle.frame_bytes.specs.Bytes.{Bytes};
ghost use Rattle.table_model.specs.Frames.{frame_at, outward_by, row_of_target};
ghost use Rattle.abs_mem.specs.Walking.{Walks, LedWalk};
ghost use Rattle.ps_ops.specs.Asking.{LooksUp, frame_by, scope_by, found_by, found_two};
ghost use Rattle.ps_ops.specs.Halts.{LedHalt};

use crate::halt::{Halt, halted};
use crate::view::{Standing, View};
use abs_mem::{AbsMem, Locate, WalkFault};
use frame_bytes::Frame;
use locate::Locator;
use ps_places::error_of;
use ps_run::PsError;
use ps_store::{DictId, PsStore};
use stack_walk::{first, row_of_target, up};
use table_model::{Found, Lack, TargetRow};
use table_read::scope_of;

/// The most frames that are listed.
const MOST_FRAMES: u32 = 20_000;

/// The frame so many outward of one.
fn outward_by<M: AbsMem>(
    row: TargetRow,
    table: &PsStore,
    m: &mut M,
    innermost: Frame,
    count: u32,
) -> Result<Option<Frame>, WalkFault>
    ensures meaning { Walks (λ b. outward_by row table.now b count innermost) (M.seen m.old) result (M.seen m.new) }
    ensures calls { LedWalk M.leads m.old result m.new }
{
    let mut frame = innermost;
    for _ in 0..count {
        match up(row, &frame, table, m)? {
            None => return Ok(None),
            Some(outer) => frame = outer,
        }
    }
    Ok(Some(frame))
}

/// The frame with a number; none where the list of frames ends before it.
#[tactic(auto, using(crate::proofs::Outward::past_all, crate::proofs::Outward::first_fails, crate::proofs::Outward::first_none, crate::proofs::Outward::first_then))]
pub fn frame_numbered<M: AbsMem>(
    row: TargetRow,
    context: u32,
    table: &PsStore,
    m: &mut M,
    number: u32,
) -> Result<Option<Frame>, WalkFault>
    ensures meaning { Walks (λ b. frame_at row table.now b context number) (M.seen m.old) result (M.seen m.new) }
    ensures calls { LedWalk M.leads m.old result m.new }
{
    if number >= MOST_FRAMES {
        return Ok(None);
    }
    match first(row, context, table, m)? {
        None => Ok(None),
        Some(frame) => outward_by(row, table, m, frame, number),
    }
}

/// The frame in which operators work, if there is one.
#[tactic(auto, using(crate::proofs::Looking::no_frame, crate::proofs::Looking::known_frame, crate::proofs::Looking::numbered_told, crate::proofs::Looking::numbered_halts))]
pub fn frame_of<M: AbsMem>(view: &View, table: &PsStore, m: &mut M) -> Result<Option<Frame>, Halt>
    ensures looks { LooksUp table.now (λ b. frame_by view.now table.now b) (M.seen m.old) result (M.seen m.new) }
    ensures calls { LedHalt M.leads m.old result m.new }
{
    match view.standing {
        Standing::NoFrame => Ok(None),
        Standing::InFrame { frame, .. } => Ok(Some(frame)),
        Standing::Numbered { number } => {
            match frame_numbered(row_of_target(view.target), view.context, table, m, number) {
                Ok(frame) => Ok(frame),
                Err(fault) => Err(halted(fault)),
            }
        }
    }
}

/// The innermost symbol in scope in that frame, which has to be there.
#[tactic(auto, using(crate::proofs::Looking::no_scope, crate::proofs::Looking::known_scope, crate::proofs::Looking::scope_unframed, crate::proofs::Looking::scope_no_frame, crate::proofs::Looking::scope_told, crate::proofs::Looking::scope_unforced, crate::proofs::Looking::scope_lacks))]
pub fn scope_in<M: AbsMem>(view: &View, table: &PsStore, m: &mut M) -> Result<Option<DictId>, Halt>
    ensures looks { LooksUp table.now (λ b. scope_by view.now table.now b) (M.seen m.old) result (M.seen m.new) }
    ensures calls { LedHalt M.leads m.old result m.new }
{
    match view.standing {
        Standing::NoFrame => Err(Halt::Raised(PsError::RangeCheck)),
        Standing::InFrame { scope, .. } => Ok(scope),
        Standing::Numbered { number } => match frame_of(view, table, m) {
            Err(halt) => Err(halt),
            Ok(None) => Err(Halt::Raised(PsError::RangeCheck)),
            Ok(Some(frame)) => match scope_of(table, number, &frame) {
                Ok(scope) => Ok(scope),
                Err(Lack::Unforced { unit }) => Err(Halt::Needs { unit }),
                Err(lack) => Err(Halt::Raised(error_of(lack))),
            },
        },
    }
}

/// The object to which an address belongs; null belongs to none.
#[tactic(auto, using(crate::proofs::Looking::found_null, crate::proofs::Looking::found_told, crate::proofs::Looking::found_halts))]
pub fn found<M: AbsMem>(
    view: &View,
    table: &PsStore,
    m: &mut M,
    address: u32,
) -> Result<Option<Found>, Halt>
    ensures looks { LooksUp table.now (λ b. found_by view.now table.now b address) (M.seen m.old) result (M.seen m.new) }
    ensures calls { LedHalt M.leads m.old result m.new }
{
    if address == 0 {
        return Ok(None);
    }
    let mut locator = Locator {
        target: view.target,
        context: view.context,
    };
    match locator.find(table, m, address) {
        Ok(found) => Ok(found),
        Err(fault) => Err(halted(fault)),
    }
}

/// The objects to which two addresses belong. The second is looked for only where the first belongs to one.
#[tactic(auto, using(crate::proofs::Looking::two_fail, crate::proofs::Looking::two_none, crate::proofs::Looking::two_found, crate::proofs::Looking::two_lack))]
pub fn found_two<M: AbsMem>(
    view: &View,
    table: &PsStore,
    m: &mut M,
    p: u32,
    q: u32,
) -> Result<(Option<Found>, Option<Found>), Halt>
    ensures looks { LooksUp table.now (λ b. found_two view.now table.now b p q) (M.seen m.old) result (M.seen m.new) }
    ensures calls { LedHalt M.leads m.old result m.new }
{
    match found(view, table, m, p) {
        Err(halt) => Err(halt),
        Ok(None) => Ok((None, None)),
        Ok(Some(first)) => match found(view, table, m, q) {
            Err(halt) => Err(halt),
            Ok(second) => Ok((Some(first), second)),
        },
    }
}
