// The object of an address.

ghost use Rattle.std.specs.Prelude.{◌≡◌, ◌⊎◌, ◌<◌, ◌≤◌, ◌-◌};
ghost use Rattle.frame_bytes.specs.Bytes.{Bytes};
ghost use Rattle.table_model.specs.Objects.{found_outward, found_at};
ghost use Rattle.abs_mem.specs.Walking.{Walks, LedWalk, told_of};
ghost use Rattle.locate.specs.Counting.{outward_count, found_here, found_in_frames};
ghost use Rattle.table_model.specs.Frames.{row_of_target};

use crate::locals::local_at;
use crate::statics::static_at;
use abs_mem::{AbsMem, Locate, WalkFault, told};
use frame_bytes::Frame;
use ps_store::PsStore;
use stack_walk::{first, row_of_target, up};
use table_model::{Found, Lack, TargetRow};

/// The most frames that are listed.
const MOST_FRAMES: u32 = 20_000;

/// What the table says, as a walk tells it.
fn found_told(found: Result<Option<Found>, Lack>) -> Result<Option<Found>, WalkFault>
    ensures { result ≡ told_of found }
{
    match found {
        Ok(found) => Ok(found),
        Err(lack) => Err(told(lack)),
    }
}

/// How many frames are outward of one, of which at most so many are left.
fn outward_count<M: AbsMem>(
    row: TargetRow,
    table: &PsStore,
    m: &mut M,
    frame: Frame,
    most: u32,
) -> Result<u32, WalkFault>
    requires { most < 20000 }
    ensures meaning { Walks (λ b. outward_count row table.now b most frame) (M.seen m.old) result (M.seen m.new) }
    ensures calls { LedWalk M.leads m.old result m.new }
{
    let mut inner = frame;
    for count in 0..most {
        match up(row, &inner, table, m)? {
            None => return Ok(count),
            Some(outer) => inner = outer,
        }
    }
    Ok(most)
}

/// The local of a frame to which the address belongs, with the number of its activation: so many frames at most are outward of
/// the frame.
fn found_here<M: AbsMem>(
    row: TargetRow,
    table: &PsStore,
    m: &mut M,
    number: u32,
    frame: Frame,
    address: u32,
    left: u32,
) -> Result<Option<Found>, WalkFault>
    requires { left < 20000 }
    ensures meaning { Walks (λ b. found_here row table.now b address left number frame) (M.seen m.old) result (M.seen m.new) }
    ensures calls { LedWalk M.leads m.old result m.new }
{
    match found_told(local_at(table, number, &frame, address))? {
        None => Ok(None),
        Some(found) => {
            let count = outward_count(row, table, m, frame, left)?;
            let activation = Some(count);
            Ok(Some(Found {
                activation,
                ..found
            }))
        }
    }
}

/// The first local of a frame and of those outward of it to which the address belongs.
fn found_outward<M: AbsMem>(
    row: TargetRow,
    table: &PsStore,
    m: &mut M,
    innermost: Frame,
    address: u32,
) -> Result<Option<Found>, WalkFault>
    ensures meaning { Walks (λ b. found_outward row table.now b address 19999 0 innermost) (M.seen m.old) result (M.seen m.new) }
    ensures calls { LedWalk M.leads m.old result m.new }
{
    let mut frame = innermost;
    for number in 0..MOST_FRAMES {
        let left = MOST_FRAMES - 1 - number;
        match found_here(row, table, m, number, frame, address, left)? {
            Some(found) => return Ok(Some(found)),
            None => {}
        }
        if left == 0 {
            return Ok(None);
        }
        match up(row, &frame, table, m)? {
            None => return Ok(None),
            Some(outer) => frame = outer,
        }
    }
    Ok(None)
}

/// The first local to which the address belongs, frame by frame from the innermost one on.
fn found_in_frames<M: AbsMem>(
    target: u8,
    context: u32,
    table: &PsStore,
    m: &mut M,
    address: u32,
) -> Result<Option<Found>, WalkFault>
    ensures meaning { Walks (λ b. found_in_frames (row_of_target target) table.now b context address) (M.seen m.old) result (M.seen m.new) }
    ensures calls { LedWalk M.leads m.old result m.new }
{
    let row = row_of_target(target);
    match first(row, context, table, m)? {
        None => Ok(None),
        Some(frame) => found_outward(row, table, m, frame, address),
    }
}

/// Finds the objects of a target by its number and the address of its context block.
#[derive(Clone, Copy)]
pub struct Locator {
    pub target: u8,
    pub context: u32,
}

impl Locate for Locator {
    ghost use Rattle.table_model.specs.Frames.{row_of_target};

    ghost row = { λ l. row_of_target l.target };

    ghost context = { λ l. l.context };

    #[tactic(auto, unfolding(table_model::specs::Objects::found_at))]
    fn find<M: AbsMem>(
        &mut self,
        table: &PsStore,
        m: &mut M,
        address: u32,
    ) -> Result<Option<Found>, WalkFault> {
        match found_told(static_at(table, address))? {
            Some(found) => Ok(Some(found)),
            None => found_in_frames(self.target, self.context, table, m, address),
        }
    }
}
