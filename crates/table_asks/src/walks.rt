// The walk to what the frame with a number tells.

ghost use Rattle.std.specs.Prelude.{◌≡◌, Some, option_map};
ghost use Rattle.abs_mem.specs.Walking.{Walks, LedWalk, told_of};
ghost use Rattle.table_read.specs.Reads.{in_ok};
ghost use Rattle.table_model.specs.Frames.{told_frame, told_frame_at};
ghost use Rattle.table_points.specs.Rows.{row_in};

use abs_mem::{AbsMem, WalkFault, told};
use frame_bytes::Frame;
use ps_ops::frame_numbered;
use ps_store::PsStore;
use table_model::TargetRow;
use table_points::{Point, told_frame};

/// What a frame tells, as a walk does.
fn place_told(table: &PsStore, number: u32, frame: &Frame) -> Result<Option<Point>, WalkFault>
    ensures { in_ok (option_map (row_in table.now)) result ≡ told_of (in_ok (λ t. Some t) (told_frame table.now number frame.now)) }
{
    match told_frame(table, number, frame) {
        Ok(place) => Ok(Some(place)),
        Err(lack) => Err(told(lack)),
    }
}

/// What the frame with a number tells, in one walk; none where there is no such frame.
#[tactic(auto, using(crate::proofs::Told::told_fails, crate::proofs::Told::told_none, crate::proofs::Told::told_some))]
pub fn place_numbered<M: AbsMem>(
    row: TargetRow,
    context: u32,
    table: &PsStore,
    m: &mut M,
    number: u32,
) -> Result<Option<Point>, WalkFault>
    ensures meaning { Walks (λ b. told_frame_at row table.now b context number) (M.seen m.old) (in_ok (option_map (row_in table.now)) result) (M.seen m.new) }
    ensures calls { LedWalk M.leads m.old result m.new }
{
    match frame_numbered(row, context, table, m, number) {
        Err(fault) => Err(fault),
        Ok(None) => Ok(None),
        Ok(Some(frame)) => place_told(table, number, &frame),
    }
}
