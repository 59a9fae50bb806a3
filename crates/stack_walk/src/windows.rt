// Frames of register windows.

ghost use Rattle.frame_bytes.specs.Bytes.{Bytes};
ghost use Rattle.table_model.specs.Frames.{window_frame, next_window};
ghost use Rattle.abs_mem.specs.Walking.{Walks, LedWalk};

use crate::fetching::{fetch_register, function_told};
use crate::places::{Places, window_places};
use abs_mem::{AbsMem, WalkFault};
use frame_bytes::Frame;
use ps_store::PsStore;

/// `%i6`, in which a frame has its base.
const FRAME_POINTER: usize = 30;

/// `%i7`, in which a frame has the address of the call that made it.
const CALL_ADDRESS: usize = 31;

/// The frame at a pc with these places.
pub fn window_frame<M: AbsMem>(m: &mut M, pc: u32, places: Places) -> Result<Frame, WalkFault>
    ensures meaning { Walks (λ b. window_frame b pc places) (M.seen m.old) result (M.seen m.new) }
    ensures calls { LedWalk M.leads m.old result m.new }
{
    let base = fetch_register(m, &places, FRAME_POINTER)?;
    Ok(Frame { pc, base, places })
}

/// The frame outward of one.
pub fn up_window<M: AbsMem>(
    frame: &Frame,
    table: &PsStore,
    m: &mut M,
) -> Result<Option<Frame>, WalkFault>
    ensures meaning { Walks (λ b. next_window table.now b frame.now) (M.seen m.old) result (M.seen m.new) }
    ensures calls { LedWalk M.leads m.old result m.new }
{
    let pc = fetch_register(m, &frame.places, CALL_ADDRESS)?;
    match function_told(table, pc)? {
        None => Ok(None),
        Some(_) => {
            let places = window_places(frame.base, &frame.places);
            let outer = window_frame(m, pc, places)?;
            Ok(Some(outer))
        }
    }
}
