//! The frames of a stack of the MIPS, from the innermost one outwards: `stack_walk` for this target.
#![tactic(auto)]

ghost use Rattle.abs_mem.specs.Walking.{Walks, LedWalk};
ghost use Rattle.machine_state.specs.declared.layout.TheConstants.{MIPS};
ghost use Rattle.table_model.specs.Frames.{row_of_target, first_frame, next_frame};

use abs_mem::{AbsMem, WalkFault};
use frame_bytes::Frame;
use machine_state::MIPS;
use ps_store::PsStore;

/// Frame 0, which stands at the pc of the context block at an address; none where no function of the table holds that pc. A
/// fault of the memory comes as it is, Shape where a needed key is missing or of another type, Unforced where the functions of
/// the next unit that is needed are still an executable string.
pub fn first<M: AbsMem>(
    context: u32,
    table: &PsStore,
    m: &mut M,
) -> Result<Option<Frame>, WalkFault>
    ensures meaning { Walks (λ b. first_frame (row_of_target MIPS) table.now b context) (M.seen m.old) result (M.seen m.new) }
    ensures calls { LedWalk M.leads m.old result m.new }
{
    stack_walk::first(stack_walk::row_of_target(MIPS), context, table, m)
}

/// The frame of the caller; none behind the outermost one. Faults come as for `first`.
pub fn up<M: AbsMem>(frame: &Frame, table: &PsStore, m: &mut M) -> Result<Option<Frame>, WalkFault>
    ensures meaning { Walks (λ b. next_frame (row_of_target MIPS) table.now b frame.now) (M.seen m.old) result (M.seen m.new) }
    ensures calls { LedWalk M.leads m.old result m.new }
{
    stack_walk::up(stack_walk::row_of_target(MIPS), frame, table, m)
}
