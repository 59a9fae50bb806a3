// Frames one after another, on each target.

ghost use Rattle.std.specs.Prelude.{◌≡◌};
ghost use Rattle.frame_bytes.specs.Bytes.{Bytes};
ghost use Rattle.table_model.specs.Frames.{mips_row, row_of_target, frame_in, first_frame, next_frame};
ghost use Rattle.abs_mem.specs.Walking.{Walks, LedWalk};

use crate::fetching::{fetch_word, function_told};
use crate::places::words_from;
use crate::saving::{first_saving, up_saving};
use crate::windows::{up_window, window_frame};
use abs_mem::{AbsMem, WalkFault};
use frame_bytes::Frame;
use machine_state::SPARC;
use ps_store::{DictId, PsStore};
use table_model::{SavingRow, TargetRow};

/// The pc's number in the context block.
const CONTEXT_PC: u32 = 34;

/// Which registers a function of the MIPS leaves as they were.
const PRESERVED: [bool; 32] = [
    false, false, false, false, false, false, false, false, //
    false, false, false, false, false, false, false, false, //
    true, true, true, true, true, true, true, true, //
    false, false, false, false, false, false, false, false,
];

/// The MIPS: `$29` is the stack pointer and `$31` has the return address, 8 behind the call; `$16` to `$23` are preserved.
fn mips_row() -> SavingRow
    ensures { result ≡ mips_row }
{
    SavingRow {
        stack_pointer: 29,
        return_register: 31,
        distance: 8,
        preserved: PRESERVED,
    }
}

/// How the frames of a target are found: on the SPARC by windows, and on the MIPS by the registers that functions save.
pub fn row_of_target(target: u8) -> TargetRow
    ensures { result ≡ row_of_target target }
{
    if target == SPARC {
        TargetRow::Windows
    } else {
        TargetRow::Saving(mips_row())
    }
}

/// Frame 0 of a function at a pc.
fn frame_in<M: AbsMem>(
    row: TargetRow,
    context: u32,
    table: &PsStore,
    m: &mut M,
    pc: u32,
    function: DictId,
) -> Result<Frame, WalkFault>
    ensures meaning { Walks (λ b. frame_in row table.now b context pc function) (M.seen m.old) result (M.seen m.new) }
    ensures calls { LedWalk M.leads m.old result m.new }
{
    match row {
        TargetRow::Saving(target) => first_saving(&target, context, table, m, pc, function),
        TargetRow::Windows => window_frame(m, pc, words_from(context)),
    }
}

/// Frame 0, which stands at the pc of the context block at an address; none where no function holds that pc.
#[tactic(auto, unfolding(table_model::specs::Frames::first_frame))]
pub fn first<M: AbsMem>(
    row: TargetRow,
    context: u32,
    table: &PsStore,
    m: &mut M,
) -> Result<Option<Frame>, WalkFault>
    ensures meaning { Walks (λ b. first_frame row table.now b context) (M.seen m.old) result (M.seen m.new) }
    ensures calls { LedWalk M.leads m.old result m.new }
{
    let pc = fetch_word(m, context.wrapping_add(4 * CONTEXT_PC))?;
    match function_told(table, pc)? {
        None => Ok(None),
        Some(found) => {
            let frame = frame_in(row, context, table, m, pc, found.function)?;
            Ok(Some(frame))
        }
    }
}

/// The frame outward of one; none where no function holds the pc of either, or where a function doesn't save its return
/// address.
#[tactic(auto, unfolding(table_model::specs::Frames::next_frame))]
pub fn up<M: AbsMem>(
    row: TargetRow,
    frame: &Frame,
    table: &PsStore,
    m: &mut M,
) -> Result<Option<Frame>, WalkFault>
    ensures meaning { Walks (λ b. next_frame row table.now b frame.now) (M.seen m.old) result (M.seen m.new) }
    ensures calls { LedWalk M.leads m.old result m.new }
{
    match row {
        TargetRow::Saving(target) => up_saving(&target, frame, table, m),
        TargetRow::Windows => up_window(frame, table, m),
    }
}
