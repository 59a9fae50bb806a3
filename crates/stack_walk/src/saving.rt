// Frames of functions that save registers.

ghost use Rattle.std.specs.Prelude.{◌≡◌};
ghost use Rattle.frame_bytes.specs.Bytes.{Bytes};
ghost use Rattle.table_model.specs.Frames.{saving_frame, saved_of, frame_in, next_frame};
ghost use Rattle.table_model.specs.declared.row.TargetRow.TheVariants.{Saving};
ghost use Rattle.abs_mem.specs.Walking.{Walks, LedWalk, told_of};
ghost use Rattle.stack_walk.specs.Callers.{saved_in, outer_frame, caller_at, returned_to};

use crate::fetching::{fetch_word, frame_told, function_told, kept_told, outer_told};
use crate::places::{Places, outer_places, words_from};
use abs_mem::{AbsMem, WalkFault, told};
use frame_bytes::Frame;
use ps_store::{DictId, PsObj, PsStore};
use table_model::{Lack, SavingRow};
use table_read::{function_at, items_at, kept_at, number_at};

/// The frame of a function at a pc, above a stack pointer.
#[tactic(auto, using(crate::proofs::Entries::frame_is))]
fn saving_frame(
    table: &PsStore,
    pc: u32,
    sp: u32,
    places: Places,
    function: DictId,
) -> Result<Frame, Lack>
    ensures { result ≡ saving_frame table.now pc sp places function }
{
    let saved = items_at(table, function, b"saved")?;
    let _ = kept_at(table, saved, 0, 0)?;
    let size = number_at(table, function, b"frame")?;
    Ok(Frame {
        pc,
        base: sp.wrapping_add(size),
        places,
    })
}

/// Frame 0 of a function at a pc.
pub fn first_saving<M: AbsMem>(
    target: &SavingRow,
    context: u32,
    table: &PsStore,
    m: &mut M,
    pc: u32,
    function: DictId,
) -> Result<Frame, WalkFault>
    ensures meaning { Walks (λ b. frame_in (Saving target.now) table.now b context pc function) (M.seen m.old) result (M.seen m.new) }
    ensures calls { LedWalk M.leads m.old result m.new }
{
    let sp = fetch_word(m, context.wrapping_add(4 * target.stack_pointer as u32))?;
    let places = words_from(context);
    frame_told(saving_frame(table, pc, sp, places, function))
}

/// The frame of a function at a pc, whose callee's function has these entries of `/saved`.
#[tactic(auto, using(crate::proofs::Entries::caller_is))]
fn outer_frame(
    target: &SavingRow,
    table: &PsStore,
    saved: &[PsObj],
    frame: &Frame,
    pc: u32,
    function: DictId,
) -> Result<Frame, Lack>
    ensures { result ≡ outer_frame target.now.preserved table.now (saved_in table.now saved.now) frame.now.base frame.now.places pc function }
{
    let places = outer_places(table, saved, &target.preserved, frame.base, &frame.places)?;
    saving_frame(table, pc, frame.base, places, function)
}

/// The frame of a caller at a pc, whose callee's function has these entries of `/saved`.
fn caller_at(
    target: &SavingRow,
    table: &PsStore,
    saved: &[PsObj],
    frame: &Frame,
    pc: u32,
) -> Result<Option<Frame>, Lack>
    ensures { result ≡ caller_at target.now.preserved table.now (saved_in table.now saved.now) frame.now.base frame.now.places pc }
{
    match function_at(table, pc)? {
        None => Ok(None),
        Some(row) => {
            let outer = outer_frame(target, table, saved, frame, pc, row.function)?;
            Ok(Some(outer))
        }
    }
}

/// The caller of a frame whose function has these entries of `/saved`.
fn returned_to<M: AbsMem>(
    target: &SavingRow,
    frame: &Frame,
    saved: &[PsObj],
    table: &PsStore,
    m: &mut M,
) -> Result<Option<Frame>, WalkFault>
    ensures meaning { Walks (returned_to target.now frame.now table.now (saved_in table.now saved.now)) (M.seen m.old) result (M.seen m.new) }
    ensures calls { LedWalk M.leads m.old result m.new }
{
    match kept_told(table, saved, frame.base, target.return_register as u32)? {
        None => Ok(None),
        Some(at) => {
            let back = fetch_word(m, at)?;
            let pc = back.wrapping_sub(target.distance);
            outer_told(caller_at(target, table, saved, frame, pc))
        }
    }
}

/// The caller of a frame of a function.
fn caller_of<M: AbsMem>(
    target: &SavingRow,
    frame: &Frame,
    function: DictId,
    table: &PsStore,
    m: &mut M,
) -> Result<Option<Frame>, WalkFault>
    ensures meaning { Walks (returned_to target.now frame.now table.now (saved_of table.now function)) (M.seen m.old) result (M.seen m.new) }
    ensures calls { LedWalk M.leads m.old result m.new }
{
    match items_at(table, function, b"saved") {
        Err(lack) => Err(told(lack)),
        Ok(saved) => returned_to(target, frame, saved, table, m),
    }
}

/// The frame outward of one.
#[tactic(auto, unfolding(table_model::specs::Frames::next_frame))]
pub fn up_saving<M: AbsMem>(
    target: &SavingRow,
    frame: &Frame,
    table: &PsStore,
    m: &mut M,
) -> Result<Option<Frame>, WalkFault>
    ensures meaning { Walks (λ b. next_frame (Saving target.now) table.now b frame.now) (M.seen m.old) result (M.seen m.new) }
    ensures calls { LedWalk M.leads m.old result m.new }
{
    match function_told(table, frame.pc)? {
        None => Ok(None),
        Some(row) => caller_of(target, frame, row.function, table, m),
    }
}
