// Words of the target, and what the table says, told as a walk tells it.

ghost use Rattle.std.specs.Prelude.{◌≡◌};
ghost use Rattle.frame_bytes.specs.Bytes.{Bytes};
ghost use Rattle.ldb_words.specs.declared.kinds.Kind.TheVariants.{Word};
ghost use Rattle.table_model.specs.Reading.{fetch_at};
ghost use Rattle.table_model.specs.Rows.{function_at};
ghost use Rattle.abs_mem.specs.Walking.{Walks, LedWalk, told_of};
ghost use Rattle.table_read.specs.Saved.{kept_in};
ghost use Rattle.stack_walk.specs.Registers.{word_of, register_word};

use abs_mem::{AbsMem, MemFault, WalkFault, told};
use frame_bytes::{Frame, Place, Space};
use ldb_words::Kind;
use ps_store::{PsObj, PsStore};
use table_model::{FunctionRow, Lack};
use table_read::{function_at, kept_at};

/// What a walk answers, by what a memory did.
fn word_of(asked: Result<u32, MemFault>) -> Result<u32, WalkFault>
    ensures { result ≡ word_of asked }
{
    match asked {
        Ok(word) => Ok(word),
        Err(fault) => Err(WalkFault::Memory(fault)),
    }
}

/// The word at an address.
pub fn fetch_word<M: AbsMem>(m: &mut M, at: u32) -> Result<u32, WalkFault>
    ensures meaning { Walks (λ b. fetch_at b at Word) (M.seen m.old) result (M.seen m.new) }
    ensures calls { LedWalk M.leads m.old result m.new }
{
    let space = Space::Memory;
    let asked = m.fetch(Place { space, at }, Kind::Word);
    word_of(asked)
}

/// The word of a register among some places.
pub fn fetch_register<M: AbsMem>(
    m: &mut M,
    places: &[Option<u32>; 32],
    register: usize,
) -> Result<u32, WalkFault>
    ensures meaning { Walks (register_word places.now register) (M.seen m.old) result (M.seen m.new) }
    ensures calls { LedWalk M.leads m.old result m.new }
{
    match places.get(register) {
        Some(Some(at)) => fetch_word(m, *at),
        _ => Err(told(Lack::Outside)),
    }
}

/// The function that holds an address.
pub fn function_told(table: &PsStore, pc: u32) -> Result<Option<FunctionRow>, WalkFault>
    ensures { result ≡ told_of (function_at table.now pc) }
{
    match function_at(table, pc) {
        Ok(row) => Ok(row),
        Err(lack) => Err(told(lack)),
    }
}

/// A frame that the table gives.
pub fn frame_told(frame: Result<Frame, Lack>) -> Result<Frame, WalkFault>
    ensures { result ≡ told_of frame }
{
    match frame {
        Ok(frame) => Ok(frame),
        Err(lack) => Err(told(lack)),
    }
}

/// A frame that the table gives, if there is one.
pub fn outer_told(frame: Result<Option<Frame>, Lack>) -> Result<Option<Frame>, WalkFault>
    ensures { result ≡ told_of frame }
{
    match frame {
        Ok(frame) => Ok(frame),
        Err(lack) => Err(told(lack)),
    }
}

/// Where a frame with a base keeps a register that its function saves, by the entries of `/saved`.
pub fn kept_told(
    table: &PsStore,
    saved: &[PsObj],
    base: u32,
    register: u32,
) -> Result<Option<u32>, WalkFault>
    ensures { result ≡ told_of (kept_in table.now saved.now base register) }
{
    match kept_at(table, saved, base, register) {
        Ok(kept) => Ok(kept),
        Err(lack) => Err(told(lack)),
    }
}
