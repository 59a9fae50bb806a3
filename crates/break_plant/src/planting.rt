// Words put at stopping points.

ghost use Rattle.std.specs.Prelude.{◌≡◌, ◌⊎◌};
ghost use Rattle.ldb_words.specs.Word.{sum_of};
ghost use Rattle.ldb_words.specs.declared.kinds.Kind.TheVariants.{Word};
ghost use Rattle.machine_state.specs.declared.layout.TheConstants.{MIPS, SPARC};
ghost use Rattle.abs_mem.specs.Meaning.{Stores, Led};
ghost use Rattle.break_plant.specs.Planted.{noop_of, break_of, in_memory, Plants, LedPlant, seen_by, done_by};

use abs_mem::{AbsMem, MemFault};
use frame_bytes::{Place, Space};
use ldb_words::Kind;
use machine_state::SPARC;

/// Why no breakpoint is planted: the word there, which is kept, is not the no-op of a stopping point; or the memory has no
/// answer.
#[derive(Drop)]
pub enum PlantFault {
    NotNoop { at: u32, word: u32 },
    Memory(MemFault),
}

/// The no-op of a target, which stands at each stopping point.
fn noop_of(target: u8) -> u32
    ensures { result ≡ noop_of target }
{
    if target == SPARC { 0x0100_0000 } else { 0 }
}

/// The word of a target at which it stops for the debugger.
fn break_of(target: u8) -> u32
    ensures { result ≡ break_of target }
{
    if target == SPARC {
        0x91d0_2001
    } else {
        0x0000_000d
    }
}

/// A place in memory.
fn in_memory(at: u32) -> Place
    ensures { result ≡ in_memory at }
{
    let space = Space::Memory;
    Place { space, at }
}

/// Whether a breakpoint may be planted, by the word that was fetched.
fn seen_by(target: u8, at: u32, fetched: Result<u32, MemFault>) -> Result<(), PlantFault>
    ensures { result ≡ seen_by target at fetched }
{
    match fetched {
        Err(fault) => Err(PlantFault::Memory(fault)),
        Ok(word) => {
            if word == noop_of(target) {
                Ok(())
            } else {
                Err(PlantFault::NotNoop { at, word })
            }
        }
    }
}

/// What planting answers, by the store.
fn done_by(stored: Result<(), MemFault>) -> Result<(), PlantFault>
    ensures { result ≡ done_by stored }
{
    match stored {
        Err(fault) => Err(PlantFault::Memory(fault)),
        Ok(()) => Ok(()),
    }
}

/// Puts the break word of a target in the place of the no-op at an address.
pub fn plant<M: AbsMem>(target: u8, m: &mut M, at: u32) -> Result<(), PlantFault>
    requires known { (target ≡ MIPS) ⊎ (target ≡ SPARC) }
    ensures meaning { Plants target at (M.seen m.old) result (M.seen m.new) }
    ensures calls { LedPlant M.leads m.old result m.new }
{
    let place = in_memory(at);
    let fetched = m.fetch(place, Kind::Word);
    match seen_by(target, at, fetched) {
        Err(fault) => Err(fault),
        Ok(()) => {
            let stored = m.store(place, Kind::Word, break_of(target));
            done_by(stored)
        }
    }
}

/// Puts the no-op of a target back at an address.
pub fn unplant<M: AbsMem>(target: u8, m: &mut M, at: u32) -> Result<(), MemFault>
    requires known { (target ≡ MIPS) ⊎ (target ≡ SPARC) }
    ensures meaning { Stores (M.seen m.old) (in_memory at) Word (noop_of target) result (M.seen m.new) }
    ensures calls { Led M.leads m.old result m.new }
{
    m.store(in_memory(at), Kind::Word, noop_of(target))
}

/// The pc and the next pc past the no-op at an address, modulo 2^32.
pub fn resume_pc(at: u32) -> (u32, u32)
    ensures { result ≡ (sum_of at 4, sum_of at 8) }
{
    (at.wrapping_add(4), at.wrapping_add(8))
}
