// The registers that a function saves.

ghost use Rattle.std.specs.Prelude.{◌≡◌, None};
ghost use Rattle.table_model.specs.Frames.{or_else, kept_at};
ghost use Rattle.table_read.specs.Reads.{in_ok};
ghost use Rattle.table_read.specs.Saved.{pair_in, pair_of, kept_in, kept_from};

use crate::reading::{items_in, number_in};
use ps_store::{PsObj, PsStore};
use table_model::Lack;

/// A register that is saved, and the offset of its word from the base.
#[derive(Clone, Copy)]
pub struct SavedPair {
    pub register: u32,
    pub offset: u32,
}

/// The register and the offset that an entry of `/saved` says.
fn pair_in(store: &PsStore, object: PsObj) -> Result<SavedPair, Lack>
    ensures { in_ok (λ p. pair_of p.register p.offset) result ≡ pair_in store.now object }
{
    match items_in(store, object)? {
        [register, offset] => {
            let register = number_in(*register)?;
            let offset = number_in(*offset)?;
            Ok(SavedPair { register, offset })
        }
        _ => Err(Lack::WrongType),
    }
}

/// Where a register is kept, by the entries so far or else by one more.
fn kept_by(kept: Option<u32>, base: u32, register: u32, pair: SavedPair) -> Option<u32>
    ensures { result ≡ or_else kept (kept_at base (pair_of pair.register pair.offset) register) }
{
    match kept {
        Some(at) => Some(at),
        None => {
            if pair.register == register {
                Some(base.wrapping_add(pair.offset))
            } else {
                None
            }
        }
    }
}

/// Where a register is kept, by one entry after another.
fn kept_through(
    store: &PsStore,
    saved: &[PsObj],
    base: u32,
    register: u32,
) -> Result<Option<u32>, Lack>
    ensures { result ≡ kept_from store.now base register None saved.now }
{
    let mut kept = None;
    for object in saved {
        let pair = pair_in(store, *object)?;
        kept = kept_by(kept, base, register, pair);
    }
    Ok(kept)
}

/// Where a frame with a base keeps a register that its function saves, by the entries of `/saved`; all of them are read.
#[tactic(auto, using(crate::proofs::Loops::kept_is))]
pub fn kept_at(
    store: &PsStore,
    saved: &[PsObj],
    base: u32,
    register: u32,
) -> Result<Option<u32>, Lack>
    ensures { result ≡ kept_in store.now saved.now base register }
{
    kept_through(store, saved, base, register)
}
