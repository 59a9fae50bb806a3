// Locals of a frame.

ghost use Rattle.std.specs.Prelude.{◌≡◌};
ghost use Rattle.table_model.specs.Objects.{local_among, local_at};
ghost use Rattle.locate.specs.Chain.{local_one};

use crate::form::is_local;
use crate::object::found_symbol;
use frame_bytes::Frame;
use ps_store::{DictId, PsStore};
use table_model::{Found, Lack};
use table_read::{procedure_at, scope_of, uplink_of};

/// The most symbols of a chain.
const MOST_SYMBOLS: u32 = 100_000;

/// What a symbol says: none where it is no local; else its object, if the address belongs to it.
fn local_one(
    store: &PsStore,
    base: u32,
    address: u32,
    symbol: DictId,
) -> Result<Option<Option<Found>>, Lack>
    ensures { result ≡ local_one store.now base address symbol }
{
    let where_is = procedure_at(store, symbol, b"where")?;
    if is_local(store, where_is) {
        let found = found_symbol(store, Some(base), address, symbol, where_is)?;
        Ok(Some(found))
    } else {
        Ok(None)
    }
}

/// The first local on a chain to which the address belongs.
#[tactic(auto, using(crate::proofs::Chains::among_none))]
fn local_among(
    store: &PsStore,
    base: u32,
    address: u32,
    scope: Option<DictId>,
) -> Result<Option<Found>, Lack>
    ensures { result ≡ local_among 99999 store.now base address scope }
{
    let mut next = scope;
    for passed in 0..MOST_SYMBOLS {
        let symbol = match next {
            None => return Ok(None),
            Some(symbol) => symbol,
        };
        match local_one(store, base, address, symbol)? {
            None => return Ok(None),
            Some(Some(found)) => return Ok(Some(found)),
            Some(None) => {}
        }
        if passed + 1 == MOST_SYMBOLS {
            return Ok(None);
        }
        next = uplink_of(store, symbol)?;
    }
    Ok(None)
}

/// The first local of the frame with a number to which the address belongs.
#[tactic(auto, unfolding(table_model::specs::Objects::local_at))]
pub fn local_at(
    store: &PsStore,
    number: u32,
    frame: &Frame,
    address: u32,
) -> Result<Option<Found>, Lack>
    ensures { result ≡ local_at store.now number frame.now address }
{
    let scope = scope_of(store, number, frame)?;
    local_among(store, frame.base, address, scope)
}
