// A name on the chain of symbols in scope.

ghost use Rattle.std.specs.Prelude.{◌≡◌};
ghost use Rattle.table_read.specs.Reads.{in_ok};
ghost use Rattle.table_model.specs.Reading.{text_at};
ghost use Rattle.table_model.specs.Symbols.{symbol_named};

use ps_store::{DictId, PsObj, PsStore};
use table_model::Lack;
use table_read::{entry, uplink_of};

/// The most symbols of a chain.
const MOST_SYMBOLS: u32 = 100_000;

/// The characters of the string under a name.
fn text_at<'a>(store: &'a PsStore, d: DictId, name: &[u8]) -> Result<&'a [u8], Lack>
    ensures { in_ok (λ text. text.now) result ≡ text_at store.now d name.now }
{
    match entry(store, d, name)? {
        PsObj::Str(text, _) => Ok(store.string_get(text)),
        _ => Err(Lack::WrongType),
    }
}

/// The first symbol with a name on the chain that begins with one, among the first 100,000 of the chain.
#[tactic(auto, using(crate::proofs::Naming::chain_lacks, crate::proofs::Naming::chain_found, crate::proofs::Naming::chain_ends, crate::proofs::Naming::chain_lost, crate::proofs::Naming::chain_on), unfolding(table_model::specs::Symbols::symbol_named))]
pub fn symbol_named(
    store: &PsStore,
    scope: Option<DictId>,
    name: &[u8],
) -> Result<Option<DictId>, Lack>
    ensures { result ≡ symbol_named store.now scope name.now }
{
    let mut next = scope;
    let mut left = MOST_SYMBOLS - 1;
    while let Some(symbol) = next {
        let own = text_at(store, symbol, b"name")?;
        if own == name {
            return Ok(Some(symbol));
        }
        if left == 0 {
            return Ok(None);
        }
        left -= 1;
        next = uplink_of(store, symbol)?;
    }
    Ok(None)
}
