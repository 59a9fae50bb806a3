// The symbols in scope.

ghost use Rattle.std.specs.Prelude.{◌≡◌};
ghost use Rattle.table_model.specs.Symbols.{scope_of, uplink_of};

use crate::points::point_of;
use crate::reading::{dict_or_null, entry};
use frame_bytes::Frame;
use ps_store::{DictId, PsStore};
use table_model::Lack;

/// The innermost symbol in scope in the frame with a number, if there is one.
#[tactic(auto, unfolding(table_model::specs::Symbols::scope_of))]
pub fn scope_of(store: &PsStore, number: u32, frame: &Frame) -> Result<Option<DictId>, Lack>
    ensures { result ≡ scope_of store.now number frame.now }
{
    let point = point_of(store, number, frame)?;
    dict_or_null(entry(store, point, b"symbols")?)
}

/// The symbol outward of one, if there is one.
pub fn uplink_of(store: &PsStore, symbol: DictId) -> Result<Option<DictId>, Lack>
    ensures { result ≡ uplink_of store.now symbol }
{
    dict_or_null(entry(store, symbol, b"uplink")?)
}
