// The object of a symbol.

ghost use Rattle.std.specs.Prelude.{◌≡◌};
ghost use Rattle.table_model.specs.Objects.{belongs, form_of, object_at, object_or_none, found_symbol};

use crate::form::address_of;
use ps_store::{DictId, PsObj, PsStore};
use table_model::{Found, Lack};
use table_read::{dict_at, number_at, string_at};

/// Whether an address is in an object or one past it.
fn belongs(base: u32, size: u32, address: u32) -> bool
    ensures { result ≡ belongs base size address }
{
    base <= address && u64::from(address) <= u64::from(base) + u64::from(size)
}

/// The object of a symbol at a base, if the address belongs to it.
fn object_at(
    store: &PsStore,
    symbol: DictId,
    address: u32,
    base: u32,
) -> Result<Option<Found>, Lack>
    ensures { result ≡ object_at store.now symbol address base }
{
    let ctype = dict_at(store, symbol, b"type")?;
    let size = number_at(store, ctype, b"size")?;
    if !belongs(base, size, address) {
        return Ok(None);
    }
    let label = string_at(store, symbol, b"label")?;
    Ok(Some(Found {
        label,
        ctype,
        activation: None,
        base,
        size,
        at: address - base,
        literal: false,
    }))
}

/// The object of a symbol with this `/where`, if the address belongs to it.
pub fn found_symbol(
    store: &PsStore,
    base: Option<u32>,
    address: u32,
    symbol: DictId,
    where_is: &[PsObj],
) -> Result<Option<Found>, Lack>
    ensures { result ≡ found_symbol store.now base address symbol where_is.now }
{
    match address_of(store, base, where_is)? {
        None => Ok(None),
        Some(base) => object_at(store, symbol, address, base),
    }
}
