// Static objects and strings.

ghost use Rattle.std.specs.Prelude.{◌≡◌};
ghost use Rattle.table_model.specs.Reading.{first_in};
ghost use Rattle.table_model.specs.Objects.{as_static, static_object, statics_in, static_at};

use crate::object::found_symbol;
use ps_store::{DictId, PsObj, PsStore};
use table_model::{Found, Lack};
use table_read::{dict_in, items_in, procedure_at, top_of};

/// A found object as an entry of `/objects`: one without a name is a string literal.
fn as_static(store: &PsStore, entry: DictId, found: Option<Found>) -> Option<Found>
    ensures { result ≡ as_static store.now entry found }
{
    match found {
        None => None,
        Some(found) => Some(Found {
            literal: store.text_get(entry, b"name").is_none(),
            ..found
        }),
    }
}

/// The object of an entry, if the address belongs to it.
fn static_object(store: &PsStore, address: u32, object: PsObj) -> Result<Option<Found>, Lack>
    ensures { result ≡ static_object store.now address object }
{
    let entry = dict_in(object)?;
    let where_is = procedure_at(store, entry, b"where")?;
    let found = found_symbol(store, None, address, entry, where_is)?;
    Ok(as_static(store, entry, found))
}

/// The first of some entries to whose object the address belongs.
fn first_static(store: &PsStore, address: u32, entries: &[PsObj]) -> Result<Option<Found>, Lack>
    ensures { result ≡ first_in (static_object store.now address) entries.now }
{
    for entry in entries {
        let found = static_object(store, address, *entry)?;
        if found.is_some() {
            return Ok(found);
        }
    }
    Ok(None)
}

/// The first static object or string to which an address belongs; a table without objects has none.
#[tactic(auto, unfolding(table_model::specs::Objects::static_at))]
pub fn static_at(store: &PsStore, address: u32) -> Result<Option<Found>, Lack>
    ensures { result ≡ static_at store.now address }
{
    let top = top_of(store)?;
    match store.text_get(top, b"objects") {
        None => Ok(None),
        Some(objects) => {
            let entries = items_in(store, objects)?;
            first_static(store, address, entries)
        }
    }
}
