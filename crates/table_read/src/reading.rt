// Values of a table by their names and types.

ghost use Rattle.std.specs.Prelude.{◌≡◌};
ghost use Rattle.table_read.specs.Reads.{in_ok};
ghost use Rattle.table_model.specs.Reading.{entry, dict_in, items_in, procedure_in, string_in, number_in, dict_or_null, top_of, dict_at, items_at, procedure_at, string_at, number_at};

use ps_store::{DictId, PsObj, PsStore, StringId};
use table_model::Lack;

/// The value of a dictionary under a name.
pub fn entry(store: &PsStore, d: DictId, name: &[u8]) -> Result<PsObj, Lack>
    ensures { result ≡ entry store.now d name.now }
{
    match store.text_get(d, name) {
        Some(value) => Ok(value),
        None => Err(Lack::Missing),
    }
}

/// The dictionary that an object is.
pub fn dict_in(object: PsObj) -> Result<DictId, Lack>
    ensures { result ≡ dict_in object }
{
    match object {
        PsObj::Dict(d) => Ok(d),
        _ => Err(Lack::WrongType),
    }
}

/// The dictionary that an object is, or none where it is null.
pub fn dict_or_null(object: PsObj) -> Result<Option<DictId>, Lack>
    ensures { result ≡ dict_or_null object }
{
    match object {
        PsObj::Dict(d) => Ok(Some(d)),
        PsObj::Null => Ok(None),
        _ => Err(Lack::WrongType),
    }
}

/// The elements of the array that an object is.
pub fn items_in(store: &PsStore, object: PsObj) -> Result<&[PsObj], Lack>
    ensures { in_ok (λ items. items.now) result ≡ items_in store.now object }
{
    match object {
        PsObj::Array(a, _) => Ok(store.array_get(a)),
        _ => Err(Lack::WrongType),
    }
}

/// The elements of the procedure that an object is.
fn procedure_in(store: &PsStore, object: PsObj) -> Result<&[PsObj], Lack>
    ensures { in_ok (λ items. items.now) result ≡ procedure_in store.now object }
{
    match object {
        PsObj::Array(a, true) => Ok(store.array_get(a)),
        _ => Err(Lack::WrongType),
    }
}

/// The string that an object is.
fn string_in(object: PsObj) -> Result<StringId, Lack>
    ensures { result ≡ string_in object }
{
    match object {
        PsObj::Str(text, _) => Ok(text),
        _ => Err(Lack::WrongType),
    }
}

/// The number that an object is: addresses, sizes, lines and columns are read as unsigned ones.
pub fn number_in(object: PsObj) -> Result<u32, Lack>
    ensures { result ≡ number_in object }
{
    match object {
        PsObj::Int(n) => Ok(n.cast_unsigned()),
        _ => Err(Lack::WrongType),
    }
}

/// The dictionary under a name.
pub fn dict_at(store: &PsStore, d: DictId, name: &[u8]) -> Result<DictId, Lack>
    ensures { result ≡ dict_at store.now d name.now }
{
    dict_in(entry(store, d, name)?)
}

/// The elements of the array under a name.
pub fn items_at<'a>(store: &'a PsStore, d: DictId, name: &[u8]) -> Result<&'a [PsObj], Lack>
    ensures { in_ok (λ items. items.now) result ≡ items_at store.now d name.now }
{
    items_in(store, entry(store, d, name)?)
}

/// The elements of the procedure under a name.
pub fn procedure_at<'a>(store: &'a PsStore, d: DictId, name: &[u8]) -> Result<&'a [PsObj], Lack>
    ensures { in_ok (λ items. items.now) result ≡ procedure_at store.now d name.now }
{
    procedure_in(store, entry(store, d, name)?)
}

/// The string under a name.
pub fn string_at(store: &PsStore, d: DictId, name: &[u8]) -> Result<StringId, Lack>
    ensures { result ≡ string_at store.now d name.now }
{
    string_in(entry(store, d, name)?)
}

/// The number under a name.
pub fn number_at(store: &PsStore, d: DictId, name: &[u8]) -> Result<u32, Lack>
    ensures { result ≡ number_at store.now d name.now }
{
    number_in(entry(store, d, name)?)
}

/// The table's dictionary.
pub fn top_of(store: &PsStore) -> Result<DictId, Lack>
    ensures { result ≡ top_of store.now }
{
    match store.top() {
        Some(top) => Ok(top),
        None => Err(Lack::Missing),
    }
}
