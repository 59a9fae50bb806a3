//! Keys of dictionaries, and look-up on the stack of dictionaries (PostScript Language Reference Manual, 3.3.9 and 3.5.2).

ghost use Rattle.ps_store.specs.Store.{closed_part, bytes_of};
ghost use Rattle.ps_store.specs.declared.key.Key.TheVariants.{Name as NameKey};
ghost use Rattle.std.specs.Prelude.{◌≡◌};
ghost use Rattle.ps_step.specs.Keys.{key_of, current, value_under, put_key, put_under, found_in, holder_of, named, meant_by, under};
ghost use Rattle.ps_step.specs.Effects.{Stores};

use crate::fault::{PsError, PsFault};
use crate::stack::Stack;
use ps_store::{DictId, Key, PsObj, PsStore, StringId};

/// The most characters of a name.
const MOST_CHARACTERS: usize = 127;

/// The key that an object is. A string is the name of its characters.
pub fn key_of(store: &PsStore, object: PsObj) -> Result<Key, PsError>
    ensures { result ≡ key_of store.now object }
{
    match object {
        PsObj::Name(t, _) | PsObj::Str(t, _) => match Key::name(store.string_get(t)) {
            Some(key) => Ok(key),
            None => Err(PsError::LimitCheck),
        },
        PsObj::Int(n) => Ok(Key::Int(n)),
        PsObj::Bool(b) => Ok(Key::Bool(b)),
        _ => Err(PsError::TypeCheck),
    }
}

/// The dictionary in which `def` defines.
pub fn current(dictionaries: &Stack<DictId>) -> Result<DictId, PsError>
    ensures { result ≡ current dictionaries.now }
{
    match dictionaries.get(0) {
        Some(d) => Ok(d),
        None => Err(PsError::DictStackUnderflow),
    }
}

/// The value of a dictionary under the key that an object is.
pub fn value_under(store: &PsStore, d: DictId, place: PsObj) -> Result<Option<PsObj>, PsError>
    ensures { result ≡ value_under store.now d place }
{
    match place {
        PsObj::Name(t, _) | PsObj::Str(t, _) => {
            if store.string_get(t).len() > MOST_CHARACTERS {
                return Err(PsError::LimitCheck);
            }
            Ok(store.name_get(d, t))
        }
        _ => {
            let key = key_of(store, place)?;
            Ok(store.dict_get(d, &key))
        }
    }
}

/// Puts a value of a dictionary under the key that an object is, for which a name is made where it is new.
#[inline(never)]
fn put_key(store: &mut PsStore, d: DictId, place: PsObj, value: PsObj) -> Result<(), PsFault>
    ensures stores { Stores result store.old store.new (put_key store.old d place value) }
    ensures closed { closed_part store.new ≡ closed_part store.old }
{
    let key = key_of(store, place)?;
    store.dict_put(d, key, value)?;
    Ok(())
}

/// Puts a value of a dictionary under the key that an object is.
#[inline(always)]
pub fn put_under(store: &mut PsStore, d: DictId, place: PsObj, value: PsObj) -> Result<(), PsFault>
    ensures stores { Stores result store.old store.new (put_under store.old d place value) }
    ensures closed { closed_part store.new ≡ closed_part store.old }
{
    match place {
        PsObj::Name(t, _) => {
            store.name_put(d, t, value)?;
            Ok(())
        }
        _ => put_key(store, d, place, value),
    }
}

/// The value of a name in the dictionaries, the topmost first.
#[inline(always)]
pub fn name_found(store: &PsStore, dictionaries: &Stack<DictId>, name: StringId) -> Option<PsObj>
    ensures { result ≡ found_in store.now dictionaries.now (NameKey (bytes_of store.now name)) }
{
    for depth in 0..dictionaries.len() {
        if let Some(x) = store.name_get(dictionaries.at(depth), name) {
            return Some(x);
        }
    }
    None
}

/// The value of a key in the dictionaries, the topmost first.
pub fn key_found(store: &PsStore, dictionaries: &Stack<DictId>, key: &Key) -> Option<PsObj>
    ensures { result ≡ found_in store.now dictionaries.now key.now }
{
    for depth in 0..dictionaries.len() {
        if let Some(x) = store.dict_get(dictionaries.at(depth), key) {
            return Some(x);
        }
    }
    None
}

/// The topmost dictionary that has a key.
pub fn holder_of(store: &PsStore, dictionaries: &Stack<DictId>, key: &Key) -> Option<DictId>
    ensures { result ≡ holder_of store.now dictionaries.now key.now }
{
    for depth in 0..dictionaries.len() {
        let d = dictionaries.at(depth);
        if store.dict_get(d, key).is_some() {
            return Some(d);
        }
    }
    None
}

/// The value of a name: in the dictionaries, or else the operator of that name.
#[inline(always)]
pub fn named(store: &PsStore, dictionaries: &Stack<DictId>, name: StringId) -> Option<PsObj>
    ensures { result ≡ named store.now dictionaries.now (bytes_of store.now name) }
{
    match name_found(store, dictionaries, name) {
        Some(x) => Some(x),
        None => match store.operator_named(name) {
            Some(n) => Some(PsObj::Op(n)),
            None => None,
        },
    }
}

/// What `load` gives for an object: the value of the key that it is.
pub fn meant_by(
    store: &PsStore,
    dictionaries: &Stack<DictId>,
    object: PsObj,
) -> Result<Option<PsObj>, PsError>
    ensures { result ≡ meant_by store.now dictionaries.now object }
{
    match object {
        PsObj::Name(t, _) | PsObj::Str(t, _) => {
            if store.string_get(t).len() > MOST_CHARACTERS {
                return Err(PsError::LimitCheck);
            }
            Ok(named(store, dictionaries, t))
        }
        _ => {
            let key = key_of(store, object)?;
            Ok(key_found(store, dictionaries, &key))
        }
    }
}

/// A value that was looked up.
pub fn under(found: Option<PsObj>) -> Result<PsObj, PsError>
    ensures { result ≡ under found }
{
    match found {
        Some(x) => Ok(x),
        None => Err(PsError::Undefined),
    }
}
