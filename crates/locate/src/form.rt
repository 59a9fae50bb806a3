// The place that a procedure says before it runs.

ghost use Rattle.std.specs.Prelude.{◌≡◌, ◌||◌, ◌∷◌, [], codes, Ok};
ghost use Rattle.table_model.specs.Symbols.{is_called, is_local};
ghost use Rattle.table_model.specs.Objects.{form_of, anchor_of, address_of};

use ps_store::{PsObj, PsStore};
use table_model::Lack;
use table_read::{dict_at, number_at, top_of};

/// Whether an object is the executable name with these characters.
fn is_called(store: &PsStore, text: &[u8], object: PsObj) -> bool
    ensures { result ≡ is_called store.now text.now object }
{
    match object {
        PsObj::Name(t, true) => store.string_get(t) == text,
        _ => false,
    }
}

/// Whether an object reckons a place from the frame, or is a register.
fn is_of_frame(store: &PsStore, object: PsObj) -> bool
    ensures { result ≡ is_called store.now (codes "Local") object || is_called store.now (codes "Register") object }
{
    is_called(store, b"Local", object) || is_called(store, b"Register", object)
}

/// Whether a symbol with this procedure is a local: its place is reckoned from the frame or is a register.
pub fn is_local(store: &PsStore, objects: &[PsObj]) -> bool
    ensures { result ≡ is_local store.now objects.now }
{
    for object in objects {
        if is_of_frame(store, *object) {
            return true;
        }
    }
    false
}

/// An anchor's address.
fn anchor_of(store: &PsStore, name: &[u8]) -> Result<u32, Lack>
    ensures { result ≡ anchor_of store.now name.now }
{
    let top = top_of(store)?;
    let anchors = dict_at(store, top, b"anchors")?;
    number_at(store, anchors, name)
}

/// The address that a number and one more object say: `n Local`, `n Absolute`.
fn near_address(store: &PsStore, base: Option<u32>, number: PsObj, operator: PsObj) -> Option<u32>
    ensures { Ok result ≡ address_of store.now base (form_of store.now (number ∷ operator ∷ [])) }
{
    let n = match number {
        PsObj::Int(n) => n.cast_unsigned(),
        _ => return None,
    };
    if is_called(store, b"Local", operator) {
        match base {
            Some(base) => Some(base.wrapping_add(n)),
            None => None,
        }
    } else if is_called(store, b"Absolute", operator) {
        Some(n)
    } else {
        None
    }
}

/// The address that four objects say: `n /name Anchor Absolute`.
fn anchored_address(
    store: &PsStore,
    base: Option<u32>,
    number: PsObj,
    name: PsObj,
    anchor: PsObj,
    absolute: PsObj,
) -> Result<Option<u32>, Lack>
    ensures { result ≡ address_of store.now base (form_of store.now (number ∷ name ∷ anchor ∷ absolute ∷ [])) }
{
    match (number, name) {
        (PsObj::Int(n), PsObj::Name(t, false)) => {
            if is_called(store, b"Anchor", anchor) && is_called(store, b"Absolute", absolute) {
                let at = anchor_of(store, store.string_get(t))?;
                Ok(Some(n.cast_unsigned().wrapping_add(at)))
            } else {
                Ok(None)
            }
        }
        _ => Ok(None),
    }
}

/// The address that a procedure says, in a frame with a base or in none.
pub fn address_of(
    store: &PsStore,
    base: Option<u32>,
    where_is: &[PsObj],
) -> Result<Option<u32>, Lack>
    ensures { result ≡ address_of store.now base (form_of store.now where_is.now) }
{
    match where_is {
        [number, operator] => Ok(near_address(store, base, *number, *operator)),
        [number, name, anchor, absolute] => {
            anchored_address(store, base, *number, *name, *anchor, *absolute)
        }
        _ => Ok(None),
    }
}
