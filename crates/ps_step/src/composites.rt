//! What stands in arrays, strings and dictionaries, and copies between them.

ghost use Rattle.ps_store.specs.Store.{closed_part, bytes_of, entries_of};
ghost use Rattle.ps_store.specs.declared.object.PsObj.TheVariants.{Array as ArrayObject, Str as StringObject};
ghost use Rattle.std.specs.Prelude.{◌≡◌, ◌≤◌, true, false, IfSome, IfNone, OnOk, ◌+◌, drop, length, Ok};
ghost use Rattle.ps_store.specs.StoreState.{StoreState};
ghost use Rattle.ps_store.specs.declared.object.DictId.{DictId};
ghost use Rattle.ps_step.specs.Composites.{value_in, put_in, same_dict, putting_pairs, putting_objects, putting_first, placed_text, copied_array, copied_dict, copied, filled};
ghost use Rattle.ps_step.specs.Effects.{Stores, StoresPart, StopsAt, MakesPart};

use crate::compare::same_part;
use crate::fault::{PsError, PsFault};
use crate::keys::{put_under, under, value_under};
use crate::values::{byte_at, byte_of, count_of, element_at};
use ps_store::{ArrayId, DictId, PsObj, PsStore, StringId};
use std::alloc::Global;

/// The value at a place of an array, a string or a dictionary.
pub fn value_in(store: &PsStore, whole: PsObj, place: PsObj) -> Result<PsObj, PsError>
    ensures { result ≡ value_in store.now whole place }
{
    match whole {
        PsObj::Dict(d) => {
            let found = value_under(store, d, place)?;
            under(found)
        }
        PsObj::Array(a, _) => {
            let at = count_of(place)?;
            element_at(store, a, at)
        }
        PsObj::Str(t, _) => {
            let at = count_of(place)?;
            byte_at(store, t, at)
        }
        _ => Err(PsError::TypeCheck),
    }
}

/// Puts an element at a place of an array.
fn put_element(store: &mut PsStore, a: ArrayId, place: PsObj, value: PsObj) -> Result<(), PsFault>
    ensures stores { Stores result store.old store.new (put_in store.old (ArrayObject a true) place value) }
    ensures closed { closed_part store.new ≡ closed_part store.old }
{
    let at = count_of(place)?;
    if at as usize >= store.array_get(a).len() {
        return Err(PsFault::Error(PsError::RangeCheck));
    }
    store.array_put(a, at, value)?;
    Ok(())
}

/// Puts a byte at a place of a string.
fn put_byte(store: &mut PsStore, t: StringId, place: PsObj, value: PsObj) -> Result<(), PsFault>
    ensures stores { Stores result store.old store.new (put_in store.old (StringObject t true) place value) }
    ensures closed { closed_part store.new ≡ closed_part store.old }
{
    let at = count_of(place)?;
    if at as usize >= store.string_get(t).len() {
        return Err(PsFault::Error(PsError::RangeCheck));
    }
    let byte = byte_of(value)?;
    store.string_write(t, at, &[byte])?;
    Ok(())
}

/// Puts a value at a place of an array, a string or a dictionary.
pub fn put_in(store: &mut PsStore, whole: PsObj, place: PsObj, value: PsObj) -> Result<(), PsFault>
    ensures stores { Stores result store.old store.new (put_in store.old whole place value) }
    ensures closed { closed_part store.new ≡ closed_part store.old }
{
    match whole {
        PsObj::Dict(d) => put_under(store, d, place, value),
        PsObj::Array(a, _) => put_element(store, a, place, value),
        PsObj::Str(t, _) => put_byte(store, t, place, value),
        _ => Err(PsFault::Error(PsError::TypeCheck)),
    }
}

/// Puts a text at the front of a string, and gives the string of that text: the same one where they are as long.
pub fn place_text(
    store: &mut PsStore,
    text: &[u8],
    t: StringId,
    executable: bool,
) -> Result<PsObj, PsFault>
    ensures makes { MakesPart result store.new (placed_text store.old text.now t executable) }
    ensures closed { closed_part store.new ≡ closed_part store.old }
{
    let room = store.string_get(t).len();
    if room < text.len() {
        return Err(PsFault::Error(PsError::RangeCheck));
    }
    store.string_write(t, 0, text)?;
    if text.len() == room {
        return Ok(PsObj::Str(t, executable));
    }
    let short = store.make_string(text)?;
    Ok(PsObj::Str(short, executable))
}

/// Copies an array to the front of another, and gives the array of what was copied.
fn copy_array(
    store: &mut PsStore,
    from: ArrayId,
    to: ArrayId,
    executable: bool,
    alloc: Global,
) -> Result<PsObj, PsFault>
    ensures makes { MakesPart result store.new (copied_array store.old from to executable) }
    ensures closed { closed_part store.new ≡ closed_part store.old }
{
    let room = store.array_get(to).len();
    if room < store.array_get(from).len() {
        return Err(PsFault::Error(PsError::RangeCheck));
    }
    let items = Vec::from_slice(alloc, store.array_get(from))?;
    store.array_write(to, 0, &items)?;
    if items.len() == room {
        return Ok(PsObj::Array(to, executable));
    }
    let short = store.make_array_of(&items)?;
    Ok(PsObj::Array(short, executable))
}

/// Copies a string to the front of another, and gives the string of what was copied.
fn copy_string(
    store: &mut PsStore,
    from: StringId,
    to: StringId,
    executable: bool,
    alloc: Global,
) -> Result<PsObj, PsFault>
    ensures makes { MakesPart result store.new (placed_text store.old (bytes_of store.old from) to executable) }
    ensures closed { closed_part store.new ≡ closed_part store.old }
{
    let text = Vec::from_slice(alloc, store.string_get(from))?;
    place_text(store, &text, to, executable)
}

/// Whether both are the same dictionary.
fn same_dict(a: DictId, b: DictId) -> bool
    ensures { result ≡ same_dict a b }
{
    same_part(a.part, b.part) && a.index == b.index
}

/// Puts the pair at a place of a dictionary into another one.
#[tactic(auto, using(crate::proofs::Apart::no_pairs_from))]
fn put_pair(store: &mut PsStore, from: DictId, to: DictId, at: usize) -> Result<(), PsFault>
    requires { same_dict from to ≡ false }
    ensures ok { OnOk result (putting_pairs store.old to (drop at (entries_of store.old from)) ≡ putting_pairs store.new to (drop (at + 1) (entries_of store.old from))) }
    ensures err { StopsAt result store.new (putting_pairs store.old to (drop at (entries_of store.old from))) }
    ensures same { OnOk result (entries_of store.new from ≡ entries_of store.old from) }
    ensures closed { closed_part store.new ≡ closed_part store.old }
{
    match store.pair_at(from, at) {
        Some(pair) => put_under(store, to, pair.key, pair.value),
        None => Ok(()),
    }
}

/// Puts each pair of a dictionary into another one.
fn put_pairs(store: &mut PsStore, from: DictId, to: DictId) -> Result<(), PsFault>
    requires { same_dict from to ≡ false }
    ensures stores { StoresPart result store.new (putting_pairs store.old to (entries_of store.old from)) }
    ensures closed { closed_part store.new ≡ closed_part store.old }
{
    for at in 0..store.dict_len(from) {
        put_pair(store, from, to, at)?;
    }
    Ok(())
}

/// Copies the pairs of a dictionary to another, and gives that one.
fn copy_dict(store: &mut PsStore, from: DictId, to: DictId) -> Result<PsObj, PsFault>
    ensures makes { MakesPart result store.new (copied_dict store.old from to) }
    ensures closed { closed_part store.new ≡ closed_part store.old }
{
    if !same_dict(from, to) {
        put_pairs(store, from, to)?;
    }
    Ok(PsObj::Dict(to))
}

/// `copy` of one array, string or dictionary to another.
pub fn copy_whole(
    store: &mut PsStore,
    from: PsObj,
    to: PsObj,
    alloc: Global,
) -> Result<PsObj, PsFault>
    ensures makes { MakesPart result store.new (copied store.old from to) }
    ensures closed { closed_part store.new ≡ closed_part store.old }
{
    match (from, to) {
        (PsObj::Array(a, _), PsObj::Array(b, executable)) => {
            copy_array(store, a, b, executable, alloc)
        }
        (PsObj::Str(t, _), PsObj::Str(u, executable)) => {
            copy_string(store, t, u, executable, alloc)
        }
        (PsObj::Dict(d), PsObj::Dict(e)) => copy_dict(store, d, e),
        _ => Err(PsFault::Error(PsError::TypeCheck)),
    }
}

/// The first key and its value.
#[tactic(auto, using(crate::proofs::Firsts::pair_first, crate::proofs::Firsts::no_pair))]
fn first_pair(items: &[PsObj]) -> Option<(PsObj, PsObj)>
    ensures next { IfSome result (λ p. (s : StoreState) (d : DictId) → putting_objects s d items.now ≡ putting_first s d p.0 p.1 (drop 2 items.now)) }
    ensures none { IfNone result ((s : StoreState) (d : DictId) → putting_objects s d items.now ≡ Ok s) }
    ensures enough { IfSome result (λ p. 2 ≤ length items.now) }
{
    match (items.get(0), items.get(1)) {
        (Some(place), Some(value)) => Some((*place, *value)),
        _ => None,
    }
}

/// Puts values under keys, which are each before its value.
fn put_objects(store: &mut PsStore, d: DictId, items: &[PsObj]) -> Result<(), PsFault>
    ensures stores { StoresPart result store.new (putting_objects store.old d items.now) }
    ensures closed { closed_part store.new ≡ closed_part store.old }
{
    let mut rest = items;
    while let Some((place, value)) = first_pair(rest) {
        put_under(store, d, place, value)?;
        rest = &rest[2..];
    }
    Ok(())
}

/// A dictionary of keys and values.
pub fn make_filled(store: &mut PsStore, items: &[PsObj]) -> Result<PsObj, PsFault>
    ensures makes { MakesPart result store.new (filled store.old items.now) }
    ensures closed { closed_part store.new ≡ closed_part store.old }
{
    let d = store.make_dict()?;
    put_objects(store, d, items)?;
    Ok(PsObj::Dict(d))
}
