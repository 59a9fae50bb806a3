// The shape of a table.
ghost use Rattle.std.specs.Prelude.{◌≡◌};
ghost use Rattle.table_run.specs.Shape.{target_text, is_number, is_text, has_entries, is_unused, is_table};

use machine_state::MIPS;
use ps_store::{DictId, Part, PsObj, PsStore};

/// The name of a target in tables.
fn target_text(target: u8) -> &'static [u8]
    ensures { result.now ≡ target_text target }
{
    if target == MIPS { b"mips" } else { b"sparc" }
}

/// Whether a value is this number.
fn is_number(value: Option<PsObj>, number: i32) -> bool
    ensures { result ≡ is_number number value }
{
    match value {
        Some(PsObj::Int(n)) => n == number,
        _ => false,
    }
}

/// Whether a value is a string of these characters.
fn is_text(store: &PsStore, value: Option<PsObj>, text: &[u8]) -> bool
    ensures { result ≡ is_text store.now text.now value }
{
    match value {
        Some(PsObj::Str(s, _)) => store.string_get(s) == text,
        _ => false,
    }
}

/// Whether the top dictionary of a table has its version, this target, and its anchors, structs and units. The rest of a
/// table is looked at when it is used.
fn has_entries(store: &PsStore, target: u8, top: DictId) -> bool
    ensures { result ≡ has_entries store.now target top }
{
    is_number(store.text_get(top, b"ldb"), 1)
        && is_text(store, store.text_get(top, b"target"), target_text(target))
        && matches!(store.text_get(top, b"anchors"), Some(PsObj::Dict(_)))
        && matches!(store.text_get(top, b"structs"), Some(PsObj::Dict(_)))
        && matches!(store.text_get(top, b"units"), Some(PsObj::Array(_, _)))
}

/// Whether nothing is in the part of commands, which a table doesn't use.
fn is_unused(store: &mut PsStore) -> bool
    ensures value { result ≡ is_unused store.old.command }
    ensures same { store.new ≡ store.old }
{
    let part = store.part();
    store.use_part(Part::Command);
    let mark = store.mark();
    store.use_part(part);
    mark.arrays == 0 && mark.dicts == 0 && mark.strings == 0 && mark.units == 0
}

/// Whether the dictionary is the top of a table for this target, and nothing beside the table is in the store.
pub fn is_table(store: &mut PsStore, target: u8, top: DictId) -> bool
    ensures value { result ≡ is_table store.old target top }
    ensures same { store.new ≡ store.old }
{
    has_entries(store, target, top) && is_unused(store)
}
