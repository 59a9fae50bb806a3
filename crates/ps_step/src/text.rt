//! The text of an object, as `cvs` writes it.

ghost use Rattle.std.specs.Prelude.{◌≡◌, IfOk, slice_get, map};
ghost use Rattle.std.specs.Option.{unwrap_or};
ghost use Rattle.ps_step.specs.Text.{text_of, operator_name, no_text};

use itoa::Buffer;
use ps_store::{OPERATOR_NAMES, PsObj, PsStore};
use std::alloc::{AllocError, Global};

#[tactic(auto, using(crate::proofs::Names::get_mapped, crate::proofs::Names::none_mapped))]
/// The name at a place of a list, or what is written for an object without a text.
fn name_in(names: &[&'static str], number: u16) -> &'static [u8]
    ensures { result.now ≡ unwrap_or (slice_get (map (λ name. name.now) names.now) number) no_text }
{
    match names.get(number as usize) {
        Some(name) => name.as_bytes(),
        None => b"--nostringval--",
    }
}

/// The name of an operator.
#[tactic(auto, unfolding(crate::specs::Text::operator_name))]
fn operator_name(number: u16) -> &'static [u8]
    ensures { result.now ≡ operator_name number }
{
    name_in(&OPERATOR_NAMES, number)
}

/// The text of an object: its characters, its decimal digits, its truth or its name.
pub fn text_of(store: &PsStore, x: PsObj, alloc: Global) -> Result<Vec<u8>, AllocError>
    ensures { IfOk result (λ text. text.items ≡ text_of store.now x) }
{
    match x {
        PsObj::Int(n) => {
            let mut buffer = Buffer::new();
            Vec::from_slice(alloc, buffer.format(n).as_bytes())
        }
        PsObj::Bool(b) => Vec::from_slice(alloc, if b { b"true" } else { b"false" }),
        PsObj::Name(t, _) | PsObj::Str(t, _) => Vec::from_slice(alloc, store.string_get(t)),
        PsObj::Op(number) => Vec::from_slice(alloc, operator_name(number)),
        _ => Vec::from_slice(alloc, b"--nostringval--"),
    }
}
