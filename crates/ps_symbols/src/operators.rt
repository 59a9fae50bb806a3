// The operators.

ghost use Rattle.ps_store.specs.Store.{closed_part};
ghost use Rattle.std.specs.Prelude.{◌≡◌, ◌≤◌, OnOk, length};
ghost use Rattle.ps_step.specs.Effects.{Does};
ghost use Rattle.table_model.specs.Objects.{anchor_of};
ghost use Rattle.ps_places.specs.Lacks.{looked};
ghost use Rattle.ps_places.specs.Places.{named_text};
ghost use Rattle.ps_symbols.specs.Naming.{if_target, anchoring, top_name, struct_named, giving_struct, where_of, asked_where, locating};

use crate::chain::symbol_named;
use ps_places::{error_of, name_of};
use ps_step::fault::{PsError, PsFault};
use ps_step::machine::PsCore;
use ps_step::operands::{one_of, pair_of};
use ps_store::{DictId, PsObj, PsStore, StringId};
use ps_words::word_in;
use table_model::Lack;
use table_read::{dict_at, entry, number_at, top_of};

/// The address of an anchor.
fn anchor_of(store: &PsStore, name: &[u8]) -> Result<u32, Lack>
    ensures { result ≡ anchor_of store.now name.now }
{
    let top = top_of(store)?;
    let anchors = dict_at(store, top, b"anchors")?;
    number_at(store, anchors, name)
}

/// Where there is no target, anchors and structs are not defined.
fn if_target(has_target: bool) -> Result<(), PsError>
    ensures { result ≡ if_target has_target }
{
    if has_target {
        Ok(())
    } else {
        Err(PsError::Undefined)
    }
}

/// `Anchor`: a number plus an anchor's address, modulo 2^32. undefined comes where there is no target or no such anchor. An error
/// leaves the state as it was.
pub fn anchor(core: &mut PsCore, has_target: bool) -> Result<(), PsFault>
    ensures does { Does result core.old core.new (anchoring has_target core.old) }
    ensures closed { closed_part core.new.store ≡ closed_part core.old.store }
{
    let (number, name) = pair_of(&core.operands)?;
    let n = word_in(number)?;
    let name = name_of(&core.store, name)?;
    if_target(has_target)?;
    match anchor_of(&core.store, core.store.string_get(name)) {
        Ok(at) => {
            let sum = n.wrapping_add(at);
            core.operands.replace(2, PsObj::Int(sum.cast_signed()));
            Ok(())
        }
        Err(lack) => Err(PsFault::Error(error_of(lack))),
    }
}

/// The type of a tag.
fn struct_named(store: &PsStore, tag: &[u8]) -> Result<DictId, Lack>
    ensures { result ≡ struct_named store.now tag.now }
{
    let top = top_of(store)?;
    let structs = dict_at(store, top, b"structs")?;
    dict_at(store, structs, tag)
}

/// The string of the name that is the topmost operand.
pub fn top_name(core: &PsCore) -> Result<StringId, PsError>
    ensures name { top_name core.now ≡ named_text core.now.store result }
    ensures some { OnOk result (1 ≤ length core.now.operands) }
{
    let x = one_of(&core.operands)?;
    name_of(&core.store, x)
}

/// `Struct`: the type of a tag. undefined comes where there is no target or no such struct. An error leaves the state as it was.
pub fn find_struct(core: &mut PsCore, has_target: bool) -> Result<(), PsFault>
    ensures does { Does result core.old core.new (giving_struct has_target core.old) }
    ensures closed { closed_part core.new.store ≡ closed_part core.old.store }
{
    let tag = top_name(core)?;
    if_target(has_target)?;
    match struct_named(&core.store, core.store.string_get(tag)) {
        Ok(t) => {
            core.operands.replace(1, PsObj::Dict(t));
            Ok(())
        }
        Err(lack) => Err(PsFault::Error(error_of(lack))),
    }
}

/// The procedure that leaves the place of the symbol with a name in scope.
fn where_of(store: &PsStore, scope: Option<DictId>, name: &[u8]) -> Result<PsObj, PsError>
    ensures { result ≡ where_of store.now scope name.now }
{
    match symbol_named(store, scope, name) {
        Err(lack) => Err(error_of(lack)),
        Ok(None) => Err(PsError::Undefined),
        Ok(Some(symbol)) => match entry(store, symbol, b"where") {
            Ok(PsObj::Array(a, true)) => Ok(PsObj::Array(a, true)),
            Ok(_) => Err(PsError::TypeCheck),
            Err(lack) => Err(error_of(lack)),
        },
    }
}

/// The procedure that `Where` takes.
fn asked_where(core: &PsCore, scope: Option<DictId>) -> Result<PsObj, PsError>
    ensures asked { result ≡ asked_where scope core.now }
    ensures enough { OnOk result (1 ≤ length core.now.operands) }
{
    let name = top_name(core)?;
    where_of(&core.store, scope, core.store.string_get(name))
}

/// `Where`, in a frame where `scope` is the innermost symbol in scope: the procedure of the symbol that a name has is executed next,
/// and leaves the symbol's place. undefined comes where no symbol has the name. An error leaves the state as it was.
pub fn find_symbol(core: &mut PsCore, scope: Option<DictId>) -> Result<(), PsFault>
    ensures does { Does result core.old core.new (locating scope core.old) }
    ensures closed { closed_part core.new.store ≡ closed_part core.old.store }
{
    let body = asked_where(core, scope)?;
    core.schedule(body)?;
    core.operands.take(1);
    Ok(())
}
