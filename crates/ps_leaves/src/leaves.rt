// Leaves of the object to which a pointer belongs.

ghost use Rattle.ps_store.specs.Store.{closed_part};
ghost use Rattle.std.specs.Prelude.{◌≡◌, ◌≤◌, OnOk, length};
ghost use Rattle.ps_step.specs.Effects.{Does};
ghost use Rattle.ps_leaves.specs.Leaves.{access_of, leaf_operands, all_live, need_live, leaving_leaf, run_of, leaving_run};

use frame_bytes::Space;
use ldb_words::Kind;
use ps_places::{error_of, kind_named, space_name, text_of};
use ps_step::fault::{PsError, PsFault};
use ps_step::machine::PsCore;
use ps_step::operands::pair_of;
use ps_store::{DictId, PsObj, PsStore};
use ps_words::word_in;
use table_model::{Found, Lack};
use table_types::{byte_run, check_found, check_type, kind_live, offset_of, type_live};

/// What an access takes: a leaf of a kind, or the leaves of a type.
#[derive(Clone, Copy)]
pub enum Access {
    OfKind(Kind),
    OfType(DictId),
}

/// The access that an object names: a type, or the name of a kind.
fn access_of(store: &PsStore, object: PsObj) -> Result<Access, PsError>
    ensures { result ≡ access_of store.now object }
{
    match object {
        PsObj::Dict(t) => match check_type(store, t) {
            Ok(()) => Ok(Access::OfType(t)),
            Err(lack) => Err(error_of(lack)),
        },
        other => {
            let text = text_of(store, other)?;
            let kind = kind_named(store.string_get(text))?;
            Ok(Access::OfKind(kind))
        }
    }
}

/// The pointer and the access that `Leaf` takes.
pub fn leaf_operands(core: &PsCore) -> Result<(u32, Access), PsError>
    ensures asked { result ≡ leaf_operands core.now }
    ensures enough { OnOk result (2 ≤ length core.now.operands) }
{
    let (pointer, access) = pair_of(&core.operands)?;
    let pointer = word_in(pointer)?;
    let access = access_of(&core.store, access)?;
    Ok((pointer, access))
}

/// Whether each leaf of an access is live where a pointer leads.
fn all_live(store: &PsStore, found: Option<Found>, access: Access) -> Result<bool, Lack>
    ensures { result ≡ all_live store.now found access }
{
    check_found(store, found)?;
    match access {
        Access::OfKind(kind) => kind_live(store, found, kind, offset_of(found)),
        Access::OfType(t) => type_live(store, found, t, offset_of(found)),
    }
}

/// Checks that each leaf of an access is live where a pointer leads.
fn need_live(store: &PsStore, found: Option<Found>, access: Access) -> Result<(), PsError>
    ensures { result ≡ need_live store.now found access }
{
    match all_live(store, found, access) {
        Ok(true) => Ok(()),
        Ok(false) => Err(PsError::Pointer),
        Err(lack) => Err(error_of(lack)),
    }
}

/// `Leaf`, where a pointer's object was found: the place in memory. The error pointer comes where a leaf of the kind or the type is not
/// live there. An error leaves the state as it was.
pub fn leave_leaf(core: &mut PsCore, found: Option<Found>) -> Result<(), PsFault>
    ensures does { Does result core.old core.new (leaving_leaf found core.old) }
    ensures closed { closed_part core.new.store ≡ closed_part core.old.store }
{
    let (pointer, access) = leaf_operands(core)?;
    need_live(&core.store, found, access)?;
    core.operands.replace(2, space_name(Space::Memory));
    core.operands.push(PsObj::Int(pointer.cast_signed()))?;
    Ok(())
}

/// The number of bytes of a run, as an object.
fn run_of(store: &PsStore, found: Option<Found>) -> Result<PsObj, PsError>
    ensures { result ≡ run_of store.now found }
{
    match byte_run(store, found) {
        Ok(count) => {
            if count > 2_147_483_647 {
                return Err(PsError::RangeCheck);
            }
            Ok(PsObj::Int(count as i32))
        }
        Err(lack) => Err(error_of(lack)),
    }
}

/// `charrun`, where a pointer's object was found: the number of Byte leaves from the pointer on. rangecheck comes where no integer holds
/// it. An error leaves the state as it was.
pub fn leave_run(core: &mut PsCore, found: Option<Found>) -> Result<(), PsFault>
    requires { 1 ≤ length core.old.operands }
    ensures does { Does result core.old core.new (leaving_run found core.old) }
    ensures closed { closed_part core.new.store ≡ closed_part core.old.store }
{
    let count = run_of(&core.store, found)?;
    core.operands.replace(1, count);
    Ok(())
}
