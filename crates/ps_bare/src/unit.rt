// The functions of a unit.

ghost use Rattle.std.specs.Prelude.{◌≡◌, ◌≢◌, ◌≤◌, ◌<◌, ◌-◌, Err, OnOk, OnErr};
ghost use Rattle.ps_store.specs.Store.{closed_part};
ghost use Rattle.ps_store.specs.Settled.{Settled};
ghost use Rattle.ps_step.specs.declared.fault.PsError.{PsError};
ghost use Rattle.ps_step.specs.declared.fault.PsFault.TheVariants.{Error as Raised, Spent as OutOfSteps, Link as LinkFailed, NoMemory as OutOfMemory};
ghost use Rattle.dialect_model.specs.Forcing.{ForcesUnit};
ghost use Rattle.ps_bare.specs.Deferred.{IsDeferred, unit_of, deferred_unit};

use crate::dialect::NoTarget;
use ps_force::force;
use ps_places::error_of;
use ps_run::{PsCore, PsError, PsFault, Steps};
use ps_store::{DictId, Key, PsObj, PsStore};
use table_model::Lack;
use table_read::{dict_in, entry, units_of};

/// The dictionary of a unit whose functions are an executable string. undefined comes where the unit or the key is missing,
/// typecheck where one is of another type.
fn deferred_unit(store: &PsStore, unit: usize) -> Result<DictId, PsError>
    ensures { result ≡ deferred_unit store.now unit }
{
    match unit_of(store, unit) {
        Err(lack) => Err(error_of(lack)),
        Ok(d) => match entry(store, d, b"functions") {
            Ok(PsObj::Str(_, true)) => Ok(d),
            Ok(_) => Err(PsError::TypeCheck),
            Err(lack) => Err(error_of(lack)),
        },
    }
}

/// The dictionary of the unit with a number.
fn unit_of(store: &PsStore, unit: usize) -> Result<DictId, Lack>
    ensures { result ≡ unit_of store.now unit }
{
    let units = units_of(store)?;
    match units.get(unit) {
        Some(object) => dict_in(*object),
        None => Err(Lack::Missing),
    }
}

/// Runs the functions of a unit of the table, which are still an executable string: it is run once, where there is no target, and
/// the topmost object that it leaves takes its place, so that each later use finds that object. What it made is closed.
///
/// stackunderflow comes where it leaves nothing, typecheck where it leaves an executable string, and else the error of its run.
/// Then what is closed, with the entry, is as it was, also where memory runs out, and what the run made is dropped. Spent comes
/// exactly where the run spends the steps. The stacks are as before, whatever the answer but want of memory. Where the functions
/// are no executable string nothing is run: undefined comes where the unit or its key is missing, and else typecheck.
pub fn force_unit(core: &mut PsCore, unit: usize, steps: &mut Steps) -> Result<(), PsFault>
    requires within { steps.old.taken ≤ steps.old.limit }
    ensures limit { steps.new.limit ≡ steps.old.limit }
    ensures within { steps.new.taken ≤ steps.new.limit }
    ensures more { steps.old.taken ≤ steps.new.taken }
    ensures undeferred { (error : PsError) → deferred_unit core.old.store unit ≡ Err error → (result ≡ Err (Raised error)) × (core.new ≡ core.old) × (steps.new.taken ≡ steps.old.taken) }
    ensures some { OnOk result (steps.old.taken < steps.new.taken) }
    ensures unlinked { result ≢ Err LinkFailed }
    ensures spent { result ≡ Err OutOfSteps → steps.new.taken ≡ steps.new.limit }
    ensures stays { OnErr result (closed_part core.new.store ≡ closed_part core.old.store) }
    ensures closed { Settled (closed_part core.old.store) (closed_part core.new.store) }
    ensures others { result ≢ Err OutOfMemory → core.new ≡ record core.old { store = core.new.store } }
    ensures forces { IsDeferred core.old.store unit → result ≢ Err OutOfMemory → ForcesUnit unit core.old (steps.old.limit - steps.old.taken) result (steps.new.limit - steps.new.taken) core.new }
{
    match deferred_unit(&core.store, unit) {
        Err(error) => Err(PsFault::Error(error)),
        Ok(d) => match Key::name(b"functions") {
            None => Err(PsFault::NoMemory),
            Some(functions) => {
                let mut dialect = NoTarget { cell: 0 };
                match force(core, &mut dialect, d, &functions, steps) {
                    Ok(_) => Ok(()),
                    Err(fault) => Err(fault),
                }
            }
        },
    }
}
