//! Runs of a program.

ghost use Rattle.ps_store.specs.Store.{closed_part};
ghost use Rattle.std.specs.Prelude.{◌≡◌, ◌≢◌, ◌≤◌, ◌-◌, [], ◌∷◌, Err};
ghost use Rattle.ps_step.specs.declared.fault.PsFault.TheVariants.{NoMemory as OutOfMemory, Spent as OutOfSteps};
ghost use Rattle.ps_step.specs.declared.item.Item.TheVariants.{Object};
ghost use Rattle.ps_step.specs.State.{with_execution};
ghost use Rattle.ps_run.specs.Runs.{Asked, Runs, RunsObject, TellsSteps, fault_with};
ghost use Rattle.ps_run.specs.Reaching.{RanShort};

use crate::dialect::{Dialect, Steps};
use crate::step::{Progress, raise, step};
use ps_step::fault::PsFault;
use ps_step::item::Item;
use ps_step::machine::PsCore;
use ps_store::PsObj;

/// Has the dialect run an operator, and raises its error.
fn ask<D: Dialect>(
    core: &mut PsCore,
    dialect: &mut D,
    op: u16,
    steps: &mut Steps,
) -> Result<(), PsFault>
    requires { steps.old.taken ≤ steps.old.limit }
    ensures closed { D.remains (closed_part core.old.store) (closed_part core.new.store) }
    ensures spent { result ≡ Err OutOfSteps → steps.new.taken ≡ steps.new.limit }
    ensures asked { Asked D.operates dialect.old core.old op (steps.old.limit - steps.old.taken) result dialect.new core.new (steps.new.limit - steps.new.taken) }
    ensures limit { steps.new.limit ≡ steps.old.limit }
    ensures within { steps.new.taken ≤ steps.new.limit }
    ensures more { steps.old.taken ≤ steps.new.taken }
{
    match dialect.operate(core, op, steps) {
        Err(PsFault::Error(error)) => {
            raise(core, error)?;
            Ok(())
        }
        other => other,
    }
}

/// What a fault is told as: where no step is left they are spent.
#[tactic(auto, using(crate::proofs::Going::spent_with, crate::proofs::Going::error_with, crate::proofs::Going::fault_kept))]
fn told(fault: PsFault, steps: &Steps) -> PsFault
    ensures { result ≡ fault_with (steps.now.limit - steps.now.taken) fault }
{
    match fault {
        PsFault::Error(_) => {
            if steps.taken < steps.limit {
                fault
            } else {
                PsFault::Spent
            }
        }
        _ => fault,
    }
}

/// Makes steps until nothing is left to be executed, or the steps are spent.
fn go<D: Dialect>(core: &mut PsCore, dialect: &mut D, steps: &mut Steps) -> Result<(), PsFault>
    requires { steps.old.taken ≤ steps.old.limit }
    ensures limit { steps.new.limit ≡ steps.old.limit }
    ensures within { steps.new.taken ≤ steps.new.limit }
    ensures more { steps.old.taken ≤ steps.new.taken }
    ensures closed { D.remains (closed_part core.old.store) (closed_part core.new.store) }
    ensures told { TellsSteps result (steps.new.limit - steps.new.taken) }
    ensures runs { result ≢ Err OutOfMemory → Runs D.operates (steps.old.limit - steps.old.taken) dialect.old core.old result (steps.new.limit - steps.new.taken) dialect.new core.new }
    ensures short { result ≡ Err OutOfMemory → RanShort D.operates (steps.old.limit - steps.old.taken) dialect.old core.old dialect.new }
{
    while steps.taken < steps.limit {
        match step(core) {
            Ok(Progress::Ended) => return Ok(()),
            Ok(Progress::Went) => steps.taken += 1,
            Ok(Progress::Asked(op)) => {
                steps.taken += 1;
                if let Err(fault) = ask(core, dialect, op, steps) {
                    return Err(told(fault, steps));
                }
            }
            Err(fault) => {
                steps.taken += 1;
                return Err(told(fault, steps));
            }
        }
    }
    Err(PsFault::Spent)
}

/// Puts an object on an empty execution stack, and makes steps.
fn start<D: Dialect>(
    core: &mut PsCore,
    dialect: &mut D,
    what: PsObj,
    steps: &mut Steps,
) -> Result<(), PsFault>
    requires empty { core.old.execution ≡ [] }
    requires within { steps.old.taken ≤ steps.old.limit }
    ensures limit { steps.new.limit ≡ steps.old.limit }
    ensures within { steps.new.taken ≤ steps.new.limit }
    ensures more { steps.old.taken ≤ steps.new.taken }
    ensures closed { D.remains (closed_part core.old.store) (closed_part core.new.store) }
    ensures told { TellsSteps result (steps.new.limit - steps.new.taken) }
    ensures runs { result ≢ Err OutOfMemory → Runs D.operates (steps.old.limit - steps.old.taken) dialect.old (with_execution core.old (Object what ∷ [])) result (steps.new.limit - steps.new.taken) dialect.new core.new }
    ensures short { result ≡ Err OutOfMemory → RanShort D.operates (steps.old.limit - steps.old.taken) dialect.old (with_execution core.old (Object what ∷ [])) dialect.new }
{
    core.execution.push(Item::Object(what))?;
    go(core, dialect, steps)
}

/// Runs an object on an execution stack of its own, and puts back the one that it found.
///
/// Error comes exactly where the step's definition raises one that no `stopped` of this run catches and steps are left,
/// Spent exactly where the steps reach their limit, and Link where an operator of the dialect answers it. Where memory
/// runs out, the dialect is as the last operators left it that the run's definition asks for, in its order. Whatever comes,
/// also then, what is closed of the store has become only what the dialect says (`remains`): under `NoDialect` it is as
/// before.
pub fn run<D: Dialect>(
    core: &mut PsCore,
    dialect: &mut D,
    what: PsObj,
    steps: &mut Steps,
) -> Result<(), PsFault>
    requires { steps.old.taken ≤ steps.old.limit }
    ensures limit { steps.new.limit ≡ steps.old.limit }
    ensures within { steps.new.taken ≤ steps.new.limit }
    ensures more { steps.old.taken ≤ steps.new.taken }
    ensures kept { core.new.execution ≡ core.old.execution }
    ensures closed { D.remains (closed_part core.old.store) (closed_part core.new.store) }
    ensures told { TellsSteps result (steps.new.limit - steps.new.taken) }
    ensures runs { RunsObject D.operates (steps.old.limit - steps.old.taken) what dialect.old core.old result (steps.new.limit - steps.new.taken) dialect.new core.new }
    ensures short { result ≡ Err OutOfMemory → RanShort D.operates (steps.old.limit - steps.old.taken) dialect.old (with_execution core.old (Object what ∷ [])) dialect.new }
{
    let outer = core.execution.take_all();
    let result = start(core, dialect, what, steps);
    core.execution = outer;
    result
}
