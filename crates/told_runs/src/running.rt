// A run over a memory.

ghost use Rattle.std.specs.Prelude.{◌-◌, ◌≤◌};
ghost use Rattle.ps_run.specs.Runs.{RunsObject};
ghost use Rattle.told_runs.specs.Told.{Does};

use abs_mem::AbsMem;
use ps_ops::Operators;
use ps_run::{PsCore, PsFault, Steps, run};
use ps_store::PsObj;

/// Runs an object under a command's operators, on an execution stack of its own. What the interpreter did is a run of which the laws
/// speak. For who reads these: the program calls `run` itself.
pub fn run_over<W: AbsMem + Drop>(
    core: &mut PsCore,
    operators: &mut Operators<W>,
    what: PsObj,
    steps: &mut Steps,
) -> Result<(), PsFault>
    requires { steps.old.taken ≤ steps.old.limit }
    ensures { RunsObject (Does W.seen W.leads) (steps.old.limit - steps.old.taken) what operators.old core.old result (steps.new.limit - steps.new.taken) operators.new core.new }
{
    run(core, operators, what, steps)
}
