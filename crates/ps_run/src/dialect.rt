//! Operators beyond those of the first list.

ghost use Rattle.ps_store.specs.Store.{closed_part};
ghost use Rattle.std.specs.Prelude.{◌≡◌, ◌≤◌, ◌-◌, ℕ, Err};
ghost use Rattle.std.proofs.Common.{refl, ◌∙◌};
ghost use Rattle.ps_store.specs.StoreState.{Closed};
ghost use Rattle.ps_step.specs.declared.machine.PsCore.{PsCore};
ghost use Rattle.ps_step.specs.declared.fault.PsError.TheVariants.{Undefined as NotKnown};
ghost use Rattle.ps_step.specs.declared.fault.PsFault.TheVariants.{Error as Raised, Spent as OutOfSteps};
ghost use Rattle.ps_run.specs.Runs.{Answer};

use ps_step::fault::{PsError, PsFault};
use ps_step::machine::PsCore;

/// How many steps were taken, and how many may be.
#[derive(Clone, Copy, Debug)]
pub struct Steps {
    pub taken: u32,
    pub limit: u32,
}

/// A dialect's operators, by their numbers in its list.
pub trait Dialect {
    /// What an operator may do: from the dialect, the state and the steps that are left to its answer, and these three after it.
    ghost operates: { Self → PsCore → ℕ → ℕ → Answer → Self → PsCore → ℕ → Type 0 };

    /// What may become of what is closed of the store while operators run, as `Settled` of ps_store: from before it to after it.
    ghost remains: { Closed → Closed → Type 0 };

    /// Runs an operator.
    fn operate(&mut self, core: &mut PsCore, op: u16, steps: &mut Steps) -> Result<(), PsFault>
        requires { steps.old.taken ≤ steps.old.limit }
        ensures operates { operates self.old core.old op (steps.old.limit - steps.old.taken) result self.new core.new (steps.new.limit - steps.new.taken) }
        ensures limit { steps.new.limit ≡ steps.old.limit }
        ensures within { steps.new.taken ≤ steps.new.limit }
        ensures spent { result ≡ Err OutOfSteps → steps.new.taken ≡ steps.new.limit }
        ensures closed { remains (closed_part core.old.store) (closed_part core.new.store) }
        ensures more { steps.old.taken ≤ steps.new.taken };

    /// Where nothing changes it remains.
    ghost stays: { (p : Closed) → remains p p };

    /// What remains twice remains.
    ghost goes_on: { (p q r : Closed) → remains p q → remains q r → remains p r };
}

/// No operators beyond the first list.
#[derive(Clone, Copy, Debug)]
pub struct NoDialect;

impl Dialect for NoDialect {
    ghost operates = { λ d c op left answer d' c' left'. (answer ≡ Err (Raised NotKnown)) × (c' ≡ c) × (left' ≡ left) };

    ghost remains = { λ p q. q ≡ p };

    fn operate(&mut self, _core: &mut PsCore, _op: u16, _steps: &mut Steps) -> Result<(), PsFault> {
        Err(PsFault::Error(PsError::Undefined))
    }

    ghost stays = { λ p. refl };

    ghost goes_on = { λ p q r first second. second ∙ first };
}
