// Given runs, taken apart.

ghost use Rattle.std.specs.Prelude.{◌≡◌, ◌<◌, ◌≤◌, ℕ, suc, Ok};
ghost use Rattle.ps_store.specs.declared.object.PsObj.{PsObj};
ghost use Rattle.ps_step.specs.declared.machine.PsCore.{PsCore};
ghost use Rattle.ps_run.specs.Step.{Ended, step};
ghost use Rattle.ps_run.specs.Runs.{Answer, Runs, RunsObject};
ghost use Rattle.ps_run.specs.Passes.{Left, Finished, TakesNone, Over};

use crate::dialect::Dialect;

/// What a run did, by its first step: it is spent where none is left, and else the step was made, and the rest follows.
pub fn runs_are_taken_apart<D: Dialect>()
    ensures { (n : ℕ) (d : D) (c : PsCore) (r : Answer) (m : ℕ) (d' : D) (c' : PsCore) → Runs D.operates n d c r m d' c' → Left D.operates n d c r m d' c' }
{}

/// Where nothing is left to be executed, the run ends.
pub fn runs_end<D: Dialect>()
    ensures { (n : ℕ) (d : D) (c c₁ : PsCore) (r : Answer) (m : ℕ) (d' : D) (c' : PsCore) → step c ≡ Ended c₁ → Runs D.operates (suc n) d c r m d' c' → Finished (suc n) d c₁ r m d' c' }
{}

/// A run takes no steps back, and one that ran an object to its end took some.
pub fn runs_take_steps<D: Dialect>()
    ensures fewer { TakesNone D.operates → (n : ℕ) (d : D) (c : PsCore) (r : Answer) (m : ℕ) (d' : D) (c' : PsCore) → Runs D.operates n d c r m d' c' → m ≤ n }
    ensures some { TakesNone D.operates → (n : ℕ) (x : PsObj) (d : D) (c : PsCore) (m : ℕ) (d' : D) (c' : PsCore) → RunsObject D.operates n x d c (Ok tt) m d' c' → m < n }
{}

/// Where each operator of one dialect is one of another that shows a part of it, so is each run.
pub fn runs_are_mapped<D: Dialect, E: Dialect>()
    ensures { (f : D → E) → Over D.operates E.operates f → (n : ℕ) (d : D) (c : PsCore) (r : Answer) (m : ℕ) (d' : D) (c' : PsCore) → Runs D.operates n d c r m d' c' → Runs E.operates n (f d) c r m (f d') c' }
{}
