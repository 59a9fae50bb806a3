// What holds of runs.
ghost use Rattle.std.specs.Prelude.{◌≡◌, ℕ, Bool};
ghost use Rattle.runs.specs.Runs.{Next, Event, RunsTo};

/// A run has one first event, and comes to it after one count, however many steps one looks at.
pub fn one_event<S>()
    ensures count { (step : S → Next S) (stops : ℕ → Bool) (s : S) (c d : ℕ) (e f : Event S) → RunsTo S step stops s c e → RunsTo S step stops s d f → c ≡ d }
    ensures event { (step : S → Next S) (stops : ℕ → Bool) (s : S) (c d : ℕ) (e f : Event S) → RunsTo S step stops s c e → RunsTo S step stops s d f → e ≡ f }
{}
