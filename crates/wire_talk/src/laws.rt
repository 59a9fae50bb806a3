// What holds of a resume over nubs that meet their definition.

ghost use Rattle.machine_state.specs.State.{Behaviour};
ghost use Rattle.wire_talk.specs.Resuming.{ResumptionLaw};

/// From a side at rest, under any schedule, the messages of a `Resumption` are, one by one, what the run of the machine comes
/// to: its output, and then its end, behind which the side is idle again. No bad reply comes.
pub fn resumptions_tell_runs()
    ensures { (b : Behaviour) → ResumptionLaw b }
{}
