// What holds of machines of both targets.

ghost use Rattle.targets.specs.Targets.{machine_behaviour};
ghost use Rattle.steady_machines.specs.Steady.{KeepsOrders, RunsAreSteady};

/// A machine keeps the order of its bytes, whatever is done to it. No instruction stores into the text, nor does a flush of windows
/// or the save of a context block: a run leaves the text as it was.
pub fn machines_stay_steady()
    ensures order { KeepsOrders machine_behaviour }
    ensures runs { RunsAreSteady machine_behaviour }
{}
