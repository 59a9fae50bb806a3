// What leaves hold in a run of slot code.
ghost use Rattle.slot_ir.specs.declared.code.SlotCode.{SlotCode};
ghost use Rattle.slot_ir.specs.WellFormed.{IsWellFormed};
ghost use Rattle.slot_leaves.specs.Leaves.{LeavesHoldTheirKind};

/// In each run of well-formed slot code each leaf holds what its kind may hold, for every input and all assignments made at the stops: so what is read as a pointer is no number.
pub fn leaves_hold_their_kind()
    ensures { (c : SlotCode) → IsWellFormed c → LeavesHoldTheirKind c }
{}
