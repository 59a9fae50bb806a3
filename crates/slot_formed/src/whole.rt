// The slot code of an accepted program.
ghost use Rattle.std.specs.Prelude.{◌≤◌, IfOk};
ghost use Rattle.c_typing.specs.Programs.{KeepsRules};
ghost use Rattle.slot_ir.specs.WellFormed.{IsWellFormed};
ghost use Rattle.slot_gen.specs.Correct.{Lowers};
ghost use Rattle.slot_gen.specs.Rows.{HasRowsOf};
ghost use Rattle.slot_pointers.specs.Taken.{TakesPointers};
ghost use Rattle.slot_formed.specs.Passed.{CallsStandBehindTheirPoints};
ghost use Rattle.slot_formed.specs.Tokens.{program_tokens};

use crate::laws::{
    accepted_programs_are_lowerable, accepted_rows_are_the_code, calls_stand_behind_their_points,
    code_is_well_formed, numbers_taken_are_zero,
};
use c_tree::Program;
use slot_gen::lower;
use slot_ir::SlotCode;
use std::alloc::{AllocError, Global};

/// The slot code of an accepted program that is written with at most 40,000 tokens. It has the program's rows, is well formed, keeps the program's run and takes no number but 0 as a pointer; an activation that waits for a call stands behind the point that it passed last.
pub fn lower_accepted(alloc: Global, program: &Program) -> Result<SlotCode, AllocError>
    requires accepted { KeepsRules program.now }
    requires few { program_tokens program.now ≤ 40000 }
    ensures rows { IfOk result (λ code. HasRowsOf program.now code) }
    ensures formed { IfOk result (λ code. IsWellFormed code) }
    ensures runs { IfOk result (λ code. Lowers program.now code) }
    ensures pointers { IfOk result (λ code. TakesPointers code) }
    ensures behind { IfOk result (λ code. CallsStandBehindTheirPoints code) }
{
    accepted_programs_are_lowerable();
    accepted_rows_are_the_code();
    code_is_well_formed();
    numbers_taken_are_zero();
    calls_stand_behind_their_points();
    lower(alloc, program)
}
