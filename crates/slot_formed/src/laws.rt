// What holds of the slot code of accepted programs.
ghost use Rattle.std.specs.Prelude.{◌≤◌, ◌*◌};
ghost use Rattle.c_tree.specs.declared.rows.Program.{Program};
ghost use Rattle.c_typing.specs.Programs.{KeepsRules};
ghost use Rattle.slot_ir.specs.declared.code.SlotCode.{SlotCode};
ghost use Rattle.slot_ir.specs.WellFormed.{operators_of_a_token, weight_in, IsWellFormed};
ghost use Rattle.slot_gen.specs.Correct.{IsCodeOf, Lowers};
ghost use Rattle.slot_gen.specs.Rows.{HasRowsOf, IsLowerable};
ghost use Rattle.slot_pointers.specs.Taken.{TakesPointers};
ghost use Rattle.slot_formed.specs.Code.{IsProgramCode, program_code};
ghost use Rattle.slot_formed.specs.Passed.{CallsStandBehindTheirPoints};
ghost use Rattle.slot_formed.specs.Tokens.{program_tokens};

use c_tree::{leaves_are_aligned, leaves_ascend, leaves_fill};
use slot_gen::{
    code_of_an_expression_is_short, code_takes_few_temporaries, slot_code_keeps_the_run,
};

/// A slot code of a program weighs at most so much for each token that the program is written with: an operator weighs 1, a call 1 more for each argument, and a function 16 more. So it has at most so many operators.
pub fn code_of_a_program_is_short()
    ensures { (p : Program) (c : SlotCode) → IsProgramCode p c → weight_in c ≤ operators_of_a_token * program_tokens p }
{
    code_of_an_expression_is_short();
}

/// A slot code of an accepted program that is written with at most 40,000 tokens is well formed.
pub fn code_is_well_formed()
    ensures { (p : Program) (c : SlotCode) → KeepsRules p → IsProgramCode p c → program_tokens p ≤ 40000 → IsWellFormed c }
{
    code_of_a_program_is_short();
    leaves_ascend();
    leaves_are_aligned();
    leaves_fill();
}

/// An accepted program has a slot code, and each of them passes the program's stopping points in order, with the same objects, activations, output and exit number, for every input and all assignments made at the stops, up to the program's first undefined step; and it shows nothing else.
pub fn accepted_code_keeps_the_run()
    ensures there { (p : Program) → KeepsRules p → IsProgramCode p (program_code p) }
    ensures rows { (p : Program) (c : SlotCode) → KeepsRules p → IsProgramCode p c → IsCodeOf p c }
    ensures run { (p : Program) (c : SlotCode) → KeepsRules p → IsProgramCode p c → Lowers p c }
{
    leaves_ascend();
    code_takes_few_temporaries();
    slot_code_keeps_the_run();
}

/// No step of a run of an accepted program's slot code takes a number but 0 as a pointer, for every input and all assignments made at the stops. An integer stands for a pointer only in a null constant, whose code comes to 0; what is read, moved or converted as a pointer is one.
pub fn numbers_taken_are_zero()
    ensures { (p : Program) (c : SlotCode) → KeepsRules p → IsProgramCode p c → TakesPointers c }
{
    leaves_ascend();
}

/// While a call goes on, the calling activation stands behind the point that it passed last: no other stop stands between that of its point and the place where it goes on.
pub fn calls_stand_behind_their_points()
    ensures { (p : Program) (c : SlotCode) → IsProgramCode p c → CallsStandBehindTheirPoints c }
{}

/// An accepted program can be lowered: its structs stand as the layout has them, its objects hold what their types say, and it has a `main` without parameters.
pub fn accepted_programs_are_lowerable()
    ensures { (p : Program) → KeepsRules p → IsLowerable p }
{
    leaves_ascend();
}

/// A code that has an accepted program's rows is a code of the program: its points are numbered one after another, and the stop of each stands in its function's code.
pub fn accepted_rows_are_the_code()
    ensures { (p : Program) (c : SlotCode) → KeepsRules p → HasRowsOf p c → IsProgramCode p c }
{
    leaves_ascend();
}
