// The jumps of loops and `switch`.
ghost use Rattle.std.specs.Prelude.{◌≡◌, ◌<◌, ℕ, ◌+◌, List, [], ◌∷◌, ◌++◌, Bool, true, false, Option, is_some, IfOk, OnOk, length, option_map, if◌then◌else◌};
ghost use Rattle.c_tree.specs.declared.typed.Pointed.{Pointed as TestPart};
ghost use Rattle.c_tree.specs.declared.rows.Program.{Program};
ghost use Rattle.slot_ir.specs.declared.code.SlotOp.{SlotOp};
ghost use Rattle.slot_ir.specs.declared.code.SlotOp.TheVariants.{Const, Jump, JumpIfZero, Leave};
ghost use Rattle.slot_gen.specs.Statements.{Target, part_code, test_code, loop_test, loop_body, loop_code, first_target, switch_code, seek_code, end_place, in_loop as inside_loop, in_switch as inside_switch};
ghost use Rattle.slot_gen.specs.Emission.{around_of, first_place};

use crate::blocks::{emit_part, emit_test};
use crate::emit::{next, place, put};
use crate::jumps::{patch, put_jump};
use crate::within::Within;
use c_tree::Pointed;
use slot_ir::SlotOp;
use std::alloc::AllocError;

/// Where a `return` goes on.
const END: u32 = 2;

/// Where `break` and `continue` go, and how many locals are in scope there.
#[derive(Clone, Copy)]
pub struct Around {
    pub leave: u32,
    pub leave_scope: u32,
    pub again: u32,
    pub again_scope: u32,
}

/// Inside a loop that begins at a place, with so many locals in scope.
pub fn in_loop(start: u32, scope: u32) -> Result<Around, AllocError>
    ensures { IfOk result (λ r. around_of r ≡ inside_loop start scope) }
{
    let leave = next(start)?;
    Ok(Around {
        leave,
        leave_scope: scope,
        again: next(leave)?,
        again_scope: scope,
    })
}

/// Inside a `switch` that begins at a place, with so many locals in scope.
pub fn in_switch(start: u32, scope: u32, around: Around) -> Result<Around, AllocError>
    ensures { IfOk result (λ r. around_of r ≡ inside_switch start scope (around_of around)) }
{
    Ok(Around {
        leave: next(start)?,
        leave_scope: scope,
        again: around.again,
        again_scope: around.again_scope,
    })
}

/// `break` or `continue`: blocks are left, and a jump.
pub fn put_leave(code: &mut Vec<SlotOp>, scope: u32, place: u32) -> Result<(), AllocError>
    ensures { OnOk result (code.new.items ≡ code.old.items ++ Leave scope ∷ Jump place ∷ []) }
{
    put(code, SlotOp::Leave { scope })?;
    put(code, SlotOp::Jump { place })
}

/// The jump to the function's end.
pub fn put_return(code: &mut Vec<SlotOp>) -> Result<(), AllocError>
    ensures { OnOk result (code.new.items ≡ code.old.items ++ Jump end_place ∷ []) }
{
    put(code, SlotOp::Jump { place: END })
}

/// The end of a `return` without an expression.
pub fn put_nothing(code: &mut Vec<SlotOp>) -> Result<(), AllocError>
    ensures { OnOk result (code.new.items ≡ code.old.items ++ Const 0 0 ∷ Jump end_place ∷ []) }
{
    put(code, SlotOp::Const { to: 0, bits: 0 })?;
    put_return(code)
}

/// Where a loop and its test and its body begin, and whether it has a test.
#[derive(Clone, Copy)]
pub struct Loop {
    pub start: u32,
    pub test: u32,
    pub body: u32,
    pub tests: bool,
}

/// A loop up to its body: two jumps whose places are not known yet, its third part, and its test.
pub fn begin_loop(
    within: &Within,
    code: &mut Vec<SlotOp>,
    third: Option<&Pointed>,
    q: Option<&Pointed>,
) -> Result<Loop, AllocError>
    ensures start { IfOk result (λ l. l.start ≡ length code.old.items) }
    ensures test { IfOk result (λ l. l.test ≡ loop_test within.now.program.now within.now.number (length code.old.items) (option_map (λ r. r.now) third.entry)) }
    ensures body { IfOk result (λ l. l.body ≡ loop_body within.now.program.now within.now.number (length code.old.items) (option_map (λ r. r.now) third.entry) (option_map (λ r. r.now) q.entry)) }
    ensures tests { IfOk result (λ l. l.tests ≡ is_some q.entry) }
    ensures code { OnOk result (code.new.items ≡ code.old.items ++ Jump 0 ∷ Jump 0 ∷ (part_code within.now.program.now within.now.number (length code.old.items + 2) (option_map (λ r. r.now) third.entry) ++ test_code within.now.program.now within.now.number (loop_test within.now.program.now within.now.number (length code.old.items) (option_map (λ r. r.now) third.entry)) (option_map (λ r. r.now) q.entry) 0)) }
{
    let start = put_jump(code)?;
    put(code, SlotOp::Jump { place: 0 })?;
    emit_part(within, code, third)?;
    let test = place(code)?;
    emit_test(within, code, q)?;
    let body = place(code)?;
    Ok(Loop {
        start,
        test,
        body,
        tests: q.is_some(),
    })
}

/// The jump of a loop's test, which stands before the body, goes to an end.
fn put_exit(code: &mut Vec<SlotOp>, tests: bool, body: u32, end: u32)
    ensures none { tests ≡ false → code.new.items ≡ code.old.items }
    ensures some { (before rest : List SlotOp) (x : SlotOp) → tests ≡ true → code.old.items ≡ before ++ x ∷ rest → length before + 1 ≡ body → code.new.items ≡ before ++ JumpIfZero 0 end ∷ rest }
{
    if tests && body > 0 && body as usize <= code.len() {
        patch(code, body - 1, SlotOp::JumpIfZero { at: 0, place: end });
    }
}

/// The end of a loop: a jump to its third part, and the places of its other jumps.
pub fn end_loop(code: &mut Vec<SlotOp>, l: Loop, first: bool) -> Result<(), AllocError>
    requires { l.start + 1 < length code.old.items }
    ensures { (p : Program) (f : ℕ) (t q : Option TestPart) (before body : List SlotOp) → code.old.items ≡ before ++ Jump 0 ∷ Jump 0 ∷ (part_code p f (l.start + 2) t ++ (test_code p f l.test q 0 ++ body)) → length before ≡ l.start → l.test ≡ loop_test p f l.start t → l.body ≡ loop_body p f l.start t q → l.tests ≡ is_some q → OnOk result (code.new.items ≡ before ++ loop_code p f l.start first t q body) }
{
    let leave = next(l.start)?;
    let again = next(leave)?;
    put(code, SlotOp::Jump { place: again })?;
    let end = place(code)?;
    patch(
        code,
        l.start,
        SlotOp::Jump {
            place: entry(l, first),
        },
    );
    patch(code, leave, SlotOp::Jump { place: end });
    put_exit(code, l.tests, l.body, end);
    Ok(())
}

/// Where a loop is entered: at its test where that is first, and else at its body.
fn entry(l: Loop, first: bool) -> u32
    ensures { result ≡ if first then l.test else l.body }
{
    if first { l.test } else { l.body }
}

/// Where a `switch` goes on whose labels have other constants: at `default`, or behind its statements.
fn default_place(default: Option<u32>, over: u32) -> u32
    ensures { (places : List ℕ) → default ≡ first_place places → result ≡ first_target over places }
{
    match default {
        None => over,
        Some(place) => place,
    }
}

/// The end of a `switch`: a jump past its end, its labels, and the places of its other jumps.
pub fn end_switch(
    code: &mut Vec<SlotOp>,
    start: u32,
    labels: &[SlotOp],
    default: Option<u32>,
) -> Result<(), AllocError>
    requires { start + 1 < length code.old.items }
    ensures { (before body : List SlotOp) (targets : List Target) (places : List ℕ) → code.old.items ≡ before ++ Jump 0 ∷ Jump 0 ∷ body → length before ≡ start → labels.now ≡ seek_code targets → default ≡ first_place places → OnOk result (code.new.items ≡ before ++ switch_code start body targets places) }
{
    let leave = next(start)?;
    let over = put_jump(code)?;
    let seek = next(over)?;
    code.extend_from_slice(labels)?;
    let rest = default_place(default, over);
    put(code, SlotOp::Jump { place: rest })?;
    let end = place(code)?;
    patch(code, start, SlotOp::Jump { place: seek });
    patch(code, leave, SlotOp::Jump { place: end });
    patch(code, over, SlotOp::Jump { place: end });
    Ok(())
}

/// So many more locals in scope.
pub fn deeper(scope: u32, more: usize) -> Result<u32, AllocError>
    ensures { IfOk result (λ n. n ≡ scope + more) }
{
    let more = u32::try_from(more).map_err(|_| AllocError)?;
    scope.checked_add(more).ok_or(AllocError)
}
