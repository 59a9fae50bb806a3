// Jumps, whose places are written once they are known.
ghost use Rattle.std.specs.Prelude.{◌≡◌, ◌<◌, ◌+◌, List, [], ◌∷◌, ◌++◌, IfOk, OnOk, length};
ghost use Rattle.slot_ir.specs.declared.code.SlotOp.{SlotOp};
ghost use Rattle.slot_ir.specs.declared.code.SlotOp.TheVariants.{Jump, JumpIfZero, Unary};
ghost use Rattle.slot_ir.specs.declared.code.UnaryWordOp.TheVariants.{Truth};
ghost use Rattle.slot_gen.specs.Expressions.{choice_code, and_code, or_code};

use crate::emit::{next, place, put};
use slot_ir::{SlotOp, UnaryWordOp};
use std::alloc::AllocError;

/// Another operator at a place in the code.
pub fn patch(code: &mut Vec<SlotOp>, at: u32, op: SlotOp)
    requires { at < length code.old.items }
    ensures same { length code.new.items ≡ length code.old.items }
    ensures there { (before rest : List SlotOp) (x : SlotOp) → code.old.items ≡ before ++ x ∷ rest → length before ≡ at → code.new.items ≡ before ++ op ∷ rest }
{
    code[at as usize] = op;
}

/// A jump whose place is not known yet. Gives where it stands.
pub fn put_jump(code: &mut Vec<SlotOp>) -> Result<u32, AllocError>
    ensures there { IfOk result (λ at. at ≡ length code.old.items) }
    ensures one { OnOk result (code.new.items ≡ code.old.items ++ Jump 0 ∷ []) }
{
    let at = place(code)?;
    put(code, SlotOp::Jump { place: 0 })?;
    Ok(at)
}

/// The same where a temporary is zero.
pub fn put_test(code: &mut Vec<SlotOp>, d: u32) -> Result<u32, AllocError>
    ensures there { IfOk result (λ at. at ≡ length code.old.items) }
    ensures one { OnOk result (code.new.items ≡ code.old.items ++ JumpIfZero d 0 ∷ []) }
{
    let at = place(code)?;
    put(code, SlotOp::JumpIfZero { at: d, place: 0 })?;
    Ok(at)
}

/// The end of `&&`, whose left operand was tested at this place and whose right operand follows the test.
pub fn end_and(code: &mut Vec<SlotOp>, d: u32, test: u32) -> Result<(), AllocError>
    requires { test < length code.old.items }
    ensures { (before b : List SlotOp) (x : SlotOp) → code.old.items ≡ before ++ x ∷ b → length before ≡ test → OnOk result (code.new.items ≡ before ++ and_code test d b) }
{
    let target = put_truth(code, d)?;
    put(code, SlotOp::Const { to: d, bits: 0 })?;
    patch(
        code,
        test,
        SlotOp::JumpIfZero {
            at: d,
            place: target,
        },
    );
    Ok(())
}

/// The end of `||`, whose left operand was tested at this place and whose right operand follows the test.
pub fn end_or(code: &mut Vec<SlotOp>, d: u32, test: u32) -> Result<(), AllocError>
    requires { test < length code.old.items }
    ensures { (before b : List SlotOp) (x : SlotOp) → code.old.items ≡ before ++ x ∷ b → length before ≡ test → OnOk result (code.new.items ≡ before ++ or_code test d b) }
{
    let target = put_truth(code, d)?;
    put(code, SlotOp::Const { to: d, bits: 1 })?;
    patch(
        code,
        test,
        SlotOp::JumpIfNotZero {
            at: d,
            place: target,
        },
    );
    Ok(())
}

/// The truth of the right operand of `&&` or `||`, and a jump past the constant that follows. Gives the constant's place.
fn put_truth(code: &mut Vec<SlotOp>, d: u32) -> Result<u32, AllocError>
    ensures there { IfOk result (λ at. at ≡ length code.old.items + 2) }
    ensures two { OnOk result (code.new.items ≡ code.old.items ++ Unary d Truth ∷ Jump (length code.old.items + 3) ∷ []) }
{
    put(
        code,
        SlotOp::Unary {
            at: d,
            op: UnaryWordOp::Truth,
        },
    )?;
    let over = place(code)?;
    let target = next(over)?;
    put(
        code,
        SlotOp::Jump {
            place: next(target)?,
        },
    )?;
    Ok(target)
}

/// The end of a choice that was tested at this place, where the jump behind its first part stands at another.
pub fn end_choice(code: &mut Vec<SlotOp>, d: u32, test: u32, over: u32) -> Result<(), AllocError>
    requires test { test < length code.old.items }
    requires over { over < length code.old.items }
    ensures { (before a b : List SlotOp) (x y : SlotOp) → code.old.items ≡ before ++ x ∷ (a ++ y ∷ b) → length before ≡ test → test + 1 + length a ≡ over → OnOk result (code.new.items ≡ before ++ choice_code test d a b) }
{
    let target = next(over)?;
    let end = place(code)?;
    patch(
        code,
        test,
        SlotOp::JumpIfZero {
            at: d,
            place: target,
        },
    );
    patch(code, over, SlotOp::Jump { place: end });
    Ok(())
}
