// How a function begins.
ghost use Rattle.std.specs.Prelude.{◌≡◌, ◌++◌, OnOk};
ghost use Rattle.sparc_gen.specs.Frames.{below_insns, room_insns, prologue};

use crate::instructions::{add, branch, by_register, no_op, save, sub, subcc, trap};
use crate::registers::{A, B, LOWEST_STACK_POINTER, MORE_STACK, OWN, STACK_POINTER, ZERO};
use crate::writing::{put, put_all, put_word};
use sparc_isa::{Condition, Insn};
use std::alloc::AllocError;

/// Minus the frame's bytes in A, and the new stack pointer in B.
fn put_below(code: &mut Vec<Insn>, frame: u32) -> Result<(), AllocError>
    ensures { OnOk result (code.new.items ≡ code.old.items ++ below_insns frame) }
{
    put_word(code, A, frame)?;
    put_all(
        code,
        &[
            sub(A, ZERO, by_register(A)),
            add(B, STACK_POINTER, by_register(A)),
        ],
    )
}

/// The request for more stack, where B is below the lowest stack pointer.
fn put_room(code: &mut Vec<Insn>) -> Result<(), AllocError>
    ensures { OnOk result (code.new.items ≡ code.old.items ++ room_insns) }
{
    put_word(code, OWN, LOWEST_STACK_POINTER)?;
    put_all(
        code,
        &[
            subcc(ZERO, B, by_register(OWN)),
            branch(Condition::CarryClear, 3),
            no_op(),
            trap(MORE_STACK),
        ],
    )
}

/// The beginning of a function: where the stack has no room for its frame it asks for more; then its frame and its window begin. The question comes before SAVE, so each window's stack pointer lies in the stack.
pub fn put_prologue(code: &mut Vec<Insn>, frame: u32) -> Result<(), AllocError>
    ensures { OnOk result (code.new.items ≡ code.old.items ++ prologue frame) }
{
    put_below(code, frame)?;
    put_room(code)?;
    put(code, save(STACK_POINTER, STACK_POINTER, by_register(A)))
}
