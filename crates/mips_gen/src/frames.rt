// How a function begins and ends.
ghost use Rattle.std.specs.Prelude.{◌≡◌, ◌++◌, OnOk};
ghost use Rattle.mips_gen.specs.Frames.{saves, restores, prologue, epilogue};

use crate::instructions::{addiu, addu, beq, jr, lw, no_op, sltu, subu, sw};
use crate::registers::{
    LOWEST_STACK_POINTER, MORE_STACK, OWN, OWN_TOO, RESULT, RETURN_ADDRESS, STACK_POINTER, ZERO,
};
use crate::writing::{put, put_all, put_word};
use mips_isa::Insn;
use std::alloc::AllocError;

/// The return address and the eight registers of locals are kept.
fn put_saves(code: &mut Vec<Insn>) -> Result<(), AllocError>
    ensures { OnOk result (code.new.items ≡ code.old.items ++ saves) }
{
    put_all(
        code,
        &[
            sw(RETURN_ADDRESS, STACK_POINTER, 64),
            sw(16, STACK_POINTER, 68),
            sw(17, STACK_POINTER, 72),
            sw(18, STACK_POINTER, 76),
            sw(19, STACK_POINTER, 80),
            sw(20, STACK_POINTER, 84),
            sw(21, STACK_POINTER, 88),
            sw(22, STACK_POINTER, 92),
            sw(23, STACK_POINTER, 96),
        ],
    )
}

/// They are taken back.
fn put_restores(code: &mut Vec<Insn>) -> Result<(), AllocError>
    ensures { OnOk result (code.new.items ≡ code.old.items ++ restores) }
{
    put_all(
        code,
        &[
            lw(RETURN_ADDRESS, STACK_POINTER, 64),
            lw(16, STACK_POINTER, 68),
            lw(17, STACK_POINTER, 72),
            lw(18, STACK_POINTER, 76),
            lw(19, STACK_POINTER, 80),
            lw(20, STACK_POINTER, 84),
            lw(21, STACK_POINTER, 88),
            lw(22, STACK_POINTER, 92),
            lw(23, STACK_POINTER, 96),
            no_op(),
        ],
    )
}

/// The beginning of a function: where the stack has no room for its frame it asks for more; then its frame begins, and registers are kept in it.
pub fn put_prologue(code: &mut Vec<Insn>, frame: u32) -> Result<(), AllocError>
    ensures { OnOk result (code.new.items ≡ code.old.items ++ prologue frame) }
{
    put_word(code, OWN, frame)?;
    put(code, subu(OWN, STACK_POINTER, OWN))?;
    put_word(code, OWN_TOO, LOWEST_STACK_POINTER)?;
    put_all(
        code,
        &[
            sltu(OWN_TOO, OWN, OWN_TOO),
            beq(OWN_TOO, ZERO, 3),
            no_op(),
            addiu(RESULT, ZERO, MORE_STACK),
            Insn::Syscall,
            addu(STACK_POINTER, OWN, ZERO),
        ],
    )?;
    put_saves(code)
}

/// The end of a function: the registers are taken back, and its frame ends.
pub fn put_epilogue(code: &mut Vec<Insn>, frame: u32) -> Result<(), AllocError>
    ensures { OnOk result (code.new.items ≡ code.old.items ++ epilogue frame) }
{
    put_restores(code)?;
    put_word(code, OWN, frame)?;
    put_all(
        code,
        &[
            addu(STACK_POINTER, STACK_POINTER, OWN),
            jr(RETURN_ADDRESS),
            no_op(),
        ],
    )
}
