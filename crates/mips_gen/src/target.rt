// MIPS as a target of code.
ghost use Rattle.std.specs.Prelude.{◌≡◌, ◌++◌, OnOk};
ghost use Rattle.mips_gen.specs.Coding.{mips, start_insns};

use crate::frames::{put_epilogue, put_prologue};
use crate::instructions::{addiu, addu, jal, no_op};
use crate::movers::{put_choice, put_copy_begin, put_copy_end, put_step};
use crate::operators::put_op;
use crate::registers::{ARGUMENT, EXIT, RESULT, SAVED, ZERO};
use crate::writing::put_all;
use flat_ir::{FlatFunction, FlatOp, MoveStep};
use gen_parts::{Coder, Shape, Spots, row_of};
use ldb_words::Order;
use machine_state::MIPS;
use mips_isa::{Insn, encode};
use obj_file::FunctionRow;
use slot_ir::SlotFunction;
use std::alloc::{AllocError, Global};

/// The target.
pub struct Mips;

impl Coder for Mips {
    type Insn = Insn;

    ghost coding = { mips };

    fn shape() -> Shape {
        Shape {
            target: MIPS,
            order: Order::Little,
            choice_jump: 8,
            jump_word: 2,
            returns_by_end: true,
        }
    }

    fn put_word(bytes: &mut Vec<u8>, insn: Insn) -> Result<(), AllocError> {
        bytes.extend_from_slice(&encode(insn).to_le_bytes())?;
        Ok(())
    }

    /// `main` is called, and the program exits with what it gives.
    fn put_start(code: &mut Vec<Insn>) -> Result<(), AllocError> {
        put_all(
            code,
            &[
                jal(),
                no_op(),
                addu(ARGUMENT, RESULT, ZERO),
                addiu(RESULT, ZERO, EXIT),
                Insn::Syscall,
            ],
        )
    }

    fn put_prologue(code: &mut Vec<Insn>, frame: u32) -> Result<(), AllocError> {
        put_prologue(code, frame)
    }

    fn put_op(code: &mut Vec<Insn>, frame: u32, op: &FlatOp) -> Result<(), AllocError> {
        put_op(code, frame, op)
    }

    fn put_epilogue(code: &mut Vec<Insn>, frame: u32) -> Result<(), AllocError> {
        put_epilogue(code, frame)
    }

    fn put_choice(code: &mut Vec<Insn>, size: u32) -> Result<(), AllocError> {
        put_choice(code, size)
    }

    fn put_copy_begin(code: &mut Vec<Insn>) -> Result<(), AllocError> {
        put_copy_begin(code)
    }

    fn put_step(
        code: &mut Vec<Insn>,
        back: bool,
        before: MoveStep,
        step: MoveStep,
    ) -> Result<(), AllocError> {
        put_step(code, back, before, step)
    }

    fn put_copy_end(code: &mut Vec<Insn>) -> Result<(), AllocError> {
        put_copy_end(code)
    }

    fn row(
        alloc: Global,
        slots: &SlotFunction,
        function: &FlatFunction,
        spots: &Spots,
    ) -> Result<FunctionRow, AllocError> {
        let saved = SAVED;
        row_of(alloc, slots, function, spots, &saved)
    }
}
