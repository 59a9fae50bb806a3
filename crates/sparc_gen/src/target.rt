// SPARC as a target of code.
ghost use Rattle.std.specs.Prelude.{◌≡◌, ◌++◌, OnOk};
ghost use Rattle.sparc_gen.specs.Coding.{sparc};

use crate::frames::put_prologue;
use crate::instructions::{call, no_op, trap};
use crate::movers::{put_choice, put_copy_begin, put_copy_end, put_step};
use crate::operators::put_op;
use crate::registers::EXIT;
use crate::writing::put_all;
use flat_ir::{FlatFunction, FlatOp, MoveStep};
use gen_parts::{Coder, Shape, Spots, row_of};
use ldb_words::Order;
use machine_state::SPARC;
use obj_file::FunctionRow;
use slot_ir::SlotFunction;
use sparc_isa::{Insn, encode};
use std::alloc::{AllocError, Global};

/// The target.
pub struct Sparc;

impl Coder for Sparc {
    type Insn = Insn;

    ghost coding = { sparc };

    fn shape() -> Shape {
        Shape {
            target: SPARC,
            order: Order::Big,
            choice_jump: 10,
            jump_word: 3,
            returns_by_end: false,
        }
    }

    fn put_word(bytes: &mut Vec<u8>, insn: Insn) -> Result<(), AllocError> {
        bytes.extend_from_slice(&encode(insn).to_be_bytes())?;
        Ok(())
    }

    /// `main` is called, and the program exits with what it gives.
    fn put_start(code: &mut Vec<Insn>) -> Result<(), AllocError> {
        put_all(code, &[call(), no_op(), trap(EXIT)])
    }

    fn put_prologue(code: &mut Vec<Insn>, frame: u32) -> Result<(), AllocError> {
        put_prologue(code, frame)
    }

    fn put_op(code: &mut Vec<Insn>, frame: u32, op: &FlatOp) -> Result<(), AllocError> {
        put_op(code, frame, op)
    }

    /// Each return leaves the function, so nothing comes behind its operators.
    fn put_epilogue(_code: &mut Vec<Insn>, _frame: u32) -> Result<(), AllocError> {
        Ok(())
    }

    fn put_choice(code: &mut Vec<Insn>, size: u32) -> Result<(), AllocError> {
        put_choice(code, size)
    }

    fn put_copy_begin(code: &mut Vec<Insn>) -> Result<(), AllocError> {
        put_copy_begin(code)
    }

    fn put_step(
        code: &mut Vec<Insn>,
        back: bool,
        _before: MoveStep,
        step: MoveStep,
    ) -> Result<(), AllocError> {
        put_step(code, back, step)
    }

    fn put_copy_end(code: &mut Vec<Insn>) -> Result<(), AllocError> {
        put_copy_end(code)
    }

    fn row(
        alloc: Global,
        slots: &SlotFunction,
        function: &FlatFunction,
        spots: &Spots,
    ) -> Result<FunctionRow, AllocError> {
        row_of(alloc, slots, function, spots, &[])
    }
}
