// A target as it makes code.

use crate::rows::Spots;
use flat_ir::{FlatFunction, FlatOp, MoveStep};
use ldb_words::Order;
use obj_file::FunctionRow;
use slot_ir::SlotFunction;
use std::alloc::{AllocError, Global};

/// What a target's code is like: its target byte and byte order; which instruction, counted from 0, of the choice of a copy's direction jumps to the copy that descends, and which of a conditional jump is the jump; and whether a return is a jump to the function's end, by its second instruction.
#[derive(Clone, Copy)]
pub struct Shape {
    pub target: u8,
    pub order: Order,
    pub choice_jump: u32,
    pub jump_word: u32,
    pub returns_by_end: bool,
}

/// A target by its instructions. Each call appends instructions.
pub trait Coder {
    ghost use Rattle.std.specs.Prelude.{◌≡◌, ◌++◌, IfOk, OnOk};
    ghost use Rattle.gen_parts.specs.Coding.{Coding};
    ghost use Rattle.gen_parts.specs.Rows.{row};

    type Insn: Copy;

    /// What it makes of the parts of a text.
    ghost coding: { Coding Self.Insn };

    fn shape() -> Shape
        ensures { result ≡ coding.shape };

    /// The bytes of an instruction's word, in the target's order.
    fn put_word(bytes: &mut Vec<u8>, insn: Self::Insn) -> Result<(), AllocError>
        ensures { OnOk result (bytes.new.items ≡ bytes.old.items ++ coding.bytes_of insn) };

    /// The start of a program.
    fn put_start(code: &mut Vec<Self::Insn>) -> Result<(), AllocError>
        ensures { OnOk result (code.new.items ≡ code.old.items ++ coding.start) };

    /// The beginning of a function.
    fn put_prologue(code: &mut Vec<Self::Insn>, frame: u32) -> Result<(), AllocError>
        ensures { OnOk result (code.new.items ≡ code.old.items ++ coding.prologue frame) };

    /// An operator in a frame of so many bytes.
    fn put_op(code: &mut Vec<Self::Insn>, frame: u32, op: &FlatOp) -> Result<(), AllocError>
        ensures { OnOk result (code.new.items ≡ code.old.items ++ coding.operator frame op.now) };

    /// The end of a function.
    fn put_epilogue(code: &mut Vec<Self::Insn>, frame: u32) -> Result<(), AllocError>
        ensures { OnOk result (code.new.items ≡ code.old.items ++ coding.epilogue frame) };

    /// The choice of a copy's direction, for a struct of a size.
    fn put_choice(code: &mut Vec<Self::Insn>, size: u32) -> Result<(), AllocError>
        ensures { OnOk result (code.new.items ≡ code.old.items ++ coding.choice size) };

    /// The beginning of a copy in a direction.
    fn put_copy_begin(code: &mut Vec<Self::Insn>) -> Result<(), AllocError>
        ensures { OnOk result (code.new.items ≡ code.old.items ++ coding.copy_begin) };

    /// A step of a copy, behind another.
    fn put_step(
        code: &mut Vec<Self::Insn>,
        back: bool,
        before: MoveStep,
        step: MoveStep,
    ) -> Result<(), AllocError>
        ensures { OnOk result (code.new.items ≡ code.old.items ++ coding.step back before step) };

    /// The end of a copy in a direction.
    fn put_copy_end(code: &mut Vec<Self::Insn>) -> Result<(), AllocError>
        ensures { OnOk result (code.new.items ≡ code.old.items ++ coding.copy_end) };

    /// The row of a function, with the registers that it saves.
    fn row(
        alloc: Global,
        slots: &SlotFunction,
        function: &FlatFunction,
        spots: &Spots,
    ) -> Result<FunctionRow, AllocError>
        ensures { IfOk result (λ r. r ≡ row slots.now function.now spots.now.entry spots.now.end spots.now.places.now coding.saved) };
}
