// The instructions, by format and then by op3 (SPARC V8 manual, appendices B and F).

use crate::condition::Condition;
use crate::field::{Displacement22, Displacement30, Immediate22, Register};
use crate::operand::{Operand, ShiftOperand, TrapOperand};

/// An instruction, with the fields that it uses.
#[derive(Clone, Copy, Debug)]
pub enum Insn {
    /// Call, and leave the address of the call in `%o7`.
    Call {
        displacement: Displacement30,
    },
    /// Branch on a condition; with the annul bit the delay slot may be skipped.
    Bicc {
        annul: bool,
        condition: Condition,
        displacement: Displacement22,
    },
    /// Set the highest 22 bits of rd, and clear the rest.
    Sethi {
        rd: Register,
        immediate: Immediate22,
    },
    /// Add.
    Add {
        rd: Register,
        rs1: Register,
        operand: Operand,
    },
    /// Bitwise and.
    And {
        rd: Register,
        rs1: Register,
        operand: Operand,
    },
    /// Bitwise or.
    Or {
        rd: Register,
        rs1: Register,
        operand: Operand,
    },
    /// Bitwise exclusive or.
    Xor {
        rd: Register,
        rs1: Register,
        operand: Operand,
    },
    /// Subtract.
    Sub {
        rd: Register,
        rs1: Register,
        operand: Operand,
    },
    /// Bitwise and with the operand inverted.
    Andn {
        rd: Register,
        rs1: Register,
        operand: Operand,
    },
    /// Bitwise or with the operand inverted.
    Orn {
        rd: Register,
        rs1: Register,
        operand: Operand,
    },
    /// Bitwise exclusive or with the operand inverted.
    Xnor {
        rd: Register,
        rs1: Register,
        operand: Operand,
    },
    /// Multiply without a sign; the high word goes to Y.
    Umul {
        rd: Register,
        rs1: Register,
        operand: Operand,
    },
    /// Multiply with a sign; the high word goes to Y.
    Smul {
        rd: Register,
        rs1: Register,
        operand: Operand,
    },
    /// Divide Y and rs1 without a sign.
    Udiv {
        rd: Register,
        rs1: Register,
        operand: Operand,
    },
    /// Divide Y and rs1 with a sign.
    Sdiv {
        rd: Register,
        rs1: Register,
        operand: Operand,
    },
    /// Subtract, and set the codes.
    Subcc {
        rd: Register,
        rs1: Register,
        operand: Operand,
    },
    /// Shift left.
    Sll {
        rd: Register,
        rs1: Register,
        count: ShiftOperand,
    },
    /// Shift right, filled with zeros.
    Srl {
        rd: Register,
        rs1: Register,
        count: ShiftOperand,
    },
    /// Shift right, filled with the sign.
    Sra {
        rd: Register,
        rs1: Register,
        count: ShiftOperand,
    },
    /// Read Y.
    Rdy {
        rd: Register,
    },
    /// Write Y with the exclusive or of rs1 and the operand.
    Wry {
        rs1: Register,
        operand: Operand,
    },
    /// Jump to rs1 and the operand, and leave the address of the jump in rd.
    Jmpl {
        rd: Register,
        rs1: Register,
        operand: Operand,
    },
    /// Trap on a condition.
    Ticc {
        condition: Condition,
        rs1: Register,
        operand: TrapOperand,
    },
    /// Add, and go to the window below.
    Save {
        rd: Register,
        rs1: Register,
        operand: Operand,
    },
    /// Add, and go to the window above.
    Restore {
        rd: Register,
        rs1: Register,
        operand: Operand,
    },
    /// Load a word.
    Ld {
        rd: Register,
        rs1: Register,
        operand: Operand,
    },
    /// Load a byte without a sign.
    Ldub {
        rd: Register,
        rs1: Register,
        operand: Operand,
    },
    /// Load a halfword without a sign.
    Lduh {
        rd: Register,
        rs1: Register,
        operand: Operand,
    },
    /// Store a word.
    St {
        rd: Register,
        rs1: Register,
        operand: Operand,
    },
    /// Store a byte.
    Stb {
        rd: Register,
        rs1: Register,
        operand: Operand,
    },
    /// Store a halfword.
    Sth {
        rd: Register,
        rs1: Register,
        operand: Operand,
    },
    /// Load a byte with its sign.
    Ldsb {
        rd: Register,
        rs1: Register,
        operand: Operand,
    },
    /// Load a halfword with its sign.
    Ldsh {
        rd: Register,
        rs1: Register,
        operand: Operand,
    },
}
