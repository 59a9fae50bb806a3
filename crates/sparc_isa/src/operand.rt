// The second operand of an instruction: a register or an immediate, by bit 13 (SPARC V8 manual, section 5.1).

use crate::field::{Register, ShiftCount, Simm13, TrapNumber};

/// The second operand of arithmetic, of an address, and of JMPL, SAVE and RESTORE.
#[derive(Clone, Copy, Debug)]
pub enum Operand {
    Register(Register),
    Immediate(Simm13),
}

/// The count of a shift; of a register only the lowest 5 bits count.
#[derive(Clone, Copy, Debug)]
pub enum ShiftOperand {
    Register(Register),
    Immediate(ShiftCount),
}

/// What is added to a register for the number of a trap, of which only the lowest 7 bits count.
#[derive(Clone, Copy, Debug)]
pub enum TrapOperand {
    Register(Register),
    Immediate(TrapNumber),
}
