//! The instructions of SPARC V8 and what each does.
#![tactic(auto)]

mod arithmetic;
mod codec;
mod condition;
mod decoded;
mod field;
mod hazard;
mod insn;
mod laws;
mod operand;

pub use arithmetic::{quotient_signed, quotient_unsigned, subtraction_codes};
pub use codec::{decode, encode};
pub use condition::Condition;
pub use decoded::Decoded;
pub use field::{
    Displacement22, Displacement30, Immediate22, Register, ShiftCount, Simm13, TrapNumber,
};
pub use hazard::is_hazard;
pub use insn::Insn;
pub use laws::machines_stay_sound;
pub use operand::{Operand, ShiftOperand, TrapOperand};
