//! The instructions of the R3000 and what each does.
#![tactic(auto)]

mod codec;
mod decoded;
mod field;
mod hazard;
mod insn;
mod laws;

pub use codec::{decode, encode};
pub use decoded::Decoded;
pub use field::{Register, ShiftAmount, Target};
pub use hazard::is_hazard;
pub use insn::Insn;
pub use laws::machines_stay_sound;
