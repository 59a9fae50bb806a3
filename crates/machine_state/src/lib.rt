//! A machine as contracts see it, whichever its target, and the memory that both machines have.
#![tactic(auto)]

mod bytes;
mod layout;
mod memory;
mod number;
mod target;
mod turns;

pub use bytes::tell_bytes;
pub use layout::{
    CONTEXT, CONTEXT_SIZE, CONTEXT_WORDS, DATA, DATA_SIZE, FIRST_STACK_POINTER, MIPS, SPARC, STACK,
    STACK_SIZE, TEXT, Width, width_from,
};
pub use memory::Memory;
pub use target::{Cause, Target};
pub use turns::{run, turn};
