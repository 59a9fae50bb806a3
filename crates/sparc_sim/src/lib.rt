//! A simulator of SPARC V8: each step is the definition's.
#![tactic(auto)]

mod machine;
mod target;
mod windows;

pub use machine::Machine;
