//! Generated programs, and the commands of a session over each.
//!
//! Proved of `make`: the program and the commands of a number are those of the definition.
#![tactic(auto)]

mod commands;
mod lines;
mod made;
mod program;
mod words;

pub use made::{Made, make};
