//! Flat code: what a function does as operators over bytes at addresses, two scratch words and eight registers. It knows the addresses and the byte order of a target, and none of its instructions.
#![tactic(auto)]

mod code;
mod moves;

pub use code::{FlatCode, FlatFunction, FlatOp, Landing, Request, Scratch};
pub use moves::{MoveStep, Mover};
