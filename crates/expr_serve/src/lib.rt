//! Expressions of C as texts of PostScript: names and tags are asked for in the order of the text, and the text that is then given
//! computes the expression by the operators of the dialect, or leaves the places and values of an assignment.
#![tactic(auto)]

mod coder;
mod emit;
mod fault;
mod laws;
mod literals;
mod operators;
mod serving;
mod types;

pub use fault::Refuse;
pub use laws::scope_is_answered;
pub use serving::{Server, Turn};
