//! Operators of a PostScript dialect that look names up in a table: anchors, symbols in scope, and structs.
#![tactic(auto)]

mod chain;
mod operators;

pub use chain::symbol_named;
pub use operators::{anchor, find_struct, find_symbol, top_name};
