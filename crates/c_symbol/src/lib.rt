//! Tokens as the grammar of C sees them: symbols with their places and texts, adjacent string literals joined (C90 5.1.1.2, phases 6 and 7).
#![tactic(auto)]

mod symbol;
mod terminal;

pub use symbol::{
    Access, AssignOp, BinaryOp, LeafKind, PrefixOp, Step, Symbol, TypeWord, symbol_of,
};
pub use terminal::{Joiner, Terminal, joined_one_by_one, terminal_of};
