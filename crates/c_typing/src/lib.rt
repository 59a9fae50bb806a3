//! The typing rules of C, on checked trees: when an expression, a statement, a declaration and a whole program are well typed.
#![tactic(auto)]

mod constant;
mod laws;

pub use constant::Constant;
pub use laws::{complete_types, same_types};
