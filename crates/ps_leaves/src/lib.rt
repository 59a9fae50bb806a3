//! Operators of a PostScript dialect on what a pointer leads to: live leaves, runs of bytes, and the form of a pointer.
#![tactic(auto)]

mod forms;
mod leaves;

pub use forms::put_pointer;
pub use leaves::{Access, leaf_operands, leave_leaf, leave_run};
