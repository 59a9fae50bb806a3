//! Whether slot code can be made of a checked program.
#![tactic(auto)]

mod lowerable;

pub use lowerable::is_lowerable;
