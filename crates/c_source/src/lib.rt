//! What a program of C does, step by step, and what an expression means in an activation.
#![tactic(auto)]

mod laws;

pub use laws::{assignments_are_of_leaves, steps_give_the_assignment, steps_give_the_meaning};
