//! Frames of a stack, from the innermost one outwards.
#![tactic(auto)]

mod fetching;
mod places;
mod saving;
mod walker;
mod windows;

pub use walker::{first, row_of_target, up};
