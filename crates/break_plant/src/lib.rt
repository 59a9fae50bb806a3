//! Breakpoints planted in the text of a target.
#![tactic(auto)]

mod planting;

pub use planting::{PlantFault, plant, resume_pc, unplant};
