//! Runs of a step function, from stopping point to stopping point, with assignments made at the stops; and how the runs of one machine answer those of another.
#![tactic(auto)]

mod laws;

pub use laws::one_event;
