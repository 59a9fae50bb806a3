//! Laws of runs of PostScript over the memory of a target.
#![tactic(auto)]

mod laws;
mod running;

pub use laws::{runs_are_told, runs_fare_as_the_dialects, short_runs_are_told};
pub use running::run_over;
