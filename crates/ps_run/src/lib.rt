//! Runs of programs of a PostScript dialect.
#![tactic(auto)]

pub mod dialect;
mod laws;
pub mod running;
pub mod scan;
pub mod step;

pub use dialect::{Dialect, NoDialect, Steps};
pub use laws::{runs_are_mapped, runs_are_taken_apart, runs_end, runs_take_steps};
pub use ps_step::fault::{PsError, PsFault};
pub use ps_step::machine::PsCore;
pub use running::run;
