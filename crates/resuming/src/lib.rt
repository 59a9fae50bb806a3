//! A resume of one side of a session over a link, up to its event.
#![tactic(auto)]

mod dropped;
mod fault;
mod run;
mod writing;

pub use dropped::Dropped;
pub use fault::RunFault;
pub use run::run_to_event;
