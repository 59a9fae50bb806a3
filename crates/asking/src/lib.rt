//! The commands of a session that don't resume, on one side: what they ask of its table and its target, and what they say.
#![tactic(auto)]

mod breaks;
mod frames;
mod lines;
mod parts;
mod raw;
mod shown;

pub use breaks::{breaking, clearing};
pub use frames::{choosing, listing};
pub use raw::{registers, running_text};
pub use shown::{begin_talk, printing, procedure_of};
