//! What a table's units come to.
#![tactic(auto)]

mod laws;

pub use laws::{units_are_forced, units_come};
