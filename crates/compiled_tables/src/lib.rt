//! What the tables of compiled programs come to.
#![tactic(auto)]

mod laws;

pub use laws::{compiled_tables_come, compiled_units_run, programs_are_affordable};
