//! What a table's text comes to.
#![tactic(auto)]

mod laws;

pub use laws::{counted_tables_come, tables_are_run, tables_come};
