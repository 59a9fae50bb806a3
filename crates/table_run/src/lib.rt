//! A table's text is run behind the prelude, and what it leaves is looked over.
#![tactic(auto)]

mod run;
mod shape;

pub use run::{TableFault, run_table};
