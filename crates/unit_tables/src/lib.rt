//! What a unit of a table does when its functions are run.
#![tactic(auto)]

mod laws;

pub use laws::{
    functions_are_forced, symbols_are_defined, tables_are_furnished, units_are_bounded,
    units_are_run, units_follow,
};
