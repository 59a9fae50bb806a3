//! Reads a symbol table.
#![tactic(auto)]

mod functions;
mod points;
mod reading;
mod saved;
mod symbols;

pub use functions::{function_at, functions_of, units_of};
pub use points::{point_address, point_at, point_below, point_of, point_of_row, points_of};
pub use reading::{
    dict_at, dict_in, dict_or_null, entry, items_at, items_in, number_at, number_in, procedure_at,
    string_at, top_of,
};
pub use saved::kept_at;
pub use symbols::{scope_of, uplink_of};
