//! The rows of a checked program: its objects, names and files, and how large its static data are; and the names and places that only its end tells of.
#![tactic(auto)]

mod defined;
mod linked;
mod numbering;
mod places;
mod starts;
mod static_room;
mod symbols;
mod undefined;
mod units;

pub use defined::{DefinedNames, defined_names};
pub use linked::LinkedNumbers;
pub use numbering::{bodies, numbered, objects};
pub use places::{Places, static_names};
pub use starts::{Starts, object_rows, start_numbers};
pub use static_room::room;
pub use symbols::symbol_rows;
pub use undefined::{first_past, missing};
pub use units::unit_rows;
