//! Laws of printing under the debugger's dialect: what the prelude's printers append, whichever functions of units are run on the way.
#![tactic(auto)]

mod laws;

pub use laws::{dialect_prints, places_are_read, units_settle, values_are_printed};
