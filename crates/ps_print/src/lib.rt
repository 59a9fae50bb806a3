//! The prelude: procedures of a PostScript dialect that print values by the dictionaries of their types.
#![tactic(auto)]

mod laws;
mod load;
mod prelude;

pub use laws::{prelude_is_loaded, values_are_printed};
pub use load::load_prelude;
pub use prelude::{PRELUDE, prelude_text};
