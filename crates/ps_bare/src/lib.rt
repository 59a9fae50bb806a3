//! The dialect of PostScript where there is no target, as while a table runs, and the functions of a unit that are run under it.
#![tactic(auto)]

mod dialect;
mod objects;
mod places;
mod texts;
mod unit;
mod words;

pub use dialect::NoTarget;
pub use unit::force_unit;
pub use words::run_on_words;
