//! The symbol table of a program, as a text of PostScript.
#![tactic(auto)]

mod functions;
mod laws;
mod placement;
mod places;
mod symbols;
mod tables;
mod terms;
mod types;
mod words;

pub use laws::items_are_short;
pub use placement::Placement;
pub use tables::table;
