//! Flat code of slot code: where locals and temporaries lie in a frame, and the flat operators of each slot operator.
#![tactic(auto)]

mod codes;
mod emit;
mod functions;
mod layout;
mod movers;
mod whole;
mod within;

pub use layout::{GREATEST_FRAME, Layout, layout_of};
pub use whole::flat_code;
