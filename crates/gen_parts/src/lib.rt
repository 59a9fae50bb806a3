//! The object of flat code, for any target that says by its `Coder` which instructions it makes of each part: its text, the names of functions, static objects and structs, uses, static objects, and rows of functions.
#![tactic(auto)]

mod coder;
mod copies;
mod functions;
mod names;
mod object;
mod parts;
mod rows;
mod statics;
mod uses;

pub use coder::{Coder, Shape};
pub use object::object_of;
pub use rows::{Spots, row_of};
