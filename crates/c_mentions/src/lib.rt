//! The strings and the tags of structs that a part of a program mentions, in the order of the text.
#![tactic(auto)]

mod literals;
mod numbering;
mod tags;
mod texts;

pub use literals::{Literal, in_declarator, in_tree};
pub use numbering::literal_numbers;
pub use tags::in_externals;
pub use texts::{strings_in_declarator, strings_in_spec};
