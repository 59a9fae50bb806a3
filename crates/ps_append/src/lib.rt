//! Operators of a PostScript dialect that append text: strings, characters, and strings that lie in a memory.
#![tactic(auto)]

mod append;
mod characters;
mod operators;

pub use characters::{put_chars, string_place};
pub use operators::{put, put_char};
