//! Operators of a PostScript dialect on words: C's arithmetic on `int` and `unsigned`.
#![tactic(auto)]

mod operators;
mod words;

pub use operators::{compare_unsigned, error_of, negate, run_on_two, word_in};
pub use words::WordOperator;
