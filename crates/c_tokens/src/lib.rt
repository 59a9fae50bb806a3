//! A checked program is written with at most the tokens of its files, and its names are identifiers.
#![tactic(auto)]

mod laws;

pub use laws::{names_are_identifiers, programs_have_few_tokens};
