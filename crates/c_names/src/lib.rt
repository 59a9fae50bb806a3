//! The names and tags that an expression mentions, in the order of its text.
#![tactic(auto)]

mod mention;

pub use mention::{Mention, mentions};
