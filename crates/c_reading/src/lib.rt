//! What the texts of a session over a program of C are: tokens, grammar, names at a stopping point, and typing.
#![tactic(auto)]

mod laws;

pub use laws::{readings_agree, readings_keep_rules, readings_mean_the_same};
