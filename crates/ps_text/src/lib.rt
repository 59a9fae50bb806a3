//! Texts of programs as terms.
#![tactic(auto)]

mod laws;

pub use laws::terms_are_read;
