//! The nub: it answers messages for a machine of any target.
#![tactic(auto)]

mod counted;
mod nub;

pub use counted::Told;
pub use nub::Nub;
