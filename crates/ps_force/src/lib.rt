//! Deferred entries of dictionaries: an executable string under a key is run at its first use, and what it leaves takes its place.
#![tactic(auto)]

mod entry;
mod laws;

pub use entry::force;
pub use laws::forced_entries_stay;
