//! Machines of both targets: what they do by their target byte, and the machine that an image starts.
#![tactic(auto)]

mod laws;

pub use laws::machines_stay_sound;
