//! In each run of slot code a leaf holds what its kind may hold: an address holds no number, and a byte or a word no address.
#![tactic(auto)]

mod laws;

pub use laws::leaves_hold_their_kind;
