//! What no machine changes: its target, and so the order of its bytes; and, while it runs, its text.
#![tactic(auto)]

mod laws;

pub use laws::machines_stay_steady;
