//! The meaning of C in one place: the commands and replies of a session, values as they are held and shown, and the definitions of
//! what a program, an expression and a session do. All of it stands in the crates below; this one gives it on.
#![tactic(auto)]

pub use c_session::{Command, Reply, Spot};
pub use c_show::{Held, show};
