//! Command lines of a session, and the commands that they are.
#![tactic(auto)]

mod command;
mod number;
mod place;
mod words;

pub use command::{CmdFault, read_command};
pub use words::is_empty;
