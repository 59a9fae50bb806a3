//! Debugging sessions over a program of C: what each command answers, and which transcripts are allowed.
#![tactic(auto)]

mod command;
mod laws;

pub use command::{Command, Reply, Spot};
pub use laws::{
    ended_sessions_refuse, refused_commands_change_nothing, resumes_have_one_event,
    sessions_follow_a_run,
};
