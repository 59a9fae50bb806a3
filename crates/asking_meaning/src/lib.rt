//! What the commands that ask one side are to the machine session.
#![tactic(auto)]

mod laws;

pub use laws::{
    breakpoints_are_meant, breakpoints_are_told, frames_are_meant, frames_are_told, print_is_told,
    registers_are_meant, texts_are_meant,
};
