//! How a side of a debugger's session stands for a side of the machine session: what it keeps, its nub and its machine.
#![tactic(auto)]

mod laws;

pub use laws::{
    asks_are_meant, calls_are_told, commands_are_meant, resumes_are_answered, resumes_are_meant,
    sides_are_prepared, sides_stand, steps_are_meant, texts_store_numbers,
};
