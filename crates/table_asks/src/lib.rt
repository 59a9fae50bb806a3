//! How a command asks a symbol table: look-ups, over a target's memory, with the units run that they meet.
#![tactic(auto)]

mod every;
mod fault;
mod frames;
mod inquiry;
mod points;
mod walks;

pub use every::every_point;
pub use fault::{AskFault, Cause, fault_of_run, memory_fault, raised};
pub use frames::{frame_found, frame_told, scope_found, symbol_found};
pub use inquiry::{
    Inquiry, begin_command, begin_run, end_command, run_object, settle, settle_walk, stand_on,
};
pub use points::{body_told, line_told};
pub use table_points::{Point, told_frame};
