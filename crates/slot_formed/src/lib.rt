//! The slot code of an accepted program is well formed, and takes no number but 0 as a pointer.
#![tactic(auto)]

mod laws;
mod whole;

pub use laws::{
    accepted_code_keeps_the_run, accepted_programs_are_lowerable, accepted_rows_are_the_code,
    calls_stand_behind_their_points, code_is_well_formed, code_of_a_program_is_short,
    numbers_taken_are_zero,
};
pub use whole::lower_accepted;
