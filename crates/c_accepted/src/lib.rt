//! What the checker of C takes keeps to the typing rules of checked trees.
#![tactic(auto)]

mod laws;
mod program_laws;
mod text_laws;

pub use laws::judged_expressions_are_typed;
pub use program_laws::checked_programs_are_accepted;
pub use text_laws::files_are_texts;
