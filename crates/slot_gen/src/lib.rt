//! Slot code of checked programs.
#![tactic(auto)]

mod blocks;
mod emit;
mod expressions;
mod functions;
mod jumps;
mod labels;
mod laws;
mod loops;
mod lowering;
mod operands;
mod places;
mod registers;
mod rows;
mod statements;
mod translate;
mod within;

pub use laws::{
    code_of_an_expression_is_short, code_takes_few_temporaries, rows_are_the_code,
    slot_code_keeps_the_run,
};
pub use lowering::lower;
