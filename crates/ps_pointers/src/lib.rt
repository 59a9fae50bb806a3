//! Operators of a PostScript dialect on pointers, by the objects to which they belong.
#![tactic(auto)]

mod pointers;

pub use pointers::{
    comparison_operands, difference_operands, leave_difference, leave_order, leave_sum,
    sum_operands,
};
