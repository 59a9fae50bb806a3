//! The step of a PostScript dialect: the state of a run, and what each operator does to it.
#![tactic(auto)]

pub mod arithmetic;
pub mod array_operators;
pub mod compare;
pub mod composites;
pub mod control_operators;
pub mod copy_operators;
pub mod dictionary_operators;
pub mod execute;
pub mod fault;
pub mod item;
pub mod keys;
pub mod machine;
pub mod marks;
pub mod operands;
pub mod operator;
pub mod stack;
pub mod stack_operators;
pub mod string_operators;
pub mod text;
pub mod value_operators;
pub mod values;
