//! Typing of expressions of C (C90 6.3): what the rules make of operands, and what constant expressions make of numbers.
#![tactic(auto)]

mod beside;
mod calls;
mod check;
mod expr;
mod fault;
mod forbidden;
mod forms;
mod leaf;
mod limits;
mod names;
mod nodes;
mod operators;
mod pairs;
mod part;
mod place;
mod rules;
mod scope;
mod session;
mod symbol;
mod types;
mod values;

pub use c_typing::Constant;
pub use check::{Mode, check_expr, check_in};
pub use expr::{judge, written_type};
pub use fault::{ExprFault, Fault};
pub use leaf::spec_type;
pub use limits::{array, bounded, limited, pointer, pointers};
pub use names::unknown;
pub use pairs::pair;
pub use part::{Facts, Part};
pub use place::place_of;
pub use rules::{
    address_type, arrow_type, assignment_type, binary_type, cast_type, choice_type, comma_type,
    compound_type, converts, dot_type, followed, head_of, index_type, is_null, logical_type,
    may_drop, step_type, type_of, unary_type,
};
pub use scope::Scope;
pub use session::{number_names, number_tags, session_scope};
pub use symbol::Symbol;
pub use types::{
    array_of, copied, is_complete, is_integer, is_scalar, is_void, pointer_to, same, value_type,
};
pub use values::{both, chosen, combined, converted, either, turned};
