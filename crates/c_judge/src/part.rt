// Parts of an expression: what the rules ask of them.

use c_tree::Typed;
use c_typing::Constant;

/// What an expression is beside its type: whether it is an lvalue, a `register` variable or a string, and what it is as a constant expression.
#[derive(Clone, Copy, Debug, PartialEq, Eq)]
pub struct Facts {
    pub lvalue: bool,
    pub register: bool,
    pub string: bool,
    pub constant: Constant,
}

/// A checked expression with what is known of it.
#[derive(Drop)]
pub struct Part {
    pub typed: Box<Typed>,
    pub facts: Facts,
}
