//! Functions that let trees go. A crate proves the drop of each type that it drops, also of one of a lower crate; what it hands over to these functions
//! it does not drop. Each calls `drop`, since a parameter that a body merely leaves is dropped there variant by variant.
#![tactic(auto)]

use c_declaration::{FileParser, LocalParser, ReadHead, ReadLocal};
use c_tree::{Program, Typed};
use c_trees::expression::Expr;
use c_trees::unit::Unit;

/// Lets an expression go.
pub fn discard_expr(expr: Expr) {
    drop(expr);
}

/// Lets a checked expression go.
pub fn discard_typed(typed: Typed) {
    drop(typed);
}

/// Lets a declaration in a block go.
pub fn discard_local(local: ReadLocal) {
    drop(local);
}

/// Lets what was read of a declaration in a block go.
pub fn discard_local_parser(parser: LocalParser) {
    drop(parser);
}

/// Lets a declaration at file scope go, or what stands before the body of a function.
pub fn discard_head(head: ReadHead) {
    drop(head);
}

/// Lets what was read of a declaration at file scope go.
pub fn discard_file_parser(parser: FileParser) {
    drop(parser);
}

/// Lets a translation unit go.
pub fn discard_unit(unit: Unit) {
    drop(unit);
}

/// Lets translation units go.
pub fn discard_units(units: Vec<Unit>) {
    drop(units);
}

/// Lets a checked program go.
pub fn discard_program(program: Program) {
    drop(program);
}
