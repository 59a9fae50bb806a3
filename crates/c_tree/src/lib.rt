//! Types of C with their sizes and leaves, the checked trees, and the rows of a program.
#![tactic(auto)]

mod layout;
mod rows;
mod typed;
mod types;

pub use layout::{
    LARGEST, LeafFault, TooBig, leaves, leaves_are_aligned, leaves_ascend, leaves_fill, members,
    size_of,
};
pub use rows::{Function, Local, ObjectRow, Point, Program, Referent, Start, SymbolRow, UnitRow};
pub use typed::{BinaryOp, DeclaredLocal, Head, Pointed, Site, StepOp, Stmt, Typed, UnaryOp};
pub use types::{CType, Leaf, Member, StructDef};
