//! Trees of units.

use crate::declaration::{FunctionHead, Head};
use crate::statement::Statement;
use ldb_words::Many;

/// An external declaration (C90 6.7): a declaration, or the definition of a function, whose body is a block.
#[derive(Drop)]
pub enum External {
    Declaration(Head),
    Definition(FunctionHead, Statement),
}

/// A translation unit (C90 6.7), which has at least one external declaration.
#[derive(Drop)]
pub struct Unit {
    pub externals: Many<External>,
}
