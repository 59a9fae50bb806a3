// What was read so far of a unit.

use c_declaration::FileParser;
use c_expr::Boxed;
use c_lex::Place;
use c_statement::Reader;
use c_trees::declaration::FunctionHead;
use c_trees::unit::External;
use ldb_words::Many;

/// The external declarations that were read, or where the first one begins that is nested too deeply.
#[derive(Drop)]
pub enum Kept {
    All(Many<External>),
    TooDeep(Place),
}

/// What may come next.
#[derive(Drop)]
pub enum Mode {
    /// An external declaration, or the end of the unit
    Between,
    /// What goes on with a declaration, or with what stands before a function's body
    Heading(Boxed<FileParser>),
    /// What goes on with a function's body: where the definition and its `{` begin, and what stands before that
    Body(Place, Place, Option<Boxed<FunctionHead>>, Boxed<Reader>),
}

/// What was read so far of a unit.
#[derive(Drop)]
pub struct UnitParser {
    pub kept: Kept,
    pub mode: Mode,
}
