// What declarators declare.

use c_tree::CType;
use ldb_words::Text;

/// A parameter: its name where it has one, its type, and whether it has `register`.
#[derive(Drop)]
pub struct Parameter<'a> {
    pub name: Option<&'a Text>,
    pub ctype: CType,
    pub register: bool,
}

/// An object, or a function with its result and its parameters.
#[derive(Drop)]
pub enum Shape<'a> {
    Object(CType),
    Function(CType, Vec<Parameter<'a>>),
}
