// What an expression stands among.

use crate::symbol::Symbol;
use c_defs::{Numbers, StructsView};
use c_tree::CType;
use ldb_words::Many;
use std::collections::BTreeMap;

/// What an expression stands among, as a view of what its owner keeps and may change between two expressions. The number of a name is that of its row
/// in `rows`, and the number of a tag that of its struct in `defs`.
#[derive(Drop)]
pub struct Scope<'a, 'n> {
    pub names: &'a Numbers<'n>,
    pub tags: &'a Numbers<'n>,
    /// The number of the struct that a tag names which is not among `tags`.
    pub incomplete: u32,
    pub rows: &'a [Symbol],
    /// The parameters' types of each row that is a function.
    pub parameters: &'a [Many<CType>],
    /// The number of the string literal at each offset.
    pub literals: &'a BTreeMap<u32, u32>,
    pub defs: StructsView<'a, 'n>,
    /// Whether the parameters are known, so that calls are asked for them.
    pub asks: bool,
}
