// Names and what they stand for.

use c_tree::CType;
use ldb_words::Text;

/// A name in scope: its type, which of a function is that of its result, whether it was declared `register`, and whether it is a function's.
#[derive(Drop)]
pub struct Symbol {
    pub name: Text,
    pub ctype: CType,
    pub register: bool,
    pub function: bool,
}
