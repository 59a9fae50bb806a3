// What names mean.

use c_tree::CType;
use ldb_words::Many;

/// What a name means: an object with its type, or a function with its result and its parameters.
#[derive(Drop)]
pub enum Meaning {
    Object {
        ctype: CType,
        register: bool,
    },
    Function {
        result: CType,
        parameters: Many<CType>,
    },
}
