// Where the parts of a program are.

use ldb_words::{Many, Text};
use obj_file::FunctionRow;

/// Where the parts of a program are in an image: the target byte, the address of each static object and then of each string, and each function,
/// with the addresses of its stopping points and the places of its locals, all in the program's order.
#[derive(Drop)]
pub struct Placement {
    pub target: u8,
    pub anchors: Many<(Text, u32)>,
    pub functions: Many<FunctionRow>,
}
