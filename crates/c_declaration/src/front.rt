// The `*` before a declarator.

use c_lex::Place;

/// The `*` before a declarator, one at least: where the first stands, and how many there are.
#[derive(Clone, Copy)]
pub struct Stars {
    pub place: Place,
    pub count: u64,
}
