//! Tables of test rows. A table is a text: a line `KIND TEXT => ANSWER` is a row, an empty line or one that begins with
//! `#` is a remark. docs/TESTS.md has the escapes of the text.
#![tactic(auto)]

mod escapes;
mod table;

pub use escapes::{append_escaped, parts_of};
pub use table::{Subject, append, numbers, part, run_tables};
