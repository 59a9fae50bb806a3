// Lines with numbers in them.

ghost use Rattle.std.specs.Prelude.{◌≡◌, ◌++◌, codes, decimal, OnOk};

use ldb_words::Text;
use std::alloc::{AllocError, Global};

/// Adds a number between two texts.
pub fn add_with(
    alloc: Global,
    text: &mut Text,
    before: &str,
    number: u64,
    behind: &str,
) -> Result<(), AllocError>
    ensures { OnOk result (text.new ≡ text.old ++ (before.now ++ (decimal number ++ behind.now))) }
{
    let line = format!(in alloc; "{before}{number}{behind}")?;
    text.append(line.as_bytes())
}
