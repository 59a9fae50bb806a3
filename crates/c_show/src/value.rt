// The text of a value.
ghost use Rattle.std.specs.Prelude.{◌≡◌, IfOk};
ghost use Rattle.c_show.specs.Printed.{shown};
ghost use Rattle.c_show.specs.Seen.{all_told};

use crate::Held;
use crate::page::{Page, put_within};
use c_tree::{CType, StructDef};
use ldb_words::Text;
use std::alloc::{AllocError, Global};

/// The most items that are shown.
const MOST: u32 = 1000;

/// The deepest that a type may be.
const DEEPEST: u32 = 64;

/// The text of a value of this type, of which these are the leaves in order. A type is at most 64 deep: what lies deeper is left out.
/// Numbers are decimal, a pointer is a label and an offset, an array of `char` a string, and another array or a struct a list in braces. At most 1,000 items are shown.
pub fn show(alloc: Global, t: &CType, defs: &[StructDef], held: &[Held]) -> Result<Text, AllocError>
    ensures { IfOk result (λ text. text ≡ shown defs.now t.now (all_told held.now)) }
{
    let mut page = Page {
        text: Text::new(alloc),
        room: MOST,
    };
    put_within(alloc, &mut page, t, defs, held, DEEPEST)?;
    Ok(page.text)
}
