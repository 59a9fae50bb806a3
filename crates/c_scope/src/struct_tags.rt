// The numbers of the structs that tags name.
ghost use Rattle.std.specs.Prelude.{◌≡◌, ◌<◌, ◌^◌, ℕ, List, length, map, IfOk};
ghost use Rattle.c_defs.specs.Numbers.{Finds};
ghost use Rattle.c_scope.specs.StructTags.{text};

use c_defs::Numbers;
use ldb_words::Text;
use std::alloc::{AllocError, Global};
use std::marker::Model;

/// The tags of a program in order, of which none is there twice. The number of a tag is found in the time of a look-up in an ordered map.
#[derive(Drop)]
pub struct StructTags<'a> {
    numbers: Numbers<'a>,
    texts: Vec<&'a Text>,
    count: u32,
}

impl<'a> Model for StructTags<'a> {
    ghost use Rattle.std.specs.Prelude.{◌≡◌, ℕ, List, length, map};
    ghost use Rattle.c_defs.specs.Numbers.{Finds};
    ghost use Rattle.c_scope.specs.StructTags.{text};

    ghost Value = { List (List ℕ) };

    ghost view = { λ t. map text t.texts.items };

    ghost invariant = { λ t. Finds t.numbers (map text t.texts.items) × (t.count ≡ length (map text t.texts.items)) };
}

impl<'a> StructTags<'a> {
    /// The number of a tag is its place. Where it is there twice, the first place counts.
    pub fn new(alloc: Global, texts: Vec<&'a Text>) -> Result<StructTags<'a>, AllocError>
        requires { length texts.items < 2 ^ 32 }
        ensures { IfOk result (λ t. t ≡ map text texts.entry.items) }
    {
        let count = texts.len() as u32;
        let numbers = numbered(alloc, &texts)?;
        Ok(StructTags {
            numbers,
            texts,
            count,
        })
    }

    /// How many there are.
    pub fn count(&self) -> u32
        ensures { result ≡ length self.now }
    {
        self.count
    }

    /// Their numbers.
    pub fn numbers(&self) -> &Numbers<'a>
        ensures { Finds result.now self.now }
    {
        &self.numbers
    }
}

/// The numbers of texts: the first of two that are the same counts.
fn numbered<'a>(alloc: Global, texts: &[&'a Text]) -> Result<Numbers<'a>, AllocError>
    requires { length texts.now < 2 ^ 32 }
    ensures { IfOk result (λ m. Finds m (map text texts.now)) }
{
    let mut numbers = Numbers::new(alloc);
    let mut i = texts.len();
    'numbering: while i > 0 {
        i -= 1;
        let text: &'a Text = texts[i];
        numbers.set(text.as_bytes(), i as u32)?;
    }
    Ok(numbers)
}
