// The parts of an object that are made of code.
ghost use Rattle.std.specs.Prelude.{◌≡◌, ◌*◌, [], ◌∷◌, ◌++◌, length, IfOk, OnOk};
ghost use Rattle.gen_parts.specs.Parts.{named};
ghost use Rattle.gen_parts.specs.Text.{text_bytes};

use crate::coder::Coder;
use ldb_words::Text;
use obj_file::{FunctionRow, Name, Use};
use std::alloc::{AllocError, Global};

/// The instructions of a text, with its uses, its names and its rows.
#[derive(Drop)]
pub struct Parts<T: Coder> {
    pub code: Vec<T::Insn>,
    pub uses: Vec<Use>,
    pub names: Vec<Name>,
    pub rows: Vec<FunctionRow>,
}

/// The offset of the next instruction in the text.
pub fn offset<T: Coder>(code: &[T::Insn]) -> Result<u32, AllocError>
    ensures { IfOk result (λ n. n ≡ length code.now * 4) }
{
    let words = u32::try_from(code.len()).map_err(|_| AllocError)?;
    words.checked_mul(4).ok_or(AllocError)
}

/// A name of what comes next.
pub fn add_name<T: Coder>(parts: &mut Parts<T>, name: Text) -> Result<(), AllocError>
    ensures code { OnOk result (parts.new.code.items ≡ parts.old.code.items) }
    ensures uses { OnOk result (parts.new.uses.items ≡ parts.old.uses.items) }
    ensures names { OnOk result (parts.new.names.items ≡ parts.old.names.items ++ named (length parts.old.code.items) name ∷ []) }
    ensures rows { OnOk result (parts.new.rows.items ≡ parts.old.rows.items) }
{
    let at = offset::<T>(&parts.code)?;
    parts.names.push(Name { name, at })?;
    Ok(())
}

/// The words of instructions, one after another.
pub fn text_of<T: Coder>(alloc: Global, code: &[T::Insn]) -> Result<Text, AllocError>
    ensures { IfOk result (λ t. t ≡ text_bytes T.coding code.now) }
{
    let mut bytes = Vec::new(alloc);
    for insn in code {
        T::put_word(&mut bytes, *insn)?;
    }
    Ok(Text::from_vec(bytes))
}
