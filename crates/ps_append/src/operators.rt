// The operators that append what is among the operands.

ghost use Rattle.ps_store.specs.Store.{closed_part};
ghost use Rattle.std.specs.Prelude.{◌≡◌, ◌≤◌, ◌++◌, OnOk, length};
ghost use Rattle.std.specs.Fmt.{signed_decimal};
ghost use Rattle.ldb_words.specs.Word.{signed};
ghost use Rattle.c_tree.specs.declared.types.CType.TheVariants.{Char};
ghost use Rattle.c_show.specs.Printed.{character_text, number_text};
ghost use Rattle.c_operators.specs.Bits.{low_byte};
ghost use Rattle.ps_append.specs.Appending.{plain_text, string_text_of, char_text_of, Appends};

use crate::append::{append_plain, append_quoted, is_printable};
use ldb_words::Text;
use ps_step::fault::PsFault;
use ps_step::machine::PsCore;
use ps_step::operands::one_of;
use ps_step::values::string_of;
use ps_words::word_in;
use std::alloc::{AllocError, Global};

/// `Put`: a string's bytes. An error leaves all as it was.
pub fn put(core: &mut PsCore, out: &mut Text) -> Result<(), PsFault>
    ensures does { Appends 1 (string_text_of core.old) out.old core.old result out.new core.new }
    ensures closed { closed_part core.new.store ≡ closed_part core.old.store }
{
    let x = one_of(&core.operands)?;
    let (t, _) = string_of(x)?;
    append_plain(out, core.store.string_get(t))?;
    core.operands.take(1);
    Ok(())
}

/// Adds a blank and a character in quotes, where it is printable.
fn append_character(out: &mut Text, byte: u8) -> Result<(), AllocError>
    ensures { OnOk result (out.new ≡ out.old ++ character_text byte) }
{
    if !is_printable(byte) {
        return Ok(());
    }
    out.append(b" '")?;
    append_quoted(out, b'\'', byte)?;
    out.append(b"'")
}

/// Adds the form of the `char` that the lowest byte of a word is.
fn append_char(alloc: Global, out: &mut Text, word: u32) -> Result<(), AllocError>
    ensures { OnOk result (out.new ≡ out.old ++ number_text Char (low_byte word)) }
{
    let byte = (word % 256) as u8;
    let bits = i32::from(byte.cast_signed()).cast_unsigned();
    let number = bits.cast_signed();
    let digits = format!(in alloc; "{number}")?;
    out.append(digits.as_bytes())?;
    append_character(out, (bits % 256) as u8)
}

/// `PutChar`: the form of a `char`. An error leaves all as it was.
pub fn put_char(core: &mut PsCore, out: &mut Text) -> Result<(), PsFault>
    ensures does { Appends 1 (char_text_of core.old) out.old core.old result out.new core.new }
    ensures closed { closed_part core.new.store ≡ closed_part core.old.store }
{
    let x = one_of(&core.operands)?;
    let word = word_in(x)?;
    append_char(core.operands.allocator(), out, word)?;
    core.operands.take(1);
    Ok(())
}
