// Terms at the end of a text, each with a space behind it.
ghost use Rattle.std.specs.Prelude.{◌≡◌, ◌++◌, ◌∷◌, [], pos, suc, OnOk, IfOk};
ghost use Rattle.std.specs.Fmt.{signed_decimal};
ghost use Rattle.ldb_words.specs.Word.{signed};
ghost use Rattle.ps_scan.specs.Escaping.{escaped_byte, escaped};
ghost use Rattle.ps_text.specs.Code.{Stop, Num, Word, Lit, Text as Str};
ghost use Rattle.ps_emit.specs.Grown.{Grows};
ghost use Rattle.ps_emit.specs.Terms.{anchor_name};

use itoa::Buffer;
use ldb_words::Text;
use std::alloc::AllocError;

/// Adds a word.
pub fn add_word(text: &mut Text, word: &[u8]) -> Result<(), AllocError>
    ensures { OnOk result (Grows (Word word.now Stop) text.old text.new) }
{
    text.append(word)?;
    text.push(b' ')
}

/// Adds a literal name.
pub fn add_name(text: &mut Text, name: &[u8]) -> Result<(), AllocError>
    ensures { OnOk result (Grows (Lit name.now Stop) text.old text.new) }
{
    text.push(b'/')?;
    text.append(name)?;
    text.push(b' ')
}

/// Adds an integer.
pub fn add_integer(text: &mut Text, n: i32) -> Result<(), AllocError>
    ensures { OnOk result (Grows (Num n Stop) text.old text.new) }
{
    let mut digits = Buffer::new();
    text.append(digits.format(n).as_bytes())?;
    text.push(b' ')
}

/// Adds a word of 32 bits as an integer.
pub fn add_number(text: &mut Text, n: u32) -> Result<(), AllocError>
    ensures { OnOk result (Grows (Num (signed n) Stop) text.old text.new) }
{
    add_integer(text, n.cast_signed())
}

/// Adds a byte of a string.
fn add_escaped(text: &mut Text, byte: u8) -> Result<(), AllocError>
    ensures { OnOk result (text.new ≡ text.old ++ escaped_byte byte) }
{
    match byte {
        b'(' | b')' | b'\\' => {
            text.push(b'\\')?;
            text.push(byte)
        }
        b'\r' => text.append(b"\\r"),
        _ => text.push(byte),
    }
}

/// Adds the bytes of a string, as they stand between its parentheses.
pub fn add_bytes(text: &mut Text, bytes: &[u8]) -> Result<(), AllocError>
    ensures { OnOk result (text.new ≡ text.old ++ escaped bytes.now) }
{
    for byte in bytes {
        add_escaped(text, *byte)?;
    }
    Ok(())
}

/// Adds a string.
pub fn add_string(text: &mut Text, bytes: &[u8]) -> Result<(), AllocError>
    ensures { OnOk result (Grows (Str bytes.now Stop) text.old text.new) }
{
    text.push(b'(')?;
    add_bytes(text, bytes)?;
    text.append(b") ")
}

/// Adds the name of an anchor, as a literal name.
pub fn add_anchor_name(text: &mut Text, k: u32) -> Result<(), AllocError>
    ensures { OnOk result (Grows (Lit (anchor_name k) Stop) text.old text.new) }
{
    let mut digits = Buffer::new();
    text.append(b"/a")?;
    text.append(digits.format(k).as_bytes())?;
    text.push(b' ')
}

/// The number behind one, if there is one.
pub fn following(n: u32) -> Result<u32, AllocError>
    ensures { IfOk result (λ m. m ≡ suc n) }
{
    n.checked_add(1).ok_or(AllocError)
}
