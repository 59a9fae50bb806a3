// Characters, strings, numbers and pointers as they are shown.
ghost use Rattle.std.specs.Prelude.{◌≡◌, ◌++◌, ◌∷◌, [], List, ℕ, Option, IfOk, OnOk, IsTrue, ◌↔◌, map, codes, decimal};
ghost use Rattle.std.specs.Fmt.{signed_decimal};
ghost use Rattle.ldb_words.specs.Word.{signed};
ghost use Rattle.c_show.specs.Printed.{is_printable, quoted_as, character_text, in_string, string_rest, string_text, byte_of, Told, number_text, pointer_text, with_string};
ghost use Rattle.c_show.specs.Seen.{all_told};

use crate::Held;
use c_tree::CType;
use ldb_words::Text;
use std::alloc::{AllocError, Global};

/// The most characters of a string that are shown.
const LONGEST: u32 = 200;

/// Whether a byte is shown as it is.
fn is_printable(c: u8) -> bool
    ensures { result ≡ is_printable c }
{
    32 <= c && c <= 126
}

/// Adds a character that stands between such quotes.
fn put_quoted(text: &mut Text, quote: u8, c: u8) -> Result<(), AllocError>
    ensures { OnOk result (text.new ≡ text.old ++ quoted_as quote c) }
{
    if c == quote || c == b'\\' {
        text.push(b'\\')?;
    }
    text.push(c)
}

/// Adds a blank and a character in quotes, where it is printable.
fn put_character(text: &mut Text, c: u8) -> Result<(), AllocError>
    ensures { OnOk result (text.new ≡ text.old ++ character_text c) }
{
    if !is_printable(c) {
        return Ok(());
    }
    text.append(b" '")?;
    put_quoted(text, b'\'', c)?;
    text.append(b"'")
}

/// Adds a byte of a string.
fn put_in_string(text: &mut Text, c: u8) -> Result<(), AllocError>
    ensures { OnOk result (text.new ≡ text.old ++ in_string c) }
{
    if is_printable(c) {
        return put_quoted(text, b'"', c);
    }
    text.append(&[b'\\', b'0' + c / 64, b'0' + c / 8 % 8, b'0' + c % 8])
}

/// Adds the characters of a string up to the first NUL, at most `left`, and the closing quote. It is as deep as it adds characters.
fn put_string_rest(text: &mut Text, left: u32, bytes: &[u8]) -> Result<(), AllocError>
    ensures { OnOk result (text.new ≡ text.old ++ string_rest left bytes.now) }
{
    match bytes {
        [] | [0, ..] => text.append(b"\""),
        [c, rest @ ..] => {
            if left == 0 {
                return text.append(b"\"...");
            }
            put_in_string(text, *c)?;
            put_string_rest(text, left - 1, rest)
        }
    }
}

/// Adds a string: its characters up to the first NUL, and `...` behind the quote where there are more than 200.
fn put_string_text(text: &mut Text, bytes: &[u8]) -> Result<(), AllocError>
    ensures { OnOk result (text.new ≡ text.old ++ string_text bytes.now) }
{
    text.append(b"\"")?;
    put_string_rest(text, LONGEST, bytes)
}

/// The byte that a leaf holds.
fn byte_of(leaf: &Held) -> u8
    ensures { result ≡ byte_of (Told leaf.now) }
{
    match leaf {
        Held::Number(bits) => (bits % 256) as u8,
        _ => 0,
    }
}

/// Adds the characters of an array up to the first NUL, at most `left`, and the closing quote. It is as deep as it adds characters.
fn put_array_rest(text: &mut Text, left: u32, leaves: &[Held]) -> Result<(), AllocError>
    ensures { OnOk result (text.new ≡ text.old ++ string_rest left (map byte_of (all_told leaves.now))) }
{
    match leaves {
        [] => text.append(b"\""),
        [leaf, rest @ ..] => {
            let c = byte_of(leaf);
            if c == 0 {
                return text.append(b"\"");
            }
            if left == 0 {
                return text.append(b"\"...");
            }
            put_in_string(text, c)?;
            put_array_rest(text, left - 1, rest)
        }
    }
}

/// Adds a char array as a string.
pub fn put_array_text(text: &mut Text, leaves: &[Held]) -> Result<(), AllocError>
    ensures { OnOk result (text.new ≡ text.old ++ string_text (map byte_of (all_told leaves.now))) }
{
    text.append(b"\"")?;
    put_array_rest(text, LONGEST, leaves)
}

/// Adds a number of a type, by its bits.
pub fn put_number(alloc: Global, text: &mut Text, t: &CType, bits: u32) -> Result<(), AllocError>
    ensures { OnOk result (text.new ≡ text.old ++ number_text t.now bits) }
{
    match t {
        CType::Char => {
            put_signed(alloc, text, bits)?;
            put_character(text, (bits % 256) as u8)
        }
        CType::Unsigned => put_decimal(alloc, text, bits),
        _ => put_signed(alloc, text, bits),
    }
}

/// Adds a number in decimal.
fn put_decimal(alloc: Global, text: &mut Text, bits: u32) -> Result<(), AllocError>
    ensures { OnOk result (text.new ≡ text.old ++ decimal bits) }
{
    let digits = format!(in alloc; "{bits}")?;
    text.append(digits.as_bytes())
}

/// Adds a number with its sign in decimal.
fn put_signed(alloc: Global, text: &mut Text, bits: u32) -> Result<(), AllocError>
    ensures { OnOk result (text.new ≡ text.old ++ signed_decimal (signed bits)) }
{
    let number = bits.cast_signed();
    let digits = format!(in alloc; "{number}")?;
    text.append(digits.as_bytes())
}

/// Adds a pointer into an object, and where it is one to `char` the string there.
pub fn put_pointer(
    alloc: Global,
    text: &mut Text,
    to_char: bool,
    label: &[u8],
    offset: u32,
    string: &Option<Text>,
) -> Result<(), AllocError>
    ensures { OnOk result (text.new ≡ text.old ++ pointer_text to_char label.now offset string.now) }
{
    text.append(b"&")?;
    text.append(label)?;
    text.append(b"+")?;
    put_decimal(alloc, text, offset)?;
    match string {
        Some(bytes) if to_char => {
            text.append(b" ")?;
            put_string_text(text, bytes.as_bytes())
        }
        _ => Ok(()),
    }
}
