// Bytes are appended as they are shown.

ghost use Rattle.std.specs.Prelude.{◌≡◌, ◌++◌, OnOk};
ghost use Rattle.c_show.specs.Printed.{is_printable, quoted_as, in_string, string_rest, string_text};
ghost use Rattle.ps_append.specs.Appending.{plain_byte, plain_text};

use ldb_words::Text;
use std::alloc::AllocError;

/// The most characters of a string that are shown.
const LONGEST: u32 = 200;

/// Whether a byte is shown as it is.
pub fn is_printable(byte: u8) -> bool
    ensures { result ≡ is_printable byte }
{
    32 <= byte && byte <= 126
}

/// Adds a byte.
fn append_byte(out: &mut Text, byte: u8) -> Result<(), AllocError>
    ensures { OnOk result (out.new ≡ out.old ++ plain_byte byte) }
{
    if is_printable(byte) {
        return out.push(byte);
    }
    out.append(&[
        b'\\',
        b'0' + byte / 64,
        b'0' + byte / 8 % 8,
        b'0' + byte % 8,
    ])
}

/// Adds bytes: those that are not printed as they are by a backslash and three octal digits.
pub fn append_plain(out: &mut Text, bytes: &[u8]) -> Result<(), AllocError>
    ensures { OnOk result (out.new ≡ out.old ++ plain_text bytes.now) }
{
    for byte in bytes {
        append_byte(out, *byte)?;
    }
    Ok(())
}

/// Adds a character that stands between such quotes.
pub fn append_quoted(out: &mut Text, quote: u8, byte: u8) -> Result<(), AllocError>
    ensures { OnOk result (out.new ≡ out.old ++ quoted_as quote byte) }
{
    if byte == quote || byte == b'\\' {
        out.push(b'\\')?;
    }
    out.push(byte)
}

/// Adds a byte of a string.
fn append_in_string(out: &mut Text, byte: u8) -> Result<(), AllocError>
    ensures { OnOk result (out.new ≡ out.old ++ in_string byte) }
{
    if is_printable(byte) {
        return append_quoted(out, b'"', byte);
    }
    out.append(&[
        b'\\',
        b'0' + byte / 64,
        b'0' + byte / 8 % 8,
        b'0' + byte % 8,
    ])
}

/// Adds the characters of a string up to the first NUL, at most `left`, and the closing quote. It is as deep as it adds
/// characters.
fn append_rest(out: &mut Text, left: u32, bytes: &[u8]) -> Result<(), AllocError>
    ensures { OnOk result (out.new ≡ out.old ++ string_rest left bytes.now) }
{
    match bytes {
        [] | [0, ..] => out.append(b"\""),
        [byte, rest @ ..] => {
            if left == 0 {
                return out.append(b"\"...");
            }
            append_in_string(out, *byte)?;
            append_rest(out, left - 1, rest)
        }
    }
}

/// Adds a string: its characters up to the first NUL, and `...` behind the quote where there are more than 200.
pub fn append_string(out: &mut Text, bytes: &[u8]) -> Result<(), AllocError>
    ensures { OnOk result (out.new ≡ out.old ++ string_text bytes.now) }
{
    out.append(b"\"")?;
    append_rest(out, LONGEST, bytes)
}
