// Names as literal names of PostScript.

ghost use Rattle.std.specs.Prelude.{◌≡◌, ◌<◌, ◌++◌, ◌∷◌, [], false, OnOk};
ghost use Rattle.std.specs.List.{list_all};
ghost use Rattle.std.specs.Fmt.{digit_glyph};
ghost use Rattle.ps_text.specs.Code.{Stop, Lit, Word};
ghost use Rattle.ps_emit.specs.Grown.{Grows};
ghost use Rattle.ps_emit.specs.Terms.{word};
ghost use Rattle.expr_serve.specs.Literals.{is_part as part, digits_of, in_digits, literal};

use ldb_words::Text;
use std::alloc::AllocError;

/// Whether a byte is one of an identifier.
fn is_part(byte: u8) -> bool
    ensures { result ≡ part byte }
{
    byte.is_ascii_alphanumeric() || byte == b'_'
}

/// Whether all bytes are.
fn is_identifier(name: &[u8]) -> bool
    ensures { result ≡ list_all part name.now }
{
    for byte in name {
        if !is_part(*byte) {
            return false;
        }
    }
    true
}

/// Adds a literal name whose bytes are those of an identifier.
fn add_identifier(text: &mut Text, name: &[u8]) -> Result<(), AllocError>
    ensures { OnOk result (Grows (Lit name.now Stop) text.old text.new) }
{
    text.push(b'/')?;
    text.append(name)?;
    text.push(b' ')
}

/// A hexadecimal digit.
fn digit(n: u8) -> u8
    requires { n < 16 }
    ensures { result ≡ digit_glyph false n }
{
    if n < 10 { b'0' + n } else { 87 + n }
}

/// Adds a byte as two hexadecimal digits.
fn add_byte(text: &mut Text, byte: u8) -> Result<(), AllocError>
    ensures { OnOk result (text.new ≡ text.old ++ digits_of byte) }
{
    text.push(digit(byte / 16))?;
    text.push(digit(byte % 16))
}

/// Adds bytes as hexadecimal digits.
fn add_digits(text: &mut Text, bytes: &[u8]) -> Result<(), AllocError>
    ensures { OnOk result (text.new ≡ text.old ++ in_digits bytes.now) }
{
    for byte in bytes {
        add_byte(text, *byte)?;
    }
    Ok(())
}

/// Adds a literal name with any bytes.
#[tactic(auto, using(crate::proofs::Growing::named_by_digits))]
fn add_by_digits(text: &mut Text, name: &[u8]) -> Result<(), AllocError>
    ensures { OnOk result (Grows (Word (60 ∷ (in_digits name.now ++ 62 ∷ [])) (word "cvn")) text.old text.new) }
{
    text.append(b"<")?;
    add_digits(text, name)?;
    text.append(b"> cvn ")
}

/// Adds a literal name.
pub fn add_literal(text: &mut Text, name: &[u8]) -> Result<(), AllocError>
    ensures { OnOk result (Grows (literal name.now) text.old text.new) }
{
    if is_identifier(name) {
        add_identifier(text, name)
    } else {
        add_by_digits(text, name)
    }
}
