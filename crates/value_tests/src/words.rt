// Checked arithmetic, extensions, texts and rows.

use ldb_words::{
    Many, Text, Way, add_checked, div_checked, extend_byte, extend_half, mul_checked, neg_checked,
    product_signed, rem_checked, shift_checked, sub_checked,
};
use std::alloc::{AllocError, Global};
use test_rows::{append, part};

/// Appends what a calculation with two numbers comes to, or the text or row that is made of the parts.
pub fn append_word(
    alloc: Global,
    kind: &str,
    parts: &[Vec<u8>],
    given: &[u32],
    out: &mut Vec<u8>,
) -> Result<(), AllocError> {
    let x = given.first().copied().unwrap_or(0);
    let y = given.get(1).copied().unwrap_or(0);
    let (a, b) = (x.cast_signed(), y.cast_signed());
    let told = match kind {
        "add" => format!(in alloc; "{:?}", add_checked(a, b))?,
        "subtract" => format!(in alloc; "{:?}", sub_checked(a, b))?,
        "multiply" => format!(in alloc; "{:?}", mul_checked(a, b))?,
        "negate" => format!(in alloc; "{:?}", neg_checked(a))?,
        "divide" => format!(in alloc; "{:?}", div_checked(a, b))?,
        "remainder" => format!(in alloc; "{:?}", rem_checked(a, b))?,
        "left" => format!(in alloc; "{:?}", shift_checked(x, y, Way::Left))?,
        "right" => format!(in alloc; "{:?}", shift_checked(x, y, Way::RightSigned))?,
        "right_unsigned" => format!(in alloc; "{:?}", shift_checked(x, y, Way::RightUnsigned))?,
        "byte" => format!(in alloc; "{:#x}", extend_byte(x & 0xff))?,
        "half" => format!(in alloc; "{:#x}", extend_half(x & 0xffff))?,
        "product" => format!(in alloc; "{:#x}", product_signed(x, y))?,
        _ => return append_made(alloc, parts, given, out),
    };
    append(out, told.as_str())
}

/// Appends the text of the first part, a byte and the third part, and the row of the first number.
fn append_made(
    alloc: Global,
    parts: &[Vec<u8>],
    given: &[u32],
    out: &mut Vec<u8>,
) -> Result<(), AllocError> {
    let mut text = Text::from_slice(alloc, part(parts, 0))?;
    for byte in part(parts, 1) {
        text.push(*byte)?;
    }
    text.append(part(parts, 2))?;
    let mut rows = Many::new(alloc);
    for number in given {
        rows.push(*number)?;
    }
    out.extend_from_slice(text.as_bytes())?;
    append(out, format!(in alloc; " {:?}", rows.as_slice())?.as_str())
}
