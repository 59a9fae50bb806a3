// Lines of replies.

ghost use Rattle.std.specs.Prelude.{◌≡◌, ◌<◌, ◌∷◌, ◌++◌, [], OnOk, IfOk, codes, decimal};
ghost use Rattle.ps_leaves.specs.Forms.{hex_digit, hex_text};
ghost use Rattle.table_points.specs.Rows.{row_in};
ghost use Rattle.asking.specs.Lines.{line, place_text, frame_text};

use ldb_words::Text;
use ps_store::PsStore;
use std::alloc::{AllocError, Global};
use table_points::Point;

/// Adds a number in decimal digits.
fn append_decimal(alloc: Global, out: &mut Text, n: u32) -> Result<(), AllocError>
    ensures { OnOk result (out.new ≡ out.old ++ decimal n) }
{
    let digits = format!(in alloc; "{n}")?;
    out.append(digits.as_bytes())
}

/// A hexadecimal digit of a number below 16, in lower case.
fn hex_digit(n: u8) -> u8
    requires { n < 16 }
    ensures { result ≡ hex_digit n }
{
    if n < 10 { 48 + n } else { 87 + n }
}

/// Adds so many hexadecimal digits. It is as deep as it adds digits.
pub fn append_hex(out: &mut Text, digits: u32, n: u32) -> Result<(), AllocError>
    ensures { OnOk result (out.new ≡ out.old ++ hex_text digits n) }
{
    if digits == 0 {
        return Ok(());
    }
    append_hex(out, digits - 1, n / 16)?;
    out.push(hex_digit((n % 16) as u8))
}

/// Adds a point's place, `F:L.C`.
fn append_place(
    alloc: Global,
    out: &mut Text,
    table: &PsStore,
    place: Point,
) -> Result<(), AllocError>
    ensures { OnOk result (out.new ≡ out.old ++ place_text (row_in table.now place)) }
{
    out.append(table.string_get(place.file))?;
    out.append(b":")?;
    append_decimal(alloc, out, place.line)?;
    out.append(b".")?;
    append_decimal(alloc, out, place.column)
}

/// Adds the line of a frame, `frame K FUNC F:L.C`, with its LF.
pub fn append_frame(
    alloc: Global,
    out: &mut Text,
    table: &PsStore,
    number: u32,
    place: Point,
) -> Result<(), AllocError>
    ensures { OnOk result (out.new ≡ out.old ++ line (frame_text number (row_in table.now place))) }
{
    out.append(b"frame ")?;
    append_decimal(alloc, out, number)?;
    out.append(b" ")?;
    out.append(table.string_get(place.function))?;
    out.append(b" ")?;
    append_place(alloc, out, table, place)?;
    out.append(b"\n")
}

/// The line of some frames' number, `frames N`, and their lines behind it.
pub fn frames_text(alloc: Global, count: u32, lines: &Text) -> Result<Text, AllocError>
    ensures { IfOk result (λ t. t ≡ (codes "frames " ++ decimal count) ++ (10 ∷ lines.now)) }
{
    let mut out = Text::new(alloc);
    out.append(b"frames ")?;
    append_decimal(alloc, &mut out, count)?;
    out.append(b"\n")?;
    out.append(lines.as_bytes())?;
    Ok(out)
}

/// The line of a point behind a word and a space, as `break F:L.C`, with its LF.
pub fn point_text(
    alloc: Global,
    word: &[u8],
    table: &PsStore,
    place: Point,
) -> Result<Text, AllocError>
    ensures { IfOk result (λ t. t ≡ line (word.now ++ place_text (row_in table.now place))) }
{
    let mut out = Text::new(alloc);
    out.append(word)?;
    append_place(alloc, &mut out, table, place)?;
    out.append(b"\n")?;
    Ok(out)
}

/// The line of a shown value, `value TEXT`, with its LF.
pub fn value_text(alloc: Global, shown: &Text) -> Result<Text, AllocError>
    ensures { IfOk result (λ t. t ≡ codes "value " ++ (shown.now ++ (10 ∷ []))) }
{
    let mut out = Text::new(alloc);
    out.append(b"value ")?;
    out.append(shown.as_bytes())?;
    out.append(b"\n")?;
    Ok(out)
}
