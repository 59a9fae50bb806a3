// Lines and columns of offsets.
ghost use Rattle.std.specs.Prelude.{◌≡◌, ◌≤◌, ◌<◌, ◌+◌, ◌^◌, length, take};
ghost use Rattle.c_lex.specs.Grammar.{past, after};
ghost use Rattle.ldb_cc.specs.Sources.{StandsAt};

use c_lex::Place;

/// A line and a column, both from 1; a column counts bytes.
#[derive(Clone, Copy, PartialEq, Eq, Debug)]
pub struct Spot {
    pub line: u32,
    pub column: u32,
}

/// The place behind a byte.
fn past(place: Place, byte: u8) -> Place
    requires at { place.at < 2 ^ 31 }
    requires line { place.line ≤ place.at + 1 }
    requires column { place.column ≤ place.at + 1 }
    ensures { result ≡ past place byte }
{
    if byte == b'\n' {
        Place {
            at: place.at + 1,
            line: place.line + 1,
            column: 1,
        }
    } else {
        Place {
            at: place.at + 1,
            line: place.line,
            column: place.column + 1,
        }
    }
}

/// The place behind some bytes.
fn after(place: Place, bytes: &[u8]) -> Place
    requires at { place.at + length bytes.now ≤ 1048576 }
    requires line { place.line ≤ place.at + 1 }
    requires column { place.column ≤ place.at + 1 }
    ensures { result ≡ after place bytes.now }
{
    let mut place = place;
    for byte in bytes {
        place = past(place, *byte);
    }
    place
}

/// The bytes before an offset.
fn front(text: &[u8], at: u32) -> &[u8]
    ensures value { result.now ≡ take at text.now }
    ensures short { length result.now ≤ length text.now }
{
    let at = at as usize;
    if at < text.len() { &text[..at] } else { text }
}

/// The line and the column of an offset in a text.
pub fn spot_of(text: &[u8], at: u32) -> Spot
    requires { length text.now ≤ 1048576 }
    ensures { StandsAt text.now at result.line result.column }
{
    let start = Place {
        at: 0,
        line: 1,
        column: 1,
    };
    let place = after(start, front(text, at));
    Spot {
        line: place.line,
        column: place.column,
    }
}
