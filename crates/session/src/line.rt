// A line that is written without memory being taken.

ghost use Rattle.std.specs.Prelude.{◌≡◌, ◌<◌, ◌≤◌, [], IfOk, decimal, length};
ghost use Rattle.std.specs.Fmt.{signed_decimal};
ghost use Rattle.ldb_words.specs.Word.{signed};
ghost use Rattle.ps_leaves.specs.Forms.{hex_digit, hex_text};
ghost use Rattle.session.specs.Rooms.{text_of, room_of, Adds};

use itoa::Buffer;
use ldb_words::Text;
use std::alloc::{AllocError, Global};

/// A line, with room that was taken before.
#[derive(Drop)]
pub struct Line {
    bytes: Vec<u8>,
}

/// A digit of base 16.
fn hex_digit(n: u8) -> u8
    requires { n < 16 }
    ensures { result ≡ hex_digit n }
{
    if n < 10 { 48 + n } else { 87 + n }
}

impl Line {
    /// An empty line with room for so many bytes.
    pub fn with_room(alloc: Global, room: usize) -> Result<Line, AllocError>
        ensures empty { IfOk result (λ line. text_of line ≡ []) }
        ensures room { IfOk result (λ line. room_of line ≡ room) }
    {
        let bytes = Vec::with_capacity(alloc, room)?;
        Ok(Line { bytes })
    }

    /// Adds bytes for which there is room.
    pub fn add(&mut self, bytes: &[u8])
        ensures { Adds self.old self.new bytes.now }
    {
        let _ = self.bytes.extend_from_slice(bytes);
    }

    /// Adds a number in decimal digits.
    pub fn add_number(&mut self, number: u32)
        ensures adds { Adds self.old self.new (decimal number) }
        ensures short { length (decimal number) ≤ 10 }
    {
        let mut buffer = Buffer::new();
        self.add(buffer.format(number).as_bytes());
    }

    /// Adds a word as a number with a sign, in decimal digits.
    pub fn add_signed(&mut self, word: u32)
        ensures adds { Adds self.old self.new (signed_decimal (signed word)) }
        ensures short { length (signed_decimal (signed word)) ≤ 11 }
    {
        let mut buffer = Buffer::new();
        self.add(buffer.format(word.cast_signed()).as_bytes());
    }

    /// Adds so many digits of base 16. It is as deep as it adds digits.
    fn add_hex(&mut self, digits: u32, word: u32)
        ensures { Adds self.old self.new (hex_text digits word) }
    {
        if digits == 0 {
            return;
        }
        self.add_hex(digits - 1, word / 16);
        self.add(&[hex_digit((word % 16) as u8)]);
    }

    /// Adds a word in eight digits of base 16.
    pub fn add_word(&mut self, word: u32)
        ensures { Adds self.old self.new (hex_text 8 word) }
    {
        self.add_hex(8, word);
    }

    /// The line's text.
    pub fn into_text(self) -> Text
        ensures { result ≡ text_of self }
    {
        Text::from_vec(self.bytes)
    }
}
