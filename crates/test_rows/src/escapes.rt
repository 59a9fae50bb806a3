// The escapes of a row's text.

use std::alloc::{AllocError, Global};

/// How far an escape was read.
#[derive(Clone, Copy)]
enum State {
    Plain,
    /// Behind a `\`.
    Begun,
    /// In a count of repeats.
    Count(u32),
    /// Behind `\x` and so many digits, which make this number.
    Hex(u32, u8),
}

/// The parts that were read so far, and the last one, of which the bytes from `from` on stand `count` times.
#[derive(Drop)]
struct Reader {
    alloc: Global,
    parts: Vec<Vec<u8>>,
    last: Vec<u8>,
    state: State,
    count: u32,
    from: usize,
}

/// A digit of base 16, or 0.
fn digit(byte: u8) -> u8 {
    let digit = (byte as char).to_digit(16).unwrap_or(0);
    u8::try_from(digit).unwrap_or(0)
}

impl Reader {
    fn take(&mut self, byte: u8) -> Result<(), AllocError> {
        match self.state {
            State::Plain if byte == b'\\' => self.state = State::Begun,
            State::Plain => self.last.push(byte)?,
            State::Begun => self.begin(byte)?,
            State::Count(count) if byte.is_ascii_digit() => {
                self.state = State::Count(
                    count.wrapping_mul(10).wrapping_add(u32::from(digit(byte))),
                );
            }
            State::Count(count) => {
                self.count = count;
                self.from = self.last.len();
                self.state = State::Plain;
            }
            State::Hex(0, _) => self.state = State::Hex(1, digit(byte)),
            State::Hex(_, high) => {
                self.last
                    .push(high.wrapping_mul(16).wrapping_add(digit(byte)))?;
                self.state = State::Plain;
            }
        }
        Ok(())
    }

    /// The byte behind a `\`.
    fn begin(&mut self, byte: u8) -> Result<(), AllocError> {
        self.state = State::Plain;
        match byte {
            b'n' => self.last.push(b'\n')?,
            b'r' => self.last.push(b'\r')?,
            b't' => self.last.push(b'\t')?,
            b'x' => self.state = State::Hex(0, 0),
            b'|' => self.end_part()?,
            b'.' => self.repeat()?,
            b'0'..=b'9' => self.state = State::Count(u32::from(digit(byte))),
            _ => self.last.push(byte)?,
        }
        Ok(())
    }

    fn end_part(&mut self) -> Result<(), AllocError> {
        let part = std::mem::replace(&mut self.last, Vec::new(self.alloc));
        self.parts.push(part)?;
        Ok(())
    }

    /// Ends what stands `count` times.
    fn repeat(&mut self) -> Result<(), AllocError> {
        let piece = match self.last.get(self.from..) {
            Some(piece) => Vec::from_slice(self.alloc, piece)?,
            None => Vec::new(self.alloc),
        };
        for _ in 1..self.count {
            self.last.extend_from_slice(&piece)?;
        }
        Ok(())
    }
}

/// The parts of a row's text, of which there is one at least.
pub fn parts_of(alloc: Global, text: &[u8]) -> Result<Vec<Vec<u8>>, AllocError> {
    let mut reader = Reader {
        alloc,
        parts: Vec::new(alloc),
        last: Vec::new(alloc),
        state: State::Plain,
        count: 0,
        from: 0,
    };
    for byte in text {
        reader.take(*byte)?;
    }
    reader.end_part()?;
    Ok(reader.parts)
}

/// Appends bytes, of which those that are not printed and `\` are escaped.
pub fn append_escaped(alloc: Global, out: &mut Vec<u8>, bytes: &[u8]) -> Result<(), AllocError> {
    for byte in bytes {
        match *byte {
            b'\n' => out.extend_from_slice(b"\\n")?,
            b'\\' => out.extend_from_slice(b"\\\\")?,
            b' '..=b'~' => {
                out.push(*byte)?;
            }
            _ => {
                let code = format!(in alloc; "\\x{byte:02x}")?;
                out.extend_from_slice(code.as_bytes())?;
            }
        }
    }
    Ok(())
}
