// The operators that the printers use, over a small memory with one object into which pointers lead.

use ps_run::{Dialect, PsCore, PsError, PsFault, Steps};
use ps_step::operands::{one_of, pair_of, triple_of};
use ps_store::PsObj;
use std::alloc::{AllocError, Global};

/// A memory of so many bytes, in one of both byte orders, with an object of a label that begins at an address, and what was
/// appended.
#[derive(Drop)]
pub struct Printer {
    pub alloc: Global,
    pub memory: Vec<u8>,
    pub is_big: bool,
    pub label: Vec<u8>,
    pub object: u32,
    pub characters: u32,
    pub out: Vec<u8>,
}

fn integer_of(x: PsObj) -> Result<u32, PsError> {
    match x {
        PsObj::Int(n) => Ok(n.cast_unsigned()),
        _ => Err(PsError::TypeCheck),
    }
}

fn full(_error: AllocError) -> PsError {
    PsError::LimitCheck
}

fn is_printable(byte: u8) -> bool {
    (32..=126).contains(&byte)
}

impl Printer {
    fn byte(&self, at: u32) -> Result<u8, PsError> {
        match self.memory.get(at as usize) {
            Some(byte) => Ok(*byte),
            None => Err(PsError::RangeCheck),
        }
    }

    /// The word at an address.
    fn word(&self, at: u32) -> Result<u32, PsError> {
        let a = self.byte(at)?;
        let b = self.byte(at.wrapping_add(1))?;
        let c = self.byte(at.wrapping_add(2))?;
        let d = self.byte(at.wrapping_add(3))?;
        Ok(if self.is_big {
            u32::from_be_bytes([a, b, c, d])
        } else {
            u32::from_le_bytes([a, b, c, d])
        })
    }

    fn fetch(&self, core: &mut PsCore) -> Result<(), PsError> {
        let (_, at, kind) = triple_of(&core.operands)?;
        let at = integer_of(at)?;
        let is_byte = match kind {
            PsObj::Name(t, _) => core.store.string_get(t) == b"c".as_slice(),
            _ => false,
        };
        let value = if is_byte {
            i32::from(self.byte(at)?.cast_signed())
        } else {
            self.word(at)?.cast_signed()
        };
        core.operands.replace(3, PsObj::Int(value));
        Ok(())
    }

    /// `udivs`, `urem`, `uadd`, `usub`
    fn calculate(&self, core: &mut PsCore, op: u16) -> Result<(), PsError> {
        let (a, b) = pair_of(&core.operands)?;
        let x = integer_of(a)?;
        let y = integer_of(b)?;
        let n = match op {
            14 => x.checked_div(y).ok_or(PsError::Division)?,
            15 => x.checked_rem(y).ok_or(PsError::Division)?,
            16 => x.wrapping_add(y),
            _ => x.wrapping_sub(y),
        };
        core.operands.replace(2, PsObj::Int(n.cast_signed()));
        Ok(())
    }

    fn put(&mut self, core: &mut PsCore) -> Result<(), PsError> {
        let x = one_of(&core.operands)?;
        let PsObj::Str(t, _) = x else {
            return Err(PsError::TypeCheck);
        };
        self.out
            .extend_from_slice(core.store.string_get(t))
            .map_err(full)?;
        core.operands.take(1);
        Ok(())
    }

    fn put_escaped(&mut self, byte: u8, quote: u8) -> Result<(), AllocError> {
        if !is_printable(byte) {
            let text = format!(in self.alloc; "\\{byte:03o}")?;
            return self.out.extend_from_slice(text.as_bytes());
        }
        if byte == quote || byte == b'\\' {
            self.out.push(b'\\')?;
        }
        self.out.push(byte)?;
        Ok(())
    }

    fn put_char(&mut self, core: &mut PsCore) -> Result<(), PsError> {
        let x = one_of(&core.operands)?;
        let byte = (integer_of(x)? % 256) as u8;
        let number = byte.cast_signed();
        let text = format!(in self.alloc; "{number}").map_err(full)?;
        self.out.extend_from_slice(text.as_bytes()).map_err(full)?;
        if is_printable(byte) {
            self.out.extend_from_slice(b" '").map_err(full)?;
            self.put_escaped(byte, b'\'').map_err(full)?;
            self.out.extend_from_slice(b"'").map_err(full)?;
        }
        core.operands.take(1);
        Ok(())
    }

    fn put_pointer(&mut self, core: &mut PsCore) -> Result<(), PsError> {
        let x = one_of(&core.operands)?;
        let p = integer_of(x)?;
        if p == 0 {
            self.out.extend_from_slice(b"0").map_err(full)?;
        } else {
            let offset = p.wrapping_sub(self.object);
            let text = format!(in self.alloc; "+{offset}").map_err(full)?;
            self.out.extend_from_slice(b"&").map_err(full)?;
            self.out.extend_from_slice(&self.label).map_err(full)?;
            self.out.extend_from_slice(text.as_bytes()).map_err(full)?;
        }
        core.operands.take(1);
        Ok(())
    }

    /// A string of at most so many bytes.
    fn put_chars(&mut self, core: &mut PsCore) -> Result<(), PsError> {
        let (_, at, count) = triple_of(&core.operands)?;
        let at = integer_of(at)?;
        let count = integer_of(count)?;
        self.out.extend_from_slice(b"\"").map_err(full)?;
        let mut end: &[u8] = b"\"";
        for i in 0..count {
            let byte = self.byte(at.wrapping_add(i))?;
            if byte == 0 {
                break;
            }
            if i == 200 {
                end = b"\"...";
                break;
            }
            self.put_escaped(byte, b'"').map_err(full)?;
        }
        self.out.extend_from_slice(end).map_err(full)?;
        core.operands.take(3);
        Ok(())
    }

    /// How many bytes of the object stand from an address on, if it has characters.
    fn measure(&self, core: &mut PsCore) -> Result<(), PsError> {
        let x = one_of(&core.operands)?;
        let offset = integer_of(x)?.wrapping_sub(self.object);
        let count = self.characters.saturating_sub(offset);
        core.operands.replace(1, PsObj::Int(count.cast_signed()));
        Ok(())
    }

    fn act(&mut self, core: &mut PsCore, op: u16) -> Result<(), PsError> {
        match op {
            6 => self.fetch(core),
            14..=17 => self.calculate(core, op),
            28 => self.put(core),
            29 => self.put_char(core),
            30 => self.put_pointer(core),
            31 => self.put_chars(core),
            32 => self.measure(core),
            _ => Err(PsError::Undefined),
        }
    }
}

impl Dialect for Printer {
    ghost operates = { λ d c op left answer d' c' left'. Unit {0} };

    ghost remains = { λ p q. Unit {0} };

    fn operate(&mut self, core: &mut PsCore, op: u16, _steps: &mut Steps) -> Result<(), PsFault> {
        match self.act(core, op) {
            Ok(()) => Ok(()),
            Err(error) => Err(PsFault::Error(error)),
        }
    }

    ghost stays = { λ p. tt };

    ghost goes_on = { λ p q r first second. tt };
}
