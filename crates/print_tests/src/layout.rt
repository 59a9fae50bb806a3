// Types by letters: their dictionaries, as text of a table, and their leaves.

use std::alloc::{AllocError, Global};
use std::mem;

/// A leaf of a type: its offset in bytes, and whether it is one byte.
#[derive(Clone, Copy)]
pub struct Leaf {
    pub at: u32,
    pub is_byte: bool,
}

/// A type: the text that leaves its dictionary, how many bytes it has, and its leaves.
#[derive(Drop)]
pub struct Layout {
    pub text: Vec<u8>,
    pub size: u32,
    pub leaves: Vec<Leaf>,
}

const CHAR: &[u8] = b"<< /kind /char /size 1 /printer /PrintChar load >> ";

const INT: &[u8] = b"<< /kind /int /size 4 /printer /PrintInt load >> ";

const UNSIGNED: &[u8] = b"<< /kind /unsigned /size 4 /printer /PrintUnsigned load >> ";

/// `struct s { char c[3]; int i; }`
const S: &[u8] =
    b"<< /kind /struct /size 8 /tag (s) /members [ [ (c) 0 << /kind /array /size 3 /count 3 /to << /kind /char /size 1 >> >> ] [ (i) 4 << /kind /int /size 4 >> ] ] /printer /PrintStruct load >> ";

const S_LEAVES: [(u32, bool); 4] = [(0, true), (1, true), (2, true), (4, false)];

/// The type without a part that a letter names.
fn simple(alloc: Global, letter: u8) -> Result<Layout, AllocError> {
    let (text, size) = match letter {
        b'c' => (CHAR, 1),
        b'u' => (UNSIGNED, 4),
        b's' => (S, 8),
        _ => (INT, 4),
    };
    let mut leaves = Vec::new(alloc);
    if letter == b's' {
        for (at, is_byte) in &S_LEAVES {
            leaves.push(Leaf {
                at: *at,
                is_byte: *is_byte,
            })?;
        }
    } else {
        leaves.push(Leaf {
            at: 0,
            is_byte: letter == b'c',
        })?;
    }
    Ok(Layout {
        text: Vec::from_slice(alloc, text)?,
        size,
        leaves,
    })
}

impl Layout {
    /// Puts the text between two others.
    fn enclose(&mut self, alloc: Global, before: &[u8], behind: &[u8]) -> Result<(), AllocError> {
        let mut text = Vec::from_slice(alloc, before)?;
        text.extend_from_slice(&self.text)?;
        text.extend_from_slice(behind)?;
        let old = mem::replace(&mut self.text, text);
        drop(old);
        Ok(())
    }

    /// Becomes a pointer to the type.
    fn point(&mut self, alloc: Global) -> Result<(), AllocError> {
        self.enclose(
            alloc,
            b"<< /kind /pointer /size 4 /to ",
            b"/printer /PrintPointer load >> ",
        )?;
        self.size = 4;
        let mut leaves = Vec::new(alloc);
        leaves.push(Leaf {
            at: 0,
            is_byte: false,
        })?;
        self.leaves = leaves;
        Ok(())
    }

    /// Becomes an array of so many of the type.
    fn repeat(&mut self, alloc: Global, count: u32) -> Result<(), AllocError> {
        let size = self.size.wrapping_mul(count);
        let head = format!(in alloc; "<< /kind /array /size {size} /count {count} /to ")?;
        self.enclose(alloc, head.as_bytes(), b"/printer /PrintArray load >> ")?;
        let mut leaves = Vec::new(alloc);
        for i in 0..count {
            for leaf in &self.leaves {
                leaves.push(Leaf {
                    at: leaf.at.wrapping_add(self.size.wrapping_mul(i)),
                    is_byte: leaf.is_byte,
                })?;
            }
        }
        self.leaves = leaves;
        self.size = size;
        Ok(())
    }
}

/// The type of some letters: `c`, `i`, `u` and `s`, and behind a type `^` is a pointer to it and `7[` an array of seven.
pub fn layout_of(alloc: Global, letters: &[u8]) -> Result<Layout, AllocError> {
    let mut layout = simple(alloc, b'i')?;
    let mut count: u32 = 0;
    for letter in letters {
        if letter.is_ascii_digit() {
            let digit = u32::from(letter.wrapping_sub(b'0'));
            count = count.wrapping_mul(10).wrapping_add(digit);
            continue;
        }
        match *letter {
            b'^' => layout.point(alloc)?,
            b'[' => layout.repeat(alloc, count)?,
            other => layout = simple(alloc, other)?,
        }
        count = 0;
    }
    Ok(layout)
}
