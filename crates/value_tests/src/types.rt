// The sizes and leaves of types, and the texts of values.

use c_show::{Held, show};
use c_tree::{CType, Member, StructDef, leaves, size_of};
use ldb_words::{Many, Text};
use std::alloc::{AllocError, Global};
use std::rc::Rc;
use test_rows::{append, numbers, part};

/// The type of some letters: `c`, `i` and `u` are the types without a part, `s` and `t` the structs, and behind a type `^` is a pointer to it and `7[` an array of seven.
fn type_of(alloc: Global, letters: &[u8]) -> Result<CType, AllocError> {
    let mut t = CType::Void;
    let mut count: u32 = 0;
    for letter in letters {
        if letter.is_ascii_digit() {
            let digit = u32::from(letter.wrapping_sub(b'0'));
            count = count.wrapping_mul(10).wrapping_add(digit);
            continue;
        }
        t = match *letter {
            b'c' => CType::Char,
            b'i' => CType::Int,
            b'u' => CType::Unsigned,
            b's' => CType::Struct(0),
            b't' => CType::Struct(1),
            b'^' => CType::Pointer(Rc::new(alloc, t)?),
            b'[' => CType::Array(Rc::new(alloc, t)?, count),
            _ => CType::Void,
        };
        count = 0;
    }
    Ok(t)
}

/// A member of a struct: its name, its offset and the letters of its type.
type MemberRow = (&'static [u8], u32, &'static [u8]);

/// `struct s { char c[3]; int i; }` and `struct t { char a; struct s b[2]; int *p; }`.
const S: [MemberRow; 2] = [(b"c", 0, b"c3["), (b"i", 4, b"i")];

const T: [MemberRow; 3] = [(b"a", 0, b"c"), (b"b", 4, b"s2["), (b"p", 20, b"i^")];

fn def(alloc: Global, tag: &[u8], size: u32, rows: &[MemberRow]) -> Result<StructDef, AllocError> {
    let mut members = Many::new(alloc);
    for (name, at, letters) in rows {
        members.push(Member {
            name: Text::from_slice(alloc, name)?,
            at: *at,
            ctype: type_of(alloc, letters)?,
        })?;
    }
    let tag = Text::from_slice(alloc, tag)?;
    Ok(StructDef { tag, size, members })
}

fn structs(alloc: Global) -> Result<Vec<StructDef>, AllocError> {
    let mut defs = Vec::new(alloc);
    defs.push(def(alloc, b"s", 8, &S)?)?;
    defs.push(def(alloc, b"t", 24, &T)?)?;
    Ok(defs)
}

/// What the leaves of an object hold: numbers; nothing in a pointer; or a place, by a label, an offset and perhaps a string.
fn held_of(alloc: Global, kind: &str, parts: &[Vec<u8>]) -> Result<Vec<Held>, AllocError> {
    let mut held = Vec::new(alloc);
    match kind {
        "show" => {
            for number in numbers(alloc, part(parts, 1))? {
                held.push(Held::Number(number))?;
            }
        }
        "null" => {
            held.push(Held::Null)?;
        }
        _ => {
            let string = match parts.get(3) {
                Some(string) => Some(Text::from_slice(alloc, string)?),
                None => None,
            };
            held.push(Held::At {
                label: Text::from_slice(alloc, part(parts, 1))?,
                offset: numbers(alloc, part(parts, 2))?
                    .first()
                    .copied()
                    .unwrap_or(0),
                string,
            })?;
        }
    }
    Ok(held)
}

/// Appends the size of a type, its leaves, or the text of a value of it.
pub fn append_type(
    alloc: Global,
    kind: &str,
    parts: &[Vec<u8>],
    out: &mut Vec<u8>,
) -> Result<(), AllocError> {
    let t = type_of(alloc, part(parts, 0))?;
    let defs = structs(alloc)?;
    match kind {
        "size" => {
            let size = size_of(&t, &defs);
            append(out, format!(in alloc; "{size:?}")?.as_str())
        }
        "leaves" => match leaves(alloc, &t, &defs) {
            Ok(found) => {
                for leaf in &found {
                    let (at, kind) = (leaf.at, leaf.kind);
                    append(out, format!(in alloc; "{at} {kind:?},")?.as_str())?;
                }
                Ok(())
            }
            Err(fault) => append(out, format!(in alloc; "{fault:?}")?.as_str()),
        },
        _ => {
            let held = held_of(alloc, kind, parts)?;
            let text = show(alloc, &t, &defs, &held)?;
            out.extend_from_slice(text.as_bytes())
        }
    }
}
