// Objects that are linked.

use ldb_words::{Many, Text};
use link_image::{LinkFault, link};
use obj_file::{Form, LoaderRows, Name, Object, StaticDef, Use};
use std::alloc::{AllocError, Global};
use test_rows::append;

/// The bytes that digits of base 16 write.
fn bytes_of(alloc: Global, digits: &str) -> Result<Text, AllocError> {
    let mut bytes = Text::new(alloc);
    for pair in digits.as_bytes().chunks_exact(2) {
        let pair = std::str::from_utf8(pair).unwrap_or("");
        bytes.push(u8::from_str_radix(pair, 16).unwrap_or(0))?;
    }
    Ok(bytes)
}

fn text_of(alloc: Global, word: &str) -> Result<Text, AllocError> {
    Text::from_slice(alloc, word.as_bytes())
}

fn number_of(word: &str) -> u32 {
    word.parse::<u32>().unwrap_or(0)
}

fn form_of(word: &str) -> Form {
    match word {
        "high" => Form::High,
        "low" => Form::Low,
        "jump" => Form::Jump,
        _ => Form::Word,
    }
}

/// An object for a target without anything.
fn nothing(alloc: Global, target: u8) -> Object {
    Object {
        target,
        text: Text::new(alloc),
        names: Many::new(alloc),
        statics: Many::new(alloc),
        uses: Many::new(alloc),
        functions: Many::new(alloc),
    }
}

/// Adds an item to an object: `text BYTES`, `name NAME AT`, `static NAME BYTES`, or `code` or `data`, then `AT FORM NAME ADD`, of a use.
fn add_item(alloc: Global, object: &mut Object, item: &str) -> Result<(), AllocError> {
    let mut words = item.split_ascii_whitespace();
    let kind = words.next().unwrap_or("");
    let first = words.next().unwrap_or("");
    let second = words.next().unwrap_or("");
    match kind {
        "text" => object.text = bytes_of(alloc, first)?,
        "name" => object.names.push(Name {
            name: text_of(alloc, first)?,
            at: number_of(second),
        })?,
        "static" => object.statics.push(StaticDef {
            name: text_of(alloc, first)?,
            bytes: bytes_of(alloc, second)?,
        })?,
        _ => object.uses.push(Use {
            in_text: kind == "code",
            at: number_of(first),
            form: form_of(second),
            name: text_of(alloc, words.next().unwrap_or(""))?,
            add: number_of(words.next().unwrap_or("")),
        })?,
    }
    Ok(())
}

/// The objects of a target that parts tell, whose items stand between `;`.
fn objects_of(alloc: Global, target: u8, parts: &[Vec<u8>]) -> Result<Vec<Object>, AllocError> {
    let mut objects = Vec::new(alloc);
    for part in parts {
        let mut object = nothing(alloc, target);
        for item in std::str::from_utf8(part).unwrap_or("").split(';') {
            add_item(alloc, &mut object, item)?;
        }
        objects.push(object)?;
    }
    Ok(objects)
}

/// Appends bytes in base 16, word by word.
fn append_words(
    alloc: Global,
    what: &str,
    bytes: &[u8],
    out: &mut Vec<u8>,
) -> Result<(), AllocError> {
    append(out, what)?;
    for word in bytes.chunks(4) {
        append(out, " ")?;
        for byte in word {
            append(out, format!(in alloc; "{byte:02x}")?.as_str())?;
        }
    }
    Ok(())
}

/// Appends the static objects with their addresses.
fn append_anchors(alloc: Global, rows: &LoaderRows, out: &mut Vec<u8>) -> Result<(), AllocError> {
    for (name, address) in rows.anchors.as_slice() {
        append(out, " ")?;
        out.extend_from_slice(name.as_bytes())?;
        append(out, format!(in alloc; " {address:08x}")?.as_str())?;
    }
    Ok(())
}

/// Appends the text and the static objects of the image that is linked of objects, and where these are.
pub fn append_linked(
    alloc: Global,
    target: u8,
    parts: &[Vec<u8>],
    out: &mut Vec<u8>,
) -> Result<(), AllocError> {
    let objects = objects_of(alloc, target, parts)?;
    match link(alloc, &objects) {
        Ok((image, rows)) => {
            append_words(alloc, "text", image.text(), out)?;
            append_words(alloc, " data", image.statics(), out)?;
            append_anchors(alloc, &rows, out)
        }
        Err(fault) => append_fault(&fault, out),
    }
}

/// Appends what is wrong with objects.
fn append_fault(fault: &LinkFault, out: &mut Vec<u8>) -> Result<(), AllocError> {
    let (what, name) = match fault {
        LinkFault::Target => ("target", None),
        LinkFault::Words => ("words", None),
        LinkFault::Size => ("size", None),
        LinkFault::Statics => ("statics", None),
        LinkFault::Rows => ("rows", None),
        LinkFault::Uses => ("uses", None),
        LinkFault::Unresolved { name } => ("unresolved ", Some(name)),
        LinkFault::Doubled { name } => ("doubled ", Some(name)),
        LinkFault::NoMemory => ("no memory", None),
    };
    append(out, what)?;
    if let Some(name) = name {
        out.extend_from_slice(name.as_bytes())?;
    }
    Ok(())
}
