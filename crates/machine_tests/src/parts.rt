// Words, images and memory.

use ldb_words::Order;
use machine_state::{Memory, Width};
use obj_file::{ImageFault, read_image, write_image};
use std::alloc::{AllocError, Global};
use test_rows::append;

/// The number at an index, or 0.
pub fn at(given: &[u32], index: usize) -> u32 {
    given.get(index).copied().unwrap_or(0)
}

/// Appends the instruction of a word as `Debug` writes it, and the word that it is written as.
pub fn append_insn(
    alloc: Global,
    target: &str,
    given: &[u32],
    out: &mut Vec<u8>,
) -> Result<(), AllocError> {
    let word = at(given, 0);
    let told = if target == "mips" {
        match mips_isa::decode(word) {
            Some(insn) => {
                let again = mips_isa::encode(insn);
                format!(in alloc; "{insn:?} {again:08x}")?
            }
            None => String::from_str(alloc, "none")?,
        }
    } else {
        match sparc_isa::decode(word) {
            Some(insn) => {
                let again = sparc_isa::encode(insn);
                format!(in alloc; "{insn:?} {again:08x}")?
            }
            None => String::from_str(alloc, "none")?,
        }
    };
    append(out, told.as_str())
}

/// Appends bytes of base 16.
fn append_bytes(alloc: Global, bytes: &[u8], out: &mut Vec<u8>) -> Result<(), AllocError> {
    append(out, " ")?;
    for byte in bytes {
        let text = format!(in alloc; "{byte:02x}")?;
        append(out, text.as_str())?;
    }
    Ok(())
}

/// The bytes that some numbers are.
pub fn bytes_of(alloc: Global, given: &[u32]) -> Result<Vec<u8>, AllocError> {
    let mut bytes = Vec::new(alloc);
    for number in given {
        bytes.push(u8::try_from(*number).unwrap_or(0))?;
    }
    Ok(bytes)
}

/// Appends the target, entry, text and statics of an image, and its bytes as it is written again; or where it is wrong.
pub fn append_image(alloc: Global, given: &[u32], out: &mut Vec<u8>) -> Result<(), AllocError> {
    let bytes = bytes_of(alloc, given)?;
    match read_image(alloc, &bytes) {
        Ok(image) => {
            let (target, entry) = (image.target(), image.entry());
            let head = format!(in alloc; "target {target} entry {entry:08x}")?;
            append(out, head.as_str())?;
            append_bytes(alloc, image.text(), out)?;
            append_bytes(alloc, image.statics(), out)?;
            let again = write_image(alloc, &image)?;
            append_bytes(alloc, &again, out)
        }
        Err(ImageFault::BadImage { at }) => {
            let told = format!(in alloc; "bad {at}")?;
            append(out, told.as_str())
        }
        Err(ImageFault::NoMemory) => Err(AllocError),
    }
}

/// What an access of the memory answers: 1 for the order with the highest byte first, the address, how many bytes, and for a store the number.
pub fn access(
    alloc: Global,
    memory: &mut Memory,
    kind: &str,
    given: &[u32],
) -> Result<String, AllocError> {
    let order = if at(given, 0) == 1 {
        Order::Big
    } else {
        Order::Little
    };
    let address = at(given, 1);
    let width = match at(given, 2) {
        1 => Width::Byte,
        2 => Width::Half,
        _ => Width::Word,
    };
    match kind {
        "load" => {
            let found = memory.load(order, address, width);
            format!(in alloc; "{found:?}")
        }
        "fetch" => {
            let found = memory.fetch(order, address);
            format!(in alloc; "{found:?}")
        }
        "store" => {
            let found = memory.store(order, address, width, at(given, 3));
            format!(in alloc; "{found:?}")
        }
        _ => {
            let found = memory.read(order, address, width);
            format!(in alloc; "{found:?}")
        }
    }
}
