// Values are laid out in memory and printed.

use crate::layout::{Layout, layout_of};
use crate::operators::Printer;
use ps_print::load_prelude;
use ps_run::{PsCore, PsFault, Steps, run};
use ps_store::{PsObj, PsStore};
use std::alloc::{AllocError, Global};
use test_rows::{append, numbers, part};

/// Where the value lies, and where the object into which a pointer leads, in a memory of 16,384 bytes.
const VALUE: u32 = 4_096;

const OBJECT: u32 = 12_288;

const SIZE: usize = 16_384;

fn put_byte(memory: &mut Vec<u8>, at: u32, byte: u8) {
    if let Some(place) = memory.get_mut(at as usize) {
        *place = byte;
    }
}

fn put_word(memory: &mut Vec<u8>, at: u32, word: u32, is_big: bool) {
    let bytes = if is_big {
        word.to_be_bytes()
    } else {
        word.to_le_bytes()
    };
    let mut next = at;
    for byte in &bytes {
        put_byte(memory, next, *byte);
        next = next.wrapping_add(1);
    }
}

/// A memory in which the leaves hold these numbers, one after another.
fn memory_of(
    alloc: Global,
    layout: &Layout,
    held: &[u32],
    is_big: bool,
) -> Result<Vec<u8>, AllocError> {
    let mut memory = Vec::new(alloc);
    for _ in 0..SIZE {
        memory.push(0)?;
    }
    for (i, leaf) in layout.leaves.iter().enumerate() {
        let number = held.get(i).copied().unwrap_or(0);
        let at = VALUE.wrapping_add(leaf.at);
        if leaf.is_byte {
            put_byte(&mut memory, at, (number % 256) as u8);
        } else {
            put_word(&mut memory, at, number, is_big);
        }
    }
    Ok(memory)
}

/// The numbers of the value's leaves, and how far in the object a pointer leads.
fn held_by(alloc: Global, kind: &str, parts: &[Vec<u8>]) -> Result<(Vec<u32>, u32), AllocError> {
    let mut held = Vec::new(alloc);
    match kind {
        "null" => {
            held.push(0)?;
            Ok((held, 0))
        }
        "at" => {
            let given = numbers(alloc, part(parts, 2))?;
            let offset = given.first().copied().unwrap_or(0);
            held.push(OBJECT.wrapping_add(offset))?;
            Ok((held, offset))
        }
        _ => Ok((numbers(alloc, part(parts, 1))?, 0)),
    }
}

/// The dialect for a row: `show` and `steps` have the numbers of the leaves, `null` a pointer to nothing, and `at` a pointer into an
/// object with a label, so far in it. A fourth part has the characters that stand there.
fn printer_of(
    alloc: Global,
    layout: &Layout,
    kind: &str,
    parts: &[Vec<u8>],
    is_big: bool,
) -> Result<Printer, AllocError> {
    let (held, offset) = held_by(alloc, kind, parts)?;
    let mut memory = memory_of(alloc, layout, &held, is_big)?;
    let mut characters: u32 = 0;
    if let Some(string) = parts.get(3) {
        let mut at = OBJECT.wrapping_add(offset);
        characters = offset;
        for byte in string {
            put_byte(&mut memory, at, *byte);
            at = at.wrapping_add(1);
            characters = characters.wrapping_add(1);
        }
    }
    let label = if kind == "at" { part(parts, 1) } else { b"o" };
    Ok(Printer {
        alloc,
        memory,
        is_big,
        label: Vec::from_slice(alloc, label)?,
        object: OBJECT,
        characters,
        out: Vec::new(alloc),
    })
}

/// Runs the printer of the type on the value, behind the prelude. The result is how many steps were taken.
fn print(alloc: Global, layout: &Layout, printer: &mut Printer) -> Result<u32, PsFault> {
    let store = PsStore::new(alloc)?;
    let mut core = PsCore::new(alloc, store)?;
    let mut steps = Steps {
        taken: 0,
        limit: 10_000_000,
    };
    load_prelude(&mut core, &mut steps)?;
    if steps.taken > steps.limit {
        return Err(PsFault::Spent);
    }
    let head = format!(in alloc; "/d {VALUE} ")?;
    let mut text = Vec::from_slice(alloc, head.as_bytes())?;
    text.extend_from_slice(&layout.text)?;
    text.extend_from_slice(b"dup /printer get exec")?;
    let t = core.store.make_string(&text)?;
    run(&mut core, printer, PsObj::Str(t, true), &mut steps)?;
    if core.operands.len() > 0 {
        append(&mut printer.out, " and operands")?;
    }
    Ok(steps.taken)
}

/// Appends what is printed in both byte orders, or the fault that ended it; of `steps` whether they are at most a million.
pub fn append_printed(
    alloc: Global,
    kind: &str,
    parts: &[Vec<u8>],
    out: &mut Vec<u8>,
) -> Result<(), AllocError> {
    let layout = layout_of(alloc, part(parts, 0))?;
    let mut little = printer_of(alloc, &layout, kind, parts, false)?;
    let mut big = printer_of(alloc, &layout, kind, parts, true)?;
    let taken = match (
        print(alloc, &layout, &mut little),
        print(alloc, &layout, &mut big),
    ) {
        (Ok(taken), Ok(_)) => taken,
        (Err(fault), _) | (_, Err(fault)) => {
            return append(out, format!(in alloc; "{fault:?}")?.as_str());
        }
    };
    if kind == "steps" {
        let told = if taken <= 1_000_000 { "few" } else { "many" };
        return append(out, told);
    }
    out.extend_from_slice(&little.out)?;
    if little.out.as_slice() != big.out.as_slice() {
        append(out, " but in the other order ")?;
        out.extend_from_slice(&big.out)?;
    }
    Ok(())
}
