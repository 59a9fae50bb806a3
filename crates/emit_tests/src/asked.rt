// What a table leaves, asked by a text of PostScript.

use crate::programs::{list_program, none_program};
use ps_emit::table;
use ps_print::load_prelude;
use ps_run::{NoDialect, PsCore, PsFault, Steps, run};
use ps_step::text::text_of;
use ps_store::{PsObj, PsStore};
use std::alloc::{AllocError, Global};
use test_rows::{append, numbers, part};

/// The text of the table of a program: `none` has nothing but `main`, `list` has every kind of item.
fn table_of(alloc: Global, program: &[u8], target: u8) -> Result<Vec<u8>, AllocError> {
    let (program, placement) = if program == b"none".as_slice() {
        none_program(alloc, target)?
    } else {
        list_program(alloc, target)?
    };
    let text = table(alloc, &program, &placement)?;
    Ok(text.into_vec())
}

/// Runs a table in a dictionary of its own, and then a text on what it leaves.
fn run_text(
    alloc: Global,
    core: &mut PsCore,
    table: &[u8],
    text: &[u8],
    steps: &mut Steps,
) -> Result<(), PsFault> {
    let mut whole = Vec::from_slice(alloc, b"1 dict begin ")?;
    whole.extend_from_slice(table)?;
    whole.extend_from_slice(text)?;
    let t = core.store.make_string(&whole)?;
    if steps.taken > steps.limit {
        return Err(PsFault::Spent);
    }
    run(core, &mut NoDialect, PsObj::Str(t, true), steps)
}

/// The same behind the prelude, by an interpreter of its own.
fn run_on(alloc: Global, table: &[u8], text: &[u8]) -> Result<PsCore, PsFault> {
    let store = PsStore::new(alloc)?;
    let mut core = PsCore::new(alloc, store)?;
    let mut steps = Steps {
        taken: 0,
        limit: 10_000_000,
    };
    load_prelude(&mut core, &mut steps)?;
    run_text(alloc, &mut core, table, text, &mut steps)?;
    Ok(core)
}

/// Appends the operands from the bottom, as `cvs` writes them.
fn append_operands(out: &mut Vec<u8>, core: &PsCore, alloc: Global) -> Result<(), AllocError> {
    let count = core.operands.len();
    for i in 0..count {
        if let Some(x) = core.operands.get(count - 1 - i) {
            if i > 0 {
                append(out, " ")?;
            }
            out.extend_from_slice(text_of(&core.store, x, alloc)?.as_slice())?;
        }
    }
    Ok(())
}

/// Uses each unit of a table once.
const EACH_UNIT: &[u8] = b"/units get { /functions get exec pop } forall ";

/// Whether the text of a table, the units of the store and the steps that it takes when it is run and each of its units is used are at most as many.
fn is_within(alloc: Global, table: &[u8], most: &[u32]) -> Result<bool, PsFault> {
    let store = PsStore::new(alloc)?;
    let mut core = PsCore::new(alloc, store)?;
    let mut steps = Steps {
        taken: 0,
        limit: 10_000_000,
    };
    load_prelude(&mut core, &mut steps)?;
    let before = steps.taken;
    let held = core.store.mark().units;
    run_text(alloc, &mut core, table, EACH_UNIT, &mut steps)?;
    let units = core.store.mark().units.saturating_sub(held);
    let taken = steps.taken.saturating_sub(before);
    match most {
        [bytes, made, count] => {
            Ok(table.len() <= *bytes as usize && units <= *made && taken <= *count)
        }
        _ => Ok(false),
    }
}

/// Appends whether a table keeps within a number of bytes, units and steps, or the fault that ended it.
pub fn append_cost(alloc: Global, parts: &[Vec<u8>], out: &mut Vec<u8>) -> Result<(), AllocError> {
    let table = table_of(alloc, part(parts, 0), 1)?;
    let most = numbers(alloc, part(parts, 1))?;
    match is_within(alloc, &table, &most) {
        Ok(true) => append(out, "within"),
        Ok(false) => append(out, "more"),
        Err(fault) => append(out, format!(in alloc; "{fault:?}")?.as_str()),
    }
}

/// Appends what a text leaves, whose first operand is the table of a program, for `mips` or `sparc`, or the fault that ended it.
pub fn append_asked(
    alloc: Global,
    kind: &str,
    parts: &[Vec<u8>],
    out: &mut Vec<u8>,
) -> Result<(), AllocError> {
    let target = if kind == "sparc" { 2 } else { 1 };
    let table = table_of(alloc, part(parts, 0), target)?;
    match run_on(alloc, &table, part(parts, 1)) {
        Ok(core) => append_operands(out, &core, alloc),
        Err(fault) => append(out, format!(in alloc; "{fault:?}")?.as_str()),
    }
}
