// Tables of texts and what they leave.

use ps_run::{NoDialect, PsCore, PsFault, Steps, run};
use ps_step::text::text_of;
use ps_store::{PsObj, PsStore};
use std::alloc::{AllocError, Global};

/// The most steps of a row's text.
const MOST_STEPS: u32 = 10_000_000;

/// The texts of the operands from the bottom, each behind a space.
fn operands(alloc: Global, core: &PsCore) -> Result<Vec<u8>, AllocError> {
    let mut all = Vec::new(alloc);
    let count = core.operands.len();
    for i in 0..count {
        if let Some(x) = core.operands.get(count - 1 - i) {
            all.push(b' ')?;
            all.extend_from_slice(text_of(&core.store, x, alloc)?.as_slice())?;
        }
    }
    Ok(all)
}

/// What a text leaves within so many steps: the texts of the operands from the bottom, each behind a space, or the error's
/// name, or `spent`.
pub fn left(alloc: Global, text: &str, limit: u32) -> Result<Vec<u8>, AllocError> {
    let mut store = PsStore::new(alloc)?;
    let Ok(t) = store.make_string(text.as_bytes()) else {
        return Vec::from_slice(alloc, b" no text");
    };
    let mut core = PsCore::new(alloc, store)?;
    let mut steps = Steps { taken: 0, limit };
    match run(&mut core, &mut NoDialect, PsObj::Str(t, true), &mut steps) {
        Ok(()) => operands(alloc, &core),
        Err(PsFault::Error(error)) => {
            let mut all = Vec::from_slice(alloc, b" error ")?;
            all.extend_from_slice(error.name().as_bytes())?;
            Ok(all)
        }
        Err(PsFault::Spent) => Vec::from_slice(alloc, b" spent"),
        Err(PsFault::Link) => Vec::from_slice(alloc, b" link"),
        Err(PsFault::NoMemory) => Err(AllocError),
    }
}

/// Whether a line is a row: it is neither empty nor a comment.
fn is_row(line: &str) -> bool {
    !line.is_empty() && !line.starts_with('#')
}

/// Whether a row's text leaves what stands behind ` =>`.
fn agrees(alloc: Global, row: &str) -> Result<bool, AllocError> {
    match row.split_once(" =>") {
        Some((text, want)) => Ok(left(alloc, text, MOST_STEPS)?.as_slice() == want.as_bytes()),
        None => Ok(false),
    }
}

/// A line for each row of a table that leaves something else, and one that tells how many rows agree.
pub fn report(alloc: Global, table: &str) -> Result<Vec<u8>, AllocError> {
    let mut out = Vec::new(alloc);
    let mut count: usize = 0;
    for line in table.lines() {
        if !is_row(line) {
            continue;
        }
        if agrees(alloc, line)? {
            count = count.saturating_add(1);
        } else {
            out.extend_from_slice(b"differs: ")?;
            out.extend_from_slice(line.as_bytes())?;
            out.push(b'\n')?;
        }
    }
    let last = format!(in alloc; "{count} rows agree\n")?;
    out.extend_from_slice(last.as_bytes())?;
    Ok(out)
}
