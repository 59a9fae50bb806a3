// What a text of PostScript leaves, and in how many steps.

use ps_run::{NoDialect, PsCore, PsFault, Steps, run};
use ps_step::text::text_of;
use ps_store::{PsObj, PsStore, StoreFault};
use std::alloc::{AllocError, Global};

/// Appends the operands from the bottom, one a line, as `cvs` writes them.
fn append_operands(out: &mut Vec<u8>, core: &PsCore, alloc: Global) -> Result<(), AllocError> {
    let count = core.operands.len();
    for i in 0..count {
        if let Some(x) = core.operands.get(count - 1 - i) {
            out.extend_from_slice(text_of(&core.store, x, alloc)?.as_slice())?;
            out.push(b'\n')?;
        }
    }
    Ok(())
}

/// The name of what ended a run.
fn name_of(fault: PsFault) -> &'static str {
    match fault {
        PsFault::Error(error) => error.name(),
        PsFault::Spent => "spent",
        PsFault::Link => "link",
        PsFault::NoMemory => "nomemory",
    }
}

/// The lines that tell how a run ended, and its steps.
fn lines_of(
    alloc: Global,
    core: &PsCore,
    ended: Result<(), PsFault>,
    taken: u32,
) -> Result<Vec<u8>, AllocError> {
    let mut out = Vec::new(alloc);
    match ended {
        Ok(()) => append_operands(&mut out, core, alloc)?,
        Err(PsFault::NoMemory) => return Err(AllocError),
        Err(fault) => {
            out.extend_from_slice(name_of(fault).as_bytes())?;
            out.push(b'\n')?;
        }
    }
    let steps = format!(in alloc; "{taken} steps\n")?;
    out.extend_from_slice(steps.as_bytes())?;
    Ok(out)
}

/// Runs a text in a new state, and gives the lines that tell what it left: the operands from the bottom, or the name
/// of the error that ended it, or `spent` after 4,294,967,295 steps, and then the number of steps.
pub fn report(alloc: Global, text: &[u8]) -> Result<Vec<u8>, AllocError> {
    let mut store = PsStore::new(alloc)?;
    let t = match store.make_string(text) {
        Ok(t) => t,
        Err(StoreFault::NoMemory) => return Err(AllocError),
        Err(_) => return Vec::from_slice(alloc, b"limitcheck\n0 steps\n"),
    };
    let mut core = PsCore::new(alloc, store)?;
    let mut steps = Steps {
        taken: 0,
        limit: u32::MAX,
    };
    let ended = run(&mut core, &mut NoDialect, PsObj::Str(t, true), &mut steps);
    lines_of(alloc, &core, ended, steps.taken)
}
