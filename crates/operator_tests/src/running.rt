// Texts are run.

ghost use Rattle.std.specs.Prelude.{◌≤◌};

use crate::talks::Talk;
use ldb_words::Text;
use ps_run::{Dialect, PsCore, PsFault, Steps, run};
use ps_store::{Part, PsObj, PsStore};
use std::alloc::{AllocError, Global};
use test_rows::append;

/// The most steps of a text.
const MOST_STEPS: u32 = 10_000_000;

pub fn steps() -> Steps
    ensures { result.taken ≤ result.limit }
{
    Steps {
        taken: 0,
        limit: MOST_STEPS,
    }
}

/// Says how a run ended, if not well.
pub fn append_end(out: &mut Vec<u8>, ended: Result<(), PsFault>) -> Result<(), AllocError> {
    match ended {
        Ok(()) => Ok(()),
        Err(PsFault::Error(error)) => append(out, error.name()),
        Err(_) => append(out, "spent"),
    }
}

pub fn append_object(
    alloc: Global,
    store: &PsStore,
    object: PsObj,
    out: &mut Vec<u8>,
) -> Result<(), AllocError> {
    match object {
        PsObj::Int(n) => append(out, format!(in alloc; "{n}")?.as_str()),
        PsObj::Bool(true) => append(out, "true"),
        PsObj::Bool(false) => append(out, "false"),
        PsObj::Name(t, _) => {
            append(out, "/")?;
            out.extend_from_slice(store.string_get(t))
        }
        PsObj::Str(t, _) => {
            append(out, "(")?;
            out.extend_from_slice(store.string_get(t))?;
            append(out, ")")
        }
        PsObj::Array(a, _) => {
            let n = store.array_get(a).len();
            append(out, format!(in alloc; "array of {n}")?.as_str())
        }
        PsObj::Dict(d) => {
            let n = store.dict_len(d);
            append(out, format!(in alloc; "dict of {n}")?.as_str())
        }
        _ => append(out, "-"),
    }
}

/// Runs a text over a table's store with a dialect. Appends the operands from the bottom, and then the name of the error, if one
/// came.
pub fn append_run<D: Dialect>(
    alloc: Global,
    store: PsStore,
    dialect: &mut D,
    text: &[u8],
    out: &mut Vec<u8>,
) -> Result<(), AllocError> {
    let mut store = store;
    store.use_part(Part::Command);
    let Ok(t) = store.make_string(text) else {
        return append(out, "no text");
    };
    let mut core = PsCore::new(alloc, store)?;
    let ended = run(&mut core, dialect, PsObj::Str(t, true), &mut steps());
    let count = core.operands.len();
    for above in 0..count {
        if let Some(object) = core.operands.get(count - 1 - above) {
            append_object(alloc, &core.store, object, out)?;
            append(out, " ")?;
        }
    }
    append_end(out, ended)
}

/// Runs a text over a table's store and a target. Behind what is left and the error stands the text that was appended, in bars.
pub fn append_run_on(
    alloc: Global,
    store: PsStore,
    talk: &mut Talk,
    text: &[u8],
    out: &mut Vec<u8>,
) -> Result<(), AllocError> {
    talk.out = Text::new(alloc);
    talk.memory.below.cell = 0;
    append_run(alloc, store, talk, text, out)?;
    append(out, "|")?;
    out.extend_from_slice(talk.out.as_bytes())?;
    append(out, "|")
}
