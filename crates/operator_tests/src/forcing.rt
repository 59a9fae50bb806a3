// Deferred entries are used twice.

ghost use Rattle.std.specs.Prelude.{◌≤◌};

use crate::running::{append_end, append_object, steps};
use ps_bare::{NoTarget, force_unit};
use ps_force::force;
use ps_run::{PsCore, PsFault, Steps};
use ps_store::{DictId, Key, PsObj, PsStore};
use std::alloc::{AllocError, Global};
use table_read::{dict_in, entry, units_of};
use test_rows::{append, numbers};

/// Whether two objects are one and the same array or dictionary, or equal numbers.
fn same(x: PsObj, y: PsObj) -> bool {
    match (x, y) {
        (PsObj::Int(m), PsObj::Int(n)) => m == n,
        (PsObj::Array(a, _), PsObj::Array(b, _)) => a.part == b.part && a.index == b.index,
        (PsObj::Dict(d), PsObj::Dict(e)) => d == e,
        _ => false,
    }
}

/// A use of an entry: what it gave, whether steps were taken for it, and what stands there then.
#[derive(Clone, Copy)]
struct Use {
    given: Result<PsObj, PsFault>,
    has_run: bool,
    kept: Option<PsObj>,
}

/// Appends an object, or `the same` where it is another one.
fn append_told(
    alloc: Global,
    store: &PsStore,
    object: PsObj,
    other: Option<PsObj>,
    out: &mut Vec<u8>,
) -> Result<(), AllocError> {
    match other {
        Some(x) if same(x, object) => append(out, "the same"),
        _ => append_object(alloc, store, object, out),
    }
}

/// Appends a use behind one that gave an object, or nothing.
fn append_use(
    alloc: Global,
    store: &PsStore,
    used: Use,
    before: Option<PsObj>,
    out: &mut Vec<u8>,
) -> Result<(), AllocError> {
    match used.given {
        Ok(object) => append_told(alloc, store, object, before, out)?,
        Err(fault) => append_end(out, Err(fault))?,
    }
    append(
        out,
        if used.has_run {
            " by steps, "
        } else {
            " at once, "
        },
    )?;
    match used.kept {
        Some(object) => append_told(alloc, store, object, before.or(used.given.ok()), out),
        None => append(out, "nothing"),
    }
}

/// Appends two uses of an entry.
fn append_uses(
    alloc: Global,
    store: &PsStore,
    first: Use,
    second: Use,
    out: &mut Vec<u8>,
) -> Result<(), AllocError> {
    append_use(alloc, store, first, None, out)?;
    append(out, "; ")?;
    append_use(alloc, store, second, first.given.ok(), out)
}

/// Uses the entry of a dictionary under a key.
fn use_entry(core: &mut PsCore, d: DictId, key: &Key, steps: &mut Steps) -> Use
    requires within { steps.old.taken ≤ steps.old.limit }
    ensures within { steps.new.taken ≤ steps.new.limit }
{
    let before = steps.taken;
    let given = force(core, &mut NoTarget { cell: 0 }, d, key, steps);
    Use {
        given,
        has_run: steps.taken > before,
        kept: core.store.dict_get(d, key),
    }
}

/// What stands under `/functions` of the unit with a number.
fn functions(store: &PsStore, unit: usize) -> Option<PsObj> {
    let units = units_of(store).ok()?;
    let unit = dict_in(*units.get(unit)?).ok()?;
    entry(store, unit, b"functions").ok()
}

/// Runs the functions of a unit, which gives what stands there then.
fn use_unit(core: &mut PsCore, unit: usize, steps: &mut Steps) -> Use
    requires within { steps.old.taken ≤ steps.old.limit }
    ensures within { steps.new.taken ≤ steps.new.limit }
{
    let before = steps.taken;
    let ended = force_unit(core, unit, steps);
    let kept = functions(&core.store, unit);
    let given = match ended {
        Ok(()) => Ok(kept.unwrap_or(PsObj::Null)),
        Err(fault) => Err(fault),
    };
    Use {
        given,
        has_run: steps.taken > before,
        kept,
    }
}

/// Uses an entry of the table's top twice.
pub fn append_forced(
    alloc: Global,
    store: PsStore,
    name: &[u8],
    out: &mut Vec<u8>,
) -> Result<(), AllocError> {
    let (Some(top), Some(key)) = (store.top(), Key::name(name)) else {
        return append(out, "no key");
    };
    let mut core = PsCore::new(alloc, store)?;
    let mut steps = steps();
    let first = use_entry(&mut core, top, &key, &mut steps);
    let second = use_entry(&mut core, top, &key, &mut steps);
    append_uses(alloc, &core.store, first, second, out)
}

/// Runs the functions of the unit with a number twice.
pub fn append_unit(
    alloc: Global,
    store: PsStore,
    text: &[u8],
    out: &mut Vec<u8>,
) -> Result<(), AllocError> {
    let given = numbers(alloc, text)?;
    let unit = given.first().copied().unwrap_or(0) as usize;
    let mut core = PsCore::new(alloc, store)?;
    let mut steps = steps();
    let first = use_unit(&mut core, unit, &mut steps);
    let second = use_unit(&mut core, unit, &mut steps);
    append_uses(alloc, &core.store, first, second, out)
}
