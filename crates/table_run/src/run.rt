// A table's text is run.
ghost use Rattle.std.specs.Prelude.{◌≡◌, ◌≢◌, IfOk, IfErr, Err};
ghost use Rattle.ps_step.specs.declared.fault.PsFault.TheVariants.{NoMemory as WantsMemory};
ghost use Rattle.ps_print.specs.Loaded.{loaded};
ghost use Rattle.table_run.specs.Shape.{HasShape};
ghost use Rattle.table_run.specs.Tables.{RunsText, why, left_by, IsTableOf};
ghost use Rattle.table_run.specs.declared.run.TableFault.TheVariants.{NoMemory as OutOfMemory};

use crate::shape::is_table;
use ps_bare::NoTarget;
use ps_print::load_prelude;
use ps_run::{PsCore, PsError, PsFault, Steps, run};
use ps_store::{DictId, PsObj, PsStore};
use std::alloc::{AllocError, Global};

/// The most steps of the prelude, and of a table.
const MOST_STEPS: u32 = 10_000_000;

/// Why a table gives no store: an error that it doesn't catch, all steps spent, what it leaves, or want of memory.
#[derive(Clone, Copy, Debug)]
pub enum TableFault {
    Raised(PsError),
    Spent,
    Shape,
    NoMemory,
}

impl From<AllocError> for TableFault {
    ghost from_gives = { λ _ fault. fault ≡ OutOfMemory };

    fn from(_: AllocError) -> TableFault {
        TableFault::NoMemory
    }
}

/// What a fault of a run is for the table. No link is asked while a table runs.
fn fault_of(fault: PsFault) -> TableFault
    ensures { result ≡ why fault }
{
    match fault {
        PsFault::Error(error) => TableFault::Raised(error),
        PsFault::Spent => TableFault::Spent,
        PsFault::Link | PsFault::NoMemory => TableFault::NoMemory,
    }
}

/// No step of a run was taken.
fn no_steps() -> Steps
    ensures taken { result.taken ≡ 0 }
    ensures limit { result.limit ≡ MOST_STEPS }
{
    Steps {
        taken: 0,
        limit: MOST_STEPS,
    }
}

/// A new state behind the prelude.
fn loaded(alloc: Global) -> Result<PsCore, TableFault>
    ensures ok { IfOk result (λ core. core ≡ loaded) }
    ensures err { IfErr result (λ fault. fault ≡ OutOfMemory) }
{
    let store = PsStore::new(alloc)?;
    let mut core = PsCore::new(alloc, store)?;
    let mut steps = no_steps();
    match load_prelude(&mut core, &mut steps) {
        Ok(()) => Ok(core),
        Err(fault) => Err(fault_of(fault)),
    }
}

/// Runs a text with no target.
fn run_text(core: &mut PsCore, text: &[u8]) -> Result<(), PsFault>
    ensures { result ≢ Err WantsMemory → RunsText core.old text.now result core.new }
{
    let text = core.store.make_string(text)?;
    let mut steps = no_steps();
    run(
        core,
        &mut NoTarget { cell: 0 },
        PsObj::Str(text, true),
        &mut steps,
    )
}

/// The dictionary that was left, where nothing else was.
fn left_by(core: &PsCore) -> Option<DictId>
    ensures { result ≡ left_by core.now }
{
    if core.operands.len() != 1 || core.dictionaries.len() != core.store.base().len() {
        return None;
    }
    match core.operands.get(0) {
        Some(PsObj::Dict(top)) => Some(top),
        _ => None,
    }
}

/// The store that the table of this text leaves, closed and with its top set, where the table has the shape of one for the target.
///
/// A text of more than 16,777,216 bytes raises limitcheck, and Spent comes where 10,000,000 steps are taken.
pub fn run_table(alloc: Global, text: &[u8], target: u8) -> Result<PsStore, TableFault>
    ensures comes { IsTableOf text.now target result }
    ensures shape { IfOk result (λ store. HasShape store target) }
{
    let mut core = loaded(alloc)?;
    if let Err(fault) = run_text(&mut core, text) {
        return Err(fault_of(fault));
    }
    let Some(top) = left_by(&core) else {
        return Err(TableFault::Shape);
    };
    let mut store = core.into_store();
    store.close_all();
    store.set_top(top);
    if is_table(&mut store, target, top) {
        Ok(store)
    } else {
        Err(TableFault::Shape)
    }
}
