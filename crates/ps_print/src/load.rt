// The prelude is loaded.

ghost use Rattle.std.specs.Prelude.{◌≡◌, ◌+◌, ◌<◌, [], OnOk};
ghost use Rattle.ps_print.specs.Loaded.{new_core, Prepares, Ran, Loads, ended};

use crate::prelude::prelude_text;
use ps_run::{NoDialect, PsCore, PsFault, Steps, run};
use ps_store::{PsObj, PsStore, StoreFault, StringId};

/// Makes the names of the spaces, and the prelude's text.
fn prepare(store: &mut PsStore) -> Result<StringId, StoreFault>
    ensures { Prepares result store.old store.new }
{
    store.make_name(b"d")?;
    store.make_name(b"r")?;
    store.make_name(b"i")?;
    store.make_string(prelude_text())
}

/// Runs the prelude's text in a new state.
fn run_prelude(core: &mut PsCore, steps: &mut Steps) -> Result<(), PsFault>
    requires new { core.old ≡ new_core }
    requires enough { steps.old.taken + 75 < steps.old.limit }
    ensures ran { Ran result core.new }
    ensures steps { OnOk result (steps.new.taken ≡ steps.old.taken + 75) }
{
    let text = prepare(&mut core.store)?;
    run(core, &mut NoDialect, PsObj::Str(text, true), steps)
}

/// Closes what was made, and puts an empty base dictionary on top.
fn finish(core: &mut PsCore) -> Result<(), PsFault>
    requires { core.old ≡ record ended { execution = [] } }
    ensures { Loads result core.new }
{
    core.store.close_all();
    let d = core.store.make_dict()?;
    core.store.add_base(d)?;
    core.dictionaries.push(d)?;
    Ok(())
}

/// Loads the prelude in a new state: the names of the spaces, and the printers. What it makes is closed, and an empty base
/// dictionary comes on top. It takes 75 steps, and answers no error.
pub fn load_prelude(core: &mut PsCore, steps: &mut Steps) -> Result<(), PsFault>
    requires new { core.old ≡ new_core }
    requires enough { steps.old.taken + 75 < steps.old.limit }
    ensures loads { Loads result core.new }
    ensures steps { OnOk result (steps.new.taken ≡ steps.old.taken + 75) }
{
    run_prelude(core, steps)?;
    finish(core)
}
