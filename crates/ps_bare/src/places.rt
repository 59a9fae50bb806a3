// Operators on places and names.

ghost use Rattle.std.specs.Prelude.{◌≡◌, ◌≤◌, ℕ};
ghost use Rattle.ps_store.specs.Store.{closed_part};
ghost use Rattle.ps_bare.specs.Bare.{ActsBare, quiet};

use abs_mem::{NoMem, Register};
use ps_places::{Trouble, absolute, fetch, immediate, local, register, store};
use ps_run::{PsCore, PsError, PsFault};
use ps_symbols::{anchor, top_name};

/// What an operator over a memory answers. The memory of no target always has an answer.
pub fn quiet(answer: Result<(), Trouble>) -> Result<(), PsFault>
    ensures { result ≡ quiet answer }
{
    match answer {
        Ok(()) => Ok(()),
        Err(Trouble::Ps(fault)) => Err(fault),
        Err(Trouble::Broken(_)) => Err(PsFault::Link),
    }
}

/// `Immediate`.
fn place_value(core: &mut PsCore, memory: &mut Register<NoMem>) -> Result<(), PsFault>
    ensures acts { ActsBare 4 memory.old.cell core.old result memory.new.cell core.new }
    ensures closed { closed_part core.new.store ≡ closed_part core.old.store }
{
    quiet(immediate(core, memory))
}

/// `fetch`.
fn fetch_bare(core: &mut PsCore, memory: &mut Register<NoMem>) -> Result<(), PsFault>
    ensures acts { ActsBare 6 memory.old.cell core.old result memory.new.cell core.new }
    ensures closed { closed_part core.new.store ≡ closed_part core.old.store }
{
    quiet(fetch(core, memory))
}

/// `store`.
fn store_bare(core: &mut PsCore, memory: &mut Register<NoMem>) -> Result<(), PsFault>
    ensures acts { ActsBare 7 memory.old.cell core.old result memory.new.cell core.new }
    ensures closed { closed_part core.new.store ≡ closed_part core.old.store }
{
    quiet(store(core, memory, false))
}

/// `Where`, in no frame.
fn find_nowhere(core: &mut PsCore) -> Result<(), PsFault>
    ensures acts { (cell : ℕ) → ActsBare 5 cell core.old result cell core.new }
    ensures closed { closed_part core.new.store ≡ closed_part core.old.store }
{
    match top_name(core) {
        Ok(_) => Err(PsFault::Error(PsError::RangeCheck)),
        Err(error) => Err(PsFault::Error(error)),
    }
}

/// An operator on a place: `Anchor` to `store`.
pub fn run_on_place(core: &mut PsCore, memory: &mut Register<NoMem>, op: u16) -> Result<(), PsFault>
    requires { op ≤ 7 }
    ensures acts { ActsBare op memory.old.cell core.old result memory.new.cell core.new }
    ensures closed { closed_part core.new.store ≡ closed_part core.old.store }
{
    match op {
        0 => anchor(core, false),
        1 => absolute(core),
        2 => local(core, None),
        3 => register(core),
        4 => place_value(core, memory),
        5 => find_nowhere(core),
        6 => fetch_bare(core, memory),
        _ => store_bare(core, memory),
    }
}
