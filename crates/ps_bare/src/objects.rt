// Operators on pointers and types. No object is live.

ghost use Rattle.std.specs.Prelude.{◌≡◌, ◌≤◌, ℕ};
ghost use Rattle.ps_store.specs.Store.{closed_part};
ghost use Rattle.ps_bare.specs.Bare.{ActsBare, IsOnObject};

use ps_leaves::{leave_leaf, leave_run};
use ps_places::top_word;
use ps_pointers::{
    comparison_operands, difference_operands, leave_difference, leave_order, leave_sum,
    sum_operands,
};
use ps_run::{PsCore, PsFault};
use ps_symbols::find_struct;

/// `ptradd`.
fn add(core: &mut PsCore) -> Result<(), PsFault>
    ensures acts { (cell : ℕ) → ActsBare 23 cell core.old result cell core.new }
    ensures closed { closed_part core.new.store ≡ closed_part core.old.store }
{
    match sum_operands(core) {
        Ok((_, count, size)) => leave_sum(core, None, count, size),
        Err(error) => Err(PsFault::Error(error)),
    }
}

/// `ptrsub`.
fn subtract(core: &mut PsCore) -> Result<(), PsFault>
    ensures acts { (cell : ℕ) → ActsBare 24 cell core.old result cell core.new }
    ensures closed { closed_part core.new.store ≡ closed_part core.old.store }
{
    match difference_operands(core) {
        Ok((_, _, size)) => leave_difference(core, None, None, size),
        Err(error) => Err(PsFault::Error(error)),
    }
}

/// `ptrcmp`.
fn compare(core: &mut PsCore) -> Result<(), PsFault>
    ensures acts { (cell : ℕ) → ActsBare 25 cell core.old result cell core.new }
    ensures closed { closed_part core.new.store ≡ closed_part core.old.store }
{
    match comparison_operands(core) {
        Ok(_) => leave_order(core, None, None),
        Err(error) => Err(PsFault::Error(error)),
    }
}

/// `Leaf`.
fn take_leaf(core: &mut PsCore) -> Result<(), PsFault>
    ensures acts { (cell : ℕ) → ActsBare 26 cell core.old result cell core.new }
    ensures closed { closed_part core.new.store ≡ closed_part core.old.store }
{
    leave_leaf(core, None)
}

/// `charrun`.
fn measure_run(core: &mut PsCore) -> Result<(), PsFault>
    ensures acts { (cell : ℕ) → ActsBare 32 cell core.old result cell core.new }
    ensures closed { closed_part core.new.store ≡ closed_part core.old.store }
{
    match top_word(core) {
        Ok(_) => leave_run(core, None),
        Err(error) => Err(PsFault::Error(error)),
    }
}

/// An operator on pointers: `ptradd` to `Leaf`, `charrun`; and `Struct`.
pub fn run_on_object(core: &mut PsCore, op: u16) -> Result<(), PsFault>
    requires { IsOnObject op }
    ensures acts { (cell : ℕ) → ActsBare op cell core.old result cell core.new }
    ensures closed { closed_part core.new.store ≡ closed_part core.old.store }
{
    match op {
        23 => add(core),
        24 => subtract(core),
        25 => compare(core),
        26 => take_leaf(core),
        27 => find_struct(core, false),
        _ => measure_run(core),
    }
}
