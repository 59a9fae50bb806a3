// Operators on pointers and names.

ghost use Rattle.std.specs.Prelude.{◌≡◌, ℕ, List};
ghost use Rattle.ps_store.specs.Store.{closed_part};
ghost use Rattle.ps_ops.specs.Acting.{ActsOn};
ghost use Rattle.ps_ops.specs.Desk.{desk_of};
ghost use Rattle.ps_ops.specs.Halts.{LedHalt};

use crate::asking::{found, found_two, scope_in};
use crate::halt::{Halt, left};
use crate::view::View;
use abs_mem::{AbsMem, Joined};
use ps_leaves::{leaf_operands, leave_leaf, leave_run};
use ps_places::top_word;
use ps_pointers::{
    comparison_operands, difference_operands, leave_difference, leave_order, leave_sum,
    sum_operands,
};
use ps_run::PsCore;
use ps_symbols::{find_symbol, top_name};

/// `Where`.
pub fn find_where<W: AbsMem + Drop>(
    view: &View,
    memory: &mut Joined<W>,
    core: &mut PsCore,
) -> Result<(), Halt>
    ensures acts { (out : List ℕ) → ActsOn 5 (desk_of view.now memory.old.below.below.order memory.old.below.cell out) (W.seen memory.old.below.below.below) core.old result (desk_of view.now memory.new.below.below.order memory.new.below.cell out) (W.seen memory.new.below.below.below) core.new }
    ensures calls { LedHalt W.leads memory.old.below.below.below result memory.new.below.below.below }
    ensures closed { closed_part core.new.store ≡ closed_part core.old.store }
{
    match top_name(core) {
        Err(error) => Err(Halt::Raised(error)),
        Ok(_) => match scope_in(view, &core.store, &mut memory.below.below.below) {
            Err(halt) => Err(halt),
            Ok(scope) => left(find_symbol(core, scope)),
        },
    }
}

/// `ptradd`.
pub fn add<W: AbsMem + Drop>(
    view: &View,
    memory: &mut Joined<W>,
    core: &mut PsCore,
) -> Result<(), Halt>
    ensures acts { (out : List ℕ) → ActsOn 23 (desk_of view.now memory.old.below.below.order memory.old.below.cell out) (W.seen memory.old.below.below.below) core.old result (desk_of view.now memory.new.below.below.order memory.new.below.cell out) (W.seen memory.new.below.below.below) core.new }
    ensures calls { LedHalt W.leads memory.old.below.below.below result memory.new.below.below.below }
    ensures closed { closed_part core.new.store ≡ closed_part core.old.store }
{
    match sum_operands(core) {
        Err(error) => Err(Halt::Raised(error)),
        Ok((pointer, count, size)) => match found(
            view,
            &core.store,
            &mut memory.below.below.below,
            pointer,
        ) {
            Err(halt) => Err(halt),
            Ok(object) => left(leave_sum(core, object, count, size)),
        },
    }
}

/// `ptrsub`.
pub fn subtract<W: AbsMem + Drop>(
    view: &View,
    memory: &mut Joined<W>,
    core: &mut PsCore,
) -> Result<(), Halt>
    ensures acts { (out : List ℕ) → ActsOn 24 (desk_of view.now memory.old.below.below.order memory.old.below.cell out) (W.seen memory.old.below.below.below) core.old result (desk_of view.now memory.new.below.below.order memory.new.below.cell out) (W.seen memory.new.below.below.below) core.new }
    ensures calls { LedHalt W.leads memory.old.below.below.below result memory.new.below.below.below }
    ensures closed { closed_part core.new.store ≡ closed_part core.old.store }
{
    match difference_operands(core) {
        Err(error) => Err(Halt::Raised(error)),
        Ok((p, q, size)) => match found_two(
            view,
            &core.store,
            &mut memory.below.below.below,
            p,
            q,
        ) {
            Err(halt) => Err(halt),
            Ok((object, other)) => left(leave_difference(core, object, other, size)),
        },
    }
}

/// `ptrcmp`.
pub fn compare<W: AbsMem + Drop>(
    view: &View,
    memory: &mut Joined<W>,
    core: &mut PsCore,
) -> Result<(), Halt>
    ensures acts { (out : List ℕ) → ActsOn 25 (desk_of view.now memory.old.below.below.order memory.old.below.cell out) (W.seen memory.old.below.below.below) core.old result (desk_of view.now memory.new.below.below.order memory.new.below.cell out) (W.seen memory.new.below.below.below) core.new }
    ensures calls { LedHalt W.leads memory.old.below.below.below result memory.new.below.below.below }
    ensures closed { closed_part core.new.store ≡ closed_part core.old.store }
{
    match comparison_operands(core) {
        Err(error) => Err(Halt::Raised(error)),
        Ok((p, q)) => match found_two(view, &core.store, &mut memory.below.below.below, p, q) {
            Err(halt) => Err(halt),
            Ok((object, other)) => left(leave_order(core, object, other)),
        },
    }
}

/// `Leaf`.
pub fn take_leaf<W: AbsMem + Drop>(
    view: &View,
    memory: &mut Joined<W>,
    core: &mut PsCore,
) -> Result<(), Halt>
    ensures acts { (out : List ℕ) → ActsOn 26 (desk_of view.now memory.old.below.below.order memory.old.below.cell out) (W.seen memory.old.below.below.below) core.old result (desk_of view.now memory.new.below.below.order memory.new.below.cell out) (W.seen memory.new.below.below.below) core.new }
    ensures calls { LedHalt W.leads memory.old.below.below.below result memory.new.below.below.below }
    ensures closed { closed_part core.new.store ≡ closed_part core.old.store }
{
    match leaf_operands(core) {
        Err(error) => Err(Halt::Raised(error)),
        Ok((pointer, _)) => match found(view, &core.store, &mut memory.below.below.below, pointer) {
            Err(halt) => Err(halt),
            Ok(object) => left(leave_leaf(core, object)),
        },
    }
}

/// `charrun`.
pub fn measure_run<W: AbsMem + Drop>(
    view: &View,
    memory: &mut Joined<W>,
    core: &mut PsCore,
) -> Result<(), Halt>
    ensures acts { (out : List ℕ) → ActsOn 32 (desk_of view.now memory.old.below.below.order memory.old.below.cell out) (W.seen memory.old.below.below.below) core.old result (desk_of view.now memory.new.below.below.order memory.new.below.cell out) (W.seen memory.new.below.below.below) core.new }
    ensures calls { LedHalt W.leads memory.old.below.below.below result memory.new.below.below.below }
    ensures closed { closed_part core.new.store ≡ closed_part core.old.store }
{
    match top_word(core) {
        Err(error) => Err(Halt::Raised(error)),
        Ok(pointer) => match found(view, &core.store, &mut memory.below.below.below, pointer) {
            Err(halt) => Err(halt),
            Ok(object) => left(leave_run(core, object)),
        },
    }
}
