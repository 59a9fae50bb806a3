// Operators on places.

ghost use Rattle.std.specs.Prelude.{◌≡◌, ℕ, List, option_map};
ghost use Rattle.ps_store.specs.Store.{closed_part};
ghost use Rattle.ps_ops.specs.Acting.{ActsOn};
ghost use Rattle.ps_ops.specs.Desk.{desk_of};
ghost use Rattle.ps_ops.specs.Asking.{LooksUp, frame_for};
ghost use Rattle.ps_ops.specs.Halts.{LedHalt};

use crate::asking::frame_of;
use crate::halt::{Halt, left, left_over};
use crate::view::View;
use abs_mem::{AbsMem, Joined};
use frame_bytes::{Frame, Space};
use ps_places::{fetch, fetch_of, immediate, local, store, store_of, top_word};
use ps_run::PsCore;
use ps_store::PsStore;

/// The base of a frame.
fn base_of(frame: Option<Frame>) -> Option<u32>
    ensures { result ≡ option_map (λ f. f.base) frame }
{
    match frame {
        None => None,
        Some(frame) => Some(frame.base),
    }
}

/// The frame whose registers a space has: none where it isn't that of registers.
pub fn frame_for<M: AbsMem>(
    view: &View,
    table: &PsStore,
    m: &mut M,
    space: Space,
) -> Result<Option<Frame>, Halt>
    ensures looks { LooksUp table.now (λ b. frame_for view.now table.now b space) (M.seen m.old) result (M.seen m.new) }
    ensures calls { LedHalt M.leads m.old result m.new }
{
    match space {
        Space::Registers => frame_of(view, table, m),
        Space::Memory | Space::Immediate => Ok(None),
    }
}

/// `Local`.
pub fn local_in<W: AbsMem + Drop>(
    view: &View,
    memory: &mut Joined<W>,
    core: &mut PsCore,
) -> Result<(), Halt>
    ensures acts { (out : List ℕ) → ActsOn 2 (desk_of view.now memory.old.below.below.order memory.old.below.cell out) (W.seen memory.old.below.below.below) core.old result (desk_of view.now memory.new.below.below.order memory.new.below.cell out) (W.seen memory.new.below.below.below) core.new }
    ensures calls { LedHalt W.leads memory.old.below.below.below result memory.new.below.below.below }
    ensures closed { closed_part core.new.store ≡ closed_part core.old.store }
{
    match top_word(core) {
        Err(error) => Err(Halt::Raised(error)),
        Ok(_) => match frame_of(view, &core.store, &mut memory.below.below.below) {
            Err(halt) => Err(halt),
            Ok(frame) => left(local(core, base_of(frame))),
        },
    }
}

/// `Immediate`.
pub fn place_value<W: AbsMem + Drop>(
    view: &View,
    memory: &mut Joined<W>,
    core: &mut PsCore,
) -> Result<(), Halt>
    ensures acts { (out : List ℕ) → ActsOn 4 (desk_of view.now memory.old.below.below.order memory.old.below.cell out) (W.seen memory.old.below.below.below) core.old result (desk_of view.now memory.new.below.below.order memory.new.below.cell out) (W.seen memory.new.below.below.below) core.new }
    ensures calls { LedHalt W.leads memory.old.below.below.below result memory.new.below.below.below }
    ensures closed { closed_part core.new.store ≡ closed_part core.old.store }
{
    memory.set_frame(None);
    left_over(immediate(core, memory))
}

/// `fetch`.
pub fn fetch_at<W: AbsMem + Drop>(
    view: &View,
    memory: &mut Joined<W>,
    core: &mut PsCore,
) -> Result<(), Halt>
    ensures acts { (out : List ℕ) → ActsOn 6 (desk_of view.now memory.old.below.below.order memory.old.below.cell out) (W.seen memory.old.below.below.below) core.old result (desk_of view.now memory.new.below.below.order memory.new.below.cell out) (W.seen memory.new.below.below.below) core.new }
    ensures calls { LedHalt W.leads memory.old.below.below.below result memory.new.below.below.below }
    ensures closed { closed_part core.new.store ≡ closed_part core.old.store }
{
    match fetch_of(core) {
        Err(error) => Err(Halt::Raised(error)),
        Ok((place, _)) => match frame_for(
            view,
            &core.store,
            &mut memory.below.below.below,
            place.space,
        ) {
            Err(halt) => Err(halt),
            Ok(frame) => {
                memory.set_frame(frame.as_ref());
                left_over(fetch(core, memory))
            }
        },
    }
}

/// `store`.
pub fn store_at<W: AbsMem + Drop>(
    view: &View,
    memory: &mut Joined<W>,
    core: &mut PsCore,
) -> Result<(), Halt>
    ensures acts { (out : List ℕ) → ActsOn 7 (desk_of view.now memory.old.below.below.order memory.old.below.cell out) (W.seen memory.old.below.below.below) core.old result (desk_of view.now memory.new.below.below.order memory.new.below.cell out) (W.seen memory.new.below.below.below) core.new }
    ensures calls { LedHalt W.leads memory.old.below.below.below result memory.new.below.below.below }
    ensures closed { closed_part core.new.store ≡ closed_part core.old.store }
{
    match store_of(core, view.raw) {
        Err(error) => Err(Halt::Raised(error)),
        Ok((place, _, _)) => match frame_for(
            view,
            &core.store,
            &mut memory.below.below.below,
            place.space,
        ) {
            Err(halt) => Err(halt),
            Ok(frame) => {
                memory.set_frame(frame.as_ref());
                left_over(store(core, memory, view.raw))
            }
        },
    }
}
