// Operators that append.

ghost use Rattle.std.specs.Prelude.{◌≡◌, ◌≤◌, ℕ, List};
ghost use Rattle.ps_store.specs.Store.{closed_part};
ghost use Rattle.ps_ops.specs.Acting.{ActsOn};
ghost use Rattle.ps_ops.specs.Desk.{desk_of};
ghost use Rattle.ps_ops.specs.Halts.{LedHalt};

use crate::asking::found;
use crate::halt::{Halt, left, left_over};
use crate::places::frame_for;
use crate::view::View;
use abs_mem::{AbsMem, Joined};
use ldb_words::Text;
use ps_append::{put, put_char, put_chars, string_place};
use ps_leaves::put_pointer;
use ps_places::top_word;
use ps_run::PsCore;

/// `PutPointer`.
fn put_address<W: AbsMem + Drop>(
    view: &View,
    memory: &mut Joined<W>,
    core: &mut PsCore,
    out: &mut Text,
) -> Result<(), Halt>
    ensures acts { ActsOn 30 (desk_of view.now memory.old.below.below.order memory.old.below.cell out.old) (W.seen memory.old.below.below.below) core.old result (desk_of view.now memory.new.below.below.order memory.new.below.cell out.new) (W.seen memory.new.below.below.below) core.new }
    ensures calls { LedHalt W.leads memory.old.below.below.below result memory.new.below.below.below }
    ensures closed { closed_part core.new.store ≡ closed_part core.old.store }
{
    match top_word(core) {
        Err(error) => Err(Halt::Raised(error)),
        Ok(pointer) => match found(view, &core.store, &mut memory.below.below.below, pointer) {
            Err(halt) => Err(halt),
            Ok(object) => left(put_pointer(core, object, out)),
        },
    }
}

/// `PutChars`.
fn put_characters<W: AbsMem + Drop>(
    view: &View,
    memory: &mut Joined<W>,
    core: &mut PsCore,
    out: &mut Text,
) -> Result<(), Halt>
    ensures acts { ActsOn 31 (desk_of view.now memory.old.below.below.order memory.old.below.cell out.old) (W.seen memory.old.below.below.below) core.old result (desk_of view.now memory.new.below.below.order memory.new.below.cell out.new) (W.seen memory.new.below.below.below) core.new }
    ensures calls { LedHalt W.leads memory.old.below.below.below result memory.new.below.below.below }
    ensures closed { closed_part core.new.store ≡ closed_part core.old.store }
{
    match string_place(core) {
        Err(error) => Err(Halt::Raised(error)),
        Ok((place, _)) => {
            match frame_for(
                view,
                &core.store,
                &mut memory.below.below.below,
                place.space,
            ) {
                Ok(frame) => {
                    memory.set_frame(frame.as_ref());
                    left_over(put_chars(core, memory, out))
                }
                Err(halt) => Err(halt),
            }
        },
    }
}

/// An operator that appends: `Put` to `PutChars`.
pub fn append<W: AbsMem + Drop>(
    view: &View,
    memory: &mut Joined<W>,
    core: &mut PsCore,
    out: &mut Text,
    op: u16,
) -> Result<(), Halt>
    requires from { 28 ≤ op }
    requires to { op ≤ 31 }
    ensures acts { ActsOn op (desk_of view.now memory.old.below.below.order memory.old.below.cell out.old) (W.seen memory.old.below.below.below) core.old result (desk_of view.now memory.new.below.below.order memory.new.below.cell out.new) (W.seen memory.new.below.below.below) core.new }
    ensures calls { LedHalt W.leads memory.old.below.below.below result memory.new.below.below.below }
    ensures closed { closed_part core.new.store ≡ closed_part core.old.store }
{
    match op {
        28 => left(put(core, out)),
        29 => left(put_char(core, out)),
        30 => put_address(view, memory, core, out),
        _ => put_characters(view, memory, core, out),
    }
}
