// What an assignment changes.

ghost use Rattle.evaluating.specs.Told.{StoresAll};

use abs_mem::AbsMem;
use frame_bytes::{Frame, Place};
use ldb_words::{Kind, Many};
use ps_ops::Operators;
use table_asks::{AskFault, memory_fault};

/// A leaf to be stored: its place, its kind and the number.
#[derive(Clone, Copy)]
pub struct Leaving {
    pub place: Place,
    pub kind: Kind,
    pub value: u32,
}

/// The leaves that an assignment changes, in order, in a frame.
#[derive(Drop)]
pub struct Changes {
    pub frame: Frame,
    pub leaves: Many<Leaving>,
}

/// Stores the leaves of an assignment, in order. All were fetched before, so no place is outside.
pub fn store_all<W: AbsMem + Drop>(
    talk: &mut Operators<W>,
    changes: &Changes,
) -> Result<(), AskFault>
    ensures { StoresAll W.seen talk.old result talk.new }
{
    talk.memory.set_frame(Some(&changes.frame));
    for leaf in changes.leaves.as_slice() {
        match talk.memory.store(leaf.place, leaf.kind, leaf.value) {
            Ok(()) => {}
            Err(fault) => return Err(memory_fault(fault)),
        }
    }
    Ok(())
}
