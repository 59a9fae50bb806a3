// `assign` on one side.

ghost use Rattle.std.specs.Prelude.{◌≡◌, IfErr, Option};
ghost use Rattle.machine_state.specs.State.{Behaviour};
ghost use Rattle.nub_wire.specs.Nub.{Host};
ghost use Rattle.session.specs.Counted.{CountsAsk};
ghost use Rattle.session.specs.Kept.{IsKept, IsStoreFault};
ghost use Rattle.session.specs.Meant.{IsThere, StoredThere, TalksWell};
ghost use Rattle.session.specs.Wanting.{TableStays};

use crate::sides::{SideRecord, turn};
use abs_mem::Wire;
use evaluating::{Changes, assignment, store_all};
use nub_wire::Link;
use ps_ops::Operators;
use table_asks::{AskFault, begin_command, end_command};

/// What an assignment changes on a side. Nothing is stored.
pub fn assigned<L: Link + Drop>(
    talk: &mut Operators<Wire<L>>,
    side: &mut SideRecord,
    text: &[u8],
) -> Result<Changes, AskFault>
    ensures kept { IsKept side.old side.new }
    ensures which { side.new.which ≡ side.old.which }
    ensures same { side.new ≡ record side.old { inquiry = side.new.inquiry } }
    ensures table { TableStays side.old.inquiry.core.store side.new.inquiry.core.store }
    ensures evaluated { (b : Behaviour) (h : Host) (beside : Option Host) → IsThere b L.conduct (L.world talk.old.memory.below.below.below.link) side.old h beside → TalksWell (L.faults talk.old.memory.below.below.below.link) (L.faults talk.new.memory.below.below.below.link) (IsThere b L.conduct (L.world talk.new.memory.below.below.below.link) side.new h beside) result }
    ensures count { CountsAsk (L.faults talk.old.memory.below.below.below.link) (L.faults talk.new.memory.below.below.below.link) result }
{
    turn(talk, side);
    let mark = match begin_command(&mut side.inquiry) {
        Ok(mark) => mark,
        Err(_) => return Err(AskFault::NoMemory),
    };
    let changes = assignment(&mut side.inquiry, talk, side.frame, text);
    end_command(&mut side.inquiry, mark);
    changes
}

/// Stores what an assignment changes on a side.
pub fn store<L: Link + Drop>(
    talk: &mut Operators<Wire<L>>,
    side: &SideRecord,
    changes: &Changes,
) -> Result<(), AskFault>
    ensures stores { (b : Behaviour) (h : Host) (beside : Option Host) → IsThere b L.conduct (L.world talk.old.memory.below.below.below.link) side.now h beside → TalksWell (L.faults talk.old.memory.below.below.below.link) (L.faults talk.new.memory.below.below.below.link) (StoredThere b L.conduct (L.world talk.new.memory.below.below.below.link) side.now h beside) result }
    ensures last { IfErr result (λ fault. IsStoreFault fault) }
    ensures count { CountsAsk (L.faults talk.old.memory.below.below.below.link) (L.faults talk.new.memory.below.below.below.link) result }
{
    turn(talk, side);
    store_all(talk, changes)
}
