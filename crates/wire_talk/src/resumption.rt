// A resume, whose messages come one by one.

ghost use Rattle.std.specs.Prelude.{◌≡◌, [], Some, IfOk};
ghost use Rattle.nub_wire.specs.Delivery.{World, LinkSide, side_of};
ghost use Rattle.nub_wire.specs.Calls.{took_on, gave_on};
ghost use Rattle.nub_wire.specs.Spelling.{MsgFits};
ghost use Rattle.wire_talk.specs.Talk.{CountsTalk};
ghost use Rattle.wire_talk.specs.Resuming.{BeginsBy, BeginsTold, GoesOnBy, GoesOnTold};

use crate::fault::TalkFault;
use crate::talk::{hear_next, send_all};
use nub_wire::{Heard, Link, Msg, Side, encode, hear};
use std::marker::Model;

/// A resume that was sent: its turns, and how many bytes of its output came, which are no more.
#[derive(Drop)]
pub struct Resumption {
    turns: u32,
    printed: u64,
}

impl Model for Resumption {
    ghost use Rattle.std.specs.Prelude.{◌≤◌};
    ghost use Rattle.wire_talk.specs.Resuming.{Resuming};

    ghost Value = { Resuming };

    ghost view = { λ r. record { turns = r.turns; printed = r.printed } };

    ghost invariant = { λ r. r.printed ≤ r.turns };
}

impl Resumption {
    /// Sends a Resume of so many turns to a nub.
    pub fn begin<L: Link>(link: &mut L, side: Side, turns: u32) -> Result<Resumption, TalkFault>
        ensures calls { BeginsBy (took_on L.took side) (gave_on L.gave side) turns link.old result link.new }
        ensures cause { CountsTalk (L.faults link.old) result (L.faults link.new) }
        ensures told { (w : World) (s : LinkSide) → L.world link.old ≡ Some w → side_of side w ≡ Some s → s.sent ≡ [] → BeginsTold side turns w result (L.world link.new) }
    {
        let frame = encode(&Msg::Resume { turns });
        match send_all(link, side, frame.as_slice()) {
            Err(fault) => Err(fault),
            Ok(()) => Ok(Resumption { turns, printed: 0 }),
        }
    }

    /// The next message: output, or the end of the run, behind which nothing is owed: it is not called there.
    #[tactic(auto, using(crate::proofs::Resumptions::goes_within))]
    pub fn next<L: Link>(&mut self, link: &mut L, side: Side) -> Result<Msg, TalkFault>
        ensures calls { GoesOnBy (took_on L.took side) (gave_on L.gave side) self.old link.old result self.new link.new }
        ensures fits { IfOk result (λ m. MsgFits m) }
        ensures cause { CountsTalk (L.faults link.old) result (L.faults link.new) }
        ensures told { (w : World) → L.world link.old ≡ Some w → GoesOnTold L.conduct side self.old w result self.new (L.world link.new) }
    {
        let asked = Msg::Resume { turns: self.turns };
        let printed = self.printed;
        match hear_next(link, side, &asked, printed) {
            Err(fault) => Err(fault),
            Ok(message) => {
                if let Heard::GoesOn { printed } = hear(&asked, printed, &message) {
                    self.printed = printed;
                }
                Ok(message)
            }
        }
    }
}
