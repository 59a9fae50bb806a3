// A link that finds the calls at which the first bytes of a frame come that isn't Done's.

ghost use Rattle.std.specs.Prelude.{◌≡◌};

use ldb_edge::Failed;
use near_link::NearLink;
use nub_wire::{Link, Side};

/// The frame of Done.
const DONE: [u8; 3] = [0, 1, 0x82];

/// A link of which call number `at`, counted from 0 over sends and receives, fails if it is a receive that gives the first bytes of another frame than Done's. A frame is received to its end before the next one, on whichever side.
#[derive(Drop)]
pub struct OtherFrameFails {
    below: NearLink,
    at: u64,
    made: u64,
    to_come: usize,
    faults: u64,
}

/// How many bytes of a frame are to come behind a piece, before which so many were.
fn left_behind(to_come: usize, piece: &[u8]) -> usize {
    let whole = match piece {
        [high, low, ..] if to_come == 0 => 256 * usize::from(*high) + usize::from(*low) + 2,
        _ => to_come,
    };
    whole.saturating_sub(piece.len())
}

impl OtherFrameFails {
    pub fn new(below: NearLink, at: u64) -> OtherFrameFails {
        OtherFrameFails {
            below,
            at,
            made: 0,
            to_come: 0,
            faults: 0,
        }
    }

    /// Counts a call, and says whether it is the one that is meant.
    fn is_meant(&mut self) -> bool
        ensures { self.new.faults ≡ self.old.faults }
    {
        let is_meant = self.made == self.at;
        self.made = self.made.saturating_add(1);
        is_meant
    }

    /// Notes a piece, and says whether it begins another frame than Done's.
    fn begins_other(&mut self, piece: &[u8]) -> bool
        ensures { self.new.faults ≡ self.old.faults }
    {
        let is_first = self.to_come == 0;
        self.to_come = left_behind(self.to_come, piece);
        is_first && !piece.is_empty() && piece != DONE.as_slice()
    }
}

impl Link for OtherFrameFails {
    ghost use Rattle.std.specs.Prelude.{None};
    ghost use Rattle.near_link.specs.Near.{near_conduct};

    ghost world = { λ _. None };

    ghost conduct = { near_conduct };

    ghost faults = { λ l. l.faults };

    ghost took = { λ _ _ _ _ _. Unit {0} };

    ghost gave = { λ _ _ _ _ _. Unit {0} };

    fn send(&mut self, side: Side, piece: &[u8]) -> Result<usize, Failed> {
        let _is_meant = self.is_meant();
        Ok(self.below.take(side, piece))
    }

    fn receive(&mut self, side: Side, buf: &mut [u8]) -> Result<usize, Failed> {
        let is_meant = self.is_meant();
        let count = self.below.give(side, buf);
        let begins_other = self.begins_other(&buf[..count]);
        if is_meant && begins_other {
            self.faults = self.faults.saturating_add(1);
            return Err(Failed);
        }
        Ok(count)
    }
}
