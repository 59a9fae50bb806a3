// The link.

ghost use Rattle.std.specs.Prelude.{◌≡◌, ◌≤◌, ◌⊎◌, ℕ, List, ◌∷◌, [], true, false, is_some, nat_eq, ◌<◌, length, take, drop, IfOk, None, Some};
ghost use Rattle.near_link.specs.Near.{near_conduct, Begins};
ghost use Rattle.nub_wire.specs.declared.link.Entry.{Entry};
ghost use Rattle.nub_wire.specs.Delivery.{LinkSide, fitting, side_of, on_side, with_sent, Enters, Waits, Receives, ready_of, without_ready};

use crate::machine::NearMachine;
use crate::side::NearSide;
use ldb_edge::Failed;
use nub_wire::{Entry, Link, Side};
use obj_file::Image;
use std::alloc::{AllocError, Global};
use std::marker::Model;

/// A link to one or two nubs in this program, whose bytes a schedule delivers. It never fails.
#[derive(Drop)]
pub struct NearLink {
    first: NearSide,
    second: Option<NearSide>,
    schedule: Vec<Entry>,
    taken: usize,
}

impl Model for NearLink {
    ghost use Rattle.std.specs.Prelude.{drop, ◌≤◌, vec_len};
    ghost use Rattle.nub_wire.specs.Delivery.{World};

    ghost Value = { World };

    ghost view = { λ l. record { first = l.first; second = l.second; schedule = drop l.taken l.schedule.items } };

    ghost invariant = { λ l. l.taken ≤ vec_len l.schedule };
}

impl NearLink {
    /// A link to a fresh nub with the machine of an image.
    fn of_one(alloc: Global, first: &Image, schedule: Vec<Entry>) -> Result<NearLink, AllocError>
        ensures { IfOk result (λ l. Begins (first.now ∷ []) schedule.items l) }
    {
        Ok(NearLink {
            first: NearSide::begun(alloc, first)?,
            second: None,
            schedule,
            taken: 0,
        })
    }

    /// A link to fresh nubs with the machines of two images.
    fn of_two(
        alloc: Global,
        first: &Image,
        second: &Image,
        schedule: Vec<Entry>,
    ) -> Result<NearLink, AllocError>
        ensures { IfOk result (λ l. Begins (first.now ∷ second.now ∷ []) schedule.items l) }
    {
        let first = NearSide::begun(alloc, first)?;
        let second = NearSide::begun(alloc, second)?;
        Ok(NearLink {
            first,
            second: Some(second),
            schedule,
            taken: 0,
        })
    }

    /// A link to fresh nubs with the machines of one or two images, and a schedule.
    pub fn new(
        alloc: Global,
        images: &[Image],
        schedule: Vec<Entry>,
    ) -> Result<NearLink, AllocError>
        requires { (length images.now ≡ 1) ⊎ (length images.now ≡ 2) }
        ensures { IfOk result (λ l. Begins images.now schedule.items l) }
    {
        match images {
            [first] => NearLink::of_one(alloc, first, schedule),
            [first, second] => NearLink::of_two(alloc, first, second, schedule),
            _ => unreachable!(),
        }
    }

    /// Takes as many bytes of a piece as there is room for; a side that there isn't takes none.
    pub fn take(&mut self, side: Side, piece: &[u8]) -> usize
        ensures bound { result ≤ length piece.now }
        ensures count { result ≡ fitting piece.now (side_of side self.old) }
        ensures taken { self.new ≡ on_side side (with_sent (take result piece.now)) self.old }
    {
        match side {
            Side::First => self.first.take(piece),
            Side::Second => match &mut self.second {
                None => 0,
                Some(second) => second.take(piece),
            },
        }
    }

    /// Whether there is such a side.
    fn has(&self, side: Side) -> bool
        ensures { result ≡ is_some (side_of side self.now) }
    {
        match side {
            Side::First => {
                let _first = &self.first;
                true
            }
            Side::Second => self.second.is_some(),
        }
    }

    /// Whether no bytes of a side are ready.
    fn is_silent(&self, side: Side) -> bool
        ensures { result ≡ nat_eq (length (ready_of (side_of side self.now))) 0 }
    {
        match side {
            Side::First => self.first.ready() == 0,
            Side::Second => match &self.second {
                None => true,
                Some(second) => second.ready() == 0,
            },
        }
    }

    /// Moves the side of an entry.
    fn move_by(&mut self, entry: &Entry)
        ensures enters { Enters near_conduct entry.now self.old self.new }
        ensures sides { is_some self.new.second ≡ is_some self.old.second }
        ensures schedule { self.new.schedule ≡ self.old.schedule }
    {
        match entry.side {
            Side::First => self.first.move_by(entry),
            Side::Second => {
                if let Some(second) = &mut self.second {
                    second.move_by(entry);
                }
            }
        }
    }

    /// Takes the next entry of the schedule, if there is one.
    #[tactic(auto, using(crate::proofs::Worlds::one_entry, crate::proofs::Worlds::none_over, crate::proofs::Worlds::shorter_by))]
    fn enter(&mut self) -> bool
        ensures entered { result ≡ true → (e : Entry) × (rest : List Entry) × (self.old.schedule ≡ e ∷ rest) × Enters near_conduct e (record self.old { schedule = rest }) self.new }
        ensures over { result ≡ false → (self.old.schedule ≡ []) × (self.new ≡ self.old) }
        ensures shorter { result ≡ true → length self.new.schedule < length self.old.schedule }
        ensures sides { is_some self.new.second ≡ is_some self.old.second }
    {
        if self.taken == self.schedule.len() {
            return false;
        }
        let entry = self.schedule[self.taken];
        self.taken += 1;
        self.move_by(&entry);
        true
    }

    /// A wait for a side once the schedule is used up.
    fn wait_out(&mut self, side: Side)
        requires over { self.old.schedule ≡ [] }
        requires silent { ready_of (side_of side self.old) ≡ [] }
        requires there { is_some (side_of side self.old) ≡ true }
        ensures { Waits near_conduct side self.old self.new }
    {
        match side {
            Side::First => self.first.wait_out(),
            Side::Second => {
                if let Some(second) = &mut self.second {
                    second.wait_out();
                }
            }
        }
    }

    /// Waits until bytes of a side are ready, or there are none to come.
    #[tactic(auto, using(crate::proofs::Worlds::waits_first, crate::proofs::Worlds::waits_entered, crate::proofs::Worlds::waits_ready, crate::proofs::Worlds::waits_on, crate::proofs::Worlds::silent_is, crate::proofs::Worlds::there_still))]
    fn wait(&mut self, side: Side)
        requires { is_some (side_of side self.old) ≡ true }
        ensures { Waits near_conduct side self.old self.new }
    {
        while self.is_silent(side) {
            if !self.enter() {
                self.wait_out(side);
                return;
            }
        }
    }

    /// Gives bytes of a side that are ready.
    fn give_ready(&mut self, side: Side, buf: &mut [u8]) -> usize
        ensures bound { result ≤ length buf.new }
        ensures given { take result buf.new ≡ take (length buf.new) (ready_of (side_of side self.old)) }
        ensures left { self.new ≡ on_side side (without_ready (length buf.new)) self.old }
    {
        match side {
            Side::First => self.first.give(buf),
            Side::Second => match &mut self.second {
                None => 0,
                Some(second) => second.give(buf),
            },
        }
    }

    /// Gives as many bytes of a side's answers as are ready and the buffer takes, after a wait where none are ready.
    #[tactic(auto, using(crate::proofs::Worlds::gets_nothing, crate::proofs::Worlds::gets_absent, crate::proofs::Worlds::gets_some))]
    pub fn give(&mut self, side: Side, buf: &mut [u8]) -> usize
        ensures bound { result ≤ length buf.new }
        ensures given { Receives near_conduct side (length buf.new) (take result buf.new) self.old self.new }
    {
        if buf.is_empty() {
            return 0;
        }
        if !self.has(side) {
            return 0;
        }
        self.wait(side);
        self.give_ready(side, buf)
    }
}

impl Link for NearLink {
    ghost use Rattle.std.specs.Prelude.{Some, None};
    ghost use Rattle.near_link.specs.Near.{near_conduct};
    ghost use Rattle.near_link.specs.Steps.{near_took, near_gave};

    ghost world = { λ l. Some l };

    ghost conduct = { near_conduct };

    ghost faults = { λ _. 0 };

    ghost took = { λ s side piece n t. near_took s side piece n t };

    ghost gave = { λ s side size bytes t. near_gave s side size bytes t };

    fn send(&mut self, side: Side, piece: &[u8]) -> Result<usize, Failed> {
        Ok(self.take(side, piece))
    }

    fn receive(&mut self, side: Side, buf: &mut [u8]) -> Result<usize, Failed> {
        Ok(self.give(side, buf))
    }
}
