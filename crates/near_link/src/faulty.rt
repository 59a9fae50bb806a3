// A link of which one call goes wrong.

ghost use Rattle.std.specs.Prelude.{◌≡◌, ◌≤◌, length, take, min, Some, None, IfOk, OnErr};
ghost use Rattle.ldb_edge.specs.Count.{CountsFailure, Rose};
ghost use Rattle.near_link.specs.Faulty.{Faulty, called, mishap_of, failed_once, done_frame, FaultySends, FaultyReceives};

use crate::near::NearLink;
use ldb_edge::Failed;
use nub_wire::{Link, Side};
use std::marker::Model;

/// How a call goes wrong.
#[derive(Clone, Copy, PartialEq, Eq, Debug)]
pub enum Mishap {
    /// It fails, and the count rises.
    Fail,
    /// It answers 0.
    Silent,
    /// A receive gives the first bytes of the frame of Done; a send goes well.
    Done,
}

/// The frame of Done.
const DONE: [u8; 3] = [0, 1, 0x82];

/// A link that tells no machines, of which one call goes wrong and every other is that of the link below.
#[derive(Drop)]
pub struct FaultyLink {
    below: NearLink,
    calls: Option<u64>,
    how: Mishap,
    count: u64,
}

impl Model for FaultyLink {
    ghost use Rattle.near_link.specs.Faulty.{Faulty};

    ghost Value = { Faulty };

    ghost view = { λ f. record { below = f.below; calls = f.calls; how = f.how; count = f.count } };
}

impl FaultyLink {
    /// A link of which call number `at` goes wrong, counted from 0 over sends and receives.
    pub fn new(below: NearLink, at: u64, how: Mishap) -> FaultyLink
        ensures { result ≡ record { below = below; calls = Some at; how = how; count = 0 } }
    {
        FaultyLink {
            below,
            calls: Some(at),
            how,
            count: 0,
        }
    }

    /// Counts a call, and says whether it goes wrong, and how.
    fn call(&mut self) -> Option<Mishap>
        ensures mishap { result ≡ mishap_of self.old.calls self.old.how }
        ensures called { self.new ≡ called self.old }
    {
        match self.calls {
            None => None,
            Some(0) => {
                self.calls = None;
                Some(self.how)
            }
            Some(more) => {
                self.calls = Some(more - 1);
                None
            }
        }
    }

    /// Counts a fault.
    fn fail(&mut self) -> Failed
        ensures failed { self.new ≡ failed_once self.old }
        ensures rose { Rose self.old.count self.new.count }
    {
        self.count = self.count.saturating_add(1);
        Failed
    }
}

/// Gives the first bytes of the frame of Done, as many as the buffer takes.
fn give_done(buf: &mut [u8]) -> usize
    ensures bound { result ≤ length buf.new }
    ensures given { take result buf.new ≡ take (length buf.new) done_frame }
{
    let count = buf.len().min(3);
    buf[..count].copy_from_slice(&DONE[..count]);
    count
}

impl Link for FaultyLink {
    ghost use Rattle.std.specs.Prelude.{None, IfSome, option_map};
    ghost use Rattle.near_link.specs.Near.{near_conduct};
    ghost use Rattle.near_link.specs.Steps.{faulty_took, FaultyGave};
    ghost use Rattle.nub_wire.specs.Delivery.{OnWorlds, Receives, fitting, side_of, on_side, with_sent};

    ghost world = { λ f. None };

    ghost conduct = { near_conduct };

    ghost faults = { λ f. f.count };

    ghost took = { λ s side piece n t. faulty_took s side piece n t };

    ghost gave = { λ s side size bytes t. FaultyGave s side size bytes t };

    fn send(&mut self, side: Side, piece: &[u8]) -> Result<usize, Failed>
        ensures bound { IfOk result (λ n. n ≤ length piece.now) }
        ensures cause { CountsFailure self.old.count self.new.count result }
        ensures exact { FaultySends side piece.now self.old result self.new }
    {
        match self.call() {
            Some(Mishap::Fail) => Err(self.fail()),
            Some(Mishap::Silent) => Ok(0),
            Some(Mishap::Done) => Ok(self.below.take(side, piece)),
            None => Ok(self.below.take(side, piece)),
        }
    }

    fn receive(&mut self, side: Side, buf: &mut [u8]) -> Result<usize, Failed>
        ensures bound { IfOk result (λ n. n ≤ length buf.new) }
        ensures cause { CountsFailure self.old.count self.new.count result }
        ensures exact { FaultyReceives side buf.new self.old result self.new }
    {
        match self.call() {
            Some(Mishap::Fail) => Err(self.fail()),
            Some(Mishap::Silent) => Ok(0),
            Some(Mishap::Done) => Ok(give_done(buf)),
            None => Ok(self.below.give(side, buf)),
        }
    }
}
