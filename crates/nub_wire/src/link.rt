// A link to one or two nubs.

ghost use Rattle.std.specs.Prelude.{◌≡◌, ℕ, ◌≤◌, List, [], Option, length, take, IfOk, OnErr, IfSome, option_map};
ghost use Rattle.ldb_edge.specs.Count.{CountsFailure};

use ldb_edge::Failed;

/// The nub that is meant.
#[derive(Clone, Copy, PartialEq, Eq, Debug)]
pub enum Side {
    First,
    Second,
}

/// An entry of a schedule: at most `piece` bytes sent to a side reach its nub, which runs at most `instructions` where
/// it is resumed, and at most `piece` bytes of its answers become ready.
#[derive(Clone, Copy, PartialEq, Eq, Debug)]
pub struct Entry {
    pub side: Side,
    pub instructions: u32,
    pub piece: u32,
}

/// A link to one or two nubs, which delivers bytes in pieces of any size.
pub trait Link {
    ghost use Rattle.nub_wire.specs.Delivery.{World, Conduct, OnWorlds, Receives, fitting, side_of, on_side, with_sent};
    ghost use Rattle.nub_wire.specs.declared.link.Side.{Side};

    /// The nubs and machines behind it with the bytes on the way and what is left of the schedule, where it tells them.
    ghost world: { Self → Option World };

    /// What the nubs behind it reply, and what their machines do, each by the target in its record.
    ghost conduct: { Conduct };

    /// How often it failed. It stands still at 2^64 - 1.
    ghost faults: { Self → ℕ };

    /// From a link a send of a piece took so many bytes of it and left another. Only the calls of a link give this.
    ghost took: { Self → Side → List ℕ → ℕ → Self → Type 0 };

    /// From a link a receive into a buffer of so many bytes gave these and left another. Only the calls of a link give this.
    ghost gave: { Self → Side → ℕ → List ℕ → Self → Type 0 };

    /// Takes the front of a piece for a nub, as much as there is room for, and says how many bytes.
    fn send(&mut self, side: Side, piece: &[u8]) -> Result<usize, Failed>
        ensures bound { IfOk result (λ n. n ≤ length piece.now) }
        ensures room { IfOk result (λ n. IfSome (world self.old) (λ w. n ≡ fitting piece.now (side_of side w))) }
        ensures bytes { IfOk result (λ n. world self.new ≡ option_map (on_side side (with_sent (take n piece.now))) (world self.old)) }
        ensures call { IfOk result (λ n. took self.old side piece.now n self.new) }
        ensures err { OnErr result (world self.new ≡ world self.old) }
        ensures cause { CountsFailure (faults self.old) (faults self.new) result };

    /// Fills the front of a buffer with answers of a nub. 0 for a buffer that isn't empty says that none are ready and
    /// none will be until something is sent.
    fn receive(&mut self, side: Side, buf: &mut [u8]) -> Result<usize, Failed>
        ensures bound { IfOk result (λ n. n ≤ length buf.new) }
        ensures bytes { IfOk result (λ n. OnWorlds (Receives conduct side (length buf.new) (take n buf.new)) (world self.old) (world self.new)) }
        ensures call { IfOk result (λ n. gave self.old side (length buf.new) (take n buf.new) self.new) }
        ensures err { OnErr result (world self.new ≡ world self.old) }
        ensures cause { CountsFailure (faults self.old) (faults self.new) result };
}
