// A nub in this program, and the bytes on the way.

ghost use Rattle.std.specs.Prelude.{◌≡◌, ◌≤◌, ◌+◌, [], ◌∷◌, ◌++◌, ◌<◌, length, take, drop, min, nat_eq, true, Some, None, IfSome, IfNone, IfOk};
ghost use Rattle.nub_wire.specs.Spelling.{frame_of};
ghost use Rattle.nub_wire.specs.Delivery.{LinkSide, fitting, with_sent, takes_bytes, after_byte, Reaches, Delivers, Runs, Moves, WaitsOut, UntilAnswer, is_roomy, some_ready, all_ready, without_ready};
ghost use Rattle.targets.specs.Targets.{machine_behaviour};
ghost use Rattle.nub_wire.specs.Rest.{IsFresh};
ghost use Rattle.near_link.specs.Near.{machine_in, near_conduct, BeginsSide};

use crate::machine::NearMachine;
use crate::queue::{Queue, ROOM};
use nub_core::Nub;
use nub_wire::{Entry, Fed, Feeder, Msg, encode};
use obj_file::Image;
use std::alloc::{AllocError, Global};
use std::marker::Model;

/// How many bytes the longest frame has.
const LONGEST: usize = 1027;

/// A nub and the bytes on the way: those sent that did not reach it, and its answers, of which the first so many bytes
/// are ready.
#[derive(Drop)]
pub struct NearSide {
    sent: Queue,
    feeder: Feeder,
    nub: Nub<NearMachine>,
    back: Queue,
    ready: usize,
}

impl Model for NearSide {
    ghost use Rattle.std.specs.Prelude.{◌≤◌, length, take, drop};
    ghost use Rattle.nub_wire.specs.Delivery.{LinkSide};

    ghost Value = { LinkSide };

    ghost view = { λ s. record {
      sent = s.sent;
      feeding = s.feeder;
      host = s.nub;
      answers = drop s.ready s.back;
      ready = take s.ready s.back;
    } };

    ghost invariant = { λ s. s.ready ≤ length s.back };
}

impl NearSide {
    /// A nub that got no message yet.
    pub fn new(machine: NearMachine) -> NearSide
        requires { (machine_in machine).given ≡ 0 }
        ensures { IsFresh machine_behaviour (machine_in machine) result }
    {
        NearSide {
            sent: Queue::new(),
            feeder: Feeder::new(),
            nub: Nub::new(machine),
            back: Queue::new(),
            ready: 0,
        }
    }

    /// A fresh side of the machine of an image.
    #[tactic(auto, using(crate::proofs::Worlds::given_zero, crate::proofs::Worlds::begins_side))]
    pub fn begun(alloc: Global, image: &Image) -> Result<NearSide, AllocError>
        ensures { IfOk result (λ s. BeginsSide image.now s) }
    {
        let machine = NearMachine::new(alloc, image)?;
        Ok(NearSide::new(machine))
    }

    /// Takes as many bytes as there is room for.
    pub fn take(&mut self, piece: &[u8]) -> usize
        ensures bound { result ≤ length piece.now }
        ensures count { result ≡ fitting piece.now (Some self.old) }
        ensures taken { self.new ≡ with_sent (take result piece.now) self.old }
    {
        let count = piece.len().min(ROOM - self.sent.len());
        self.sent.append(&piece[..count]);
        count
    }

    /// Whether there is room for one more answer.
    fn is_roomy(&self) -> bool
        ensures { result ≡ is_roomy self.now }
    {
        self.back.len() + LONGEST <= ROOM
    }

    /// Whether the nub takes a byte.
    fn takes_bytes(&self) -> bool
        ensures { result ≡ takes_bytes self.now }
    {
        !self.nub.is_open() && (!self.nub.is_blocked() && self.is_roomy())
    }

    /// Adds the frame of a message to the answers.
    #[tactic(auto, using(crate::proofs::Queues::drop_append, crate::proofs::Queues::take_append))]
    fn answer(&mut self, reply: &Msg)
        requires { length self.old.ready + length self.old.answers + LONGEST ≤ ROOM }
        ensures { self.new ≡ record self.old { answers = self.old.answers ++ frame_of reply.now } }
    {
        let frame = encode(reply);
        self.back.append(&frame);
    }

    /// The nub hears what came of a byte.
    fn hear(&mut self, fed: Fed)
        requires shut { self.old.host.nub.left ≡ None }
        requires room { length self.old.ready + length self.old.answers + LONGEST ≤ ROOM }
        ensures heard { self.new ≡ after_byte near_conduct fed self.old }
        ensures sent { self.new.sent ≡ self.old.sent }
        ensures ready { self.new.ready ≡ self.old.ready }
    {
        match fed {
            Fed::NotYet => {}
            Fed::BadFrame { .. } => self.nub.block(),
            Fed::Msg { msg, .. } => {
                if let Some(reply) = self.nub.handle(&msg) {
                    self.answer(&reply);
                }
            }
        }
    }

    /// The first byte sent reaches the nub, which takes one.
    fn reach(&mut self, byte: u8)
        requires shut { self.old.host.nub.left ≡ None }
        requires room { length self.old.ready + length self.old.answers + LONGEST ≤ ROOM }
        requires first { self.old.sent ≡ byte ∷ drop 1 self.old.sent }
        ensures reaches { Reaches near_conduct self.old self.new }
        ensures sent { self.new.sent ≡ drop 1 self.old.sent }
        ensures ready { self.new.ready ≡ self.old.ready }
    {
        self.sent.skip(1);
        let fed = self.feeder.feed(&[byte]);
        self.hear(fed);
    }

    /// At most so many of the bytes sent reach the nub, fewer only where there are no more or it takes no more.
    #[tactic(auto, using(crate::proofs::Waits::comes_first, crate::proofs::Waits::comes_on, crate::proofs::Waits::comes_end, crate::proofs::Waits::comes_none, crate::proofs::Waits::comes_shut))]
    fn deliver(&mut self, most: usize)
        ensures delivers { Delivers near_conduct most self.old self.new }
        ensures ready { self.new.ready ≡ self.old.ready }
    {
        for _delivered in 0..most {
            if !self.takes_bytes() {
                return;
            }
            match self.sent.first() {
                None => return,
                Some(byte) => self.reach(byte),
            }
        }
    }

    /// Runs the nub up to its next message within so many instructions, and says how many are left then; none where there is
    /// no message.
    #[tactic(auto, using(crate::proofs::Waits::stretch_tells, crate::proofs::Waits::stretch_grows, crate::proofs::Waits::stretch_quiet))]
    fn stretch(&mut self, left: u32) -> Option<u32>
        requires { is_roomy self.old ≡ true }
        ensures tells { IfSome result (λ rest. (t : LinkSide) → Runs near_conduct rest self.new t → Runs near_conduct left self.old t) }
        ensures grows { IfSome result (λ rest. length self.old.ready + length self.old.answers < length self.new.ready + length self.new.answers) }
        ensures quiet { IfNone result (Runs near_conduct left self.old self.new) }
    {
        match self.nub.turn_counted(left) {
            None => None,
            Some(told) => {
                self.answer(&told.message);
                Some(left - told.count)
            }
        }
    }

    /// Runs the nub for at most so many instructions, which may give several messages, and none without room for an answer.
    #[tactic(auto, using(crate::proofs::Waits::run_full, crate::proofs::Waits::roomy_below))]
    fn run(&mut self, most: u32)
        ensures { Runs near_conduct most self.old self.new }
    {
        let mut left = most;
        while self.is_roomy() {
            match self.stretch(left) {
                None => return,
                Some(rest) => left = rest,
            }
        }
    }

    /// At most so many bytes of the answers become ready.
    #[tactic(auto, using(crate::proofs::Queues::more_taken, crate::proofs::Queues::more_left))]
    fn make_ready(&mut self, most: usize)
        ensures { self.new ≡ some_ready most self.old }
    {
        self.ready = self.back.len().min(self.ready.saturating_add(most));
    }

    /// Does what an entry of a schedule says.
    pub fn move_by(&mut self, entry: &Entry)
        ensures { Moves near_conduct entry.now self.old self.new }
    {
        self.deliver(entry.piece as usize);
        self.run(entry.instructions);
        self.make_ready(entry.piece as usize);
    }

    /// All answers become ready.
    #[tactic(auto, using(crate::proofs::Queues::all_taken, crate::proofs::Queues::none_left))]
    fn make_all_ready(&mut self)
        ensures { self.new ≡ all_ready self.old }
    {
        self.ready = self.back.len();
    }

    /// Whether there are no answers that are not ready.
    #[tactic(auto, using(crate::proofs::Queues::none_behind))]
    fn is_silent(&self) -> bool
        ensures { result ≡ nat_eq (length self.now.answers) 0 }
    {
        self.back.len() == self.ready
    }

    /// Runs the nub to its next answer where it has none.
    #[tactic(auto, using(crate::proofs::Waits::answered_already, crate::proofs::Waits::runs_to))]
    fn answer_on(&mut self)
        requires quiet { self.old.ready ≡ [] }
        ensures { UntilAnswer near_conduct self.old self.new }
    {
        if !self.is_silent() {
            return;
        }
        if !self.nub.is_open() {
            return;
        }
        if let Some(message) = self.nub.next_message() {
            self.answer(&message);
        }
    }

    /// A wait where nothing is ready and no schedule is left.
    #[tactic(auto, using(crate::proofs::Waits::wait_answered, crate::proofs::Waits::wait_silent))]
    pub fn wait_out(&mut self)
        requires none { self.old.ready ≡ [] }
        ensures { WaitsOut near_conduct self.old self.old.answers self.new }
    {
        if !self.is_silent() {
            self.make_all_ready();
            return;
        }
        let count = self.sent.len();
        self.deliver(count);
        self.answer_on();
        self.make_all_ready();
    }

    /// How many bytes are ready.
    pub fn ready(&self) -> usize
        ensures { result ≡ length self.now.ready }
    {
        self.ready
    }

    /// Gives as many bytes that are ready as the buffer takes.
    #[tactic(auto, using(crate::proofs::Queues::take_rest, crate::proofs::Queues::drop_rest))]
    pub fn give(&mut self, buf: &mut [u8]) -> usize
        ensures bound { result ≤ length buf.new }
        ensures given { take result buf.new ≡ take (length buf.new) self.old.ready }
        ensures left { self.new ≡ without_ready (length buf.new) self.old }
    {
        let count = copy_front(&self.back.as_slice()[..self.ready], buf);
        self.back.skip(count);
        self.ready -= count;
        count
    }
}

/// Copies the front of `bytes` to the front of a buffer, as much as fits.
fn copy_front(bytes: &[u8], buf: &mut [u8]) -> usize
    ensures count { result ≡ min (length buf.new) (length bytes.now) }
    ensures front { take result buf.new ≡ take (length buf.new) bytes.now }
    ensures rest { drop result bytes.now ≡ drop (length buf.new) bytes.now }
{
    let count = buf.len().min(bytes.len());
    buf[..count].copy_from_slice(&bytes[..count]);
    count
}
