// The nub.

ghost use Rattle.std.specs.Prelude.{◌≡◌, ◌≢◌, ◌^◌, ◌-◌, IsSome, ◌<◌, ◌≤◌, length, IfNone, Some, None, is_some};
ghost use Rattle.machine_state.specs.State.{order_of, with_memory, given_input};
ghost use Rattle.machine_state.specs.Regions.{read_of, write_of};
ghost use Rattle.nub_wire.specs.Nub.{first_host, handled, served, blocked, settled, concluded, due_of, requested, acted, advanced, running, turn_of, host, resumed, pc_of, with_output, turned, told_output, told_ending, fetch_reply, after_done, done_or_outside};
ghost use Rattle.nub_wire.specs.Spelling.{size_byte};

use arrayvec::ArrayVec;
use ldb_words::Event;
use machine_state::{CONTEXT, Target};
use nub_wire::{Cause, Chunk, Ending, Msg, Size, ending_of, is_final, reply_of};
use std::marker::Model;

/// How many bytes of output one message tells.
const OUTPUT_SIZE: usize = 1024;
/// Where the context block has pc: its word 34.
const PC: u32 = CONTEXT + 136;

/// A nub with its machine.
#[derive(Drop)]
pub struct Nub<T: Target> {
    target: T,
    is_killed: bool,
    is_blocked: bool,
    ended: Option<Ending>,
    left: Option<u32>,
    output: ArrayVec<u8, 1024>,
}

impl<T: Target> Model for Nub<T> {
    ghost use Rattle.nub_wire.specs.Nub.{Host};

    ghost Value = { Host };

    ghost view = { λ n. record {
      nub = record { killed = n.is_killed; blocked = n.is_blocked; ended = n.ended; left = n.left; output = n.output.items };
      machine = T.state n.target;
    } };
}

/// How many bytes a size is.
fn width_of(size: Size) -> u8
    ensures { result ≡ size_byte size }
{
    match size {
        Size::Byte => 1,
        Size::Word => 4,
    }
}

/// The message that something was done, or that it is outside.
fn done_or_outside(done: bool) -> Msg
    ensures { result ≡ done_or_outside done }
{
    if done { Msg::Done } else { Msg::Outside }
}

impl<T: Target> Nub<T> {
    /// A nub that got no message yet, over a machine that got no input yet. It saves the context block.
    pub fn new(target: T) -> Nub<T>
        requires { (T.state target).given ≡ 0 }
        ensures { result ≡ first_host T.behaviour (T.state target) }
    {
        let mut target = target;
        let _ = target.save();
        Nub {
            target,
            is_killed: false,
            is_blocked: false,
            ended: None,
            left: None,
            output: ArrayVec::new(),
        }
    }

    /// Bytes came that begin no frame: from then on it answers nothing.
    pub fn block(&mut self)
        ensures { self.new ≡ blocked self.old }
    {
        self.is_blocked = true;
    }

    /// Whether a resume is open.
    pub fn is_open(&self) -> bool
        ensures { result ≡ is_some self.now.nub.left }
    {
        self.left.is_some()
    }

    /// Whether bytes came that begin no frame.
    pub fn is_blocked(&self) -> bool
        ensures { result ≡ self.now.nub.blocked }
    {
        self.is_blocked
    }

    /// The word or the byte at an address.
    fn fetch(&self, address: u32, size: Size) -> Msg
        ensures { result ≡ fetch_reply (read_of (order_of self.now.machine) self.now.machine.memory address (size_byte size)) }
    {
        match self.target.read(address, width_of(size)) {
            Ok(value) => Msg::Word { value },
            Err(_) => Msg::Outside,
        }
    }

    /// Goes on, or says again how the run ended.
    fn resume(&mut self, turns: u32) -> Option<Msg>
        ensures { resumed T.behaviour turns self.old.nub.ended self.old ≡ (result, self.new) }
    {
        if let Some(ending) = self.ended {
            return Some(reply_of(ending));
        }
        self.target.restore();
        self.left = Some(turns);
        None
    }

    /// Stores the lowest bytes of a number.
    fn store(&mut self, address: u32, size: Size, value: u32) -> Msg
        ensures { after_done self.old.nub (with_memory (write_of (order_of self.old.machine) self.old.machine.memory address (size_byte size) value) self.old.machine) ≡ (Some result, self.new) }
    {
        done_or_outside(self.target.write(address, width_of(size), value).is_ok())
    }

    /// Appends input.
    fn input(&mut self, bytes: &[u8]) -> Msg
        ensures { after_done self.old.nub (given_input bytes.now self.old.machine) ≡ (Some result, self.new) }
    {
        done_or_outside(self.target.give(bytes))
    }

    /// The reply of a nub that was not killed.
    #[tactic(auto, unfolding(nub_wire::specs::Nub::served))]
    fn serve(&mut self, m: &Msg) -> Option<Msg>
        ensures { served T.behaviour m.now self.old ≡ (result, self.new) }
    {
        match m {
            Msg::Hello => Some(Msg::Word { value: CONTEXT }),
            Msg::Fetch { address, size } => Some(self.fetch(*address, *size)),
            Msg::Store {
                address,
                size,
                value,
            } => Some(self.store(*address, *size, *value)),
            Msg::Resume { turns } => self.resume(*turns),
            Msg::Kill => {
                self.is_killed = true;
                Some(Msg::Done)
            }
            Msg::Input { bytes } => Some(self.input(bytes.as_slice())),
            Msg::Word { .. }
            | Msg::Done
            | Msg::Outside
            | Msg::Stopped { .. }
            | Msg::Output { .. }
            | Msg::Exited { .. }
            | Msg::Faulted { .. }
            | Msg::Turns
            | Msg::Stack => Some(Msg::Outside),
        }
    }

    /// The reply to a message, or none where it comes later, as `turn` gives it.
    #[tactic(auto, unfolding(nub_wire::specs::Nub::handled))]
    pub fn handle(&mut self, m: &Msg) -> Option<Msg>
        requires { self.old.nub.left ≡ None }
        ensures { handled T.behaviour m.now self.old ≡ (result, self.new) }
    {
        if self.is_blocked {
            return None;
        }
        if self.is_killed {
            return Some(Msg::Outside);
        }
        self.serve(m)
    }

    /// The context's pc.
    fn pc(&self) -> u32
        ensures { result ≡ pc_of self.now.machine }
    {
        match self.target.read(PC, 4) {
            Ok(value) => value,
            Err(_) => 0,
        }
    }

    /// Ends the run: the windows are flushed and the context block is saved.
    #[tactic(auto, unfolding(nub_wire::specs::Nub::concluded))]
    fn conclude(&mut self, cause: Cause)
        ensures { self.new ≡ concluded T.behaviour cause self.old }
    {
        let is_flushed = self.target.save().is_ok();
        let pc = self.pc();
        self.ended = Some(ending_of(cause, is_flushed, pc));
    }

    /// Ends the run where no turns are left.
    #[tactic(auto, unfolding(nub_wire::specs::Nub::settled))]
    fn settle(&mut self)
        ensures { self.new ≡ settled T.behaviour self.old }
    {
        match (self.ended, self.left) {
            (None, Some(0)) => self.conclude(Cause::Turns),
            _ => {}
        }
    }

    /// The output gathered, as a message.
    fn tell_output(&mut self) -> Msg
        requires { 1 ≤ length self.old.nub.output }
        ensures { told_output self.old ≡ (Some result, self.new) }
    {
        let bytes = self.output.take();
        Msg::Output {
            bytes: Chunk::new(bytes),
        }
    }

    /// The message that ends the resume.
    fn tell_ending(&mut self, ending: Ending) -> Msg
        ensures { told_ending ending self.old ≡ (Some result, self.new) }
    {
        self.ended = if is_final(ending) { Some(ending) } else { None };
        self.left = None;
        reply_of(ending)
    }

    /// The message that is due in an open resume, if one is.
    #[tactic(auto, unfolding(nub_wire::specs::Nub::due_of))]
    fn due(&mut self) -> Option<Msg>
        ensures due { due_of T.behaviour self.old ≡ (result, self.new) }
        ensures room { IfNone result (length self.new.nub.output < OUTPUT_SIZE) }
        ensures goes_on { IfNone result (self.new.nub.ended ≡ None) }
    {
        self.settle();
        match self.ended {
            Some(ending) => {
                if self.output.is_empty() {
                    Some(self.tell_ending(ending))
                } else {
                    Some(self.tell_output())
                }
            }
            None => {
                if self.output.is_full() {
                    Some(self.tell_output())
                } else {
                    None
                }
            }
        }
    }

    /// Gathers the byte that was put.
    fn gather(&mut self)
        requires { length self.old.nub.output < OUTPUT_SIZE }
        ensures { self.new ≡ with_output self.old }
    {
        if let Some(byte) = self.target.written() {
            self.output.push(byte);
        }
    }

    /// Does what a request asks of the nub.
    #[tactic(auto, unfolding(nub_wire::specs::Nub::requested))]
    fn request(&mut self, number: u8)
        requires { length self.old.nub.output < OUTPUT_SIZE }
        ensures { self.new ≡ requested T.behaviour number self.old }
    {
        match number {
            2 => self.gather(),
            3 => {
                let status = self.target.argument();
                self.conclude(Cause::Exit(status));
            }
            4 => self.conclude(Cause::Pause),
            5 => self.conclude(Cause::Stack),
            _ => {}
        }
    }

    /// Does what a step asks of the nub, where so many turns are left after it.
    #[tactic(auto, unfolding(nub_wire::specs::Nub::acted))]
    fn act(&mut self, event: Event, left: u32)
        requires { length self.old.nub.output < OUTPUT_SIZE }
        ensures { self.new ≡ acted T.behaviour left self.old.nub (event, self.old.machine) }
    {
        match event {
            Event::Went => self.left = Some(left),
            Event::Break => self.conclude(Cause::Break),
            Event::Request(number) => {
                self.left = Some(left);
                self.request(number);
            }
            Event::Fault(kind) => self.conclude(Cause::Fault(kind)),
        }
    }

    /// Instructions where no message is due: at most `most`, up to the first that does more than go on. Says how many.
    fn stretch(&mut self, left: u32, most: u32) -> u32
        requires left_is { self.old.nub.left ≡ Some left }
        requires some { 1 ≤ left }
        requires more { 1 ≤ most }
        requires goes_on { self.old.nub.ended ≡ None }
        requires room { length self.old.nub.output < OUTPUT_SIZE }
        ensures some { 1 ≤ result }
        ensures within { result ≤ most }
        ensures same { running T.behaviour most self.old ≡ running T.behaviour (most - result) self.new }
    {
        let count = left.min(most);
        for turn in 0..count {
            match self.target.step() {
                Event::Went => {}
                event => {
                    self.left = Some(left - turn);
                    self.act(event, left - turn - 1);
                    return turn + 1;
                }
            }
        }
        self.left = Some(left - count);
        count
    }

    /// At most n instructions, up to the next message that is due.
    fn run(&mut self, n: u32) -> Option<Msg>
        ensures { running T.behaviour n self.old ≡ (result, self.new) }
    {
        let mut rest = n;
        while rest > 0 {
            if let Some(message) = self.due() {
                return Some(message);
            }
            match self.left {
                None => return None,
                Some(0) => return None,
                Some(left) => {
                    let count = self.stretch(left, rest);
                    rest -= count;
                }
            }
        }
        self.due()
    }

    /// Goes on with an open resume for n instructions, or up to the next message that is due before, and gives that
    /// message. Nothing is run where no resume is open.
    #[tactic(auto, unfolding(nub_wire::specs::Nub::turn_of))]
    pub fn turn(&mut self, n: u32) -> Option<Msg>
        ensures { turn_of T.behaviour n self.old ≡ (result, self.new) }
    {
        if self.left.is_none() {
            return None;
        }
        self.run(n)
    }

    /// Goes on with a resume that has so many turns left, up to its next message.
    fn message_within(&mut self, left: u32) -> Option<Msg>
        requires { self.old.nub.left ≡ Some left }
        ensures turn { turn_of T.behaviour (2 ^ 32 - 1) self.old ≡ (result, self.new) }
        ensures told { IsSome result }
    {
        let _ = left;
        self.turn(u32::MAX)
    }

    /// Goes on with an open resume up to its next message, which comes within its turns.
    #[tactic(auto, unfolding(nub_wire::specs::Nub::turn_of))]
    pub fn next_message(&mut self) -> Option<Msg>
        ensures turn { turn_of T.behaviour (2 ^ 32 - 1) self.old ≡ (result, self.new) }
        ensures told { self.old.nub.left ≢ None → IsSome result }
    {
        match self.left {
            None => None,
            Some(left) => self.message_within(left),
        }
    }
}
