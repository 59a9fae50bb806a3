// A `break` or `clear` that is done on the first side, undone there.

ghost use Rattle.std.specs.Prelude.{◌≡◌, length, drop, IfOk, IfErr, Ok, Err, Option};
ghost use Rattle.machine_state.specs.State.{Behaviour, order_of as machine_order};
ghost use Rattle.nub_wire.specs.Nub.{Host};
ghost use Rattle.resuming.specs.Standing.{Stands};
ghost use Rattle.abs_mem.specs.WireMeaning.{memory_of};
ghost use Rattle.session.specs.Counted.{CountsAsk, CountsFault, CountsTalk};
ghost use Rattle.session.specs.Kept.{IsFailure};
ghost use Rattle.session.specs.Meant.{SetsBreaks};
ghost use Rattle.session.specs.Turned.{byte_of, order_of};
ghost use Rattle.session.specs.Undoing.{unread, words_before, undone_host, ReadsBefore, PutsBack, IsGivenUp, wanting};

use crate::sides::{SideRecord, turn};
use abs_mem::{MemFault, Wire};
use c_session::Command;
use debug_side::{ReadFault, WordThere, put_words, unplant_all, words_there};
use nub_wire::Link;
use ps_ops::Operators;
use table_asks::{AskFault, Point};
use wire_talk::TalkFault;

/// Why it isn't read what stands at breakpoints.
fn unread(fault: ReadFault) -> AskFault
    ensures { result ≡ unread fault }
{
    match fault {
        ReadFault::NoMemory => AskFault::NoMemory,
        ReadFault::Talk(TalkFault::LinkFault) => AskFault::Broken(MemFault::LinkFault),
        ReadFault::Talk(TalkFault::BadReply { frame }) => {
            AskFault::Broken(MemFault::BadReply { frame })
        }
    }
}

/// What stands at the breakpoints of a side before `clear`, which puts the no-op at one of them, whatever stands there.
pub fn words_before<L: Link + Drop>(
    talk: &mut Operators<Wire<L>>,
    side: &SideRecord,
    command: &Command,
) -> Result<Vec<WordThere>, AskFault>
    ensures read { (b : Behaviour) (h : Host) (beside : Option Host) → Stands b L.conduct side.now.which (L.world talk.old.memory.below.below.below.link) h beside → order_of side.now.machine ≡ machine_order h.machine
        → IfOk result (λ words. ReadsBefore (L.faults talk.old.memory.below.below.below.link) (L.faults talk.new.memory.below.below.below.link) (Stands b L.conduct side.now.which (L.world talk.new.memory.below.below.below.link) h beside) (words_before command.now (memory_of h.machine) side.now.row.breaks.items) (Ok words.items)) }
    ensures fails { (b : Behaviour) (h : Host) (beside : Option Host) → Stands b L.conduct side.now.which (L.world talk.old.memory.below.below.below.link) h beside → order_of side.now.machine ≡ machine_order h.machine
        → IfErr result (λ fault. ReadsBefore (L.faults talk.old.memory.below.below.below.link) (L.faults talk.new.memory.below.below.below.link) (Stands b L.conduct side.now.which (L.world talk.new.memory.below.below.below.link) h beside) (words_before command.now (memory_of h.machine) side.now.row.breaks.items) (Err fault)) }
    ensures count { CountsAsk (L.faults talk.old.memory.below.below.below.link) (L.faults talk.new.memory.below.below.below.link) result }
{
    let alloc = side.inquiry.core.operands.allocator();
    match command {
        Command::Clear(_) => {
            turn(talk, side);
            let wire = &mut talk.memory.below.below.below;
            match words_there(alloc, wire, side.row.breaks.as_slice()) {
                Ok(words) => Ok(words),
                Err(fault) => Err(unread(fault)),
            }
        }
        _ => Ok(Vec::new(alloc)),
    }
}

/// Undoes a command on a side that had so many breakpoints before it. The no-op is put where `break` put the break word, and what was
/// read is put where `clear` put the no-op.
fn put_back<L: Link + Drop>(
    talk: &mut Operators<Wire<L>>,
    side: &SideRecord,
    command: &Command,
    count: usize,
    words: &[WordThere],
) -> Result<(), TalkFault>
    ensures other { (SetsBreaks command.now → ⊥) → (result ≡ Ok tt) × (talk.new ≡ talk.old) }
    ensures meant { (b : Behaviour) (h : Host) (beside : Option Host) → Stands b L.conduct side.now.which (L.world talk.old.memory.below.below.below.link) h beside → order_of side.now.machine ≡ machine_order h.machine
        → PutsBack (L.faults talk.old.memory.below.below.below.link) (L.faults talk.new.memory.below.below.below.link) (Stands b L.conduct side.now.which (L.world talk.new.memory.below.below.below.link) (undone_host command.now (byte_of side.now.machine) (drop count side.now.row.breaks.items) words.now h) beside) result }
    ensures count { CountsTalk (L.faults talk.old.memory.below.below.below.link) (L.faults talk.new.memory.below.below.below.link) result }
{
    let target = side.machine.byte();
    match command {
        Command::Break(_) => {
            turn(talk, side);
            let breaks = side.row.breaks.as_slice();
            if count < breaks.len() {
                unplant_all(target, &mut talk.memory.below.below.below, &breaks[count..])
            } else {
                Ok(())
            }
        }
        Command::Clear(_) => {
            turn(talk, side);
            put_words(&mut talk.memory.below.below.below, words)
        }
        _ => Ok(()),
    }
}

/// Why a command isn't done that was put back.
fn wanting(back: Result<(), TalkFault>) -> AskFault
    ensures value { result ≡ wanting back }
    ensures failure { IsFailure result }
{
    match back {
        Ok(()) => AskFault::NoMemory,
        Err(TalkFault::LinkFault) => AskFault::Broken(MemFault::LinkFault),
        Err(TalkFault::BadReply { frame }) => AskFault::Broken(MemFault::BadReply { frame }),
    }
}

/// Why a command isn't done that the first side had done: it is undone there, and its breakpoints and its chosen frame are those of before.
pub fn given_up<L: Link + Drop>(
    talk: &mut Operators<Wire<L>>,
    first: &mut SideRecord,
    command: &Command,
    before: Vec<Point>,
    words: &[WordThere],
    frame: u32,
) -> AskFault
    ensures failure { IsFailure result }
    ensures breaks { first.new.row.breaks.items ≡ before.items }
    ensures frame { first.new.frame ≡ frame }
    ensures which { first.new.which ≡ first.old.which }
    ensures other { (SetsBreaks command.now → ⊥) → (result ≡ AskFault.NoMemory) × (talk.new ≡ talk.old) }
    ensures meant { (b : Behaviour) (h : Host) (beside : Option Host) → Stands b L.conduct first.old.which (L.world talk.old.memory.below.below.below.link) h beside → order_of first.old.machine ≡ machine_order h.machine
        → IsGivenUp (L.faults talk.old.memory.below.below.below.link) (L.faults talk.new.memory.below.below.below.link) (Stands b L.conduct first.old.which (L.world talk.new.memory.below.below.below.link) (undone_host command.now (byte_of first.old.machine) (drop (length before.items) first.old.row.breaks.items) words.now h) beside) result }
    ensures same { first.new ≡ record first.old { row = record first.old.row { breaks = first.new.row.breaks }; frame = first.new.frame } }
    ensures count { CountsFault (L.faults talk.old.memory.below.below.below.link) (L.faults talk.new.memory.below.below.below.link) result }
{
    first.frame = frame;
    let back = put_back(talk, first, command, before.len(), words);
    first.row.breaks = before;
    wanting(back)
}
