// A command that doesn't resume, on one side.

ghost use Rattle.std.specs.Prelude.{◌≡◌, ◌≢◌, ◌≤◌, true, false, IfOk, IfErr, OnErr, Option, [], Err, codes};
ghost use Rattle.std.specs.List.{AllByRecursion};
ghost use Rattle.abs_mem.specs.WireMeaning.{wire_seen};
ghost use Rattle.ps_store.specs.Store.{closed_part};
ghost use Rattle.table_points.specs.Named.{IsNamed};
ghost use Rattle.table_asks.specs.Closing.{Settles};
ghost use Rattle.table_asks.specs.Faults.{IsUnbroken};
ghost use Rattle.session.specs.Asked.{Does, chosen_frame};
ghost use Rattle.session.specs.Kept.{IsFailure, IsKept, IsQuery, IsUndone, SaysDone};
ghost use Rattle.session.specs.Counted.{CountsAsk};
ghost use Rattle.session.specs.Turned.{turned};
ghost use Rattle.session.specs.Wanting.{IsAskedAlone, IsText, StaysOne, StoresOne, TableStays};
ghost use Rattle.resuming.specs.Standing.{Stands};
ghost use Rattle.machine_state.specs.State.{Behaviour};
ghost use Rattle.nub_wire.specs.Nub.{Host};
ghost use Rattle.claims.specs.Side.{SideState};
ghost use Rattle.session.specs.Meant.{IsThere, debugged, SaidOne, NotOne, RanOne, IsBare, IsPlain, IsInquiry, IsLook, ComesTo, TalksWell};
ghost use Rattle.side_meaning.specs.Standing.{StandsFor};
ghost use Rattle.side_meaning.specs.Stepping.{IsReady};
ghost use Rattle.c_session.specs.declared.command.Command.TheVariants.{Ps};
ghost use Rattle.asking.specs.Lines.{line, BeginsWith};
ghost use Rattle.claims.specs.Raw.{regs_text};

use crate::sides::{SideRecord, turn};
use abs_mem::{AbsMem, Wire};
use asking::{breaking, choosing, clearing, listing, printing, registers, running_text};
use c_session::Command;
use evaluating::{coding, evaluating};
use ldb_words::Text;
use nub_wire::Link;
use ps_ops::Operators;
use table_asks::{AskFault, begin_command, end_command};

/// What a command says on a side, whose steps are begun. Those that are asked of no side say nothing.
fn told<W: AbsMem + Drop>(
    talk: &mut Operators<W>,
    side: &mut SideRecord,
    command: &Command,
) -> Result<Text, AskFault>
    requires within { side.old.inquiry.steps.taken ≤ side.old.inquiry.steps.limit }
    ensures kept { OnErr result (side.new.row.breaks.items ≡ side.old.row.breaks.items) }
    ensures query { IsQuery command.now → side.new.row.breaks.items ≡ side.old.row.breaks.items }
    ensures word { IfOk result (λ text. SaysDone command.now text) }
    ensures frame { side.new.frame ≡ side.old.frame }
    ensures same { side.new ≡ record side.old { inquiry = side.new.inquiry; row = record side.old.row { breaks = side.new.row.breaks } } }
    ensures closed { Settles (closed_part side.old.inquiry.core.store) (closed_part side.new.inquiry.core.store) }
    ensures named { IsPlain command.now → AllByRecursion (IsNamed side.new.inquiry.core.store) side.old.row.breaks.items → AllByRecursion (IsNamed side.new.inquiry.core.store) side.new.row.breaks.items }
    ensures does { Does W.seen W.leads command.now side.old.frame side.old.row.breaks.items side.old.inquiry talk.old result side.new.row.breaks.items side.new.inquiry talk.new }
{
    let inquiry = &mut side.inquiry;
    let frame = side.frame;
    match command {
        Command::Break(spot) => breaking(inquiry, talk, &mut side.row.breaks, spot),
        Command::Clear(spot) => clearing(inquiry, talk, &mut side.row.breaks, spot),
        Command::Frames => listing(inquiry, talk),
        Command::Frame(number) => choosing(inquiry, talk, *number),
        Command::Print(name) => printing(inquiry, talk, frame, name.as_bytes()),
        Command::Eval(text) => evaluating(inquiry, talk, frame, text.as_bytes()),
        Command::Code(text) => coding(inquiry, talk, frame, text.as_bytes()),
        _ => Ok(Text::new(inquiry.core.operands.allocator())),
    }
}

/// The frame that a command chooses, where it is done.
fn chosen(command: &Command, frame: u32) -> u32
    ensures { result ≡ chosen_frame command.now frame }
{
    match command {
        Command::Frame(number) => *number,
        _ => frame,
    }
}

/// What a text of PostScript says on a side. Breakpoints and the chosen frame stay.
pub fn asked_text<L: Link + Drop>(
    talk: &mut Operators<Wire<L>>,
    side: &mut SideRecord,
    text: &[u8],
) -> Result<Text, AskFault>
    ensures kept { IsKept side.old side.new }
    ensures word { IfOk result (λ said. said ≢ codes "target\n") }
    ensures which { side.new.which ≡ side.old.which }
    ensures faults { result ≢ Err AskFault.NoMemory → L.faults talk.old.memory.below.below.below.link ≤ L.faults talk.new.memory.below.below.below.link }
    ensures meant { (b : Behaviour) (h : Host) (beside : Option Host) (a : SideState) → IsThere b L.conduct (L.world talk.old.memory.below.below.below.link) side.old h beside → IsReady (debugged side.old h) a → a.step_words ≡ []
        → ComesTo (L.faults talk.old.memory.below.below.below.link) (L.faults talk.new.memory.below.below.below.link) (λ said. SaidOne b L.conduct (L.world talk.new.memory.below.below.below.link) side.old side.new h beside (Ps text.now) a said) (NotOne b L.conduct (L.world talk.new.memory.below.below.below.link) side.old side.new h beside (Ps text.now) a) result }
    ensures same { side.new ≡ record side.old { inquiry = side.new.inquiry } }
    ensures stores { (b : Behaviour) (h : Host) (beside : Option Host) (a : SideState) → IsThere b L.conduct (L.world talk.old.memory.below.below.below.link) side.old h beside → IsReady (debugged side.old h) a → a.step_words ≡ [] → IfErr result (λ fault. IsUnbroken fault)
        → StoresOne b L.conduct (L.world talk.new.memory.below.below.below.link) side.old side.new h beside a }
    ensures count { CountsAsk (L.faults talk.old.memory.below.below.below.link) (L.faults talk.new.memory.below.below.below.link) result }
{
    turn(talk, side);
    let mark = match begin_command(&mut side.inquiry) {
        Ok(mark) => mark,
        Err(_) => return Err(AskFault::NoMemory),
    };
    let said = running_text(&mut side.inquiry, talk, side.frame, text);
    end_command(&mut side.inquiry, mark);
    said
}

/// What a command says on a side. One that isn't done leaves the breakpoints and the chosen frame.
pub fn asked<L: Link + Drop>(
    talk: &mut Operators<Wire<L>>,
    side: &mut SideRecord,
    command: &Command,
) -> Result<Text, AskFault>
    ensures kept { OnErr result (IsKept side.old side.new) }
    ensures word { IfOk result (λ text. SaysDone command.now text) }
    ensures query { IsQuery command.now → IsKept side.old side.new }
    ensures which { side.new.which ≡ side.old.which }
    ensures faults { IsInquiry command.now → result ≢ Err AskFault.NoMemory → L.faults talk.old.memory.below.below.below.link ≤ L.faults talk.new.memory.below.below.below.link }
    ensures bare { IsBare command.now → L.faults talk.old.memory.below.below.below.link ≤ L.faults talk.new.memory.below.below.below.link }
    ensures wanting { (b : Behaviour) (h : Host) (beside : Option Host) → IsThere b L.conduct (L.world talk.old.memory.below.below.below.link) side.old h beside → IsBare command.now → result ≡ Err AskFault.NoMemory
        → Stands b L.conduct side.old.which (L.world talk.new.memory.below.below.below.link) h beside }
    ensures meant { (b : Behaviour) (h : Host) (beside : Option Host) (a : SideState) → IsThere b L.conduct (L.world talk.old.memory.below.below.below.link) side.old h beside → IsReady (debugged side.old h) a → a.step_words ≡ [] → IsInquiry command.now
        → ComesTo (L.faults talk.old.memory.below.below.below.link) (L.faults talk.new.memory.below.below.below.link) (λ text. SaidOne b L.conduct (L.world talk.new.memory.below.below.below.link) side.old side.new h beside command.now a text) (NotOne b L.conduct (L.world talk.new.memory.below.below.below.link) side.old side.new h beside command.now a) result }
    ensures same { side.new ≡ record side.old { inquiry = side.new.inquiry; row = record side.old.row { breaks = side.new.row.breaks }; frame = side.new.frame } }
    ensures table { IsAskedAlone command.now → TableStays side.old.inquiry.core.store side.new.inquiry.core.store }
    ensures stays { (b : Behaviour) (h : Host) (beside : Option Host) (a : SideState) → IsThere b L.conduct (L.world talk.old.memory.below.below.below.link) side.old h beside → IsReady (debugged side.old h) a → a.step_words ≡ [] → IsAskedAlone command.now → IsUndone result
        → StaysOne b L.conduct (L.world talk.new.memory.below.below.below.link) side.new h beside a }
    ensures stores { (b : Behaviour) (h : Host) (beside : Option Host) (a : SideState) → IsThere b L.conduct (L.world talk.old.memory.below.below.below.link) side.old h beside → IsReady (debugged side.old h) a → a.step_words ≡ [] → IsText command.now → IfErr result (λ fault. IsUnbroken fault)
        → StoresOne b L.conduct (L.world talk.new.memory.below.below.below.link) side.old side.new h beside a }
    ensures wants { IsBare command.now → result ≡ Err AskFault.NoMemory → L.faults talk.new.memory.below.below.below.link ≡ L.faults talk.old.memory.below.below.below.link }
    ensures looked { (b : Behaviour) (h : Host) (beside : Option Host) → IsThere b L.conduct (L.world talk.old.memory.below.below.below.link) side.old h beside → IsLook command.now → TalksWell (L.faults talk.old.memory.below.below.below.link) (L.faults talk.new.memory.below.below.below.link) (IsThere b L.conduct (L.world talk.new.memory.below.below.below.link) side.new h beside) result }
    ensures count { CountsAsk (L.faults talk.old.memory.below.below.below.link) (L.faults talk.new.memory.below.below.below.link) result }
{
    if let Command::Ps(text) = command {
        return asked_text(talk, side, text.as_bytes());
    }
    turn(talk, side);
    let mark = match begin_command(&mut side.inquiry) {
        Ok(mark) => mark,
        Err(_) => return Err(AskFault::NoMemory),
    };
    let said = told(talk, side, command);
    end_command(&mut side.inquiry, mark);
    match said {
        Err(fault) => Err(fault),
        Ok(text) => {
            side.frame = chosen(command, side.frame);
            Ok(text)
        }
    }
}

/// Whether a command ended since its link failed or memory was wanting.
pub fn is_failure(fault: &AskFault) -> bool
    ensures yes { result ≡ true → IsFailure fault.now }
    ensures no { result ≡ false → IsFailure fault.now → ⊥ }
{
    match fault {
        AskFault::Broken(_) => true,
        AskFault::NoMemory => true,
        AskFault::Refused(_) => false,
        AskFault::Raised(_) => false,
        AskFault::Spent => false,
    }
}

/// Runs a text of PostScript on a side, and says nothing; why it isn't known how it ended, where the link failed or memory was
/// wanting. Breakpoints and the chosen frame stay.
pub fn ran<L: Link + Drop>(
    talk: &mut Operators<Wire<L>>,
    side: &mut SideRecord,
    text: &[u8],
) -> Result<(), AskFault>
    ensures kept { IsKept side.old side.new }
    ensures which { side.new.which ≡ side.old.which }
    ensures failure { IfErr result (λ fault. IsFailure fault) }
    ensures stores { (b : Behaviour) (h : Host) (beside : Option Host) (a : SideState) → IsThere b L.conduct (L.world talk.old.memory.below.below.below.link) side.old h beside → IsReady (debugged side.old h) a → a.step_words ≡ [] → IfErr result (λ fault. IsUnbroken fault)
        → StoresOne b L.conduct (L.world talk.new.memory.below.below.below.link) side.old side.new h beside a }
    ensures meant { (b : Behaviour) (h : Host) (beside : Option Host) (a : SideState) → IsThere b L.conduct (L.world talk.old.memory.below.below.below.link) side.old h beside → IsReady (debugged side.old h) a → a.step_words ≡ []
        → ComesTo (L.faults talk.old.memory.below.below.below.link) (L.faults talk.new.memory.below.below.below.link) (λ u. RanOne b L.conduct (L.world talk.new.memory.below.below.below.link) side.old side.new h beside (Ps text.now) a) (λ e. ⊥) result }
    ensures count { CountsAsk (L.faults talk.old.memory.below.below.below.link) (L.faults talk.new.memory.below.below.below.link) result }
{
    match asked_text(talk, side, text) {
        Ok(_said) => Ok(()),
        Err(fault) => {
            if is_failure(&fault) {
                return Err(fault);
            }
            Ok(())
        }
    }
}

/// What `regs` says on a side.
pub fn registers_of<L: Link + Drop>(
    talk: &mut Operators<Wire<L>>,
    side: &SideRecord,
) -> Result<Text, AskFault>
    ensures word { IfOk result (λ text. BeginsWith (codes "regs ") text) }
    ensures faults { L.faults talk.old.memory.below.below.below.link ≤ L.faults talk.new.memory.below.below.below.link }
    ensures meant { (b : Behaviour) (h : Host) (beside : Option Host) (a : SideState) → IsThere b L.conduct (L.world talk.old.memory.below.below.below.link) side.now h beside → StandsFor (debugged side.now h) a
        → ComesTo (L.faults talk.old.memory.below.below.below.link) (L.faults talk.new.memory.below.below.below.link) (λ text. IsThere b L.conduct (L.world talk.new.memory.below.below.below.link) side.now h beside × (text ≡ line (regs_text a))) (λ e. ⊥) result }
    ensures wanting { (b : Behaviour) (h : Host) (beside : Option Host) → IsThere b L.conduct (L.world talk.old.memory.below.below.below.link) side.now h beside → result ≡ Err AskFault.NoMemory → IsThere b L.conduct (L.world talk.new.memory.below.below.below.link) side.now h beside }
    ensures count { CountsAsk (L.faults talk.old.memory.below.below.below.link) (L.faults talk.new.memory.below.below.below.link) result }
{
    turn(talk, side);
    registers(side.inquiry.core.operands.allocator(), talk)
}
