// A command that doesn't resume, on both sides.

ghost use Rattle.std.specs.Prelude.{◌≡◌, ◌≢◌, ◌⊎◌, ℕ, List, [], codes, IfOk, IfErr, OnOk, Ok, Err, Option, Some};
ghost use Rattle.session.specs.Kept.{IsFailure, IsKept, IsStoreFault, IsUndone, IsQuery, SaysDone};
ghost use Rattle.machine_state.specs.State.{Behaviour};
ghost use Rattle.nub_wire.specs.Nub.{Host};
ghost use Rattle.c_session.specs.declared.command.Command.TheVariants.{Ps};
ghost use Rattle.claims.specs.Side.{SessionState, SideState};
ghost use Rattle.session.specs.Meant.{ComesTo, Hosts, IsThere, AreThere, AreReadyFor, IsLook, IsInquiry, TalksWell, RanOne, SaidAll, NotAll, StoredThere, debugged, sides_of};
ghost use Rattle.abs_mem.specs.WireMeaning.{memory_of};
ghost use Rattle.session.specs.Answered.{error_reply};
ghost use Rattle.session.specs.Counted.{CountsAsk, CountsFault};
ghost use Rattle.session.specs.Undoing.{words_before, IsGivenUp};
ghost use Rattle.session.specs.Wanting.{IsAskedAlone, IsText, StandAgain, StaysOne, StoresOne, WithNumbers, WithTable};
ghost use Rattle.side_meaning.specs.Stepping.{IsReady};
ghost use Rattle.side_meaning.specs.Sessions.{SidesStand};
ghost use Rattle.table_asks.specs.Faults.{IsUnbroken};
ghost use Rattle.asking.specs.Lines.{BeginsWith};
ghost use Rattle.asking_meaning.specs.Meant.{joined};
ghost use Rattle.claims.specs.Outcome.{DoneOnBoth, all_regs};

use crate::asked::{asked, is_failure, ran, registers_of};
use crate::assigning::{assigned, store};
use crate::replies::error_reply;
use crate::sides::SideRecord;
use crate::undoing::{given_up, words_before};
use abs_mem::Wire;
use c_session::Command;
use debug_side::WordThere;
use evaluating::Changes;
use ldb_words::Text;
use nub_wire::Link;
use ps_ops::Operators;
use ps_run::PsError;
use std::alloc::Global;
use table_asks::AskFault;

/// Why a command isn't done on the first side, once a text of PostScript, which may store in the target, has run on the second
/// side too. Where the link failed or memory was wanting nothing more is asked, and where that comes of the text's run on the second
/// side, that is why.
fn undone<L: Link + Drop>(
    talk: &mut Operators<Wire<L>>,
    second: &mut SideRecord,
    command: &Command,
    fault: AskFault,
) -> AskFault
    ensures kept { IsKept second.old second.new }
    ensures which { second.new.which ≡ second.old.which }
    ensures other { ((text : List ℕ) → command.now ≢ Ps text) → (result ≡ fault) × (second.new ≡ second.old) × (talk.new ≡ talk.old) }
    ensures failed { IsFailure fault → (result ≡ fault) × (second.new ≡ second.old) × (talk.new ≡ talk.old) }
    ensures meant { (text : List ℕ) (b : Behaviour) (h : Host) (beside : Option Host) (a : SideState) → command.now ≡ Ps text → (IsFailure fault → ⊥) → IsThere b L.conduct (L.world talk.old.memory.below.below.below.link) second.old h beside → IsReady (debugged second.old h) a → a.step_words ≡ []
        → ((result ≡ fault) × RanOne b L.conduct (L.world talk.new.memory.below.below.below.link) second.old second.new h beside (Ps text) a) ⊎ IsGivenUp (L.faults talk.old.memory.below.below.below.link) (L.faults talk.new.memory.below.below.below.link) (Unit {0}) result }
    ensures stores { (b : Behaviour) (h : Host) (beside : Option Host) (a : SideState) → (IsFailure fault → ⊥) → IsThere b L.conduct (L.world talk.old.memory.below.below.below.link) second.old h beside → IsReady (debugged second.old h) a → a.step_words ≡ [] → IsText command.now → IsUnbroken result
        → StoresOne b L.conduct (L.world talk.new.memory.below.below.below.link) second.old second.new h beside a }
    ensures count { (IsFailure fault → ⊥) → CountsFault (L.faults talk.old.memory.below.below.below.link) (L.faults talk.new.memory.below.below.below.link) result }
{
    if is_failure(&fault) {
        return fault;
    }
    match command {
        Command::Ps(text) => match ran(talk, second, text.as_bytes()) {
            Ok(()) => fault,
            Err(why) => why,
        },
        _ => fault,
    }
}

/// What a command says on both sides, of which it was read what stands at the first side's breakpoints.
fn asked_behind<L: Link + Drop>(
    talk: &mut Operators<Wire<L>>,
    first: &mut SideRecord,
    second: &mut SideRecord,
    command: &Command,
    words: &[WordThere],
) -> Result<Text, AskFault>
    ensures first { IsUndone result → IsKept first.old first.new }
    ensures second { IsUndone result → IsKept second.old second.new }
    ensures query { IsQuery command.now → IsKept first.old first.new × IsKept second.old second.new }
    ensures word { IfOk result (λ text. SaysDone command.now text) }
    ensures stays { (b : Behaviour) (hs : Hosts) (st : SessionState) → AreThere b L.conduct (L.world talk.old.memory.below.below.below.link) first.old (Some second.old) hs → AreReadyFor first.old (Some second.old) hs st → IsAskedAlone command.now
        → words.now ≡ words_before command.now (memory_of hs.first.machine) first.old.row.breaks.items → IsUndone result → StandAgain WithTable b L.conduct (L.world talk.new.memory.below.below.below.link) first.new (Some second.new) st }
    ensures leaves { (b : Behaviour) (hs : Hosts) (st : SessionState) → AreThere b L.conduct (L.world talk.old.memory.below.below.below.link) first.old (Some second.old) hs → AreReadyFor first.old (Some second.old) hs st → IsLook command.now → IsQuery command.now → OnOk result (StandAgain WithTable b L.conduct (L.world talk.new.memory.below.below.below.link) first.new (Some second.new) st) }
    ensures stores { (b : Behaviour) (hs : Hosts) (st : SessionState) → AreThere b L.conduct (L.world talk.old.memory.below.below.below.link) first.old (Some second.old) hs → AreReadyFor first.old (Some second.old) hs st → IsText command.now → IsUndone result
        → StandAgain WithNumbers b L.conduct (L.world talk.new.memory.below.below.below.link) first.new (Some second.new) st }
    ensures meant { (b : Behaviour) (hs : Hosts) (st : SessionState) → AreThere b L.conduct (L.world talk.old.memory.below.below.below.link) first.old (Some second.old) hs → AreReadyFor first.old (Some second.old) hs st → IsInquiry command.now
        → ComesTo (L.faults talk.old.memory.below.below.below.link) (L.faults talk.new.memory.below.below.below.link) (λ text. SaidAll b L.conduct (L.world talk.new.memory.below.below.below.link) first.new (Some second.new) st (DoneOnBoth st command.now) text) (NotAll b L.conduct (L.world talk.new.memory.below.below.below.link) first.new (Some second.new) st (DoneOnBoth st command.now)) result }
    ensures looked { (b : Behaviour) (hs : Hosts) → AreThere b L.conduct (L.world talk.old.memory.below.below.below.link) first.old (Some second.old) hs → IsLook command.now → TalksWell (L.faults talk.old.memory.below.below.below.link) (L.faults talk.new.memory.below.below.below.link) (Unit {0}) result }
    ensures count { CountsAsk (L.faults talk.old.memory.below.below.below.link) (L.faults talk.new.memory.below.below.below.link) result }
{
    let alloc = first.inquiry.core.operands.allocator();
    let frame = first.frame;
    let before = match Vec::from_slice(alloc, first.row.breaks.as_slice()) {
        Ok(before) => before,
        Err(_) => return Err(AskFault::NoMemory),
    };
    let said = asked(talk, first, command);
    let text = match said {
        Ok(text) => text,
        Err(fault) => return Err(undone(talk, second, command, fault)),
    };
    let more = asked(talk, second, command);
    let fault = match more {
        Ok(_) => return Ok(text),
        Err(fault) => fault,
    };
    match fault {
        AskFault::Broken(why) => Err(AskFault::Broken(why)),
        AskFault::NoMemory => Err(given_up(talk, first, command, before, words, frame)),
        AskFault::Refused(_) => Ok(text),
        AskFault::Raised(_) => Ok(text),
        AskFault::Spent => Ok(text),
    }
}

/// What a command says on both sides: the reply is the first side's. Where that side doesn't do it, or the second side alone has
/// no memory for it, breakpoints and chosen frames stay on both, and behind `break` and `clear` the first side's target is as it was;
/// where the second side alone refuses it, they stay on that one.
pub fn asked_both<L: Link + Drop>(
    talk: &mut Operators<Wire<L>>,
    first: &mut SideRecord,
    second: &mut SideRecord,
    command: &Command,
) -> Result<Text, AskFault>
    ensures first { IsUndone result → IsKept first.old first.new }
    ensures second { IsUndone result → IsKept second.old second.new }
    ensures query { IsQuery command.now → IsKept first.old first.new × IsKept second.old second.new }
    ensures word { IfOk result (λ text. SaysDone command.now text) }
    ensures stays { (b : Behaviour) (hs : Hosts) (st : SessionState) → AreThere b L.conduct (L.world talk.old.memory.below.below.below.link) first.old (Some second.old) hs → AreReadyFor first.old (Some second.old) hs st → IsAskedAlone command.now → IsUndone result
        → StandAgain WithTable b L.conduct (L.world talk.new.memory.below.below.below.link) first.new (Some second.new) st }
    ensures leaves { (b : Behaviour) (hs : Hosts) (st : SessionState) → AreThere b L.conduct (L.world talk.old.memory.below.below.below.link) first.old (Some second.old) hs → AreReadyFor first.old (Some second.old) hs st → IsLook command.now → IsQuery command.now → OnOk result (StandAgain WithTable b L.conduct (L.world talk.new.memory.below.below.below.link) first.new (Some second.new) st) }
    ensures stores { (b : Behaviour) (hs : Hosts) (st : SessionState) → AreThere b L.conduct (L.world talk.old.memory.below.below.below.link) first.old (Some second.old) hs → AreReadyFor first.old (Some second.old) hs st → IsText command.now → IsUndone result
        → StandAgain WithNumbers b L.conduct (L.world talk.new.memory.below.below.below.link) first.new (Some second.new) st }
    ensures meant { (b : Behaviour) (hs : Hosts) (st : SessionState) → AreThere b L.conduct (L.world talk.old.memory.below.below.below.link) first.old (Some second.old) hs → AreReadyFor first.old (Some second.old) hs st → IsInquiry command.now
        → ComesTo (L.faults talk.old.memory.below.below.below.link) (L.faults talk.new.memory.below.below.below.link) (λ text. SaidAll b L.conduct (L.world talk.new.memory.below.below.below.link) first.new (Some second.new) st (DoneOnBoth st command.now) text) (NotAll b L.conduct (L.world talk.new.memory.below.below.below.link) first.new (Some second.new) st (DoneOnBoth st command.now)) result }
    ensures looked { (b : Behaviour) (hs : Hosts) → AreThere b L.conduct (L.world talk.old.memory.below.below.below.link) first.old (Some second.old) hs → IsLook command.now → TalksWell (L.faults talk.old.memory.below.below.below.link) (L.faults talk.new.memory.below.below.below.link) (Unit {0}) result }
    ensures count { CountsAsk (L.faults talk.old.memory.below.below.below.link) (L.faults talk.new.memory.below.below.below.link) result }
{
    let words = match words_before(talk, first, command) {
        Ok(words) => words,
        Err(fault) => return Err(fault),
    };
    asked_behind(talk, first, second, command, words.as_slice())
}

/// What `regs` says of both sides, the first one first.
pub fn registers_both<L: Link + Drop>(
    talk: &mut Operators<Wire<L>>,
    first: &SideRecord,
    second: &SideRecord,
) -> Result<Text, AskFault>
    ensures word { IfOk result (λ text. BeginsWith (codes "regs ") text) }
    ensures meant { (b : Behaviour) (hs : Hosts) (st : SessionState) → AreThere b L.conduct (L.world talk.old.memory.below.below.below.link) first.now (Some second.now) hs → SidesStand (sides_of first.now (Some second.now) hs) st
        → ComesTo (L.faults talk.old.memory.below.below.below.link) (L.faults talk.new.memory.below.below.below.link) (λ text. AreThere b L.conduct (L.world talk.new.memory.below.below.below.link) first.now (Some second.now) hs × (text ≡ joined (all_regs st))) (λ e. ⊥) result }
    ensures wanting { (b : Behaviour) (hs : Hosts) (st : SessionState) → AreThere b L.conduct (L.world talk.old.memory.below.below.below.link) first.now (Some second.now) hs → SidesStand (sides_of first.now (Some second.now) hs) st → result ≡ Err AskFault.NoMemory → AreThere b L.conduct (L.world talk.new.memory.below.below.below.link) first.now (Some second.now) hs }
    ensures count { CountsAsk (L.faults talk.old.memory.below.below.below.link) (L.faults talk.new.memory.below.below.below.link) result }
{
    let said = registers_of(talk, first);
    let mut text = match said {
        Ok(text) => text,
        Err(fault) => return Err(fault),
    };
    let more = registers_of(talk, second);
    let other = match more {
        Ok(other) => other,
        Err(fault) => return Err(fault),
    };
    match text.append(other.as_bytes()) {
        Ok(()) => Ok(text),
        Err(_) => Err(AskFault::NoMemory),
    }
}

/// What an assignment may say: that it is done, or that a place is outside. Memory for both is taken before anything is stored.
#[derive(Drop)]
struct Sayings {
    set: Text,
    outside: Text,
}

/// What an assignment may say, or why there is no memory for it.
fn sayings_for(alloc: Global) -> Result<Sayings, AskFault>
    ensures err { IfErr result (λ fault. fault ≡ AskFault.NoMemory) }
    ensures ok { IfOk result (λ said. (said.set ≡ codes "set\n") × (said.outside ≡ error_reply PsError.RangeCheck)) }
{
    let Ok(set) = Text::from_slice(alloc, b"set\n") else {
        return Err(AskFault::NoMemory);
    };
    match error_reply(alloc, PsError::RangeCheck) {
        Ok(outside) => Ok(Sayings { set, outside }),
        Err(_) => Err(AskFault::NoMemory),
    }
}

/// What an assignment says, once it was stored.
fn stored(done: Result<(), AskFault>, said: Sayings) -> Result<Text, AskFault>
    ensures count { (f f' : ℕ) → CountsAsk f f' done → CountsAsk f f' result }
    ensures well { (f f' : ℕ) → TalksWell f f' (Unit {0}) done → TalksWell f f' (Unit {0}) result }
    ensures word { said.set ≢ codes "target\n" → said.outside ≢ codes "target\n" → IfOk result (λ text. text ≢ codes "target\n") }
    ensures whole { IfErr done (λ fault. IsStoreFault fault) → IsUndone result → ⊥ }
    ensures done { OnOk result (IfErr done (λ fault. IsUnbroken fault)) }
{
    match done {
        Ok(()) => Ok(said.set),
        Err(AskFault::Raised(_)) => Ok(said.outside),
        Err(fault) => Err(fault),
    }
}

/// What an assignment says that the first side has stored, once the second one has.
fn stored_on_both(done: Result<(), AskFault>, said: Sayings) -> Result<Text, AskFault>
    ensures count { (f f' : ℕ) → CountsAsk f f' done → CountsAsk f f' result }
    ensures well { (f f' : ℕ) → TalksWell f f' (Unit {0}) done → TalksWell f f' (Unit {0}) result }
    ensures word { said.set ≢ codes "target\n" → IfOk result (λ text. text ≢ codes "target\n") }
    ensures whole { IfErr done (λ fault. IsStoreFault fault) → IsUndone result → ⊥ }
    ensures done { OnOk result (IfErr done (λ fault. IsUnbroken fault)) }
{
    match done {
        Ok(()) | Err(AskFault::Raised(_)) => Ok(said.set),
        Err(fault) => Err(fault),
    }
}

/// `assign` on one side.
pub fn assign_one<L: Link + Drop>(
    talk: &mut Operators<Wire<L>>,
    first: &mut SideRecord,
    text: &[u8],
) -> Result<Text, AskFault>
    ensures kept { IsKept first.old first.new }
    ensures which { first.new.which ≡ first.old.which }
    ensures word { IfOk result (λ text. text ≢ codes "target\n") }
    ensures evaluated { (b : Behaviour) (h : Host) (beside : Option Host) → IsThere b L.conduct (L.world talk.old.memory.below.below.below.link) first.old h beside → TalksWell (L.faults talk.old.memory.below.below.below.link) (L.faults talk.new.memory.below.below.below.link) (Unit {0}) result }
    ensures stays { (b : Behaviour) (h : Host) (beside : Option Host) (a : SideState) → IsThere b L.conduct (L.world talk.old.memory.below.below.below.link) first.old h beside → IsReady (debugged first.old h) a → a.step_words ≡ [] → IsUndone result
        → StaysOne b L.conduct (L.world talk.new.memory.below.below.below.link) first.new h beside a }
    ensures leaves { (b : Behaviour) (h : Host) (beside : Option Host) (a : SideState) → IsThere b L.conduct (L.world talk.old.memory.below.below.below.link) first.old h beside → IsReady (debugged first.old h) a → a.step_words ≡ []
        → OnOk result (StoresOne b L.conduct (L.world talk.new.memory.below.below.below.link) first.old first.new h beside a) }
    ensures count { CountsAsk (L.faults talk.old.memory.below.below.below.link) (L.faults talk.new.memory.below.below.below.link) result }
{
    let said = match sayings_for(first.inquiry.core.operands.allocator()) {
        Ok(said) => said,
        Err(fault) => return Err(fault),
    };
    match assigned(talk, first, text) {
        Ok(changes) => stored(store(talk, first, &changes), said),
        Err(fault) => Err(fault),
    }
}

/// What is said where the second side alone doesn't do an assignment: the first side stores alone, but where the link failed or memory
/// was wanting.
fn stored_alone<L: Link + Drop>(
    talk: &mut Operators<Wire<L>>,
    first: &SideRecord,
    changes: &Changes,
    said: Sayings,
    fault: AskFault,
) -> Result<Text, AskFault>
    ensures failed { IsFailure fault → (result ≡ Err fault) × (talk.new ≡ talk.old) }
    ensures stores { (b : Behaviour) (h : Host) (beside : Option Host) → (IsFailure fault → ⊥) → IsThere b L.conduct (L.world talk.old.memory.below.below.below.link) first.now h beside → TalksWell (L.faults talk.old.memory.below.below.below.link) (L.faults talk.new.memory.below.below.below.link) (Unit {0}) result }
    ensures word { said.set ≢ codes "target\n" → said.outside ≢ codes "target\n" → IfOk result (λ text. text ≢ codes "target\n") }
    ensures whole { (IsFailure fault → ⊥) → IsUndone result → ⊥ }
    ensures leaves { (b : Behaviour) (h : Host) (beside : Option Host) → (IsFailure fault → ⊥) → IsThere b L.conduct (L.world talk.old.memory.below.below.below.link) first.now h beside → OnOk result (StoredThere b L.conduct (L.world talk.new.memory.below.below.below.link) first.now h beside) }
    ensures count { (IsFailure fault → ⊥) → CountsAsk (L.faults talk.old.memory.below.below.below.link) (L.faults talk.new.memory.below.below.below.link) result }
{
    if is_failure(&fault) {
        return Err(fault);
    }
    stored(store(talk, first, changes), said)
}

/// `assign` on both sides, which are both asked before the first one stores. Where the first side doesn't do it, no side stores,
/// and where the second one alone refuses it, the first one stores alone. All memory is taken before that.
pub fn assign_both<L: Link + Drop>(
    talk: &mut Operators<Wire<L>>,
    first: &mut SideRecord,
    second: &mut SideRecord,
    text: &[u8],
) -> Result<Text, AskFault>
    ensures first { IsKept first.old first.new }
    ensures second { IsKept second.old second.new }
    ensures word { IfOk result (λ text. text ≢ codes "target\n") }
    ensures evaluated { (b : Behaviour) (hs : Hosts) → AreThere b L.conduct (L.world talk.old.memory.below.below.below.link) first.old (Some second.old) hs → TalksWell (L.faults talk.old.memory.below.below.below.link) (L.faults talk.new.memory.below.below.below.link) (Unit {0}) result }
    ensures stays { (b : Behaviour) (hs : Hosts) (st : SessionState) → AreThere b L.conduct (L.world talk.old.memory.below.below.below.link) first.old (Some second.old) hs → AreReadyFor first.old (Some second.old) hs st → IsUndone result
        → StandAgain WithTable b L.conduct (L.world talk.new.memory.below.below.below.link) first.new (Some second.new) st }
    ensures leaves { (b : Behaviour) (hs : Hosts) (st : SessionState) → AreThere b L.conduct (L.world talk.old.memory.below.below.below.link) first.old (Some second.old) hs → AreReadyFor first.old (Some second.old) hs st → OnOk result (StandAgain WithNumbers b L.conduct (L.world talk.new.memory.below.below.below.link) first.new (Some second.new) st) }
    ensures count { CountsAsk (L.faults talk.old.memory.below.below.below.link) (L.faults talk.new.memory.below.below.below.link) result }
{
    let said = match sayings_for(first.inquiry.core.operands.allocator()) {
        Ok(said) => said,
        Err(fault) => return Err(fault),
    };
    let mine = assigned(talk, first, text);
    let changes = match mine {
        Ok(changes) => changes,
        Err(fault) => return Err(fault),
    };
    let more = assigned(talk, second, text);
    let others = match more {
        Ok(others) => others,
        Err(fault) => return stored_alone(talk, first, &changes, said, fault),
    };
    let here = store(talk, first, &changes);
    match here {
        Ok(()) => stored_on_both(store(talk, second, &others), said),
        Err(fault) => stored(Err(fault), said),
    }
}
