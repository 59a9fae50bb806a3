// A session.

ghost use Rattle.std.specs.Prelude.{◌≡◌, ◌≢◌, ◌≤◌, ◌⊎◌, ℕ, true, [], ◌∷◌, length, codes, IfOk, IfErr, OnOk, OnErr, Ok, Err, Some, None, Option, false};
ghost use Rattle.c_session.specs.declared.command.Command.{Command};
ghost use Rattle.c_session.specs.declared.command.Command.TheVariants.{Continue, Step, Quit, Turns};
ghost use Rattle.cmd_lang.specs.Commands.{read_of};
ghost use Rattle.cmd_lang.specs.Words.{is_empty};
ghost use Rattle.c_session.specs.Commands.{Refusal, ByContinue, ByStep};
ghost use Rattle.claims.specs.Outcome.{refused_by_state, all_regs, Begins, DoneOnBoth, AnswersCommand};
ghost use Rattle.session.specs.Answered.{state_of, resume_of, refusal_reply, line_reply, limit_reply, Replies, Answers};
ghost use Rattle.session.specs.Counted.{CountsAnswer, CountsAsk, CountsOutput, CountsEnd, IsNoQuit};
ghost use Rattle.session.specs.Kept.{IsKept, AreKept, KeepsMode, KeepsReply, IsUndone, AnswersFault, IsQuery, TellsTrouble, SaysDone};
ghost use Rattle.session.specs.Resuming.{StandsStill, OnSecond, ReadyFor, HasRoomFor, AllBehind, Resumes, event_on, goes_on};
ghost use Rattle.machine_state.specs.State.{Behaviour, MachineState};
ghost use Rattle.nub_wire.specs.declared.link.Side.TheVariants.{First};
ghost use Rattle.ps_store.specs.StoreState.{StoreState};
ghost use Rattle.session.specs.Starting.{IsFirst, AreFirst, HasRisen, one_session, two_session};
ghost use Rattle.nub_wire.specs.Nub.{Host};
ghost use Rattle.claims.specs.Side.{SessionState};
ghost use Rattle.session.specs.Meant.{IsThere, ComesTo, Settled, Hosts, AreSteady, AreThere, ResumesAll, SaidAll, NotAll, IsInquiry, IsExpression, IsLook, IsAskable, IsSaid, IsSaidIfAny, AreReadyFor, Represents, AllCleared, AllPrepared, AllSettled, TalksWell, AnswersAs, MeantAnswers, ResumesAs, IsResumable, MayAlsoRun, sides_of};
ghost use Rattle.session.specs.Wanting.{IsAskedAlone, IsInquired, IsText, KeepsTable, Leaves, LeavesIfAny, LeavesTarget, RepresentsAgain, StandAgain, WithNumbers, WithTable};
ghost use Rattle.ldb_edge.specs.Count.{Rose};
ghost use Rattle.resuming.specs.Runs.{CountsRun};
ghost use Rattle.side_meaning.specs.Sessions.{SidesStand, IsStill};
ghost use Rattle.debug_side.specs.Told.{MayRun};
ghost use Rattle.debug_side.specs.Planting.{mem_fault};
ghost use Rattle.table_asks.specs.Faults.{IsUnbroken};
ghost use Rattle.abs_mem.specs.declared.memory.MemFault.{MemFault as AbsFault};
ghost use Rattle.asking.specs.Lines.{BeginsWith};
ghost use Rattle.asking_meaning.specs.Meant.{joined};

use crate::answers::{Answer, End, StartFault};
use crate::asked::{asked, registers_of};
use crate::both::{asked_both, assign_both, assign_one, registers_both};
use crate::line::Line;
use crate::merging::mode_after;
use crate::modes::{How, Mode, refused_in};
use crate::preparing::{line_for, prepared, unprepared};
use crate::replies::{error_reply, event_reply, limit_reply, mode_reply, refusal, spent_reply};
use crate::resumes::{resumed_both, resumed_one};
use crate::sides::SideRecord;
use crate::start::begun;
use abs_mem::{Joined, MemFault, Wire};
use c_session::Command;
use cmd_lang::{CmdFault, is_empty, read_command};
use debug_side::Event;
use ldb_edge::Sink;
use ldb_words::Text;
use nub_wire::{Link, Side};
use ps_ops::{Operators, Standing, View};
use ps_store::PsStore;
use resuming::RunFault;
use std::alloc::{AllocError, Global};
use std::mem;
use table_asks::AskFault;
use wire_talk::TalkFault;

/// The turns of a resume at the start.
const FIRST_LIMIT: u32 = 10_000_000;

/// A session over a link to one nub or two: its sides, their mode, and the most instructions of a resume on each.
#[derive(Drop)]
pub struct Session<L> {
    alloc: Global,
    talk: Operators<Wire<L>>,
    first: SideRecord,
    second: Option<SideRecord>,
    mode: Mode,
    limit: u32,
    raw: bool,
    /// The reply of a session whose link failed, for which memory is taken at the start.
    broken: Text,
}

/// A reply, if there was memory for it.
fn answer(said: Result<Text, AllocError>) -> Answer
    ensures ok { IfOk said (λ text. result ≡ Answer.Lines text) }
    ensures err { OnErr said (result ≡ Answer.NoMemory) }
{
    match said {
        Ok(text) => Answer::Lines(text),
        Err(_) => Answer::NoMemory,
    }
}

/// The answer to a line that is no command.
fn malformed(alloc: Global, line: &[u8]) -> Answer
    ensures reply { Replies (line_reply line.now) result }
    ensures blank { is_empty line.now ≡ true → result ≡ Answer.Lines [] }
{
    if is_empty(line) {
        return Answer::Lines(Text::new(alloc));
    }
    match Text::from_slice(alloc, b"refused line\n") {
        Ok(text) => Answer::Lines(text),
        Err(_) => Answer::NoMemory,
    }
}

/// The command that began a resume, where the session may stand in an interrupted one.
fn began(mode: Mode, how: How) -> How
    ensures { resume_of result ≡ goes_on (state_of mode) (resume_of how) }
{
    match mode {
        Mode::Running(before) => before,
        _ => how,
    }
}

/// A fault of a link as one of a command.
fn broken(fault: TalkFault) -> AskFault
    ensures { result ≡ AskFault.Broken (mem_fault fault) }
{
    match fault {
        TalkFault::LinkFault => AskFault::Broken(MemFault::LinkFault),
        TalkFault::BadReply { frame } => AskFault::Broken(MemFault::BadReply { frame }),
    }
}

/// Whether a command ended since the link of its target failed.
fn is_broken(fault: &AskFault) -> bool
    ensures broken { result ≡ true → (why : AbsFault) × (fault.now ≡ AskFault.Broken why) }
    ensures whole { result ≡ false → IsUnbroken fault.now }
{
    match fault {
        AskFault::Broken(_) => true,
        AskFault::Refused(_) => false,
        AskFault::Raised(_) => false,
        AskFault::Spent => false,
        AskFault::NoMemory => false,
    }
}

/// Why a resume isn't begun, once what was put before it was taken away.
fn left(taken: Result<(), AskFault>, fault: AskFault) -> AskFault
    ensures ok { OnOk taken (result ≡ fault) }
    ensures err { IfErr taken (λ why. result ≡ why) }
{
    match taken {
        Ok(()) => fault,
        Err(why) => why,
    }
}

/// Takes away what a step put on a side.
fn taken_away<L: Link + Drop>(
    talk: &mut Operators<Wire<L>>,
    side: &mut SideRecord,
) -> Result<(), AskFault>
    ensures kept { IsKept side.old side.new }
    ensures still { StandsStill side.old side.new }
    ensures words { OnOk result (side.new.row.step_words.items ≡ []) }
    ensures which { side.new.which ≡ side.old.which }
    ensures faults { L.faults talk.old.memory.below.below.below.link ≤ L.faults talk.new.memory.below.below.below.link }
    ensures meant { (b : Behaviour) (h : Host) (beside : Option Host) → IsThere b L.conduct (L.world talk.old.memory.below.below.below.link) side.old h beside
        → ComesTo (L.faults talk.old.memory.below.below.below.link) (L.faults talk.new.memory.below.below.below.link) (λ u. Settled b L.conduct (L.world talk.new.memory.below.below.below.link) side.old side.new h beside) (λ e. ⊥) result }
    ensures whole { IsUndone result → ⊥ }
    ensures count { CountsAsk (L.faults talk.old.memory.below.below.below.link) (L.faults talk.new.memory.below.below.below.link) result }
{
    match unprepared(talk, side) {
        Ok(()) => Ok(()),
        Err(fault) => Err(broken(fault)),
    }
}

/// The operators over a link, before a side is turned to.
fn operators<L: Link + Drop>(alloc: Global, link: L, first: &SideRecord) -> Operators<Wire<L>>
    ensures { result.memory.below.below.below.link ≡ link }
{
    let order = first.machine.order();
    let wire = Wire {
        link,
        side: Side::First,
        order,
    };
    Operators {
        memory: Joined::new(wire, order),
        view: View {
            target: first.machine.byte(),
            context: first.context,
            standing: Standing::NoFrame,
            raw: false,
        },
        out: Text::new(alloc),
        fault: None,
    }
}

impl<L: Link + Drop> Session<L> {
    /// A session over a link to the nubs of one target or two, which have had no message yet: greets each, and gives it the input.
    /// There is a table for each target, which was run and is closed; a third one is left alone. Where `raw` is true, `ps` is a
    /// command too. The session is fresh, and a resume takes at most 10,000,000 instructions on each side.
    pub fn start(
        alloc: Global,
        mut link: L,
        tables: Vec<PsStore>,
        input: &[u8],
        raw: bool,
    ) -> Result<Session<L>, StartFault>
        ensures fresh { IfOk result (λ s. (s.mode ≡ Mode.Fresh) × (s.limit ≡ 10000000) × (s.raw ≡ raw) × (s.broken ≡ codes "target\n")) }
        ensures one { (b : Behaviour) (m : MachineState) (table : StoreState) → tables.items ≡ table ∷ [] → IsFirst b L.conduct (L.world link) First m None table → length input.now ≤ 16777216
            → IfOk result (λ s. (hs : Hosts) × Represents b L.conduct (L.world s.talk.memory.below.below.below.link) s.first s.second s.mode s.limit hs (one_session b input.now m table)) }
        ensures two { (b : Behaviour) (m n : MachineState) (table other : StoreState) → tables.items ≡ table ∷ other ∷ [] → AreFirst b L.conduct (L.world link) m n table other → length input.now ≤ 16777216
            → IfOk result (λ s. (hs : Hosts) × Represents b L.conduct (L.world s.talk.memory.below.below.below.link) s.first s.second s.mode s.limit hs (two_session b input.now m n table other)) }
        ensures one_failed { (b : Behaviour) (m : MachineState) (table : StoreState) → tables.items ≡ table ∷ [] → IsFirst b L.conduct (L.world link) First m None table → length input.now ≤ 16777216
            → result ≡ Err StartFault.Target → HasRisen L.faults link }
        ensures two_failed { (b : Behaviour) (m n : MachineState) (table other : StoreState) → tables.items ≡ table ∷ other ∷ [] → AreFirst b L.conduct (L.world link) m n table other → length input.now ≤ 16777216
            → result ≡ Err StartFault.Target → HasRisen L.faults link }
    {
        let Ok(broken) = Text::from_slice(alloc, b"target\n") else {
            return Err(StartFault::NoMemory);
        };
        let mut tables = tables.into_iter();
        let Some(table) = tables.next() else {
            return Err(StartFault::Target);
        };
        let first = match begun(alloc, &mut link, Side::First, table, input) {
            Ok(first) => first,
            Err(fault) => return Err(fault),
        };
        let second = match tables.next() {
            None => None,
            Some(table) => Some(begun(alloc, &mut link, Side::Second, table, input)?),
        };
        Ok(Session {
            alloc,
            talk: operators(alloc, link, &first),
            first,
            second,
            mode: Mode::Fresh,
            limit: FIRST_LIMIT,
            raw,
            broken,
        })
    }

    /// The answer to a line; program output goes to `out` before it. A line that is no command, and a command that the session's state
    /// refuses, changes nothing; once the session has ended that is every one but `quit`. A command that doesn't resume puts nothing
    /// into the output, and leaves the session's state as it was or ends the session; the breakpoints and the chosen frames stay, but
    /// where it is `break`, `clear` or `frame` and is done, or its link failed. `continue` and `step` tell the event of all
    /// sides, or aren't begun, or end the session. Without memory the session's state, its limit, its breakpoints and its chosen
    /// frames are as before, and so are its targets and the count of the link's faults, and nothing was put into the output; units of
    /// tables that were run stay so, what was closed of a table is settled at most, and nothing of the command is left in it; what a
    /// text of PostScript stored in the target stays. Unless the link failed,
    /// lines to `eval` and `code` leave as much as it was, and lines to `assign`, refusals too, all but numbers that were stored in the targets.
    /// The reply `target` comes only as the session ends.
    pub fn command<O: Sink>(&mut self, line: &[u8], out: &mut O) -> Result<Answer, End>
        ensures quit { read_of self.old.raw line.now ≡ Some Quit → result ≡ Err End.Quit }
        ensures quits { result ≡ Err End.Quit → read_of self.old.raw line.now ≡ Some Quit }
        ensures output { CountsEnd (O.faults out.old) (O.faults out.new) result }
        ensures turns { (n : ℕ) → read_of self.old.raw line.now ≡ Some (Turns n) → refused_by_state (state_of self.old.mode) (Turns n) ≡ None → ((result ≡ Ok (Answer.Lines (limit_reply n))) × (self.new ≡ record self.old { limit = n })) ⊎ ((result ≡ Ok Answer.NoMemory) × (self.new ≡ self.old)) }
        ensures line { read_of self.old.raw line.now ≡ None → Answers (line_reply line.now) result × (self.new ≡ self.old) × (out.new ≡ out.old) }
        ensures blank { is_empty line.now ≡ true → result ≡ Ok (Answer.Lines []) }
        ensures refused { (c : Command) (u : Refusal) → read_of self.old.raw line.now ≡ Some c → refused_by_state (state_of self.old.mode) c ≡ Some u → Answers (refusal_reply u) result × (self.new ≡ self.old) × (out.new ≡ out.old) }
        ensures no_memory { result ≡ Ok Answer.NoMemory → (self.new.mode ≡ self.old.mode) × (self.new.limit ≡ self.old.limit) × IsKept self.old.first self.new.first × AreKept self.old.second self.new.second × (out.new ≡ out.old) }
        ensures query { (c : Command) → read_of self.old.raw line.now ≡ Some c → IsQuery c → IsKept self.old.first self.new.first × AreKept self.old.second self.new.second }
        ensures undone { (c : Command) → read_of self.old.raw line.now ≡ Some c → c ≢ Continue → c ≢ Step → TellsTrouble self.old.broken result → IsKept self.old.first self.new.first × AreKept self.old.second self.new.second }
        ensures out_fault { result ≡ Err End.OutFault → self.new.mode ≡ Mode.Ended }
        ensures limit { (self.new.limit ≡ self.old.limit) ⊎ (read_of self.old.raw line.now ≡ Some (Turns self.new.limit)) }
        ensures asked { (c : Command) → read_of self.old.raw line.now ≡ Some c → c ≢ Continue → c ≢ Step → (out.new ≡ out.old) × KeepsMode self.old.mode self.new.mode self.old.broken result }
        ensures continues { read_of self.old.raw line.now ≡ Some Continue → refused_by_state (state_of self.old.mode) Continue ≡ None → Resumes (out.new ≡ out.old) ByContinue self.old.mode self.new.mode self.old.first self.new.first self.old.second self.new.second self.old.broken result }
        ensures steps { read_of self.old.raw line.now ≡ Some Step → refused_by_state (state_of self.old.mode) Step ≡ None → Resumes (out.new ≡ out.old) ByStep self.old.mode self.new.mode self.old.first self.new.first self.old.second self.new.second self.old.broken result }
        ensures meant { (b : Behaviour) (hs : Hosts) (st : SessionState) → AreSteady b → Represents b L.conduct (L.world self.old.talk.memory.below.below.below.link) self.old.first self.old.second self.old.mode self.old.limit hs st → is_empty line.now ≡ false → IsSaidIfAny (read_of self.old.raw line.now)
            → AnswersAs b L.conduct (L.world self.new.talk.memory.below.below.below.link) self.new.first self.new.second self.new.mode self.new.limit st (O.taken out.old) (O.taken out.new) (MeantAnswers b st (read_of self.old.raw line.now)) (L.faults self.old.talk.memory.below.below.below.link) (L.faults self.new.talk.memory.below.below.below.link) self.old.broken result }
        ensures raw { self.new.raw ≡ self.old.raw }
        ensures broken { KeepsReply self.old.broken self.new.broken self.new.mode }
        ensures stays { (b : Behaviour) (hs : Hosts) (st : SessionState) → Represents b L.conduct (L.world self.old.talk.memory.below.below.below.link) self.old.first self.old.second self.old.mode self.old.limit hs st → LeavesTarget (read_of self.old.raw line.now) result → self.new.mode ≡ self.old.mode
            → RepresentsAgain (LeavesIfAny (read_of self.old.raw line.now) result) b L.conduct (L.world self.new.talk.memory.below.below.below.link) self.new.first self.new.second self.new.mode self.new.limit st }
        ensures target { (b : Behaviour) (hs : Hosts) (st : SessionState) (c : Command) → Represents b L.conduct (L.world self.old.talk.memory.below.below.below.link) self.old.first self.old.second self.old.mode self.old.limit hs st → read_of self.old.raw line.now ≡ Some c → c ≢ Continue → c ≢ Step
            → (self.new.mode ≡ self.old.mode) ⊎ Rose (L.faults self.old.talk.memory.below.below.below.link) (L.faults self.new.talk.memory.below.below.below.link) }
        ensures count { CountsAnswer (L.faults self.old.talk.memory.below.below.below.link) (L.faults self.new.talk.memory.below.below.below.link) self.old.broken self.new.mode result }
        ensures ends { result ≡ Ok (Answer.Lines (codes "target\n")) → self.new.mode ≡ Mode.Ended }
        ensures leads { O.leads out.old out.new }
    {
        match read_command(self.alloc, line, self.raw) {
            Err(CmdFault::Line) => Ok(malformed(self.alloc, line)),
            Err(CmdFault::NoMemory) => Ok(Answer::NoMemory),
            Ok(Command::Quit) => Err(End::Quit),
            Ok(command) => self.obey(&command, out),
        }
    }

    /// The answer to a command other than `quit`.
    fn obey<O: Sink>(&mut self, command: &Command, out: &mut O) -> Result<Answer, End>
        ensures ends { result ≡ Ok (Answer.Lines (codes "target\n")) → self.new.mode ≡ Mode.Ended }
        ensures no_quit { IsNoQuit result }
        ensures output { CountsEnd (O.faults out.old) (O.faults out.new) result }
        ensures leads { O.leads out.old out.new }
        ensures turns { (n : ℕ) → command.now ≡ Turns n → refused_by_state (state_of self.old.mode) command.now ≡ None → ((result ≡ Ok (Answer.Lines (limit_reply n))) × (self.new ≡ record self.old { limit = n })) ⊎ ((result ≡ Ok Answer.NoMemory) × (self.new ≡ self.old)) }
        ensures refused { (u : Refusal) → refused_by_state (state_of self.old.mode) command.now ≡ Some u → Answers (refusal_reply u) result × (self.new ≡ self.old) × (out.new ≡ out.old) }
        ensures no_memory { result ≡ Ok Answer.NoMemory → (self.new.mode ≡ self.old.mode) × (self.new.limit ≡ self.old.limit) × IsKept self.old.first self.new.first × AreKept self.old.second self.new.second × (out.new ≡ out.old) }
        ensures query { IsQuery command.now → IsKept self.old.first self.new.first × AreKept self.old.second self.new.second }
        ensures undone { command.now ≢ Continue → command.now ≢ Step → command.now ≢ Quit → TellsTrouble self.old.broken result → IsKept self.old.first self.new.first × AreKept self.old.second self.new.second }
        ensures out_fault { OnErr result (self.new.mode ≡ Mode.Ended) }
        ensures limit { (self.new.limit ≡ self.old.limit) ⊎ (command.now ≡ Turns self.new.limit) }
        ensures asked { command.now ≢ Continue → command.now ≢ Step → (out.new ≡ out.old) × KeepsMode self.old.mode self.new.mode self.old.broken result }
        ensures continues { command.now ≡ Continue → refused_by_state (state_of self.old.mode) command.now ≡ None → Resumes (out.new ≡ out.old) ByContinue self.old.mode self.new.mode self.old.first self.new.first self.old.second self.new.second self.old.broken result }
        ensures steps { command.now ≡ Step → refused_by_state (state_of self.old.mode) command.now ≡ None → Resumes (out.new ≡ out.old) ByStep self.old.mode self.new.mode self.old.first self.new.first self.old.second self.new.second self.old.broken result }
        ensures meant { (b : Behaviour) (hs : Hosts) (st : SessionState) → AreSteady b → Represents b L.conduct (L.world self.old.talk.memory.below.below.below.link) self.old.first self.old.second self.old.mode self.old.limit hs st → IsSaid command.now → command.now ≢ Quit
            → AnswersAs b L.conduct (L.world self.new.talk.memory.below.below.below.link) self.new.first self.new.second self.new.mode self.new.limit st (O.taken out.old) (O.taken out.new) (MeantAnswers b st (Some command.now)) (L.faults self.old.talk.memory.below.below.below.link) (L.faults self.new.talk.memory.below.below.below.link) self.old.broken result }
        ensures raw { self.new.raw ≡ self.old.raw }
        ensures broken { KeepsReply self.old.broken self.new.broken self.new.mode }
        ensures stays { (b : Behaviour) (hs : Hosts) (st : SessionState) → Represents b L.conduct (L.world self.old.talk.memory.below.below.below.link) self.old.first self.old.second self.old.mode self.old.limit hs st → command.now ≢ Quit → LeavesTarget (Some command.now) result → self.new.mode ≡ self.old.mode
            → RepresentsAgain (LeavesIfAny (Some command.now) result) b L.conduct (L.world self.new.talk.memory.below.below.below.link) self.new.first self.new.second self.new.mode self.new.limit st }
        ensures target { (b : Behaviour) (hs : Hosts) (st : SessionState) → Represents b L.conduct (L.world self.old.talk.memory.below.below.below.link) self.old.first self.old.second self.old.mode self.old.limit hs st → command.now ≢ Continue → command.now ≢ Step → command.now ≢ Quit → (self.new.mode ≡ self.old.mode) ⊎ Rose (L.faults self.old.talk.memory.below.below.below.link) (L.faults self.new.talk.memory.below.below.below.link) }
        ensures count { CountsAnswer (L.faults self.old.talk.memory.below.below.below.link) (L.faults self.new.talk.memory.below.below.below.link) self.old.broken self.new.mode result }
    {
        if let Some(why) = refused_in(self.mode, command) {
            return Ok(answer(mode_reply(self.alloc, why)));
        }
        match command {
            Command::Continue => self.resume(How::ByContinue, out),
            Command::Step => self.resume(How::ByStep, out),
            Command::Turns(limit) => Ok(self.set_limit(*limit)),
            other => {
                let said = self.inquire(other);
                Ok(self.reply(said))
            }
        }
    }

    /// The session ends, since its link failed.
    fn break_off(&mut self) -> Answer
        ensures mode { self.new.mode ≡ Mode.Ended }
        ensures limit { self.new.limit ≡ self.old.limit }
        ensures first { self.new.first ≡ self.old.first }
        ensures talk { self.new.talk ≡ self.old.talk }
        ensures some { result ≡ Answer.Lines self.old.broken }
        ensures raw { self.new.raw ≡ self.old.raw }
        ensures second { self.new.second ≡ self.old.second }
    {
        self.mode = Mode::Ended;
        Answer::Lines(mem::replace(&mut self.broken, Text::new(self.alloc)))
    }

    /// The answer to a command, by what was said or why nothing was.
    fn reply(&mut self, said: Result<Text, AskFault>) -> Answer
        ensures ok { IfOk said (λ text. (result ≡ Answer.Lines text) × (self.new.mode ≡ self.old.mode)) }
        ensures fault { IfErr said (λ fault. AnswersFault self.old.broken self.old.mode self.new.mode fault result) }
        ensures limit { self.new.limit ≡ self.old.limit }
        ensures first { self.new.first ≡ self.old.first }
        ensures talk { self.new.talk ≡ self.old.talk }
        ensures no_memory { result ≡ Answer.NoMemory → IsUndone said × (self.new.mode ≡ self.old.mode) }
        ensures mode { KeepsMode self.old.mode self.new.mode self.old.broken (Ok result) }
        ensures raw { self.new.raw ≡ self.old.raw }
        ensures second { self.new.second ≡ self.old.second }
        ensures broken { KeepsReply self.old.broken self.new.broken self.new.mode }
    {
        match said {
            Ok(text) => Answer::Lines(text),
            Err(AskFault::NoMemory) => Answer::NoMemory,
            Err(AskFault::Broken(_)) => self.break_off(),
            Err(AskFault::Refused(cause)) => answer(refusal(self.alloc, cause)),
            Err(AskFault::Raised(error)) => answer(error_reply(self.alloc, error)),
            Err(AskFault::Spent) => answer(spent_reply(self.alloc)),
        }
    }

    /// `turns`.
    fn set_limit(&mut self, limit: u32) -> Answer
        ensures { ((result ≡ Answer.Lines (limit_reply limit)) × (self.new ≡ record self.old { limit = limit })) ⊎ ((result ≡ Answer.NoMemory) × (self.new ≡ self.old)) }
    {
        match limit_reply(self.alloc, limit) {
            Ok(text) => {
                self.limit = limit;
                Answer::Lines(text)
            }
            Err(_) => Answer::NoMemory,
        }
    }

    /// What `regs` says.
    fn registers(&mut self) -> Result<Text, AskFault>
        ensures mode { self.new.mode ≡ self.old.mode }
        ensures limit { self.new.limit ≡ self.old.limit }
        ensures word { IfOk result (λ text. BeginsWith (codes "regs ") text) }
        ensures first { self.new.first ≡ self.old.first }
        ensures meant { (b : Behaviour) (hs : Hosts) (st : SessionState) → AreThere b L.conduct (L.world self.old.talk.memory.below.below.below.link) self.old.first self.old.second hs → SidesStand (sides_of self.old.first self.old.second hs) st
            → ComesTo (L.faults self.old.talk.memory.below.below.below.link) (L.faults self.new.talk.memory.below.below.below.link) (λ text. AreThere b L.conduct (L.world self.new.talk.memory.below.below.below.link) self.new.first self.new.second hs × (text ≡ joined (all_regs st))) (λ e. ⊥) result }
        ensures raw { self.new.raw ≡ self.old.raw }
        ensures second { self.new.second ≡ self.old.second }
        ensures broken { self.new.broken ≡ self.old.broken }
        ensures stays { (b : Behaviour) (hs : Hosts) (st : SessionState) → AreThere b L.conduct (L.world self.old.talk.memory.below.below.below.link) self.old.first self.old.second hs → SidesStand (sides_of self.old.first self.old.second hs) st → result ≡ Err AskFault.NoMemory → AreThere b L.conduct (L.world self.new.talk.memory.below.below.below.link) self.new.first self.new.second hs }
        ensures count { CountsAsk (L.faults self.old.talk.memory.below.below.below.link) (L.faults self.new.talk.memory.below.below.below.link) result }
    {
        match &self.second {
            None => registers_of(&mut self.talk, &self.first),
            Some(second) => registers_both(&mut self.talk, &self.first, second),
        }
    }

    /// What a command that doesn't resume says.
    fn ask(&mut self, command: &Command) -> Result<Text, AskFault>
        ensures mode { self.new.mode ≡ self.old.mode }
        ensures limit { self.new.limit ≡ self.old.limit }
        ensures kept { IsUndone result → IsKept self.old.first self.new.first × AreKept self.old.second self.new.second }
        ensures query { IsQuery command.now → IsKept self.old.first self.new.first × AreKept self.old.second self.new.second }
        ensures word { IfOk result (λ text. SaysDone command.now text) }
        ensures meant { (b : Behaviour) (hs : Hosts) (st : SessionState) → AreThere b L.conduct (L.world self.old.talk.memory.below.below.below.link) self.old.first self.old.second hs → AreReadyFor self.old.first self.old.second hs st → IsInquiry command.now
            → ComesTo (L.faults self.old.talk.memory.below.below.below.link) (L.faults self.new.talk.memory.below.below.below.link) (λ text. SaidAll b L.conduct (L.world self.new.talk.memory.below.below.below.link) self.new.first self.new.second st (DoneOnBoth st command.now) text) (NotAll b L.conduct (L.world self.new.talk.memory.below.below.below.link) self.new.first self.new.second st (DoneOnBoth st command.now)) result }
        ensures raw { self.new.raw ≡ self.old.raw }
        ensures broken { self.new.broken ≡ self.old.broken }
        ensures stays { (b : Behaviour) (hs : Hosts) (st : SessionState) → AreThere b L.conduct (L.world self.old.talk.memory.below.below.below.link) self.old.first self.old.second hs → AreReadyFor self.old.first self.old.second hs st → IsAskedAlone command.now → IsUndone result
            → StandAgain WithTable b L.conduct (L.world self.new.talk.memory.below.below.below.link) self.new.first self.new.second st }
        ensures leaves { (b : Behaviour) (hs : Hosts) (st : SessionState) → AreThere b L.conduct (L.world self.old.talk.memory.below.below.below.link) self.old.first self.old.second hs → AreReadyFor self.old.first self.old.second hs st → IsLook command.now → IsQuery command.now → OnOk result (StandAgain WithTable b L.conduct (L.world self.new.talk.memory.below.below.below.link) self.new.first self.new.second st) }
        ensures stores { (b : Behaviour) (hs : Hosts) (st : SessionState) → AreThere b L.conduct (L.world self.old.talk.memory.below.below.below.link) self.old.first self.old.second hs → AreReadyFor self.old.first self.old.second hs st → IsText command.now → IsUndone result
            → StandAgain WithNumbers b L.conduct (L.world self.new.talk.memory.below.below.below.link) self.new.first self.new.second st }
        ensures looked { (b : Behaviour) (hs : Hosts) → AreThere b L.conduct (L.world self.old.talk.memory.below.below.below.link) self.old.first self.old.second hs → IsLook command.now → TalksWell (L.faults self.old.talk.memory.below.below.below.link) (L.faults self.new.talk.memory.below.below.below.link) (Unit {0}) result }
        ensures count { CountsAsk (L.faults self.old.talk.memory.below.below.below.link) (L.faults self.new.talk.memory.below.below.below.link) result }
    {
        match &mut self.second {
            None => asked(&mut self.talk, &mut self.first, command),
            Some(second) => asked_both(&mut self.talk, &mut self.first, second, command),
        }
    }

    /// What `assign` says.
    fn assign(&mut self, text: &[u8]) -> Result<Text, AskFault>
        ensures mode { self.new.mode ≡ self.old.mode }
        ensures limit { self.new.limit ≡ self.old.limit }
        ensures word { IfOk result (λ text. text ≢ codes "target\n") }
        ensures kept { IsKept self.old.first self.new.first × AreKept self.old.second self.new.second }
        ensures raw { self.new.raw ≡ self.old.raw }
        ensures broken { self.new.broken ≡ self.old.broken }
        ensures evaluated { (b : Behaviour) (hs : Hosts) → AreThere b L.conduct (L.world self.old.talk.memory.below.below.below.link) self.old.first self.old.second hs → TalksWell (L.faults self.old.talk.memory.below.below.below.link) (L.faults self.new.talk.memory.below.below.below.link) (Unit {0}) result }
        ensures stays { (b : Behaviour) (hs : Hosts) (st : SessionState) → AreThere b L.conduct (L.world self.old.talk.memory.below.below.below.link) self.old.first self.old.second hs → AreReadyFor self.old.first self.old.second hs st → IsUndone result
            → StandAgain WithTable b L.conduct (L.world self.new.talk.memory.below.below.below.link) self.new.first self.new.second st }
        ensures leaves { (b : Behaviour) (hs : Hosts) (st : SessionState) → AreThere b L.conduct (L.world self.old.talk.memory.below.below.below.link) self.old.first self.old.second hs → AreReadyFor self.old.first self.old.second hs st → OnOk result (StandAgain WithNumbers b L.conduct (L.world self.new.talk.memory.below.below.below.link) self.new.first self.new.second st) }
        ensures count { CountsAsk (L.faults self.old.talk.memory.below.below.below.link) (L.faults self.new.talk.memory.below.below.below.link) result }
    {
        match &mut self.second {
            None => assign_one(&mut self.talk, &mut self.first, text),
            Some(second) => assign_both(&mut self.talk, &mut self.first, second, text),
        }
    }

    /// What a command says that looks at the target or changes it: nothing that a step put stands then.
    fn inquire(&mut self, command: &Command) -> Result<Text, AskFault>
        ensures mode { self.new.mode ≡ self.old.mode }
        ensures limit { self.new.limit ≡ self.old.limit }
        ensures kept { IsUndone result → IsKept self.old.first self.new.first × AreKept self.old.second self.new.second }
        ensures query { IsQuery command.now → IsKept self.old.first self.new.first × AreKept self.old.second self.new.second }
        ensures word { IfOk result (λ text. SaysDone command.now text) }
        ensures meant { (b : Behaviour) (hs : Hosts) (st : SessionState) → Represents b L.conduct (L.world self.old.talk.memory.below.below.below.link) self.old.first self.old.second self.old.mode self.old.limit hs st → refused_by_state st.state command.now ≡ None → IsAskable command.now
            → ComesTo (L.faults self.old.talk.memory.below.below.below.link) (L.faults self.new.talk.memory.below.below.below.link) (λ text. SaidAll b L.conduct (L.world self.new.talk.memory.below.below.below.link) self.new.first self.new.second st (AnswersCommand b st command.now) text) (NotAll b L.conduct (L.world self.new.talk.memory.below.below.below.link) self.new.first self.new.second st (AnswersCommand b st command.now)) result }
        ensures raw { self.new.raw ≡ self.old.raw }
        ensures broken { self.new.broken ≡ self.old.broken }
        ensures stays { (b : Behaviour) (hs : Hosts) (st : SessionState) → Represents b L.conduct (L.world self.old.talk.memory.below.below.below.link) self.old.first self.old.second self.old.mode self.old.limit hs st → refused_by_state st.state command.now ≡ None → IsInquired command.now → IsUndone result
            → StandAgain (Leaves command.now) b L.conduct (L.world self.new.talk.memory.below.below.below.link) self.new.first self.new.second st }
        ensures leaves { (b : Behaviour) (hs : Hosts) (st : SessionState) → Represents b L.conduct (L.world self.old.talk.memory.below.below.below.link) self.old.first self.old.second self.old.mode self.old.limit hs st → refused_by_state st.state command.now ≡ None → IsExpression command.now
            → IfOk result (λ text. StandAgain (LeavesIfAny (Some command.now) (Ok (Answer.Lines text))) b L.conduct (L.world self.new.talk.memory.below.below.below.link) self.new.first self.new.second st) }
        ensures evaluated { (b : Behaviour) (hs : Hosts) (st : SessionState) → Represents b L.conduct (L.world self.old.talk.memory.below.below.below.link) self.old.first self.old.second self.old.mode self.old.limit hs st → refused_by_state st.state command.now ≡ None → IsExpression command.now → TalksWell (L.faults self.old.talk.memory.below.below.below.link) (L.faults self.new.talk.memory.below.below.below.link) (Unit {0}) result }
        ensures count { CountsAsk (L.faults self.old.talk.memory.below.below.below.link) (L.faults self.new.talk.memory.below.below.below.link) result }
    {
        match self.settle() {
            Ok(()) => {}
            Err(fault) => return Err(fault),
        }
        match command {
            Command::Regs => self.registers(),
            Command::Assign(text) => self.assign(text.as_bytes()),
            other => self.ask(other),
        }
    }

    /// Puts the break words of a step on all sides, or on none.
    fn prepare(&mut self) -> Result<(), AskFault>
        ensures mode { self.new.mode ≡ self.old.mode }
        ensures limit { self.new.limit ≡ self.old.limit }
        ensures kept { IsKept self.old.first self.new.first × AreKept self.old.second self.new.second }
        ensures still { StandsStill self.old.first self.new.first × OnSecond StandsStill self.old.second self.new.second }
        ensures faults { L.faults self.old.talk.memory.below.below.below.link ≤ L.faults self.new.talk.memory.below.below.below.link }
        ensures meant { (b : Behaviour) (hs : Hosts) (st : SessionState) → Represents b L.conduct (L.world self.old.talk.memory.below.below.below.link) self.old.first self.old.second self.old.mode self.old.limit hs st → IsStill st.state
            → ComesTo (L.faults self.old.talk.memory.below.below.below.link) (L.faults self.new.talk.memory.below.below.below.link) (λ u. AllPrepared b L.conduct (L.world self.new.talk.memory.below.below.below.link) self.old.first self.new.first self.old.second self.new.second hs st ByStep) (NotAll b L.conduct (L.world self.new.talk.memory.below.below.below.link) self.new.first self.new.second st (Begins b ByStep st)) result }
        ensures raw { self.new.raw ≡ self.old.raw }
        ensures broken { self.new.broken ≡ self.old.broken }
        ensures stays { (b : Behaviour) (hs : Hosts) (st : SessionState) → Represents b L.conduct (L.world self.old.talk.memory.below.below.below.link) self.old.first self.old.second self.old.mode self.old.limit hs st → IsStill st.state → IsUndone result → StandAgain WithTable b L.conduct (L.world self.new.talk.memory.below.below.below.link) self.new.first self.new.second st }
        ensures count { CountsAsk (L.faults self.old.talk.memory.below.below.below.link) (L.faults self.new.talk.memory.below.below.below.link) result }
        ensures tables { OnOk result (KeepsTable self.old.first self.new.first × OnSecond KeepsTable self.old.second self.new.second) }
    {
        match prepared(&mut self.talk, &mut self.first) {
            Ok(()) => {}
            Err(fault) => return Err(fault),
        }
        match &mut self.second {
            None => Ok(()),
            Some(second) => match prepared(&mut self.talk, second) {
                Ok(()) => Ok(()),
                Err(fault) => {
                    if is_broken(&fault) {
                        return Err(fault);
                    }
                    Err(left(taken_away(&mut self.talk, &mut self.first), fault))
                }
            },
        }
    }

    /// Takes the break words of a step away, but while it is interrupted.
    fn settle(&mut self) -> Result<(), AskFault>
        ensures mode { self.new.mode ≡ self.old.mode }
        ensures limit { self.new.limit ≡ self.old.limit }
        ensures kept { IsKept self.old.first self.new.first × AreKept self.old.second self.new.second }
        ensures still { StandsStill self.old.first self.new.first × OnSecond StandsStill self.old.second self.new.second }
        ensures ready { OnOk result (ReadyFor (state_of self.old.mode) ByContinue self.old.first self.new.first × OnSecond (ReadyFor (state_of self.old.mode) ByContinue) self.old.second self.new.second) }
        ensures running { (how : How) → self.old.mode ≡ Mode.Running how → self.new ≡ self.old }
        ensures faults { L.faults self.old.talk.memory.below.below.below.link ≤ L.faults self.new.talk.memory.below.below.below.link }
        ensures talks { (b : Behaviour) (hs : Hosts) → AreThere b L.conduct (L.world self.old.talk.memory.below.below.below.link) self.old.first self.old.second hs → ComesTo (L.faults self.old.talk.memory.below.below.below.link) (L.faults self.new.talk.memory.below.below.below.link) (λ u. Unit {0}) (λ e. ⊥) result }
        ensures meant { (b : Behaviour) (hs : Hosts) (st : SessionState) → Represents b L.conduct (L.world self.old.talk.memory.below.below.below.link) self.old.first self.old.second self.old.mode self.old.limit hs st → IsStill st.state
            → ComesTo (L.faults self.old.talk.memory.below.below.below.link) (L.faults self.new.talk.memory.below.below.below.link) (λ u. AllSettled b L.conduct (L.world self.new.talk.memory.below.below.below.link) self.old.first self.new.first self.old.second self.new.second hs st) (λ e. ⊥) result }
        ensures raw { self.new.raw ≡ self.old.raw }
        ensures broken { self.new.broken ≡ self.old.broken }
        ensures whole { IsUndone result → ⊥ }
        ensures cleared { (b : Behaviour) (hs : Hosts) → ((how : How) → self.old.mode ≢ Mode.Running how) → AreThere b L.conduct (L.world self.old.talk.memory.below.below.below.link) self.old.first self.old.second hs → OnOk result (AllCleared b L.conduct (L.world self.new.talk.memory.below.below.below.link) self.old.first self.new.first self.old.second self.new.second hs) }
        ensures count { CountsAsk (L.faults self.old.talk.memory.below.below.below.link) (L.faults self.new.talk.memory.below.below.below.link) result }
    {
        if let Mode::Running(_) = self.mode {
            return Ok(());
        }
        match taken_away(&mut self.talk, &mut self.first) {
            Ok(()) => {}
            Err(fault) => return Err(fault),
        }
        match &mut self.second {
            None => Ok(()),
            Some(second) => taken_away(&mut self.talk, second),
        }
    }

    /// All that is to be done before a resume, and the line of its reply: nothing takes memory behind it.
    fn ready(&mut self, how: How) -> Result<Line, AskFault>
        ensures mode { self.new.mode ≡ self.old.mode }
        ensures limit { self.new.limit ≡ self.old.limit }
        ensures kept { IsKept self.old.first self.new.first × AreKept self.old.second self.new.second }
        ensures still { StandsStill self.old.first self.new.first × OnSecond StandsStill self.old.second self.new.second }
        ensures ready { OnOk result (ReadyFor (state_of self.old.mode) (resume_of how) self.old.first self.new.first × OnSecond (ReadyFor (state_of self.old.mode) (resume_of how)) self.old.second self.new.second) }
        ensures room { IfOk result (λ line. HasRoomFor self.new.first line) }
        ensures faults { L.faults self.old.talk.memory.below.below.below.link ≤ L.faults self.new.talk.memory.below.below.below.link }
        ensures meant { (b : Behaviour) (hs : Hosts) (st : SessionState) → Represents b L.conduct (L.world self.old.talk.memory.below.below.below.link) self.old.first self.old.second self.old.mode self.old.limit hs st → IsResumable st.state
            → ComesTo (L.faults self.old.talk.memory.below.below.below.link) (L.faults self.new.talk.memory.below.below.below.link) (λ line. AllPrepared b L.conduct (L.world self.new.talk.memory.below.below.below.link) self.old.first self.new.first self.old.second self.new.second hs st (resume_of how)) (NotAll b L.conduct (L.world self.new.talk.memory.below.below.below.link) self.new.first self.new.second st (ResumesAs b (resume_of how) st)) result }
        ensures raw { self.new.raw ≡ self.old.raw }
        ensures broken { self.new.broken ≡ self.old.broken }
        ensures stays { (b : Behaviour) (hs : Hosts) (st : SessionState) → Represents b L.conduct (L.world self.old.talk.memory.below.below.below.link) self.old.first self.old.second self.old.mode self.old.limit hs st → IsResumable st.state → IsUndone result → StandAgain WithTable b L.conduct (L.world self.new.talk.memory.below.below.below.link) self.new.first self.new.second st }
        ensures count { CountsAsk (L.faults self.old.talk.memory.below.below.below.link) (L.faults self.new.talk.memory.below.below.below.link) result }
    {
        match (self.mode, how) {
            (Mode::Running(_), _) => {}
            (_, How::ByContinue) => match self.settle() {
                Ok(()) => {}
                Err(fault) => return Err(fault),
            },
            (_, How::ByStep) => match self.prepare() {
                Ok(()) => {}
                Err(fault) => return Err(fault),
            },
        }
        match line_for(self.alloc, &self.first) {
            Ok(line) => Ok(line),
            Err(_) => Err(left(self.settle(), AskFault::NoMemory)),
        }
    }

    /// Resumes all sides up to their event.
    fn run<O: Sink>(&mut self, out: &mut O) -> Result<Event, RunFault>
        ensures output { CountsOutput (O.faults out.old) (O.faults out.new) result }
        ensures leads { O.leads out.old out.new }
        ensures mode { self.new.mode ≡ self.old.mode }
        ensures behind { IfOk result (λ all. AllBehind (event_on self.old.first all) self.old.first self.new.first self.old.second self.new.second) }
        ensures limit { self.new.limit ≡ self.old.limit }
        ensures meant { (b : Behaviour) (hs : Hosts) → AreSteady b → AreThere b L.conduct (L.world self.old.talk.memory.below.below.below.link) self.old.first self.old.second hs → MayRun self.old.first.row.kept hs.first → MayAlsoRun self.old.second hs.second
            → ResumesAll b L.conduct (L.world self.new.talk.memory.below.below.below.link) self.old.first self.new.first self.old.second self.new.second hs self.old.limit (L.faults self.old.talk.memory.below.below.below.link) (L.faults self.new.talk.memory.below.below.below.link) (O.taken out.old) (O.taken out.new) result }
        ensures raw { self.new.raw ≡ self.old.raw }
        ensures broken { self.new.broken ≡ self.old.broken }
        ensures cause { CountsRun (L.faults self.old.talk.memory.below.below.below.link) (L.faults self.new.talk.memory.below.below.below.link) (O.faults out.old) (O.faults out.new) result }
    {
        match &mut self.second {
            None => resumed_one(&mut self.talk, &mut self.first, self.limit, out),
            Some(second) => {
                resumed_both(&mut self.talk, &mut self.first, second, self.limit, out)
            }
        }
    }

    /// `continue` and `step`; an interrupted resume goes on, whichever command began it.
    fn resume<O: Sink>(&mut self, how: How, out: &mut O) -> Result<Answer, End>
        ensures no_quit { IsNoQuit result }
        ensures resumes { Resumes (out.new ≡ out.old) (resume_of how) self.old.mode self.new.mode self.old.first self.new.first self.old.second self.new.second self.old.broken result }
        ensures output { CountsEnd (O.faults out.old) (O.faults out.new) result }
        ensures leads { O.leads out.old out.new }
        ensures no_memory { result ≡ Ok Answer.NoMemory → (self.new.mode ≡ self.old.mode) × (self.new.limit ≡ self.old.limit) × IsKept self.old.first self.new.first × AreKept self.old.second self.new.second × (out.new ≡ out.old) }
        ensures out_fault { OnErr result (self.new.mode ≡ Mode.Ended) }
        ensures limit { self.new.limit ≡ self.old.limit }
        ensures meant { (b : Behaviour) (hs : Hosts) (st : SessionState) → AreSteady b → Represents b L.conduct (L.world self.old.talk.memory.below.below.below.link) self.old.first self.old.second self.old.mode self.old.limit hs st → IsResumable st.state
            → AnswersAs b L.conduct (L.world self.new.talk.memory.below.below.below.link) self.new.first self.new.second self.new.mode self.new.limit st (O.taken out.old) (O.taken out.new) (ResumesAs b (resume_of how) st) (L.faults self.old.talk.memory.below.below.below.link) (L.faults self.new.talk.memory.below.below.below.link) self.old.broken result }
        ensures raw { self.new.raw ≡ self.old.raw }
        ensures broken { KeepsReply self.old.broken self.new.broken self.new.mode }
        ensures stays { (b : Behaviour) (hs : Hosts) (st : SessionState) → Represents b L.conduct (L.world self.old.talk.memory.below.below.below.link) self.old.first self.old.second self.old.mode self.old.limit hs st → IsResumable st.state → result ≡ Ok Answer.NoMemory → RepresentsAgain WithTable b L.conduct (L.world self.new.talk.memory.below.below.below.link) self.new.first self.new.second self.new.mode self.new.limit st }
        ensures count { CountsAnswer (L.faults self.old.talk.memory.below.below.below.link) (L.faults self.new.talk.memory.below.below.below.link) self.old.broken self.new.mode result }
    {
        let line = match self.ready(how) {
            Ok(line) => line,
            Err(fault) => return Ok(self.reply(Err(fault))),
        };
        match self.run(out) {
            Ok(event) => {
                self.mode = mode_after(began(self.mode, how), event);
                let table = &self.first.inquiry.core.store;
                Ok(Answer::Lines(event_reply(line, table, event)))
            }
            Err(RunFault::Output) => {
                self.mode = Mode::Ended;
                Err(End::OutFault)
            }
            Err(RunFault::Talk(_)) => Ok(self.break_off()),
        }
    }
}
