// What holds of frames and streams of them.

ghost use Rattle.std.specs.Prelude.{◌≡◌, List, ℕ, ◌+◌, ◌++◌, flat_map, [], false, Some, None};
ghost use Rattle.nub_wire.specs.declared.message.Msg.{Msg};
ghost use Rattle.nub_wire.specs.Spelling.{MsgFits, frame_of};
ghost use Rattle.nub_wire.specs.Feeding.{Feeding, FeedsAll, Feeds, nothing_fed, Splits, Breaks, joined};
ghost use Rattle.nub_wire.specs.declared.feeder.Fed.TheVariants as fed;
ghost use Rattle.nub_wire.specs.Delivery.{Conduct};
ghost use Rattle.nub_wire.specs.Silence.{NothingSaysQuiet, QuietGivesNothing};
ghost use Rattle.nub_wire.specs.AtOnce.{FetchLaw, StoreLaw, ShortLaws};
ghost use Rattle.nub_wire.specs.Exchange.{ExchangeLaw, ResumeLaw};
ghost use Rattle.nub_wire.specs.Told.{NoBadReply, NubsGiveNoBadReply, NubsStayFitting};
ghost use Rattle.nub_wire.specs.Resumes.{ResumesAreRuns, ResumesEnd};
ghost use Rattle.machine_state.specs.State.{Behaviour};
ghost use Rattle.nub_wire.specs.Nub.{Host, handled, turn_of};
ghost use Rattle.nub_wire.specs.Heard.{IsShut, IsWithin, Resumes, GivesBytes, MayAsk, IsAnswered};

/// No frame begins another, and no two messages have one frame.
pub fn one_message()
    ensures { (m n : Msg) (xs ys : List ℕ) → MsgFits m → MsgFits n → frame_of m ++ xs ≡ frame_of n ++ ys → (m ≡ n) × (xs ≡ ys) }
{}

/// However a stream is cut into pieces, the messages that are fed are its messages: up to what is held, its bytes are
/// their frames, and those of no others. Where bytes begin no frame, they do so at the offset that is told.
pub fn any_pieces()
    ensures split { (pieces : List (List ℕ)) (messages : List Msg) (last : Feeding) →
        FeedsAll nothing_fed pieces messages last → Splits (joined pieces) messages last.held }
    ensures bad { (pieces : List (List ℕ)) (messages : List Msg) (last new : Feeding) (piece : List ℕ) (at : ℕ) →
        FeedsAll nothing_fed pieces messages last → last.is_bad ≡ false → Feeds last piece (fed.BadFrame at) new → Breaks (joined pieces ++ piece) messages at }
    ensures only { (stream : List ℕ) (ms ns : List Msg) (xs ys : List ℕ) → Splits stream ms xs → Splits stream ns ys → (ms ≡ ns) × (xs ≡ ys) }
{}

/// A receive into a buffer that isn't empty gives nothing exactly where nothing is ready on that side and nothing will be
/// until something is sent.
pub fn quiet_until_sent()
    ensures only { (c : Conduct) → NothingSaysQuiet c }
    ensures stays { (c : Conduct) → QuietGivesNothing c }
{}

/// What a nub answers is heard as the reply that is owed: one message at once or, of a resume, no more output than turns
/// and then one message that ends it.
pub fn replies_are_heard()
    ensures at_once { (b : Behaviour) (m : Msg) (h : Host) → h.nub.blocked ≡ false → h.nub.killed ≡ false → IsShut h.nub → GivesBytes h.machine → MayAsk m h.machine → IsAnswered m (handled b m h) }
    ensures later { (b : Behaviour) (n turns printed : ℕ) (h : Host) → IsWithin turns printed h.nub → Resumes turns printed (turn_of b n h) }
{}

/// From an idle side, under any schedule, what is received after the frame of a message that is answered at once is exactly
/// the nub's reply: then the side is idle again, and so is the other one where it was.
pub fn exchange()
    ensures { (c : Conduct) → ExchangeLaw c }
{}

/// From a side at rest, under any schedule and however the turns are divided, what is received after the frame of a Resume is
/// exactly what the run of the machine comes to: its output, and then its end. Then the side is at rest again, and an idle other
/// side is as it was.
pub fn resume_exchange()
    ensures { (c : Conduct) → ResumeLaw c }
{}

/// Fetches and stores of a nub at rest over a machine whose memory holds bytes, and the other messages that it replies to at
/// once.
pub fn answers_at_rest()
    ensures fetch { (c : Conduct) → FetchLaw c }
    ensures store { (c : Conduct) → StoreLaw c }
    ensures short { (b : Behaviour) → ShortLaws b }
{}

/// Under any schedule and in pieces of any sizes, a link that tells its nubs gives no bad reply: to no message from an idle
/// side that is answered at once, and, where the nubs meet their whole definition and what they tell of their machines fits
/// messages, to none that a debugger may ask a nub at rest, a Resume too; behind its replies what they tell goes on to fit.
pub fn told_links_answer()
    ensures at_once { (c : Conduct) → NoBadReply c }
    ensures all { (b : Behaviour) → NubsGiveNoBadReply b }
    ensures stays { (b : Behaviour) → NubsStayFitting b }
{}

/// As long as no message is due, n turns and then m turns are n + m turns.
pub fn turns_add()
    ensures { (b : Behaviour) (n m : ℕ) (h h' : Host) → turn_of b n h ≡ (None, h') → turn_of b (n + m) h ≡ turn_of b m h' }
{}

/// Turns after a message is due are not run.
pub fn turns_stop()
    ensures { (b : Behaviour) (n k : ℕ) (h h' : Host) (m : Msg) → turn_of b n h ≡ (Some m, h') → turn_of b (n + k) h ≡ (Some m, h') }
{}

/// A resume tells all that the run of its machine puts, in messages of output, and then how the run ended, however its turns
/// are divided; and it comes to that end.
pub fn resumes_are_runs()
    ensures are { (b : Behaviour) → ResumesAreRuns b }
    ensures end { (b : Behaviour) → ResumesEnd b }
{}
