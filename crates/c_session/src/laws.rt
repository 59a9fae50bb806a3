// What holds of sessions.
ghost use Rattle.std.specs.Prelude.{◌≡◌, ◌≢◌, ◌⊎◌, ◌∷◌, [], ℕ, Bool, List, Option, Some};
ghost use Rattle.runs.specs.Runs.{Event, RunsTo};
ghost use Rattle.c_tree.specs.declared.rows.Program.{Program};
ghost use Rattle.c_source.specs.Control.{State};
ghost use Rattle.c_source.specs.Source.{step};
ghost use Rattle.c_reading.specs.Readings.{Reading};
ghost use Rattle.c_session.specs.declared.command.Command.{Command};
ghost use Rattle.c_session.specs.declared.command.Command.TheVariants as command;
ghost use Rattle.c_session.specs.Commands.{Session, Ended, Sides, Refusal, Refuses, HasEnded, refusal_text, answer};
ghost use Rattle.c_session.specs.Allowed.{Lines, Standing, AnswerReplies, MemoryReplies, at_first};
ghost use Rattle.c_session.specs.Histories.{GoesOn, IsModeReached};
ghost use Rattle.c_store.specs.Assigned.{History};

/// A command that is answered by a refusal changes nothing: not the program, the breakpoints, the chosen frame, the limit or the output. Nor does one for which memory is wanting.
pub fn refused_commands_change_nothing()
    ensures refused { (p : Program) (sides : Sides) (st next : Standing) (x : Reading) (c : Option Command) (u : Refusal) → AnswerReplies p st (answer p sides st.session x c) (refusal_text u ∷ []) next → next ≡ st }
    ensures no_memory { (st next : Standing) (c : Option Command) (reply : Lines) → MemoryReplies st c reply next → next ≡ st }
{}

/// A session that has ended refuses every command but `quit`.
pub fn ended_sessions_refuse()
    ensures { (p : Program) (sides : Sides) (session : Session) (x : Reading) (c : Command) → session.mode ≡ Ended → c ≢ command.Quit → answer p sides session x (Some c) ≡ Refuses HasEnded }
{}

/// A resume has one event, and comes to it after one count.
pub fn resumes_have_one_event()
    ensures count { (p : Program) (stops : ℕ → Bool) (s : State) (c d : ℕ) (e f : Event State) → RunsTo State (step p) stops s c e → RunsTo State (step p) stops s d f → c ≡ d }
    ensures event { (p : Program) (stops : ℕ → Bool) (s : State) (c d : ℕ) (e f : Event State) → RunsTo State (step p) stops s c e → RunsTo State (step p) stops s d f → e ≡ f }
{}

/// A session goes through the run of its program: there is a history of assignments with which this run comes to each state at which the session stands, those made at the present stop among them. With two sides it is one history.
pub fn sessions_follow_a_run()
    ensures { (p : Program) (sides : Sides) (input : List ℕ) (cs : List (Option Command)) (st : Standing) → GoesOn p sides (at_first p input) cs st → (h : History) × IsModeReached p input h st.session.mode }
{}
