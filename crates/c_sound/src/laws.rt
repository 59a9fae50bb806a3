// What holds of accepted programs.
ghost use Rattle.std.specs.Prelude.{◌≡◌, Option, ℕ, Bool, List, Some, Ok, slice_get};
ghost use Rattle.c_tree.specs.declared.typed.Typed.{Typed};
ghost use Rattle.c_tree.specs.declared.rows.Program.{Program};
ghost use Rattle.runs.specs.Runs.{Moment, Passes, after, until};
ghost use Rattle.c_store.specs.Frames.{ActivationRecord};
ghost use Rattle.c_store.specs.Assigned.{History};
ghost use Rattle.c_source.specs.Control.{State};
ghost use Rattle.c_source.specs.Source.{step};
ghost use Rattle.c_source.specs.Begin.{begin, acted, records};
ghost use Rattle.c_source.specs.Meaning.{Given, values_meant, assigned, IsPlain, IsAssignment};
ghost use Rattle.c_typing.specs.Expressions.{Scope, IsTyped};
ghost use Rattle.c_reading.specs.Kept.{KeepsRules};
ghost use Rattle.c_typing.specs.Plain.{Plain};
ghost use Rattle.c_tree.specs.declared.rows.SymbolRow.{SymbolRow};
ghost use Rattle.c_reading.specs.Scope.{scope_with};
ghost use Rattle.c_reading.specs.Readings.{Reading};
ghost use Rattle.c_typing.specs.Programs.{KeepsRules as ProgramKeepsRules};
ghost use Rattle.c_session.specs.declared.command.Command.{Command};
ghost use Rattle.c_session.specs.Commands.{Sides, answer, ReadsLine};
ghost use Rattle.c_session.specs.Allowed.{Standing, at_first};
ghost use Rattle.c_sound.specs.Sessions.{AreAnswered, HasAnswer};
ghost use Rattle.c_session.specs.Histories.{IsModeReached};
ghost use Rattle.c_sound.specs.Shapes.{IsFitting, IsMoment, KeepsShapes, CourseKeepsShapes, HasMeaning, IsAssigned, AreLive, HasItsLocals};

/// However many steps of an accepted program are looked at, on any input and with any assignments of a debugger at its stops that give leaves values of their kind: it goes on, has ended, or was undefined for one of C's reasons. Never has a value the wrong shape, and never is a step without an answer. The same holds of each run to an event from a moment before the end.
pub fn accepted_programs_keep_shapes()
    ensures whole { (p : Program) (input : List ℕ) (h : History) (n : ℕ) → ProgramKeepsRules p → IsFitting h → KeepsShapes (after State (step p) (acted h) n 0 (begin p input)) }
    ensures resumed { (p : Program) (input : List ℕ) (h : History) (m : Moment State) (stops : ℕ → Bool) (k : ℕ) → IsMoment p input h m → CourseKeepsShapes (until State (step p) stops k m.state) }
{}

/// At each moment of such a run before its end, an expression without assignments and calls that keeps to the typing rules, whatever types the names have, has leaf values or one of C's reasons for none, in each activation in which its locals have objects. A plain assignment too; and where it is made, it is one of a list of assignments to leaves that give each a value of its kind, so that the run with it is again one of those above.
pub fn evaluations_keep_shapes()
    ensures value { (p : Program) (input : List ℕ) (h : History) (m : Moment State) (a : ActivationRecord) (v : List ℕ) (types : SymbolRow → Plain) (e : Typed) → IsMoment p input h m → AreLive v a → KeepsRules (scope_with p a.function v types) e → IsPlain e → HasMeaning (values_meant p (record { world = m.state.here.world; activation = a }) e) }
    ensures assignment { (p : Program) (input : List ℕ) (h : History) (m : Moment State) (a : ActivationRecord) (v : List ℕ) (types : SymbolRow → Plain) (e : Typed) → IsMoment p input h m → AreLive v a → KeepsRules (scope_with p a.function v types) e → IsAssignment e → HasMeaning (assigned p (record { world = m.state.here.world; activation = a }) e) }
    ensures leaves { (p : Program) (input : List ℕ) (h : History) (m : Moment State) (a : ActivationRecord) (v : List ℕ) (types : SymbolRow → Plain) (e : Typed) (g : Given) → IsMoment p input h m → AreLive v a → KeepsRules (scope_with p a.function v types) e → IsAssignment e → assigned p (record { world = m.state.here.world; activation = a }) e ≡ Ok g → IsAssigned m.state.here.world g.world }
{}

/// Where a step of such a run passes a stopping point, each activation has an object for every local in scope at the point that it passed last. So the expressions that keep to the rules among the names at that point are those of `evaluations_keep_shapes`.
pub fn stops_have_their_locals()
    ensures { (p : Program) (input : List ℕ) (h : History) (m : Moment State) (q c : ℕ) (s : State) (i : ℕ) (a : ActivationRecord) → IsMoment p input h m → step p m.state ≡ Passes q c s → slice_get (records s) i ≡ Some a → HasItsLocals p a }
{}

/// A session over an accepted program has an answer to each command, however it has gone on so far: no command comes to a value of the wrong shape.
pub fn sessions_have_answers()
    ensures { (p : Program) (sides : Sides) (input : List ℕ) (cs : List (Option Command)) (st : Standing) (x : Reading) (c : Option Command) → ProgramKeepsRules p → AreAnswered p sides (at_first p input) cs st → ReadsLine p sides st.session c x → HasAnswer (answer p sides st.session x c) }
{}

/// A session over an accepted program goes through a run of it with a history of assignments that give leaves values of their kind, which is a run of `accepted_programs_keep_shapes`.
pub fn sessions_follow_fitting_runs()
    ensures { (p : Program) (sides : Sides) (input : List ℕ) (cs : List (Option Command)) (st : Standing) → ProgramKeepsRules p → AreAnswered p sides (at_first p input) cs st → (h : History) × IsModeReached p input h st.session.mode × IsFitting h }
{}

/// A well-typed expression keeps to the typing rules.
pub fn typed_expressions_keep_rules()
    ensures { (s : Scope) (e : Typed) → IsTyped s e → KeepsRules s e }
{}
