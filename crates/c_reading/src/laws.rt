// What holds of the texts of a session.
ghost use Rattle.std.specs.Prelude.{◌≡◌, ℕ, List};
ghost use Rattle.c_tree.specs.declared.typed.Typed.{Typed};
ghost use Rattle.c_tree.specs.Types.{type_of};
ghost use Rattle.c_tree.specs.declared.rows.Program.{Program};
ghost use Rattle.c_store.specs.Frames.{Here};
ghost use Rattle.c_source.specs.Meaning.{values_meant, assigned};
ghost use Rattle.c_typing.specs.Plain.{plain};
ghost use Rattle.c_reading.specs.Readings.{Use, Reading, Read, Reads, Agree};
ghost use Rattle.c_reading.specs.Rules.{ReadsTyped};

/// A text is one thing at a stopping point: refused for one reason, or one expression.
pub fn readings_agree()
    ensures { (p : Program) (u : Use) (point : ℕ) (text : List ℕ) (x y : Reading) → Reads p u point text x → Reads p u point text y → Agree p u point text x y }
{}

/// Expressions that one text is read as differ in where their nodes lie in memory alone: they have the same type, and in each activation the same leaf values, and as an assignment they come to the same.
pub fn readings_mean_the_same()
    ensures type_is { (p : Program) (u : Use) (point : ℕ) (text : List ℕ) (x y : Typed) → Reads p u point text (Read x) → Reads p u point text (Read y) → plain (type_of x) ≡ plain (type_of y) }
    ensures values { (p : Program) (u : Use) (point : ℕ) (text : List ℕ) (x y : Typed) (h : Here) → Reads p u point text (Read x) → Reads p u point text (Read y) → values_meant p h x ≡ values_meant p h y }
    ensures assignment { (p : Program) (u : Use) (point : ℕ) (text : List ℕ) (x y : Typed) (h : Here) → Reads p u point text (Read x) → Reads p u point text (Read y) → assigned p h x ≡ assigned p h y }
{}

/// What a text is read as keeps to the typing rules among the names at its point.
pub fn readings_keep_rules()
    ensures { (p : Program) (u : Use) (point : ℕ) (text : List ℕ) (x : Reading) → Reads p u point text x → ReadsTyped p u point text x }
{}
