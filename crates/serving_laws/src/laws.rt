// What holds of texts that have the value of an expression.

ghost use Rattle.std.specs.Prelude.{◌≡◌, ◌≤◌, ◌+◌, ℕ, Bool, suc, true, false, List, ◌∷◌, None, length, codes};
ghost use Rattle.c_tree.specs.declared.typed.Typed.{Typed};
ghost use Rattle.c_tree.specs.Types.{type_of, is_struct};
ghost use Rattle.c_judge.specs.declared.symbol.Symbol.{Symbol};
ghost use Rattle.c_judge.specs.declared.check.Mode.TheVariants.{Value};
ghost use Rattle.ps_store.specs.declared.object.PsObj.{PsObj};
ghost use Rattle.ps_store.specs.declared.object.PsObj.TheVariants.{Array};
ghost use Rattle.ps_store.specs.declared.object.ArrayId.{ArrayId};
ghost use Rattle.ps_store.specs.declared.object.DictId.{DictId};
ghost use Rattle.ps_store.specs.declared.object.StringId.{StringId};
ghost use Rattle.ps_store.specs.StoreState.{StoreState};
ghost use Rattle.ps_store.specs.Store.{elements_of};
ghost use Rattle.ps_step.specs.declared.item.Item.{Item};
ghost use Rattle.ps_step.specs.declared.item.Item.TheVariants.{Object};
ghost use Rattle.ps_step.specs.Item.{under_stopped};
ghost use Rattle.ps_text.specs.Code.{Stop, Word, Proc};
ghost use Rattle.ps_text.specs.Grown.{IsString, HasArray};
ghost use Rattle.ps_text.specs.Spells.{Spells, Fine, size, units};
ghost use Rattle.ps_terms.specs.Stands.{core};
ghost use Rattle.dialect_model.specs.Dial.{Dial};
ghost use Rattle.dialect_model.specs.TableUse.{TableUse};
ghost use Rattle.c_bytes.specs.Lvalues.{Scene};
ghost use Rattle.expr_serve.specs.Codes.{value_code, text_of};
ghost use Rattle.serving_laws.specs.Plain.{IsPlain, RoomFor};
ghost use Rattle.serving_laws.specs.Left.{AreOperators, AreLeft, AreServed};
ghost use Rattle.machine_state.specs.Sound.{IsMemory};
ghost use Rattle.ps_bare.specs.Deferred.{IsDeferred};
ghost use Rattle.serving_laws.specs.Evaluated.{IsSettled, IsEvaluated, AreEvaluated};
ghost use Rattle.serving_laws.specs.Texts.{IsWhole, AreReadAndEvaluated};
ghost use Rattle.serving_laws.specs.Named.{HasSpaces, IsRead, dial_in, dictionaries_in, AreRead};

/// A text of a scalar expression that needs no memory, once it is executed as a string, is read as one procedure, which is run: it leaves the expression's value, or the run
/// ends by the error of what is undefined in it. The text's words and numbers are tokens, and the store has room for its objects.
pub fn texts_are_served()
    ensures { (sc : Scene) (t : TableUse) (names : List Symbol) (e : Typed) (s : StoreState) (ds : List DictId) (o : List PsObj) (items : List Item) (i : StringId) (d : Dial) → AreOperators s ds → IsPlain sc.defs e → is_struct (type_of e) ≡ false → RoomFor e (length o) (suc (length items)) → under_stopped items ≡ None → IsString s i (text_of names sc.defs Value e) → Fine (value_code names sc.defs e) → size (value_code names sc.defs e) ≤ 1000000 → s.table.units + s.command.units + units (Proc (value_code names sc.defs e) (Word (codes "exec") Stop)) ≤ 8000000 → AreServed names sc e t s ds o items i d }
{}

/// A procedure with the pieces of an expression that needs no memory, once it is executed, leaves the value that the expression has over the target's bytes, whatever these
/// are; or the run ends by the error of what is undefined in it. No `stopped` is open, and the stacks have room.
pub fn values_are_left()
    ensures { (sc : Scene) (t : TableUse) (names : List Symbol) (e : Typed) (s : StoreState) (ds : List DictId) (o : List PsObj) (items : List Item) (a : ArrayId) (d : Dial) → AreOperators s ds → IsPlain sc.defs e → RoomFor e (length o) (length items) → under_stopped items ≡ None → HasArray s a → Spells s (elements_of s a) (value_code names sc.defs e) → AreLeft sc e t s ds o items d (core s ds o (Object (Array a true) ∷ items)) }
{}

/// A procedure with the pieces of an expression that reads or takes one place that a name tells (a scalar variable or member, an array of these, or `&`), once it is executed,
/// leaves the value that the expression has over the target's bytes, in whatever frame of whichever target; or the run ends since the target doesn't hold a byte of the place.
/// What the expression means takes of the steps those of the table's own procedure alone. The dialect's operators see the scene's target and frame; the name's symbol is the one
/// in scope, and has a procedure as compiled tables have (`IsNamed`); no dictionary gives an operator's name another meaning, no `stopped` is open, and the stacks have room.
pub fn named_places_are_read()
    ensures { (sc : Scene) (s : StoreState) (cell : ℕ) (own : DictId) (names : List Symbol) (e : Typed) (o : List PsObj) (items : List Item) (a : ArrayId) (out : List ℕ) (raw : Bool) → HasSpaces s → AreOperators s (dictionaries_in s own) → IsRead sc s names e → length o + 5 ≤ 100000 → length items + 3 ≤ 1000 → under_stopped items ≡ None → HasArray s a → Spells s (elements_of s a) (value_code names sc.defs e) → AreRead sc e s cell own o items (dial_in sc cell out raw) (core s (dictionaries_in s own) o (Object (Array a true) ∷ items)) }
{}

/// A procedure with the pieces of an expression, once it is executed, leaves the value that the expression has over the target's bytes, in whatever frame of whichever target;
/// or the run ends by the error of why it has none: what is undefined in it, a leaf that isn't live where a pointer leads, a byte that the target doesn't hold, or what the table
/// lacks. Operators, conversions, conditions, sizes, constants and places that names tell nest in any way, and so do reads through pointers, their sums, orders and differences
/// where no unit of the table has to be run first (`IsEvaluated`). What the expression means takes of the steps those of the table's own procedures alone. The target's memory
/// holds bytes, and the rest is as for `named_places_are_read`.
pub fn expressions_are_evaluated()
    ensures { (sc : Scene) (s : StoreState) (cell : ℕ) (own : DictId) (names : List Symbol) (e : Typed) (o : List PsObj) (items : List Item) (a : ArrayId) (out : List ℕ) (raw : Bool) → HasSpaces s → AreOperators s (dictionaries_in s own) → IsMemory sc.target.regions → IsEvaluated sc s names e → RoomFor e (length o) (length items) → under_stopped items ≡ None → HasArray s a → Spells s (elements_of s a) (value_code names sc.defs e) → AreEvaluated sc e s cell own o items (dial_in sc cell out raw) (core s (dictionaries_in s own) o (Object (Array a true) ∷ items)) }
{}

/// So does the text of such an expression, once it is executed as a string, where the expression's value is no struct: it is read as one procedure, which is run. The text's words
/// and numbers are tokens, the store has room for its objects, and holds all that its dictionaries and arrays refer to. `IsEvaluated` is asked of the
/// store before the text is read, and what the expression means is told of the store behind that.
pub fn texts_are_evaluated()
    ensures { (sc : Scene) (s : StoreState) (cell : ℕ) (own : DictId) (names : List Symbol) (e : Typed) (o : List PsObj) (items : List Item) (i : StringId) (out : List ℕ) (raw : Bool) → HasSpaces s → IsWhole s → AreOperators s (dictionaries_in s own) → IsMemory sc.target.regions → IsEvaluated sc s names e → is_struct (type_of e) ≡ false → RoomFor e (length o) (suc (length items)) → under_stopped items ≡ None → IsString s i (text_of names sc.defs Value e) → Fine (value_code names sc.defs e) → size (value_code names sc.defs e) ≤ 1000000 → s.table.units + s.command.units + units (Proc (value_code names sc.defs e) (Word (codes "exec") Stop)) ≤ 8000000 → AreReadAndEvaluated sc names e s cell own o items i (dial_in sc cell out raw) }
{}

/// Where each unit of a table was run, none has to be run first where an object is looked up, as `IsEvaluated` asks it.
pub fn run_tables_are_settled()
    ensures { (sc : Scene) (s : StoreState) → ((u : ℕ) → IsDeferred s u → ⊥) → IsSettled sc s }
{}
