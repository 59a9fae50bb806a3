//! What holds of runs of tables.

ghost use Rattle.std.specs.Prelude.{◌≡◌, ℕ, ℤ, ◌+◌, ◌*◌, ◌/◌, ◌<◌, ◌≤◌, ◌^◌, ◌∷◌, [], ◌++◌, List, length, codes, drop, suc, true, Some, Ok};
ghost use Rattle.ps_store.specs.declared.object.PsObj.{PsObj};
ghost use Rattle.ps_store.specs.declared.object.PsObj.TheVariants.{Int, Str, Dict};
ghost use Rattle.ps_store.specs.declared.key.Key.TheVariants.{Name as NameKey};
ghost use Rattle.ps_store.specs.Entries.{value_at};
ghost use Rattle.ps_store.specs.Store.{entries_of, making_string, text_units};
ghost use Rattle.ps_store.specs.declared.object.DictId.{DictId};
ghost use Rattle.ps_store.specs.declared.object.StringId.{StringId};
ghost use Rattle.ps_store.specs.declared.object.ArrayId.{ArrayId};
ghost use Rattle.c_tree.specs.declared.rows.Program.{Program};
ghost use Rattle.c_tree.specs.declared.rows.Point.{Point};
ghost use Rattle.ps_store.specs.StoreState.{StoreState};
ghost use Rattle.ps_step.specs.declared.item.Item.{Item};
ghost use Rattle.ps_step.specs.declared.item.Item.TheVariants.{Object, Text};
ghost use Rattle.ps_step.specs.declared.machine.PsCore.{PsCore};
ghost use Rattle.ps_step.specs.Arithmetic.{product};
ghost use Rattle.ps_step.specs.Keys.{named};
ghost use Rattle.ps_run.specs.Runs.{Answer, Runs};
ghost use Rattle.ps_text.specs.Code.{Code, Stop, Word, Lit, render};
ghost use Rattle.ps_text.specs.Grown.{IsString};
ghost use Rattle.ps_text.specs.Spells.{Fine, units};
ghost use Rattle.ps_text.specs.Reading.{first, IsMore, Lead};
ghost use Rattle.ps_terms.specs.Stands.{Frames, core};
ghost use Rattle.ps_terms.specs.Printing.{further};
ghost use Rattle.ps_emit.specs.Words.{words};
ghost use Rattle.ps_emit.specs.Terms.{◌⋯◌};
ghost use Rattle.ps_emit.specs.Functions.{saved_register, point_code};
ghost use Rattle.ps_emit.specs.Bounds.{per_saved, per_point, cost_of, units_of};
ghost use Rattle.ps_emit.specs.Table.{top_code};
ghost use Rattle.ps_emit.specs.declared.placement.Placement.{Placement};
ghost use Rattle.ps_tables.specs.TablePieces.{saved, point, top};
ghost use Rattle.ps_tables.specs.Taken.{Takes};
ghost use Rattle.ps_tables.specs.Dictionaries.{Fields, filled, joined};
ghost use Rattle.ps_tables.specs.Making.{procedure_under, copying, begun_as, array_making, taking_steps, IsMaking, Fits, AreShort, HasFields, Makes};
ghost use Rattle.ps_tables.specs.Executed.{Executes};
ghost use Rattle.ps_tables.specs.Later.{StandsAt};
ghost use Rattle.ps_tables.specs.Defined.{in_table, Defines};
ghost use Rattle.ps_tables.specs.Makers.{Maker, body, taken_by, most, calls, Ready, Leaves};
ghost use Rattle.ps_tables.specs.TableWords.{new_point, new_function, new_unit, pointer_to, new_struct, new_string, new_object, new_symbol, function_symbol};
ghost use Rattle.ps_tables.specs.Pieces.{Piece, End, Field, Values, Bottom, left_by, code, cost, steps, after, Knows, HasRoom, Show, Performs};
ghost use Rattle.ps_emit.specs.Table.{table_text};
ghost use Rattle.ps_print.specs.Loaded.{loaded};
ghost use Rattle.std.specs.List.{AllByRecursion};
ghost use Rattle.c_tree.specs.declared.types.CType.{CType};
ghost use Rattle.c_tree.specs.declared.types.StructDef.{StructDef};
ghost use Rattle.c_typing.specs.Written.{IsFormed};
ghost use Rattle.c_typing.specs.Programs.{KeepsRules};
ghost use Rattle.ps_tables.specs.Runnable.{Runnable, RunsType, RunsRow};
ghost use Rattle.ps_tables.specs.Behind.{prelude_dict, loaded_printers};
ghost use Rattle.ps_tables.specs.Bounded.{IsShort, deferred_units};
ghost use Rattle.ps_tables.specs.Rows.{HasRows, IsParted};
ghost use Rattle.ps_tables.specs.Within.{IsWithin, HasTypes};
ghost use Rattle.ps_tables.specs.Senses.{Knowing};
ghost use Rattle.ps_tables.specs.Reached.{Reaches};
ghost use Rattle.ps_tables.specs.WordsKnown.{Printers, AreNoMarks, printer_senses, word_senses};
ghost use Rattle.ps_tables.specs.Tabled.{table_made, table_steps, LeavesTop, EndsAtTop, RunsToTop};
ghost use Rattle.ps_tables.specs.Left.{LeavesTable};

use ps_run::Dialect;

/// Where steps that ask nothing of a dialect lead from a state to another, each run goes on from there with so many steps fewer, whatever the dialect.
pub fn steps_are_taken<D: Dialect>()
    ensures { (k n m : ℕ) (d d' : D) (c c₁ c' : PsCore) (r : Answer) → Takes k c c₁ → Runs D.operates (further k n) d c r m d' c' → Runs D.operates n d c₁ r m d' c' }
{}

/// A step of a text that is a term's executes its first object.
pub fn texts_are_executed()
    ensures { (post text g : List ℕ) (c : PsCore) (t : StringId) (at : ℕ) (under : List Item) (k : Code) → Lead g → IsString c.store t text → IsMore k → Fine (first k) → drop at text ≡ g ++ (render k ++ post) → c.store.table.units + c.store.command.units + units (first k) ≤ 8000000 → c.execution ≡ Text t at ∷ under → Executes k post text c t at under }
{}

/// The words of a table that make a new dictionary take their operands and leave the dictionary of these fields, in known steps and units, without an error.
pub fn dictionaries_are_made()
    ensures made { (s : StoreState) (ds : List DictId) (m : Maker) (vs o : List PsObj) (items under : List Item) → IsMaking s ds → Ready s ds m → length vs ≡ taken_by m → s.table.units + s.command.units + (1 + most m) ≤ 8000000 → length (vs ++ o) + 105 ≤ 100000 → length under + 12 + calls m ≤ 1000 → Frames s under items (body m ∷ []) → Leaves s ds m vs o items under }
    ensures again { (s : StoreState) (ds : List DictId) (room : ℕ) (fields : Fields) (keys : List (List ℕ)) (vs : List PsObj) (d : DictId) (o : List PsObj) (items under : List Item) → IsMaking s ds → HasFields s d fields → AreShort keys → length vs ≡ length keys → length fields + length keys ≤ 90 → Fits (1 + (length fields + length keys)) s (Dict d ∷ (vs ++ o)) under → Frames s under items (copying room keys Stop ∷ []) → Makes (further 3 (taking_steps keys 0)) s ds (filled (joined [] fields) keys vs) (Dict d ∷ (vs ++ o)) items o under }
    ensures array { (s : StoreState) (ds : List DictId) (word : List ℕ) (dict t : DictId) (fields : Fields) (count size total : ℤ) (o : List PsObj) (items under : List Item) → IsMaking s ds → named s ds word ≡ Some (Dict dict) → HasFields s dict fields → length fields ≤ 80 → value_at (entries_of s t) (NameKey (codes "size")) ≡ Some (Int size) → product count size ≡ Ok total → s.table.units + s.command.units + (4 + length fields) ≤ 8000000 → length o + 110 ≤ 100000 → length under + 10 ≤ 1000 → Frames s under items (array_making (begun_as word 5 (codes "size" ∷ codes "count" ∷ codes "to" ∷ []) Stop) ∷ []) → Makes 28 s ds (filled (joined [] fields) (codes "size" ∷ codes "count" ∷ codes "to" ∷ []) (Int total ∷ Int count ∷ Dict t ∷ [])) (Int count ∷ Dict t ∷ o) items o under }
    ensures array_of { procedure_under (codes "ArrayOf") words ≡ array_making (begun_as (codes "ArrayType") 5 (codes "size" ∷ codes "count" ∷ codes "to" ∷ []) Stop) }
    ensures pointer { (dict : DictId) (fields : Fields) → procedure_under (codes "PointerTo") words ≡ body (pointer_to dict fields) }
    ensures structure { (dict : DictId) (fields : Fields) → procedure_under (codes "NewStruct") words ≡ body (new_struct dict fields) }
    ensures text { (dict : DictId) (fields : Fields) → procedure_under (codes "NewString") words ≡ body (new_string dict fields) }
    ensures object { (dict : DictId) (fields : Fields) → procedure_under (codes "NewObject") words ≡ body (new_object dict fields) }
    ensures object_symbol { procedure_under (codes "ObjectSymbol") words ≡ copying 6 (codes "uplink" ∷ []) Stop }
    ensures symbol { (dict : DictId) (fields : Fields) → procedure_under (codes "NewSymbol") words ≡ body (new_symbol dict fields) }
    ensures function_symbol { (dict : DictId) (fields : Fields) → procedure_under (codes "FunctionSymbol") words ≡ body (function_symbol dict fields) }
    ensures point { procedure_under (codes "NewPoint") words ≡ body new_point }
    ensures function { procedure_under (codes "NewFunction") words ≡ body new_function }
    ensures unit { procedure_under (codes "NewUnit") words ≡ body new_unit }
{}

/// A piece of a table's text is executed without an error: it leaves its values on top of the operands, in known steps and with at most so many units made.
pub fn pieces_are_performed()
    ensures { (post : List ℕ) (s : StoreState) (ds : List DictId) (p : Piece) (k : Code) (vs : Values) (xs o : List PsObj) (t : StringId) (at : ℕ) (under : List Item) → IsMaking s ds → Knows s ds p → HasRoom (length (xs ++ o)) p → s.table.units + s.command.units + cost p ≤ 8000000 → length under + 100 ≤ 1000 → Show s xs vs → StandsAt s t at (render (code p k) ++ post) → Performs (cost p) (steps p) (after p vs) s ds (xs ++ o) o t at (render k ++ post) under }
{}

/// What stands behind the definitions of a table is the text of a piece. It is executed without an error and leaves one dictionary, with the keys of a table.
pub fn tops_are_left()
    ensures text { (p : Program) (place : Placement) (objects : ArrayId) (structs : List PsObj) (k : Code) → length structs ≡ length p.defs → length p.defs < 2 ^ 31 → code (top p place objects structs) k ≡ (top_code p place ⋯ k) }
    ensures left { (p : Program) (place : Placement) (objects : ArrayId) (structs : List PsObj) (k : Code) (post : List ℕ) (s : StoreState) (ds : List DictId) (o : List PsObj) (t : StringId) (at : ℕ) (under : List Item) → length structs ≡ length p.defs → length p.defs < 2 ^ 31 → IsMaking s ds → Knows s ds (top p place objects structs) → HasRoom (length o) (top p place objects structs) → s.table.units + s.command.units + cost (top p place objects structs) ≤ 8000000 → length under + 100 ≤ 1000 → StandsAt s t at (render (top_code p place ⋯ k) ++ post) → Performs (cost (top p place objects structs)) (steps (top p place objects structs)) (after (top p place objects structs) Bottom) s ds o o t at (render k ++ post) under }
{}

/// A saved register and a stopping point are the texts of pieces, which take no more steps and units than are counted for each.
pub fn items_are_pieces()
    ensures saved { (register : ℕ) (offset : ℤ) (rest : Piece) (k : Code) → code (saved register offset rest) k ≡ (saved_register register offset ⋯ code rest k) }
    ensures point { (address : ℕ) (q : Point) (x : PsObj) (rest : Piece) (k : Code) → code (point address q x rest) k ≡ (point_code address q ⋯ code rest k) }
    ensures saved_cost { (register : ℕ) (offset : ℤ) → (steps (saved register offset End) ≡ per_saved.steps) × (cost (saved register offset End) + 1 ≤ per_saved.made) }
    ensures point_cost { (address : ℕ) (q : Point) (x : PsObj) → (steps (point address q x End) ≤ per_point.steps) × (cost (point address q x End) + 1 ≤ per_point.made) }
{}

/// A definition in a text is executed without an error: the value of a piece is put under a name of the topmost dictionary, which is one of the table's part and not closed.
pub fn definitions_are_made()
    ensures { (index : ℕ) (ds : List DictId) (t : StringId) (under : List Item) (post name : List ℕ) (value : Piece) (k : Code) (s : StoreState) (o : List PsObj) (at : ℕ) → length under + 100 ≤ 1000 → IsMaking s (in_table index ∷ ds) → s.closed.dicts ≤ index → length (entries_of s (in_table index)) < 1000000 → Fine (Lit name Stop) → left_by value ≡ 1 → Knows s (in_table index ∷ ds) value → HasRoom (suc (length o)) value → length o + 112 ≤ 100000 → s.table.units + s.command.units + (cost (Field name value End) + units (Word (codes "def") Stop) + 1) ≤ 8000000 → StandsAt s t at (render (Lit name (code value (Word (codes "def") k))) ++ post) → Defines (cost (Field name value End) + units (Word (codes "def") Stop)) (further (steps (Field name value End)) 1) name (after value Bottom) s (in_table index) ds o t at (render k ++ post) under }
{}

/// The words that a table begins with are defined without an error, in 139 steps and with at most 796 units made: behind them each of the 18 has its sense, where the printers' names have theirs before.
pub fn words_are_known()
    ensures { (index n at : ℕ) (ds : List DictId) (t : StringId) (under : List Item) (post : List ℕ) (p : Printers) (k : Code) (s : StoreState) → length under + 100 ≤ 1000 → AreNoMarks p → Knowing s index ds n (printer_senses p) → n < 900000 → s.table.units + s.command.units + 796 ≤ 8000000 → StandsAt s t at (render (words ⋯ k) ++ post) → Reaches index ds t under 139 796 (n + 18) (word_senses ++ printer_senses p) s at (render k ++ post) }
{}

/// The text of a table is executed to its end without an error, where the names of the printers have their senses and nothing else is defined on top: it takes exactly so many steps, which ask nothing of a dialect, makes at most so many units, and leaves one dictionary and nothing else on the operands: the top of a table for the placement's target. In the store that is left the words, the structs' types and the static objects have their senses, and the units, whose functions are still texts, stand in the top's array.
pub fn tables_are_left()
    ensures top { (p : Program) (at : Placement) (printers : Printers) (s : StoreState) (index n : ℕ) (ds : List DictId) (t : StringId) → Runnable p at → AreNoMarks printers → Knowing s index ds n (printer_senses printers) → n < 800000 → IsString s t (table_text p at) → s.table.units + s.command.units + table_made p at ≤ 8000000 → LeavesTop index ds t (table_steps p at) (table_made p at) at.target s 0 }
    ensures table { (p : Program) (at : Placement) (printers : Printers) (s : StoreState) (index n : ℕ) (ds : List DictId) (t : StringId) → Runnable p at → AreNoMarks printers → Knowing s index ds n (printer_senses printers) → n < 800000 → IsString s t (table_text p at) → s.table.units + s.command.units + table_made p at ≤ 8000000 → LeavesTable index ds t printers (n + 20) p at s 0 }
{}

/// So a run of the text as an executable string, with steps to spare, ends without an error at the table's top, whatever the dialect.
pub fn tables_run<D: Dialect>()
    ensures { (p : Program) (at : Placement) (printers : Printers) (s : StoreState) (index n left m : ℕ) (ds : List DictId) (t : StringId) (d d' : D) (c' : PsCore) (r : Answer) → Runnable p at → AreNoMarks printers → Knowing s index ds n (printer_senses printers) → n < 800000 → IsString s t (table_text p at) → s.table.units + s.command.units + table_made p at ≤ 8000000 → Runs D.operates (further (suc (table_steps p at)) (suc left)) d (core s (in_table index ∷ ds) [] (Object (Str t true) ∷ [])) r m d' c' → EndsAtTop index ds t (table_steps p at) (table_made p at) at.target s (suc left) d r m d' c' }
{}

/// A table takes no more steps than are counted for the items of its program, and makes no more units than are counted, beside those of its deferred texts.
pub fn tables_are_bounded()
    ensures steps { (p : Program) (at : Placement) → IsShort p at → table_steps p at ≤ (cost_of p).steps }
    ensures made { (p : Program) (at : Placement) → IsShort p at → table_made p at ≤ (cost_of p).made + deferred_units p at.functions p.units }
{}

/// The text of a table, of a program and a placement whose rows keep to names and words, and whose units have their own functions, points and names, is no longer than is counted for the items of the program.
pub fn tables_are_short()
    ensures { (p : Program) (at : Placement) → HasRows p at → IsParted p → length (table_text p at) ≤ (cost_of p).bytes }
{}

/// So a program whose rows are so, whose types run, and which costs not too much, keeps the conditions of runs, and its text, units and steps have room; the deferred texts are parts of the text, so together they count at most a unit for each 8 bytes and two for each of them.
pub fn counted_tables_run()
    ensures runs { (p : Program) (at : Placement) → HasRows p at → IsParted p → HasTypes p → IsWithin p → Runnable p at }
    ensures bytes { (p : Program) (at : Placement) → HasRows p at → IsParted p → IsWithin p → length (table_text p at) ≤ 16777216 }
    ensures units { (p : Program) (at : Placement) → HasRows p at → IsParted p → IsWithin p → text_units (table_text p at) + table_made p at ≤ units_of p }
    ensures texts { (p : Program) (at : Placement) → HasRows p at → IsParted p → IsWithin p → text_units (table_text p at) + deferred_units p at.functions p.units ≤ (cost_of p).bytes / 8 + 2 * (1 + length p.units) }
    ensures steps { (p : Program) (at : Placement) → HasRows p at → IsParted p → IsWithin p → table_steps p at + 2 ≤ 10000000 }
{}

/// What the prelude leaves is what a table begins with: behind it the printers' names have their senses, and the dictionary on top is empty. So a run of a table's text as an executable string that is made there, with steps to spare, ends without an error at the table's top, whatever the dialect; and there is such a run.
pub fn tables_run_behind<D: Dialect>()
    ensures begins { AreNoMarks loaded_printers × Knowing loaded.store 1 prelude_dict 0 (printer_senses loaded_printers) }
    ensures runs { (p : Program) (at : Placement) (t : StringId) (s : StoreState) (left m : ℕ) (d d' : D) (c' : PsCore) (r : Answer) → Runnable p at → length (table_text p at) ≤ 16777216 → loaded.store.table.units + loaded.store.command.units + text_units (table_text p at) + table_made p at ≤ 8000000 → making_string loaded.store (table_text p at) ≡ Ok (t, s) → Runs D.operates (further (suc (table_steps p at)) (suc left)) d (record loaded { store = s; execution = Object (Str t true) ∷ [] }) r m d' c' → EndsAtTop 1 prelude_dict t (table_steps p at) (table_made p at) at.target s (suc left) d r m d' c' }
    ensures there { (p : Program) (at : Placement) (t : StringId) (s : StoreState) (left : ℕ) (d : D) → Runnable p at → length (table_text p at) ≤ 16777216 → loaded.store.table.units + loaded.store.command.units + text_units (table_text p at) + table_made p at ≤ 8000000 → making_string loaded.store (table_text p at) ≡ Ok (t, s) → RunsToTop D.operates 1 prelude_dict t (table_steps p at) (table_made p at) at.target s (suc left) d (record loaded { store = s; execution = Object (Str t true) ∷ [] }) }
{}

/// What a table asks of types holds of those that keep the typing rules: of each written type, and of the structs and static objects of an accepted program.
pub fn accepted_types_run()
    ensures types { (defs : List StructDef) (t : CType) → IsFormed defs t → RunsType defs t }
    ensures structs { (p : Program) → KeepsRules p → AllByRecursion (RunsRow p.defs) p.defs }
    ensures objects { (p : Program) → KeepsRules p → AllByRecursion (λ o. RunsType p.defs o.ctype) p.objects }
{}
