//! What holds of runs of a unit's functions.

ghost use Rattle.std.specs.Prelude.{◌≡◌, ◌≢◌, ◌⊎◌, ℕ, suc, ◌+◌, ◌<◌, ◌≤◌, ◌^◌, ◌++◌, List, length, true, slice_get, codes, reverse, Result, Err, Option, Some, ◌∷◌};
ghost use Rattle.std.specs.List.{AllByRecursion};
ghost use Rattle.obj_file.specs.declared.object.FunctionRow.{FunctionRow};
ghost use Rattle.c_tree.specs.declared.types.StructDef.{StructDef};
ghost use Rattle.c_tree.specs.declared.rows.Program.{Program};
ghost use Rattle.c_tree.specs.declared.rows.UnitRow.{UnitRow};
ghost use Rattle.c_tree.specs.declared.rows.SymbolRow.{SymbolRow};
ghost use Rattle.ps_store.specs.declared.object.PsObj.{PsObj};
ghost use Rattle.ps_store.specs.declared.object.PsObj.TheVariants.{Str};
ghost use Rattle.ps_store.specs.declared.object.DictId.{DictId};
ghost use Rattle.ps_store.specs.declared.object.StringId.{StringId};
ghost use Rattle.ps_store.specs.declared.key.Key.TheVariants.{Name as NameKey};
ghost use Rattle.ps_store.specs.StoreState.{StoreState};
ghost use Rattle.ps_step.specs.declared.fault.PsFault.{PsFault};
ghost use Rattle.ps_step.specs.declared.fault.PsFault.TheVariants.{NoMemory};
ghost use Rattle.ps_step.specs.declared.item.Item.{Item};
ghost use Rattle.ps_step.specs.declared.machine.PsCore.{PsCore};
ghost use Rattle.ps_text.specs.Code.{Code, render};
ghost use Rattle.ps_text.specs.Grown.{IsString};
ghost use Rattle.ps_terms.specs.Printing.{further};
ghost use Rattle.ps_force.specs.Forcing.{apart, Forces};
ghost use Rattle.ps_emit.specs.declared.placement.Placement.{Placement};
ghost use Rattle.ps_emit.specs.Terms.{◌⋯◌};
ghost use Rattle.ps_emit.specs.Places.{Homes};
ghost use Rattle.ps_emit.specs.Symbols.{symbol_code};
ghost use Rattle.ps_emit.specs.Functions.{deferred};
ghost use Rattle.ps_emit.specs.Bounds.{of_symbol, cost_of};
ghost use Rattle.ps_tables.specs.Later.{StandsAt};
ghost use Rattle.ps_tables.specs.Defined.{in_table};
ghost use Rattle.ps_tables.specs.Bounded.{IsShort, deferred_units};
ghost use Rattle.ps_tables.specs.Rows.{HasRows, IsParted};
ghost use Rattle.ps_tables.specs.Tabled.{table_made, table_steps};
ghost use Rattle.ps_tables.specs.Left.{IsDeferred, AreDeferred, LeavesTable};
ghost use Rattle.ps_tables.specs.WordsKnown.{Printers};
ghost use Rattle.unit_tables.specs.Running.{Running};
ghost use Rattle.unit_tables.specs.Symbols.{symbol_steps, symbol_made, ArePlaces, RunsSymbol, DefinesSymbol};
ghost use Rattle.unit_tables.specs.Conditions.{RunsPlaced, RunsUnits, FunctionsFollowed};
ghost use Rattle.unit_tables.specs.Functions.{unit_steps, unit_made};
ghost use Rattle.unit_tables.specs.Units.{closed_store, Furnished, LeavesFunctions};
ghost use Rattle.ps_store.specs.declared.object.Mark.{Mark};
ghost use Rattle.ps_tables.specs.Runnable.{RunsStruct};
ghost use Rattle.unit_tables.specs.Settled.{HasFunctions, Gives};
ghost use Rattle.unit_tables.specs.Bounded.{units_steps, units_made};

use ps_run::Dialect;

/// A symbol of a unit is made and stands under its number without an error, where those outward of it are there: it takes so many steps, makes at most so many units, and leaves the operands as they were. These are no more than what is counted for a symbol whose name has at most 63 bytes.
pub fn symbols_are_defined()
    ensures defined { (defs : List StructDef) (ss : List SymbolRow) (objects i : ℕ) (ds : List DictId) (t : StringId) (under : List Item) (post : List ℕ) (fs : List FunctionRow) (h : Homes) (n : ℕ) (row : SymbolRow) (k : Code) (entries : ℕ) (s : StoreState) (o : List PsObj) (at : ℕ) → length defs ≤ 90000 → objects ≤ 90000 → length under + 100 ≤ 1000 → Running defs ss objects s i ds entries (λ x. row.up ≡ Some x) → entries < 999999 → slice_get ss n ≡ Some row → n < 2 ^ 32 → RunsSymbol defs objects row → ArePlaces h → length o + 131 ≤ 100000 → s.table.units + s.command.units + symbol_made defs h row ≤ 8000000 → StandsAt s t at (render (symbol_code fs h n row ⋯ k) ++ post) → DefinesSymbol defs ss objects (symbol_made defs h row) (symbol_steps defs row) s i ds (entries + 1) (λ x. (x ≡ n) ⊎ (row.up ≡ Some x)) o t at (render k ++ post) under }
    ensures steps { (defs : List StructDef) (row : SymbolRow) → symbol_steps defs row ≤ (of_symbol row).steps }
    ensures made { (defs : List StructDef) (h : Homes) (row : SymbolRow) → length row.name ≤ 63 → ArePlaces h → symbol_made defs h row ≤ (of_symbol row).made }
{}

/// The deferred text of a unit is executed to its end without an error where the table's words, structs and static objects are there: it takes exactly so many steps, which ask nothing of a dialect, makes at most so many units, and leaves one array of the unit's functions and nothing else. What was there is as it was, so another unit's text may be run behind it.
pub fn units_are_run()
    ensures { (p : Program) (fs : List FunctionRow) (u : UnitRow) (s : StoreState) (ds : List DictId) (t : StringId) → RunsUnits p fs → FunctionsFollowed p fs 0 u.functions → length u.functions ≤ 40000 → Furnished p s ds → s.table.units + s.command.units + unit_made p fs u ≤ 8000000 → IsString s t (render (deferred p fs u)) → LeavesFunctions p fs u (unit_steps p fs u) (unit_made p fs u) s ds t 0 }
{}

/// So a use of a unit's functions that are still their text, with steps to spare, gives an array of them, unless memory runs out, whatever the dialect: the entry is settled by it, and all else that was there is as it was. Then another unit's functions can be run in the same way.
pub fn functions_are_forced<D: Dialect>()
    ensures { (p : Program) (fs : List FunctionRow) (u : UnitRow) (c c' : PsCore) (index left m : ℕ) (t : StringId) (d d' : D) (result : Result PsObj PsFault) → RunsUnits p fs → FunctionsFollowed p fs 0 u.functions → length u.functions ≤ 40000 → Furnished p (apart c).store (reverse c.store.base) → IsDeferred p fs u c.store index t → c.store.table.units + c.store.command.units + unit_made p fs u ≤ 8000000 → Forces D.operates (further (suc (unit_steps p fs u)) (suc left)) d c (in_table index) (NameKey (codes "functions")) (Str t true) result m d' c' → result ≢ Err NoMemory → Gives p fs u c index (suc left) d result m d' c' }
{}

/// Where the functions of a unit were given, what the run of a unit's text asks of a store holds again; and the entry of each other unit is as it was. So the units can be used in any order.
pub fn units_follow()
    ensures furnished { (p : Program) (fs : List FunctionRow) (u : UnitRow) (c c' : PsCore) (index : ℕ) (x : PsObj) (t : StringId) → HasFunctions p fs u c.store c'.store index x → IsDeferred p fs u c.store index t → Furnished p (apart c).store (reverse c.store.base) → Furnished p (apart c').store (reverse c'.store.base) }
    ensures deferred { (p : Program) (fs : List FunctionRow) (u v : UnitRow) (c c' : PsCore) (index other : ℕ) (x : PsObj) (t text : StringId) → HasFunctions p fs u c.store c'.store index x → IsDeferred p fs u c.store index t → other ≢ index → IsDeferred p fs v c.store other text → IsDeferred p fs v c'.store other text }
{}

/// The steps that the units' functions take when each unit is used once, with those of the table itself, are no more than are counted for the items of the program, and so are the units that they make, beside those of the deferred texts.
pub fn units_are_bounded()
    ensures steps { (p : Program) (at : Placement) → HasRows p at → IsParted p → IsShort p at → AllByRecursion RunsPlaced at.functions → table_steps p at + units_steps p at.functions p.units ≤ (cost_of p).steps }
    ensures made { (p : Program) (at : Placement) → HasRows p at → IsParted p → IsShort p at → AllByRecursion RunsPlaced at.functions → table_made p at + units_made p at.functions p.units ≤ (cost_of p).made + deferred_units p at.functions p.units }
{}

/// The store that a table's text leaves is such as a run of a unit's functions asks for, once it is closed, with the dictionaries that stood when it began as the base; and so are the entries of its units, in their order.
pub fn tables_are_furnished()
    ensures furnished { (p : Program) (at : Placement) (printers : Printers) (s : StoreState) (index n from : ℕ) (ds : List DictId) (t : StringId) (closed : Mark) (base : List DictId) (top : Option DictId) (l : LeavesTable index ds t printers n p at s from) → AllByRecursion (RunsStruct p.defs) p.defs → length p.defs ≤ 90000 → length ds < 63 → length s.base ≤ suc (length ds) → closed.dicts ≤ length l.leaves.store.table.dicts → length base ≤ suc (length ds) → Furnished p (closed_store l.leaves.store closed base top) (in_table index ∷ ds) }
    ensures deferred { (p : Program) (at : Placement) (printers : Printers) (s : StoreState) (index n from : ℕ) (ds : List DictId) (t : StringId) (closed : Mark) (base : List DictId) (top : Option DictId) (l : LeavesTable index ds t printers n p at s from) → AreDeferred p at.functions (closed_store l.leaves.store closed base top) l.units p.units }
{}
