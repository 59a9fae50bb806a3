//! What holds of the units of a program's table.

ghost use Rattle.std.specs.Prelude.{◌≡◌, ℕ, suc, ◌+◌, ◌≤◌, length, reverse, slice_get, Some, Ok, List};
ghost use Rattle.obj_file.specs.declared.object.FunctionRow.{FunctionRow};
ghost use Rattle.c_tree.specs.declared.rows.Program.{Program};
ghost use Rattle.c_tree.specs.declared.rows.UnitRow.{UnitRow};
ghost use Rattle.ps_store.specs.declared.object.PsObj.{PsObj};
ghost use Rattle.ps_store.specs.declared.object.PsObj.TheVariants.{Dict};
ghost use Rattle.ps_store.specs.declared.object.StringId.{StringId};
ghost use Rattle.ps_store.specs.StoreState.{StoreState};
ghost use Rattle.ps_store.specs.Store.{text_units};
ghost use Rattle.ps_step.specs.declared.machine.PsCore.{PsCore};
ghost use Rattle.ps_run.specs.Runs.{Answer};
ghost use Rattle.ps_terms.specs.Printing.{further};
ghost use Rattle.ps_print.specs.Loaded.{loaded};
ghost use Rattle.ps_force.specs.Forcing.{apart};
ghost use Rattle.ps_emit.specs.declared.placement.Placement.{Placement};
ghost use Rattle.ps_emit.specs.Table.{table_text};
ghost use Rattle.table_model.specs.Rows.{units_of};
ghost use Rattle.dialect_model.specs.Forcing.{ForcesUnit};
ghost use Rattle.table_run.specs.Tables.{IsTableOf};
ghost use Rattle.ps_tables.specs.Defined.{in_table};
ghost use Rattle.ps_tables.specs.Runnable.{Runnable};
ghost use Rattle.ps_tables.specs.Tabled.{table_made, table_steps};
ghost use Rattle.ps_tables.specs.Left.{IsDeferred};
ghost use Rattle.unit_tables.specs.Conditions.{RunsUnits, FunctionsFollowed};
ghost use Rattle.unit_tables.specs.Functions.{unit_steps, unit_made};
ghost use Rattle.unit_tables.specs.Units.{Furnished};
ghost use Rattle.unit_ends.specs.Ends.{HasUnits, Comes};

/// The table to which a text comes, of a program and a placement that keep the conditions of runs, has the program's units in their order, whose functions are still texts, in a store that is such as these are run with.
pub fn units_come()
    ensures { (p : Program) (at : Placement) (s : StoreState) → Runnable p at → length (table_text p at) ≤ 16777216 → loaded.store.table.units + loaded.store.command.units + text_units (table_text p at) + table_made p at ≤ 8000000 → table_steps p at + 2 ≤ 10000000 → IsTableOf (table_text p at) at.target (Ok s) → HasUnits p at s }
{}

/// The functions of a unit that are still its text, in a store that is such as they are run with, come to an array of them where they are first used, with steps to spare and where memory suffices: never to an error, nor to the end of the steps.
pub fn units_are_forced()
    ensures { (p : Program) (fs : List FunctionRow) (u : UnitRow) (c c' : PsCore) (k index left left' : ℕ) (t : StringId) (units : List PsObj) (answer : Answer) → RunsUnits p fs → FunctionsFollowed p fs 0 u.functions → length u.functions ≤ 40000 → Furnished p (apart c).store (reverse c.store.base) → IsDeferred p fs u c.store index t → units_of c.store ≡ Ok units → slice_get units k ≡ Some (Dict (in_table index)) → c.store.table.units + c.store.command.units + unit_made p fs u ≤ 8000000 → ForcesUnit k c (further (suc (unit_steps p fs u)) (suc left)) answer left' c' → Comes p fs u c index (suc left) answer left' c' }
{}
