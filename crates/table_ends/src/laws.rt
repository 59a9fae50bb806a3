//! What holds of the tables of programs.

ghost use Rattle.std.specs.Prelude.{◌≡◌, ◌≢◌, ℕ, ◌+◌, ◌≤◌, length, Result, Ok, Err};
ghost use Rattle.c_tree.specs.declared.rows.Program.{Program};
ghost use Rattle.ps_store.specs.StoreState.{StoreState};
ghost use Rattle.ps_store.specs.Store.{text_units};
ghost use Rattle.ps_print.specs.Loaded.{loaded};
ghost use Rattle.ps_emit.specs.declared.placement.Placement.{Placement};
ghost use Rattle.ps_emit.specs.Table.{table_text};
ghost use Rattle.ps_tables.specs.Runnable.{Runnable};
ghost use Rattle.ps_tables.specs.Rows.{HasRows, IsParted};
ghost use Rattle.ps_tables.specs.Within.{IsWithin, HasTypes};
ghost use Rattle.ps_tables.specs.Tabled.{table_made, table_steps};
ghost use Rattle.table_run.specs.declared.run.TableFault.{TableFault};
ghost use Rattle.table_run.specs.declared.run.TableFault.TheVariants.{NoMemory};
ghost use Rattle.table_run.specs.Tables.{IsTableOf};
ghost use Rattle.claims.specs.Tables.{RunsTable};
ghost use Rattle.table_ends.specs.Joined.{MakesTable, TablesRun};

/// The store to which a table's text comes is one that the claims on whole sessions take the text to, behind the store that the prelude
/// leaves, and so is the fault; but a table that left something in the part of commands is of another shape.
pub fn tables_are_run()
    ensures { TablesRun }
{}

/// The text of a table, of a program and a placement whose rows keep the conditions of runs, comes to a store of the shape of a table for the placement's target, unless memory runs out, and so the claims on whole sessions have it. There is such a store.
pub fn tables_come()
    ensures comes { (p : Program) (at : Placement) (result : Result StoreState TableFault) → Runnable p at → 1 ≤ at.target → at.target ≤ 2 → length (table_text p at) ≤ 16777216 → loaded.store.table.units + loaded.store.command.units + text_units (table_text p at) + table_made p at ≤ 8000000 → table_steps p at + 2 ≤ 10000000 → IsTableOf (table_text p at) at.target result → result ≢ Err NoMemory → (s : StoreState) × (result ≡ Ok s) × RunsTable loaded.store (table_text p at) at.target (Ok s) }
    ensures there { (p : Program) (at : Placement) → Runnable p at → 1 ≤ at.target → at.target ≤ 2 → length (table_text p at) ≤ 16777216 → loaded.store.table.units + loaded.store.command.units + text_units (table_text p at) + table_made p at ≤ 8000000 → table_steps p at + 2 ≤ 10000000 → (s : StoreState) × IsTableOf (table_text p at) at.target (Ok s) × RunsTable loaded.store (table_text p at) at.target (Ok s) }
{}

/// So it is of each program whose rows keep to names and words, whose units have their own functions, points and names, whose types run, and which costs not too much: placed in such rows for MIPS or SPARC, its text comes to a table, which the claims on whole sessions have, and to no fault but want of memory.
pub fn counted_tables_come()
    ensures { (p : Program) (at : Placement) → HasRows p at → IsParted p → HasTypes p → IsWithin p → 1 ≤ at.target → at.target ≤ 2 → MakesTable (table_text p at) at.target }
{}
