// What holds of the tables of compiled programs.

ghost use Rattle.std.specs.Prelude.{◌≡◌, ◌≤◌, ℕ, List, length};
ghost use Rattle.c_symbol.specs.declared.terminal.Terminal.{Terminal};
ghost use Rattle.c_trees.specs.declared.unit.External.{External};
ghost use Rattle.c_tree.specs.declared.rows.Program.{Program};
ghost use Rattle.c_check.specs.Faulty.{Checks};
ghost use Rattle.c_tokens.specs.Units.{AreSpelled, terminals_in};
ghost use Rattle.obj_file.specs.Image.{ImageFields};
ghost use Rattle.table_ends.specs.Joined.{MakesTable};
ghost use Rattle.ldb_cc.specs.declared.aim.Aim.{Aim};
ghost use Rattle.ldb_cc.specs.Built.{IsBuilt};
ghost use Rattle.ldb_cc.specs.Table.{placement_of};
ghost use Rattle.compiled_tables.specs.Conditions.{AreFileNames, IsAffordable, HasRunningUnits};

use c_accepted::{checked_programs_are_accepted, files_are_texts};
use c_lex::one_reading;
use c_tokens::{names_are_identifiers, programs_have_few_tokens};
use obj_placed::placed_word_by_word;
use ps_tables::{accepted_types_run, counted_tables_run};
use table_ends::counted_tables_come;
use unit_tables::units_are_bounded;

/// What is counted for the items of a checked program of at most 16 files and 40,000 tokens is within the limits of a table, with what the prelude takes, and with the steps of the printers in one `print`.
pub fn programs_are_affordable()
    ensures { (names : List (List ℕ)) (us : List (List External)) (tss : List (List Terminal)) (p : Program) → AreSpelled us tss → Checks names us (Ok p) → length names ≤ 16 → terminals_in tss ≤ 40000 → IsAffordable p }
{}

/// The table that is built of sources comes to a table for the image's target, behind the prelude and where there is no target, and to no fault but want of memory, and the claims on whole sessions have it: where there are at most 16 files, with names of at most 255 bytes.
pub fn compiled_tables_come()
    ensures { (aim : Aim) (names texts : List (List ℕ)) (image : ImageFields) (table : List ℕ) (built : IsBuilt aim names texts image table) → length names ≡ length texts → length names ≤ 16 → AreFileNames names → MakesTable table image.target }
{
    checked_programs_are_accepted();
    files_are_texts();
    programs_have_few_tokens();
    programs_are_affordable();
    names_are_identifiers();
    one_reading();
    placed_word_by_word();
    accepted_types_run();
    counted_tables_come();
}

/// The rows of the program that sources become, and of where it is placed, keep the conditions under which the functions of its units are run: types of symbols run, names lead outward to lower numbers, and scopes nest, so that a name in scope at a point that stands before one that was made is on that one's chain. With each unit used once the table is within the limits, with what the prelude takes, and with the steps of the printers in one `print`.
pub fn compiled_units_run()
    ensures { (aim : Aim) (names texts : List (List ℕ)) (image : ImageFields) (table : List ℕ) (built : IsBuilt aim names texts image table) → length names ≡ length texts → length names ≤ 16 → AreFileNames names → HasRunningUnits built.program (placement_of aim built.rows) }
{
    checked_programs_are_accepted();
    files_are_texts();
    programs_have_few_tokens();
    programs_are_affordable();
    names_are_identifiers();
    one_reading();
    placed_word_by_word();
    accepted_types_run();
    counted_tables_run();
    units_are_bounded();
}
