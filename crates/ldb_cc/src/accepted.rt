// The programs that sources are, and what slot code asks of them.
ghost use Rattle.std.specs.Prelude.{◌≡◌, ◌≤◌, ℕ, List, length};
ghost use Rattle.c_tree.specs.declared.rows.Program.{Program};
ghost use Rattle.c_typing.specs.Programs.{KeepsRules};
ghost use Rattle.slot_formed.specs.Tokens.{program_tokens};
ghost use Rattle.ldb_cc.specs.Sources.{IsProgram};

use c_accepted::{checked_programs_are_accepted, files_are_texts};
use c_lex::one_reading;
use c_tokens::programs_have_few_tokens;

/// The checked program of sources keeps the rules of checked trees, and is written with at most 40,000 tokens.
pub fn programs_of_sources()
    ensures rules { (names texts : List (List ℕ)) (p : Program) → length names ≡ length texts → IsProgram names texts p → KeepsRules p }
    ensures few { (names texts : List (List ℕ)) (p : Program) → IsProgram names texts p → program_tokens p ≤ 40000 }
{
    checked_programs_are_accepted();
    files_are_texts();
    programs_have_few_tokens();
    one_reading();
}
