// What holds of the programs that the checker gives.
ghost use Rattle.std.specs.Prelude.{◌≡◌, ℕ, List, length, Ok};
ghost use Rattle.c_trees.specs.declared.unit.External.{External};
ghost use Rattle.c_tree.specs.declared.rows.Program.{Program};
ghost use Rattle.c_typing.specs.Programs.{KeepsRules};
ghost use Rattle.c_check.specs.Faulty.{Checks};
ghost use Rattle.c_accepted.specs.Sources.{AreTexts};

/// The program that the checker gives of some files keeps to the rules, where the files are those of texts.
pub fn checked_programs_are_accepted()
    ensures { (names : List (List ℕ)) (us : List (List External)) (p : Program) → Checks names us (Ok p) → length names ≡ length us → AreTexts us → KeepsRules p }
{}
