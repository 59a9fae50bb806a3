// What holds of the tokens of programs.
ghost use Rattle.std.specs.Prelude.{◌≤◌, ℕ, List, length, Ok};
ghost use Rattle.std.specs.List.{AllByRecursion};
ghost use Rattle.c_lex.specs.declared.token.Token.{Token};
ghost use Rattle.c_symbol.specs.declared.terminal.Terminal.{Terminal};
ghost use Rattle.c_symbol.specs.Terminals.{terminals};
ghost use Rattle.c_trees.specs.declared.unit.External.{External};
ghost use Rattle.c_tree.specs.declared.rows.Program.{Program};
ghost use Rattle.c_check.specs.Faulty.{Checks};
ghost use Rattle.slot_formed.specs.Tokens.{program_tokens};
ghost use Rattle.c_tokens.specs.Identifiers.{IsOfText, HasIdentifiers};
ghost use Rattle.c_tokens.specs.Units.{AreSpelled, terminals_in};

/// The fewest tokens with which a checked program is written are at most the terminals of its files, and these at most their tokens.
pub fn programs_have_few_tokens()
    ensures fewest { (names : List (List ℕ)) (us : List (List External)) (tss : List (List Terminal)) (p : Program) → AreSpelled us tss → Checks names us (Ok p) → program_tokens p ≤ terminals_in tss }
    ensures joined { (text : List ℕ) (ts : List Token) → length (terminals text ts) ≤ length ts }
{}

/// The names in a checked program are identifiers of at most 63 bytes, where its files are those of texts.
pub fn names_are_identifiers()
    ensures { (names : List (List ℕ)) (us : List (List External)) (p : Program) → AllByRecursion IsOfText us → Checks names us (Ok p) → HasIdentifiers p }
{}
