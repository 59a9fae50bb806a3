// What holds of the files that texts are read to.
ghost use Rattle.std.specs.Prelude.{ℕ, List};
ghost use Rattle.std.specs.List.{AllByRecursion};
ghost use Rattle.c_lex.specs.declared.token.Place.{Place};
ghost use Rattle.c_lex.specs.declared.token.Token.{Token};
ghost use Rattle.c_lex.specs.Grammar.{Lexes};
ghost use Rattle.c_symbol.specs.Terminals.{terminals};
ghost use Rattle.c_trees.specs.declared.unit.External.{External};
ghost use Rattle.c_syntax.specs.Grammar.{IsUnit};
ghost use Rattle.c_accepted.specs.Sources.{IsText};

/// The unit that the tokens of a text are is one of a text: declarations stand before statements, the literals of an expression begin at different places, constants are words, and lists of initializers have an item.
pub fn files_are_texts()
    ensures { (at : Place) (text : List ℕ) (ts : List Token) (externals : List External) (h : ℕ) → Lexes at text ts → IsUnit externals h (terminals text ts) → AllByRecursion IsText externals }
{}
