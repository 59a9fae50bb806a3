// Reading a declared name with its initializer.
ghost use Rattle.std.specs.Prelude.{◌≡◌};
ghost use Rattle.c_declaration.specs.Feeding.{Answers};
ghost use Rattle.c_declaration.specs.NameReading.{is_equals, goes, behind_declarator, declarator_offered, initial_offered, name_offer, name_start};

use crate::built::Built;
use crate::declarator::declarator_offer;
use crate::initial::initial_offer;
use crate::state::{DeclaratorParser, InitialParser, NameParser, NameStep, ReadName};
use crate::step::Step;
use c_expr::{Boxed, SynFault};
use c_symbol::{AssignOp, BinaryOp, Symbol, Terminal};
use c_trees::declaration::Declarator;
use std::alloc::Global;

/// Whether a token is a `=`.
fn is_equals(symbol: Symbol) -> bool
    ensures { result ≡ is_equals symbol }
{
    match symbol {
        Symbol::Binary(BinaryOp::Assign(AssignOp::Plain)) => true,
        _ => false,
    }
}

/// The token behind a declarator.
fn behind_declarator(
    alloc: Global,
    symbol: Symbol,
    d: Option<Built<Boxed<Declarator>>>,
) -> Result<NameStep, SynFault>
    ensures { Answers result (behind_declarator symbol d) }
{
    if is_equals(symbol) {
        return Ok(Step::Goes(NameParser::Initial(d, InitialParser::new(alloc))));
    }
    Ok(Step::Ends(ReadName::Bare(d)))
}

/// One token more of a declarator with or without an initializer, or its end before a token that cannot be part of it.
pub fn name_offer(alloc: Global, parser: NameParser, next: Terminal) -> Result<NameStep, SynFault>
    ensures { Answers result (name_offer parser next) }
{
    let symbol = next.symbol;
    match parser {
        NameParser::Declarator(parser) => match declarator_offer(alloc, parser, next) {
            Ok(Step::Goes(parser)) => Ok(Step::Goes(NameParser::Declarator(parser))),
            Ok(Step::Ends(d)) => behind_declarator(alloc, symbol, d),
            Err(fault) => Err(fault),
        },
        NameParser::Initial(d, parser) => match initial_offer(alloc, parser, next) {
            Ok(Step::Goes(parser)) => Ok(Step::Goes(NameParser::Initial(d, parser))),
            Ok(Step::Ends(initial)) => Ok(Step::Ends(ReadName::With(d, initial))),
            Err(fault) => {
                drop(d);
                Err(fault)
            }
        },
    }
}

impl NameParser {
    /// Nothing was read of a declared name.
    pub fn new(alloc: Global) -> NameParser
        ensures { result ≡ name_start }
    {
        NameParser::Declarator(DeclaratorParser::new(alloc))
    }
}
