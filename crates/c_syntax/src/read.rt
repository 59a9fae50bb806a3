// Reading a unit from the tokens of a text.
ghost use Rattle.std.specs.Prelude.{◌≡◌, Some, None, map};
ghost use Rattle.c_symbol.specs.Terminals.{terminal_of, terminals};
ghost use Rattle.c_syntax.specs.Machine.{Gives, Reads, start, shift_some, feed, some_read, whole};
ghost use Rattle.c_syntax.specs.Parses.{Parses, OneUnit};

use crate::machine::shift;
use crate::state::{Kept, Mode, UnitParser};
use c_expr::SynFault;
use c_lex::{Place, Token};
use c_symbol::{Joiner, Terminal, terminal_of};
use c_trees::unit::Unit;
use std::alloc::Global;

/// A terminal more, where there is one.
fn shift_some(
    alloc: Global,
    parser: UnitParser,
    next: Option<Terminal>,
) -> Result<UnitParser, SynFault>
    ensures { Gives result (shift_some next parser) }
{
    match next {
        Some(next) => shift(alloc, parser, next),
        None => Ok(parser),
    }
}

/// All tokens.
fn run(alloc: Global, text: &[u8], tokens: &[Token]) -> Result<UnitParser, SynFault>
    ensures { Gives result (feed (map (terminal_of text.now) tokens.now) None start) }
{
    let mut parser = UnitParser::new(alloc);
    let mut joiner = Joiner { last: None };
    for token in tokens {
        let next = terminal_of(alloc, text, *token)?;
        let before = joiner.push(next)?;
        parser = shift_some(alloc, parser, before)?;
    }
    shift_some(alloc, parser, joiner.last)
}

/// What was read, unless it is nothing.
fn some_read(kept: Kept, end: Place) -> Result<Kept, SynFault>
    ensures { Reads result (some_read kept) }
{
    match kept {
        Kept::All(externals) => {
            if externals.len() == 0 {
                return Err(SynFault::Syntax(end));
            }
            Ok(Kept::All(externals))
        }
        Kept::TooDeep(place) => Ok(Kept::TooDeep(place)),
    }
}

/// What was read, where it is whole.
fn whole(parser: UnitParser, end: Place) -> Result<Kept, SynFault>
    ensures { Reads result (whole (Some parser)) }
{
    let UnitParser { kept, mode } = parser;
    match mode {
        Mode::Between => some_read(kept, end),
        _other => Err(SynFault::Syntax(end)),
    }
}

/// Where the last token begins.
fn end_of(tokens: &[Token]) -> Place {
    match tokens.last() {
        Some(token) => Place {
            at: token.at,
            line: token.line,
            column: token.column,
        },
        None => Place {
            at: 0,
            line: 1,
            column: 1,
        },
    }
}

/// What the tokens are, though it may be too high.
fn read(alloc: Global, text: &[u8], tokens: &[Token]) -> Result<Kept, SynFault>
    ensures { Reads result (whole (feed (map (terminal_of text.now) tokens.now) None start)) }
{
    let parser = run(alloc, text, tokens)?;
    whole(parser, end_of(tokens))
}

/// The unit that the tokens of a text are (C90 6.7). Syntax comes where they are none, Deep where a declarator, an initializer or a function's
/// body in it is nested more than 64 deep.
pub fn parse_unit(alloc: Global, text: &[u8], tokens: &[Token]) -> Result<Unit, SynFault>
    ensures { Parses result (terminals text.now tokens.now) }
{
    match read(alloc, text, tokens) {
        Ok(kept) => match kept {
            Kept::All(externals) => Ok(Unit { externals }),
            Kept::TooDeep(place) => Err(SynFault::Deep(place)),
        },
        Err(fault) => Err(fault),
    }
}

/// Tokens are one unit at most.
pub fn one_unit()
    ensures { OneUnit }
{}
