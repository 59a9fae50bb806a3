// Reading an expression from the tokens of a text.
ghost use Rattle.std.specs.Prelude.{◌≡◌, ◌≤◌, ℕ, IfOk, List, Some, None, map};
ghost use Rattle.c_symbol.specs.Terminals.{terminal_of, terminals};
ghost use Rattle.c_symbol.specs.declared.terminal.Terminal.{Terminal};
ghost use Rattle.c_expr.specs.Machine.{Gives, Reads, ended, whole, start};
ghost use Rattle.c_expr.specs.Feeding.{shift_some, feed};
ghost use Rattle.c_expr.specs.declared.frame.Least.TheVariants.{Expression};
ghost use Rattle.c_trees.specs.Expressions.{Tree};
ghost use Rattle.c_expr.specs.Grammar.{Spells};
ghost use Rattle.c_expr.specs.Parses.{Parses};

use crate::Expr;
use crate::frame::{Frame, Least, at_start, least_of, reduce};
use crate::grown::Grown;
use crate::machine::shift;
use crate::stack::Stack;
use crate::state::{Mode, Parser, SynFault};
use c_lex::{Place, Token};
use c_symbol::{Joiner, Terminal, terminal_of};
use std::alloc::{AllocError, Global};

impl Parser {
    /// Nothing was read of an expression of this level.
    pub fn new(alloc: Global, least: Least) -> Result<Parser, AllocError>
        ensures { IfOk result (λ p. p ≡ start least) }
    {
        let mut stack = Stack::new(alloc);
        stack.push(Frame::Start(least))?;
        Ok(Parser {
            stack,
            mode: Mode::Want,
        })
    }
}

/// A terminal more, where there is one.
fn shift_some(alloc: Global, parser: Parser, next: Option<Terminal>) -> Result<Parser, SynFault>
    ensures { Gives result (shift_some next parser) }
{
    match next {
        Some(next) => shift(alloc, parser, next),
        None => Ok(parser),
    }
}

/// All tokens.
fn run(alloc: Global, text: &[u8], tokens: &[Token]) -> Result<Parser, SynFault>
    ensures { Gives result (feed (map (terminal_of text.now) tokens.now) None (start Expression)) }
{
    let mut parser = Parser::new(alloc, Least::Expression)?;
    let mut joiner = Joiner { last: None };
    for token in tokens {
        let next = terminal_of(alloc, text, *token)?;
        let before = joiner.push(next)?;
        parser = shift_some(alloc, parser, before)?;
    }
    shift_some(alloc, parser, joiner.last)
}

/// An expression of which all is ended, where it is whole and of this level.
pub fn ended(stack: &Stack<Frame>, g: Grown, least: Least) -> Option<Grown>
    ensures { result ≡ ended least (g, stack.now) }
{
    if at_start(stack) && least_of(least) <= g.level {
        return Some(g);
    }
    None
}

/// What was read, where it is whole and of this level.
pub fn whole(alloc: Global, parser: Parser, least: Least, end: Place) -> Result<Grown, SynFault>
    ensures { Reads result (whole least (Some parser)) }
{
    let Parser { stack, mode } = parser;
    let mut stack = stack;
    match mode {
        Mode::Have(g) => {
            let g = reduce(alloc, 1, g, &mut stack)?;
            match ended(&stack, g, least) {
                Some(g) => Ok(g),
                None => Err(SynFault::Syntax(end)),
            }
        }
        _other => Err(SynFault::Syntax(end)),
    }
}

/// Where the last token begins.
fn end_of(tokens: &[Token]) -> Place {
    match tokens.last() {
        Some(token) => Place {
            at: token.at,
            line: token.line,
            column: token.column,
        },
        None => Place {
            at: 0,
            line: 1,
            column: 1,
        },
    }
}

/// What the tokens are, though it may be too high.
fn read(alloc: Global, text: &[u8], tokens: &[Token]) -> Result<Grown, SynFault>
    ensures { Reads result (whole Expression (feed (map (terminal_of text.now) tokens.now) None (start Expression))) }
{
    let parser = run(alloc, text, tokens)?;
    whole(alloc, parser, Least::Expression, end_of(tokens))
}

/// The expression that the tokens of a text are. Syntax comes where they are none, Deep where its nesting is above 64.
pub fn parse_expr(alloc: Global, text: &[u8], tokens: &[Token]) -> Result<Expr, SynFault>
    ensures { Parses result (terminals text.now tokens.now) }
{
    match read(alloc, text, tokens) {
        Ok(g) => match g.tree {
            Some(built) => Ok(built.expr.into_inner()),
            None => Err(SynFault::Deep(g.place)),
        },
        Err(fault) => Err(fault),
    }
}

/// Tokens have one tree of at most 64 levels.
pub fn one_tree()
    ensures { (ts : List Terminal) (a b : Tree) (m n : ℕ) → m ≤ 64 → Spells ts a m → Spells ts b n → (a ≡ b) × (m ≡ n) }
{}
