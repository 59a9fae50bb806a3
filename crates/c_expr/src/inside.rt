// Expressions inside something else.
ghost use Rattle.std.specs.Prelude.{◌≡◌, true};
ghost use Rattle.c_expr.specs.Inside.{comma_closes, closes, takes_comma, behind, has_ended, offered, offered_ended, offer, Offers, EndsThere, EndsBehind};
ghost use Rattle.c_expr.specs.Frames.{reduce};
ghost use Rattle.c_expr.specs.Machine.{Gives, ended, having};

use crate::frame::{Frame, Least, at_start, need, reduce};
use crate::grown::Grown;
use crate::have::{closed, joined};
use crate::machine::shift;
use crate::read::ended;
use crate::stack::Stack;
use crate::state::{Mode, Parser, SynFault};
use c_lex::Place;
use c_symbol::{BinaryOp, Symbol, Terminal};
use std::alloc::Global;

/// The expression goes on, or it has ended before the token that was offered.
#[derive(Drop)]
pub enum Offered {
    Goes(Parser),
    Ends(Grown),
}

/// Whether a comma may stand behind an expression of this level.
fn comma_closes(least: Least) -> bool
    ensures { result ≡ comma_closes least }
{
    match least {
        Least::Expression => false,
        Least::Assignment => true,
        Least::Constant => true,
    }
}

/// Whether a token may stand behind an expression of this level.
fn closes(least: Least, symbol: Symbol) -> bool
    ensures { result ≡ closes least symbol }
{
    match symbol {
        Symbol::Colon
        | Symbol::CloseParen
        | Symbol::CloseBracket
        | Symbol::CloseBrace
        | Symbol::Semicolon => true,
        Symbol::Binary(BinaryOp::Comma) => comma_closes(least),
        _ => false,
    }
}

/// Whether a comma is an operator or divides arguments here.
fn takes_comma(stack: &Stack<Frame>, symbol: Symbol) -> bool
    ensures { result ≡ takes_comma stack.now symbol }
{
    match symbol {
        Symbol::Binary(_) => need(stack) <= 1,
        _ => false,
    }
}

/// A token behind an expression of which all is ended.
fn behind(
    alloc: Global,
    stack: Stack<Frame>,
    g: Grown,
    symbol: Symbol,
    place: Place,
) -> Result<Parser, SynFault>
    ensures { Gives result (behind symbol (g, stack)) }
{
    match symbol {
        Symbol::Binary(op) => joined(stack, g, op, place),
        _ => closed(alloc, stack, g, symbol, place),
    }
}

/// Whether the expression has ended before a token.
fn has_ended(stack: &Stack<Frame>, symbol: Symbol) -> bool
    ensures { result ≡ has_ended stack.now symbol }
{
    at_start(stack) && !takes_comma(stack, symbol)
}

/// A token that may stand behind an expression, behind one of which all is ended.
fn offer_ended(
    alloc: Global,
    stack: Stack<Frame>,
    g: Grown,
    least: Least,
    symbol: Symbol,
    place: Place,
) -> Result<Offered, SynFault>
    ensures { Offers result (offered_ended least symbol (g, stack)) }
{
    if has_ended(&stack, symbol) {
        return match ended(&stack, g, least) {
            Some(g) => Ok(Offered::Ends(g)),
            None => Err(SynFault::Syntax(place)),
        };
    }
    Ok(Offered::Goes(behind(alloc, stack, g, symbol, place)?))
}

/// A token that may stand behind an expression, behind one.
fn offer_closer(
    alloc: Global,
    stack: Stack<Frame>,
    g: Grown,
    least: Least,
    symbol: Symbol,
    place: Place,
) -> Result<Offered, SynFault>
    requires { closes least symbol ≡ true }
    ensures { Offers result (offered true (ended least (reduce 1 g stack)) (having stack g symbol)) }
{
    let mut stack = stack;
    let g = reduce(alloc, 1, g, &mut stack)?;
    offer_ended(alloc, stack, g, least, symbol, place)
}

/// One token more of an expression of this level, or its end before a token that may stand behind it. Syntax comes where neither can be.
pub fn offer(
    alloc: Global,
    parser: Parser,
    least: Least,
    next: Terminal,
) -> Result<Offered, SynFault>
    ensures { Offers result (offer least parser next) }
{
    let Parser { stack, mode } = parser;
    match mode {
        Mode::Have(g) => {
            if closes(least, next.symbol) {
                return offer_closer(alloc, stack, g, least, next.symbol, next.place);
            }
            let parser = Parser {
                stack,
                mode: Mode::Have(g),
            };
            Ok(Offered::Goes(shift(alloc, parser, next)?))
        }
        mode => Ok(Offered::Goes(shift(alloc, Parser { stack, mode }, next)?)),
    }
}

/// Expressions inside something else are read to their ends.
pub fn read_inside()
    ensures there { EndsThere }
    ensures behind { EndsBehind }
{}
