// Tokens behind an expression.
ghost use Rattle.std.specs.Prelude.{◌≡◌, drop};
ghost use Rattle.c_expr.specs.Machine.{Gives, argued, argument, joined, joining, chosen, choosing, chosen_first, in_parens, in_brackets, closed, closing, having};
ghost use Rattle.c_expr.specs.Frames.{then_part, call_part, closer_of, square_of};
ghost use Rattle.c_expr.specs.First.{first};
ghost use Rattle.c_symbol.specs.declared.symbol.Symbol.TheVariants.{OpenBracket, OpenParen, Access as Selects, Step as Steps};

use crate::call::{call_of, called_of, with_of};
use crate::declarator::bounded_of;
use crate::frame::{
    Closer, Frame, Square, call_part, closer_of, need, reduce, square_of, then_part,
};
use crate::grown::{Grown, after_of, index_of, paren_of};
use crate::levels::{ends_of, left_of, level_of};
use crate::stack::Stack;
use crate::state::{Mode, Parser, Part, SynFault};
use c_lex::Place;
use c_symbol::{Access, BinaryOp, Step, Symbol};
use std::alloc::Global;

/// A comma behind an argument.
fn argument(stack: Stack<Frame>, a: Grown, op: BinaryOp, place: Place) -> Result<Parser, SynFault>
    ensures { Gives result (argument op a stack) }
{
    let mut stack = stack;
    match op {
        BinaryOp::Comma => match call_part(stack.pop()) {
            Some(call) => {
                stack.push(Frame::Call(with_of(call, a)?))?;
                Ok(Parser {
                    stack,
                    mode: Mode::Want,
                })
            }
            None => Err(SynFault::Syntax(place)),
        },
        _ => Err(SynFault::Syntax(place)),
    }
}

/// A binary operator behind an expression of which all that binds more tightly is ended.
pub fn joined(stack: Stack<Frame>, a: Grown, op: BinaryOp, place: Place) -> Result<Parser, SynFault>
    ensures { Gives result (joined op (a, stack)) }
{
    let mut stack = stack;
    if left_of(op) <= a.level && need(&stack) <= level_of(op) {
        stack.push(Frame::Binary(op, a))?;
        return Ok(Parser {
            stack,
            mode: Mode::Want,
        });
    }
    argument(stack, a, op, place)
}

/// A binary operator behind an expression.
fn joining(
    alloc: Global,
    stack: Stack<Frame>,
    g: Grown,
    op: BinaryOp,
    place: Place,
) -> Result<Parser, SynFault>
    ensures { Gives result (joining stack g op) }
{
    let mut stack = stack;
    let a = reduce(alloc, ends_of(op), g, &mut stack)?;
    joined(stack, a, op, place)
}

/// A `?` behind an expression.
fn choosing(alloc: Global, stack: Stack<Frame>, g: Grown, place: Place) -> Result<Parser, SynFault>
    ensures { Gives result (choosing stack g) }
{
    let mut stack = stack;
    let a = reduce(alloc, 4, g, &mut stack)?;
    if 4 <= a.level && need(&stack) <= 3 {
        stack.push(Frame::Then(a))?;
        return Ok(Parser {
            stack,
            mode: Mode::Want,
        });
    }
    Err(SynFault::Syntax(place))
}

/// The `:` of a conditional expression.
fn chosen_first(stack: Stack<Frame>, g: Grown, place: Place) -> Result<Parser, SynFault>
    ensures { Gives result (chosen_first (then_part (first stack)) g (drop 1 stack)) }
{
    let mut stack = stack;
    match then_part(stack.pop()) {
        Some(a) => {
            stack.push(Frame::Else(a, g))?;
            Ok(Parser {
                stack,
                mode: Mode::Want,
            })
        }
        None => Err(SynFault::Syntax(place)),
    }
}

/// A `)` behind an expression.
fn in_parens(alloc: Global, stack: Stack<Frame>, g: Grown, place: Place) -> Result<Parser, SynFault>
    ensures { Gives result (in_parens (closer_of (first stack)) g (drop 1 stack)) }
{
    let mut stack = stack;
    match closer_of(stack.pop()) {
        Closer::Parens(begun) => Ok(Parser {
            stack,
            mode: Mode::Have(paren_of(alloc, begun, g)?),
        }),
        Closer::Calls(call) => Ok(Parser {
            stack,
            mode: Mode::Have(called_of(alloc, with_of(call, g)?)?),
        }),
        Closer::NoParen => Err(SynFault::Syntax(place)),
    }
}

/// A `]` behind an expression.
fn in_brackets(
    alloc: Global,
    stack: Stack<Frame>,
    g: Grown,
    place: Place,
) -> Result<Parser, SynFault>
    ensures { Gives result (in_brackets (square_of (first stack)) g (drop 1 stack)) }
{
    let mut stack = stack;
    match square_of(stack.pop()) {
        Square::Indexes(a) => Ok(Parser {
            stack,
            mode: Mode::Have(index_of(alloc, a, g)?),
        }),
        Square::Bounds(d) => Ok(Parser {
            stack,
            mode: Mode::Typing(Part::Back(bounded_of(d, g.tree)?)),
        }),
        Square::NoBracket => Err(SynFault::Syntax(place)),
    }
}

/// A token that ends an expression, behind one of which all is ended.
pub fn closed(
    alloc: Global,
    stack: Stack<Frame>,
    g: Grown,
    symbol: Symbol,
    place: Place,
) -> Result<Parser, SynFault>
    ensures { Gives result (closed symbol (g, stack)) }
{
    match symbol {
        Symbol::Colon => chosen_first(stack, g, place),
        Symbol::CloseParen => in_parens(alloc, stack, g, place),
        Symbol::CloseBracket => in_brackets(alloc, stack, g, place),
        _ => Err(SynFault::Syntax(place)),
    }
}

/// A token that ends an expression.
fn closing(
    alloc: Global,
    stack: Stack<Frame>,
    g: Grown,
    symbol: Symbol,
    place: Place,
) -> Result<Parser, SynFault>
    ensures { Gives result (closing stack g symbol) }
{
    let mut stack = stack;
    let g = reduce(alloc, 1, g, &mut stack)?;
    closed(alloc, stack, g, symbol, place)
}

/// A `[` behind an expression.
fn indexing(stack: Stack<Frame>, g: Grown, place: Place) -> Result<Parser, SynFault>
    ensures { Gives result (having stack g OpenBracket) }
{
    let mut stack = stack;
    if g.level < 16 {
        return Err(SynFault::Syntax(place));
    }
    stack.push(Frame::Index(g))?;
    Ok(Parser {
        stack,
        mode: Mode::Want,
    })
}

/// A `(` behind an expression.
fn calling(alloc: Global, stack: Stack<Frame>, g: Grown, place: Place) -> Result<Parser, SynFault>
    ensures { Gives result (having stack g OpenParen) }
{
    let mut stack = stack;
    if g.level < 16 {
        return Err(SynFault::Syntax(place));
    }
    stack.push(Frame::Begun(call_of(alloc, g)?))?;
    Ok(Parser {
        stack,
        mode: Mode::Want,
    })
}

/// A `.` or `->` behind an expression.
fn selecting(
    stack: Stack<Frame>,
    g: Grown,
    access: Access,
    place: Place,
) -> Result<Parser, SynFault>
    ensures { Gives result (having stack g (Selects access)) }
{
    if g.level < 16 {
        return Err(SynFault::Syntax(place));
    }
    Ok(Parser {
        stack,
        mode: Mode::Naming(g, access),
    })
}

/// A `++` or `--` behind an expression.
fn stepping(
    alloc: Global,
    stack: Stack<Frame>,
    g: Grown,
    step: Step,
    place: Place,
) -> Result<Parser, SynFault>
    ensures { Gives result (having stack g (Steps step)) }
{
    if g.level < 16 {
        return Err(SynFault::Syntax(place));
    }
    Ok(Parser {
        stack,
        mode: Mode::Have(after_of(alloc, g, step)?),
    })
}

/// A token behind an expression.
pub fn having(
    alloc: Global,
    stack: Stack<Frame>,
    g: Grown,
    symbol: Symbol,
    place: Place,
) -> Result<Parser, SynFault>
    ensures { Gives result (having stack g symbol) }
{
    match symbol {
        Symbol::Binary(op) => joining(alloc, stack, g, op, place),
        Symbol::Question => choosing(alloc, stack, g, place),
        Symbol::OpenBracket => indexing(stack, g, place),
        Symbol::OpenParen => calling(alloc, stack, g, place),
        Symbol::Access(access) => selecting(stack, g, access, place),
        Symbol::Step(step) => stepping(alloc, stack, g, step, place),
        _ => closing(alloc, stack, g, symbol, place),
    }
}
