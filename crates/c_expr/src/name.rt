// Tokens in a type's name.
ghost use Rattle.std.specs.Prelude.{◌≡◌, ◌+◌, ◌∷◌, IfOk, drop};
ghost use Rattle.c_expr.specs.Machine.{Gives, goes, part_of, is_empty, starred, nested, worded, unnested, closed_type, closed_name, typing};
ghost use Rattle.c_expr.specs.Frames.{sizeof_place, unsigned_part, name_closer_of};
ghost use Rattle.c_expr.specs.First.{first};
ghost use Rattle.c_expr.specs.declared.state.Mode.TheVariants.{Want};
ghost use Rattle.c_expr.specs.declared.frame.Frame.TheVariants.{Bound};

use crate::Spec;
use crate::declarator::{BuiltAbstract, around_of, sizeof_type_of, stars_of};
use crate::frame::{Frame, NameCloser, name_closer_of, need, sizeof_place, unsigned_part};
use crate::stack::Stack;
use crate::state::{Mode, Parser, Part, SynFault};
use c_lex::Place;
use c_symbol::{BinaryOp, Symbol, TypeWord};
use std::alloc::{AllocError, Global};

/// One more, where memory could hold as many.
fn one_more(stars: u64) -> Result<u64, AllocError>
    ensures { IfOk result (λ n. n ≡ stars + 1) }
{
    if stars == u64::MAX {
        return Err(AllocError);
    }
    Ok(stars + 1)
}

/// The declarator that was read.
fn part_of(alloc: Global, part: Part) -> Option<BuiltAbstract>
    ensures { result ≡ part_of part }
{
    match part {
        Part::Front(stars) => stars_of(alloc, stars),
        Part::Back(d) => d,
    }
}

/// A `*`.
fn starring(stack: Stack<Frame>, part: Part, place: Place) -> Result<Parser, SynFault>
    ensures { Gives result (starred part stack) }
{
    match part {
        Part::Front(stars) => Ok(Parser {
            stack,
            mode: Mode::Typing(Part::Front(one_more(stars)?)),
        }),
        Part::Back(_d) => Err(SynFault::Syntax(place)),
    }
}

/// The `(` of a declarator in parentheses.
fn nesting(stack: Stack<Frame>, part: Part, place: Place) -> Result<Parser, SynFault>
    ensures { Gives result (nested part stack) }
{
    let mut stack = stack;
    match part {
        Part::Front(stars) => {
            stack.push(Frame::Nest(stars))?;
            Ok(Parser {
                stack,
                mode: Mode::Typing(Part::Front(0)),
            })
        }
        Part::Back(_d) => Err(SynFault::Syntax(place)),
    }
}

/// Whether nothing of a declarator was read.
fn is_empty(part: &Part) -> bool
    ensures { result ≡ is_empty part.now }
{
    match part {
        Part::Front(stars) => *stars == 0,
        Part::Back(_d) => false,
    }
}

/// `int` right behind `unsigned`.
fn wording(stack: Stack<Frame>, part: Part, place: Place) -> Result<Parser, SynFault>
    ensures { Gives result (worded part (unsigned_part (first stack)) (drop 1 stack)) }
{
    let mut stack = stack;
    if !is_empty(&part) {
        return Err(SynFault::Syntax(place));
    }
    match unsigned_part(stack.pop()) {
        Some(begun) => {
            stack.push(Frame::Typed(begun, Spec::UnsignedInt))?;
            Ok(Parser {
                stack,
                mode: Mode::Typing(Part::Front(0)),
            })
        }
        None => Err(SynFault::Syntax(place)),
    }
}

/// The `)` of a declarator in parentheses, before which there are so many `*`.
fn unnesting(
    alloc: Global,
    stack: Stack<Frame>,
    stars: u64,
    part: Part,
    place: Place,
) -> Result<Parser, SynFault>
    ensures { Gives result (unnested stars part stack) }
{
    if is_empty(&part) {
        return Err(SynFault::Syntax(place));
    }
    let inner = part_of(alloc, part);
    Ok(Parser {
        stack,
        mode: Mode::Typing(Part::Back(around_of(alloc, stars, inner)?)),
    })
}

/// The `)` of a type's name: the end of a `sizeof`, or a cast.
fn naming_type(
    alloc: Global,
    stack: Stack<Frame>,
    begun: Place,
    spec: Spec,
    d: Option<BuiltAbstract>,
    place: Place,
) -> Result<Parser, SynFault>
    ensures { Gives result (closed_type (sizeof_place stack) begun spec d stack) }
{
    let mut stack = stack;
    if let Some(operator) = sizeof_place(&stack) {
        stack.pop();
        return Ok(Parser {
            stack,
            mode: Mode::Have(sizeof_type_of(alloc, operator, spec, d)?),
        });
    }
    if need(&stack) <= 14 {
        stack.push(Frame::Cast(begun, spec, d))?;
        return Ok(Parser {
            stack,
            mode: Mode::Want,
        });
    }
    Err(SynFault::Syntax(place))
}

/// A `)` behind a declarator.
fn closing_name(
    alloc: Global,
    stack: Stack<Frame>,
    part: Part,
    place: Place,
) -> Result<Parser, SynFault>
    ensures { Gives result (closed_name (name_closer_of (first stack)) part (drop 1 stack)) }
{
    let mut stack = stack;
    match name_closer_of(stack.pop()) {
        NameCloser::Names(begun, spec) => {
            let d = part_of(alloc, part);
            naming_type(alloc, stack, begun, spec, d, place)
        }
        NameCloser::Nests(stars) => unnesting(alloc, stack, stars, part, place),
        NameCloser::NoName => Err(SynFault::Syntax(place)),
    }
}

/// A `[` behind a declarator.
fn bounding(alloc: Global, stack: Stack<Frame>, part: Part) -> Result<Parser, SynFault>
    ensures { Gives result (goes Want (Bound (part_of part) ∷ stack)) }
{
    let mut stack = stack;
    stack.push(Frame::Bound(part_of(alloc, part)))?;
    Ok(Parser {
        stack,
        mode: Mode::Want,
    })
}

/// A token in a type's name.
pub fn typing(
    alloc: Global,
    stack: Stack<Frame>,
    part: Part,
    symbol: Symbol,
    place: Place,
) -> Result<Parser, SynFault>
    ensures { Gives result (typing stack part symbol) }
{
    match symbol {
        Symbol::Binary(BinaryOp::Multiply) => starring(stack, part, place),
        Symbol::Word(TypeWord::Int) => wording(stack, part, place),
        Symbol::OpenParen => nesting(stack, part, place),
        Symbol::OpenBracket => bounding(alloc, stack, part),
        Symbol::CloseParen => closing_name(alloc, stack, part, place),
        _ => Err(SynFault::Syntax(place)),
    }
}
