// Tokens where an expression, a member's name or a tag begins.
ghost use Rattle.std.specs.Prelude.{◌≡◌, ◌∷◌, drop};
ghost use Rattle.c_expr.specs.Machine.{Gives, prefix_symbol_of, opened_type, opened_tag, before, called, emptied, wanting, naming, tagging, goes};
ghost use Rattle.c_expr.specs.Frames.{paren_part, begun_part, square_of};
ghost use Rattle.c_expr.specs.Grammar.{spec_of};
ghost use Rattle.c_expr.specs.First.{first};
ghost use Rattle.c_expr.specs.declared.state.Mode.TheVariants.{Want};
ghost use Rattle.c_expr.specs.declared.frame.Frame.TheVariants.{Paren};

use crate::Spec;
use crate::call::called_of;
use crate::declarator::unbounded_of;
use crate::frame::{Frame, Square, begun_part, paren_part, square_of};
use crate::grown::{Grown, leaf_of, member_of};
use crate::stack::Stack;
use crate::state::{Mode, Parser, Part, SynFault};
use c_lex::Place;
use c_symbol::{Access, BinaryOp, LeafKind, PrefixOp, Symbol, TypeWord};
use ldb_words::Text;
use std::alloc::Global;

/// The operator that a symbol is where it stands in front of an expression.
fn prefix_symbol_of(symbol: Symbol) -> Option<PrefixOp>
    ensures { result ≡ prefix_symbol_of symbol }
{
    match symbol {
        Symbol::Step(step) => Some(PrefixOp::Step(step)),
        Symbol::Binary(BinaryOp::BitAnd) => Some(PrefixOp::Address),
        Symbol::Binary(BinaryOp::Multiply) => Some(PrefixOp::Dereference),
        Symbol::Binary(BinaryOp::Add) => Some(PrefixOp::Plus),
        Symbol::Binary(BinaryOp::Subtract) => Some(PrefixOp::Minus),
        Symbol::Complement => Some(PrefixOp::Complement),
        Symbol::Not => Some(PrefixOp::Not),
        Symbol::Sizeof => Some(PrefixOp::Sizeof),
        _ => None,
    }
}

/// How a type's name of one word begins.
fn spec_of(word: TypeWord) -> Spec
    ensures { result ≡ spec_of word }
{
    match word {
        TypeWord::Char => Spec::Char,
        TypeWord::Int => Spec::Int,
        TypeWord::Unsigned => Spec::Unsigned,
        TypeWord::Void => Spec::Void,
    }
}

/// The beginning of a type's name behind `(`.
fn opening_type(stack: Stack<Frame>, spec: Spec, place: Place) -> Result<Parser, SynFault>
    ensures { Gives result (opened_type (paren_part (first stack)) spec (drop 1 stack)) }
{
    let mut stack = stack;
    match paren_part(stack.pop()) {
        Some(begun) => {
            stack.push(Frame::Typed(begun, spec))?;
            Ok(Parser {
                stack,
                mode: Mode::Typing(Part::Front(0)),
            })
        }
        None => Err(SynFault::Syntax(place)),
    }
}

/// `struct` behind `(`.
fn opening_tag(stack: Stack<Frame>, place: Place) -> Result<Parser, SynFault>
    ensures { Gives result (opened_tag (paren_part (first stack)) (drop 1 stack)) }
{
    let mut stack = stack;
    match paren_part(stack.pop()) {
        Some(begun) => Ok(Parser {
            stack,
            mode: Mode::Tagging(begun),
        }),
        None => Err(SynFault::Syntax(place)),
    }
}

/// The `)` of a call without arguments.
fn calling(alloc: Global, stack: Stack<Frame>, place: Place) -> Result<Parser, SynFault>
    ensures { Gives result (called (begun_part (first stack)) (drop 1 stack)) }
{
    let mut stack = stack;
    match begun_part(stack.pop()) {
        Some(call) => Ok(Parser {
            stack,
            mode: Mode::Have(called_of(alloc, call)?),
        }),
        None => Err(SynFault::Syntax(place)),
    }
}

/// The `]` of an array without a bound.
fn emptying(stack: Stack<Frame>, place: Place) -> Result<Parser, SynFault>
    ensures { Gives result (emptied (square_of (first stack)) (drop 1 stack)) }
{
    let mut stack = stack;
    match square_of(stack.pop()) {
        Square::Bounds(d) => Ok(Parser {
            stack,
            mode: Mode::Typing(Part::Back(unbounded_of(d)?)),
        }),
        Square::Indexes(_a) => Err(SynFault::Syntax(place)),
        Square::NoBracket => Err(SynFault::Syntax(place)),
    }
}

/// An operator in front of an expression.
fn preceding(stack: Stack<Frame>, symbol: Symbol, place: Place) -> Result<Parser, SynFault>
    ensures { Gives result (before (prefix_symbol_of symbol) place stack) }
{
    let mut stack = stack;
    match prefix_symbol_of(symbol) {
        Some(op) => {
            stack.push(Frame::Prefix(place, op))?;
            Ok(Parser {
                stack,
                mode: Mode::Want,
            })
        }
        None => Err(SynFault::Syntax(place)),
    }
}

/// A `(` in front of an expression or of a type's name.
fn begun(stack: Stack<Frame>, place: Place) -> Result<Parser, SynFault>
    ensures { Gives result (goes Want (Paren place ∷ stack)) }
{
    let mut stack = stack;
    stack.push(Frame::Paren(place))?;
    Ok(Parser {
        stack,
        mode: Mode::Want,
    })
}

/// A token where an expression begins.
pub fn wanting(
    alloc: Global,
    stack: Stack<Frame>,
    symbol: Symbol,
    place: Place,
    text: Text,
) -> Result<Parser, SynFault>
    ensures { Gives result (wanting stack symbol place text) }
{
    match symbol {
        Symbol::Leaf(kind) => Ok(Parser {
            stack,
            mode: Mode::Have(leaf_of(alloc, place, kind, text)?),
        }),
        Symbol::OpenParen => begun(stack, place),
        Symbol::Word(word) => opening_type(stack, spec_of(word), place),
        Symbol::Struct => opening_tag(stack, place),
        Symbol::CloseParen => calling(alloc, stack, place),
        Symbol::CloseBracket => emptying(stack, place),
        _ => preceding(stack, symbol, place),
    }
}

/// A token where a member's name stands.
pub fn naming(
    alloc: Global,
    stack: Stack<Frame>,
    a: Grown,
    access: Access,
    symbol: Symbol,
    place: Place,
    text: Text,
) -> Result<Parser, SynFault>
    ensures { Gives result (naming stack a access symbol place text) }
{
    match symbol {
        Symbol::Leaf(LeafKind::Name) => Ok(Parser {
            stack,
            mode: Mode::Have(member_of(alloc, a, access, place, text)?),
        }),
        _ => Err(SynFault::Syntax(place)),
    }
}

/// A token where a tag stands.
pub fn tagging(
    stack: Stack<Frame>,
    begun: Place,
    symbol: Symbol,
    place: Place,
    text: Text,
) -> Result<Parser, SynFault>
    ensures { Gives result (tagging stack begun symbol text) }
{
    let mut stack = stack;
    match symbol {
        Symbol::Leaf(LeafKind::Name) => {
            stack.push(Frame::Typed(begun, Spec::Struct(text)))?;
            Ok(Parser {
                stack,
                mode: Mode::Typing(Part::Front(0)),
            })
        }
        _ => Err(SynFault::Syntax(place)),
    }
}
