// Reading a declarator.
ghost use Rattle.std.specs.Prelude.{◌≡◌, IfOk, drop, if◌then◌else◌, None, ◌∷◌};
ghost use Rattle.c_expr.specs.Grammar.{spec_of};
ghost use Rattle.c_expr.specs.First.{first};
ghost use Rattle.c_declaration.specs.Feeding.{Answers};
ghost use Rattle.c_declaration.specs.declared.state.Mode.TheVariants.{Front};
ghost use Rattle.c_declaration.specs.declared.state.Frame.TheVariants.{Nest};
ghost use Rattle.c_declaration.specs.declared.state.Bounded.TheVariants.{Unnamed};
ghost use Rattle.c_declaration.specs.declared.state.Mode.TheVariants.{Bounding};
ghost use Rattle.c_declaration.specs.Grown.{stars_of, expr_of};
ghost use Rattle.c_declaration.specs.DeclaratorReading.{goes, starred, count_of, is_none, may_be_unnamed, unnamed_in, both_words, spec_is, worded_in, worded, fronting, directing, unnaming, bounded, unbounded, bound_read, bound_offered, bounding_by, is_bracket, bounding, typed, parameters, tagging, declarator_offer, declarator_start, shift_mode, called};

use crate::built::{Built, expr_of};
use crate::closing::{behind_named, behind_unnamed, called, count_of, goes};
use crate::front::Stars;
use crate::function::function_of;
use crate::grown::{array_of, name_of, open_array_of, pointed};
use crate::state::{Bounded, DeclaratorParser, DeclaratorStep, Frame, Mode, Taking};
use crate::unnamed::{bounded_of, stars_of, unbounded_of};
use c_expr::{Boxed, Grown, Least, Offered, Parser, Stack, SynFault, offer};
use c_lex::{Keyword, Place};
use c_symbol::{BinaryOp, LeafKind, Symbol, Terminal, TypeWord};
use c_trees::declaration::Declarator;
use c_trees::expression::{Abstract, Spec};
use ldb_words::Text;
use std::alloc::{AllocError, Global};

/// How a type's name of one word begins.
pub fn spec_of(word: TypeWord) -> Spec
    ensures { result ≡ spec_of word }
{
    match word {
        TypeWord::Char => Spec::Char,
        TypeWord::Int => Spec::Int,
        TypeWord::Unsigned => Spec::Unsigned,
        TypeWord::Void => Spec::Void,
    }
}

/// The type that `int` behind a type makes.
pub fn both_words(spec: Spec) -> Option<Spec>
    ensures { result ≡ both_words spec }
{
    match spec {
        Spec::Unsigned => Some(Spec::UnsignedInt),
        _other => None,
    }
}

/// One `*` more.
fn starred(stars: Option<Stars>, place: Place) -> Result<Option<Stars>, AllocError>
    ensures { IfOk result (λ s. s ≡ starred stars place) }
{
    match stars {
        Some(stars) => {
            if stars.count == u64::MAX {
                return Err(AllocError);
            }
            Ok(Some(Stars {
                place: stars.place,
                count: stars.count + 1,
            }))
        }
        None => Ok(Some(Stars { place, count: 1 })),
    }
}

/// Whether no `*` was read.
fn is_none(stars: Option<Stars>) -> bool
    ensures { result ≡ is_none stars }
{
    match stars {
        Some(_stars) => false,
        None => true,
    }
}

/// Whether a declarator without a name may stand in a frame.
fn unnamed_in(frame: &Frame) -> bool
    ensures { result ≡ unnamed_in frame.now }
{
    match frame {
        Frame::Nest(_, _, unnamed) => *unnamed,
        Frame::Parameter(_, _, register, _) => !*register,
    }
}

/// Whether a declarator without a name may stand here.
fn may_be_unnamed(stack: &Stack<Frame>) -> bool
    ensures { result ≡ may_be_unnamed (first stack.now) }
{
    match stack.top() {
        Some(frame) => unnamed_in(frame),
        None => false,
    }
}

/// Something begins inside which a declarator may stand.
fn nested(stack: Stack<Frame>, frame: Frame) -> Result<DeclaratorStep, SynFault>
    ensures { Answers result (goes (Front None) (frame ∷ stack)) }
{
    let mut stack = stack;
    match stack.push(frame) {
        Ok(()) => goes(Mode::Front(None), stack),
        Err(AllocError) => Err(SynFault::NoMemory),
    }
}

/// A parameter whose type has both words.
fn spec_is(
    spec: Option<Spec>,
    taking: Taking,
    begun: Place,
    register: bool,
    stack: Stack<Frame>,
    place: Place,
) -> Result<DeclaratorStep, SynFault>
    ensures { Answers result (spec_is spec taking begun register stack) }
{
    match spec {
        Some(spec) => nested(stack, Frame::Parameter(taking, begun, register, spec)),
        None => {
            drop(taking);
            Err(SynFault::Syntax(place))
        }
    }
}

/// `int` behind a type in a frame.
fn worded_in(frame: Frame, stack: Stack<Frame>, place: Place) -> Result<DeclaratorStep, SynFault>
    ensures { Answers result (worded_in frame stack) }
{
    match frame {
        Frame::Nest(_stars, _place, _unnamed) => Err(SynFault::Syntax(place)),
        Frame::Parameter(taking, begun, register, spec) => spec_is(
            both_words(spec),
            taking,
            begun,
            register,
            stack,
            place,
        ),
    }
}

/// `int` behind a type.
fn worded(stack: Stack<Frame>, place: Place) -> Result<DeclaratorStep, SynFault>
    ensures { Answers result (worded (first stack) (drop 1 stack)) }
{
    let mut stack = stack;
    match stack.pop() {
        Some(frame) => worded_in(frame, stack, place),
        None => Err(SynFault::Syntax(place)),
    }
}

/// A `(` behind `*`.
fn nesting(
    stack: Stack<Frame>,
    stars: Option<Stars>,
    place: Place,
) -> Result<DeclaratorStep, SynFault>
    ensures { Answers result (goes (Front None) (Nest stars place (may_be_unnamed (first stack)) ∷ stack)) }
{
    let unnamed = may_be_unnamed(&stack);
    nested(stack, Frame::Nest(stars, place, unnamed))
}

/// A `[` behind `*`.
fn bounding_stars(
    alloc: Global,
    stack: Stack<Frame>,
    stars: Option<Stars>,
    place: Place,
) -> Result<DeclaratorStep, SynFault>
    ensures { Answers result (if may_be_unnamed (first stack) then goes (Bounding (Unnamed (stars_of (count_of stars)))) stack else None) }
{
    if may_be_unnamed(&stack) {
        let a = stars_of(alloc, count_of(stars));
        return goes(Mode::Bounding(Bounded::Unnamed(a)), stack);
    }
    Err(SynFault::Syntax(place))
}

/// `int` behind `*`, of which there may be none.
fn wording(
    stack: Stack<Frame>,
    stars: Option<Stars>,
    place: Place,
) -> Result<DeclaratorStep, SynFault>
    ensures { Answers result (if is_none stars then worded (first stack) (drop 1 stack) else None) }
{
    if is_none(stars) {
        return worded(stack, place);
    }
    Err(SynFault::Syntax(place))
}

/// A token behind `*`.
fn fronting(
    alloc: Global,
    stack: Stack<Frame>,
    stars: Option<Stars>,
    symbol: Symbol,
    place: Place,
    text: Text,
) -> Result<DeclaratorStep, SynFault>
    ensures { Answers result (fronting stack stars symbol place text) }
{
    match symbol {
        Symbol::Binary(BinaryOp::Multiply) => match starred(stars, place) {
            Ok(stars) => goes(Mode::Front(stars), stack),
            Err(AllocError) => Err(SynFault::NoMemory),
        },
        Symbol::Leaf(LeafKind::Name) => match name_of(alloc, place, text) {
            Ok(d) => goes(Mode::Direct(stars, d), stack),
            Err(AllocError) => Err(SynFault::NoMemory),
        },
        Symbol::OpenParen => nesting(stack, stars, place),
        Symbol::OpenBracket => bounding_stars(alloc, stack, stars, place),
        Symbol::Word(TypeWord::Int) => wording(stack, stars, place),
        _ => {
            let a = stars_of(alloc, count_of(stars));
            behind_unnamed(alloc, symbol, is_none(stars), a, stack, place)
        }
    }
}

/// A token behind a declarator with a name.
fn directing(
    alloc: Global,
    stack: Stack<Frame>,
    stars: Option<Stars>,
    d: Option<Built<Boxed<Declarator>>>,
    symbol: Symbol,
    place: Place,
) -> Result<DeclaratorStep, SynFault>
    ensures { Answers result (directing stack stars d symbol) }
{
    match symbol {
        Symbol::OpenBracket => goes(Mode::Bounding(Bounded::Named(stars, d)), stack),
        Symbol::OpenParen => match function_of(alloc, d) {
            Ok(function) => goes(
                Mode::Parameters(Taking {
                    first: true,
                    stars,
                    function,
                }),
                stack,
            ),
            Err(AllocError) => Err(SynFault::NoMemory),
        },
        _ => match pointed(alloc, stars, d) {
            Ok(d) => behind_named(alloc, symbol, d, stack, place),
            Err(AllocError) => Err(SynFault::NoMemory),
        },
    }
}

/// A token behind a declarator without a name.
fn unnaming(
    alloc: Global,
    stack: Stack<Frame>,
    a: Option<Built<Abstract>>,
    symbol: Symbol,
    place: Place,
) -> Result<DeclaratorStep, SynFault>
    ensures { Answers result (unnaming stack a symbol) }
{
    match symbol {
        Symbol::OpenBracket => goes(Mode::Bounding(Bounded::Unnamed(a)), stack),
        _ => behind_unnamed(alloc, symbol, false, a, stack, place),
    }
}

/// The `]` behind a bound.
fn bounded(
    alloc: Global,
    before: Bounded,
    bound: Grown,
    stack: Stack<Frame>,
) -> Result<DeclaratorStep, SynFault>
    ensures { Answers result (bounded before (expr_of bound.tree) stack) }
{
    let bound = expr_of(bound.tree);
    match before {
        Bounded::Named(stars, d) => match array_of(alloc, d, bound) {
            Ok(d) => goes(Mode::Direct(stars, d), stack),
            Err(AllocError) => Err(SynFault::NoMemory),
        },
        Bounded::Unnamed(a) => match bounded_of(a, bound) {
            Ok(a) => goes(Mode::Unnamed(a), stack),
            Err(AllocError) => Err(SynFault::NoMemory),
        },
    }
}

/// A `]` without a bound.
fn unbounded(
    alloc: Global,
    before: Bounded,
    stack: Stack<Frame>,
) -> Result<DeclaratorStep, SynFault>
    ensures { Answers result (unbounded before stack) }
{
    match before {
        Bounded::Named(stars, d) => match open_array_of(alloc, d) {
            Ok(d) => goes(Mode::Direct(stars, d), stack),
            Err(AllocError) => Err(SynFault::NoMemory),
        },
        Bounded::Unnamed(a) => match unbounded_of(a) {
            Ok(a) => goes(Mode::Unnamed(a), stack),
            Err(AllocError) => Err(SynFault::NoMemory),
        },
    }
}

/// A bound that was read, and the token behind it.
fn bound_read(
    alloc: Global,
    stack: Stack<Frame>,
    before: Bounded,
    symbol: Symbol,
    bound: Grown,
    place: Place,
) -> Result<DeclaratorStep, SynFault>
    ensures { Answers result (bound_read stack before symbol bound) }
{
    match symbol {
        Symbol::CloseBracket => bounded(alloc, before, bound, stack),
        _ => {
            drop(before);
            drop(bound);
            Err(SynFault::Syntax(place))
        }
    }
}

/// A token of a bound, or behind it.
fn bounding_by(
    alloc: Global,
    stack: Stack<Frame>,
    before: Bounded,
    parser: Parser,
    next: Terminal,
) -> Result<DeclaratorStep, SynFault>
    ensures { Answers result (bounding_by stack before parser next) }
{
    let symbol = next.symbol;
    let place = next.place;
    match offer(alloc, parser, Least::Constant, next) {
        Ok(Offered::Goes(parser)) => goes(Mode::Bound(before, parser), stack),
        Ok(Offered::Ends(bound)) => bound_read(alloc, stack, before, symbol, bound, place),
        Err(fault) => {
            drop(before);
            Err(fault)
        }
    }
}

/// Whether a token is a `]`.
fn is_bracket(symbol: Symbol) -> bool
    ensures { result ≡ is_bracket symbol }
{
    match symbol {
        Symbol::CloseBracket => true,
        _ => false,
    }
}

/// The token behind a `[`.
fn bounding(
    alloc: Global,
    stack: Stack<Frame>,
    before: Bounded,
    next: Terminal,
) -> Result<DeclaratorStep, SynFault>
    ensures { Answers result (bounding stack before next) }
{
    if is_bracket(next.symbol) {
        drop(next);
        return unbounded(alloc, before, stack);
    }
    match Parser::new(alloc, Least::Constant) {
        Ok(parser) => bounding_by(alloc, stack, before, parser, next),
        Err(AllocError) => {
            drop(before);
            drop(next);
            Err(SynFault::NoMemory)
        }
    }
}

/// A parameter's type.
fn typed(
    stack: Stack<Frame>,
    taking: Taking,
    begun: Place,
    register: bool,
    symbol: Symbol,
    place: Place,
) -> Result<DeclaratorStep, SynFault>
    ensures { Answers result (typed stack taking begun register symbol) }
{
    match symbol {
        Symbol::Word(word) => nested(
            stack,
            Frame::Parameter(taking, begun, register, spec_of(word)),
        ),
        Symbol::Struct => goes(Mode::Tagging(taking, begun, register), stack),
        _ => {
            drop(taking);
            Err(SynFault::Syntax(place))
        }
    }
}

/// A `)` where a parameter may begin.
fn closing(
    alloc: Global,
    stack: Stack<Frame>,
    taking: Taking,
    place: Place,
) -> Result<DeclaratorStep, SynFault>
    ensures { Answers result (if taking.first then called taking stack else None) }
{
    if taking.first {
        return called(alloc, taking, stack);
    }
    drop(taking);
    Err(SynFault::Syntax(place))
}

/// A token where a parameter begins.
fn parameters(
    alloc: Global,
    stack: Stack<Frame>,
    taking: Taking,
    symbol: Symbol,
    place: Place,
) -> Result<DeclaratorStep, SynFault>
    ensures { Answers result (parameters stack taking symbol place) }
{
    match symbol {
        Symbol::CloseParen => closing(alloc, stack, taking, place),
        Symbol::Keyword(Keyword::Register) => goes(Mode::Registered(taking, place), stack),
        _ => typed(stack, taking, place, false, symbol, place),
    }
}

/// A token where a tag stands.
fn tagging(
    stack: Stack<Frame>,
    taking: Taking,
    begun: Place,
    register: bool,
    symbol: Symbol,
    place: Place,
    text: Text,
) -> Result<DeclaratorStep, SynFault>
    ensures { Answers result (tagging stack taking begun register symbol text) }
{
    match symbol {
        Symbol::Leaf(LeafKind::Name) => nested(
            stack,
            Frame::Parameter(taking, begun, register, Spec::Struct(text)),
        ),
        _ => {
            drop(taking);
            drop(text);
            Err(SynFault::Syntax(place))
        }
    }
}

/// One token more of a declarator, or its end before a token that cannot be part of it. Syntax comes where neither can be.
pub fn declarator_offer(
    alloc: Global,
    parser: DeclaratorParser,
    next: Terminal,
) -> Result<DeclaratorStep, SynFault>
    ensures { Answers result (declarator_offer parser next) }
{
    let DeclaratorParser { stack, mode } = parser;
    match mode {
        Mode::Front(stars) => fronting(alloc, stack, stars, next.symbol, next.place, next.text),
        Mode::Direct(stars, d) => directing(alloc, stack, stars, d, next.symbol, next.place),
        Mode::Unnamed(a) => unnaming(alloc, stack, a, next.symbol, next.place),
        Mode::Bounding(before) => bounding(alloc, stack, before, next),
        Mode::Bound(before, parser) => bounding_by(alloc, stack, before, parser, next),
        Mode::Parameters(taking) => parameters(alloc, stack, taking, next.symbol, next.place),
        Mode::Registered(taking, begun) => typed(
            stack,
            taking,
            begun,
            true,
            next.symbol,
            next.place,
        ),
        Mode::Tagging(taking, begun, register) => tagging(
            stack,
            taking,
            begun,
            register,
            next.symbol,
            next.place,
            next.text,
        ),
    }
}

impl DeclaratorParser {
    /// Nothing was read of a declarator.
    pub fn new(alloc: Global) -> DeclaratorParser
        ensures { result ≡ declarator_start }
    {
        DeclaratorParser {
            stack: Stack::new(alloc),
            mode: Mode::Front(None),
        }
    }
}
