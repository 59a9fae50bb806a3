// What ends a declarator.
ghost use Rattle.std.specs.Prelude.{◌≡◌, IfOk, Some, drop};
ghost use Rattle.c_expr.specs.First.{first};
ghost use Rattle.c_declaration.specs.Feeding.{Answers};
ghost use Rattle.c_declaration.specs.Grammar.{is_void_type};
ghost use Rattle.c_declaration.specs.DeclaratorReading.{goes, count_of, taken, called, named_closed, named_divided, behind_named, void_alone, unnamed_last, unnamed_closed, unnamed_divided, behind_unnamed};

use crate::built::Built;
use crate::front::Stars;
use crate::function::{taking_of, whole_function};
use crate::grown::{named_of, parens_of, unnamed_of};
use crate::state::{DeclaratorParser, DeclaratorStep, Frame, Mode, Taking};
use crate::step::Step;
use crate::unnamed::around_of;
use c_expr::{Boxed, Stack, SynFault};
use c_lex::Place;
use c_symbol::{BinaryOp, Symbol};
use c_trees::declaration::{Declarator, Parameter};
use c_trees::expression::{Abstract, Spec};
use std::alloc::{AllocError, Global};

/// Reading goes on.
pub fn goes(mode: Mode, stack: Stack<Frame>) -> Result<DeclaratorStep, SynFault>
    ensures { Answers result (goes mode stack) }
{
    Ok(Step::Goes(DeclaratorParser { stack, mode }))
}

/// How many `*` there are.
pub fn count_of(stars: Option<Stars>) -> u64
    ensures { result ≡ count_of stars }
{
    match stars {
        Some(stars) => stars.count,
        None => 0,
    }
}

/// A function with the parameter that was read.
fn taken(taking: Taking, parameter: Option<Built<Parameter>>) -> Result<Taking, AllocError>
    ensures { IfOk result (λ t. t ≡ taken taking parameter) }
{
    let function = taking_of(taking.function, parameter)?;
    Ok(Taking {
        first: false,
        stars: taking.stars,
        function,
    })
}

/// The `)` of parameters.
pub fn called(
    alloc: Global,
    taking: Taking,
    stack: Stack<Frame>,
) -> Result<DeclaratorStep, SynFault>
    ensures { Answers result (called taking stack) }
{
    match whole_function(alloc, taking.function) {
        Ok(d) => goes(Mode::Direct(taking.stars, d), stack),
        Err(AllocError) => Err(SynFault::NoMemory),
    }
}

/// A `)` behind a declarator with a name.
fn named_closed(
    alloc: Global,
    frame: Frame,
    d: Option<Built<Boxed<Declarator>>>,
    stack: Stack<Frame>,
) -> Result<DeclaratorStep, SynFault>
    ensures { Answers result (named_closed frame d stack) }
{
    match frame {
        Frame::Nest(stars, place, _unnamed) => match parens_of(alloc, place, d) {
            Ok(d) => goes(Mode::Direct(stars, d), stack),
            Err(AllocError) => Err(SynFault::NoMemory),
        },
        Frame::Parameter(taking, place, register, spec) => {
            match taken(taking, named_of(place, register, spec, d)) {
                Ok(taking) => called(alloc, taking, stack),
                Err(AllocError) => Err(SynFault::NoMemory),
            }
        }
    }
}

/// A comma behind one.
fn named_divided(
    frame: Frame,
    d: Option<Built<Boxed<Declarator>>>,
    stack: Stack<Frame>,
    place: Place,
) -> Result<DeclaratorStep, SynFault>
    ensures { Answers result (named_divided frame d stack) }
{
    match frame {
        Frame::Nest(_stars, _place, _unnamed) => {
            drop(d);
            Err(SynFault::Syntax(place))
        }
        Frame::Parameter(taking, begun, register, spec) => {
            match taken(taking, named_of(begun, register, spec, d)) {
                Ok(taking) => goes(Mode::Parameters(taking), stack),
                Err(AllocError) => Err(SynFault::NoMemory),
            }
        }
    }
}

/// A token behind a declarator with a name, inside something.
fn behind_named_in(
    alloc: Global,
    frame: Frame,
    symbol: Symbol,
    d: Option<Built<Boxed<Declarator>>>,
    stack: Stack<Frame>,
    place: Place,
) -> Result<DeclaratorStep, SynFault>
    ensures { Answers result (behind_named (Some frame) symbol d stack) }
{
    match symbol {
        Symbol::CloseParen => named_closed(alloc, frame, d, stack),
        Symbol::Binary(BinaryOp::Comma) => named_divided(frame, d, stack, place),
        _ => {
            drop(frame);
            drop(d);
            Err(SynFault::Syntax(place))
        }
    }
}

/// A token behind a declarator with a name that cannot go on.
pub fn behind_named(
    alloc: Global,
    symbol: Symbol,
    d: Option<Built<Boxed<Declarator>>>,
    stack: Stack<Frame>,
    place: Place,
) -> Result<DeclaratorStep, SynFault>
    ensures { Answers result (behind_named (first stack) symbol d (drop 1 stack)) }
{
    let mut stack = stack;
    match stack.pop() {
        Some(frame) => behind_named_in(alloc, frame, symbol, d, stack, place),
        None => Ok(Step::Ends(d)),
    }
}

/// Whether a type is `void`.
fn is_void_type(spec: &Spec) -> bool
    ensures { result ≡ is_void_type spec.now }
{
    match spec {
        Spec::Void => true,
        _ => false,
    }
}

/// Whether a parameter is `void` alone, which stands for none.
fn void_alone(taking: &Taking, none: bool, spec: &Spec) -> bool
    ensures { result ≡ void_alone taking.now none spec.now }
{
    taking.first && (none && is_void_type(spec))
}

/// The last parameter, unless it is `void` alone.
fn unnamed_last(
    alloc: Global,
    alone: bool,
    taking: Taking,
    parameter: Option<Built<Parameter>>,
    stack: Stack<Frame>,
) -> Result<DeclaratorStep, SynFault>
    ensures { Answers result (unnamed_last alone taking parameter stack) }
{
    if alone {
        drop(parameter);
        return called(alloc, taking, stack);
    }
    match taken(taking, parameter) {
        Ok(taking) => called(alloc, taking, stack),
        Err(AllocError) => Err(SynFault::NoMemory),
    }
}

/// A `)` behind a declarator without a name, which may be without tokens.
fn unnamed_closed(
    alloc: Global,
    frame: Frame,
    none: bool,
    a: Option<Built<Abstract>>,
    stack: Stack<Frame>,
    place: Place,
) -> Result<DeclaratorStep, SynFault>
    ensures { Answers result (unnamed_closed frame none a stack) }
{
    match frame {
        Frame::Nest(stars, _place, unnamed) => {
            if unnamed && !none {
                return match around_of(alloc, count_of(stars), a) {
                    Ok(a) => goes(Mode::Unnamed(a), stack),
                    Err(AllocError) => Err(SynFault::NoMemory),
                };
            }
            drop(a);
            Err(SynFault::Syntax(place))
        }
        Frame::Parameter(taking, begun, register, spec) => {
            if register {
                drop(taking);
                drop(spec);
                drop(a);
                return Err(SynFault::Syntax(place));
            }
            let alone = void_alone(&taking, none, &spec);
            unnamed_last(alloc, alone, taking, unnamed_of(begun, spec, a), stack)
        }
    }
}

/// A comma behind one.
fn unnamed_divided(
    frame: Frame,
    a: Option<Built<Abstract>>,
    stack: Stack<Frame>,
    place: Place,
) -> Result<DeclaratorStep, SynFault>
    ensures { Answers result (unnamed_divided frame a stack) }
{
    match frame {
        Frame::Nest(_stars, _place, _unnamed) => {
            drop(a);
            Err(SynFault::Syntax(place))
        }
        Frame::Parameter(taking, begun, register, spec) => {
            if register {
                drop(taking);
                drop(spec);
                drop(a);
                return Err(SynFault::Syntax(place));
            }
            match taken(taking, unnamed_of(begun, spec, a)) {
                Ok(taking) => goes(Mode::Parameters(taking), stack),
                Err(AllocError) => Err(SynFault::NoMemory),
            }
        }
    }
}

/// A token behind a declarator without a name, inside something.
fn behind_unnamed_in(
    alloc: Global,
    frame: Frame,
    symbol: Symbol,
    none: bool,
    a: Option<Built<Abstract>>,
    stack: Stack<Frame>,
    place: Place,
) -> Result<DeclaratorStep, SynFault>
    ensures { Answers result (behind_unnamed (Some frame) symbol none a stack) }
{
    match symbol {
        Symbol::CloseParen => unnamed_closed(alloc, frame, none, a, stack, place),
        Symbol::Binary(BinaryOp::Comma) => unnamed_divided(frame, a, stack, place),
        _ => {
            drop(frame);
            drop(a);
            Err(SynFault::Syntax(place))
        }
    }
}

/// A token behind a declarator without a name that cannot go on.
pub fn behind_unnamed(
    alloc: Global,
    symbol: Symbol,
    none: bool,
    a: Option<Built<Abstract>>,
    stack: Stack<Frame>,
    place: Place,
) -> Result<DeclaratorStep, SynFault>
    ensures { Answers result (behind_unnamed (first stack) symbol none a (drop 1 stack)) }
{
    let mut stack = stack;
    match stack.pop() {
        Some(frame) => behind_unnamed_in(alloc, frame, symbol, none, a, stack, place),
        None => {
            drop(a);
            Err(SynFault::Syntax(place))
        }
    }
}
