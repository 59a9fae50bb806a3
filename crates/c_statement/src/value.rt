// Expressions in statements.
ghost use Rattle.std.specs.Prelude.{◌≡◌, ◌∷◌, IfOk, Some};
ghost use Rattle.c_expr.specs.Inside.{offer};
ghost use Rattle.c_expr.specs.Machine.{start};
ghost use Rattle.c_statement.specs.Parts.{expr_part, present_part};
ghost use Rattle.c_statement.specs.Machine.{Gives, least_for, closer_of, is_closer, control_frame, with_value, with_optional, used, valued, value_begins, waits, maybe, goes};
ghost use Rattle.c_statement.specs.declared.state.Mode.TheVariants.{Begin};
ghost use Rattle.c_statement.specs.declared.state.Purpose.TheVariants.{Must, May as Maybe};
ghost use Rattle.c_expr.specs.declared.inside.Offered.TheVariants.{Ends as EndsBefore};

use crate::built::{absent_part, expr_part, paired, present_part};
use crate::parts::{
    case_head, do_of, evaluate_of, for_head, placed, return_of, switch_head, while_head,
};
use crate::state::{Closer, Control, Frame, Mode, Optional, Purpose, Reader, Required};
use c_declaration::Built;
use c_expr::{Boxed, Grown, Least, Offered, Parser, Stack, SynFault, offer};
use c_lex::Place;
use c_symbol::{Symbol, Terminal};
use c_trees::expression::Expr;
use std::alloc::{AllocError, Global};

/// What an expression that must stand must be.
fn least_for_required(purpose: &Required) -> Least
    ensures { result ≡ least_for (Must purpose.now) }
{
    match purpose {
        Required::Case(_) => Least::Constant,
        Required::Evaluate | Required::Control(_, _) | Required::Until(_) => Least::Expression,
    }
}

/// What an expression must be.
fn least_for(purpose: &Purpose) -> Least
    ensures { result ≡ least_for purpose.now }
{
    match purpose {
        Purpose::Must(purpose) => least_for_required(purpose),
        Purpose::May(_) => Least::Expression,
    }
}

/// What stands behind an expression that must stand.
fn closer_of_required(purpose: &Required) -> Closer
    ensures { result ≡ closer_of (Must purpose.now) }
{
    match purpose {
        Required::Evaluate => Closer::Semicolon,
        Required::Control(_, _) | Required::Until(_) => Closer::Paren,
        Required::Case(_) => Closer::Colon,
    }
}

/// What stands behind an expression that may stand.
fn closer_of_optional(purpose: &Optional) -> Closer
    ensures { result ≡ closer_of (Maybe purpose.now) }
{
    match purpose {
        Optional::First(_) | Optional::Second(_) | Optional::Return(_) => Closer::Semicolon,
        Optional::Third(_) => Closer::Paren,
    }
}

/// What stands behind an expression.
fn closer_of(purpose: &Purpose) -> Closer
    ensures { result ≡ closer_of purpose.now }
{
    match purpose {
        Purpose::Must(purpose) => closer_of_required(purpose),
        Purpose::May(purpose) => closer_of_optional(purpose),
    }
}

fn is_closer(closer: Closer, symbol: Symbol) -> bool
    ensures { result ≡ is_closer closer symbol }
{
    match closer {
        Closer::Semicolon => matches!(symbol, Symbol::Semicolon),
        Closer::Paren => matches!(symbol, Symbol::CloseParen),
        Closer::Colon => matches!(symbol, Symbol::Colon),
    }
}

/// The frame behind a controlling expression.
fn control_frame(
    alloc: Global,
    control: Control,
    place: Place,
    e: Option<Built<Boxed<Expr>>>,
) -> Result<Frame, AllocError>
    ensures { IfOk result (λ f. f ≡ control_frame control place e) }
{
    match control {
        Control::If => Ok(Frame::If(placed(place, e))),
        Control::While => Ok(Frame::Headed(while_head(alloc, place, e)?)),
        Control::Switch => Ok(Frame::Headed(switch_head(alloc, place, e)?)),
    }
}

/// A statement is to come behind this frame.
pub fn begin(stack: Stack<Frame>, frame: Frame) -> Result<Reader, SynFault>
    ensures { Gives result (goes Begin (frame ∷ stack)) }
{
    let mut stack = stack;
    match stack.push(frame) {
        Ok(()) => Ok(Reader {
            stack,
            mode: Mode::Begin,
        }),
        Err(AllocError) => Err(SynFault::NoMemory),
    }
}

/// What is read with an expression that must stand.
fn with_value(
    alloc: Global,
    stack: Stack<Frame>,
    purpose: Required,
    e: Option<Built<Boxed<Expr>>>,
) -> Result<Reader, SynFault>
    ensures { Gives result (with_value purpose e stack) }
{
    match purpose {
        Required::Evaluate => match evaluate_of(alloc, e) {
            Ok(part) => Ok(Reader {
                stack,
                mode: Mode::After(part),
            }),
            Err(AllocError) => Err(SynFault::NoMemory),
        },
        Required::Control(control, place) => match control_frame(alloc, control, place, e) {
            Ok(frame) => begin(stack, frame),
            Err(AllocError) => Err(SynFault::NoMemory),
        },
        Required::Until(before) => match do_of(alloc, before, e) {
            Ok(part) => Ok(Reader {
                stack,
                mode: Mode::Ends(part),
            }),
            Err(AllocError) => Err(SynFault::NoMemory),
        },
        Required::Case(place) => match case_head(alloc, place, e) {
            Ok(head) => begin(stack, Frame::Headed(head)),
            Err(AllocError) => Err(SynFault::NoMemory),
        },
    }
}

/// What is read with an expression that may stand.
fn with_optional(
    alloc: Global,
    stack: Stack<Frame>,
    purpose: Optional,
    e: Option<Built<Option<Boxed<Expr>>>>,
) -> Result<Reader, SynFault>
    ensures { Gives result (with_optional purpose e stack) }
{
    match purpose {
        Optional::First(place) => Ok(Reader {
            stack,
            mode: Mode::May(Optional::Second(placed(place, e))),
        }),
        Optional::Second(before) => Ok(Reader {
            stack,
            mode: Mode::May(Optional::Third(paired(before, e))),
        }),
        Optional::Third(before) => match for_head(alloc, before, e) {
            Ok(head) => begin(stack, Frame::Headed(head)),
            Err(AllocError) => Err(SynFault::NoMemory),
        },
        Optional::Return(place) => match return_of(alloc, place, e) {
            Ok(part) => Ok(Reader {
                stack,
                mode: Mode::After(part),
            }),
            Err(AllocError) => Err(SynFault::NoMemory),
        },
    }
}

/// What is read with an expression.
fn used(
    alloc: Global,
    stack: Stack<Frame>,
    purpose: Purpose,
    e: Option<Built<Boxed<Expr>>>,
) -> Result<Reader, SynFault>
    ensures { Gives result (used purpose e stack) }
{
    match purpose {
        Purpose::Must(purpose) => with_value(alloc, stack, purpose, e),
        Purpose::May(purpose) => with_optional(alloc, stack, purpose, present_part(e)),
    }
}

/// A token behind an expression.
fn used_before(
    alloc: Global,
    stack: Stack<Frame>,
    purpose: Purpose,
    g: Grown,
    symbol: Symbol,
    place: Place,
) -> Result<Reader, SynFault>
    ensures { Gives result (valued purpose stack symbol (Some (EndsBefore g))) }
{
    if is_closer(closer_of(&purpose), symbol) {
        return used(alloc, stack, purpose, expr_part(g.tree));
    }
    drop(purpose);
    Err(SynFault::Syntax(place))
}

/// One token more of an expression, or the token behind it.
pub fn valued(
    alloc: Global,
    stack: Stack<Frame>,
    purpose: Purpose,
    parser: Parser,
    next: Terminal,
) -> Result<Reader, SynFault>
    ensures { Gives result (valued purpose stack next.symbol (offer (least_for purpose) parser next)) }
{
    let symbol = next.symbol;
    let place = next.place;
    match offer(alloc, parser, least_for(&purpose), next) {
        Ok(Offered::Goes(parser)) => Ok(Reader {
            stack,
            mode: Mode::Value(purpose, parser),
        }),
        Ok(Offered::Ends(g)) => used_before(alloc, stack, purpose, g, symbol, place),
        Err(fault) => {
            drop(purpose);
            Err(fault)
        }
    }
}

/// The first token of an expression.
pub fn value_begins(
    alloc: Global,
    stack: Stack<Frame>,
    purpose: Purpose,
    next: Terminal,
) -> Result<Reader, SynFault>
    ensures { Gives result (value_begins purpose stack next) }
{
    match Parser::new(alloc, least_for(&purpose)) {
        Ok(parser) => valued(alloc, stack, purpose, parser, next),
        Err(_) => {
            drop(purpose);
            Err(SynFault::NoMemory)
        }
    }
}

/// An expression is to come.
pub fn waits(alloc: Global, stack: Stack<Frame>, purpose: Required) -> Result<Reader, SynFault>
    ensures { Gives result (waits purpose stack) }
{
    match Parser::new(alloc, least_for_required(&purpose)) {
        Ok(parser) => Ok(Reader {
            stack,
            mode: Mode::Value(Purpose::Must(purpose), parser),
        }),
        Err(AllocError) => {
            drop(purpose);
            Err(SynFault::NoMemory)
        }
    }
}

/// A token where an expression may stand.
pub fn maybe(
    alloc: Global,
    stack: Stack<Frame>,
    purpose: Optional,
    next: Terminal,
) -> Result<Reader, SynFault>
    ensures { Gives result (maybe purpose stack next) }
{
    if is_closer(closer_of_optional(&purpose), next.symbol) {
        return with_optional(alloc, stack, purpose, absent_part());
    }
    value_begins(alloc, stack, Purpose::May(purpose), next)
}
