// What is begun and waits for a statement.
ghost use Rattle.std.specs.Prelude.{◌≡◌, IfOk, None};
ghost use Rattle.c_statement.specs.declared.state.Outer.TheVariants.{Other};
ghost use Rattle.c_expr.specs.First.{first};
ghost use Rattle.c_statement.specs.Machine.{ends_before, top_ends, plug, settle, if_by, if_part, outer_by, outer_of};

use crate::parts::{headed_of, if_else_of, if_of};
use crate::state::{Frame, Outer};
use c_declaration::Built;
use c_expr::{Boxed, Stack};
use c_lex::Place;
use c_trees::expression::Expr;
use c_trees::statement::Statement;
use std::alloc::{AllocError, Global};

/// Whether a statement ends behind its part, before `else` or before another token.
fn ends_before(is_else: bool, frame: &Frame) -> bool
    ensures { result ≡ ends_before is_else frame.now }
{
    match frame {
        Frame::If(_) => !is_else,
        Frame::Else(_) | Frame::Headed(_) => true,
        Frame::Do(_) | Frame::Block(_) => false,
    }
}

/// Whether the statement on top ends behind its part.
fn top_ends(is_else: bool, stack: &Stack<Frame>) -> bool
    ensures { result ≡ top_ends is_else (first stack.now) }
{
    match stack.top() {
        Some(frame) => ends_before(is_else, frame),
        None => false,
    }
}

/// The statement in its frame.
fn plug(
    alloc: Global,
    frame: Frame,
    part: Option<Built<Boxed<Statement>>>,
) -> Result<Option<Built<Boxed<Statement>>>, AllocError>
    ensures { IfOk result (λ s. s ≡ plug frame part) }
{
    match frame {
        Frame::If(control) => if_of(alloc, control, part),
        Frame::Else(before) => if_else_of(alloc, before, part),
        Frame::Headed(head) => headed_of(alloc, head, part),
        Frame::Do(at) => {
            drop(at);
            Ok(part)
        }
        Frame::Block(block) => {
            drop(block);
            Ok(part)
        }
    }
}

/// Ends the statements that end behind a part.
pub fn settle(
    alloc: Global,
    is_else: bool,
    part: Option<Built<Boxed<Statement>>>,
    stack: &mut Stack<Frame>,
) -> Result<Option<Built<Boxed<Statement>>>, AllocError>
    ensures { IfOk result (λ r. settle is_else part stack.old ≡ (r, stack.new)) }
{
    let mut part = part;
    'ending: while top_ends(is_else, stack) {
        match stack.pop() {
            Some(frame) => part = plug(alloc, frame, part)?,
            None => return Ok(part),
        }
    }
    Ok(part)
}

/// No `if`: what the frame holds is let go.
fn without<T: Drop>(_part: T) -> Option<Option<Built<(Place, Boxed<Expr>)>>>
    ensures { result ≡ None }
{
    None
}

/// The `if` that a frame is.
fn if_by(frame: Frame) -> Option<Option<Built<(Place, Boxed<Expr>)>>>
    ensures { result ≡ if_by frame }
{
    match frame {
        Frame::If(control) => Some(control),
        Frame::Else(before) => without(before),
        Frame::Headed(head) => without(head),
        Frame::Do(at) => without(at),
        Frame::Block(block) => without(block),
    }
}

/// The `if` that an `else` belongs to.
pub fn if_part(frame: Option<Frame>) -> Option<Option<Built<(Place, Boxed<Expr>)>>>
    ensures { result ≡ if_part frame }
{
    match frame {
        Some(frame) => if_by(frame),
        None => None,
    }
}

/// Nothing goes on: what the frame holds is let go.
fn beside<T: Drop>(_part: T) -> Outer
    ensures { result ≡ Other }
{
    Outer::Other
}

/// What goes on behind the statement of a frame.
fn outer_by(frame: Frame) -> Outer
    ensures { result ≡ outer_by frame }
{
    match frame {
        Frame::If(control) => beside(control),
        Frame::Else(before) => beside(before),
        Frame::Headed(head) => beside(head),
        Frame::Do(at) => Outer::Do(at.place()),
        Frame::Block(block) => Outer::Block(block),
    }
}

/// What goes on behind a statement.
pub fn outer_of(frame: Option<Frame>) -> Outer
    ensures { result ≡ outer_of frame }
{
    match frame {
        Some(frame) => outer_by(frame),
        None => Outer::Other,
    }
}
