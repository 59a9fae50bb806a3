// What is begun and waits for an expression.
ghost use Rattle.std.specs.Prelude.{◌≡◌, IfOk};
ghost use Rattle.c_expr.specs.Frames.{least_of, frame_level, need_of, need, plug, reduce, sizeof_place, top_level, opener_of, awaited, unsigned_name, paren_part, then_part, begun_part, call_part, unsigned_part, closer_of, square_of, name_closer_of, is_start};
ghost use Rattle.c_expr.specs.First.{first};

use crate::Spec;
use crate::call::GrownCall;
use crate::declarator::{BuiltAbstract, cast_of};
use crate::grown::{Grown, binary_of, choice_of, prefix_of};
use crate::levels::{level_of, operand_of, right_of};
use crate::stack::Stack;
use c_lex::Place;
use c_symbol::{BinaryOp, PrefixOp};
use std::alloc::{AllocError, Global};

/// What is to be read: an expression, one that is an assignment or binds more tightly, or one that is a conditional expression or binds
/// more tightly, as constant expressions are (C90 6.3.17, 6.3.16, 6.4).
#[derive(Clone, Copy)]
pub enum Least {
    Expression,
    Assignment,
    Constant,
}

/// What stands on the left of an expression or of a declarator that is to come.
#[derive(Drop)]
pub enum Frame {
    /// Nothing
    Start(Least),
    Prefix(Place, PrefixOp),
    /// `(` and the beginning of a type's name
    Typed(Place, Spec),
    /// So many `*`, and the `(` of a declarator in parentheses
    Nest(u64),
    /// A declarator and `[`
    Bound(Option<BuiltAbstract>),
    Cast(Place, Spec, Option<BuiltAbstract>),
    Binary(BinaryOp, Grown),
    Then(Grown),
    Else(Grown, Grown),
    Paren(Place),
    Index(Grown),
    /// A call, of which only the `(` was read
    Begun(GrownCall),
    Call(GrownCall),
}

/// What a frame waits for behind what comes next.
#[derive(Drop)]
pub enum Opener {
    /// A `)`
    Parens(Place),
    /// A `:`
    Chooses(Grown),
    /// A `]`
    Indexes(Grown),
    /// A `,` or a `)`, and there may be nothing before it
    Begins(GrownCall),
    /// A `,` or a `)`
    Calls(GrownCall),
    /// A `)` behind a type's name
    Names(Place, Spec),
    /// A `)` behind a declarator
    Nests(u64),
    /// A `]` behind a bound, which may be absent
    Bounds(Option<BuiltAbstract>),
    Other,
}

/// What a `)` behind an expression ends.
#[derive(Drop)]
pub enum Closer {
    Parens(Place),
    Calls(GrownCall),
    NoParen,
}

/// What a `]` ends.
#[derive(Drop)]
pub enum Square {
    Indexes(Grown),
    Bounds(Option<BuiltAbstract>),
    NoBracket,
}

/// What a `)` behind a declarator ends.
#[derive(Drop)]
pub enum NameCloser {
    Names(Place, Spec),
    Nests(u64),
    NoName,
}

/// The level of what is to be read.
pub fn least_of(least: Least) -> u32
    ensures { result ≡ least_of least }
{
    match least {
        Least::Expression => 1,
        Least::Assignment => 2,
        Least::Constant => 3,
    }
}

/// The level of what the frame makes by itself, or 0 where it waits for a token.
fn frame_level(frame: &Frame) -> u32
    ensures { result ≡ frame_level frame.now }
{
    match frame {
        Frame::Prefix(_, _) => 15,
        Frame::Cast(_, _, _) => 14,
        Frame::Binary(op, _) => level_of(*op),
        Frame::Else(_, _) => 3,
        _ => 0,
    }
}

/// The least level of the expression that the frame waits for.
fn need_of(frame: &Frame) -> u32
    ensures { result ≡ need_of frame.now }
{
    match frame {
        Frame::Start(least) => least_of(*least),
        Frame::Prefix(_, op) => operand_of(*op),
        Frame::Cast(_, _, _) => 14,
        Frame::Binary(op, _) => right_of(*op),
        Frame::Else(_, _) | Frame::Bound(_) => 3,
        Frame::Begun(_) | Frame::Call(_) => 2,
        _ => 1,
    }
}

/// The least level of the expression that is to come.
pub fn need(stack: &Stack<Frame>) -> u32
    ensures { result ≡ need stack.now }
{
    match stack.top() {
        Some(frame) => need_of(frame),
        None => 0,
    }
}

fn top_level(stack: &Stack<Frame>) -> u32
    ensures { result ≡ top_level stack.now }
{
    match stack.top() {
        Some(frame) => frame_level(frame),
        None => 0,
    }
}

/// Whether nothing is begun.
pub fn at_start(stack: &Stack<Frame>) -> bool
    ensures { result ≡ is_start (first stack.now) }
{
    match stack.top() {
        Some(Frame::Start(_)) => true,
        _ => false,
    }
}

/// The place of a `sizeof` that waits for its operand.
pub fn sizeof_place(stack: &Stack<Frame>) -> Option<Place>
    ensures { result ≡ sizeof_place stack.now }
{
    match stack.top() {
        Some(Frame::Prefix(place, PrefixOp::Sizeof)) => Some(*place),
        _ => None,
    }
}

/// What the topmost frame waits for.
fn opener_of(frame: Frame) -> Opener
    ensures { result ≡ opener_of frame }
{
    match frame {
        Frame::Start(_least) => Opener::Other,
        Frame::Prefix(_place, _op) => Opener::Other,
        Frame::Typed(place, spec) => Opener::Names(place, spec),
        Frame::Nest(stars) => Opener::Nests(stars),
        Frame::Bound(d) => Opener::Bounds(d),
        Frame::Cast(_place, _spec, _d) => Opener::Other,
        Frame::Binary(_op, _a) => Opener::Other,
        Frame::Then(a) => Opener::Chooses(a),
        Frame::Else(_a, _b) => Opener::Other,
        Frame::Paren(place) => Opener::Parens(place),
        Frame::Index(a) => Opener::Indexes(a),
        Frame::Begun(call) => Opener::Begins(call),
        Frame::Call(call) => Opener::Calls(call),
    }
}

/// What the topmost frame waits for, where there is one.
fn awaited(frame: Option<Frame>) -> Opener
    ensures { result ≡ awaited frame }
{
    match frame {
        Some(frame) => opener_of(frame),
        None => Opener::Other,
    }
}

/// The place of a `(` that waits.
pub fn paren_part(frame: Option<Frame>) -> Option<Place>
    ensures { result ≡ paren_part frame }
{
    match awaited(frame) {
        Opener::Parens(place) => Some(place),
        _other => None,
    }
}

/// The condition of a `?` that waits.
pub fn then_part(frame: Option<Frame>) -> Option<Grown>
    ensures { result ≡ then_part frame }
{
    match awaited(frame) {
        Opener::Chooses(a) => Some(a),
        _other => None,
    }
}

/// A call of which only the `(` was read.
pub fn begun_part(frame: Option<Frame>) -> Option<GrownCall>
    ensures { result ≡ begun_part frame }
{
    match awaited(frame) {
        Opener::Begins(call) => Some(call),
        _other => None,
    }
}

/// A call that waits for an argument.
pub fn call_part(frame: Option<Frame>) -> Option<GrownCall>
    ensures { result ≡ call_part frame }
{
    match awaited(frame) {
        Opener::Begins(call) => Some(call),
        Opener::Calls(call) => Some(call),
        _other => None,
    }
}

/// Where a type's name that is `unsigned` so far begins.
fn unsigned_name(place: Place, spec: Spec) -> Option<Place>
    ensures { result ≡ unsigned_name place spec }
{
    match spec {
        Spec::Unsigned => Some(place),
        _other => None,
    }
}

/// The place of the `(` before a type's name that is `unsigned` so far.
pub fn unsigned_part(frame: Option<Frame>) -> Option<Place>
    ensures { result ≡ unsigned_part frame }
{
    match awaited(frame) {
        Opener::Names(place, spec) => unsigned_name(place, spec),
        _other => None,
    }
}

/// The `(` or the call that waits for a `)`.
pub fn closer_of(frame: Option<Frame>) -> Closer
    ensures { result ≡ closer_of frame }
{
    match awaited(frame) {
        Opener::Parens(place) => Closer::Parens(place),
        Opener::Begins(call) => Closer::Calls(call),
        Opener::Calls(call) => Closer::Calls(call),
        _other => Closer::NoParen,
    }
}

/// The `[` that waits for a `]`.
pub fn square_of(frame: Option<Frame>) -> Square
    ensures { result ≡ square_of frame }
{
    match awaited(frame) {
        Opener::Indexes(a) => Square::Indexes(a),
        Opener::Bounds(d) => Square::Bounds(d),
        _other => Square::NoBracket,
    }
}

/// The `(` before a type's name or a declarator that waits for a `)`.
pub fn name_closer_of(frame: Option<Frame>) -> NameCloser
    ensures { result ≡ name_closer_of frame }
{
    match awaited(frame) {
        Opener::Names(place, spec) => NameCloser::Names(place, spec),
        Opener::Nests(stars) => NameCloser::Nests(stars),
        _other => NameCloser::NoName,
    }
}

/// The expression in its frame.
fn plug(alloc: Global, frame: Frame, g: Grown) -> Result<Grown, AllocError>
    ensures { IfOk result (λ r. r ≡ plug frame g) }
{
    match frame {
        Frame::Prefix(place, op) => prefix_of(alloc, place, op, g),
        Frame::Cast(place, spec, d) => cast_of(alloc, place, spec, d, g),
        Frame::Binary(op, a) => binary_of(alloc, op, a, g),
        Frame::Else(a, b) => choice_of(alloc, a, b, g),
        Frame::Start(_least) => Ok(g),
        Frame::Typed(_place, _spec) => Ok(g),
        Frame::Nest(_stars) => Ok(g),
        Frame::Bound(_d) => Ok(g),
        Frame::Then(_a) => Ok(g),
        Frame::Paren(_place) => Ok(g),
        Frame::Index(_a) => Ok(g),
        Frame::Begun(_call) => Ok(g),
        Frame::Call(_call) => Ok(g),
    }
}

/// Ends the expressions that bind at least as tightly as the level.
pub fn reduce(
    alloc: Global,
    level: u32,
    g: Grown,
    stack: &mut Stack<Frame>,
) -> Result<Grown, AllocError>
    ensures { IfOk result (λ r. reduce level g stack.old ≡ (r, stack.new)) }
{
    let mut g = g;
    'ending: while level <= top_level(stack) {
        let Some(frame) = stack.pop() else {
            return Ok(g);
        };
        g = plug(alloc, frame, g)?;
    }
    Ok(g)
}
