//! What stands on the execution stack.

ghost use Rattle.std.specs.Prelude.{◌≡◌, ◌+◌, ◌^◌, ◌<◌, Some, None, [], length, IfSome};
ghost use Rattle.std.specs.Bool.{OnTrue, OnFalse};
ghost use Rattle.ps_step.specs.Item.{under_stopped, loop_from};

use crate::stack::Stack;
use ps_store::{ArrayId, DictId, PsObj, StringId};

/// An item of the execution stack. The body of a loop is a procedure, named last.
#[derive(Clone, Copy)]
pub enum Item {
    /// An object that is to be executed.
    Object(PsObj),
    /// A procedure, and the index of its next object.
    Procedure(ArrayId, usize),
    /// An executable string, and the place of its next token.
    Text(StringId, usize),
    /// `repeat`: how many turns are left, at least one.
    Repeat(u32, ArrayId),
    /// `for`: the number of the next turn, the increment, the limit.
    For(i32, i32, i32, ArrayId),
    /// `forall`: an array, and the index of its next element.
    ForArray(ArrayId, usize, ArrayId),
    /// `forall`: a string, and the index of its next byte.
    ForString(StringId, usize, ArrayId),
    /// `forall`: a dictionary, and the place of its next pair.
    ForDict(DictId, usize, ArrayId),
    /// `loop`.
    Loop(ArrayId),
    /// A loop in its last turn: `exit` leaves the loop here.
    LastTurn,
    /// Where `stopped` began.
    Stopped,
}

/// Cuts the stack to the items under the innermost place where `stopped` began.
pub fn cut_to_stopped(items: &mut Stack<Item>) -> bool
    ensures found { OnTrue result (under_stopped items.old ≡ Some items.new) }
    ensures none { OnFalse result (under_stopped items.old ≡ None × items.new ≡ []) }
{
    while let Some(item) = items.pop() {
        if let Item::Stopped = item {
            return true;
        }
    }
    false
}

/// How many items are above the innermost loop, if no `stopped` began within it.
pub fn loop_depth(items: &Stack<Item>) -> Option<usize>
    ensures place { result ≡ loop_from 0 items.now }
    ensures within { IfSome result (λ n. n < length items.now) }
    ensures fits { IfSome result (λ n. n + 1 < 2 ^ 64) }
{
    for depth in 0..items.len() {
        match items.at(depth) {
            Item::Stopped => return None,
            Item::Object(_) | Item::Procedure(_, _) | Item::Text(_, _) => {}
            _ => return Some(depth),
        }
    }
    None
}
