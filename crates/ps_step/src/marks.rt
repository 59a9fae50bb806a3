//! Marks on the operand stack.

ghost use Rattle.std.specs.Prelude.{◌≡◌, ◌+◌, ◌^◌, ◌<◌, length, IfSome};
ghost use Rattle.ps_step.specs.Marks.{mark_from};

use crate::stack::Stack;
use ps_store::PsObj;

/// How many objects are above the topmost mark.
pub fn mark_depth(xs: &Stack<PsObj>) -> Option<usize>
    ensures place { result ≡ mark_from 0 xs.now }
    ensures within { IfSome result (λ n. n < length xs.now) }
    ensures fits { IfSome result (λ n. n + 1 < 2 ^ 64) }
{
    for depth in 0..xs.len() {
        if let PsObj::Mark = xs.at(depth) {
            return Some(depth);
        }
    }
    None
}
