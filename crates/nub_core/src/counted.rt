// Turns that are counted.

ghost use Rattle.std.specs.Prelude.{◌≡◌, ℕ, ◌≤◌, ◌<◌, IfSome, IfNone, Some, None};
ghost use Rattle.nub_wire.specs.Nub.{turn_of};

use crate::nub::Nub;
use machine_state::Target;
use nub_wire::Msg;

/// A message, and the fewest instructions after which it was due.
#[derive(Drop)]
pub struct Told {
    pub message: Msg,
    pub count: u32,
}

impl<T: Target> Nub<T> {
    /// Goes on with an open resume for at most n instructions, up to its next message, and tells how many it ran for that.
    /// Nothing is run where no resume is open.

    pub fn turn_counted(&mut self, n: u32) -> Option<Told>
        ensures told { IfSome result (λ t. turn_of T.behaviour t.count self.old ≡ (Some t.message, self.new)) }
        ensures within { IfSome result (λ t. t.count ≤ n) }
        ensures fewest { IfSome result (λ t. (j : ℕ) → j < t.count → (turn_of T.behaviour j self.old).0 ≡ None) }
        ensures quiet { IfNone result (turn_of T.behaviour n self.old ≡ (None, self.new)) }
    {
        match self.turn(0) {
            None => {}
            Some(message) => return Some(Told { message, count: 0 }),
        }
        for done in 0..n {
            match self.turn(1) {
                None => {}
                Some(message) => {
                    return Some(Told {
                        message,
                        count: done + 1,
                    });
                }
            }
        }
        None
    }
}
