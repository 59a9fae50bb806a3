// Bytes on the way.

ghost use Rattle.std.specs.Prelude.{◌≡◌, ◌≤◌, ◌+◌, [], ◌∷◌, ◌++◌, length, take, drop, MatchOption};

use arrayvec::ArrayVec;
use std::marker::Model;

/// How many bytes there is room for.
pub const ROOM: usize = 4096;

/// At most 4,096 bytes, which are added at the end and taken from the front.
#[derive(Drop)]
pub struct Queue {
    bytes: ArrayVec<u8, 4096>,
    taken: usize,
}

impl Model for Queue {
    ghost use Rattle.std.specs.Prelude.{List, ℕ, drop, ◌≤◌};
    ghost use Rattle.arrayvec.specs.ArrayVec.{array_vec_len};

    ghost Value = { List ℕ };

    ghost view = { λ q. drop q.taken q.bytes.items };

    ghost invariant = { λ q. (q.taken ≤ array_vec_len q.bytes) × (array_vec_len q.bytes ≤ 4096) };
}

/// Drops so many bytes at the front. It stands alone since a function pays for the room of its locals on each call.
#[inline(never)]
fn drop_front(bytes: &mut ArrayVec<u8, 4096>, count: usize)
    requires bound { count ≤ length bytes.old.items }
    requires fits { length bytes.old.items ≤ 4096 }
    ensures { bytes.new.items ≡ drop count bytes.old.items }
{
    let mut rest = ArrayVec::new();
    let _ = rest.try_extend_from_slice(&bytes[count..]);
    *bytes = rest;
}

impl Queue {
    /// No bytes.
    pub fn new() -> Queue
        ensures { result ≡ [] }
    {
        Queue {
            bytes: ArrayVec::new(),
            taken: 0,
        }
    }

    /// How many bytes there are.
    pub fn len(&self) -> usize
        ensures value { result ≡ length self.now }
        ensures fits { result ≤ ROOM }
    {
        self.bytes.len() - self.taken
    }

    /// The bytes.
    pub fn as_slice(&self) -> &[u8]
        ensures { result.now ≡ self.now }
    {
        &self.bytes[self.taken..]
    }

    /// Adds bytes at the end.
    #[tactic(auto, using(crate::proofs::Queues::drop_append))]
    pub fn append(&mut self, piece: &[u8])
        requires { length self.old + length piece.now ≤ ROOM }
        ensures { self.new ≡ self.old ++ piece.now }
    {
        if self.bytes.len() + piece.len() > ROOM {
            drop_front(&mut self.bytes, self.taken);
            self.taken = 0;
            let _ = self.bytes.try_extend_from_slice(piece);
            return;
        }
        let _ = self.bytes.try_extend_from_slice(piece);
    }

    /// Takes bytes from the front.
    pub fn skip(&mut self, count: usize)
        requires { count ≤ length self.old }
        ensures { self.new ≡ drop count self.old }
    {
        self.taken += count;
        if self.taken == self.bytes.len() {
            self.bytes.clear();
            self.taken = 0;
        }
    }

    /// The first byte, if there is one.
    pub fn first(&self) -> Option<u8>
        ensures { MatchOption result (self.now ≡ []) (λ b. self.now ≡ b ∷ drop 1 self.now) }
    {
        match self.as_slice() {
            [] => None,
            [first, ..] => Some(*first),
        }
    }
}
