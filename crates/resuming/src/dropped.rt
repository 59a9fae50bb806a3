// A sink for output that nobody reads.

ghost use Rattle.std.specs.Prelude.{None};

use ldb_edge::{Failed, Sink};

/// Takes all bytes, and keeps none. It never fails.
#[derive(Clone, Copy)]
pub struct Dropped;

impl Sink for Dropped {
    ghost taken = { λ _. None };

    ghost faults = { λ _. 0 };

    ghost calls = { λ _. None };

    ghost leads = { λ _ _. Unit {0} };

    fn write(&mut self, piece: &[u8]) -> Result<usize, Failed> {
        Ok(piece.len())
    }

    ghost stays = { λ _. tt };

    ghost goes_on = { λ _ _ _ _ _. tt };
}
