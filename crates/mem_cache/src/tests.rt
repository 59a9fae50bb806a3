//! What a memory with kept values asks of the one below.

use crate::cached::Cached;
use abs_mem::{AbsMem, MemFault, NoMem, Register};
use frame_bytes::{Place, Space};
use ldb_words::Kind;
use std::alloc::AllocError;
use std::num::NonZeroUsize;

/// The immediate cell, and how often it was fetched.
#[derive(Drop)]
struct Counting {
    below: Register<NoMem>,
    fetches: u32,
}

impl AbsMem for Counting {
    ghost use Rattle.abs_mem.specs.Layers.{cell_seen, nothing_seen};

    ghost Rest = { Unit };

    ghost seen = { λ a. cell_seen a.below.cell nothing_seen };

    ghost leads = { λ a o b. Unit {0} };

    fn fetch(&mut self, place: Place, kind: Kind) -> Result<u32, MemFault> {
        self.fetches = self.fetches.saturating_add(1);
        self.below.fetch(place, kind)
    }

    fn store(&mut self, place: Place, kind: Kind, value: u32) -> Result<(), MemFault> {
        self.below.store(place, kind, value)
    }

    ghost stays = { λ m. tt };

    ghost goes_on = { λ a b c o x y. tt };
}

/// A fetched number, or one that no test has.
fn number(fetched: Result<u32, MemFault>) -> u32 {
    match fetched {
        Ok(value) => value,
        Err(_) => 99,
    }
}

/// A place is fetched once below, and once more behind a store.
#[test]
fn cached_once(rt: HostRuntime) -> Result<(), AllocError> {
    let cell = Place {
        space: Space::Immediate,
        at: 0,
    };
    let below = Counting {
        below: Register {
            below: NoMem,
            cell: 7,
        },
        fetches: 0,
    };
    let room = NonZeroUsize::MIN;
    let mut memory = Cached::new(rt.alloc(), below, room)?;
    assert_eq!(rt; number(memory.fetch(cell, Kind::Word)), 7);
    assert_eq!(rt; number(memory.fetch(cell, Kind::Word)), 7);
    assert_eq!(rt; memory.below.fetches, 1);
    assert!(rt; memory.store(cell, Kind::Word, 8).is_ok());
    assert_eq!(rt; number(memory.fetch(cell, Kind::Word)), 8);
    assert_eq!(rt; memory.below.fetches, 2);
    memory.forget();
    assert_eq!(rt; number(memory.fetch(cell, Kind::Word)), 8);
    assert_eq!(rt; memory.below.fetches, 3);
    Ok(())
}
