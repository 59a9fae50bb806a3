// A memory that keeps what it fetched.

ghost use Rattle.std.specs.Prelude.{◌≡◌, [], IfOk};
ghost use Rattle.std.specs.NonZero.{non_zero_usize_get};
ghost use Rattle.lru.specs.LruCache.{lru_cache};
ghost use Rattle.mem_cache.specs.Kept.{access_of};

use abs_mem::{AbsMem, MemFault};
use frame_bytes::{Place, Space};
use ldb_words::Kind;
use lru::LruCache;
use std::alloc::{AllocError, Global};
use std::num::NonZeroUsize;

/// The place and the kind of an access: the number of its space, its kind and its place there.
#[derive(Clone, Copy, PartialEq, Eq, Hash)]
struct Access {
    space: u8,
    kind: u8,
    at: u32,
}

fn access_of(place: Place, kind: Kind) -> Access
    ensures { result ≡ access_of place kind }
{
    Access {
        space: match place.space {
            Space::Memory => 0,
            Space::Registers => 1,
            Space::Immediate => 2,
        },
        kind: match kind {
            Kind::Byte => 0,
            Kind::Word => 1,
            Kind::Address => 2,
        },
        at: place.at,
    }
}

/// A memory over another that keeps the values that it fetched, those used last, until a store or `forget`. What is below may be
/// changed from outside only while nothing is kept.
#[derive(Drop)]
pub struct Cached<M> {
    pub below: M,
    kept: LruCache<Access, u32>,
}

impl<M: AbsMem + Drop> Cached<M> {
    /// One over a memory that keeps at most so many values, and none yet.
    pub fn new(alloc: Global, below: M, room: NonZeroUsize) -> Result<Cached<M>, AllocError>
        ensures { IfOk result (λ c. (c.below ≡ below) × (c.kept ≡ lru_cache [] (non_zero_usize_get room))) }
    {
        let kept = LruCache::new(alloc, room)?;
        Ok(Cached { below, kept })
    }

    /// Keeps nothing more of what was fetched. It takes no memory.
    pub fn forget(&mut self)
        ensures below { self.new.below ≡ self.old.below }
        ensures kept { self.new.kept ≡ lru_cache [] self.old.kept.cap }
    {
        self.kept.clear();
    }
}

impl<M: AbsMem + Drop> AbsMem for Cached<M> {
    ghost use Rattle.mem_cache.specs.Kept.{kept_seen};

    ghost Rest = { M.Rest };

    ghost seen = { λ c. kept_seen c.kept.entries (M.seen c.below) };

    ghost leads = { λ a o b. M.leads a.below o b.below };

    fn fetch(&mut self, place: Place, kind: Kind) -> Result<u32, MemFault> {
        let access = access_of(place, kind);
        self.kept.promote(&access);
        if let Some(value) = self.kept.peek(&access) {
            return Ok(*value);
        }
        match self.below.fetch(place, kind) {
            Ok(value) => {
                // Where there is no memory for it the value isn't kept.
                let _ = self.kept.put(access, value);
                Ok(value)
            }
            Err(fault) => Err(fault),
        }
    }

    fn store(&mut self, place: Place, kind: Kind, value: u32) -> Result<(), MemFault> {
        self.forget();
        self.below.store(place, kind, value)
    }

    ghost stays = { λ m. M.stays m.below };

    ghost goes_on = { λ a b c o x y. M.goes_on a.below b.below c.below o x y };
}
