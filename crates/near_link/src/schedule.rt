// The schedule of a number.

ghost use Rattle.std.specs.Prelude.{◌≡◌, IfOk};
ghost use Rattle.near_link.specs.Schedule.{next_entry, schedule_of};

use nub_wire::{Entry, Side};
use rand_core::{Rng, SeedableRng};
use rand_xoshiro::Xoshiro256PlusPlus;
use std::alloc::{AllocError, Global};

/// How many entries a schedule of a number has.
const ENTRIES: usize = 4096;

/// The next entry of a generator of words.
fn next_entry<R: Rng>(rng: &mut R, has_second: bool) -> Entry
    ensures { (result, R.stream rng.new) ≡ next_entry has_second (R.stream rng.old) }
{
    let side = rng.next_u64();
    let instructions = rng.next_u64();
    let piece = rng.next_u64();
    Entry {
        side: if has_second && side % 2 == 1 {
            Side::Second
        } else {
            Side::First
        },
        instructions: 1 + (instructions % 1000) as u32,
        piece: 1 + (piece % 16) as u32,
    }
}

/// The schedule that a number stands for: 4,096 entries from xoshiro256++, seeded with it. Where a link has one side, each
/// entry is for that one.
pub fn schedule_of(alloc: Global, seed: u64, has_second: bool) -> Result<Vec<Entry>, AllocError>
    ensures { IfOk result (λ v. v.items ≡ schedule_of has_second seed) }
{
    let mut rng = Xoshiro256PlusPlus::seed_from_u64(seed);
    let mut entries = Vec::with_capacity(alloc, ENTRIES)?;
    for _entry in 0..ENTRIES {
        entries.push(next_entry(&mut rng, has_second))?;
    }
    Ok(entries)
}
