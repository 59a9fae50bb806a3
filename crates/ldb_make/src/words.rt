// The words that a program is made of.

ghost use Rattle.std.specs.Prelude.{◌≡◌, ◌<◌, IfOk, length};
ghost use Rattle.ldb_make.specs.Words.{words, pick};

use rand_core::{Rng, SeedableRng};
use rand_xoshiro::Xoshiro256PlusPlus;
use std::alloc::{AllocError, Global};

/// How many words a program and its commands take.
const WORDS: usize = 450;

/// The words of a number: the first of xoshiro256++, seeded with it.
pub fn words_of(alloc: Global, n: u32) -> Result<Vec<u64>, AllocError>
    ensures { IfOk result (λ v. v.items ≡ words n) }
{
    let mut rng = Xoshiro256PlusPlus::seed_from_u64(u64::from(n));
    let mut words = Vec::with_capacity(alloc, WORDS)?;
    for _word in 0..WORDS {
        words.push(rng.next_u64())?;
    }
    Ok(words)
}

/// A number below `bound`, of the word with this number; 0 where there is no such word.
pub fn pick(words: &[u64], number: usize, bound: u64) -> u64
    requires { 0 < bound }
    ensures value { result ≡ pick words.now number bound }
    ensures below { result < bound }
{
    if number < words.len() {
        words[number] % bound
    } else {
        0
    }
}
