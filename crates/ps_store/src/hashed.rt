//! The hash of a text.

ghost use Rattle.std.specs.Prelude.{◌≡◌};
ghost use Rattle.ps_store.specs.Hashed.{text_hash};

use std::default::Default;
use std::hash::{FoldHasher, Hasher};

/// The hash of a text, 0 for one that is longer than a name may be.
#[tactic(auto, unfolding(crate::specs::Hashed::text_hash))]
pub fn text_hash(text: &[u8]) -> u64
    ensures { result ≡ text_hash text.now }
{
    if text.len() > 127 {
        return 0;
    }
    let mut hasher = FoldHasher::default();
    hasher.write(text);
    hasher.finish()
}
