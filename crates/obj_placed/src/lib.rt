//! Placed objects: which address each name has, and what texts and static objects are once every use is patched. Definitions, and what holds of them.
#![tactic(auto)]

mod laws;

pub use laws::placed_word_by_word;
