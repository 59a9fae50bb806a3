//! Dictionaries: keys and pairs in the order in which the keys were first put.

ghost use Rattle.ps_store.specs.declared.object.Pair.{Pair};
ghost use Rattle.ps_store.specs.Hints.{bucket_of, with_hint};
ghost use Rattle.std.specs.Bool.{OnTrue};
ghost use Rattle.std.specs.Prelude.{ℕ, Some, ◌≡◌, ◌<◌, ◌≤◌, IfSome, OnOk, OnErr, None, List, [], ◌∷◌, ◌++◌, length, slice_get, slice_set, option_map};

use crate::bucket::Text;
use crate::key::{Key, NameQuery};
use crate::object::{Pair, PsObj};
use indexmap::IndexMap;
use std::alloc::{AllocError, Global};
use std::marker::Model;

/// The pairs of a dictionary by their keys, with a hint for each bucket of names: 0 where no key is a name of it, or one
/// more than the place of a pair whose key may be one.
#[derive(Drop)]
pub struct Entries {
    pairs: IndexMap<Key, Pair>,
    hints: [u16; 128],
}

impl Model for Entries {
    ghost use Rattle.std.specs.Prelude.{List};
    ghost use Rattle.ps_store.specs.declared.key.Key.{Key};
    ghost use Rattle.ps_store.specs.declared.object.Pair.{Pair};
    ghost use Rattle.ps_store.specs.Hints.{Hinted};

    ghost Value = { List (Key × Pair) };

    ghost view = { λ e. e.pairs.entries };

    ghost invariant = { λ e. Hinted e.hints e.pairs.entries };
}

/// The hint for a pair at a place.
fn hint_of(place: usize) -> u16
    ensures { 1 ≤ result }
{
    place.min(65_534) as u16 + 1
}

/// Puts the hint of a bucket.
#[tactic(auto, using(crate::proofs::Hinting::past_hints))]
fn set_hint(hints: &mut [u16], bucket: u8, hint: u16)
    ensures { hints.new ≡ slice_set hints.old bucket hint }
{
    let place = bucket as usize;
    if place < hints.len() {
        hints[place] = hint;
    }
}

/// Puts a hint for a key.
fn put_hint(hints: &mut [u16], key: &Key, hint: u16)
    ensures { hints.new ≡ with_hint hints.old key.now hint }
{
    match key {
        Key::Name(name) => set_hint(hints, Text::new(name.query().text).bucket, hint),
        Key::Int(_) | Key::Bool(_) => {}
    }
}

impl Entries {
    ghost use Rattle.ps_store.specs.declared.key.Key.TheVariants.{Name as NameKey};
    ghost use Rattle.ps_store.specs.Entries.{place_of, value_in, value_at, with_value_in};

    /// No pairs.
    pub fn new(alloc: Global) -> Entries
        ensures { result ≡ [] }
    {
        Entries {
            pairs: IndexMap::new(alloc),
            hints: [0; 128],
        }
    }

    /// How many pairs there are.
    pub fn len(&self) -> usize
        ensures { result ≡ length self.now }
    {
        self.pairs.len()
    }

    /// The pair at a place.
    pub fn at(&self, place: usize) -> Option<Pair>
        ensures { result ≡ option_map (λ e. e.1) (slice_get self.now place) }
    {
        match self.pairs.get_index(place) {
            Some((_key, pair)) => Some(*pair),
            None => None,
        }
    }

    /// The value at the place of a key.
    #[inline(always)]
    pub fn value(&self, place: Option<usize>) -> Option<PsObj>
        ensures { result ≡ value_in self.now place }
    {
        match self.pairs.get_index(place?) {
            Some((_key, pair)) => Some(pair.value),
            None => None,
        }
    }

    /// The place of a key.
    pub fn place_of(&self, key: &Key) -> Option<usize>
        ensures { result ≡ place_of self.now key.now }
    {
        self.pairs.get_index_of(key)
    }

    /// The place of a name, found by its hash.
    #[inline(never)]
    pub fn search(&self, name: NameQuery<'_>) -> Option<usize>
        ensures { result ≡ place_of self.now (NameKey name.entry.text.now) }
    {
        self.pairs.get_index_of(name)
    }

    /// Whether it is certain that no key is a name of a bucket.
    #[inline(always)]
    pub fn lacks(&self, bucket: u8) -> bool
        ensures { OnTrue result ((text : List ℕ) → bucket_of text ≡ bucket → value_at self.now (NameKey text) ≡ None) }
    {
        match self.hints.get(bucket as usize) {
            Some(hint) => *hint == 0,
            None => false,
        }
    }

    /// The place of a hint, if the key there is this name.
    #[inline(always)]
    fn hinted(&self, name: NameQuery<'_>, bucket: u8) -> Option<usize>
        ensures { IfSome result (λ i. place_of self.now (NameKey name.entry.text.now) ≡ Some i) }
    {
        let place = match self.hints.get(bucket as usize) {
            Some(hint) => (*hint as usize).wrapping_sub(1),
            None => return None,
        };
        if self.pairs.len() <= place {
            return None;
        }
        if let Some((key, _pair)) = self.pairs.get_index(place) {
            if key.is_name(name) {
                return Some(place);
            }
        }
        None
    }

    /// The place of the name that a text is.
    #[inline(always)]
    pub fn place_of_name(&self, name: Text<'_>) -> Option<usize>
        ensures { result ≡ place_of self.now (NameKey name.entry.query.text.now) }
    {
        match self.hinted(name.query, name.bucket) {
            Some(place) => Some(place),
            None => self.search(name.query),
        }
    }

    /// Puts another value at a place.
    #[inline(always)]
    #[tactic(auto, using(crate::proofs::Pairs::value_written, crate::proofs::Hinting::hinted_replaced))]
    pub fn replace(&mut self, place: usize, value: PsObj)
        requires { place < length self.old }
        ensures { self.new ≡ with_value_in self.old place value }
    {
        self.pairs[place].value = value;
    }

    /// Adds a pair under a key that is not there.
    #[tactic(auto, using(crate::proofs::Pairs::added_last, crate::proofs::Hinting::hinted_more))]
    pub fn add(&mut self, key: Key, pair: Pair) -> Result<(), AllocError>
        requires { value_at self.old key ≡ None }
        ensures ok { OnOk result (self.new ≡ self.old ++ (key, pair) ∷ []) }
        ensures err { OnErr result (self.new ≡ self.old) }
    {
        let hint = hint_of(self.pairs.len());
        put_hint(&mut self.hints, &key, hint);
        self.pairs.insert(key, pair)?;
        Ok(())
    }
}
