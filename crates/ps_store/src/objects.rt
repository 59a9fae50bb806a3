//! The objects of one part of a store.

ghost use Rattle.ps_store.specs.Cut.{mark_of, cut, IsMark};
ghost use Rattle.std.specs.Prelude.{◌≡◌, ◌<◌, ◌+◌, ◌≤◌, IfOk, IfSome, IfNone, OnOk, OnErr, None, [], ◌∷◌, ◌++◌, length, slice_set, slice_index_or};
ghost use Rattle.ps_store.specs.Entries.{value_at, with_value_in};
ghost use Rattle.ps_store.specs.Overwritten.{overwritten};

use crate::bucket::Text;
use crate::entries::Entries;
use crate::key::Key;
use crate::object::{Mark, Pair, PsObj};
use crate::texts::{Characters, Elements};
use std::alloc::{AllocError, Global};
use std::marker::Model;

/// The objects of one part.
#[derive(Drop)]
pub struct Objects {
    arrays: Vec<Elements>,
    dicts: Vec<Entries>,
    strings: Vec<Characters>,
    units: u32,
}

impl Model for Objects {
    ghost use Rattle.std.specs.Prelude.{◌+◌, ◌≤◌, length};
    ghost use Rattle.ps_store.specs.Held.{Held};

    ghost Value = { Held };

    ghost view = { λ o. record { arrays = o.arrays.items; dicts = o.dicts.items; strings = o.strings.items; units = o.units } };

    ghost invariant = { λ o. (length o.arrays.items + length o.dicts.items + length o.strings.items ≤ o.units) × (o.units ≤ 8000000) };
}

impl Objects {
    /// No objects.
    pub fn new(alloc: Global) -> Objects
        ensures { result ≡ record { arrays = []; dicts = []; strings = []; units = 0 } }
    {
        Objects {
            arrays: Vec::new(alloc),
            dicts: Vec::new(alloc),
            strings: Vec::new(alloc),
            units: 0,
        }
    }

    /// The units that the objects count.
    pub fn units(&self) -> u32
        ensures { result ≡ self.now.units }
    {
        self.units
    }

    /// The elements of an array, none where there is no such array.
    pub fn elements(&self, index: u32) -> &[PsObj]
        ensures { result.now ≡ slice_index_or self.now.arrays index [] }
    {
        match self.arrays.get(index as usize) {
            Some(elements) => elements.as_slice(),
            None => &[],
        }
    }

    /// The text of a string, an empty one where there is no such string.
    pub fn text(&self, index: u32) -> Text<'_>
        ensures { result.query.text.now ≡ slice_index_or self.now.strings index [] }
    {
        match self.strings.get(index as usize) {
            Some(characters) => characters.text(),
            None => Text::new(&[]),
        }
    }

    /// The pairs of a dictionary, if it is there.
    pub fn entries(&self, index: u32) -> Option<&Entries>
        ensures some { IfSome result (λ entries. entries.now ≡ slice_index_or self.now.dicts index []) }
        ensures none { IfNone result (slice_index_or self.now.dicts index [] ≡ []) }
    {
        self.dicts.get(index as usize)
    }

    /// The allocator of the objects.
    pub fn allocator(&self) -> Global {
        *self.arrays.allocator()
    }

    /// Adds an array that counts `cost` units, and gives its index.
    pub fn add_array(&mut self, elements: Elements, cost: u32) -> Result<u32, AllocError>
        requires least { 1 ≤ cost }
        requires fits { self.old.units + cost ≤ 8000000 }
        ensures index { IfOk result (λ index. index ≡ length self.old.arrays) }
        ensures ok { OnOk result (self.new ≡ record self.old { arrays = self.old.arrays ++ elements ∷ []; units = self.old.units + cost }) }
        ensures err { OnErr result (self.new ≡ self.old) }
    {
        let index = self.arrays.len() as u32;
        self.arrays.push(elements)?;
        self.units += cost;
        Ok(index)
    }

    /// Puts elements into an array from a place on.
    pub fn write_elements(&mut self, index: u32, at: usize, items: &[PsObj])
        requires { at + length items.now ≤ length (slice_index_or self.old.arrays index []) }
        ensures { self.new ≡ record self.old { arrays = slice_set self.old.arrays index (overwritten (slice_index_or self.old.arrays index []) at items.now) } }
    {
        if let Some(elements) = self.arrays.get_mut(index as usize) {
            elements.write(at, items);
        }
    }

    /// Puts bytes into a string from a place on.
    pub fn write_bytes(&mut self, index: u32, at: usize, bytes: &[u8])
        requires { at + length bytes.now ≤ length (slice_index_or self.old.strings index []) }
        ensures { self.new ≡ record self.old { strings = slice_set self.old.strings index (overwritten (slice_index_or self.old.strings index []) at bytes.now) } }
    {
        if let Some(characters) = self.strings.get_mut(index as usize) {
            characters.write(at, bytes);
        }
    }

    /// Makes an empty dictionary, and gives its index.
    pub fn add_dict(&mut self) -> Result<u32, AllocError>
        requires { self.old.units < 8000000 }
        ensures index { IfOk result (λ index. index ≡ length self.old.dicts) }
        ensures ok { OnOk result (self.new ≡ record self.old { dicts = self.old.dicts ++ [] ∷ []; units = self.old.units + 1 }) }
        ensures err { OnErr result (self.new ≡ self.old) }
    {
        let alloc = *self.dicts.allocator();
        let index = self.dicts.len() as u32;
        self.dicts.push(Entries::new(alloc))?;
        self.units += 1;
        Ok(index)
    }

    /// Adds a string that counts `cost` units, and gives its index.
    pub fn add_string(&mut self, characters: Characters, cost: u32) -> Result<u32, AllocError>
        requires least { 1 ≤ cost }
        requires fits { self.old.units + cost ≤ 8000000 }
        ensures index { IfOk result (λ index. index ≡ length self.old.strings) }
        ensures ok { OnOk result (self.new ≡ record self.old { strings = self.old.strings ++ characters ∷ []; units = self.old.units + cost }) }
        ensures err { OnErr result (self.new ≡ self.old) }
    {
        let index = self.strings.len() as u32;
        self.strings.push(characters)?;
        self.units += cost;
        Ok(index)
    }

    /// Puts another value at a place of a dictionary.
    #[inline(always)]
    pub fn replace_value(&mut self, index: u32, place: usize, value: PsObj)
        requires { place < length (slice_index_or self.old.dicts index []) }
        ensures { self.new ≡ record self.old { dicts = slice_set self.old.dicts index (with_value_in (slice_index_or self.old.dicts index []) place value) } }
    {
        if let Some(entries) = self.dicts.get_mut(index as usize) {
            entries.replace(place, value);
        }
    }

    /// Adds a pair to a dictionary under a key that is not there, which counts a unit.
    pub fn add_pair(&mut self, index: u32, key: Key, pair: Pair) -> Result<(), AllocError>
        requires room { self.old.units < 8000000 }
        requires absent { value_at (slice_index_or self.old.dicts index []) key ≡ None }
        ensures ok { OnOk result (self.new ≡ record self.old { dicts = slice_set self.old.dicts index (slice_index_or self.old.dicts index [] ++ (key, pair) ∷ []); units = self.old.units + 1 }) }
        ensures err { OnErr result (self.new ≡ self.old) }
    {
        match self.dicts.get_mut(index as usize) {
            Some(entries) => entries.add(key, pair)?,
            None => drop(key),
        }
        self.units += 1;
        Ok(())
    }

    /// How many objects there are, and their units.
    pub fn mark(&self) -> Mark
        ensures mark { result ≡ mark_of self.now }
        ensures counted { IsMark result }
    {
        Mark {
            arrays: self.arrays.len() as u32,
            dicts: self.dicts.len() as u32,
            strings: self.strings.len() as u32,
            units: self.units,
        }
    }

    /// Drops the objects that were made since the mark.
    pub fn cut(&mut self, mark: Mark)
        requires { IsMark mark }
        ensures { self.new ≡ cut self.old mark }
    {
        self.arrays.truncate(mark.arrays as usize);
        self.dicts.truncate(mark.dicts as usize);
        self.strings.truncate(mark.strings as usize);
        self.units = self.units.min(mark.units);
    }
}
