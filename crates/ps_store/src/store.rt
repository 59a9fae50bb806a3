//! The store: arrays, dictionaries and strings, in two parts (PostScript Language Reference, 3.3 and 3.7).

ghost use Rattle.std.specs.Prelude.{◌≡◌, ◌<◌, ◌+◌, ◌≤◌, ◌^◌, IfOk, IfSome, IfNone, OnOk, OnErr, Some, None, [], ◌∷◌, ◌++◌, length, slice_get, option_map, bytes_eq, false, true, ◌&&◌, ◌/◌, nat_le, IsTrue};
ghost use Rattle.ps_store.specs.Store.{is_closed};

use crate::bucket::Text;
use crate::entries::Entries;
use crate::fault::{ReadOnly, StoreFault};
use crate::key::{Key, NameQuery};
use crate::object::{ArrayId, DictId, Mark, Pair, Part, PsObj, StringId};
use crate::objects::Objects;
use crate::texts::{Characters, Elements};
use std::alloc::{AllocError, Global};
use std::marker::Model;

/// A store of arrays, dictionaries and strings, which objects name by their ids.
///
/// An id that the store does not hold reads as an empty object.
#[derive(Drop)]
pub struct PsStore {
    table: Objects,
    command: Objects,
    part: Part,
    closed: Mark,
    base: Vec<DictId>,
    top: Option<DictId>,
}

impl Model for PsStore {
    ghost use Rattle.std.specs.Prelude.{◌+◌, ◌≤◌, length};
    ghost use Rattle.ps_store.specs.StoreState.{StoreState};

    ghost Value = { StoreState };

    ghost view = { λ s. record { table = s.table; command = s.command; part = s.part; closed = s.closed; base = s.base.items; top = s.top } };

    ghost invariant = { λ s. (s.table.units + s.command.units ≤ 8000000) × (s.closed.arrays ≤ length s.table.arrays) × (s.closed.dicts ≤ length s.table.dicts) × (s.closed.strings ≤ length s.table.strings) × (s.closed.units ≤ s.table.units) };
}

/// The most elements of an array, and pairs of a dictionary.
const MOST_ELEMENTS: usize = 1_000_000;

/// The most bytes of a string.
const MOST_BYTES: usize = 16_777_216;

/// The most characters of a name.
const MOST_CHARACTERS: usize = 127;

/// The most units of a store.
const MOST_UNITS: usize = 8_000_000;

/// Whether an object of a part is closed, where the first `count` objects of its kind in the table's part are.
fn is_closed(part: Part, index: u32, count: u32) -> bool
    ensures { result ≡ is_closed part index count }
{
    match part {
        Part::Table => index < count,
        Part::Command => false,
    }
}

impl PsStore {
    ghost use Rattle.ps_store.specs.declared.key.Key.TheVariants.{Name as NameKey};
    ghost use Rattle.ps_store.specs.declared.object.PsObj.TheVariants.{Name as NameObject};
    ghost use Rattle.ps_store.specs.Entries.{place_of, value_at, replaced, with_value_in};
    ghost use Rattle.ps_store.specs.Operators.{operator_number};
    ghost use Rattle.ps_store.specs.Cut.{mark_of, cut, IsMark};
    ghost use Rattle.ps_store.specs.Store.{KeepsClosed, is_deferred, held, with_held, with_entries, elements_of, entries_of, bytes_of, has_room, making_array, making_nulls, writing_elements, putting_element, making_dict, making_text, making_string, making_zeros, making_name, text_units, writing_bytes, key_object, adding_pair, adding, putting_value, putting_under_name, new_store, Does, Changes, closed_part};
    ghost use Rattle.ps_store.specs.Settled.{Settled};
    ghost use Rattle.ps_store.specs.Extends.{HoldsString};

    /// A store with the table's part in use and one base dictionary, which is empty.
    pub fn new(alloc: Global) -> Result<PsStore, AllocError>
        ensures { IfOk result (λ store. store ≡ new_store) }
    {
        let mut table = Objects::new(alloc);
        let index = match table.add_dict() {
            Ok(index) => index,
            Err(error) => {
                drop(table);
                return Err(error);
            }
        };
        let first = DictId {
            part: Part::Table,
            index,
        };
        match Vec::from_slice(alloc, &[first]) {
            Ok(base) => Ok(PsStore {
                table,
                command: Objects::new(alloc),
                part: Part::Table,
                closed: Mark {
                    arrays: 0,
                    dicts: 0,
                    strings: 0,
                    units: 0,
                },
                base,
                top: None,
            }),
            Err(error) => {
                drop(table);
                Err(error)
            }
        }
    }

    /// The objects of a part.
    fn held(&self, part: Part) -> &Objects
        ensures { result.now ≡ held self.now part }
    {
        match part {
            Part::Table => &self.table,
            Part::Command => &self.command,
        }
    }

    /// The elements of an array.
    pub fn array_get(&self, a: ArrayId) -> &[PsObj]
        ensures { result.now ≡ elements_of self.now a }
    {
        self.held(a.part).elements(a.index)
    }

    /// The bytes of a string, or the characters of a name.
    pub fn string_get(&self, s: StringId) -> &[u8]
        ensures { result.now ≡ bytes_of self.now s }
    {
        self.text(s).query.text
    }

    /// The same with what is known of the name that they are.
    fn text(&self, s: StringId) -> Text<'_>
        ensures { result.query.text.now ≡ bytes_of self.now s }
    {
        self.held(s.part).text(s.index)
    }

    /// Whether a string, or a name, is one of the table's closed ones.
    pub fn is_closed_string(&self, s: StringId) -> bool
        ensures value { result ≡ is_closed s.part s.index self.now.closed.strings }
        ensures held { result ≡ true → HoldsString self.now s }
    {
        is_closed(s.part, s.index, self.closed.strings)
    }

    /// Whether two strings have the same bytes.
    pub fn same_bytes(&self, a: StringId, b: StringId) -> bool
        ensures { result ≡ bytes_eq (bytes_of self.now a) (bytes_of self.now b) }
    {
        a == b || self.string_get(a) == self.string_get(b)
    }

    /// The number of the operator that has this name. It takes no search.
    pub fn operator_named(&self, s: StringId) -> Option<u16>
        ensures { result ≡ operator_number (bytes_of self.now s) }
    {
        self.text(s).operator
    }

    /// Whether there is room for so many more units.
    fn has_room(&self, cost: usize) -> bool
        requires { cost < 2 ^ 32 }
        ensures { result ≡ has_room self.now cost }
    {
        self.table.units() as usize + self.command.units() as usize + cost <= MOST_UNITS
    }

    /// The allocator of the objects.
    fn allocator(&self) -> Global {
        self.table.allocator()
    }

    /// Adds an array to the part in use, for which there is room.
    fn add_array(&mut self, elements: Elements, len: usize) -> Result<ArrayId, StoreFault>
        requires length { len ≡ length elements }
        requires short { len ≤ 1000000 }
        requires room { self.old.table.units + self.old.command.units + (1 + len) ≤ 8000000 }
        ensures does { Does result self.old self.new (making_array self.old elements) }
        ensures closed { closed_part self.new ≡ closed_part self.old }
    {
        let cost = 1 + len as u32;
        let part = self.part;
        let added = match part {
            Part::Table => self.table.add_array(elements, cost),
            Part::Command => self.command.add_array(elements, cost),
        };
        match added {
            Ok(index) => Ok(ArrayId { part, index }),
            Err(_) => Err(StoreFault::NoMemory),
        }
    }

    /// Makes an array of so many nulls in the part in use.
    pub fn make_array(&mut self, len: u32) -> Result<ArrayId, StoreFault>
        ensures does { Does result self.old self.new (making_nulls self.old len) }
        ensures closed { closed_part self.new ≡ closed_part self.old }
    {
        let len = len as usize;
        if len > MOST_ELEMENTS || !self.has_room(1 + len) {
            return Err(StoreFault::Limit);
        }
        let elements = Elements::nulls(self.allocator(), len)?;
        self.add_array(elements, len)
    }

    /// Makes an array of these elements in the part in use.
    pub fn make_array_of(&mut self, items: &[PsObj]) -> Result<ArrayId, StoreFault>
        ensures does { Does result self.old self.new (making_array self.old items.now) }
        ensures closed { closed_part self.new ≡ closed_part self.old }
    {
        let len = items.len();
        if len > MOST_ELEMENTS || !self.has_room(1 + len) {
            return Err(StoreFault::Limit);
        }
        let elements = Elements::copy_of(self.allocator(), items)?;
        self.add_array(elements, len)
    }

    /// Puts an element into an array.
    pub fn array_put(&mut self, a: ArrayId, at: u32, value: PsObj) -> Result<(), ReadOnly>
        requires { at < length (elements_of self.old a) }
        ensures changes { Changes result self.old self.new (putting_element self.old a at value) }
        ensures closed { closed_part self.new ≡ closed_part self.old }
    {
        self.array_write(a, at, &[value])
    }

    /// Puts elements into an array from a place on.
    pub fn array_write(&mut self, a: ArrayId, at: u32, items: &[PsObj]) -> Result<(), ReadOnly>
        requires { at + length items.now ≤ length (elements_of self.old a) }
        ensures changes { Changes result self.old self.new (writing_elements self.old a at items.now) }
        ensures closed { closed_part self.new ≡ closed_part self.old }
    {
        if is_closed(a.part, a.index, self.closed.arrays) {
            return Err(ReadOnly);
        }
        match a.part {
            Part::Table => self.table.write_elements(a.index, at as usize, items),
            Part::Command => self.command.write_elements(a.index, at as usize, items),
        }
        Ok(())
    }

    /// Makes an empty dictionary in the part in use.
    pub fn make_dict(&mut self) -> Result<DictId, StoreFault>
        ensures does { Does result self.old self.new (making_dict self.old) }
        ensures closed { closed_part self.new ≡ closed_part self.old }
    {
        if !self.has_room(1) {
            return Err(StoreFault::Limit);
        }
        let part = self.part;
        let added = match part {
            Part::Table => self.table.add_dict(),
            Part::Command => self.command.add_dict(),
        };
        match added {
            Ok(index) => Ok(DictId { part, index }),
            Err(_) => Err(StoreFault::NoMemory),
        }
    }

    /// Adds a text to the part in use, for which there is room.
    fn add_text(&mut self, characters: Characters, len: usize) -> Result<StringId, StoreFault>
        requires length { len ≡ length characters }
        requires short { len ≤ 16777216 }
        requires room { has_room self.old (text_units characters) ≡ true }
        ensures does { Does result self.old self.new (making_string self.old characters) }
        ensures closed { closed_part self.new ≡ closed_part self.old }
    {
        let cost = 1 + len.div_ceil(16) as u32;
        let part = self.part;
        let added = match part {
            Part::Table => self.table.add_string(characters, cost),
            Part::Command => self.command.add_string(characters, cost),
        };
        match added {
            Ok(index) => Ok(StringId { part, index }),
            Err(_) => Err(StoreFault::NoMemory),
        }
    }

    /// Whether a text of so many bytes may be made where `most` are allowed.
    fn takes_text(&self, len: usize, most: usize) -> bool
        requires { most ≤ 16777216 }
        ensures { result ≡ (nat_le len most && has_room self.now (1 + (len + 15) / 16)) }
    {
        len <= most && self.has_room(1 + len.div_ceil(16))
    }

    /// Makes a text of at most `most` bytes in the part in use.
    fn make_text(&mut self, bytes: &[u8], most: usize) -> Result<StringId, StoreFault>
        requires { most ≤ 16777216 }
        ensures does { Does result self.old self.new (making_text most self.old bytes.now) }
        ensures closed { closed_part self.new ≡ closed_part self.old }
    {
        if !self.takes_text(bytes.len(), most) {
            return Err(StoreFault::Limit);
        }
        let characters = Characters::copy_of(self.allocator(), bytes)?;
        self.add_text(characters, bytes.len())
    }

    /// Makes a string of so many zeros in the part in use.
    pub fn make_zeros(&mut self, len: u32) -> Result<StringId, StoreFault>
        ensures does { Does result self.old self.new (making_zeros self.old len) }
        ensures closed { closed_part self.new ≡ closed_part self.old }
    {
        let len = len as usize;
        if !self.takes_text(len, MOST_BYTES) {
            return Err(StoreFault::Limit);
        }
        let characters = Characters::zeros(self.allocator(), len)?;
        self.add_text(characters, len)
    }

    /// Makes a string of these bytes in the part in use.
    pub fn make_string(&mut self, bytes: &[u8]) -> Result<StringId, StoreFault>
        ensures does { Does result self.old self.new (making_string self.old bytes.now) }
        ensures closed { closed_part self.new ≡ closed_part self.old }
    {
        self.make_text(bytes, MOST_BYTES)
    }

    /// Makes a name of these characters in the part in use.
    pub fn make_name(&mut self, text: &[u8]) -> Result<StringId, StoreFault>
        ensures does { Does result self.old self.new (making_name self.old text.now) }
        ensures closed { closed_part self.new ≡ closed_part self.old }
    {
        self.make_text(text, MOST_CHARACTERS)
    }

    /// Puts bytes into a string from a place on.
    pub fn string_write(&mut self, s: StringId, at: u32, bytes: &[u8]) -> Result<(), ReadOnly>
        requires { at + length bytes.now ≤ length (bytes_of self.old s) }
        ensures changes { Changes result self.old self.new (writing_bytes self.old s at bytes.now) }
        ensures closed { closed_part self.new ≡ closed_part self.old }
    {
        if is_closed(s.part, s.index, self.closed.strings) {
            return Err(ReadOnly);
        }
        match s.part {
            Part::Table => self.table.write_bytes(s.index, at as usize, bytes),
            Part::Command => self.command.write_bytes(s.index, at as usize, bytes),
        }
        Ok(())
    }

    /// The pairs of a dictionary, if it is there.
    fn entries(&self, d: DictId) -> Option<&Entries>
        ensures some { IfSome result (λ entries. entries.now ≡ entries_of self.now d) }
        ensures none { IfNone result (entries_of self.now d ≡ []) }
    {
        self.held(d.part).entries(d.index)
    }

    /// The value under a key of a dictionary.
    #[tactic(auto, using(crate::proofs::Pairs::value_there))]
    pub fn dict_get(&self, d: DictId, key: &Key) -> Option<PsObj>
        ensures { result ≡ value_at (entries_of self.now d) key.now }
    {
        let entries = self.entries(d)?;
        entries.value(entries.place_of(key))
    }

    /// The value of a dictionary under the name that a text of the store is. Where no key has the name's bucket, as with
    /// an operator's name that is not a key, it takes no search.
    #[inline(always)]
    #[tactic(auto, using(crate::proofs::Pairs::value_there))]
    pub fn name_get(&self, d: DictId, name: StringId) -> Option<PsObj>
        ensures { result ≡ value_at (entries_of self.now d) (NameKey (bytes_of self.now name)) }
    {
        let entries = self.entries(d)?;
        let text = self.text(name);
        if entries.lacks(text.bucket) {
            return None;
        }
        entries.value(entries.place_of_name(text))
    }

    /// The value of a dictionary under the name with these characters.
    #[tactic(auto, using(crate::proofs::Pairs::value_there))]
    pub fn text_get(&self, d: DictId, text: &[u8]) -> Option<PsObj>
        ensures { result ≡ value_at (entries_of self.now d) (NameKey text.now) }
    {
        let entries = self.entries(d)?;
        entries.value(entries.search(NameQuery::new(text)))
    }

    /// How many pairs a dictionary has.
    pub fn dict_len(&self, d: DictId) -> usize
        ensures { result ≡ length (entries_of self.now d) }
    {
        match self.entries(d) {
            Some(entries) => entries.len(),
            None => 0,
        }
    }

    /// The pair of a dictionary at a place, in the order in which keys were first put. It takes no memory.
    pub fn pair_at(&self, d: DictId, place: usize) -> Option<Pair>
        ensures { result ≡ option_map (λ e. e.1) (slice_get (entries_of self.now d) place) }
    {
        self.entries(d)?.at(place)
    }

    /// Puts another value at a place of a dictionary.
    #[inline(always)]
    fn replace_value(&mut self, d: DictId, place: usize, value: PsObj)
        requires { place < length (entries_of self.old d) }
        ensures { self.new ≡ with_entries self.old d (with_value_in (entries_of self.old d) place value) }
    {
        match d.part {
            Part::Table => self.table.replace_value(d.index, place, value),
            Part::Command => self.command.replace_value(d.index, place, value),
        }
    }

    /// Adds a pair to a dictionary that is not closed, under a key that is not there.
    fn add_pair(&mut self, d: DictId, key: Key, pair: Pair) -> Result<(), StoreFault>
        requires absent { value_at (entries_of self.old d) key ≡ None }
        requires open { is_closed d.part d.index self.old.closed.dicts ≡ false }
        ensures does { Does result self.old self.new (adding_pair self.old d key pair) }
        ensures closed { closed_part self.new ≡ closed_part self.old }
    {
        if self.dict_len(d) >= MOST_ELEMENTS || !self.has_room(1) {
            drop(key);
            return Err(StoreFault::Limit);
        }
        let added = match d.part {
            Part::Table => self.table.add_pair(d.index, key, pair),
            Part::Command => self.command.add_pair(d.index, key, pair),
        };
        match added {
            Ok(()) => Ok(()),
            Err(_) => Err(StoreFault::NoMemory),
        }
    }

    /// The object that a key is. For a name a literal one is made.
    fn make_key(&mut self, key: &Key) -> Result<PsObj, StoreFault>
        ensures does { Does result self.old self.new (key_object self.old key.now) }
        ensures closed { closed_part self.new ≡ closed_part self.old }
    {
        match key {
            Key::Name(text) => {
                let name = self.make_name(text.query().text)?;
                Ok(PsObj::Name(name, false))
            }
            Key::Int(n) => Ok(PsObj::Int(*n)),
            Key::Bool(b) => Ok(PsObj::Bool(*b)),
        }
    }

    /// Puts a value under a new key of a dictionary that is not closed. What was made for the key is dropped where the pair
    /// is refused.
    fn add_value(&mut self, d: DictId, key: Key, value: PsObj) -> Result<(), StoreFault>
        requires absent { value_at (entries_of self.old d) key ≡ None }
        requires open { is_closed d.part d.index self.old.closed.dicts ≡ false }
        ensures does { Does result self.old self.new (adding d key value (key_object self.old key)) }
        ensures closed { closed_part self.new ≡ closed_part self.old }
    {
        let mark = self.mark();
        let object = match self.make_key(&key) {
            Ok(object) => object,
            Err(fault) => {
                drop(key);
                return Err(fault);
            }
        };
        match self.add_pair(d, key, Pair { key: object, value }) {
            Ok(()) => Ok(()),
            Err(fault) => {
                self.cut_back(mark);
                Err(fault)
            }
        }
    }

    /// Puts a value under a key of a dictionary. For a name that is new a name is made, which the pair keeps.
    #[tactic(auto, using(crate::proofs::Putting::put_there, crate::proofs::Putting::put_new, crate::proofs::Pairs::value_nowhere, crate::proofs::Pairs::within_place))]
    pub fn dict_put(&mut self, d: DictId, key: Key, value: PsObj) -> Result<(), StoreFault>
        ensures does { Does result self.old self.new (putting_value self.old d key value) }
        ensures closed { closed_part self.new ≡ closed_part self.old }
    {
        if is_closed(d.part, d.index, self.closed.dicts) {
            drop(key);
            return Err(StoreFault::ReadOnly);
        }
        match self.place_of(d, &key) {
            Some(place) => {
                drop(key);
                self.replace_value(d, place, value);
                Ok(())
            }
            None => self.add_value(d, key, value),
        }
    }

    /// Puts a value of a dictionary under a name of the store, which a new pair keeps.
    #[inline(always)]
    #[tactic(auto, using(crate::proofs::Putting::put_there, crate::proofs::Putting::put_new, crate::proofs::Pairs::value_nowhere, crate::proofs::Pairs::within_place))]
    pub fn name_put(&mut self, d: DictId, name: StringId, value: PsObj) -> Result<(), StoreFault>
        ensures does { Does result self.old self.new (putting_under_name self.old d name value) }
        ensures closed { closed_part self.new ≡ closed_part self.old }
    {
        if self.string_get(name).len() > MOST_CHARACTERS {
            return Err(StoreFault::Limit);
        }
        if is_closed(d.part, d.index, self.closed.dicts) {
            return Err(StoreFault::ReadOnly);
        }
        if let Some(place) = self.place_of_name(d, name) {
            self.replace_value(d, place, value);
            return Ok(());
        }
        self.add_name(d, name, value)
    }

    /// The place of a key in a dictionary.
    fn place_of(&self, d: DictId, key: &Key) -> Option<usize>
        ensures { result ≡ place_of (entries_of self.now d) key.now }
    {
        self.entries(d)?.place_of(key)
    }

    /// The place in a dictionary of the name that a text of the store is.
    #[inline(never)]
    fn place_of_name(&self, d: DictId, name: StringId) -> Option<usize>
        ensures { result ≡ place_of (entries_of self.now d) (NameKey (bytes_of self.now name)) }
    {
        self.entries(d)?.place_of_name(self.text(name))
    }

    /// Puts a value under a new name of a dictionary that is not closed. Its key is made here, apart from where names are
    /// replaced.
    #[inline(never)]
    fn add_name(&mut self, d: DictId, name: StringId, value: PsObj) -> Result<(), StoreFault>
        requires short { length (bytes_of self.old name) ≤ 127 }
        requires absent { value_at (entries_of self.old d) (NameKey (bytes_of self.old name)) ≡ None }
        requires open { is_closed d.part d.index self.old.closed.dicts ≡ false }
        ensures does { Does result self.old self.new (adding_pair self.old d (NameKey (bytes_of self.old name)) (record { key = NameObject name false; value = value })) }
        ensures closed { closed_part self.new ≡ closed_part self.old }
    {
        let pair = Pair {
            key: PsObj::Name(name, false),
            value,
        };
        match Key::of_query(self.text(name).query) {
            Some(key) => self.add_pair(d, key, pair),
            None => Err(StoreFault::Limit),
        }
    }

    /// Puts a value in place of the executable string under a key, in a closed dictionary too.
    #[tactic(auto, using(crate::proofs::Pairs::replaced_there, crate::proofs::Pairs::value_nowhere, crate::proofs::Pairs::within_place))]
    pub fn settle(&mut self, d: DictId, key: &Key, value: PsObj)
        requires { IsTrue (is_deferred (value_at (entries_of self.old d) key.now)) }
        ensures entries { self.new ≡ with_entries self.old d (replaced (entries_of self.old d) key.now value) }
        ensures settled { Settled (closed_part self.old) (closed_part self.new) }
    {
        if let Some(place) = self.place_of(d, key) {
            self.replace_value(d, place, value);
        }
    }

    /// The part in which objects are made.
    pub fn part(&self) -> Part
        ensures { result ≡ self.now.part }
    {
        self.part
    }

    /// Says in which part objects are made from then on.
    pub fn use_part(&mut self, part: Part)
        ensures { self.new ≡ record self.old { part = part } }
    {
        self.part = part;
    }

    /// The table's top dictionary.
    pub fn top(&self) -> Option<DictId>
        ensures { result ≡ self.now.top }
    {
        self.top
    }

    /// Sets the table's top dictionary.
    pub fn set_top(&mut self, d: DictId)
        ensures { self.new ≡ record self.old { top = Some d } }
    {
        self.top = Some(d);
    }

    /// The base dictionaries.
    pub fn base(&self) -> &[DictId]
        ensures { result.now ≡ self.now.base }
    {
        self.base.as_slice()
    }

    /// Puts a dictionary at the end of the base dictionaries.
    pub fn add_base(&mut self, d: DictId) -> Result<(), AllocError>
        ensures ok { OnOk result (self.new ≡ record self.old { base = self.old.base ++ d ∷ [] }) }
        ensures err { OnErr result (self.new ≡ self.old) }
    {
        self.base.push(d)?;
        Ok(())
    }

    /// Makes all present objects of the table's part read-only.
    pub fn close_all(&mut self)
        ensures all { self.new ≡ record self.old { closed = mark_of self.old.table } }
        ensures settled { Settled (closed_part self.old) (closed_part self.new) }
    {
        self.closed = self.table.mark();
    }

    /// The objects that are there in the part in use.
    pub fn mark(&self) -> Mark
        ensures mark { result ≡ mark_of (held self.now self.now.part) }
        ensures counted { IsMark result }
        ensures keeps { KeepsClosed self.now result }
    {
        self.held(self.part).mark()
    }

    /// Drops what was made in the part in use since the mark.
    pub fn cut_back(&mut self, mark: Mark)
        requires counted { IsMark mark }
        requires keeps { KeepsClosed self.old mark }
        ensures cut { self.new ≡ with_held self.old self.old.part (cut (held self.old self.old.part) mark) }
        ensures closed { closed_part self.new ≡ closed_part self.old }
    {
        match self.part {
            Part::Table => self.table.cut(mark),
            Part::Command => self.command.cut(mark),
        }
    }
}
