// What a table tells of the names and tags of an expression.

ghost use Rattle.std.specs.Prelude.{◌≡◌};
ghost use Rattle.ps_store.specs.Store.{closed_part};
ghost use Rattle.table_asks.specs.Faults.{IsUnbroken};

use crate::depths::{Beyond, Extent, UNASKED, extent_within, small_size, struct_extent};
use c_judge::{Symbol, array_of, pointer_to};
use c_tree::{CType, Member, StructDef};
use ldb_words::{Many, Text};
use ps_places::error_of;
use ps_store::{ArrayId, DictId, PsObj, PsStore, StoreFault, StringId};
use std::alloc::{AllocError, Global};
use table_asks::AskFault;
use table_model::Lack;
use table_read::{dict_at, dict_in, entry, number_at, procedure_at, top_of};
use table_types::{TypeKind, member_in, type_kind};

/// The deepest that a type may be.
const DEEPEST: u32 = 64;

/// The most structs of a table.
const MOST_STRUCTS: usize = 8_000_000;

/// Why a table doesn't tell a type.
#[derive(Clone, Copy)]
pub enum Want {
    Lacks(Lack),
    NoMemory,
}

impl From<AllocError> for Want {
    fn from(_: AllocError) -> Self {
        Want::NoMemory
    }
}

impl From<Lack> for Want {
    fn from(lack: Lack) -> Self {
        Want::Lacks(lack)
    }
}

impl From<Beyond> for Want {
    fn from(why: Beyond) -> Self {
        match why {
            Beyond::Depth => Want::Lacks(Lack::TooDeep),
            Beyond::Parts => Want::NoMemory,
        }
    }
}

/// What a command keeps for itself in the store is none of its table's: where there is no room for it, there is no memory.
impl From<StoreFault> for Want {
    fn from(_: StoreFault) -> Self {
        Want::NoMemory
    }
}

/// What a command answers where a table doesn't tell a type.
pub fn wanted(want: Want) -> AskFault
    ensures { IsUnbroken result }
{
    match want {
        Want::Lacks(lack) => AskFault::Raised(error_of(lack)),
        Want::NoMemory => AskFault::NoMemory,
    }
}

/// The structs that the names and tags lead to so far; one that is not complete has no members. Each was read once.
#[derive(Drop)]
pub struct Known {
    alloc: Global,
    /// The number of each tag, in a dictionary of the command.
    tags: DictId,
    pub defs: Vec<StructDef>,
    /// How deep and how large inside each struct is, as far as it was asked.
    extents: Vec<Extent>,
    /// Of how many structs the limits were asked.
    checked: usize,
}

/// The number of a struct by its place; a table has far fewer than 2^32.
fn as_number(place: usize) -> u32 {
    u32::try_from(place).unwrap_or(u32::MAX)
}

/// The name under a key.
fn name_at(store: &PsStore, d: DictId, key: &[u8]) -> Result<StringId, Lack> {
    match entry(store, d, key)? {
        PsObj::Name(text, _) => Ok(text),
        _ => Err(Lack::WrongType),
    }
}

/// Whether a symbol is of a function; the other ones are of variables.
fn is_function(store: &PsStore, symbol: DictId) -> Result<bool, Lack> {
    let kind = name_at(store, symbol, b"kind")?;
    let text = store.string_get(kind);
    if text == b"function".as_slice() {
        Ok(true)
    } else if text == b"variable".as_slice() {
        Ok(false)
    } else {
        Err(Lack::WrongType)
    }
}

/// Whether an object is the word of a register's place.
fn is_register_word(store: &PsStore, object: PsObj) -> bool {
    match object {
        PsObj::Name(text, true) => store.string_get(text) == b"Register".as_slice(),
        _ => false,
    }
}

/// Whether a symbol's procedure says that it is a register. Where it is no procedure, what is lacked is met by who runs it.
fn is_register(store: &PsStore, symbol: DictId) -> bool {
    match procedure_at(store, symbol, b"where") {
        Ok(items) => items.iter().any(|item| is_register_word(store, *item)),
        Err(_) => false,
    }
}

/// The members of the struct with a tag by the table; none where the table hasn't the tag.
fn struct_told(store: &PsStore, tag: &[u8]) -> Result<Option<(DictId, ArrayId)>, Lack> {
    let top = top_of(store)?;
    let structs = dict_at(store, top, b"structs")?;
    match store.text_get(structs, tag) {
        None => Ok(None),
        Some(object) => {
            let t = dict_in(object)?;
            match entry(store, t, b"members")? {
                PsObj::Array(a, _) => Ok(Some((t, a))),
                _ => Err(Lack::WrongType),
            }
        }
    }
}

/// Adds a struct whose extent wasn't asked yet.
fn add_struct(
    defs: &mut Vec<StructDef>,
    extents: &mut Vec<Extent>,
    def: StructDef,
) -> Result<(), AllocError> {
    extents.push(UNASKED)?;
    defs.push(def)?;
    Ok(())
}

impl Known {
    /// No structs.
    pub fn new(alloc: Global, store: &mut PsStore) -> Result<Known, Want>
        ensures closed { closed_part store.new ≡ closed_part store.old }
    {
        let tags = store.make_dict()?;
        Ok(Known {
            alloc,
            tags,
            defs: Vec::new(alloc),
            extents: Vec::new(alloc),
            checked: 0,
        })
    }

    /// The number of the struct with a tag, which joins the others if it is new.
    fn number_of(&mut self, store: &mut PsStore, tag: StringId) -> Result<u32, Want>
        ensures closed { closed_part store.new ≡ closed_part store.old }
    {
        if let Some(PsObj::Int(n)) = store.name_get(self.tags, tag) {
            return Ok(n.cast_unsigned());
        }
        let number = as_number(self.defs.len());
        let tag_text = Text::from_slice(self.alloc, store.string_get(tag))?;
        store.name_put(self.tags, tag, PsObj::Int(number.cast_signed()))?;
        let def = StructDef {
            tag: tag_text,
            size: 0,
            members: Many::new(self.alloc),
        };
        add_struct(&mut self.defs, &mut self.extents, def)?;
        Ok(number)
    }

    /// The struct that a type is.
    fn read_tagged(&mut self, store: &mut PsStore, t: DictId) -> Result<CType, Want>
        ensures closed { closed_part store.new ≡ closed_part store.old }
    {
        let tag = name_at(store, t, b"tag")?;
        let number = self.number_of(store, tag)?;
        Ok(CType::Struct(number))
    }

    /// The members of a struct.
    fn read_members(&mut self, store: &mut PsStore, rows: ArrayId) -> Result<Many<Member>, Want>
        ensures closed { closed_part store.new ≡ closed_part store.old }
    {
        let mut members = Many::new(self.alloc);
        for i in 0..store.array_get(rows).len() {
            let object = store.array_get(rows).get(i).copied().unwrap_or(PsObj::Null);
            let row = member_in(store, object)?;
            let name = Text::from_slice(self.alloc, store.string_get(row.name))?;
            let ctype = read(self, store, DEEPEST, row.ctype)?;
            members.push(Member {
                name,
                at: row.at,
                ctype,
            })?;
        }
        Ok(members)
    }

    /// Reads the struct with a number.
    fn read_struct(&mut self, store: &mut PsStore, number: usize) -> Result<(), Want>
        ensures closed { closed_part store.new ≡ closed_part store.old }
    {
        let told = match self.defs.get(number) {
            None => return Ok(()),
            Some(def) => struct_told(store, def.tag.as_bytes())?,
        };
        let Some((t, rows)) = told else {
            return Ok(());
        };
        if store.array_get(rows).is_empty() {
            return Ok(());
        }
        let size = number_at(store, t, b"size")?;
        let members = self.read_members(store, rows)?;
        if let Some(def) = self.defs.get_mut(number) {
            def.size = size;
            def.members = members;
        }
        Ok(())
    }

    /// Reads the structs from one on, and those that they lead to.
    fn read_structs(&mut self, store: &mut PsStore, from: usize) -> Result<(), Want>
        ensures closed { closed_part store.new ≡ closed_part store.old }
    {
        for number in from..MOST_STRUCTS {
            if number >= self.defs.len() {
                return Ok(());
            }
            self.read_struct(store, number)?;
        }
        Ok(())
    }

    /// Asks the limits of a struct.
    fn check_struct(&mut self, number: usize) -> Result<(), Want> {
        let defs = self.defs.as_slice();
        let Some(def) = defs.get(number) else {
            return Ok(());
        };
        let is_small = small_size(defs, &CType::Struct(as_number(number))).is_some()
            && def
                .members
                .as_slice()
                .iter()
                .all(|member| small_size(defs, &member.ctype).is_some());
        if !is_small {
            return Err(Want::Lacks(Lack::TooDeep));
        }
        struct_extent(defs, &mut self.extents, DEEPEST, as_number(number))?;
        Ok(())
    }

    /// Asks the limits of the structs that are new: at most 64 deep, of at most 1,048,576 bytes, and with no more inside than there is
    /// memory for.
    fn check_structs(&mut self) -> Result<(), Want> {
        for number in self.checked..self.defs.len() {
            self.check_struct(number)?;
        }
        self.checked = self.defs.len();
        Ok(())
    }

    /// Asks the limits of a type.
    fn check_type(&mut self, t: &CType) -> Result<(), Want> {
        let defs = self.defs.as_slice();
        if small_size(defs, t).is_none() {
            return Err(Want::Lacks(Lack::TooDeep));
        }
        extent_within(defs, &mut self.extents, DEEPEST, t)?;
        Ok(())
    }

    /// A type of the table with every struct that it leads to.
    fn whole_type(&mut self, store: &mut PsStore, t: DictId) -> Result<CType, Want>
        ensures closed { closed_part store.new ≡ closed_part store.old }
    {
        let from = self.defs.len();
        let ctype = read(self, store, DEEPEST, t)?;
        self.read_structs(store, from)?;
        self.check_type(&ctype)?;
        self.check_structs()?;
        Ok(ctype)
    }

    /// What a name means that has a symbol.
    pub fn symbol_told(
        &mut self,
        store: &mut PsStore,
        name: Text,
        symbol: DictId,
    ) -> Result<Symbol, Want>
        ensures closed { closed_part store.new ≡ closed_part store.old }
    {
        if is_function(store, symbol)? {
            return Ok(Symbol {
                name,
                ctype: CType::Int,
                register: false,
                function: true,
            });
        }
        let t = dict_at(store, symbol, b"type")?;
        let ctype = self.whole_type(store, t)?;
        let register = is_register(store, symbol);
        Ok(Symbol {
            name,
            ctype,
            register,
            function: false,
        })
    }

    /// Reads the struct with a tag and those that it leads to.
    pub fn tag_told(&mut self, store: &mut PsStore, tag: &[u8]) -> Result<(), Want>
        ensures closed { closed_part store.new ≡ closed_part store.old }
    {
        let from = self.defs.len();
        let name = store.make_name(tag)?;
        self.number_of(store, name)?;
        self.read_structs(store, from)?;
        self.check_structs()
    }

    /// The structs.
    pub fn into_defs(self) -> Vec<StructDef> {
        self.defs
    }
}

/// A type of the table, of which at most so many levels are read.
#[cycle(reading)]
fn read(known: &mut Known, store: &mut PsStore, deep: u32, t: DictId) -> Result<CType, Want>
    ensures closed { closed_part store.new ≡ closed_part store.old }
{
    if deep == 0 {
        return Err(Want::Lacks(Lack::TooDeep));
    }
    match type_kind(store, t)? {
        TypeKind::Int => Ok(CType::Int),
        TypeKind::Unsigned => Ok(CType::Unsigned),
        TypeKind::Char => Ok(CType::Char),
        TypeKind::Struct => known.read_tagged(store, t),
        TypeKind::Pointer => {
            let to = dict_at(store, t, b"to")?;
            read_pointer(known, store, deep, to)
        }
        TypeKind::Array => {
            let item = dict_at(store, t, b"to")?;
            let count = number_at(store, t, b"count")?;
            let read = read(known, store, deep - 1, item)?;
            Ok(array_of(known.alloc, read, count)?)
        }
    }
}

/// A pointer to a type; one to a struct leads no deeper.
#[cycle(reading)]
fn read_pointer(
    known: &mut Known,
    store: &mut PsStore,
    deep: u32,
    to: DictId,
) -> Result<CType, Want>
    ensures closed { closed_part store.new ≡ closed_part store.old }
{
    if deep == 0 {
        return Err(Want::Lacks(Lack::TooDeep));
    }
    let target = match type_kind(store, to)? {
        TypeKind::Struct => known.read_tagged(store, to)?,
        _ => read(known, store, deep - 1, to)?,
    };
    Ok(pointer_to(known.alloc, target)?)
}
