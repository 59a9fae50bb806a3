// Dictionaries of types, made anew for a value that is shown.

ghost use Rattle.std.specs.Prelude.{◌≡◌};
ghost use Rattle.ps_store.specs.Store.{closed_part};

use c_tree::{CType, Member, StructDef, members, size_of};
use ps_store::{DictId, Key, PsObj, PsStore, StoreFault};
use std::alloc::Global;

/// The deepest that a type may be.
const DEEPEST: u32 = 64;

/// How many items of a value are shown.
const MOST_ITEMS: u32 = 1_000;

/// The name of the kind of a type, and that of its printer.
fn words_of(t: &CType) -> (&'static [u8], &'static [u8]) {
    match t {
        CType::Char => (b"char", b"PrintChar"),
        CType::Unsigned => (b"unsigned", b"PrintUnsigned"),
        CType::Pointer(_) => (b"pointer", b"PrintPointer"),
        CType::Array(_, _) => (b"array", b"PrintArray"),
        CType::Struct(_) => (b"struct", b"PrintStruct"),
        CType::Int | CType::Void => (b"int", b"PrintInt"),
    }
}

/// Puts a value under a name of the dialect.
fn put(store: &mut PsStore, d: DictId, name: &[u8], value: PsObj) -> Result<(), StoreFault>
    ensures closed { closed_part store.new ≡ closed_part store.old }
{
    match Key::name(name) {
        Some(key) => store.dict_put(d, key, value),
        None => Err(StoreFault::Limit),
    }
}

/// Who makes the dictionaries: the structs, the prelude's dictionary with the printers, the dictionaries of structs that were made, and how many
/// items may still be shown.
#[derive(Drop)]
struct Dresser<'a> {
    alloc: Global,
    defs: &'a [StructDef],
    prelude: DictId,
    made: Vec<Option<DictId>>,
    room: u32,
    plain: DictId,
}

impl Dresser<'_> {
    /// A dictionary with the kind of a type.
    fn begun(&self, store: &mut PsStore, t: &CType) -> Result<DictId, StoreFault>
        ensures closed { closed_part store.new ≡ closed_part store.old }
    {
        let d = store.make_dict()?;
        let (kind, _) = words_of(t);
        let name = store.make_name(kind)?;
        put(store, d, b"kind", PsObj::Name(name, false))?;
        Ok(d)
    }

    /// The same with the size and the printer.
    fn with_printer(&self, store: &mut PsStore, t: &CType) -> Result<DictId, StoreFault>
        ensures closed { closed_part store.new ≡ closed_part store.old }
    {
        let d = self.begun(store, t)?;
        let size = size_of(t, self.defs).unwrap_or(0);
        put(store, d, b"size", PsObj::Int(size.cast_signed()))?;
        let (_, printer) = words_of(t);
        let printer = store.text_get(self.prelude, printer).unwrap_or(PsObj::Null);
        put(store, d, b"printer", printer)?;
        Ok(d)
    }
}

/// The dictionary of a type. Of what a pointer points to only the kind is asked.
#[cycle(dressing)]
fn dress(
    dresser: &mut Dresser<'_>,
    store: &mut PsStore,
    deep: u32,
    t: &CType,
) -> Result<DictId, StoreFault>
    ensures closed { closed_part store.new ≡ closed_part store.old }
{
    if deep == 0 {
        return Err(StoreFault::Limit);
    }
    match t {
        CType::Pointer(to) => {
            let d = dresser.with_printer(store, t)?;
            let target = dresser.begun(store, to)?;
            put(store, d, b"to", PsObj::Dict(target))?;
            Ok(d)
        }
        CType::Array(item, n) => {
            let d = dresser.with_printer(store, t)?;
            let of = dress(dresser, store, deep - 1, item)?;
            put(store, d, b"to", PsObj::Dict(of))?;
            put(store, d, b"count", PsObj::Int(n.cast_signed()))?;
            Ok(d)
        }
        CType::Struct(s) => dress_struct(dresser, store, deep, t, *s),
        CType::Char | CType::Int | CType::Unsigned | CType::Void => dresser.with_printer(store, t),
    }
}

/// The dictionary of a struct, which is made once.
#[cycle(dressing)]
fn dress_struct(
    dresser: &mut Dresser<'_>,
    store: &mut PsStore,
    deep: u32,
    t: &CType,
    s: u32,
) -> Result<DictId, StoreFault>
    ensures closed { closed_part store.new ≡ closed_part store.old }
{
    if deep == 0 {
        return Err(StoreFault::Limit);
    }
    if let Some(Some(d)) = dresser.made.get(s as usize) {
        return Ok(*d);
    }
    let d = dresser.with_printer(store, t)?;
    let mut rows = Vec::new(dresser.alloc);
    let defs = dresser.defs;
    for member in members(defs, s) {
        let ctype = dress_member(dresser, store, deep - 1, member)?;
        let name = store.make_string(member.name.as_bytes())?;
        let row = [
            PsObj::Str(name, false),
            PsObj::Int(member.at.cast_signed()),
            PsObj::Dict(ctype),
        ];
        let row = store.make_array_of(&row)?;
        if rows.push(PsObj::Array(row, false)).is_err() {
            return Err(StoreFault::NoMemory);
        }
    }
    let rows = store.make_array_of(rows.as_slice())?;
    put(store, d, b"members", PsObj::Array(rows, false))?;
    if let Some(place) = dresser.made.get_mut(s as usize) {
        *place = Some(d);
    }
    Ok(d)
}

/// Whether a type is a struct or an array of structs.
fn holds_structs(t: &CType) -> bool {
    match t {
        CType::Array(item, _) => holds_structs(item),
        CType::Struct(_) => true,
        CType::Char | CType::Int | CType::Unsigned | CType::Void | CType::Pointer(_) => false,
    }
}

/// The dictionary of a member's type. One behind the items that are shown is never asked: a member without structs is shown as one item or more, and one
/// with structs as those of its struct's members.
#[cycle(dressing)]
fn dress_member(
    dresser: &mut Dresser<'_>,
    store: &mut PsStore,
    deep: u32,
    member: &Member,
) -> Result<DictId, StoreFault>
    ensures closed { closed_part store.new ≡ closed_part store.old }
{
    if dresser.room == 0 {
        return Ok(dresser.plain);
    }
    if !holds_structs(&member.ctype) {
        dresser.room -= 1;
    }
    dress(dresser, store, deep, &member.ctype)
}

/// The dictionary of a type, with the printers of the prelude.
pub fn type_of_value(
    alloc: Global,
    store: &mut PsStore,
    prelude: DictId,
    defs: &[StructDef],
    t: &CType,
) -> Result<DictId, StoreFault>
    ensures closed { closed_part store.new ≡ closed_part store.old }
{
    let plain = store.make_dict()?;
    let name = store.make_name(b"int")?;
    put(store, plain, b"kind", PsObj::Name(name, false))?;
    let mut made = Vec::new(alloc);
    for _ in 0..defs.len() {
        if made.push(None).is_err() {
            return Err(StoreFault::NoMemory);
        }
    }
    let mut dresser = Dresser {
        alloc,
        defs,
        prelude,
        made,
        room: MOST_ITEMS,
        plain,
    };
    dress(&mut dresser, store, DEEPEST, t)
}
