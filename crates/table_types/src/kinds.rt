// Kinds of types, and members.

ghost use Rattle.std.specs.Prelude.{◌≡◌};
ghost use Rattle.table_read.specs.Reads.{in_ok};
ghost use Rattle.table_model.specs.Reading.{name_at, string_in};
ghost use Rattle.table_model.specs.Types.{kind_named, type_kind, member_in};
ghost use Rattle.table_types.specs.Views.{kind_of, row_of};

use ps_store::{DictId, PsObj, PsStore, StringId};
use table_model::Lack;
use table_read::{dict_in, entry, items_in, number_in};

/// A kind of type.
#[derive(Clone, Copy)]
pub enum TypeKind {
    Int,
    Unsigned,
    Char,
    Pointer,
    Array,
    Struct,
}

/// A member of a struct: its name, its offset in bytes and its type.
#[derive(Clone, Copy)]
pub struct MemberRow {
    pub name: StringId,
    pub at: u32,
    pub ctype: DictId,
}

/// The characters of the name under a key.
fn name_at<'a>(store: &'a PsStore, d: DictId, key: &[u8]) -> Result<&'a [u8], Lack>
    ensures { in_ok (λ text. text.now) result ≡ name_at store.now d key.now }
{
    match entry(store, d, key)? {
        PsObj::Name(text, _) => Ok(store.string_get(text)),
        _ => Err(Lack::WrongType),
    }
}

/// The kind with a name.
fn kind_named(text: &[u8]) -> Result<TypeKind, Lack>
    ensures { in_ok kind_of result ≡ kind_named text.now }
{
    if text == b"int".as_slice() {
        Ok(TypeKind::Int)
    } else if text == b"unsigned".as_slice() {
        Ok(TypeKind::Unsigned)
    } else if text == b"char".as_slice() {
        Ok(TypeKind::Char)
    } else if text == b"pointer".as_slice() {
        Ok(TypeKind::Pointer)
    } else if text == b"array".as_slice() {
        Ok(TypeKind::Array)
    } else if text == b"struct".as_slice() {
        Ok(TypeKind::Struct)
    } else {
        Err(Lack::WrongType)
    }
}

/// The kind of a type.
pub fn type_kind(store: &PsStore, t: DictId) -> Result<TypeKind, Lack>
    ensures { in_ok kind_of result ≡ type_kind store.now t }
{
    let text = name_at(store, t, b"kind")?;
    kind_named(text)
}

/// The string that an object is.
fn string_in(object: PsObj) -> Result<StringId, Lack>
    ensures { result ≡ string_in object }
{
    match object {
        PsObj::Str(text, _) => Ok(text),
        _ => Err(Lack::WrongType),
    }
}

/// The row of a member.
pub fn member_in(store: &PsStore, object: PsObj) -> Result<MemberRow, Lack>
    ensures { in_ok (λ m. row_of store.now m.name m.at m.ctype) result ≡ member_in store.now object }
{
    match items_in(store, object)? {
        [name, at, ctype] => {
            let name = string_in(*name)?;
            let at = number_in(*at)?;
            let ctype = dict_in(*ctype)?;
            Ok(MemberRow { name, at, ctype })
        }
        _ => Err(Lack::WrongType),
    }
}
