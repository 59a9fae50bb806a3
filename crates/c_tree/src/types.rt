// Types of C (C90 6.1.2.5), as far as the profile has them.

use ldb_words::{Kind, Many, Text};
use std::rc::Rc;

/// A type. Its copies share what it points to or holds.
#[derive(Drop)]
pub enum CType {
    /// `char`: 8 bits with a sign.
    Char,
    /// `int`: 32 bits with a sign.
    Int,
    /// `unsigned`: 32 bits.
    Unsigned,
    /// `void`, which no object has.
    Void,
    /// A pointer to this type: 32 bits.
    Pointer(Rc<CType>),
    /// So many items of this type, from 1 to 1,048,576; 0 where the bound is not given.
    Array(Rc<CType>, u32),
    /// A struct, by its number in the list of structs.
    Struct(u32),
}

/// A struct: its tag, its size in bytes, and its members in order. One that is not complete has no members.
#[derive(Drop)]
pub struct StructDef {
    pub tag: Text,
    pub size: u32,
    pub members: Many<Member>,
}

/// A member of a struct: its name, its offset in bytes, and its type.
#[derive(Drop)]
pub struct Member {
    pub name: Text,
    pub at: u32,
    pub ctype: CType,
}

/// A scalar that an object of a type has: its offset in bytes, and what it holds.
#[derive(Clone, Copy, PartialEq, Eq, Debug)]
pub struct Leaf {
    pub at: u32,
    pub kind: Kind,
}
