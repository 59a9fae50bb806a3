// How structs are copied: leaf by leaf, and no padding, since a pointer may go past a member inside its object.

use ldb_words::{Kind, Many};

/// A step of a copy, which goes on at two places, where a struct is copied from and where to.
#[derive(Clone, Copy, PartialEq, Eq, Debug)]
pub enum MoveStep {
    /// A leaf is copied. Both places move past it: to behind it in a copy that ascends, and to its start, before it is copied, in one that descends.
    Leaf(Kind),
    /// Both places move on by some bytes, modulo 2^32.
    Skip(u32),
    /// So many items follow, the next step each time, up to the step behind it. The count is kept in a word.
    Items(u32),
    /// An item is done. Where more are left, the step before this one comes next.
    Again,
    /// A struct by its number, whose copy keeps its words behind so many of this one.
    Struct { number: u32, words: u8 },
}

/// How a struct is copied: its size, and its steps from the first leaf on, and from the last leaf back.
#[derive(Drop)]
pub struct Mover {
    pub size: u32,
    pub ascending: Many<MoveStep>,
    pub descending: Many<MoveStep>,
}
