// What is kept of a struct.
ghost use Rattle.std.specs.Prelude.{◌≡◌, option_map};
ghost use Rattle.std.specs.Option.{is_some};
ghost use Rattle.c_typing.specs.Plain.{plain, is_struct};
ghost use Rattle.c_defs.specs.Numbers.{number_in};
ghost use Rattle.c_defs.specs.Members.{in_word};
ghost use Rattle.c_defs.specs.Kept.{row_at, is_settled};
ghost use Rattle.c_defs.specs.Depths.{are_within};

use crate::numbers::Numbers;
use c_tree::{CType, Member};

/// What is kept of a complete struct.
#[derive(Drop)]
pub struct StructRow<'n> {
    /// How deep the deepest of its members is; 64 stands for a deeper one.
    pub deepest: u32,
    /// Whether a member is aligned at 4 bytes. The others are aligned at 1.
    pub wide: bool,
    /// How many leaves its members have, where they are fewer than 2^32.
    pub leaves: Option<u32>,
    /// The members' numbers by their names.
    pub numbers: Numbers<'n>,
}

impl<'n> StructRow<'n> {
    /// The number of the member with a name.
    pub fn number(&self, name: &'n [u8]) -> Option<u32>
        ensures { result ≡ in_word (number_in self.now.numbers name.now) }
    {
        match self.numbers.find(name) {
            None => None,
            Some(m) => Some(m),
        }
    }
}

/// The row of a struct by its number, where there is one.
pub fn row_at<'a, 'n>(rows: &'a [Option<StructRow<'n>>], s: u32) -> Option<&'a StructRow<'n>>
    ensures { option_map (λ r. r.now) result ≡ row_at rows.now s }
{
    match rows.get(s as usize) {
        None => None,
        Some(None) => None,
        Some(Some(row)) => Some(row),
    }
}

/// Whether a type is a struct.
pub fn is_struct(t: &CType) -> bool
    ensures { result ≡ is_struct (plain t.now) }
{
    match t {
        CType::Struct(_) => true,
        _ => false,
    }
}

/// Whether each struct that a type holds has a row.
fn is_settled(rows: &[Option<StructRow<'_>>], t: &CType) -> bool
    ensures { result ≡ is_settled rows.now (plain t.now) }
{
    match t {
        CType::Pointer(target) => is_struct(target) || is_settled(rows, target),
        CType::Array(item, _) => is_settled(rows, item),
        CType::Struct(s) => row_at(rows, *s).is_some(),
        CType::Char | CType::Int | CType::Unsigned | CType::Void => true,
    }
}

/// Whether each struct that some members hold has a row.
pub fn are_settled(rows: &[Option<StructRow<'_>>], members: &[Member]) -> bool
    ensures { result ≡ are_within (is_settled rows.now) members.now }
{
    for member in members {
        if !is_settled(rows, &member.ctype) {
            return false;
        }
    }
    true
}
