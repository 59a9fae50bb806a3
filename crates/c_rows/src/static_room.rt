// How large the static data of a program are.
ghost use Rattle.std.specs.Prelude.{◌≡◌, ◌+◌, ◌≤◌, sum, map};
ghost use Rattle.std.specs.Int.{next_multiple_of};
ghost use Rattle.c_typing.specs.Plain.{plain};
ghost use Rattle.c_judge.specs.Parts.{IsWithinSize};
ghost use Rattle.c_typing.specs.Values.{size_of as bytes_of};
ghost use Rattle.c_mentions.specs.Tags.{now};
ghost use Rattle.c_rows.specs.Rooms.{room_for, room_of, text_room};

use c_tree::{CType, LARGEST, StructDef, size_of};
use ldb_words::Text;

/// The size of a type, where it is at most 1,048,576 bytes.
#[tactic(auto, using(c_scope::proofs::Sizes::size_of_plain))]
fn size_within(defs: &[StructDef], t: &CType) -> Option<u32>
    ensures { IsWithinSize (bytes_of defs.now (plain t.now)) result }
{
    size_of(t, defs).ok()
}

/// What there is with one object or string more of a size.
fn with_one(total: u32, size: u32) -> Option<u32>
    requires total { total ≤ 1048576 }
    requires size { size ≤ 1048576 }
    ensures { IsWithinSize (total + room_for size) result }
{
    let all = total + size + (4 - size % 4) % 4 + 4;
    if all > LARGEST {
        return None;
    }
    Some(all)
}

/// What there is with an object of a type more.
fn with_object(defs: &[StructDef], total: u32, t: &CType) -> Option<u32>
    requires { total ≤ 1048576 }
    ensures { IsWithinSize (total + room_of defs.now (plain t.now)) result }
{
    match size_within(defs, t) {
        None => None,
        Some(size) => with_one(total, size),
    }
}

/// What there is with a string more.
fn with_string(total: u32, text: &Text) -> Option<u32>
    requires { total ≤ 1048576 }
    ensures { IsWithinSize (total + text_room text.now) result }
{
    let len = text.len();
    if len >= LARGEST as usize {
        return None;
    }
    with_one(total, len as u32 + 1)
}

/// How much room the objects of some types take, where that is at most 1,048,576 bytes.
fn objects_room(defs: &[StructDef], types: &[CType]) -> Option<u32>
    ensures { IsWithinSize (sum (map (room_of defs.now) (map plain types.now))) result }
{
    let mut total = 0;
    for t in types {
        match with_object(defs, total, t) {
            None => return None,
            Some(more) => total = more,
        }
    }
    Some(total)
}

/// The same with some strings more.
fn strings_room(objects: u32, strings: &[&Text]) -> Option<u32>
    requires { objects ≤ 1048576 }
    ensures { IsWithinSize (objects + sum (map text_room (map now strings.now))) result }
{
    let mut total = objects;
    for text in strings {
        match with_string(total, *text) {
            None => return None,
            Some(more) => total = more,
        }
    }
    Some(total)
}

/// How much room objects of some types and some strings take, where that is at most 1,048,576 bytes.
pub fn room(defs: &[StructDef], types: &[CType], strings: &[&Text]) -> Option<u32>
    ensures { IsWithinSize (sum (map (room_of defs.now) (map plain types.now)) + sum (map text_room (map now strings.now))) result }
{
    match objects_room(defs, types) {
        None => None,
        Some(objects) => strings_room(objects, strings),
    }
}
