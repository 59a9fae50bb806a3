// What objects have to keep before they are linked: one known target, whole words, and names and rows that point into their text.

ghost use Rattle.std.specs.Prelude.{◌≡◌, ◌&&◌, length};
ghost use Rattle.std.specs.List.{list_all};
ghost use Rattle.link_image.specs.Conditions.{is_known, is_for, has_whole_words, name_lies, point_lies, row_lies, has_rows_inside};

use machine_state::{MIPS, SPARC};
use obj_file::{FunctionRow, Name, Object};

/// Whether objects are for a target, which is known.
pub fn are_for(target: u8, objects: &[Object]) -> bool
    ensures { result ≡ (is_known target && list_all (is_for target) objects.now) }
{
    if target != MIPS && target != SPARC {
        return false;
    }
    for object in objects {
        if object.target != target {
            return false;
        }
    }
    true
}

/// Whether the text of each object is of whole words.
pub fn have_whole_words(objects: &[Object]) -> bool
    ensures { result ≡ list_all has_whole_words objects.now }
{
    for object in objects {
        if object.text.len() % 4 != 0 {
            return false;
        }
    }
    true
}

/// Whether names point into a text of so many bytes.
fn names_lie(size: usize, names: &[Name]) -> bool
    ensures { result ≡ list_all (name_lies size) names.now }
{
    for name in names {
        if name.at as usize >= size {
            return false;
        }
    }
    true
}

/// Whether points lie in a text of so many bytes.
fn points_lie(size: usize, points: &[u32]) -> bool
    ensures { result ≡ list_all (point_lies size) points.now }
{
    for at in points {
        if *at as usize >= size {
            return false;
        }
    }
    true
}

/// Whether the row of a function points into a text of so many bytes.
fn row_lies(size: usize, row: &FunctionRow) -> bool
    ensures { result ≡ row_lies size row.now }
{
    if row.entry > row.end {
        return false;
    }
    if row.end as usize > size {
        return false;
    }
    points_lie(size, row.points.as_slice())
}

/// Whether the rows of functions point into a text of so many bytes.
fn rows_lie(size: usize, rows: &[FunctionRow]) -> bool
    ensures { result ≡ list_all (row_lies size) rows.now }
{
    for row in rows {
        if !row_lies(size, row) {
            return false;
        }
    }
    true
}

/// Whether the names and rows of an object point into its text.
fn has_rows_inside(object: &Object) -> bool
    ensures { result ≡ has_rows_inside object.now }
{
    let size = object.text.len();
    if !names_lie(size, object.names.as_slice()) {
        return false;
    }
    rows_lie(size, object.functions.as_slice())
}

/// Whether the names and rows of each object point into its text.
pub fn have_rows_inside(objects: &[Object]) -> bool
    ensures { result ≡ list_all has_rows_inside objects.now }
{
    for object in objects {
        if !has_rows_inside(object) {
            return false;
        }
    }
    true
}
