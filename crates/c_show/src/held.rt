// What a leaf holds, as it is shown.

use ldb_words::Text;

/// What a leaf of an object holds.
#[derive(Drop)]
pub enum Held {
    /// A number, by its bits.
    Number(u32),
    /// The null pointer.
    Null,
    /// A pointer into an object: the object's label, the offset in bytes, and where the pointer is to a `char` of an object the bytes from there up to the first NUL.
    /// Of these 201 are enough.
    At {
        label: Text,
        offset: u32,
        string: Option<Text>,
    },
}
