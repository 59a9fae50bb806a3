// Why no image is made of objects.

use ldb_words::Text;
use std::alloc::AllocError;

/// What is wrong with objects of which no image is made, or that there was no memory. Of several causes any may be told.
#[derive(Drop)]
pub enum LinkFault {
    /// They are not all for one known target.
    Target,
    /// A text is not of whole words.
    Words,
    /// The texts together have fewer than 4 or more than 16,777,216 bytes.
    Size,
    /// A static object does not lie in the data region.
    Statics,
    /// A name or the row of a function points out of its text.
    Rows,
    /// A use does not lie in its text or its object's static bytes, or is none of a word in static bytes.
    Uses,
    /// A name that is used is not defined.
    Unresolved { name: Text },
    /// A name that is used is defined more than once.
    Doubled { name: Text },
    NoMemory,
}

impl From<AllocError> for LinkFault {
    ghost use Rattle.std.specs.Prelude.{◌≡◌};
    ghost use Rattle.link_image.specs.declared.fault.LinkFault.TheVariants.{NoMemory};

    ghost from_gives = { λ _ e. e ≡ NoMemory };

    fn from(_: AllocError) -> Self {
        LinkFault::NoMemory
    }
}
