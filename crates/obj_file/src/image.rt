// An image in memory.

ghost use Rattle.std.specs.Prelude.{◌≡◌, ◌≤◌, ◌<◌, ◌+◌, ◌%◌, ◌^◌, ◌⊎◌, length};
ghost use Rattle.obj_file.specs.Image.{IsImage};
ghost use Rattle.machine_state.specs.declared.layout.TheConstants.{MIPS, SPARC, TEXT};

use std::marker::Model;

/// Why bytes were not read as an image.
#[derive(Clone, Copy, PartialEq, Eq, Debug)]
pub enum ImageFault {
    /// They are no image: the offset of the first field that is not all there or wrong.
    BadImage { at: u32 },
    /// There was no memory for the image.
    NoMemory,
}

/// What a machine starts with: a known target, a text of 4 to 16,777,216 bytes in whole words, an entry
/// that is a multiple of 4 inside the text, and at most 1,048,576 bytes that the data begin with.
#[derive(Drop)]
pub struct Image {
    target: u8,
    entry: u32,
    text: Vec<u8>,
    statics: Vec<u8>,
}

impl Model for Image {
    ghost use Rattle.obj_file.specs.Image.{ImageFields, IsImage};

    ghost Value = { ImageFields };

    ghost view = { λ i. record { target = i.target; entry = i.entry; text = i.text.items; statics = i.statics.items } };

    ghost invariant = { λ i. IsImage (record { target = i.target; entry = i.entry; text = i.text.items; statics = i.statics.items }) };
}

impl Image {
    /// An image of its parts.
    pub fn new(target: u8, entry: u32, text: Vec<u8>, statics: Vec<u8>) -> Image
        requires { IsImage (record { target = target; entry = entry; text = text.items; statics = statics.items }) }
        ensures { result ≡ record { target = target; entry = entry; text = text.items; statics = statics.items } }
    {
        Image {
            target,
            entry,
            text,
            statics,
        }
    }

    /// The target byte: 1 for MIPS, 2 for SPARC.
    pub fn target(&self) -> u8
        ensures value { result ≡ self.now.target }
        ensures known { (result ≡ MIPS) ⊎ (result ≡ SPARC) }
        ensures well_formed { IsImage self.now }
    {
        self.target
    }

    /// The address of the first instruction.
    pub fn entry(&self) -> u32
        ensures value { result ≡ self.now.entry }
        ensures inside { (TEXT ≤ result) × (result < TEXT + length self.now.text) }
        ensures aligned { result % 4 ≡ 0 }
    {
        self.entry
    }

    /// The bytes of the text.
    pub fn text(&self) -> &[u8]
        ensures value { result.now ≡ self.now.text }
        ensures some { 4 ≤ length result.now }
        ensures fits { length result.now ≤ 2 ^ 24 }
        ensures whole_words { length result.now % 4 ≡ 0 }
    {
        self.text.as_slice()
    }

    /// The bytes that the data begin with.
    pub fn statics(&self) -> &[u8]
        ensures value { result.now ≡ self.now.statics }
        ensures fits { length result.now ≤ 2 ^ 20 }
    {
        self.statics.as_slice()
    }
}
