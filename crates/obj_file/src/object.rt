// Objects: what a generator leaves for the linker.

use ldb_words::{Many, Text};

/// How the address that a use names stands in the text or the data.
#[derive(Clone, Copy, PartialEq, Eq, Debug)]
pub enum Form {
    /// MIPS: the upper 16 bits; SPARC: the upper 22 bits.
    High,
    /// MIPS: the lower 16 bits; SPARC: the lower 10 bits.
    Low,
    /// MIPS: the target field of a jump; SPARC: the displacement of a call.
    Jump,
    /// Four bytes in the target's order.
    Word,
}

/// A place in the text that has a name.
#[derive(Drop)]
pub struct Name {
    pub name: Text,
    /// The offset in the text.
    pub at: u32,
}

/// A static object, with the bytes that it begins with.
#[derive(Drop)]
pub struct StaticDef {
    pub name: Text,
    pub bytes: Text,
}

/// A place where the address of a name is to stand.
#[derive(Drop)]
pub struct Use {
    /// Whether the place is in the text, and not in the static objects.
    pub in_text: bool,
    /// The offset in the text, or in the bytes of all static objects, taken one after another in order.
    pub at: u32,
    pub form: Form,
    pub name: Text,
    /// What is added to the address.
    pub add: u32,
}

/// Where a local variable lies.
#[derive(Clone, Copy, PartialEq, Eq, Debug)]
pub enum LocalPlace {
    /// In memory, so many bytes from the frame's base.
    Slot(i32),
    /// In a register.
    Reg(u8),
}

/// What a debugger has to know of a function.
#[derive(Drop)]
pub struct FunctionRow {
    pub name: Text,
    /// Where it begins: an offset in an object's text, an address once it is linked.
    pub entry: u32,
    /// Where it ends, likewise.
    pub end: u32,
    /// The size of its frame in bytes.
    pub frame: u32,
    /// The registers that it saves, each with its offset from the frame's base.
    pub saved: Many<(u8, i32)>,
    /// Its stopping points, likewise.
    pub points: Many<u32>,
    pub locals: Many<LocalPlace>,
}

/// Code and data that are not placed yet.
#[derive(Drop)]
pub struct Object {
    /// The target byte: 1 for MIPS, 2 for SPARC.
    pub target: u8,
    pub text: Text,
    pub names: Many<Name>,
    pub statics: Many<StaticDef>,
    pub uses: Many<Use>,
    pub functions: Many<FunctionRow>,
}

/// What a linker tells of the image that it made.
#[derive(Drop)]
pub struct LoaderRows {
    /// The static objects and their addresses, in order of place.
    pub anchors: Many<(Text, u32)>,
    /// The functions, with addresses.
    pub functions: Many<FunctionRow>,
}
