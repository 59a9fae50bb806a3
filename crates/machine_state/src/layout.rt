// Where the regions of a machine's memory lie, and the widths of accesses.

ghost use Rattle.std.specs.Prelude.{◌≡◌, ◌⊎◌};
ghost use Rattle.machine_state.specs.Widths.{width_of};
ghost use Rattle.machine_state.specs.Regions.{offset_in};

/// Where the text begins.
pub const TEXT: u32 = 0x0040_0000;
/// Where the data begin.
pub const DATA: u32 = 0x1000_0000;
/// Where the stack's region begins.
pub const STACK: u32 = 0x7fef_0000;
/// Where the context block begins.
pub const CONTEXT: u32 = 0x7fff_8000;

/// How many bytes the data region has.
pub const DATA_SIZE: usize = 0x0010_0000;
/// How many bytes the stack's region has: it ends at 7fff0000.
pub const STACK_SIZE: usize = 0x0010_0000;
/// How many words the context block has.
pub const CONTEXT_WORDS: usize = 36;
/// How many bytes they are.
pub const CONTEXT_SIZE: usize = 144;

/// The stack pointer at the start.
pub const FIRST_STACK_POINTER: u32 = 0x7ffe_ffa0;
/// The target byte of MIPS R3000.
pub const MIPS: u8 = 1;
/// The target byte of SPARC V8.
pub const SPARC: u8 = 2;

/// How many bytes an access takes.
#[derive(Clone, Copy, PartialEq, Eq, Debug)]
pub enum Width {
    Byte,
    Half,
    Word,
}

impl Width {
    /// The number of bytes.
    pub fn bytes(self) -> u32
        ensures { result ≡ width_of self }
    {
        match self {
            Width::Byte => 1,
            Width::Half => 2,
            Width::Word => 4,
        }
    }
}

/// The offset of `width` bytes at an address in a region of `size` bytes, if they are all in it.
pub fn offset_in(base: u32, size: usize, at: u32, width: u32) -> Option<usize>
    ensures { result ≡ offset_in base size at width }
{
    if at < base {
        return None;
    }
    let offset = (at - base) as usize;
    if offset + width as usize <= size {
        Some(offset)
    } else {
        None
    }
}

/// The width of so many bytes.
pub fn width_from(bytes: u8) -> Width
    requires { (bytes ≡ 1) ⊎ ((bytes ≡ 2) ⊎ (bytes ≡ 4)) }
    ensures { width_of result ≡ bytes }
{
    match bytes {
        1 => Width::Byte,
        2 => Width::Half,
        _ => Width::Word,
    }
}
