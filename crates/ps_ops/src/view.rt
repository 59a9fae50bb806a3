// What operators see of a target.

use frame_bytes::Frame;
use ps_store::DictId;

/// In which frame operators work.
#[derive(Clone, Copy)]
pub enum Standing {
    /// There is none.
    NoFrame,
    /// One that was found, with the innermost symbol in scope there, if there is one.
    InFrame { frame: Frame, scope: Option<DictId> },
    /// The one with a number, which is looked for when an operator asks for it.
    Numbered { number: u32 },
}

/// Which target, the address of its context block, the frame, and whether operators may store to the target, as in `ps` alone.
#[derive(Clone, Copy)]
pub struct View {
    pub target: u8,
    pub context: u32,
    pub standing: Standing,
    pub raw: bool,
}
