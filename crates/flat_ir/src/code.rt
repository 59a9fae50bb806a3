// Flat code and its rows.

use crate::moves::Mover;
use ldb_words::{Kind, Many};
use slot_ir::{Access, UnaryWordOp, WordOp};

/// The scratch words. An operator leaves its result in A.
#[derive(Clone, Copy, PartialEq, Eq, Debug)]
pub enum Scratch {
    A,
    B,
}

/// What is asked of the world outside, with A.
#[derive(Clone, Copy, PartialEq, Eq, Debug)]
pub enum Request {
    GetChar,
    PutChar,
    Exit,
}

/// Where a parameter is put: so many bytes above the stack pointer, as a value of a kind, or in a register from 0 to 7.
#[derive(Clone, Copy, PartialEq, Eq, Debug)]
pub enum Landing {
    Frame { at: u32, kind: Kind },
    Register(u8),
}

/// An operator. `at` is a distance from the stack pointer, and a `place` one in the function's code.
#[derive(Clone, Copy, PartialEq, Eq, Debug)]
pub enum FlatOp {
    /// A word by its bits.
    Set { to: Scratch, bits: u32 },
    /// The address of a static object, or of a string, which are numbered after the objects.
    StaticAddress { to: Scratch, object: u32 },
    /// An address in the frame.
    FrameAddress { to: Scratch, at: u32 },
    /// Reads a word of the frame.
    Get { to: Scratch, at: u32 },
    /// Writes a word of the frame.
    Put { from: Scratch, at: u32 },
    /// A becomes what stands at the address in A, extended to a word.
    Load { access: Access },
    /// B is written at the address in A.
    Store { kind: Kind },
    /// So many bytes of zeros, a multiple of 4, are written from the address in A on.
    Fill { bytes: u32 },
    /// The leaves of a struct at the address in B are copied to the address in A.
    Copy { shape: u32 },
    /// A becomes what a register holds, extended to a word.
    ReadRegister { register: u8, access: Access },
    /// A is written to a register.
    WriteRegister { register: u8 },
    /// A is extended to a word.
    Extend { access: Access },
    /// An operator on A.
    Unary { op: UnaryWordOp },
    /// An operator on A and B.
    Binary { op: WordOp },
    /// B items of `size` bytes are added to A, or subtracted from it.
    Scale { size: u32, back: bool },
    /// A becomes how many items of `size` bytes A lies above B.
    Apart { size: u32 },
    Jump { place: u32 },
    /// Jumps where A is 0, or where it is not.
    JumpIf { zero: bool, place: u32 },
    /// A word of the frame is passed as the argument of this number.
    Pass { number: u32, at: u32 },
    /// The argument of this number is put in its place.
    Argument { number: u32, landing: Landing },
    /// Calls a function with what was passed. A is its result.
    Call { function: u32 },
    /// Ends the activation with A.
    Return,
    /// The stopping point of this number is passed.
    Stop { point: u32 },
    Ask { request: Request },
}

/// A function: the bytes of its frame; how far each of its locals lies above the stack pointer; its code; and the place in the code of each of its stopping points, in order.
/// A function whose frame would have more than 1,048,576 bytes has a frame of that size, which no stack has room for: of its code only the stopping points are kept, and its locals lie nowhere.
#[derive(Drop)]
pub struct FlatFunction {
    pub frame: u32,
    pub locals: Many<u32>,
    pub code: Many<FlatOp>,
    pub places: Many<u32>,
}

/// The flat code of a program, whose `main` is the function of that number, and how each of its structs is copied.
#[derive(Drop)]
pub struct FlatCode {
    pub functions: Many<FlatFunction>,
    pub main: u32,
    pub movers: Many<Mover>,
}
