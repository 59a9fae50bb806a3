// What each register is for, and what lies at the stack pointer.
ghost use Rattle.std.specs.Prelude.{◌≡◌, ◌<◌, ◌+◌, IfOk};

use std::alloc::AllocError;

/// Always zero: `%g0`.
pub const ZERO: u8 = 0;
/// The scratch word A: `%g1`.
pub const A: u8 = 1;
/// The scratch word B: `%g2`.
pub const B: u8 = 2;
/// A word of an operator's own: `%g3`.
pub const OWN: u8 = 3;
/// Another: `%g4`.
pub const OWN_TOO: u8 = 4;
/// Where a copy was called, while it jumps: `%g5`.
pub const KEPT: u8 = 5;
/// The first argument that is passed, a result that came back, and a request's argument and result: `%o0`.
pub const OUT: u8 = 8;
/// The stack pointer: `%sp`.
pub const STACK_POINTER: u8 = 14;
/// Where a call was made: `%o7`.
pub const CALLED_FROM: u8 = 15;
/// The first of eight locals in registers: `%l0`.
pub const FIRST_LOCAL: u8 = 16;
/// The first argument that was given, and the result: `%i0`.
pub const IN: u8 = 24;

/// How many arguments are passed in registers.
pub const ARGUMENT_REGISTERS: u32 = 6;
/// Where the places of arguments begin above a caller's stack pointer: behind a window and a word.
pub const ARGUMENTS_AT: u32 = 68;
/// The bytes at the stack pointer that are not the program's.
pub const LINKAGE: u32 = 132;
/// The lowest stack pointer: the 256 bytes at the end of the stack are those of struct copies.
pub const LOWEST_STACK_POINTER: u32 = 0x7fef_0100;
/// The end of the stack.
pub const STACK_END: u32 = 0x7fef_0000;

/// The trap that asks for input.
pub const GET_CHAR: u8 = 17;
/// The trap that asks for output.
pub const PUT_CHAR: u8 = 18;
/// The trap that asks to exit.
pub const EXIT: u8 = 19;
/// The trap that asks for more stack.
pub const MORE_STACK: u8 = 21;

/// The register of a local by its number.
pub fn local_register(number: u8) -> Result<u8, AllocError>
    ensures { IfOk result (λ r. (r ≡ 16 + number) × (r < 32)) }
{
    if number < 8 {
        Ok(FIRST_LOCAL + number)
    } else {
        Err(AllocError)
    }
}
