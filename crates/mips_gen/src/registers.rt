// What each register is for, and what lies at the stack pointer.
ghost use Rattle.std.specs.Prelude.{◌≡◌, ◌<◌, ◌+◌, IfOk};

use std::alloc::AllocError;

/// Always zero.
pub const ZERO: u8 = 0;
/// A function's result, a request's number and its result: `$2`.
pub const RESULT: u8 = 2;
/// The first argument, and a request's: `$4`. The next three follow.
pub const ARGUMENT: u8 = 4;
/// The scratch word A: `$8`.
pub const A: u8 = 8;
/// The scratch word B: `$9`.
pub const B: u8 = 9;
/// A word of an operator's own: `$10`.
pub const OWN: u8 = 10;
/// Another: `$11`.
pub const OWN_TOO: u8 = 11;
/// The first of eight locals in registers: `$16`.
pub const FIRST_LOCAL: u8 = 16;
/// The stack pointer: `$29`.
pub const STACK_POINTER: u8 = 29;
/// The return address: `$31`.
pub const RETURN_ADDRESS: u8 = 31;

/// How many arguments are passed in registers.
pub const ARGUMENT_REGISTERS: u32 = 4;
/// The bytes at the stack pointer that are not the program's.
pub const LINKAGE: u32 = 100;
/// The lowest stack pointer: the 256 bytes at the end of the stack are those of struct copies.
pub const LOWEST_STACK_POINTER: u32 = 0x7fef_0100;
/// The upper half of the address of the stack's end.
pub const STACK_END_HIGH: u16 = 0x7fef;

/// The request for input.
pub const GET_CHAR: u16 = 1;
/// The request for output.
pub const PUT_CHAR: u16 = 2;
/// The request to exit.
pub const EXIT: u16 = 3;
/// The request for more stack.
pub const MORE_STACK: u16 = 5;

/// Each register that a function saves, with its distance from the stack pointer.
pub const SAVED: [(u8, u32); 9] = [
    (31, 64),
    (16, 68),
    (17, 72),
    (18, 76),
    (19, 80),
    (20, 84),
    (21, 88),
    (22, 92),
    (23, 96),
];

/// The register of a local by its number.
pub fn local_register(number: u8) -> Result<u8, AllocError>
    ensures { IfOk result (λ r. (r ≡ 16 + number) × (r < 32)) }
{
    if number < 8 {
        Ok(FIRST_LOCAL + number)
    } else {
        Err(AllocError)
    }
}
