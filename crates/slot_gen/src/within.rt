// The function whose code is emitted.
ghost use Rattle.std.specs.Prelude.{◌≡◌};
ghost use Rattle.slot_gen.specs.Expressions.{registers_of};

use c_tree::Program;
use std::alloc::Global;

/// A function of a program by its number, and which of its locals are in registers.
#[derive(Clone, Copy)]
pub struct Within<'a> {
    pub alloc: Global,
    pub program: &'a Program,
    pub number: u32,
    pub registers: &'a [Option<u32>],
    ghost in_registers: { registers.now ≡ registers_of program.now number },
}
