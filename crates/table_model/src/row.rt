// Rows of a table, and of targets.

use ps_store::DictId;

/// A function, and the unit that it is in.
#[derive(Clone, Copy, PartialEq, Eq)]
pub struct FunctionRow {
    pub unit: DictId,
    pub function: DictId,
}

/// A target whose functions save registers: the stack pointer's number, the number of the register with the return address,
/// how far behind the call that address is, and for each register whether a function leaves it as it was.
#[derive(Clone, Copy)]
pub struct SavingRow {
    pub stack_pointer: u8,
    pub return_register: u8,
    pub distance: u32,
    pub preserved: [bool; 32],
}

/// How a target's frames are found: by each function's saved registers, or by the windows of registers.
#[derive(Clone, Copy)]
pub enum TargetRow {
    Saving(SavingRow),
    Windows,
}
