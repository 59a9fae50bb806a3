// Why an operator does nothing.

ghost use Rattle.std.specs.Prelude.{◌≡◌};
ghost use Rattle.ps_ops.specs.Halts.{halted, left, left_over};

use abs_mem::{MemFault, WalkFault};
use ps_places::Trouble;
use ps_run::{PsError, PsFault};

/// Why an operator has no result: it raises an error; memory was wanting; the target's memory gave no answer; or the functions of
/// a unit have to be run first.
#[derive(Drop)]
pub enum Halt {
    Raised(PsError),
    Wanting,
    Broken(MemFault),
    /// The unit's number in the table.
    Needs { unit: usize },
}

/// What a walk without an answer is to an operator.
pub fn halted(fault: WalkFault) -> Halt
    ensures { result ≡ halted fault }
{
    match fault {
        WalkFault::Memory(MemFault::Outside { .. }) => Halt::Raised(PsError::RangeCheck),
        WalkFault::Memory(other) => Halt::Broken(other),
        WalkFault::Shape { missing: true } => Halt::Raised(PsError::Undefined),
        WalkFault::Shape { missing: false } => Halt::Raised(PsError::TypeCheck),
        WalkFault::Unforced { unit } => Halt::Needs { unit },
    }
}

/// What an operator on the state alone answers. It never answers Spent or Link.
pub fn left(answer: Result<(), PsFault>) -> Result<(), Halt>
    ensures { result ≡ left answer }
{
    match answer {
        Ok(()) => Ok(()),
        Err(PsFault::Error(error)) => Err(Halt::Raised(error)),
        Err(PsFault::Spent | PsFault::Link | PsFault::NoMemory) => Err(Halt::Wanting),
    }
}

/// What an operator over a memory answers.
pub fn left_over(answer: Result<(), Trouble>) -> Result<(), Halt>
    ensures { result ≡ left_over answer }
{
    match answer {
        Ok(()) => Ok(()),
        Err(Trouble::Ps(fault)) => left(Err(fault)),
        Err(Trouble::Broken(fault)) => Err(Halt::Broken(fault)),
    }
}
