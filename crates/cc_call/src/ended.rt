// Why the call ends early.
ghost use Rattle.std.specs.Prelude.{◌≡◌};
ghost use Rattle.cc_call.specs.declared.ended.Fault.TheVariants.{NoMemory};

use std::alloc::{AllocError, AllocFailed};

/// A read failed, a write failed, or no memory was found.
#[derive(Clone, Copy)]
pub enum Fault {
    Read,
    Write,
    NoMemory,
}

impl From<AllocError> for Fault {
    ghost from_gives = { λ _ e. e ≡ NoMemory };

    fn from(_: AllocError) -> Self {
        Fault::NoMemory
    }
}

impl<T: Drop> From<AllocFailed<T>> for Fault {
    ghost from_gives = { λ _ e. e ≡ NoMemory };

    fn from(_: AllocFailed<T>) -> Self {
        Fault::NoMemory
    }
}
