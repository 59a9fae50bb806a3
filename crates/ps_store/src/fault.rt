//! Why calls of the store are refused.

ghost use Rattle.std.specs.Prelude.{◌≡◌};
ghost use Rattle.ps_store.specs.declared.fault.StoreFault.TheVariants.{NoMemory as OutOfMemory};

use std::alloc::AllocError;

/// Why a call of the store is refused.
#[derive(Clone, Copy, Debug, PartialEq, Eq)]
pub enum StoreFault {
    /// An object would have more elements, entries or bytes than the dialect allows, or the store more units.
    Limit,
    /// The object is closed.
    ReadOnly,
    /// No memory was found.
    NoMemory,
}

impl From<AllocError> for StoreFault {
    ghost from_gives = { λ _ e. e ≡ OutOfMemory };

    fn from(_error: AllocError) -> StoreFault {
        StoreFault::NoMemory
    }
}

/// The object is closed, so it cannot be changed.
#[derive(Clone, Copy, Debug)]
pub struct ReadOnly;
