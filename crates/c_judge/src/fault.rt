// Why an expression is refused.
ghost use Rattle.std.specs.Prelude.{◌≡◌};

use crate::part::Part;
use c_tree::Typed;
use ldb_words::Text;
use std::alloc::{AllocError, AllocFailed};

/// Why an expression is refused.
#[derive(Drop)]
pub enum ExprFault {
    /// A name of the expression is not in scope.
    Scope { name: Text },
    /// The typing rule of this number is broken.
    Rule { rule: u8 },
    /// A form that is forbidden here stands at this offset.
    Forbidden { at: u32 },
    NoMemory,
}

impl From<AllocError> for ExprFault {
    ghost use Rattle.c_judge.specs.declared.fault.ExprFault.TheVariants.{NoMemory};

    ghost from_gives = { λ _ e. e ≡ NoMemory };

    fn from(_: AllocError) -> Self {
        ExprFault::NoMemory
    }
}

/// Why an expression has no typed tree.
#[derive(Drop)]
pub enum Fault {
    /// A name in it is not declared, and no rule is broken as far as it can be judged.
    Unknown { name: Text },
    /// The typing rule of this number is broken, at this offset.
    Rule { rule: u8, at: u32 },
    NoMemory,
}

impl From<AllocError> for Fault {
    ghost use Rattle.c_judge.specs.declared.fault.Fault.TheVariants.{NoMemory};

    ghost from_gives = { λ _ e. e ≡ NoMemory };

    fn from(_: AllocError) -> Self {
        Fault::NoMemory
    }
}

impl From<AllocFailed<Typed>> for Fault {
    ghost use Rattle.c_judge.specs.declared.fault.Fault.TheVariants.{NoMemory};

    ghost from_gives = { λ _ e. e ≡ NoMemory };

    fn from(failed: AllocFailed<Typed>) -> Self {
        drop(failed);
        Fault::NoMemory
    }
}

impl From<AllocFailed<Part>> for Fault {
    ghost use Rattle.c_judge.specs.declared.fault.Fault.TheVariants.{NoMemory};

    ghost from_gives = { λ _ e. e ≡ NoMemory };

    fn from(failed: AllocFailed<Part>) -> Self {
        drop(failed);
        Fault::NoMemory
    }
}
