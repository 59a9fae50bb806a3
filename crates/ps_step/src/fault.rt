//! What stops a program.

ghost use Rattle.std.specs.Prelude.{◌≡◌};
ghost use Rattle.ps_step.specs.declared.fault.PsFault.TheVariants.{Error as Raised, NoMemory as OutOfMemory};
ghost use Rattle.ps_step.specs.declared.fault.PsError.TheVariants.{InvalidAccess as Closed};
ghost use Rattle.ps_step.specs.Errors.{error_text};
ghost use Rattle.ps_step.specs.Results.{fault_of};

use ps_store::{ReadOnly, StoreFault};
use std::alloc::AllocError;

/// The errors of a program (PostScript Language Reference Manual, 8.1), and the dialect's own, which come last.
#[derive(Clone, Copy, Debug)]
pub enum PsError {
    StackUnderflow,
    StackOverflow,
    DictStackUnderflow,
    DictStackOverflow,
    ExecStackOverflow,
    TypeCheck,
    Undefined,
    RangeCheck,
    UndefinedResult,
    UnmatchedMark,
    InvalidExit,
    InvalidAccess,
    SyntaxError,
    LimitCheck,
    Overflow,
    Division,
    Shift,
    Pointer,
}

impl PsError {
    /// The error's name in the manual.
    pub fn name(self) -> &'static str
        ensures { result.now ≡ error_text self }
    {
        match self {
            PsError::StackUnderflow => "stackunderflow",
            PsError::StackOverflow => "stackoverflow",
            PsError::DictStackUnderflow => "dictstackunderflow",
            PsError::DictStackOverflow => "dictstackoverflow",
            PsError::ExecStackOverflow => "execstackoverflow",
            PsError::TypeCheck => "typecheck",
            PsError::Undefined => "undefined",
            PsError::RangeCheck => "rangecheck",
            PsError::UndefinedResult => "undefinedresult",
            PsError::UnmatchedMark => "unmatchedmark",
            PsError::InvalidExit => "invalidexit",
            PsError::InvalidAccess => "invalidaccess",
            PsError::SyntaxError => "syntaxerror",
            PsError::LimitCheck => "limitcheck",
            PsError::Overflow => "overflow",
            PsError::Division => "division",
            PsError::Shift => "shift",
            PsError::Pointer => "pointer",
        }
    }
}

/// Why a run ends before its end.
#[derive(Clone, Copy, Debug)]
pub enum PsFault {
    /// An error that no `stopped` catches.
    Error(PsError),
    /// The steps reached their limit.
    Spent,
    /// The link to a target failed under an operator of the dialect.
    Link,
    /// No memory was found.
    NoMemory,
}

impl From<PsError> for PsFault {
    ghost from_gives = { λ error fault. fault ≡ Raised error };

    fn from(error: PsError) -> PsFault {
        PsFault::Error(error)
    }
}

impl From<AllocError> for PsFault {
    ghost from_gives = { λ _ fault. fault ≡ OutOfMemory };

    fn from(_error: AllocError) -> PsFault {
        PsFault::NoMemory
    }
}

impl From<StoreFault> for PsFault {
    ghost from_gives = { λ fault e. e ≡ fault_of fault };

    fn from(fault: StoreFault) -> PsFault {
        match fault {
            StoreFault::Limit => PsFault::Error(PsError::LimitCheck),
            StoreFault::ReadOnly => PsFault::Error(PsError::InvalidAccess),
            StoreFault::NoMemory => PsFault::NoMemory,
        }
    }
}

impl From<ReadOnly> for PsFault {
    ghost from_gives = { λ _ fault. fault ≡ Raised Closed };

    fn from(_fault: ReadOnly) -> PsFault {
        PsFault::Error(PsError::InvalidAccess)
    }
}
