// Why a part is refused that does not tell names that are not declared.
ghost use Rattle.std.specs.Prelude.{◌≡◌};
ghost use Rattle.c_scope.specs.Refused.{fault_of};

use c_judge::Fault;
use std::alloc::AllocError;

/// Why a part is refused: a rule by its number, with the offset where what breaks it begins.
#[derive(Clone, Copy, Debug, PartialEq, Eq)]
pub enum Refusal {
    Rule { rule: u8, at: u32 },
    NoMemory,
}

impl From<AllocError> for Refusal {
    ghost use Rattle.c_scope.specs.declared.refusal.Refusal.TheVariants.{NoMemory};

    ghost from_gives = { λ _ e. e ≡ NoMemory };

    fn from(_: AllocError) -> Self {
        Refusal::NoMemory
    }
}

/// The same as a fault.
pub fn fault_of(why: Refusal) -> Fault
    ensures { result ≡ fault_of why }
{
    match why {
        Refusal::Rule { rule, at } => Fault::Rule { rule, at },
        Refusal::NoMemory => Fault::NoMemory,
    }
}
