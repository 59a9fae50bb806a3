// What is found wrong behind the last file.
ghost use Rattle.std.specs.Prelude.{Some};
ghost use Rattle.c_check.specs.Faulty.{IsFaultOf, IsStanding, IsTold, IsNotSize};
ghost use Rattle.c_file.specs.Programs as told;

use c_linkage::{Awaited, State, twice};
use c_rows::{defined_names, first_past, missing};
use ldb_words::Text;
use std::alloc::{AllocError, Global};

/// Why a program is refused, in the order in which faults are told.
#[derive(Drop)]
pub enum CheckFault {
    /// A function has more than 16 parameters.
    Arguments,
    /// The typing rule of this number is broken in this file, at this offset.
    Rule { rule: u8, unit: u32, at: u32 },
    /// A name is defined twice.
    Twice { name: Text },
    /// A name is used without a visible declaration; or it is used, or is a declared object, and is never defined.
    Unknown { name: Text },
    /// No function `main` is defined.
    NoMain,
    /// The static data are larger than 1,048,576 bytes.
    TooBig,
    NoMemory,
}

impl From<AllocError> for CheckFault {
    ghost use Rattle.std.specs.Prelude.{◌≡◌};
    ghost use Rattle.c_check.specs.declared.faults.CheckFault.TheVariants.{NoMemory};

    ghost from_gives = { λ _ e. e ≡ NoMemory };

    fn from(_: AllocError) -> Self {
        CheckFault::NoMemory
    }
}

/// The first fault of a program of so many files that have been looked through, where no rule is broken in them; but for the size of its static data.
pub fn fault_behind<'a>(alloc: Global, units: usize, state: &State<'a>) -> Result<(), CheckFault>
    requires { IsStanding units state.now }
    ensures { IsFaultOf units state.now result }
{
    match first_past(&state.names, &state.late) {
        Some(l) => return Err(past_fault(l)),
        None => {}
    }
    match twice(alloc, &state.definitions) {
        Err(_) => return Err(CheckFault::NoMemory),
        Ok(Some(name)) => return Err(twice_fault(alloc, name)),
        Ok(None) => {}
    }
    let defined = match defined_names(alloc, units, &state.definitions) {
        Ok(defined) => defined,
        Err(_) => return Err(CheckFault::NoMemory),
    };
    match missing(state, &defined) {
        Some(name) => return Err(unknown_fault(alloc, name)),
        None => {}
    }
    if defined.is_defined(0, false, b"main".as_slice()) {
        Ok(())
    } else {
        Err(CheckFault::NoMain)
    }
}

/// A place is past its object's end.
fn past_fault(l: Awaited) -> CheckFault
    ensures told { IsTold (Some (told.Rule 12 l.entry.unit l.entry.place.at)) result }
    ensures size { IsNotSize result }
{
    CheckFault::Rule {
        rule: 12,
        unit: l.unit,
        at: l.place.at,
    }
}

/// A name is defined twice.
fn twice_fault(alloc: Global, name: &Text) -> CheckFault
    ensures told { IsTold (Some (told.Twice name.now)) result }
    ensures size { IsNotSize result }
{
    match Text::from_slice(alloc, name.as_bytes()) {
        Ok(name) => CheckFault::Twice { name },
        Err(_) => CheckFault::NoMemory,
    }
}

/// A name is not declared, or not defined.
fn unknown_fault(alloc: Global, name: &Text) -> CheckFault
    ensures told { IsTold (Some (told.Undefined name.now)) result }
    ensures size { IsNotSize result }
{
    match Text::from_slice(alloc, name.as_bytes()) {
        Ok(name) => CheckFault::Unknown { name },
        Err(_) => CheckFault::NoMemory,
    }
}
