// Why a part of a command has no result.

ghost use Rattle.std.specs.Prelude.{◌≡◌};
ghost use Rattle.table_asks.specs.Faults.{IsOwn, IsUnrefused, fault_of_run, memory_fault, raised};

use abs_mem::MemFault;
use ldb_words::Undef;
use ps_places::error_of;
use ps_run::{PsError, PsFault};
use table_model::Lack;

/// Why a command is refused, once the state of the session allows it.
#[derive(Clone, Copy, PartialEq, Eq, Debug)]
pub enum Cause {
    /// No such point; also no breakpoint there, or no no-op where one would be set.
    NoPlace,
    /// No frame with this number.
    NoFrame,
    BadSyntax,
    NoScope,
    BadType,
    /// The first undefined step of an evaluation has this reason.
    Undefined(Undef),
}

/// Why a part of a command has no result.
#[derive(Drop)]
pub enum AskFault {
    Refused(Cause),
    /// An error of PostScript: the table's procedures raised it, or the table lacks a key, a type or a byte.
    Raised(PsError),
    /// The command's steps are taken.
    Spent,
    NoMemory,
    /// The link failed, or a bad reply came.
    Broken(MemFault),
}

/// The error of what a table lacks.
pub fn raised(lack: Lack) -> AskFault
    ensures value { result ≡ raised lack }
    ensures own { IsOwn result }
    ensures unrefused { IsUnrefused result }
{
    AskFault::Raised(error_of(lack))
}

/// Why a run of PostScript over a target's memory ended early, where the memory's fault was kept. A run that ended by the link
/// keeps its fault.
pub fn fault_of_run(fault: PsFault, kept: Option<MemFault>) -> AskFault
    ensures value { result ≡ fault_of_run fault kept }
    ensures unrefused { IsUnrefused result }
{
    match fault {
        PsFault::Error(error) => AskFault::Raised(error),
        PsFault::Spent => AskFault::Spent,
        PsFault::NoMemory => AskFault::NoMemory,
        PsFault::Link => match kept {
            Some(why) => AskFault::Broken(why),
            None => AskFault::Broken(MemFault::LinkFault),
        },
    }
}

/// Why a word of a target isn't read or stored.
pub fn memory_fault(fault: MemFault) -> AskFault
    ensures value { result ≡ memory_fault fault }
    ensures unrefused { IsUnrefused result }
{
    match fault {
        MemFault::Outside { .. } => AskFault::Raised(PsError::RangeCheck),
        other => AskFault::Broken(other),
    }
}
