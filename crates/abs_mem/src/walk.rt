// Walks over a table and a memory.

ghost use Rattle.std.specs.Prelude.{◌≡◌, ℕ, ◌∷◌};
ghost use Rattle.frame_bytes.specs.Bytes.{Bytes};
ghost use Rattle.table_model.specs.Objects.{found_at};
ghost use Rattle.abs_mem.specs.Walking.{Walks, LedWalk, told};

use crate::memory::{AbsMem, MemFault};
use frame_bytes::{Place, Space};
use ps_store::PsStore;
use table_model::{Found, Lack};

/// Why a walk has no answer: the memory has none; the table lacks a key, or has it with another type; or the functions of a
/// unit are still to be run.
#[derive(Drop)]
pub enum WalkFault {
    Memory(MemFault),
    /// A key is missing, or a frame's point; else a key has another type.
    Shape { missing: bool },
    /// The unit's number in the table.
    Unforced { unit: usize },
}

/// How a walk tells what the table lacks.
pub fn told(lack: Lack) -> WalkFault
    ensures { result ≡ told lack }
{
    match lack {
        Lack::Missing | Lack::NoPoint => WalkFault::Shape { missing: true },
        Lack::WrongType | Lack::TooDeep => WalkFault::Shape { missing: false },
        Lack::Unforced { unit } => WalkFault::Unforced { unit },
        Lack::Outside => {
            let space = Space::Memory;
            let place = Place { space, at: 0 };
            WalkFault::Memory(MemFault::Outside { place })
        }
    }
}

/// Who finds the object of an address.
pub trait Locate {
    ghost use Rattle.table_model.specs.declared.row.TargetRow.{TargetRow};

    /// How the target's frames are found.
    ghost row: { Self → TargetRow };

    /// The address of the context block.
    ghost context: { Self → ℕ };

    /// The object to which an address belongs, if there is one: the first of the static objects and strings, and then of the
    /// locals frame by frame.
    fn find<M: AbsMem>(
        &mut self,
        table: &PsStore,
        m: &mut M,
        address: u32,
    ) -> Result<Option<Found>, WalkFault>
        ensures meaning { Walks (λ b. found_at (row self.old) table.now b (context self.old) address) (M.seen m.old) result (M.seen m.new) }
        ensures calls { LedWalk M.leads m.old result m.new }
        ensures stays { self.new ≡ self.old };
}
