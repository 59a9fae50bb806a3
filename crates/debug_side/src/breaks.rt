// One breakpoint.

ghost use Rattle.std.specs.Prelude.{◌≡◌, ◌⊎◌};
ghost use Rattle.machine_state.specs.declared.layout.TheConstants.{MIPS, SPARC};
ghost use Rattle.ldb_words.specs.declared.kinds.Kind.TheVariants.{Word};
ghost use Rattle.abs_mem.specs.Meaning.{Stores, Led};
ghost use Rattle.break_plant.specs.Planted.{noop_of, in_memory};
ghost use Rattle.debug_side.specs.Planting.{PlantsOne};

use crate::planting::plant_one;
use abs_mem::{AbsMem, MemFault};
use break_plant::unplant;
use table_points::Point;

/// Puts the break word of a target at a point where the no-op stands; another word stands there where it answers false, and
/// stays.
pub fn set_break<M: AbsMem>(target: u8, m: &mut M, point: Point) -> Result<bool, MemFault>
    requires known { (target ≡ MIPS) ⊎ (target ≡ SPARC) }
    ensures meaning { PlantsOne target point.at (M.seen m.old) result (M.seen m.new) }
    ensures calls { Led M.leads m.old result m.new }
{
    plant_one(target, m, point.at)
}

/// Puts the no-op of a target back at a point, whatever stands there.
pub fn clear_break<M: AbsMem>(target: u8, m: &mut M, point: Point) -> Result<(), MemFault>
    requires known { (target ≡ MIPS) ⊎ (target ≡ SPARC) }
    ensures meaning { Stores (M.seen m.old) (in_memory point.at) Word (noop_of target) result (M.seen m.new) }
    ensures calls { Led M.leads m.old result m.new }
{
    unplant(target, m, point.at)
}
