// The words of a step.

ghost use Rattle.std.specs.Prelude.{◌≡◌, ◌⊎◌, ◌+◌, ◌<◌, ◌≤◌, ◌∷◌, length, take, drop};
ghost use Rattle.table_points.specs.declared.row.Point.{Point};
ghost use Rattle.machine_state.specs.declared.layout.TheConstants.{MIPS, SPARC};
ghost use Rattle.abs_mem.specs.Meaning.{Led};
ghost use Rattle.debug_side.specs.Planting.{PlantsOne, PlantsAll, GivesUp, LedOn, mem_fault, kept_with};

use crate::words::unplant_back;
use abs_mem::{AbsMem, MemFault};
use break_plant::{PlantFault, plant};
use table_points::Point;
use wire_talk::TalkFault;

/// Puts the break word at an address where the no-op stands, and says whether it stood there.
pub fn plant_one<M: AbsMem>(target: u8, m: &mut M, at: u32) -> Result<bool, MemFault>
    requires known { (target ≡ MIPS) ⊎ (target ≡ SPARC) }
    ensures meaning { PlantsOne target at (M.seen m.old) result (M.seen m.new) }
    ensures calls { Led M.leads m.old result m.new }
{
    match plant(target, m, at) {
        Ok(()) => Ok(true),
        Err(PlantFault::NotNoop { .. }) => Ok(false),
        Err(PlantFault::Memory(fault)) => Err(fault),
    }
}

/// A fault of a link as one of a memory.
fn mem_fault(fault: TalkFault) -> MemFault
    ensures { result ≡ mem_fault fault }
{
    match fault {
        TalkFault::LinkFault => MemFault::LinkFault,
        TalkFault::BadReply { frame } => MemFault::BadReply { frame },
    }
}

/// What planting comes to where one of the addresses gave a fault: where it is outside, what was planted is taken away
/// again.
fn gives_up<M: AbsMem>(
    target: u8,
    m: &mut M,
    planted: &[Point],
    fault: MemFault,
) -> Result<(), MemFault>
    requires known { (target ≡ MIPS) ⊎ (target ≡ SPARC) }
    ensures meaning { GivesUp target (M.seen m.old) planted.now fault result (M.seen m.new) }
    ensures calls { LedOn M.leads m.old fault result m.new }
{
    match fault {
        MemFault::Outside { place } => match unplant_back(target, m, planted) {
            Ok(()) => Err(MemFault::Outside { place }),
            Err(fault) => Err(mem_fault(fault)),
        },
        MemFault::LinkFault => Err(MemFault::LinkFault),
        MemFault::BadReply { frame } => Err(MemFault::BadReply { frame }),
    }
}

/// Keeps the point at a place behind those that are kept already, if its word was put, and says how many are kept.
fn keep(points: &mut Vec<Point>, kept: usize, at: usize, is_put: bool) -> usize
    requires behind { kept ≤ at }
    requires inside { at < length points.old.items }
    ensures front { (point : Point) → drop at points.old.items ≡ point ∷ drop (at + 1) points.old.items
        → take result points.new.items ≡ kept_with is_put (take kept points.old.items) point }
    ensures rest { drop (at + 1) points.new.items ≡ drop (at + 1) points.old.items }
    ensures same_length { length points.new.items ≡ length points.old.items }
    ensures behind { result ≤ at + 1 }
{
    if !is_put {
        return kept;
    }
    let point = points[at];
    points[kept] = point;
    kept + 1
}

/// Puts the break word of a target at each of some points where the no-op stands, and keeps those points alone. It takes no
/// memory. Where an address is outside, that one is told, and the target is as before; `points` then hold nothing of use.
pub fn plant_for_step<M: AbsMem>(
    target: u8,
    m: &mut M,
    points: &mut Vec<Point>,
) -> Result<(), MemFault>
    requires known { (target ≡ MIPS) ⊎ (target ≡ SPARC) }
    ensures meaning { PlantsAll target points.old.items (M.seen m.old) result points.new.items (M.seen m.new) }
    ensures calls { Led M.leads m.old result m.new }
{
    let mut kept = 0;
    let mut at = 0;
    while at < points.len() {
        let point = points[at];
        match plant_one(target, m, point.at) {
            Ok(is_put) => kept = keep(points, kept, at, is_put),
            Err(fault) => return gives_up(target, m, &points[..kept], fault),
        }
        at += 1;
    }
    points.truncate(kept);
    Ok(())
}
