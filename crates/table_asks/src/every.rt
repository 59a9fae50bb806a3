// Every stopping point of a table.

ghost use Rattle.std.specs.Prelude.{◌≡◌, ◌≤◌, IfErr, map};
ghost use Rattle.ps_store.specs.Store.{closed_part};
ghost use Rattle.table_read.specs.Reads.{in_ok};
ghost use Rattle.table_model.specs.Places.{all_points};
ghost use Rattle.table_points.specs.Rows.{row_in};
ghost use Rattle.dialect_model.specs.TableUse.{Looks};
ghost use Rattle.table_asks.specs.Asking.{Comes};
ghost use Rattle.table_asks.specs.Closing.{Settles};
ghost use Rattle.table_asks.specs.Faults.{IsOwn};

use crate::fault::AskFault;
use crate::inquiry::{Inquiry, settle};
use table_points::{Point, PointsFault, all_points};

/// Every point of the table in its order. All units' functions are run if they have to be.
pub fn every_point(inquiry: &mut Inquiry) -> Result<Vec<Point>, AskFault>
    requires within { inquiry.old.steps.taken ≤ inquiry.old.steps.limit }
    ensures own { IfErr result (λ fault. IsOwn fault) }
    ensures within { inquiry.new.steps.taken ≤ inquiry.new.steps.limit }
    ensures limit { inquiry.new.steps.limit ≡ inquiry.old.steps.limit }
    ensures more { inquiry.old.steps.taken ≤ inquiry.new.steps.taken }
    ensures closed { Settles (closed_part inquiry.old.core.store) (closed_part inquiry.new.core.store) }
    ensures meaning { Comes (Looks all_points) inquiry.old (in_ok (λ ps. map (row_in inquiry.new.core.store) ps.items) result) inquiry.new }
{
    let alloc = inquiry.core.operands.allocator();
    'again: loop {
        match all_points(alloc, &inquiry.core.store) {
            Ok(points) => return Ok(points),
            Err(PointsFault::NoMemory) => return Err(AskFault::NoMemory),
            Err(PointsFault::Lacks(lack)) => match settle(inquiry, lack) {
                Ok(()) => {}
                Err(fault) => return Err(fault),
            },
        }
    }
}
