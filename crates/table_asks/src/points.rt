// Points by their places and names, with the units run that are met.

ghost use Rattle.std.specs.Prelude.{◌≡◌, ◌≤◌, IfErr, option_map};
ghost use Rattle.ps_store.specs.Store.{closed_part};
ghost use Rattle.table_asks.specs.Closing.{Settles};
ghost use Rattle.table_model.specs.Places.{spot_point, function_point};
ghost use Rattle.table_points.specs.Rows.{row_in};
ghost use Rattle.table_read.specs.Reads.{in_ok};
ghost use Rattle.dialect_model.specs.TableUse.{Looks};
ghost use Rattle.table_asks.specs.Asking.{Comes};
ghost use Rattle.table_asks.specs.Faults.{IsOwn};

use crate::fault::AskFault;
use crate::inquiry::{Inquiry, settle};
use table_points::{Point, function_point, spot_point};

/// The first point on a line of a file, in a column if one is given. The first unit of the file answers, whose functions are run
/// if they have to be.
pub fn line_told(
    inquiry: &mut Inquiry,
    file: &[u8],
    line: u32,
    column: Option<u32>,
) -> Result<Option<Point>, AskFault>
    requires within { inquiry.old.steps.taken ≤ inquiry.old.steps.limit }
    ensures own { IfErr result (λ fault. IsOwn fault) }
    ensures within { inquiry.new.steps.taken ≤ inquiry.new.steps.limit }
    ensures limit { inquiry.new.steps.limit ≡ inquiry.old.steps.limit }
    ensures more { inquiry.old.steps.taken ≤ inquiry.new.steps.taken }
    ensures closed { Settles (closed_part inquiry.old.core.store) (closed_part inquiry.new.core.store) }
    ensures meaning { Comes (Looks (λ s. spot_point s file.now line column)) inquiry.old (in_ok (option_map (row_in inquiry.new.core.store)) result) inquiry.new }
{
    'again: loop {
        match spot_point(&inquiry.core.store, file, line, column) {
            Ok(found) => return Ok(found),
            Err(lack) => match settle(inquiry, lack) {
                Ok(()) => {}
                Err(fault) => return Err(fault),
            },
        }
    }
}

/// The point at which the body of the function with a name begins: the external one, or else the static one where one unit alone
/// has the name. All units' functions are run if they have to be.
pub fn body_told(inquiry: &mut Inquiry, name: &[u8]) -> Result<Option<Point>, AskFault>
    requires within { inquiry.old.steps.taken ≤ inquiry.old.steps.limit }
    ensures own { IfErr result (λ fault. IsOwn fault) }
    ensures within { inquiry.new.steps.taken ≤ inquiry.new.steps.limit }
    ensures limit { inquiry.new.steps.limit ≡ inquiry.old.steps.limit }
    ensures more { inquiry.old.steps.taken ≤ inquiry.new.steps.taken }
    ensures closed { Settles (closed_part inquiry.old.core.store) (closed_part inquiry.new.core.store) }
    ensures meaning { Comes (Looks (λ s. function_point s name.now)) inquiry.old (in_ok (option_map (row_in inquiry.new.core.store)) result) inquiry.new }
{
    'again: loop {
        match function_point(&inquiry.core.store, name) {
            Ok(found) => return Ok(found),
            Err(lack) => match settle(inquiry, lack) {
                Ok(()) => {}
                Err(fault) => return Err(fault),
            },
        }
    }
}
