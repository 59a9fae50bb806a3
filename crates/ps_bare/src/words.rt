// Operators on words.

ghost use Rattle.std.specs.Prelude.{◌≡◌, ◌≤◌, ℕ};
ghost use Rattle.ps_store.specs.Store.{closed_part};
ghost use Rattle.ps_bare.specs.Bare.{ActsAlone};
ghost use Rattle.dialect_model.specs.Dial.{Dial};

use ps_run::{PsCore, PsFault};
use ps_words::{WordOperator, compare_unsigned, negate, run_on_two};

/// Runs the operator on words with a number: `iadd` to `ult`. An error leaves the state as it was.
pub fn run_on_words(core: &mut PsCore, op: u16) -> Result<(), PsFault>
    requires from { 8 ≤ op }
    requires to { op ≤ 22 }
    ensures acts { (d : Dial) → ActsAlone op d core.old result core.new }
    ensures closed { closed_part core.new.store ≡ closed_part core.old.store }
{
    match op {
        8 => run_on_two(core, WordOperator::SignedAdd),
        9 => run_on_two(core, WordOperator::SignedSubtract),
        10 => run_on_two(core, WordOperator::SignedMultiply),
        11 => run_on_two(core, WordOperator::SignedDivide),
        12 => run_on_two(core, WordOperator::SignedRemainder),
        13 => negate(core),
        14 => run_on_two(core, WordOperator::Divide),
        15 => run_on_two(core, WordOperator::Remainder),
        16 => run_on_two(core, WordOperator::Add),
        17 => run_on_two(core, WordOperator::Subtract),
        18 => run_on_two(core, WordOperator::Multiply),
        19 => run_on_two(core, WordOperator::ShiftLeft),
        20 => run_on_two(core, WordOperator::SignedShiftRight),
        21 => run_on_two(core, WordOperator::ShiftRight),
        _ => compare_unsigned(core),
    }
}
