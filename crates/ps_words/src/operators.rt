// The operators on the state of a run.

ghost use Rattle.ps_store.specs.Store.{closed_part};
ghost use Rattle.std.specs.Prelude.{◌≡◌};
ghost use Rattle.c_operators.specs.Bits.{signed_negate};
ghost use Rattle.ps_step.specs.Effects.{Does};
ghost use Rattle.ps_words.specs.Words.{error_of, of_two};
ghost use Rattle.ps_words.specs.Operators.{word_in, on_two, negating, below};

use crate::words::{WordOperator, patterned};
use ldb_words::{Undef, neg_checked};
use ps_step::arithmetic::integer_of;
use ps_step::fault::{PsError, PsFault};
use ps_step::machine::PsCore;
use ps_step::operands::{one_of, pair_of};
use ps_store::PsObj;

/// The error of an operation that C leaves undefined.
pub fn error_of(undef: Undef) -> PsError
    ensures { result ≡ error_of undef }
{
    match undef {
        Undef::Overflow => PsError::Overflow,
        Undef::Division => PsError::Division,
        Undef::Shift => PsError::Shift,
        Undef::Pointer => PsError::Pointer,
    }
}

/// The 32 bits of the integer that an object is.
pub fn word_in(object: PsObj) -> Result<u32, PsError>
    ensures { result ≡ word_in object }
{
    let n = integer_of(object)?;
    Ok(n.cast_unsigned())
}

/// Runs an operator that makes a word of the two topmost operands. An error leaves the state as it was.
pub fn run_on_two(core: &mut PsCore, op: WordOperator) -> Result<(), PsFault>
    ensures does { Does result core.old core.new (on_two op core.old) }
    ensures closed { closed_part core.new.store ≡ closed_part core.old.store }
{
    let (a, b) = pair_of(&core.operands)?;
    let x = word_in(a)?;
    let y = word_in(b)?;
    match op.apply(x, y) {
        Ok(n) => {
            core.operands.replace(2, PsObj::Int(n.cast_signed()));
            Ok(())
        }
        Err(undef) => Err(PsFault::Error(error_of(undef))),
    }
}

/// `ineg`: the integer with its sign turned. An error leaves the state as it was.
pub fn negate(core: &mut PsCore) -> Result<(), PsFault>
    ensures does { Does result core.old core.new (negating core.old) }
    ensures closed { closed_part core.new.store ≡ closed_part core.old.store }
{
    let a = one_of(&core.operands)?;
    let x = word_in(a)?;
    match patterned(neg_checked(x.cast_signed())) {
        Ok(n) => {
            core.operands.replace(1, PsObj::Int(n.cast_signed()));
            Ok(())
        }
        Err(undef) => Err(PsFault::Error(error_of(undef))),
    }
}

/// `ult`: whether the lower operand is below the topmost one, both read as unsigned. An error leaves the state as it was.
pub fn compare_unsigned(core: &mut PsCore) -> Result<(), PsFault>
    ensures does { Does result core.old core.new (below core.old) }
    ensures closed { closed_part core.new.store ≡ closed_part core.old.store }
{
    let (a, b) = pair_of(&core.operands)?;
    let x = word_in(a)?;
    let y = word_in(b)?;
    core.operands.replace(2, PsObj::Bool(x < y));
    Ok(())
}
