// What the operators make of words (C90 6.3.5 to 6.3.8).

ghost use Rattle.std.specs.Prelude.{◌≡◌};
ghost use Rattle.c_operators.specs.Bits.{patterned};
ghost use Rattle.ps_words.specs.Words.{of_two};

use ldb_words::{
    Undef, Way, add_checked, div_checked, mul_checked, rem_checked, shift_checked, sub_checked,
};

/// An operator that makes a word of two: on `int`, on `unsigned`, or a shift of the first by the second.
#[derive(Clone, Copy)]
pub enum WordOperator {
    SignedAdd,
    SignedSubtract,
    SignedMultiply,
    SignedDivide,
    SignedRemainder,
    Divide,
    Remainder,
    Add,
    Subtract,
    Multiply,
    ShiftLeft,
    SignedShiftRight,
    ShiftRight,
}

/// A result on `int` as a word.
pub(crate) fn patterned(given: Result<i32, Undef>) -> Result<u32, Undef>
    ensures { result ≡ patterned given }
{
    match given {
        Ok(n) => Ok(n.cast_unsigned()),
        Err(undef) => Err(undef),
    }
}

impl WordOperator {
    /// What the operator makes of two words, or why C gives them no result.
    pub(crate) fn apply(self, x: u32, y: u32) -> Result<u32, Undef>
        ensures { result ≡ of_two self x y }
    {
        let (a, b) = (x.cast_signed(), y.cast_signed());
        match self {
            WordOperator::SignedAdd => patterned(add_checked(a, b)),
            WordOperator::SignedSubtract => patterned(sub_checked(a, b)),
            WordOperator::SignedMultiply => patterned(mul_checked(a, b)),
            WordOperator::SignedDivide => patterned(div_checked(a, b)),
            WordOperator::SignedRemainder => patterned(rem_checked(a, b)),
            WordOperator::Divide => {
                if y == 0 {
                    return Err(Undef::Division);
                }
                Ok(x / y)
            }
            WordOperator::Remainder => {
                if y == 0 {
                    return Err(Undef::Division);
                }
                Ok(x % y)
            }
            WordOperator::Add => Ok(x.wrapping_add(y)),
            WordOperator::Subtract => Ok(x.wrapping_sub(y)),
            WordOperator::Multiply => Ok(x.wrapping_mul(y)),
            WordOperator::ShiftLeft => shift_checked(x, y, Way::Left),
            WordOperator::SignedShiftRight => shift_checked(x, y, Way::RightSigned),
            WordOperator::ShiftRight => shift_checked(x, y, Way::RightUnsigned),
        }
    }
}
