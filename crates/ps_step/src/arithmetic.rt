//! Operators on integers and booleans (PostScript Language Reference Manual, 8.1, "Arithmetic and Math", "Relational, Boolean, and Bitwise").

ghost use Rattle.std.specs.Prelude.{◌≡◌};
ghost use Rattle.ps_step.specs.Arithmetic.{integer_of, truth_of, quotient, remainder, of_integers, arithmetic_of, bits_of, truths_of, bitwise_of, opposite_of, negation_of, shifted, shifting_of};

use crate::fault::PsError;
use ps_store::PsObj;

/// An operator that makes one integer of two.
#[derive(Clone, Copy)]
pub enum Arithmetic {
    Add,
    Sub,
    Mul,
    Idiv,
    Mod,
}

/// An operator on two booleans, or on the bits of two integers.
#[derive(Clone, Copy)]
pub enum Bitwise {
    And,
    Or,
    Xor,
}

/// The integer that an object is.
pub fn integer_of(object: PsObj) -> Result<i32, PsError>
    ensures { result ≡ integer_of object }
{
    match object {
        PsObj::Int(n) => Ok(n),
        _ => Err(PsError::TypeCheck),
    }
}

/// The boolean that an object is.
pub fn truth_of(object: PsObj) -> Result<bool, PsError>
    ensures { result ≡ truth_of object }
{
    match object {
        PsObj::Bool(b) => Ok(b),
        _ => Err(PsError::TypeCheck),
    }
}

/// The quotient of two integers, rounded toward zero.
fn quotient(x: i32, y: i32) -> Result<i32, PsError>
    ensures { result ≡ quotient x y }
{
    if y == 0 {
        return Err(PsError::UndefinedResult);
    }
    x.checked_div(y).ok_or(PsError::RangeCheck)
}

/// The remainder of two integers, which has the sign of the first.
fn remainder(x: i32, y: i32) -> Result<i32, PsError>
    ensures { result ≡ remainder x y }
{
    if y == 0 {
        return Err(PsError::UndefinedResult);
    }
    Ok(x.wrapping_rem(y))
}

impl Arithmetic {
    /// What the operator makes of two integers.
    fn of_integers(self, x: i32, y: i32) -> Result<i32, PsError>
        ensures { result ≡ of_integers self x y }
    {
        match self {
            Arithmetic::Add => x.checked_add(y).ok_or(PsError::RangeCheck),
            Arithmetic::Sub => x.checked_sub(y).ok_or(PsError::RangeCheck),
            Arithmetic::Mul => x.checked_mul(y).ok_or(PsError::RangeCheck),
            Arithmetic::Idiv => quotient(x, y),
            Arithmetic::Mod => remainder(x, y),
        }
    }

    /// What the operator makes of two objects.
    pub fn apply(self, a: PsObj, b: PsObj) -> Result<PsObj, PsError>
        ensures { result ≡ arithmetic_of self a b }
    {
        let x = integer_of(a)?;
        let y = integer_of(b)?;
        let n = self.of_integers(x, y)?;
        Ok(PsObj::Int(n))
    }
}

impl Bitwise {
    /// What the operator makes of the bits of two integers.
    fn of_bits(self, x: i32, y: i32) -> i32
        ensures { result ≡ bits_of self x y }
    {
        match self {
            Bitwise::And => x & y,
            Bitwise::Or => x | y,
            Bitwise::Xor => x ^ y,
        }
    }

    /// What the operator makes of two booleans.
    fn of_truths(self, x: bool, y: bool) -> bool
        ensures { result ≡ truths_of self x y }
    {
        match self {
            Bitwise::And => x && y,
            Bitwise::Or => x || y,
            Bitwise::Xor => { if x { !y } else { y } }
        }
    }

    /// What the operator makes of two objects.
    pub fn apply(self, a: PsObj, b: PsObj) -> Result<PsObj, PsError>
        ensures { result ≡ bitwise_of self a b }
    {
        match (a, b) {
            (PsObj::Bool(x), PsObj::Bool(y)) => Ok(PsObj::Bool(self.of_truths(x, y))),
            (PsObj::Int(x), PsObj::Int(y)) => Ok(PsObj::Int(self.of_bits(x, y))),
            _ => Err(PsError::TypeCheck),
        }
    }
}

/// What `not` makes of an object.
pub fn opposite_of(a: PsObj) -> Result<PsObj, PsError>
    ensures { result ≡ opposite_of a }
{
    match a {
        PsObj::Bool(b) => Ok(PsObj::Bool(!b)),
        PsObj::Int(n) => Ok(PsObj::Int(!n)),
        _ => Err(PsError::TypeCheck),
    }
}

/// What `neg` makes of an object.
pub fn negation_of(a: PsObj) -> Result<PsObj, PsError>
    ensures { result ≡ negation_of a }
{
    let x = integer_of(a)?;
    let n = x.checked_neg().ok_or(PsError::RangeCheck)?;
    Ok(PsObj::Int(n))
}

/// The bits of an integer moved to the left, or to the right where `by` is negative. Zeros come in.
fn shifted(x: i32, by: i32) -> i32
    ensures { result ≡ shifted x by }
{
    let bits = x.cast_unsigned();
    let count = by.unsigned_abs();
    if count > 31 {
        return 0;
    }
    if 0 <= by {
        (bits << count).cast_signed()
    } else {
        (bits >> count).cast_signed()
    }
}

/// What `bitshift` makes of two objects.
pub fn shifting_of(a: PsObj, b: PsObj) -> Result<PsObj, PsError>
    ensures { result ≡ shifting_of a b }
{
    let x = integer_of(a)?;
    let by = integer_of(b)?;
    Ok(PsObj::Int(shifted(x, by)))
}
