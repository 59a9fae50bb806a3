// Arithmetic on `int` and shifts of words, which answer an undefined result by its reason.

ghost use Rattle.std.specs.Prelude.{◌≡◌, ◌+ℤ◌, ◌-ℤ◌, ◌*ℤ◌, neg_ℤ, int_div, int_rem};
ghost use Rattle.ldb_words.specs.Arithmetic.{checked, checked_quotient, checked_shift};

use crate::kinds::{Undef, Way};

/// The sum, or Overflow exactly where it is outside 32 bits.
pub fn add_checked(a: i32, b: i32) -> Result<i32, Undef>
    ensures { result ≡ checked (a +ℤ b) }
{
    a.checked_add(b).ok_or(Undef::Overflow)
}

/// The difference, or Overflow exactly where it is outside 32 bits.
pub fn sub_checked(a: i32, b: i32) -> Result<i32, Undef>
    ensures { result ≡ checked (a -ℤ b) }
{
    a.checked_sub(b).ok_or(Undef::Overflow)
}

/// The product, or Overflow exactly where it is outside 32 bits.
pub fn mul_checked(a: i32, b: i32) -> Result<i32, Undef>
    ensures { result ≡ checked (a *ℤ b) }
{
    a.checked_mul(b).ok_or(Undef::Overflow)
}

/// The number with its sign turned, or Overflow exactly at the least number.
pub fn neg_checked(a: i32) -> Result<i32, Undef>
    ensures { result ≡ checked (neg_ℤ a) }
{
    a.checked_neg().ok_or(Undef::Overflow)
}

/// The quotient, or Division exactly where C has none.
pub fn div_checked(a: i32, b: i32) -> Result<i32, Undef>
    ensures { result ≡ checked_quotient a b (int_div a b) }
{
    a.checked_div(b).ok_or(Undef::Division)
}

/// The remainder, or Division exactly where C has none.
pub fn rem_checked(a: i32, b: i32) -> Result<i32, Undef>
    ensures { result ≡ checked_quotient a b (int_rem a b) }
{
    a.checked_rem(b).ok_or(Undef::Division)
}

/// The shifted bits, or Shift exactly where `by` is above 31.
pub fn shift_checked(bits: u32, by: u32, way: Way) -> Result<u32, Undef>
    ensures { result ≡ checked_shift bits by way }
{
    if by > 31 {
        return Err(Undef::Shift);
    }
    match way {
        Way::Left => Ok(bits << by),
        Way::RightSigned => Ok((bits.cast_signed() >> by).cast_unsigned()),
        Way::RightUnsigned => Ok(bits >> by),
    }
}
