// Quotients and condition codes (SPARC V8 manual, sections B.12 and B.19).

ghost use Rattle.std.specs.Prelude.{◌≡◌, ◌<◌};
ghost use Rattle.sparc_isa.specs.Arithmetic.{quotient_unsigned, quotient_signed, clamped, codes_of};

use ldb_words::sub_checked;

/// The quotient of 64 bits by a word, without a sign; the greatest word where it is above that.
#[tactic(auto, unfolding(crate::specs::Arithmetic::quotient_unsigned))]
pub fn quotient_unsigned(dividend: u64, divisor: u32) -> u32
    requires { 0 < divisor }
    ensures { result ≡ quotient_unsigned dividend divisor }
{
    let quotient = dividend / u64::from(divisor);
    if quotient > 0xffff_ffff {
        u32::MAX
    } else {
        quotient as u32
    }
}

/// The nearest number of 32 bits.
fn clamped(value: i64) -> i32
    ensures { result ≡ clamped value }
{
    if value > 0x7fff_ffff {
        i32::MAX
    } else if value < -0x8000_0000 {
        i32::MIN
    } else {
        value as i32
    }
}

/// The quotient of 64 bits by a word, with a sign, rounded toward zero; the greatest or the least word
/// where it is above or below that.
#[tactic(auto, unfolding(crate::specs::Arithmetic::quotient_signed))]
pub fn quotient_signed(dividend: u64, divisor: u32) -> u32
    requires { 0 < divisor }
    ensures { result ≡ quotient_signed dividend divisor }
{
    let quotient = dividend
        .cast_signed()
        .checked_div(i64::from(divisor.cast_signed()));
    match quotient {
        Some(value) => clamped(value).cast_unsigned(),
        None => i32::MAX.cast_unsigned(),
    }
}

/// The codes of a subtraction: N, Z, V and C from bit 3 down, where C is the borrow.
#[tactic(auto, unfolding(crate::specs::Arithmetic::codes_of))]
pub fn subtraction_codes(a: u32, b: u32) -> u8
    ensures value { result ≡ codes_of a b }
    ensures in_range { result < 16 }
{
    let difference = a.wrapping_sub(b);
    let overflow = sub_checked(a.cast_signed(), b.cast_signed()).is_err();
    8 * u8::from(difference > 0x7fff_ffff)
        + 4 * u8::from(difference == 0)
        + 2 * u8::from(overflow)
        + u8::from(a < b)
}
