// Integer constants.
ghost use Rattle.std.specs.Prelude.{◌≡◌, ◌≤◌, ◌<◌, ◌+◌, ◌^◌, drop, length, if◌then◌else◌, nat_le, Some, None};
ghost use Rattle.std.specs.List.{prefix_len};
ghost use Rattle.c_lex.specs.Bytes.{is_digit, is_octal, is_hex, starts_with};
ghost use Rattle.c_lex.specs.Numbers.{is_suffix, number_from, value_of, has_suffix, integer_of, starts_hex, zero_len, number_len, suffix_len, integer_len, in_range};

use crate::bytes::{behind as after, digit_of, is_digit, is_hex, is_octal, starts_with};

/// The value of an integer constant, and whether its type is `unsigned` (C90 6.1.3.2).
#[derive(Clone, Copy, Debug, PartialEq, Eq)]
pub struct Integer {
    pub value: u32,
    pub is_unsigned: bool,
}

fn is_suffix(b: u8) -> bool
    ensures { result ≡ is_suffix b }
{
    b == b'u' || b == b'U'
}

/// The number that the digits at the front are, if it is below 2^32.
#[tactic(auto, using(crate::proofs::Numbers::too_large))]
fn number_from(base: u32, digits: &[u8]) -> Option<u32>
    requires most { base ≤ 16 }
    requires least { 1 ≤ base }
    ensures { result ≡ in_range (number_from base 0 digits.now) }
{
    let mut number = 0u64;
    for b in digits {
        let digit = u32::from(digit_of(*b));
        if digit >= base {
            return Some(number as u32);
        }
        number = number * u64::from(base) + u64::from(digit);
        if number > 4_294_967_295 {
            return None;
        }
    }
    Some(number as u32)
}

/// The value of a constant, if it is below 2^32.
fn value_of(spelling: &[u8]) -> Option<u32>
    ensures { result ≡ in_range (value_of spelling.now) }
{
    match spelling {
        [] => Some(0),
        [b, behind @ ..] => {
            if *b == b'0' {
                if starts_with(b'x', behind) {
                    number_from(16, after(behind, 1))
                } else {
                    number_from(8, behind)
                }
            } else {
                number_from(10, spelling)
            }
        }
    }
}

fn has_suffix(spelling: &[u8]) -> bool
    ensures { result ≡ has_suffix spelling.now }
{
    match spelling.len() {
        0 => false,
        len => is_suffix(spelling[len - 1]),
    }
}

/// The value and the type of an integer constant, from its spelling; none above 4,294,967,295.
pub fn integer_of(spelling: &[u8]) -> Option<Integer>
    ensures { result ≡ integer_of spelling.now }
{
    let is_unsigned = has_suffix(spelling);
    match value_of(spelling) {
        Some(value) => Some(Integer {
            value,
            is_unsigned: is_unsigned || value > 2_147_483_647,
        }),
        None => None,
    }
}

fn digits_len(text: &[u8]) -> usize
    ensures value { result ≡ prefix_len is_digit text.now }
    ensures within { result ≤ length text.now }
{
    text.iter().take_while(|b| is_digit(**b)).count()
}

fn octal_len(text: &[u8]) -> usize
    ensures value { result ≡ prefix_len is_octal text.now }
    ensures within { result ≤ length text.now }
{
    text.iter().take_while(|b| is_octal(**b)).count()
}

fn hex_len(text: &[u8]) -> usize
    ensures value { result ≡ prefix_len is_hex text.now }
    ensures within { result ≤ length text.now }
{
    text.iter().take_while(|b| is_hex(**b)).count()
}

/// The digits behind a first 0, and the 0.
fn zero_len(behind: &[u8]) -> usize
    requires { length behind.now < 2 ^ 32 }
    ensures value { result ≡ zero_len behind.now }
    ensures within { result ≤ length behind.now + 1 }
{
    match behind {
        [b'x', d, ..] if is_hex(*d) => hex_len(after(behind, 1)) + 2,
        _ => octal_len(behind) + 1,
    }
}

fn number_len(text: &[u8]) -> usize
    requires { length text.now < 2 ^ 32 }
    ensures value { result ≡ number_len text.now }
    ensures within { result ≤ length text.now }
{
    match text {
        [] => 0,
        [b'0', behind @ ..] => zero_len(behind),
        _ => digits_len(text),
    }
}

fn suffix_len(text: &[u8]) -> usize
    ensures value { result ≡ suffix_len text.now }
    ensures within { result ≤ length text.now }
{
    match text {
        [b, ..] if is_suffix(*b) => 1,
        _ => 0,
    }
}

/// How long the integer constant at the front is, where a digit stands there.
pub fn integer_len(text: &[u8]) -> usize
    requires { length text.now < 2 ^ 32 }
    ensures value { result ≡ integer_len text.now }
    ensures within { result ≤ length text.now }
{
    let digits = number_len(text);
    digits + suffix_len(after(text, digits))
}
