// Classes of bytes.
ghost use Rattle.std.specs.Prelude.{◌≡◌, ◌≤◌, drop, take, length};
ghost use Rattle.c_lex.specs.Bytes.{is_letter, is_digit, is_octal, is_hex, is_part, is_blank, digit_of, starts_with};

/// A letter or `_`.
pub fn is_letter(b: u8) -> bool
    ensures { result ≡ is_letter b }
{
    (b >= b'a' && b <= b'z') || (b >= b'A' && b <= b'Z') || b == b'_'
}

/// A decimal digit.
pub fn is_digit(b: u8) -> bool
    ensures { result ≡ is_digit b }
{
    b >= b'0' && b <= b'9'
}

/// An octal digit.
pub fn is_octal(b: u8) -> bool
    ensures { result ≡ is_octal b }
{
    b >= b'0' && b <= b'7'
}

/// A hexadecimal digit.
pub fn is_hex(b: u8) -> bool
    ensures { result ≡ is_hex b }
{
    is_digit(b) || (b >= b'a' && b <= b'f') || (b >= b'A' && b <= b'F')
}

/// What may follow the first byte of a word.
pub fn is_part(b: u8) -> bool
    ensures { result ≡ is_part b }
{
    is_letter(b) || is_digit(b)
}

/// White space.
pub fn is_blank(b: u8) -> bool
    ensures { result ≡ is_blank b }
{
    b == b' ' || b == b'\t' || b == b'\n' || b == b'\r' || b == 11 || b == 12
}

/// The value of a hexadecimal digit; 16 for another byte.
pub fn digit_of(b: u8) -> u8
    ensures value { result ≡ digit_of b }
    ensures bound { result ≤ 16 }
{
    if b >= b'0' && b <= b'9' {
        b - b'0'
    } else if b >= b'a' && b <= b'f' {
        b - 87
    } else if b >= b'A' && b <= b'F' {
        b - 55
    } else {
        16
    }
}

/// Whether a byte stands at the front.
pub fn starts_with(byte: u8, text: &[u8]) -> bool
    ensures { result ≡ starts_with byte text.now }
{
    match text {
        [] => false,
        [b, ..] => *b == byte,
    }
}

/// The bytes from `at` on.
pub fn behind(text: &[u8], at: usize) -> &[u8]
    requires { at ≤ length text.now }
    ensures { result.now ≡ drop at text.now }
{
    &text[at..]
}

/// The first bytes.
pub fn front(text: &[u8], len: usize) -> &[u8]
    requires { len ≤ length text.now }
    ensures { result.now ≡ take len text.now }
{
    &text[..len]
}
