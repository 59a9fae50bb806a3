// Character constants and string literals.
ghost use Rattle.std.specs.Prelude.{◌≡◌, ◌≤◌, ◌<◌, ◌+◌, ◌*◌, ◌^◌, ℕ, List, [], ◌∷◌, length, drop, false, IfSome, IfOk};
ghost use Rattle.c_lex.specs.Literals.{is_trigraph, ends_trigraph, escapes, item_of, octal_item, octal_last, hex_item, hex_last, escaped, escape_item, Literal, IsClosed, IsOne, signed_char, values_of, character_of};
ghost use Rattle.c_lex.specs.Bytes.{lookup, starts_with};

use crate::bytes::{behind, digit_of, is_hex, is_octal, starts_with};
use std::alloc::{AllocError, Global};

fn ends_trigraph(b: u8) -> bool
    ensures { result ≡ ends_trigraph b }
{
    b == b'='
        || b == b'('
        || b == b')'
        || b == b'/'
        || b == b'\''
        || b == b'<'
        || b == b'>'
        || b == b'!'
        || b == b'-'
}

/// Whether a trigraph stands at the front.
pub fn is_trigraph(text: &[u8]) -> bool
    ensures { result ≡ is_trigraph text.now }
{
    match text {
        [a, b, c, ..] => *a == b'?' && *b == b'?' && ends_trigraph(*c),
        _ => false,
    }
}

/// What a letter or a mark behind a backslash stands for.
fn escape_value(b: u8) -> Option<u8>
    ensures { result ≡ lookup escapes b }
{
    match b {
        b'n' => Some(b'\n'),
        b't' => Some(b'\t'),
        b'r' => Some(b'\r'),
        b'b' => Some(8),
        b'f' => Some(12),
        b'v' => Some(11),
        b'a' => Some(7),
        b'\\' => Some(b'\\'),
        b'\'' => Some(b'\''),
        b'"' => Some(b'"'),
        b'?' => Some(b'?'),
        _ => None,
    }
}

fn hex_last(value: u8, text: &[u8]) -> (usize, u8)
    requires { value ≤ 15 }
    ensures { result ≡ hex_last value text.now }
{
    match text {
        [b, ..] if is_hex(*b) => (4, value * 16 + digit_of(*b)),
        _ => (3, value),
    }
}

fn hex_item(text: &[u8]) -> Option<(usize, u8)>
    ensures { result ≡ hex_item text.now }
{
    match text {
        [a, behind @ ..] if is_hex(*a) => Some(hex_last(digit_of(*a), behind)),
        _ => None,
    }
}

fn octal_last(value: u8, text: &[u8]) -> Option<(usize, u8)>
    requires { value ≤ 63 }
    ensures { result ≡ octal_last value text.now }
{
    match text {
        [c, ..] if is_octal(*c) => {
            if value > 31 {
                return None;
            }
            Some((4, value * 8 + (*c - b'0')))
        }
        _ => Some((3, value)),
    }
}

fn octal_item(value: u8, text: &[u8]) -> Option<(usize, u8)>
    requires { value ≤ 7 }
    ensures { result ≡ octal_item value text.now }
{
    match text {
        [b, behind @ ..] if is_octal(*b) => octal_last(value * 8 + (*b - b'0'), behind),
        _ => Some((2, value)),
    }
}

/// The length, with the backslash, and the value of what stands behind a backslash.
fn escape_item(text: &[u8]) -> Option<(usize, u8)>
    ensures { result ≡ escape_item text.now }
{
    let (c, behind) = match text {
        [] => return None,
        [c, behind @ ..] => (*c, behind),
    };
    if is_octal(c) {
        return octal_item(c - b'0', behind);
    }
    if c == b'x' {
        return hex_item(behind);
    }
    match escape_value(c) {
        None => None,
        Some(value) => {
            if is_trigraph(text) {
                None
            } else {
                Some((2, value))
            }
        }
    }
}

/// The length and the value of the character or escape at the front, between two of these quotes.
fn front_item(quote: u8, text: &[u8]) -> Option<(usize, u8)>
    ensures { result ≡ item_of quote text.now }
{
    match text {
        [] => None,
        [c, behind @ ..] => {
            if *c == b'\\' {
                escape_item(behind)
            } else if *c == quote || *c == b'\n' || is_trigraph(text) {
                None
            } else {
                Some((1, *c))
            }
        }
    }
}

/// The same, within the text.
fn item_of(quote: u8, text: &[u8]) -> Option<(usize, u8)>
    ensures value { result ≡ item_of quote text.now }
    ensures some { IfSome result (λ p. 1 ≤ p.0) }
    ensures within { IfSome result (λ p. p.0 ≤ length text.now) }
{
    front_item(quote, text)
}

/// Where the literal ends whose opening quote stands before the text, behind the closing quote.
pub fn closed_len(quote: u8, text: &[u8]) -> Option<usize>
    requires { quote < 92 }
    ensures { IsClosed quote text.now result }
{
    let mut at = 0;
    while at < text.len() {
        let front = behind(text, at);
        if starts_with(quote, front) {
            return Some(at + 1);
        }
        match item_of(quote, front) {
            Some(item) => at += item.0,
            None => return None,
        }
    }
    None
}

/// The same for a character constant, which has one character or escape.
pub fn one_len(text: &[u8]) -> Option<usize>
    ensures { IsOne text.now result }
{
    match item_of(b'\'', text) {
        Some(item) => {
            if starts_with(b'\'', behind(text, item.0)) {
                Some(item.0 + 1)
            } else {
                None
            }
        }
        None => None,
    }
}

/// The bytes that a string literal stands for, of the text behind its opening quote.
pub fn literal_bytes(alloc: Global, text: &[u8]) -> Result<Vec<u8>, AllocError>
    ensures bytes { IfOk result (λ v. v.items ≡ values_of 0 text.now) }
    ensures literal { (values rest : List ℕ) → Literal 34 text.now values rest → values_of 0 text.now ≡ values }
{
    let mut values = Vec::new(alloc);
    let mut at = 0;
    while at < text.len() {
        let front = behind(text, at);
        if starts_with(b'"', front) {
            return Ok(values);
        }
        match item_of(b'"', front) {
            Some(item) => {
                values.push(item.1)?;
                at += item.0;
            }
            None => return Ok(values),
        }
    }
    Ok(values)
}

/// The value of a character constant, of the text behind its opening quote: its byte as a signed `char`.
pub fn character_value(text: &[u8]) -> i32
    ensures value { result ≡ character_of text.now }
    ensures literal { (v : ℕ) (rest : List ℕ) → Literal 39 text.now (v ∷ []) rest → character_of text.now ≡ signed_char v }
{
    match item_of(b'\'', text) {
        Some(item) => signed_char(item.1),
        None => 0,
    }
}

/// A byte as a signed `char`.
fn signed_char(value: u8) -> i32
    ensures { result ≡ signed_char value }
{
    if value < 128 {
        i32::from(value)
    } else {
        i32::from(value) - 256
    }
}
