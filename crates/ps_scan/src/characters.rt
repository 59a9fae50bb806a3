//! The characters that strings stand for (PostScript Language Reference, 3.2.2).

ghost use Rattle.std.specs.Prelude.{◌≡◌, ◌≤◌, ◌<◌, ◌+◌, IfOk, OnOk, Some, ◌++◌, length, take, drop};
ghost use Rattle.std.specs.Option.{option_to_list};
ghost use Rattle.ps_scan.specs.Bytes.{is_octal};
ghost use Rattle.ps_scan.specs.Characters.{octal_at, octal_len, octal_value, named_character, line_end, escape, part, characters, paired, hexadecimal_digits, inner, string_value};

use crate::number::digit_of;
use std::alloc::{AllocError, Global};

/// Whether a byte is an octal digit.
fn is_octal(byte: u8) -> bool
    ensures { result ≡ is_octal byte }
{
    48 <= byte && byte <= 55
}

/// Whether an octal digit stands at a place.
fn octal_at(text: &[u8], at: usize) -> bool
    ensures { result ≡ octal_at text.now at }
{
    match text.get(at) {
        Some(byte) => is_octal(*byte),
        None => false,
    }
}

/// How many octal digits stand at the front, at most three.
fn octal_len(text: &[u8]) -> usize
    ensures len { result ≡ octal_len text.now }
    ensures few { result ≤ 3 }
    ensures within { result ≤ length text.now }
{
    if !octal_at(text, 0) {
        0
    } else if !octal_at(text, 1) {
        1
    } else if !octal_at(text, 2) {
        2
    } else {
        3
    }
}

/// The number that octal digits are, whose high bits are dropped.
fn octal_value(digits: &[u8]) -> u8
    ensures { result ≡ octal_value digits.now }
{
    let mut value = 0u32;
    for byte in digits {
        value = (value * 8 + u32::from(byte.saturating_sub(48))) % 256;
    }
    value as u8
}

/// The character that a byte behind a backslash stands for.
fn named_character(byte: u8) -> u8
    ensures { result ≡ named_character byte }
{
    match byte {
        b'n' => 10,
        b'r' => 13,
        b't' => 9,
        b'b' => 8,
        b'f' => 12,
        other => other,
    }
}

/// How many bytes the end of a line takes that begins with a carriage return, behind which this follows.
fn line_end(rest: &[u8]) -> usize
    ensures len { result ≡ line_end rest.now }
    ensures some { 1 ≤ result }
    ensures few { result ≤ 2 }
{
    match rest {
        [10, ..] => 2,
        _ => 1,
    }
}

/// The part of a string that octal digits behind a backslash are.
fn octal(rest: &[u8]) -> (usize, Option<u8>)
    ensures part { result ≡ (1 + octal_len rest.now, Some (octal_value (take (octal_len rest.now) rest.now))) }
    ensures some { 1 ≤ result.0 }
    ensures few { result.0 ≤ 4 }
{
    let len = octal_len(rest);
    let (digits, _) = rest.split_at(len);
    (1 + len, Some(octal_value(digits)))
}

/// The part of a string that begins with a backslash: how many bytes it takes, and the character that it stands for.
fn escape(rest: &[u8]) -> (usize, Option<u8>)
    ensures part { result ≡ escape rest.now }
    ensures some { 1 ≤ result.0 }
    ensures few { result.0 ≤ 4 }
{
    match rest {
        [] => (1, None),
        [byte, more @ ..] => {
            if is_octal(*byte) {
                octal(rest)
            } else if *byte == 10 {
                (2, None)
            } else if *byte == 13 {
                (1 + line_end(more), None)
            } else {
                (2, Some(named_character(*byte)))
            }
        }
    }
}

/// The part of a string at the front.
fn part(text: &[u8]) -> (usize, Option<u8>)
    ensures part { result ≡ part text.now }
    ensures some { 1 ≤ result.0 }
    ensures few { result.0 ≤ 4 }
{
    match text {
        [] => (1, None),
        [byte, rest @ ..] => {
            if *byte == 92 {
                escape(rest)
            } else if *byte == 13 {
                (line_end(rest), Some(10))
            } else {
                (1, Some(*byte))
            }
        }
    }
}

/// The part of a string at a place.
fn part_at(text: &[u8], at: usize) -> (usize, Option<u8>)
    requires { at ≤ length text.now }
    ensures part { result ≡ part (drop at text.now) }
    ensures some { 1 ≤ result.0 }
    ensures few { result.0 ≤ 4 }
{
    part(&text[at..])
}

/// Adds the character that a part stands for.
fn add(all: &mut Vec<u8>, character: Option<u8>) -> Result<(), AllocError>
    ensures { OnOk result (all.new.items ≡ all.old.items ++ option_to_list character) }
{
    if let Some(character) = character {
        all.push(character)?;
    }
    Ok(())
}

/// The characters of what stands between parentheses.
fn characters(alloc: Global, body: &[u8]) -> Result<Vec<u8>, AllocError>
    ensures { IfOk result (λ all. all.items ≡ characters body.now) }
{
    let mut all = Vec::new(alloc);
    let mut i = 0;
    while i < body.len() {
        let (len, character) = part_at(body, i);
        add(&mut all, character)?;
        i += len;
    }
    Ok(all)
}

/// The characters of hexadecimal digits, two by two. Other bytes are passed over.
fn hexadecimal_characters(alloc: Global, body: &[u8]) -> Result<Vec<u8>, AllocError>
    ensures { IfOk result (λ all. all.items ≡ paired (hexadecimal_digits body.now)) }
{
    let mut all = Vec::new(alloc);
    let mut high: Option<u8> = None;
    for byte in body {
        let digit = digit_of(*byte);
        if digit < 16 {
            match high {
                Some(first) => {
                    all.push(first * 16 + digit as u8)?;
                    high = None;
                }
                None => high = Some(digit as u8),
            }
        }
    }
    if let Some(first) = high {
        all.push(first * 16)?;
    }
    Ok(all)
}

/// What stands between the first byte of a token and its last.
fn inner(token: &[u8]) -> &[u8]
    ensures { result.now ≡ inner token.now }
{
    match token {
        [_, body @ .., _] => body,
        _ => &[],
    }
}

/// The characters that a string token stands for, by its whole text.
pub fn string_value(alloc: Global, token: &[u8]) -> Result<Vec<u8>, AllocError>
    ensures { IfOk result (λ all. all.items ≡ string_value token.now) }
{
    match token {
        [60, ..] => hexadecimal_characters(alloc, inner(token)),
        _ => characters(alloc, inner(token)),
    }
}
