// Places of a command.
ghost use Rattle.std.specs.Prelude.{◌≡◌, ◌≤◌, ◌<◌, length, IfOk};
ghost use Rattle.std.specs.List.{list_all, prefix_len, suffix_len};
ghost use Rattle.c_lex.specs.Bytes.{is_letter, is_part};
ghost use Rattle.cmd_lang.specs.Places.{is_name, is_other, line_len, place_len, positions_of, func_of, spot_of};

use crate::number::position_of;
use c_lex::keyword_of;
use c_session::Spot;
use ldb_words::Text;
use std::alloc::{AllocError, Global};

fn is_letter(b: u8) -> bool
    ensures { result ≡ is_letter b }
{
    (b >= b'a' && b <= b'z') || (b >= b'A' && b <= b'Z') || b == b'_'
}

fn is_part(b: u8) -> bool
    ensures { result ≡ is_part b }
{
    is_letter(b) || (b >= b'0' && b <= b'9')
}

fn is_parts(word: &[u8]) -> bool
    ensures { result ≡ list_all is_part word.now }
{
    word.iter().all(|b| is_part(*b))
}

/// Whether a word is an identifier and no keyword.
pub fn is_name(word: &[u8]) -> bool
    ensures { result ≡ is_name word.now }
{
    let [first, ..] = word else {
        return false;
    };
    is_letter(*first) && is_parts(word) && word.len() <= 63 && keyword_of(word).is_none()
}

/// How many bytes stand before the first `.`.
fn line_len(word: &[u8]) -> usize
    ensures value { result ≡ line_len word.now }
    ensures within { result ≤ length word.now }
{
    word.iter().take_while(|b| **b != b'.').count()
}

/// How many bytes stand behind the last `:`.
fn place_len(word: &[u8]) -> usize
    ensures value { result ≡ place_len word.now }
    ensures within { result ≤ length word.now }
{
    word.iter().rev().take_while(|b| **b != b':').count()
}

/// The line and the column that a word is.
fn positions(word: &[u8]) -> Option<(u32, Option<u32>)>
    ensures { result ≡ positions_of word.now }
{
    let len = line_len(word);
    if len == word.len() {
        return Some((position_of(word)?, None));
    }
    let line = position_of(&word[..len])?;
    Some((line, Some(position_of(&word[len + 1..])?)))
}

/// The place that a word is, if it is one.
pub fn spot_of(alloc: Global, word: &[u8]) -> Result<Option<Spot>, AllocError>
    ensures { IfOk result (λ spot. spot ≡ spot_of word.now) }
{
    let behind = place_len(word);
    if behind == word.len() {
        return name_of(alloc, word);
    }
    let start = word.len() - behind;
    let file = &word[..start - 1];
    let Some((line, column)) = positions(&word[start..]) else {
        return Ok(None);
    };
    if file.is_empty() {
        return Ok(None);
    }
    let file = Text::from_slice(alloc, file)?;
    Ok(Some(Spot::Line { file, line, column }))
}

/// The place of a function's name.
fn name_of(alloc: Global, word: &[u8]) -> Result<Option<Spot>, AllocError>
    ensures { IfOk result (λ spot. spot ≡ func_of word.now) }
{
    if !is_name(word) {
        return Ok(None);
    }
    let name = Text::from_slice(alloc, word)?;
    Ok(Some(Spot::Func { name }))
}
