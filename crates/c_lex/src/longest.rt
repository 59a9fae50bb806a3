// The longest token at the front of a text.
ghost use Rattle.std.specs.Prelude.{◌≡◌, ◌≤◌, ◌<◌, ◌^◌, length, take, IfSome, Some, None};
ghost use Rattle.std.specs.List.{prefix_len};
ghost use Rattle.c_lex.specs.Bytes.{is_part};
ghost use Rattle.c_lex.specs.Grammar.{is_barred, is_some, fits};
ghost use Rattle.c_lex.specs.Front.{class_of, word_kind, has_mark, mark_len, Front};
ghost use Rattle.c_lex.specs.Keywords.{keyword_of};
ghost use Rattle.c_lex.specs.declared.longest.Class.TheVariants.{Word, Quote, DoubleQuote};

use crate::bytes::{behind, front, is_digit, is_letter, is_part, starts_with};
use crate::keyword::keyword_of;
use crate::literal::{closed_len, is_trigraph, one_len};
use crate::number::{integer_len, integer_of};
use crate::punctuator::punctuator_of;
use crate::token::TokenKind;

/// What the first byte of a token tells.
enum Class {
    Word,
    Number,
    Quote,
    DoubleQuote,
    Other,
}

/// The class of the token at the front.
fn class_of(text: &[u8]) -> Class
    ensures { result ≡ class_of text.now }
{
    match text {
        [] => Class::Other,
        [b, ..] => {
            if is_letter(*b) {
                Class::Word
            } else if is_digit(*b) {
                Class::Number
            } else if *b == b'\'' {
                Class::Quote
            } else if *b == b'"' {
                Class::DoubleQuote
            } else {
                Class::Other
            }
        }
    }
}

/// Whether `/*`, `//` or a trigraph stands at the front.
fn is_barred(text: &[u8]) -> bool
    ensures { result ≡ is_barred text.now }
{
    match text {
        [] => false,
        [b, behind @ ..] => {
            (*b == b'/' && starts_with(b'*', behind))
                || (*b == b'/' && starts_with(b'/', behind))
                || is_trigraph(text)
        }
    }
}

fn has_mark(text: &[u8], len: usize) -> bool
    ensures { result ≡ has_mark text.now len }
{
    len <= text.len() && punctuator_of(front(text, len)).is_some()
}

/// How long the operator or punctuator at the front is.
fn mark_len(text: &[u8]) -> Option<usize>
    ensures { result ≡ mark_len text.now }
{
    if is_barred(text) {
        return None;
    }
    if has_mark(text, 3) {
        return Some(3);
    }
    if has_mark(text, 2) {
        return Some(2);
    }
    if has_mark(text, 1) { Some(1) } else { None }
}

/// How long the word at the front is.
fn word_len(text: &[u8]) -> usize
    ensures value { result ≡ prefix_len is_part text.now }
    ensures within { result ≤ length text.now }
{
    text.iter().take_while(|b| is_part(**b)).count()
}

fn word_kind(spelling: &[u8]) -> TokenKind
    ensures { result ≡ word_kind spelling.now }
{
    if keyword_of(spelling).is_some() {
        TokenKind::Keyword
    } else {
        TokenKind::Identifier
    }
}

/// The word at the front.
fn word(text: &[u8]) -> (TokenKind, usize)
    requires { class_of text.now ≡ Word }
    ensures { Front text.now (Some result) }
{
    let len = word_len(text);
    (word_kind(front(text, len)), len)
}

fn character(text: &[u8]) -> Option<(TokenKind, usize)>
    requires class { class_of text.now ≡ Quote }
    requires some { 1 ≤ length text.now }
    ensures { Front text.now result }
{
    match one_len(behind(text, 1)) {
        Some(len) => Some((TokenKind::Character, len + 1)),
        None => None,
    }
}

fn string(text: &[u8]) -> Option<(TokenKind, usize)>
    requires class { class_of text.now ≡ DoubleQuote }
    requires some { 1 ≤ length text.now }
    ensures { Front text.now result }
{
    match closed_len(b'"', behind(text, 1)) {
        Some(len) => Some((TokenKind::Str, len + 1)),
        None => None,
    }
}

/// The kind and the length of the longest token at the front, if one begins there.
pub fn lexeme(text: &[u8]) -> Option<(TokenKind, usize)>
    requires { length text.now < 2 ^ 32 }
    ensures { Front text.now result }
{
    match class_of(text) {
        Class::Word => Some(word(text)),
        Class::Number => Some((TokenKind::Integer, integer_len(text))),
        Class::Quote => character(text),
        Class::DoubleQuote => string(text),
        Class::Other => match mark_len(text) {
            Some(len) => Some((TokenKind::Punctuator, len)),
            None => None,
        },
    }
}

/// Whether a token of this kind is in range: 63 bytes of a word, 32 bits of an integer constant.
pub fn fits(kind: TokenKind, spelling: &[u8]) -> bool
    ensures { result ≡ fits kind spelling.now }
{
    match kind {
        TokenKind::Identifier | TokenKind::Keyword => spelling.len() <= 63,
        TokenKind::Integer => integer_of(spelling).is_some(),
        TokenKind::Character | TokenKind::Str | TokenKind::Punctuator => true,
    }
}
