// The tokens of a text.
ghost use Rattle.std.specs.Prelude.{◌≡◌, ◌≤◌, ◌<◌, ◌+◌, ◌^◌, ℕ, List, length, take, drop, IfOk, IfErr, OnOk, None, [], ◌∷◌, ◌++◌};
ghost use Rattle.c_lex.specs.declared.token.Token.{Token};
ghost use Rattle.c_lex.specs.Grammar.{past, after, token_at, gap_of, Lexes, Faults, start, HasTokens, HasFault};
ghost use Rattle.c_lex.specs.Front.{Begins};

use crate::bytes::{behind, front};
use crate::gap::gap_of;
use crate::longest::{fits, lexeme};
use crate::token::{LexFault, Place, Token, TokenKind};
use std::alloc::{AllocError, Global};

/// The most tokens that a text may have.
const MOST_TOKENS: usize = 40_000;

/// The place behind a byte.
fn past(place: Place, byte: u8) -> Place
    requires at { place.at < 2 ^ 31 }
    requires line { place.line ≤ place.at + 1 }
    requires column { place.column ≤ place.at + 1 }
    ensures { result ≡ past place byte }
{
    if byte == b'\n' {
        Place {
            at: place.at + 1,
            line: place.line + 1,
            column: 1,
        }
    } else {
        Place {
            at: place.at + 1,
            line: place.line,
            column: place.column + 1,
        }
    }
}

/// The place behind some bytes.
fn after(place: Place, bytes: &[u8]) -> Place
    requires at { place.at + length bytes.now ≤ 1048576 }
    requires line { place.line ≤ place.at + 1 }
    requires column { place.column ≤ place.at + 1 }
    ensures value { result ≡ after place bytes.now }
    ensures at { result.at ≡ place.at + length bytes.now }
    ensures line { result.line ≤ result.at + 1 }
    ensures column { result.column ≤ result.at + 1 }
{
    let mut place = place;
    for byte in bytes {
        place = past(place, *byte);
    }
    place
}

/// A token of `len` bytes at a place.
fn token_at(kind: TokenKind, place: Place, len: usize) -> Token
    requires { len < 2 ^ 32 }
    ensures { result ≡ token_at kind place len }
{
    Token {
        kind,
        at: place.at,
        len: len as u32,
        line: place.line,
        column: place.column,
    }
}

/// Adds a token at the end.
fn add(found: &mut Vec<Token>, token: Token) -> Result<(), AllocError>
    ensures { OnOk result (found.new.items ≡ found.old.items ++ token ∷ []) }
{
    found.push(token)?;
    Ok(())
}

/// The kind and the length of the token at the front, unless none begins there or it is out of range.
fn token_of(text: &[u8]) -> Option<(TokenKind, usize)>
    requires some { 1 ≤ length text.now }
    requires size { length text.now < 2 ^ 32 }
    requires gap { gap_of text.now ≡ None }
    ensures { Begins text.now result }
{
    match lexeme(text) {
        None => None,
        Some(token) => {
            if fits(token.0, front(text, token.1)) {
                Some(token)
            } else {
                None
            }
        }
    }
}

/// The tokens of a text of at most 1,048,576 bytes, in order. Bad comes before TooMany.
pub fn tokens(alloc: Global, text: &[u8]) -> Result<Vec<Token>, LexFault>
    requires { length text.now ≤ 1048576 }
    ensures tokens { IfOk result (λ found. HasTokens text.now found.items) }
    ensures fault { IfErr result (HasFault text.now) }
{
    let mut found = Vec::new(alloc);
    let mut place = Place {
        at: 0,
        line: 1,
        column: 1,
    };
    'reading: while (place.at as usize) < text.len() {
        let rest = behind(text, place.at as usize);
        if let Some(len) = gap_of(rest) {
            place = after(place, front(rest, len));
            continue;
        }
        match token_of(rest) {
            None => return Err(LexFault::Bad { at: place.at }),
            Some(token) => {
                add(&mut found, token_at(token.0, place, token.1))?;
                place = after(place, front(rest, token.1));
            }
        }
    }
    if found.as_slice().len() > MOST_TOKENS {
        return Err(LexFault::TooMany);
    }
    Ok(found)
}

/// A text has one list of tokens, or one first fault, and not both.
pub fn one_reading()
    ensures tokens { (text : List ℕ) (ts us : List Token) → Lexes start text ts → Lexes start text us → ts ≡ us }
    ensures either { (text : List ℕ) (ts : List Token) (at : ℕ) → Lexes start text ts → Faults start text at → ⊥ }
    ensures fault { (text : List ℕ) (a b : ℕ) → Faults start text a → Faults start text b → a ≡ b }
{}

/// The bytes of a token.
pub fn spelling(text: &[u8], token: Token) -> &[u8]
    ensures { result.now ≡ take token.len (drop token.at text.now) }
{
    let at = token.at as usize;
    if at > text.len() {
        return &[];
    }
    let rest = behind(text, at);
    let len = token.len as usize;
    if len > rest.len() {
        return rest;
    }
    front(rest, len)
}
