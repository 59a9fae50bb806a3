// Tokens, and the values of single ones.

use c_defs::digest;
use c_lex::{
    LexFault, Token, TokenKind, character_value, integer_of, keyword_of, literal_bytes,
    punctuator_of, tokens,
};
use std::alloc::{AllocError, Global};
use test_rows::{append, append_escaped};

/// The tokens of a text.
pub fn tokens_of(alloc: Global, text: &[u8]) -> Result<Vec<Token>, LexFault> {
    if text.len() > 1_048_576 {
        return Err(LexFault::TooMany);
    }
    tokens(alloc, text)
}

/// The letter of a kind of token.
fn letter_of(kind: TokenKind) -> char {
    match kind {
        TokenKind::Identifier => 'I',
        TokenKind::Keyword => 'K',
        TokenKind::Integer => 'N',
        TokenKind::Character => 'C',
        TokenKind::Str => 'S',
        TokenKind::Punctuator => 'P',
    }
}

/// Appends each token's letter, offset and length, of `places` its line and column too, of `count` only how many there are; or why there are none.
pub fn append_tokens(
    alloc: Global,
    kind: &str,
    text: &[u8],
    out: &mut Vec<u8>,
) -> Result<(), AllocError> {
    let found = match tokens_of(alloc, text) {
        Ok(found) => found,
        Err(LexFault::Bad { at }) => return append(out, format!(in alloc; "bad {at}")?.as_str()),
        Err(LexFault::TooMany) => return append(out, "too many"),
        Err(LexFault::NoMemory) => return Err(AllocError),
    };
    if kind == "count" {
        let count = found.len();
        return append(out, format!(in alloc; "{count}")?.as_str());
    }
    for token in &found {
        let (letter, at, len) = (letter_of(token.kind), token.at, token.len);
        append(out, format!(in alloc; "{letter}{at}+{len}")?.as_str())?;
        if kind == "places" {
            let (line, column) = (token.line, token.column);
            append(out, format!(in alloc; "@{line}.{column}")?.as_str())?;
        }
        append(out, " ")?;
    }
    Ok(())
}

/// Appends what a spelling stands for.
pub fn append_value(
    alloc: Global,
    kind: &str,
    text: &[u8],
    out: &mut Vec<u8>,
) -> Result<(), AllocError> {
    let told = match kind {
        "integer" => format!(in alloc; "{:?}", integer_of(text))?,
        "character" => format!(in alloc; "{}", character_value(text))?,
        "keyword" => format!(in alloc; "{:?}", keyword_of(text))?,
        "punctuator" => format!(in alloc; "{:?}", punctuator_of(text))?,
        "digest" => format!(in alloc; "{}", digest(text))?,
        "literal" => return append_escaped(alloc, out, &literal_bytes(alloc, text)?),
        _ => String::from_str(alloc, "no such row")?,
    };
    append(out, told.as_str())
}
