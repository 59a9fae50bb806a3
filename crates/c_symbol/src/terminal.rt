// Terminals: tokens with their symbols, places and texts.
ghost use Rattle.std.specs.Prelude.{◌≡◌, IfOk};
ghost use Rattle.c_symbol.specs.Terminals.{terminal_of, text_of, is_text, place_of, merged, pushed, JoinsAll};

use crate::symbol::{behind_quote, symbol_of};
use crate::{LeafKind, Symbol};
use c_lex::{Place, Token, TokenKind, literal_bytes, spelling};
use ldb_words::Text;
use std::alloc::{AllocError, Global};

/// A token as the grammar sees it: what it is, where it begins, and the bytes of a name or those that string literals stand for. Any other token has no text.
#[derive(Drop)]
pub struct Terminal {
    pub symbol: Symbol,
    pub place: Place,
    pub text: Text,
}

/// Whether a token is a string literal.
fn is_text(symbol: Symbol) -> bool
    ensures { result ≡ is_text symbol }
{
    match symbol {
        Symbol::Leaf(LeafKind::Text) => true,
        _ => false,
    }
}

/// The text of a name, or the bytes that a string literal stands for.
fn text_of(alloc: Global, kind: TokenKind, spelling: &[u8]) -> Result<Text, AllocError>
    ensures { IfOk result (λ t. t ≡ text_of kind spelling.now) }
{
    match kind {
        TokenKind::Identifier => Text::from_slice(alloc, spelling),
        TokenKind::Str => {
            let bytes = literal_bytes(alloc, behind_quote(spelling))?;
            Ok(Text::from_vec(bytes))
        }
        TokenKind::Keyword | TokenKind::Integer | TokenKind::Character | TokenKind::Punctuator =>
            Ok(Text::new(alloc)),
    }
}

fn place_of(token: Token) -> Place
    ensures { result ≡ place_of token }
{
    Place {
        at: token.at,
        line: token.line,
        column: token.column,
    }
}

/// The terminal that one token of a text is.
pub fn terminal_of(alloc: Global, text: &[u8], token: Token) -> Result<Terminal, AllocError>
    ensures { IfOk result (λ t. t ≡ terminal_of text.now token) }
{
    let bytes = spelling(text, token);
    let symbol = symbol_of(token.kind, bytes);
    let name = text_of(alloc, token.kind, bytes)?;
    Ok(Terminal {
        symbol,
        place: place_of(token),
        text: name,
    })
}

/// Joins adjacent string literals as tokens come one by one: it keeps the last terminal back until the next one shows that it is whole.
#[derive(Drop)]
pub struct Joiner {
    pub last: Option<Terminal>,
}

/// Both literals as one, at the place of the first.
fn merged(before: Terminal, next: Terminal) -> Result<Terminal, AllocError>
    ensures { IfOk result (λ t. t ≡ merged before next) }
{
    let Terminal {
        symbol,
        place,
        text: mut text,
    } = before;
    text.append(next.text.as_bytes())?;
    Ok(Terminal {
        symbol,
        place,
        text,
    })
}

impl Joiner {
    /// Takes the next terminal, and gives the one before it once that is whole. Where there is no memory to join two strings, both are gone.
    pub fn push(&mut self, next: Terminal) -> Result<Option<Terminal>, AllocError>
        ensures { IfOk result (λ whole. pushed self.old.last next ≡ (whole, self.new.last)) }
    {
        match self.last.take() {
            None => {
                self.last = Some(next);
                Ok(None)
            }
            Some(before) => {
                if is_text(before.symbol) && is_text(next.symbol) {
                    self.last = Some(merged(before, next)?);
                    return Ok(None);
                }
                self.last = Some(next);
                Ok(Some(before))
            }
        }
    }
}

/// Terminals that are joined one by one are those of the whole text.
pub fn joined_one_by_one()
    ensures { JoinsAll }
{}
