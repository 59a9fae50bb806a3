// Tokens, and where they stand.
ghost use Rattle.std.specs.Prelude.{◌≡◌};
ghost use Rattle.c_lex.specs.declared.token.LexFault.TheVariants.{NoMemory};

use std::alloc::AllocError;

/// What a token is (C90 6.1). The seven classes of C90, where operators and punctuators are one.
#[derive(Clone, Copy, Debug, PartialEq, Eq)]
pub enum TokenKind {
    Identifier,
    Keyword,
    Integer,
    Character,
    Str,
    Punctuator,
}

/// A token: the bytes from `at` on, `len` of them. Lines and columns count from 1, and a column counts bytes.
#[derive(Clone, Copy, Debug, PartialEq, Eq)]
pub struct Token {
    pub kind: TokenKind,
    pub at: u32,
    pub len: u32,
    pub line: u32,
    pub column: u32,
}

/// A place in a text: an offset in bytes, a line and a column, both from 1.
#[derive(Clone, Copy, Debug, PartialEq, Eq)]
pub struct Place {
    pub at: u32,
    pub line: u32,
    pub column: u32,
}

/// Why a text has no tokens.
#[derive(Clone, Copy, Debug, PartialEq, Eq)]
pub enum LexFault {
    /// At this offset no token begins, or the constant there is out of range.
    Bad { at: u32 },
    /// More than 40,000 tokens.
    TooMany,
    NoMemory,
}

impl From<AllocError> for LexFault {
    ghost from_gives = { λ _ e. e ≡ NoMemory };

    fn from(_: AllocError) -> Self {
        LexFault::NoMemory
    }
}
