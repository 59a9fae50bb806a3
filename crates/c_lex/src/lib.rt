//! The tokens of C (C90 6.1), without floating constants, wide literals, `...` and `#`.
#![tactic(auto)]

mod bytes;
mod gap;
mod keyword;
mod lex;
mod literal;
mod longest;
mod number;
mod punctuator;
mod token;

pub use keyword::{Keyword, keyword_of};
pub use lex::{one_reading, spelling, tokens};
pub use literal::{character_value, literal_bytes};
pub use number::{Integer, integer_of};
pub use punctuator::{Punctuator, punctuator_of};
pub use token::{LexFault, Place, Token, TokenKind};
