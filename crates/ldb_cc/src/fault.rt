// Why sources are not compiled.

use ldb_words::Text;
use std::alloc::AllocError;
use std::fmt::{Debug, Display, Error as FormatError, Formatter, Write};
use thiserror::Error;

/// Why sources are refused, in the order in which causes are told; or that there was no memory. Lines and columns count from 1, a column counts bytes,
/// and `unit` is the number of a source.
#[derive(Drop, Error)]
pub enum BuildFault {
    /// A file has more than 1,048,576 bytes.
    #[error("a source has more than 1,048,576 bytes")]
    Source,
    /// No token begins there, or a constant is out of range.
    #[error("source {unit} has no token at {line}.{column}")]
    Lex {
        unit: u32,
        line: u32,
        column: u32,
    },
    /// The files have more than 40,000 tokens.
    #[error("the sources have more than 40,000 tokens")]
    Tokens,
    /// The tokens of a file are no tree.
    #[error("source {unit} breaks the grammar at {line}.{column}")]
    Syntax {
        unit: u32,
        line: u32,
        column: u32,
    },
    /// A tree is nested more than 64 deep.
    #[error("source {unit} is nested more than 64 deep at {line}.{column}")]
    Deep {
        unit: u32,
        line: u32,
        column: u32,
    },
    /// A function has more than 16 parameters.
    #[error("a function has more than 16 parameters")]
    Arguments,
    /// A typing rule is broken.
    #[error("source {unit} breaks typing rule {rule} at {line}.{column}")]
    Rule {
        rule: u8,
        unit: u32,
        line: u32,
        column: u32,
    },
    /// A name is defined twice.
    #[error("a name is defined twice")]
    Twice {
        name: Text,
    },
    /// A name is used and not declared, or not defined.
    #[error("a name is not declared or not defined")]
    Unknown {
        name: Text,
    },
    /// No function `main` is defined.
    #[error("no function main is defined")]
    NoMain,
    /// The static data have more than 1,048,576 bytes.
    #[error("the static data have more than 1,048,576 bytes")]
    Statics,
    #[error("no memory")]
    NoMemory,
}

impl Debug for BuildFault {
    fn fmt<W: Write>(&self, f: &mut Formatter<W>) -> Result<(), FormatError> {
        Display::fmt(self, f)
    }
}

impl From<AllocError> for BuildFault {
    ghost use Rattle.std.specs.Prelude.{◌≡◌};
    ghost use Rattle.ldb_cc.specs.declared.fault.BuildFault.TheVariants.{NoMemory};

    ghost from_gives = { λ _ e. e ≡ NoMemory };

    fn from(_: AllocError) -> Self {
        BuildFault::NoMemory
    }
}
