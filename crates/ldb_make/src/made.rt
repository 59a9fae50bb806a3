// A program and its commands.

ghost use Rattle.std.specs.Prelude.{◌≡◌, IfOk};
ghost use Rattle.ldb_make.specs.Words.{words};
ghost use Rattle.ldb_make.specs.Program.{program_text};
ghost use Rattle.ldb_make.specs.Commands.{commands_text};

use crate::commands::commands_of;
use crate::program::program_of;
use crate::words::words_of;
use ldb_words::Text;
use std::alloc::{AllocError, Global};

/// A generated program, and the commands of a session over it.
#[derive(Drop)]
pub struct Made {
    pub program: Text,
    pub commands: Text,
}

/// The program of a number, and its commands.
pub fn make(alloc: Global, n: u32) -> Result<Made, AllocError>
    ensures program { IfOk result (λ made. made.program ≡ program_text (words n)) }
    ensures commands { IfOk result (λ made. made.commands ≡ commands_text (words n)) }
{
    let words = words_of(alloc, n)?;
    let program = program_of(alloc, &words)?;
    let commands = commands_of(alloc, &words)?;
    Ok(Made { program, commands })
}
