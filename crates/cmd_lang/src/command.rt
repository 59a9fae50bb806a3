// Command lines.
ghost use Rattle.std.specs.Prelude.{◌≡◌, ◌≢◌, IfOk, OnErr, IsErrOf, Err, None, Some, true};
ghost use Rattle.std.specs.Str.{bytes_eq};
ghost use Rattle.c_session.specs.declared.command.Command.TheVariants.{Quit};
ghost use Rattle.cmd_lang.specs.declared.command.CmdFault.TheVariants.{NoMemory};
ghost use Rattle.cmd_lang.specs.Commands.{alone, with_word, with_text, read_words, read_of};
ghost use Rattle.cmd_lang.specs.Words.{is_empty};

use crate::number::{limit_of, number_of};
use crate::place::spot_of;
use crate::words::{lone_word, split_word, without_blanks};
use c_session::Command;
use ldb_words::Text;
use std::alloc::{AllocError, Global};

/// Why a line gave no command: it is none, or there was no memory for its argument.
#[derive(Clone, Copy, Debug, PartialEq, Eq)]
pub enum CmdFault {
    Line,
    NoMemory,
}

/// The most bytes of a command line.
const LINE_BYTES: usize = 1000;

/// The command of a line. Where `raw` is true, `ps` is a command too. `quit` takes no memory, nor does a line of blanks.
pub fn read_command(alloc: Global, line: &[u8], raw: bool) -> Result<Command, CmdFault>
    ensures ok { IfOk result (λ command. read_of raw line.now ≡ Some command) }
    ensures line { IsErrOf result CmdFault.Line → read_of raw line.now ≡ None }
    ensures no_memory { IsErrOf result CmdFault.NoMemory → read_of raw line.now ≢ Some Quit }
    ensures blank { is_empty line.now ≡ true → result ≡ Err CmdFault.Line }
{
    if line.len() > LINE_BYTES {
        return Err(CmdFault::Line);
    }
    let words = without_blanks(line);
    if words.is_empty() {
        return Err(CmdFault::Line);
    }
    match read_words(alloc, raw, words) {
        Ok(Some(command)) => Ok(command),
        Ok(None) => Err(CmdFault::Line),
        Err(_) => Err(CmdFault::NoMemory),
    }
}

/// The command of a line that begins with no blank.
fn read_words(alloc: Global, raw: bool, line: &[u8]) -> Result<Option<Command>, AllocError>
    ensures ok { IfOk result (λ command. command ≡ read_words raw line.now) }
    ensures err { OnErr result (read_words raw line.now ≢ Some Quit) }
{
    let (word, rest) = split_word(line);
    if rest.is_empty() {
        Ok(alone(word))
    } else {
        with_text(alloc, raw, word, rest)
    }
}

/// Whether some bytes are a text.
fn is_same(bytes: &[u8], text: &str) -> bool
    ensures { result ≡ bytes_eq bytes.now text.now }
{
    bytes == text.as_bytes()
}

/// The command of a word that has no argument.
fn alone(word: &[u8]) -> Option<Command>
    ensures { result ≡ alone word.now }
{
    if is_same(word, "continue") {
        Some(Command::Continue)
    } else if is_same(word, "step") {
        Some(Command::Step)
    } else if is_same(word, "frames") {
        Some(Command::Frames)
    } else if is_same(word, "quit") {
        Some(Command::Quit)
    } else if is_same(word, "regs") {
        Some(Command::Regs)
    } else {
        None
    }
}

/// The command of a word with one word as its argument.
#[tactic(auto, using(crate::proofs::Quits::break_no_quit, crate::proofs::Quits::clear_no_quit))]
fn with_word(alloc: Global, word: &[u8], argument: &[u8]) -> Result<Option<Command>, AllocError>
    ensures ok { IfOk result (λ command. command ≡ with_word word.now argument.now) }
    ensures err { OnErr result (with_word word.now argument.now ≢ Some Quit) }
{
    if is_same(word, "print") {
        Ok(Some(Command::Print(Text::from_slice(alloc, argument)?)))
    } else if is_same(word, "break") {
        Ok(spot_of(alloc, argument)?.map(Command::Break))
    } else if is_same(word, "clear") {
        Ok(spot_of(alloc, argument)?.map(Command::Clear))
    } else if is_same(word, "turns") {
        Ok(limit_of(argument).map(Command::Turns))
    } else if is_same(word, "frame") {
        Ok(number_of(argument).map(Command::Frame))
    } else {
        Ok(None)
    }
}

/// The command of a word whose argument is a text that isn't empty.
fn with_text(
    alloc: Global,
    raw: bool,
    word: &[u8],
    text: &[u8],
) -> Result<Option<Command>, AllocError>
    ensures ok { IfOk result (λ command. command ≡ with_text raw word.now text.now) }
    ensures err { OnErr result (with_text raw word.now text.now ≢ Some Quit) }
{
    if is_same(word, "eval") {
        Ok(Some(Command::Eval(Text::from_slice(alloc, text)?)))
    } else if is_same(word, "assign") {
        Ok(Some(Command::Assign(Text::from_slice(alloc, text)?)))
    } else if is_same(word, "code") {
        Ok(Some(Command::Code(Text::from_slice(alloc, text)?)))
    } else if raw && is_same(word, "ps") {
        Ok(Some(Command::Ps(Text::from_slice(alloc, text)?)))
    } else {
        match lone_word(text) {
            Some(argument) => with_word(alloc, word, argument),
            None => Ok(None),
        }
    }
}
