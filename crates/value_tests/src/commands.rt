// Command lines.

use c_session::{Command, Spot};
use cmd_lang::{CmdFault, is_empty, read_command};
use ldb_words::Text;
use std::alloc::{AllocError, Global};
use test_rows::append;

/// Appends a word and a text.
fn append_text(word: &str, text: &Text, out: &mut Vec<u8>) -> Result<(), AllocError> {
    append(out, word)?;
    out.extend_from_slice(text.as_bytes())
}

/// Appends a word and a place.
fn append_spot(
    alloc: Global,
    word: &str,
    spot: &Spot,
    out: &mut Vec<u8>,
) -> Result<(), AllocError> {
    match spot {
        Spot::Line { file, line, column } => {
            append_text(word, file, out)?;
            append(out, format!(in alloc; " at {line}, {column:?}")?.as_str())
        }
        Spot::Func { name } => append_text(word, name, out),
    }
}

fn append_command(alloc: Global, command: &Command, out: &mut Vec<u8>) -> Result<(), AllocError> {
    match command {
        Command::Break(spot) => append_spot(alloc, "break ", spot, out),
        Command::Clear(spot) => append_spot(alloc, "clear ", spot, out),
        Command::Continue => append(out, "continue"),
        Command::Step => append(out, "step"),
        Command::Turns(count) => append(out, format!(in alloc; "turns {count}")?.as_str()),
        Command::Frames => append(out, "frames"),
        Command::Frame(number) => append(out, format!(in alloc; "frame {number}")?.as_str()),
        Command::Print(name) => append_text("print ", name, out),
        Command::Eval(text) => append_text("eval ", text, out),
        Command::Assign(text) => append_text("assign ", text, out),
        Command::Quit => append(out, "quit"),
        Command::Regs => append(out, "regs"),
        Command::Code(text) => append_text("code ", text, out),
        Command::Ps(text) => append_text("ps ", text, out),
    }
}

/// Appends the command that a line is, or that it is none.
pub fn append_line(
    alloc: Global,
    raw: bool,
    line: &[u8],
    out: &mut Vec<u8>,
) -> Result<(), AllocError> {
    if is_empty(line) {
        return append(out, "empty");
    }
    match read_command(alloc, line, raw) {
        Ok(command) => append_command(alloc, &command, out),
        Err(CmdFault::Line) => append(out, "none"),
        Err(CmdFault::NoMemory) => append(out, "no memory"),
    }
}
