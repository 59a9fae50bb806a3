// The program.

ghost use Rattle.std.specs.Prelude.{◌≡◌, ◌<◌, ◌≤◌, ◌++◌, OnOk, IfOk};
ghost use Rattle.ldb_make.specs.Program.{body_line, body_lines, head_lines, call_line, function_text, functions_text, main_text, program_text};

use crate::lines::add_with;
use crate::words::pick;
use ldb_words::Text;
use std::alloc::{AllocError, Global};

/// How many functions a program has beside `main`.
const FUNCTIONS: usize = 10;

/// How many lines are drawn for each function.
const LINES: usize = 20;

/// How many words each function takes.
const TAKEN: usize = 41;

/// The function `main`.
const MAIN: &[u8] =
    b"int main(void) {\n  unsigned i;\n  unsigned t;\n  for (i = 0u; i < 500u; i = i + 1u) {\n    t = t + f9(i, t);\n    putchar((int)(t & 63u) + 32);\n  }\n  return (int)(t & 127u);\n}\n";

/// The text of `main`.
#[tactic(auto, unfolding(crate::specs::Program::main_text))]
fn main_text() -> &'static [u8]
    ensures { result.now ≡ main_text }
{
    MAIN
}

/// Adds a line of a function, drawn from the word with this number and the next one.
#[tactic(auto, unfolding(crate::specs::Program::body_line))]
fn add_body_line(
    alloc: Global,
    text: &mut Text,
    words: &[u64],
    number: usize,
) -> Result<(), AllocError>
    requires { number < 411 }
    ensures { OnOk result (text.new ≡ text.old ++ body_line words.now number) }
{
    let form = pick(words, number, 4);
    let constant = pick(words, number + 1, 1000);
    match form {
        0 => add_with(alloc, text, "  t = t * ", constant, "u + a;\n"),
        1 => add_with(alloc, text, "  g[", constant % 16, "] = t ^ b;\n"),
        2 => add_with(alloc, text, "  if (t & 1u) a = a + ", constant, "u;\n"),
        _ => add_with(alloc, text, "  b = b - g[", constant % 16, "];\n"),
    }
}

/// Adds the lines that are drawn behind the word with this number.
fn add_body(alloc: Global, text: &mut Text, words: &[u64], first: usize) -> Result<(), AllocError>
    requires { first ≤ 369 }
    ensures { OnOk result (text.new ≡ text.old ++ body_lines words.now first) }
{
    for line in 0..LINES {
        add_body_line(alloc, text, words, first + 1 + 2 * line)?;
    }
    Ok(())
}

/// Adds the head of a function, drawn from the word with this number.
#[tactic(auto, unfolding(crate::specs::Program::head_lines))]
fn add_head(
    alloc: Global,
    text: &mut Text,
    words: &[u64],
    function: usize,
    first: usize,
) -> Result<(), AllocError>
    ensures { OnOk result (text.new ≡ text.old ++ head_lines words.now function first) }
{
    let name = function as u64;
    add_with(
        alloc,
        text,
        "unsigned f",
        name,
        "(unsigned a, unsigned b) {\n  unsigned t;\n",
    )?;
    let constant = pick(words, first, 1000);
    add_with(alloc, text, "  t = a ^ ", constant, "u;\n")
}

/// Adds a function's call of the one before it, if there is one.
#[tactic(auto, unfolding(crate::specs::Program::call_line))]
fn add_call_line(alloc: Global, text: &mut Text, function: usize) -> Result<(), AllocError>
    ensures { OnOk result (text.new ≡ text.old ++ call_line function) }
{
    if function == 0 {
        return Ok(());
    }
    let before = (function - 1) as u64;
    add_with(alloc, text, "  t = t + f", before, "(a, t);\n")
}

/// Adds a function.
fn add_function(
    alloc: Global,
    text: &mut Text,
    words: &[u64],
    function: usize,
) -> Result<(), AllocError>
    requires { function < 10 }
    ensures { OnOk result (text.new ≡ text.old ++ function_text words.now function) }
{
    let first = TAKEN * function;
    add_head(alloc, text, words, function, first)?;
    add_body(alloc, text, words, first)?;
    add_call_line(alloc, text, function)?;
    text.append(b"  return t;\n}\n")
}

/// Adds all functions but `main`.
fn add_functions(alloc: Global, text: &mut Text, words: &[u64]) -> Result<(), AllocError>
    ensures { OnOk result (text.new ≡ text.old ++ functions_text words.now) }
{
    for function in 0..FUNCTIONS {
        add_function(alloc, text, words, function)?;
    }
    Ok(())
}

/// The program of these words.
#[tactic(auto, unfolding(crate::specs::Program::program_text))]
pub fn program_of(alloc: Global, words: &[u64]) -> Result<Text, AllocError>
    ensures { IfOk result (λ t. t ≡ program_text words.now) }
{
    let mut text = Text::from_slice(alloc, b"unsigned g[16];\n")?;
    add_functions(alloc, &mut text, words)?;
    text.append(main_text())?;
    Ok(text)
}
