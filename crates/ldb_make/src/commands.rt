// The commands.

ghost use Rattle.std.specs.Prelude.{◌≡◌, ◌<◌, ◌++◌, OnOk, IfOk};
ghost use Rattle.ldb_make.specs.Commands.{round_text, rounds_text, commands_text};

use crate::lines::add_with;
use crate::words::pick;
use ldb_words::Text;
use std::alloc::{AllocError, Global};

/// How many rounds there are.
const ROUNDS: usize = 20;

/// The first word behind those of the program.
const FIRST: usize = 410;

/// What a round does before the item is named that it reads and assigns.
const LOOK: &str = "continue\nframes\nprint a\nframe 10\nprint t\neval t + g[";

/// Adds a round, drawn from the word with this number and the next one.
fn add_round(alloc: Global, text: &mut Text, words: &[u64], number: usize) -> Result<(), AllocError>
    requires { number < 450 }
    ensures { OnOk result (text.new ≡ text.old ++ round_text words.now number) }
{
    let item = pick(words, number, 16);
    let value = pick(words, number + 1, 1000);
    add_with(alloc, text, LOOK, item, "]\n")?;
    add_with(alloc, text, "assign g[", item, "] = ")?;
    add_with(alloc, text, "", value, "u\n")
}

/// Adds all rounds.
fn add_rounds(alloc: Global, text: &mut Text, words: &[u64]) -> Result<(), AllocError>
    ensures { OnOk result (text.new ≡ text.old ++ rounds_text words.now) }
{
    for round in 0..ROUNDS {
        add_round(alloc, text, words, FIRST + 2 * round)?;
    }
    Ok(())
}

/// The commands of these words.
pub fn commands_of(alloc: Global, words: &[u64]) -> Result<Text, AllocError>
    ensures { IfOk result (λ t. t ≡ commands_text words.now) }
{
    let mut text = Text::from_slice(alloc, b"turns 1000000000\nbreak f0\n")?;
    add_rounds(alloc, &mut text, words)?;
    text.append(b"clear f0\ncontinue\n")?;
    Ok(text)
}
