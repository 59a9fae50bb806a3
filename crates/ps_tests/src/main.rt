//! Runs tables of PostScript texts under no dialect. Each word is the name of a table's file; each row of a table is a text,
//! ` =>` and what the text leaves. Tests of tokens, the store and the limit of steps stand beside it.
#![tactic(auto)]

mod rows;
#[cfg(test)]
mod spending;
#[cfg(test)]
mod storing;
#[cfg(test)]
mod tokens;

use rows::report;
use std::alloc::{AllocError, Global};
use std::io::Write;
use std::rt::{Env, Files};
use std::{env, fs, io};

/// The words after the program's name. Words that are no text count as none.
fn words_of(rt: &(impl Env + AllocGlobal), alloc: Global) -> Result<Vec<String>, AllocError> {
    match env::args(rt) {
        Ok(args) => args.skip(1).collect(alloc),
        Err(_) => Ok(Vec::new(alloc)),
    }
}

/// Runs the rows of a file, and writes which differ and how many agree.
fn run_table(rt: &(impl Files + Print + AllocGlobal), file: &str) -> io::Result<()> {
    let table = fs::read_to_string(rt, file)?;
    let lines = report(rt.alloc(), table.as_str())?;
    io::writer(rt).write_all(lines.as_slice())
}

fn main(rt: HostRuntime) -> io::Result<()> {
    let words = words_of(&rt, rt.alloc())?;
    for file in &words {
        run_table(&rt, file.as_str())?;
    }
    Ok(())
}
