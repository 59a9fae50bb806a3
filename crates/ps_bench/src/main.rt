//! Runs a text of PostScript under no dialect: the words are `postscript FILE`.
#![tactic(auto)]

mod postscript;

use postscript::report;
use std::alloc::{AllocError, Global};
use std::io::Write;
use std::process::ExitCode;
use std::rt::{Env, Files};
use std::{env, fs, io};

/// The words after the program's name. Words that are no text count as none.
fn words_of(rt: &(impl Env + AllocGlobal), alloc: Global) -> Result<Vec<String>, AllocError> {
    match env::args(rt) {
        Ok(args) => args.skip(1).collect(alloc),
        Err(_) => Ok(Vec::new(alloc)),
    }
}

/// Runs the text of a file, and writes what it leaves.
fn run_file(rt: &(impl Files + Print + AllocGlobal), file: &str) -> io::Result<ExitCode> {
    let text = fs::read(rt, file)?;
    let lines = report(rt.alloc(), text.as_slice())?;
    io::writer(rt).write_all(lines.as_slice())?;
    Ok(ExitCode::SUCCESS)
}

fn main(rt: HostRuntime) -> io::Result<ExitCode> {
    let words = words_of(&rt, rt.alloc())?;
    match words.as_slice() {
        [first, file] if first.as_str() == "postscript" => run_file(&rt, file.as_str()),
        _ => {
            println!(rt; "ps_bench postscript FILE")?;
            Ok(ExitCode::from(2))
        }
    }
}
