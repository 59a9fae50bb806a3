//! Looks through the sources of a program: the words are `front SRC..`. Prints `accepted` and each stopping point, or why the program is refused.
//! With other words it compares the front with the rows of the tables that they name; docs/TESTS.md has the kinds of rows.
#![tactic(auto)]

mod front;
mod report;
mod rows;

use front::Source;
use ldb_words::Text;
use report::report;
use rows::Tables;
use std::alloc::{AllocError, Global};
use std::io::Write;
use std::process::ExitCode;
use std::rt::{Env, Files};
use std::{env, fs, io};
use test_rows::run_tables;

/// The words after the program's name. Words that are no text count as none.
fn words_of(rt: &(impl Env + AllocGlobal), alloc: Global) -> Result<Vec<String>, AllocError> {
    match env::args(rt) {
        Ok(args) => args.skip(1).collect(alloc),
        Err(_) => Ok(Vec::new(alloc)),
    }
}

/// The files of these names.
fn sources(rt: &(impl Files + AllocGlobal), files: &[String]) -> io::Result<Vec<Source>> {
    let mut found = Vec::new(rt.alloc());
    for file in files {
        let text = fs::read(rt, file.as_str())?;
        let name = Text::from_slice(rt.alloc(), file.as_str().as_bytes())?;
        found.push(Source { name, text })?;
    }
    Ok(found)
}

/// Looks through some files, and writes what is found.
fn run_files(rt: &(impl Files + Print + AllocGlobal), files: &[String]) -> io::Result<ExitCode> {
    let sources = sources(rt, files)?;
    let lines = report(rt.alloc(), sources.as_slice())?;
    io::writer(rt).write_all(lines.as_slice())?;
    Ok(ExitCode::SUCCESS)
}

fn main(rt: HostRuntime) -> io::Result<ExitCode> {
    let words = words_of(&rt, rt.alloc())?;
    match words.as_slice() {
        [first, files @ ..] if first.as_str() == "front" && !files.is_empty() => {
            run_files(&rt, files)
        }
        [] => {
            println!(rt; "front_bench front SRC.. or TABLE..")?;
            Ok(ExitCode::from(2))
        }
        _ => run_tables(&rt, &mut Tables { rt: rt.clone()? }),
    }
}
