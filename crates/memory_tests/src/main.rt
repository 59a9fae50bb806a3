//! Compares memories, walks over stacks, planted words and found objects with the rows of the tables that its words name. docs/TESTS.md has the kinds of rows.
#![tactic(auto)]

mod asking;
mod target;

use std::io;
use std::process::ExitCode;
use target::Targets;
use test_rows::run_tables;

fn main(rt: HostRuntime) -> io::Result<ExitCode> {
    let mut targets = Targets::new(rt.alloc())?;
    run_tables(&rt, &mut targets)
}
