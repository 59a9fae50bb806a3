//! Prints values that lie in a small memory, in both byte orders, by the prelude's printers, and compares the texts with the
//! rows of the tables that its words name. docs/TESTS.md has the kinds of rows.
#![tactic(auto)]

mod layout;
mod operators;
mod printed;

use printed::append_printed;
use std::alloc::{AllocError, Global};
use std::io;
use std::process::ExitCode;
use test_rows::{Subject, run_tables};

#[derive(Drop)]
struct Values {
    alloc: Global,
}

impl Subject for Values {
    fn answer(
        &mut self,
        kind: &str,
        parts: &[Vec<u8>],
        out: &mut Vec<u8>,
    ) -> Result<(), AllocError> {
        append_printed(self.alloc, kind, parts, out)
    }
}

fn main(rt: HostRuntime) -> io::Result<ExitCode> {
    let alloc = rt.alloc();
    run_tables(&rt, &mut Values { alloc })
}
