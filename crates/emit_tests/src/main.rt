//! Makes tables of small programs, runs them behind the prelude, and compares what they leave with the rows of the tables that its words name.
//! docs/TESTS.md has the kinds of rows.
#![tactic(auto)]

mod asked;
mod programs;

use asked::{append_asked, append_cost};
use std::alloc::{AllocError, Global};
use std::io;
use std::process::ExitCode;
use test_rows::{Subject, run_tables};

#[derive(Drop)]
struct Tables {
    alloc: Global,
}

impl Subject for Tables {
    fn answer(
        &mut self,
        kind: &str,
        parts: &[Vec<u8>],
        out: &mut Vec<u8>,
    ) -> Result<(), AllocError> {
        match kind {
            "cost" => append_cost(self.alloc, parts, out),
            _ => append_asked(self.alloc, kind, parts, out),
        }
    }
}

fn main(rt: HostRuntime) -> io::Result<ExitCode> {
    let alloc = rt.alloc();
    run_tables(&rt, &mut Tables { alloc })
}
