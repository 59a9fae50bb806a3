//! Compares words, command lines, the sizes and leaves of C's types and shown values with the rows of the tables that its words name. docs/TESTS.md has the kinds of rows.
#![tactic(auto)]

mod commands;
mod types;
mod words;

use commands::append_line;
use std::alloc::{AllocError, Global};
use std::io;
use std::process::ExitCode;
use test_rows::{Subject, numbers, part, run_tables};
use types::append_type;
use words::append_word;

#[derive(Drop)]
struct Values {
    alloc: Global,
}

impl Subject for Values {
    fn answer(
        &mut self,
        kind: &str,
        parts: &[Vec<u8>],
        out: &mut Vec<u8>,
    ) -> Result<(), AllocError> {
        let alloc = self.alloc;
        match kind {
            "go_line" => append_line(alloc, false, part(parts, 0), out),
            "debug_line" => append_line(alloc, true, part(parts, 0), out),
            "size" | "leaves" | "show" | "null" | "at" => append_type(alloc, kind, parts, out),
            _ => append_word(alloc, kind, parts, &numbers(alloc, part(parts, 0))?, out),
        }
    }
}

fn main(rt: HostRuntime) -> io::Result<ExitCode> {
    let alloc = rt.alloc();
    run_tables(&rt, &mut Values { alloc })
}
