//! Runs programs of C through the front end, slot code and a slow interpreter of it, and compares what they do with the rows of the tables that its words name.
#![tactic(auto)]

mod code;
mod run;

use code::{append_stops, code_of};
use run::{End, Run};
use slot_ir::SlotCode;
use std::alloc::{AllocError, Global};
use std::io;
use std::process::ExitCode;
use test_rows::{Subject, append, append_escaped, numbers, part, run_tables};

/// The files of the programs.
#[derive(Drop)]
struct Programs {
    rt: HostRuntime,
}

/// Appends how a run of some code on some input ends, and what it writes.
fn append_run(
    alloc: Global,
    code: &SlotCode,
    input: &[u8],
    out: &mut Vec<u8>,
) -> Result<(), AllocError> {
    let (end, output) = Run::new(alloc, code)?.go(code, input)?;
    let end = match end {
        End::Exit(status) => format!(in alloc; "exit {status} ")?,
        end => format!(in alloc; "{end:?} ")?,
    };
    append(out, end.as_str())?;
    append_escaped(alloc, out, &output)
}

impl Subject for Programs {
    fn answer(
        &mut self,
        kind: &str,
        parts: &[Vec<u8>],
        out: &mut Vec<u8>,
    ) -> Result<(), AllocError> {
        let alloc = self.rt.alloc();
        match code_of(&self.rt, part(parts, 0))? {
            None => append(out, "no code"),
            Some(code) if kind == "run" => append_run(alloc, &code, part(parts, 1), out),
            Some(code) => append_stops(alloc, &code, &numbers(alloc, part(parts, 1))?, out),
        }
    }
}

fn main(rt: HostRuntime) -> io::Result<ExitCode> {
    let files = rt.clone()?;
    run_tables(&rt, &mut Programs { rt: files })
}
