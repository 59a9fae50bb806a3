//! Compiles programs of C for both targets and runs what was made, and compares what they do with the rows of the tables that its words name.
#![tactic(auto)]

mod answers;
mod linked;
mod run;
mod sources;

use answers::{append_causes, append_runs};
use linked::append_linked;
use machine_state::{MIPS, SPARC};
use sources::{Sources, sources_in, sources_named};
use std::alloc::AllocError;
use std::io;
use std::process::ExitCode;
use test_rows::{Subject, append, part, run_tables};

/// The files of the programs.
#[derive(Drop)]
struct Programs {
    rt: HostRuntime,
}

impl Subject for Programs {
    fn answer(
        &mut self,
        kind: &str,
        parts: &[Vec<u8>],
        out: &mut Vec<u8>,
    ) -> Result<(), AllocError> {
        let alloc = self.rt.alloc();
        match kind {
            "run" => match sources_named(&self.rt, part(parts, 0))? {
                Some(sources) => append_runs(alloc, &sources, part(parts, 1), out),
                None => append(out, "no file"),
            },
            "program" => {
                let mut sources = Sources::new(alloc);
                sources.add(alloc, b"t.c", part(parts, 0))?;
                append_runs(alloc, &sources, part(parts, 1), out)
            }
            "linked_mips" => append_linked(alloc, MIPS, parts, out),
            "linked_sparc" => append_linked(alloc, SPARC, parts, out),
            _ => append_causes(alloc, &sources_in(alloc, parts)?, out),
        }
    }
}

fn main(rt: HostRuntime) -> io::Result<ExitCode> {
    let files = rt.clone()?;
    run_tables(&rt, &mut Programs { rt: files })
}
