//! Compares the two machines, their instructions, memory and images with the rows of the tables that its words name. docs/TESTS.md has the kinds of rows.
#![tactic(auto)]

mod machine;
mod parts;

use machine::Bench;
use machine_state::Memory;
use parts::{access, append_image, append_insn};
use std::alloc::{AllocError, Global};
use std::io;
use std::process::ExitCode;
use test_rows::{Subject, append, numbers, part, run_tables};

/// What the rows are about: the memory and the machine of the last rows that made one.
#[derive(Drop)]
struct Machines {
    alloc: Global,
    memory: Memory,
    bench: Bench,
}

impl Subject for Machines {
    fn answer(
        &mut self,
        kind: &str,
        parts: &[Vec<u8>],
        out: &mut Vec<u8>,
    ) -> Result<(), AllocError> {
        let alloc = self.alloc;
        let given = numbers(alloc, part(parts, 0))?;
        match kind {
            "mips" | "sparc" => append_insn(alloc, kind, &given, out),
            "image" => append_image(alloc, &given, out),
            "load" | "fetch" | "store" | "there" => {
                let found = access(alloc, &mut self.memory, kind, &given)?;
                append(out, found.as_str())
            }
            _ => self.bench.answer(kind, part(parts, 0), &given, out),
        }
    }
}

fn main(rt: HostRuntime) -> io::Result<ExitCode> {
    let alloc = rt.alloc();
    // four bytes of text, and two of the data
    let memory = Memory::new(alloc, &[1, 2, 3, 4], &[5, 6])?;
    let bench = Bench::new(alloc);
    let mut machines = Machines {
        alloc,
        memory,
        bench,
    };
    run_tables(&rt, &mut machines)
}
