//! Compares the forms of the outside, and whole sessions over those in memory, with the rows of the tables that its words name. docs/TESTS.md has the kinds of rows.
#![tactic(auto)]

mod broken;
mod edge;
mod other_frame;
mod own;
mod sessions;

use edge::append_edge;
use own::append_own;
use sessions::Sessions;
use std::alloc::AllocError;
use std::io;
use std::process::ExitCode;
use test_rows::{Subject, run_tables};

/// The system, and what the rows of sessions said by now.
#[derive(Drop)]
struct Top {
    rt: HostRuntime,
    sessions: Sessions,
}

impl Subject for Top {
    fn answer(
        &mut self,
        kind: &str,
        parts: &[Vec<u8>],
        out: &mut Vec<u8>,
    ) -> Result<(), AllocError> {
        match kind {
            "source" | "sink" | "files" | "remove" => append_edge(&self.rt, kind, parts, out),
            "own" => append_own(self.rt.alloc(), parts, out),
            _ => self.sessions.answer(kind, parts, out),
        }
    }
}

fn main(rt: HostRuntime) -> io::Result<ExitCode> {
    let sessions = Sessions::new(rt.alloc());
    let mut top = Top {
        rt: rt.clone()?,
        sessions,
    };
    run_tables(&rt, &mut top)
}
