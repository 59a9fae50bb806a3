//! Runs texts with the operators of a command over targets of both byte orders, whose memory lies behind a link, and with those where
//! there is no target, uses deferred entries of tables twice, and compares what comes with the rows of the tables that its words
//! name. docs/TESTS.md has the kinds of rows.
#![tactic(auto)]

mod forcing;
mod running;
mod talks;

use forcing::{append_forced, append_unit};
use machine_state::{MIPS, SPARC};
use ps_bare::NoTarget;
use running::{append_run, append_run_on};
use std::alloc::{AllocError, Global};
use std::io;
use std::process::ExitCode;
use table_run::run_table;
use talks::{Talk, put_bytes, put_words, talk_to};
use test_rows::{Subject, append, part, run_tables};

/// The text of the last table, and the operators over both targets.
#[derive(Drop)]
struct Texts {
    alloc: Global,
    table: Vec<u8>,
    mips: Option<Talk>,
    sparc: Option<Talk>,
}

impl Texts {
    /// The text of the table for a target: `machine` is the name of the target there.
    fn table_for(&self, target: u8) -> Result<Vec<u8>, AllocError> {
        let named: &[u8] = if target == MIPS {
            b"/machine (mips) def "
        } else {
            b"/machine (sparc) def "
        };
        let mut text = Vec::from_slice(self.alloc, named)?;
        text.extend_from_slice(&self.table)?;
        Ok(text)
    }

    /// Appends what a row comes to on a target.
    fn append_on(
        &mut self,
        target: u8,
        kind: &str,
        text: &[u8],
        out: &mut Vec<u8>,
    ) -> Result<(), AllocError> {
        let alloc = self.alloc;
        let table = self.table_for(target)?;
        let store = match run_table(alloc, &table, target) {
            Ok(store) => store,
            Err(fault) => return append(out, format!(in alloc; "{fault:?}")?.as_str()),
        };
        let talk = if target == MIPS {
            &mut self.mips
        } else {
            &mut self.sparc
        };
        let Some(talk) = talk else {
            return append(out, "no target");
        };
        match kind {
            "table" => append(out, "read"),
            "words" => put_words(alloc, talk, text, out),
            "bytes" => put_bytes(alloc, talk, text, out),
            "run" => append_run_on(alloc, store, talk, text, out),
            "without" => {
                append_run(alloc, store, &mut NoTarget { cell: 0 }, text, out)?;
                append(out, "||")
            }
            "forced" => append_forced(alloc, store, text, out),
            "unit" => append_unit(alloc, store, text, out),
            _ => append(out, "no such row"),
        }
    }
}

impl Subject for Texts {
    fn answer(
        &mut self,
        kind: &str,
        parts: &[Vec<u8>],
        out: &mut Vec<u8>,
    ) -> Result<(), AllocError> {
        let text = part(parts, 0);
        if kind == "table" {
            self.table = Vec::from_slice(self.alloc, text)?;
            self.mips = talk_to(self.alloc, MIPS)?;
            self.sparc = talk_to(self.alloc, SPARC)?;
        }
        self.append_on(MIPS, kind, text, out)?;
        let mut other = Vec::new(self.alloc);
        self.append_on(SPARC, kind, text, &mut other)?;
        if out.as_slice() != other.as_slice() {
            append(out, " but on the SPARC ")?;
            out.extend_from_slice(&other)?;
        }
        Ok(())
    }
}

fn main(rt: HostRuntime) -> io::Result<ExitCode> {
    let alloc = rt.alloc();
    let mut texts = Texts {
        alloc,
        table: Vec::new(alloc),
        mips: None,
        sparc: None,
    };
    run_tables(&rt, &mut texts)
}
