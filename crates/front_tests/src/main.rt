//! Compares what the front end makes of texts with the rows of the tables that its words name: tokens, trees and judgements. docs/TESTS.md has the kinds of rows.
#![tactic(auto)]

mod judgements;
mod lexing;
mod trees;

use judgements::append_judgement;
use lexing::{append_tokens, append_value};
use std::alloc::{AllocError, Global};
use std::io;
use std::process::ExitCode;
use test_rows::{Subject, append, part, run_tables};
use trees::{append_shape, read_tree};

#[derive(Drop)]
struct Front {
    alloc: Global,
}

/// The first word of an answer.
fn first_word(told: &str) -> &str {
    match told.split_once(' ') {
        Some((word, _)) => word,
        None => told,
    }
}

impl Subject for Front {
    /// A kind of tree with `~` behind it asks how reading ends, and not where.
    fn answer(
        &mut self,
        kind: &str,
        parts: &[Vec<u8>],
        out: &mut Vec<u8>,
    ) -> Result<(), AllocError> {
        let alloc = self.alloc;
        let text = part(parts, 0);
        if let Some(kind) = kind.strip_suffix("~") {
            let told = read_tree(alloc, kind, text)?;
            return append(out, first_word(told.as_str()));
        }
        match kind {
            "tokens" | "places" | "count" => append_tokens(alloc, kind, text, out),
            "expr" | "local" | "file" | "unit" => {
                append(out, read_tree(alloc, kind, text)?.as_str())
            }
            "joined" | "symbols" | "arguments" | "parameters" | "externals" => {
                append_shape(alloc, kind, text, out)
            }
            "value" | "assign" => append_judgement(alloc, kind, text, out),
            _ => append_value(alloc, kind, text, out),
        }
    }
}

fn main(rt: HostRuntime) -> io::Result<ExitCode> {
    let alloc = rt.alloc();
    run_tables(&rt, &mut Front { alloc })
}
