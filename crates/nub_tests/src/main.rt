//! Compares messages, the nub and links to it with the rows of the tables that its words name. docs/TESTS.md has the kinds of rows.
#![tactic(auto)]

mod links;
mod messages;
mod sessions;

use links::Links;
use messages::append_message;
use sessions::Sessions;
use std::alloc::{AllocError, Global};
use std::io;
use std::process::ExitCode;
use test_rows::{Subject, append, numbers, run_tables};

/// The bytes that the numbers of a text are.
fn bytes_of(alloc: Global, text: &[u8]) -> Result<Vec<u8>, AllocError> {
    let mut bytes = Vec::new(alloc);
    for number in numbers(alloc, text)? {
        bytes.push(u8::try_from(number).unwrap_or(0))?;
    }
    Ok(bytes)
}

/// Appends bytes of base 16.
fn append_bytes(alloc: Global, bytes: &[u8], out: &mut Vec<u8>) -> Result<(), AllocError> {
    for byte in bytes {
        let text = format!(in alloc; "{byte:02x}")?;
        append(out, text.as_str())?;
    }
    Ok(())
}

/// The links and the images that the last rows made.
#[derive(Drop)]
struct Nubs {
    alloc: Global,
    links: Links,
    sessions: Sessions,
}

impl Subject for Nubs {
    fn answer(
        &mut self,
        kind: &str,
        parts: &[Vec<u8>],
        out: &mut Vec<u8>,
    ) -> Result<(), AllocError> {
        let alloc = self.alloc;
        let mut pieces = Vec::new(alloc);
        for text in parts {
            pieces.push(bytes_of(alloc, text)?)?;
        }
        match kind {
            "image" | "faulty" | "answer" | "times" | "send" | "receive" => {
                self.links.answer(kind, &pieces, out)
            }
            "images" | "alike" => self.sessions.answer(kind, &pieces, out),
            _ => append_message(alloc, kind, &pieces, out),
        }
    }
}

fn main(rt: HostRuntime) -> io::Result<ExitCode> {
    let alloc = rt.alloc();
    let links = Links::new(alloc);
    let sessions = Sessions::new(alloc);
    run_tables(
        &rt,
        &mut Nubs {
            alloc,
            links,
            sessions,
        },
    )
}
