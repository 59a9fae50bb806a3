// Runs of images.

use ldb_words::{Event, FaultKind};
use machine_state::{MIPS, Target};
use obj_file::Image;
use std::alloc::{AllocError, Global};

/// How a run ended: the event, its status, and what it wrote.
#[derive(Drop)]
pub struct Ended {
    pub event: &'static str,
    pub status: i32,
    pub output: Vec<u8>,
}

/// The greatest number of steps.
const MOST_STEPS: u64 = 3_000_000_000;

/// The name of the event that ended a run.
fn name_of(event: Event) -> &'static str {
    match event {
        Event::Went => "turns",
        Event::Break => "break",
        Event::Request(3) => "exit",
        Event::Request(4) => "pause",
        Event::Request(5) => "stack",
        Event::Request(_) => "request",
        Event::Fault(kind) => match kind {
            FaultKind::Hazard => "hazard",
            FaultKind::Illegal => "illegal",
            FaultKind::Align => "align",
            FaultKind::Outside => "outside",
            FaultKind::Break => "broke",
            FaultKind::Division => "division",
            FaultKind::Request => "unknown-request",
            FaultKind::Window => "window",
        },
    }
}

/// Runs a machine to its end.
fn run_over<T: Target>(alloc: Global, machine: &mut T, input: &[u8]) -> Result<Ended, AllocError> {
    let _given = machine.give(input);
    let mut ended = Ended {
        event: "turns",
        status: 0,
        output: Vec::new(alloc),
    };
    for _ in 0..MOST_STEPS {
        match machine.step() {
            Event::Went | Event::Request(1) => {}
            Event::Request(2) => {
                if let Some(byte) = machine.written() {
                    ended.output.push(byte)?;
                }
            }
            event => {
                ended.event = name_of(event);
                ended.status = machine.argument().cast_signed();
                return Ok(ended);
            }
        }
    }
    Ok(ended)
}

/// Runs an image over an input.
pub fn run_built(alloc: Global, image: &Image, input: &[u8]) -> Result<Ended, AllocError> {
    if image.target() == MIPS {
        let mut machine = mips_sim::Machine::new(alloc, image)?;
        run_over(alloc, &mut machine, input)
    } else {
        let mut machine = sparc_sim::Machine::new(alloc, image)?;
        run_over(alloc, &mut machine, input)
    }
}
