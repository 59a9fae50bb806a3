// Runs of images, from their start to their end.

use ldb_words::{Event, FaultKind};
use machine_state::{CONTEXT, CONTEXT_WORDS, MIPS, Target};
use obj_file::{ImageFault, read_image};
use std::alloc::{AllocError, Global};
use std::process::ExitCode;
use std::rt::Files;
use std::{fs, io};

/// What a run came to.
#[derive(Drop)]
struct Ran {
    event: Event,
    steps: u64,
    output: Vec<u8>,
}

/// Runs a machine until it exits, pauses, asks for stack, breaks or faults. Steps that completed are
/// counted: a break and a fault are none.
fn run_to_end<T: Target>(alloc: Global, machine: &mut T) -> Result<Ran, AllocError> {
    let mut output = Vec::new(alloc);
    for steps in 0..u64::MAX - 1 {
        match machine.step() {
            Event::Went | Event::Request(1) => {}
            Event::Request(2) => {
                if let Some(byte) = machine.written() {
                    output.push(byte)?;
                }
            }
            event => {
                let steps = match event {
                    Event::Request(_) => steps + 1,
                    _ => steps,
                };
                return Ok(Ran {
                    event,
                    steps,
                    output,
                });
            }
        }
    }
    Ok(Ran {
        event: Event::Went,
        steps: u64::MAX - 1,
        output,
    })
}

/// The name of the event that ended a run.
fn name_of(event: Event) -> &'static str {
    match event {
        Event::Went => "turns",
        Event::Break => "break",
        Event::Request(3) => "exit",
        Event::Request(4) => "pause",
        Event::Request(5) => "stack",
        Event::Request(_) => "request",
        Event::Fault(kind) => match kind {
            FaultKind::Hazard => "fault hazard",
            FaultKind::Illegal => "fault illegal",
            FaultKind::Align => "fault align",
            FaultKind::Outside => "fault outside",
            FaultKind::Break => "fault break",
            FaultKind::Division => "fault division",
            FaultKind::Request => "fault request",
            FaultKind::Window => "fault window",
        },
    }
}

/// Prints the event, the completed steps, pc, and the 36 words of the context block.
fn print_end<T: Target>(
    rt: &(impl Print + AllocGlobal),
    machine: &mut T,
    ran: &Ran,
) -> io::Result<()> {
    let _saved = machine.save();
    let pc = machine.read(CONTEXT + 4 * 34, 4).unwrap_or(0);
    let mut line = format!(in rt.alloc();
        "{} steps {} pc {pc:08x} registers",
        name_of(ran.event),
        ran.steps
    )?;
    for word in 0..CONTEXT_WORDS as u32 {
        let value = machine.read(CONTEXT + 4 * word, 4).unwrap_or(0);
        line.push_str(format!(in rt.alloc(); " {value:08x}")?.as_str())?;
    }
    println!(rt; "{line}")
}

/// Runs a machine over an input, writes its output to a file, and prints how it ended.
fn run_over<T: Target>(
    rt: &(impl Files + Print + AllocGlobal),
    machine: &mut T,
    input: &[u8],
    output: &str,
) -> io::Result<ExitCode> {
    if !machine.give(input) {
        println!(rt; "input too long")?;
        return Ok(ExitCode::from(1));
    }
    let ran = run_to_end(rt.alloc(), machine)?;
    fs::write(rt, output, ran.output.as_slice())?;
    print_end(rt, machine, &ran)?;
    Ok(ExitCode::SUCCESS)
}

/// Runs an image from its start over an input file, with its output to a file.
pub fn run_image(
    rt: &(impl Files + Print + AllocGlobal),
    image: &str,
    input: &str,
    output: &str,
) -> io::Result<ExitCode> {
    let bytes = fs::read(rt, image)?;
    let input = fs::read(rt, input)?;
    match read_image(rt.alloc(), bytes.as_slice()) {
        Ok(image) => {
            let target = image.target();
            if target == MIPS {
                let mut machine = mips_sim::Machine::new(rt.alloc(), &image)?;
                run_over(rt, &mut machine, input.as_slice(), output)
            } else {
                let mut machine = sparc_sim::Machine::new(rt.alloc(), &image)?;
                run_over(rt, &mut machine, input.as_slice(), output)
            }
        }
        Err(ImageFault::BadImage { at }) => {
            println!(rt; "bad image at {at}")?;
            Ok(ExitCode::from(1))
        }
        Err(ImageFault::NoMemory) => {
            println!(rt; "no memory")?;
            Ok(ExitCode::from(1))
        }
    }
}
