// A machine, and what its rows do with it.

use crate::parts::{at, bytes_of};
use ldb_words::Event;
use machine_state::{TEXT, Target};
use near_link::NearMachine;
use obj_file::Image;
use std::alloc::{AllocError, Global};
use test_rows::{append, append_escaped};

/// A machine, and how a case is made: the words that are written first, by pairs of an address and a number; the addresses of the words that a case gives, and of those that it tells; and the number of its steps.
#[derive(Drop)]
pub struct Bench {
    alloc: Global,
    machine: Option<NearMachine>,
    fixed: Vec<u32>,
    before: Vec<u32>,
    after: Vec<u32>,
    steps: u32,
}

/// The machine of some words.
fn machine_of(alloc: Global, given: &[u32]) -> Result<Option<NearMachine>, AllocError> {
    let [target, words @ ..] = given else {
        return Ok(None);
    };
    let mut bytes = Vec::new(alloc);
    for word in words {
        let four = if *target == 1 {
            word.to_le_bytes()
        } else {
            word.to_be_bytes()
        };
        bytes.extend_from_slice(&four)?;
    }
    let head = [
        0x4c,
        0x44,
        0x42,
        0x49,
        1,
        if *target == 1 { 1 } else { 2 },
        0,
        0,
    ];
    let mut image = Vec::from_slice(alloc, &head)?;
    let length = u32::try_from(bytes.len()).unwrap_or(0);
    for field in [TEXT, length, 0] {
        image.extend_from_slice(&field.to_be_bytes())?;
    }
    image.extend_from_slice(&bytes)?;
    match obj_file::read_image(alloc, &image) {
        Ok(image) => Ok(Some(NearMachine::new(alloc, &image)?)),
        Err(_) => Ok(None),
    }
}

/// The event of the last of so many steps.
fn last_event(machine: &mut NearMachine, steps: u32) -> Event {
    let mut event = Event::Went;
    for _step in 0..steps {
        event = machine.step();
    }
    event
}

/// How many of so many steps go on.
fn steps_that_went(machine: &mut NearMachine, steps: u32) -> u32 {
    let mut went: u32 = 0;
    for _step in 0..steps {
        if machine.step() == Event::Went {
            went = went.wrapping_add(1);
        }
    }
    went
}

/// Appends the word at an address, or that there is none.
fn append_word(
    alloc: Global,
    machine: &NearMachine,
    address: u32,
    out: &mut Vec<u8>,
) -> Result<(), AllocError> {
    let told = match machine.read(address, 4) {
        Ok(word) => format!(in alloc; " {word:08x}")?,
        Err(_) => format!(in alloc; " outside")?,
    };
    append(out, told.as_str())
}

/// Appends what a program writes until it does more than that, its last event and its argument.
fn append_finish(
    alloc: Global,
    machine: &mut NearMachine,
    out: &mut Vec<u8>,
) -> Result<(), AllocError> {
    let mut event = Event::Went;
    for _step in 0..1_000_000 {
        event = machine.step();
        match event {
            Event::Went => {}
            Event::Request(2) => {
                if let Some(byte) = machine.written() {
                    append_escaped(alloc, out, &[byte])?;
                }
            }
            _ => break,
        }
    }
    let argument = machine.argument();
    let told = format!(in alloc; " {event:?} {argument}")?;
    append(out, told.as_str())
}

/// What is told of a call that changes the machine, and of whether it was done.
fn is_done(machine: &mut NearMachine, kind: &str, text: &[u8], given: &[u32]) -> Option<bool> {
    match kind {
        "write" => Some(machine.write(at(given, 0), 4, at(given, 1)).is_ok()),
        "set" => {
            let _saved = machine.save();
            let is_written = machine.write(at(given, 0), 4, at(given, 1)).is_ok();
            machine.restore();
            Some(is_written)
        }
        "save" => Some(machine.save().is_ok()),
        "restore" => {
            machine.restore();
            Some(true)
        }
        "flush" => match machine {
            NearMachine::Sparc(sparc) => Some(sparc.flush_windows().is_ok()),
            NearMachine::Mips(_) => None,
        },
        "give" => Some(machine.give(text)),
        _ => None,
    }
}

/// Appends what a row about a machine tells.
fn append_told(
    alloc: Global,
    machine: &mut NearMachine,
    kind: &str,
    text: &[u8],
    given: &[u32],
    out: &mut Vec<u8>,
) -> Result<(), AllocError> {
    let told = match kind {
        "read" => return append_word(alloc, machine, at(given, 0), out),
        "get" => {
            let _saved = machine.save();
            return append_word(alloc, machine, at(given, 0), out);
        }
        "finish" => return append_finish(alloc, machine, out),
        "step" => {
            let event = last_event(machine, at(given, 0));
            format!(in alloc; "{event:?}")?
        }
        "went" => {
            let went = steps_that_went(machine, at(given, 0));
            format!(in alloc; "{went}")?
        }
        "argument" => {
            let argument = machine.argument();
            format!(in alloc; "{argument}")?
        }
        "written" => {
            let byte = machine.written();
            format!(in alloc; "{byte:?}")?
        }
        _ => {
            let done = is_done(machine, kind, text, given);
            format!(in alloc; "{done:?}")?
        }
    };
    append(out, told.as_str())
}

impl Bench {
    pub fn new(alloc: Global) -> Bench {
        Bench {
            alloc,
            machine: None,
            fixed: Vec::new(alloc),
            before: Vec::new(alloc),
            after: Vec::new(alloc),
            steps: 1,
        }
    }

    /// Appends the answer to a row about a machine.
    pub fn answer(
        &mut self,
        kind: &str,
        text: &[u8],
        given: &[u32],
        out: &mut Vec<u8>,
    ) -> Result<(), AllocError> {
        let alloc = self.alloc;
        match kind {
            "new" => {
                self.machine = machine_of(alloc, given)?;
                return Ok(());
            }
            "fixed" => self.fixed = Vec::from_slice(alloc, given)?,
            "before" => self.before = Vec::from_slice(alloc, given)?,
            "after" => self.after = Vec::from_slice(alloc, given)?,
            "steps" => self.steps = at(given, 0),
            _ => {
                return match &mut self.machine {
                    None => append(out, "no machine"),
                    Some(_) if kind == "case" => self.append_case(given, out),
                    Some(machine) => append_told(alloc, machine, kind, text, given, out),
                };
            }
        }
        Ok(())
    }

    /// Appends the last event of a case, and the words that it tells.
    fn append_case(&mut self, given: &[u32], out: &mut Vec<u8>) -> Result<(), AllocError> {
        let alloc = self.alloc;
        let Some(machine) = &mut self.machine else {
            return Ok(());
        };
        for pair in self.fixed.chunks(2) {
            let _done = machine.write(at(pair, 0), 4, at(pair, 1));
        }
        for (address, number) in self.before.iter().zip(given) {
            let _done = machine.write(*address, 4, *number);
        }
        machine.restore();
        let event = last_event(machine, self.steps);
        let told = format!(in alloc; "{event:?}")?;
        append(out, told.as_str())?;
        let _saved = machine.save();
        for address in &self.after {
            append_word(alloc, machine, *address, out)?;
        }
        Ok(())
    }
}
