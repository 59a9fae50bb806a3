//! Measures a link in this program, on a MIPS machine or, with a third word `sparc`, on a SPARC machine: `link N` fetches
//! a word N times, `resume N` resumes once for N turns. `frames N` makes a stack of N frames, at most 16,000, and walks over it
//! 100 times.
#![tactic(auto)]

mod frames;

use machine_state::{MIPS, SPARC};
use near_link::NearLink;
use nub_wire::{Link, Msg, Side, encode};
use obj_file::read_image;
use std::alloc::{AllocError, Global};
use std::process::ExitCode;
use std::rt::Env;
use std::{env, io};

/// A MIPS image of a branch to itself.
const MIPS_IMAGE: [u8; 28] = [
    0x4c, 0x44, 0x42, 0x49, 1, 1, 0, 0, 0, 0x40, 0, 0, 0, 0, 0, 8, 0, 0, 0, 0, // header
    0xff, 0xff, 0, 0x10, 0, 0, 0, 0,
];

/// A SPARC image of a branch to itself.
const SPARC_IMAGE: [u8; 28] = [
    0x4c, 0x44, 0x42, 0x49, 1, 2, 0, 0, 0, 0x40, 0, 0, 0, 0, 0, 8, 0, 0, 0, 0, // header
    0x10, 0x80, 0, 0, 1, 0, 0, 0,
];

/// A fetch of the word at 00400000.
const FETCH: [u8; 8] = [0, 6, 2, 0, 0x40, 0, 0, 4];

/// How many of so many fetches were answered by a frame of seven bytes.
fn fetched<L: Link>(link: &mut L, count: u64) -> u64 {
    let mut answered: u64 = 0;
    let mut buf = [0; 64];
    for _fetch in 0..count {
        let sent = link.send(Side::First, &FETCH);
        let got = link.receive(Side::First, &mut buf);
        if sent == Ok(8) && got == Ok(7) {
            answered = answered.wrapping_add(1);
        }
    }
    answered
}

/// How many resumes, of one for so many turns, were answered by a frame of three bytes.
fn resumed<L: Link>(link: &mut L, turns: u32) -> u64 {
    let frame = encode(&Msg::Resume { turns });
    let mut buf = [0; 64];
    let sent = link.send(Side::First, frame.as_slice());
    let got = link.receive(Side::First, &mut buf);
    if sent == Ok(7) && got == Ok(3) { 1 } else { 0 }
}

/// The link to a machine of a target.
fn link_of(alloc: Global, target: u8) -> Result<Option<NearLink>, AllocError> {
    let bytes = if target == SPARC {
        &SPARC_IMAGE
    } else {
        &MIPS_IMAGE
    };
    match read_image(alloc, bytes) {
        Ok(image) => {
            let link = NearLink::new(alloc, &[image], Vec::new(alloc))?;
            Ok(Some(link))
        }
        Err(_) => Ok(None),
    }
}

/// The words after the program's name. Words that are no text count as none.
fn words_of(rt: &(impl Env + AllocGlobal), alloc: Global) -> Result<Vec<String>, AllocError> {
    match env::args(rt) {
        Ok(args) => args.skip(1).collect(alloc),
        Err(_) => Ok(Vec::new(alloc)),
    }
}

/// What to measure.
#[derive(Clone, Copy)]
enum Work {
    Fetches(u64),
    Turns(u32),
    Frames(u32),
}

/// What two words ask to measure.
fn work_of(name: &str, number: &str) -> Option<Work> {
    match name {
        "link" => Some(Work::Fetches(number.parse::<u64>().ok()?)),
        "resume" => Some(Work::Turns(number.parse::<u32>().ok()?)),
        "frames" => Some(Work::Frames(number.parse::<u32>().ok()?)),
        _ => None,
    }
}

/// What the words ask to measure, and on a machine of which target.
fn plan_of(words: &[String]) -> Option<(Work, u8)> {
    match words {
        [name, number] => Some((work_of(name.as_str(), number.as_str())?, MIPS)),
        [name, number, target] if target.as_str() == "sparc" => {
            Some((work_of(name.as_str(), number.as_str())?, SPARC))
        }
        _ => None,
    }
}

fn main(rt: HostRuntime) -> io::Result<ExitCode> {
    let words = words_of(&rt, rt.alloc())?;
    if let Some((work, target)) = plan_of(words.as_slice()) {
        if let Some(mut link) = link_of(rt.alloc(), target)? {
            let answered = match work {
                Work::Fetches(count) => fetched(&mut link, count),
                Work::Turns(turns) => resumed(&mut link, turns),
                Work::Frames(count) => frames::walked(rt.alloc(), link, target, count)?,
            };
            println!(rt; "answered {answered}")?;
            return Ok(ExitCode::SUCCESS);
        }
    }
    println!(rt; "link_bench link|resume|frames N [sparc]")?;
    Ok(ExitCode::from(2))
}
