//! Runs of the simulators, with their steps counted: `run IMAGE INPUT OUTPUT`.
#![tactic(auto)]

mod run_image;

use run_image::run_image;
use std::alloc::{AllocError, Global};
use std::process::ExitCode;
use std::rt::Env;
use std::{env, io};

/// The words after the program's name. Words that are no text count as none.
fn words_of(rt: &(impl Env + AllocGlobal), alloc: Global) -> Result<Vec<String>, AllocError> {
    match env::args(rt) {
        Ok(args) => args.skip(1).collect(alloc),
        Err(_) => Ok(Vec::new(alloc)),
    }
}

fn main(rt: HostRuntime) -> io::Result<ExitCode> {
    let words = words_of(&rt, rt.alloc())?;
    match words.as_slice() {
        [first, image, input, output] if first.as_str() == "run" => {
            run_image(&rt, image.as_str(), input.as_str(), output.as_str())
        }
        _ => {
            println!(rt; "bench run IMAGE INPUT OUTPUT")?;
            Ok(ExitCode::from(2))
        }
    }
}
