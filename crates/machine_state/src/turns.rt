// Runs of any machine.

ghost use Rattle.std.specs.Prelude.{◌≡◌, IfOk, IfErr, ◌++◌, option_to_list};
ghost use Rattle.machine_state.specs.Runs.{Goes, Ends, behind, ran, run_of, turn_by, requested};

use crate::target::{Cause, Target};
use ldb_words::Event;
use std::alloc::AllocError;

/// What a request comes to: the byte that it put, if it put one, or the cause of the run's end.
fn requested<T: Target>(machine: &mut T, number: u8) -> Result<Option<u8>, Cause>
    ensures goes { IfOk result (λ byte. requested T.behaviour number (T.state machine.old) ≡ Goes byte (T.state machine.new)) }
    ensures ends { IfErr result (λ cause. requested T.behaviour number (T.state machine.old) ≡ Ends cause (T.state machine.new)) }
{
    match number {
        2 => Ok(machine.written()),
        3 => Err(Cause::Exit(machine.argument())),
        4 => Err(Cause::Pause),
        5 => Err(Cause::Stack),
        _ => Ok(None),
    }
}

/// One step of a run: the byte that it put, if it put one, or the cause of the run's end.
#[tactic(auto, unfolding(crate::specs::Runs::turn_by))]
pub fn turn<T: Target>(machine: &mut T) -> Result<Option<u8>, Cause>
    ensures goes { IfOk result (λ byte. turn_by T.behaviour (T.state machine.old) ≡ Goes byte (T.state machine.new)) }
    ensures ends { IfErr result (λ cause. turn_by T.behaviour (T.state machine.old) ≡ Ends cause (T.state machine.new)) }
{
    match machine.step() {
        Event::Went => Ok(None),
        Event::Break => Err(Cause::Break),
        Event::Request(number) => requested(machine, number),
        Event::Fault(kind) => Err(Cause::Fault(kind)),
    }
}

/// Adds a byte, if there is one.
fn add(output: &mut Vec<u8>, byte: Option<u8>) -> Result<(), AllocError>
    ensures { IfOk result (λ _. output.new.items ≡ output.old.items ++ option_to_list byte) }
{
    if let Some(byte) = byte {
        output.push(byte)?;
    }
    Ok(())
}

/// Runs a machine until its turns are used or something else ends the run, and adds all that it puts to `output`.
#[tactic(auto, using(crate::proofs::RunLemmas::run_goes_on, crate::proofs::RunLemmas::run_ends, crate::proofs::RunLemmas::run_done))]
pub fn run<T: Target>(
    machine: &mut T,
    turns: u32,
    output: &mut Vec<u8>,
) -> Result<Cause, AllocError>
    ensures { IfOk result (λ cause. behind output.old.items (run_of T.behaviour turns (T.state machine.old)) ≡ ran cause output.new.items (T.state machine.new)) }
{
    for _turn in 0..turns {
        match turn(machine) {
            Ok(byte) => add(output, byte)?,
            Err(cause) => return Ok(cause),
        }
    }
    Ok(Cause::Turns)
}
