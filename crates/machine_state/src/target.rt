// A machine, whichever its target.

ghost use Rattle.std.specs.Prelude.{◌≡◌, ℕ};

use ldb_words::{Event, FaultKind, Outside, WindowFault};

/// Why a run of a machine ended: a breakpoint; a request to pause; the request to exit, with its status; a fault; its turns
/// were used; a request that says that the stack is used up.
#[derive(Clone, Copy, PartialEq, Eq, Debug)]
pub enum Cause {
    Break,
    Pause,
    Exit(u32),
    Fault(FaultKind),
    Turns,
    Stack,
}

/// A machine, by its plain record and what machines of its target do.
pub trait Target {
    ghost use Rattle.std.specs.Prelude.{ℕ, List, Option, None, is_ok, ◌⊎◌};
    ghost use Rattle.machine_state.specs.State.{MachineState, Behaviour, order_of, with_memory, given_input};
    ghost use Rattle.machine_state.specs.Regions.{read_of, write_of};

    /// The plain record.
    ghost state: { Self → MachineState };

    /// What machines of its target do.
    ghost behaviour: { Behaviour };

    /// One step.
    fn step(&mut self) -> Event
        ensures { behaviour.next (state self.old) ≡ (result, state self.new) };

    /// The number at an address.
    fn read(&self, at: u32, width: u8) -> Result<u32, Outside>
        requires { (width ≡ 1) ⊎ ((width ≡ 2) ⊎ (width ≡ 4)) }
        ensures { result ≡ read_of (order_of (state self.now)) (state self.now).memory at width };

    /// Writes the lowest bytes of a number at an address.
    fn write(&mut self, at: u32, width: u8, value: u32) -> Result<(), Outside>
        requires { (width ≡ 1) ⊎ ((width ≡ 2) ⊎ (width ≡ 4)) }
        ensures { with_memory (write_of (order_of (state self.old)) (state self.old).memory at width value) (state self.old) ≡ (is_ok result, state self.new) };

    /// Appends input, or nothing where it would be more than 16,777,216 bytes in all.
    fn give(&mut self, bytes: &[u8]) -> bool
        ensures { given_input bytes.now (state self.old) ≡ (result, state self.new) };

    /// Takes the byte that the last step put.
    fn written(&mut self) -> Option<u8>
        ensures byte { result ≡ (state self.old).put }
        ensures taken { state self.new ≡ record (state self.old) { put = None } };

    /// Flushes the windows, if it can, and saves the context block.
    fn save(&mut self) -> Result<(), WindowFault>
        ensures { behaviour.saved (state self.old) ≡ (is_ok result, state self.new) };

    /// Restores the registers from the context block.
    fn restore(&mut self)
        ensures { state self.new ≡ behaviour.restored (state self.old) };

    /// The argument of the last request.
    fn argument(&self) -> u32
        ensures { result ≡ behaviour.argument (state self.now) };
}
