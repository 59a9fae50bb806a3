// The machine as a nub has it.

ghost use Rattle.sparc_isa.specs.Loaded.{sparc_behaviour};

use crate::machine::Machine;
use ldb_words::{Event, Outside, WindowFault};
use machine_state::Target;

impl Target for Machine {
    ghost state = { λ m. m };

    ghost behaviour = { sparc_behaviour };

    #[inline(always)]
    fn step(&mut self) -> Event {
        self.step()
    }

    fn read(&self, at: u32, width: u8) -> Result<u32, Outside> {
        self.read(at, width)
    }

    fn write(&mut self, at: u32, width: u8, value: u32) -> Result<(), Outside> {
        self.write(at, width, value)
    }

    fn give(&mut self, bytes: &[u8]) -> bool {
        self.give(bytes)
    }

    fn written(&mut self) -> Option<u8> {
        self.written()
    }

    fn save(&mut self) -> Result<(), WindowFault> {
        self.save()
    }

    fn restore(&mut self) {
        self.restore()
    }

    fn argument(&self) -> u32 {
        self.argument()
    }
}
