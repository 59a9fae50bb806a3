// The machine of an image.

ghost use Rattle.std.specs.Prelude.{◌≡◌, IfOk};
ghost use Rattle.near_link.specs.Near.{machine_in};
ghost use Rattle.targets.specs.Targets.{loaded, IsSound};

use ldb_words::{Event, Outside, WindowFault};
use machine_state::{SPARC, Target, tell_bytes};
use obj_file::Image;
use std::alloc::{AllocError, Global};

/// A machine of either target.
#[derive(Drop)]
pub enum NearMachine {
    Mips(mips_sim::Machine),
    Sparc(sparc_sim::Machine),
}

impl NearMachine {
    /// The machine of an image, by its target byte.
    #[tactic(auto, unfolding(targets::specs::Targets::loaded))]
    fn begun(alloc: Global, image: &Image) -> Result<NearMachine, AllocError>
        ensures { IfOk result (λ n. machine_in n ≡ loaded image.now) }
    {
        if image.target() == SPARC {
            Ok(NearMachine::Sparc(sparc_sim::Machine::new(alloc, image)?))
        } else {
            Ok(NearMachine::Mips(mips_sim::Machine::new(alloc, image)?))
        }
    }

    /// The machine of an image, which is sound.
    #[tactic(auto, using(crate::proofs::Worlds::image_sound))]
    pub fn new(alloc: Global, image: &Image) -> Result<NearMachine, AllocError>
        ensures loaded { IfOk result (λ n. machine_in n ≡ loaded image.now) }
        ensures sound { IsSound (loaded image.now) }
    {
        let _target = image.target();
        tell_bytes(image.text());
        tell_bytes(image.statics());
        NearMachine::begun(alloc, image)
    }
}

// Each call asks the machine for its target first, since what it does is said by the target in its record.
impl Target for NearMachine {
    ghost use Rattle.near_link.specs.Near.{machine_in};
    ghost use Rattle.targets.specs.Targets.{machine_behaviour};

    ghost state = { machine_in };

    ghost behaviour = { machine_behaviour };

    #[inline(always)]
    fn step(&mut self) -> Event {
        match self {
            NearMachine::Mips(mips) => {
                let _target = mips.target();
                mips.step()
            }
            NearMachine::Sparc(sparc) => {
                let _target = sparc.target();
                sparc.step()
            }
        }
    }

    fn read(&self, at: u32, width: u8) -> Result<u32, Outside> {
        match self {
            NearMachine::Mips(mips) => mips.read(at, width),
            NearMachine::Sparc(sparc) => sparc.read(at, width),
        }
    }

    fn write(&mut self, at: u32, width: u8, value: u32) -> Result<(), Outside> {
        match self {
            NearMachine::Mips(mips) => mips.write(at, width, value),
            NearMachine::Sparc(sparc) => sparc.write(at, width, value),
        }
    }

    fn give(&mut self, bytes: &[u8]) -> bool {
        match self {
            NearMachine::Mips(mips) => mips.give(bytes),
            NearMachine::Sparc(sparc) => sparc.give(bytes),
        }
    }

    fn written(&mut self) -> Option<u8> {
        match self {
            NearMachine::Mips(mips) => mips.written(),
            NearMachine::Sparc(sparc) => sparc.written(),
        }
    }

    fn save(&mut self) -> Result<(), WindowFault> {
        match self {
            NearMachine::Mips(mips) => {
                let _target = mips.target();
                mips.save()
            }
            NearMachine::Sparc(sparc) => {
                let _target = sparc.target();
                sparc.save()
            }
        }
    }

    fn restore(&mut self) {
        match self {
            NearMachine::Mips(mips) => {
                let _target = mips.target();
                mips.restore();
            }
            NearMachine::Sparc(sparc) => {
                let _target = sparc.target();
                sparc.restore();
            }
        }
    }

    fn argument(&self) -> u32 {
        match self {
            NearMachine::Mips(mips) => {
                let _target = mips.target();
                mips.argument()
            }
            NearMachine::Sparc(sparc) => {
                let _target = sparc.target();
                sparc.argument()
            }
        }
    }
}
