// The machines that are compiled for.
ghost use Rattle.std.specs.Prelude.{◌≡◌};
ghost use Rattle.ldb_cc.specs.Table.{target_name, target_byte};

use machine_state::{MIPS, SPARC};

/// The machine that is compiled for.
#[derive(Clone, Copy, PartialEq, Eq, Debug)]
pub enum Aim {
    Mips,
    Sparc,
}

impl Aim {
    /// The target's name in words and tables.
    pub fn name(self) -> &'static [u8]
        ensures { result.now ≡ target_name self }
    {
        match self {
            Aim::Mips => b"mips",
            Aim::Sparc => b"sparc",
        }
    }

    /// The target byte of images: 1 for MIPS, 2 for SPARC.
    pub fn target_byte(self) -> u8
        ensures { result ≡ target_byte self }
    {
        match self {
            Aim::Mips => MIPS,
            Aim::Sparc => SPARC,
        }
    }
}
