// Words with the instructions that they are.

ghost use Rattle.std.specs.Prelude.{◌≡◌};
ghost use Rattle.sparc_isa.specs.Codec.{insn_of};

use crate::codec::decode;
use crate::insn::Insn;
use std::marker::Model;

/// A word, and the instruction that it is, if it is one.
#[derive(Drop)]
pub struct Decoded {
    word: u32,
    insn: Option<Insn>,
}

impl Model for Decoded {
    ghost use Rattle.std.specs.Prelude.{ℕ, ◌≡◌};
    ghost use Rattle.sparc_isa.specs.Codec.{insn_of};

    ghost Value = { ℕ };

    ghost view = { λ d. d.word };

    ghost invariant = { λ d. d.insn ≡ insn_of d.word };
}

impl Decoded {
    /// A word, decoded.
    pub fn new(word: u32) -> Decoded
        ensures { result ≡ word }
    {
        let insn = decode(word);
        Decoded { word, insn }
    }

    /// The word.
    #[inline(always)]
    pub fn word(&self) -> u32
        ensures { result ≡ self.now }
    {
        self.word
    }

    /// The instruction.
    #[inline(always)]
    pub fn insn(&self) -> Option<Insn>
        ensures { result ≡ insn_of self.now }
    {
        self.insn
    }
}
