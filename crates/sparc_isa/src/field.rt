// The fields of an instruction word, each kept within its width.

ghost use Rattle.std.specs.Prelude.{◌≡◌, ◌<◌, ◌^◌, ◌*◌, ◌%◌};
ghost use Rattle.ldb_words.specs.Word.{sign_extended};

use std::marker::Model;

/// The number of a register of the current window, in 5 bits: globals, outs, locals, ins.
#[derive(Clone, Copy, PartialEq, Eq, Debug)]
pub struct Register {
    number: u8,
}

impl Model for Register {
    ghost use Rattle.std.specs.Prelude.{ℕ, ◌<◌};

    ghost Value = { ℕ };

    ghost view = { λ r. r.number };

    ghost invariant = { λ r. r.number < 32 };

    ghost inverse = { λ n. record { number = n } };
}

impl Register {
    /// The register of this number.
    #[inline(always)]
    pub fn new(number: u8) -> Register
        requires { number < 32 }
        ensures { result ≡ number }
    {
        Register { number }
    }

    /// Its number.
    #[inline(always)]
    pub fn number(self) -> u8
        ensures value { result ≡ self }
        ensures in_range { result < 32 }
    {
        self.number
    }
}

/// An immediate of 13 bits, which is extended by its sign.
#[derive(Clone, Copy, PartialEq, Eq, Debug)]
pub struct Simm13 {
    bits: u16,
}

impl Model for Simm13 {
    ghost use Rattle.std.specs.Prelude.{ℕ, ◌<◌};

    ghost Value = { ℕ };

    ghost view = { λ s. s.bits };

    ghost invariant = { λ s. s.bits < 8192 };

    ghost inverse = { λ n. record { bits = n } };
}

impl Simm13 {
    /// The immediate of these bits.
    #[inline(always)]
    pub fn new(bits: u16) -> Simm13
        requires { bits < 8192 }
        ensures { result ≡ bits }
    {
        Simm13 { bits }
    }

    /// Its bits.
    #[inline(always)]
    pub fn bits(self) -> u16
        ensures value { result ≡ self }
        ensures in_range { result < 8192 }
    {
        self.bits
    }

    /// The word that it stands for.
    #[inline(always)]
    pub fn extended(self) -> u32
        ensures { result ≡ sign_extended 13 self }
    {
        if self.bits < 0x1000 {
            u32::from(self.bits)
        } else {
            u32::from(self.bits) + 0xffff_e000
        }
    }
}

/// The count of a shift by a constant, in 5 bits.
#[derive(Clone, Copy, PartialEq, Eq, Debug)]
pub struct ShiftCount {
    bits: u8,
}

impl Model for ShiftCount {
    ghost use Rattle.std.specs.Prelude.{ℕ, ◌<◌};

    ghost Value = { ℕ };

    ghost view = { λ s. s.bits };

    ghost invariant = { λ s. s.bits < 32 };

    ghost inverse = { λ n. record { bits = n } };
}

impl ShiftCount {
    /// The count.
    #[inline(always)]
    pub fn new(bits: u8) -> ShiftCount
        requires { bits < 32 }
        ensures { result ≡ bits }
    {
        ShiftCount { bits }
    }

    /// Its bits.
    #[inline(always)]
    pub fn bits(self) -> u8
        ensures value { result ≡ self }
        ensures in_range { result < 32 }
    {
        self.bits
    }
}

/// The number of a trap, in 7 bits.
#[derive(Clone, Copy, PartialEq, Eq, Debug)]
pub struct TrapNumber {
    bits: u8,
}

impl Model for TrapNumber {
    ghost use Rattle.std.specs.Prelude.{ℕ, ◌<◌};

    ghost Value = { ℕ };

    ghost view = { λ t. t.bits };

    ghost invariant = { λ t. t.bits < 128 };

    ghost inverse = { λ n. record { bits = n } };
}

impl TrapNumber {
    /// The number.
    #[inline(always)]
    pub fn new(bits: u8) -> TrapNumber
        requires { bits < 128 }
        ensures { result ≡ bits }
    {
        TrapNumber { bits }
    }

    /// Its bits.
    #[inline(always)]
    pub fn bits(self) -> u8
        ensures value { result ≡ self }
        ensures in_range { result < 128 }
    {
        self.bits
    }
}

/// The highest 22 bits of a word.
#[derive(Clone, Copy, PartialEq, Eq, Debug)]
pub struct Immediate22 {
    bits: u32,
}

impl Model for Immediate22 {
    ghost use Rattle.std.specs.Prelude.{ℕ, ◌<◌};

    ghost Value = { ℕ };

    ghost view = { λ i. i.bits };

    ghost invariant = { λ i. i.bits < 4194304 };

    ghost inverse = { λ n. record { bits = n } };
}

impl Immediate22 {
    /// The immediate of these bits.
    #[inline(always)]
    pub fn new(bits: u32) -> Immediate22
        requires { bits < 4194304 }
        ensures { result ≡ bits }
    {
        Immediate22 { bits }
    }

    /// Its bits.
    #[inline(always)]
    pub fn bits(self) -> u32
        ensures value { result ≡ self }
        ensures in_range { result < 4194304 }
    {
        self.bits
    }
}

/// How many words a branch goes, in 22 bits, which are extended by their sign.
#[derive(Clone, Copy, PartialEq, Eq, Debug)]
pub struct Displacement22 {
    bits: u32,
}

impl Model for Displacement22 {
    ghost use Rattle.std.specs.Prelude.{ℕ, ◌<◌};

    ghost Value = { ℕ };

    ghost view = { λ d. d.bits };

    ghost invariant = { λ d. d.bits < 4194304 };

    ghost inverse = { λ n. record { bits = n } };
}

impl Displacement22 {
    /// The displacement of these bits.
    #[inline(always)]
    pub fn new(bits: u32) -> Displacement22
        requires { bits < 4194304 }
        ensures { result ≡ bits }
    {
        Displacement22 { bits }
    }

    /// Its bits.
    #[inline(always)]
    pub fn bits(self) -> u32
        ensures value { result ≡ self }
        ensures in_range { result < 4194304 }
    {
        self.bits
    }

    /// The same in bytes, as a word that is added to an address.
    #[inline(always)]
    pub fn bytes(self) -> u32
        ensures { result ≡ sign_extended 22 self * 4 % 2 ^ 32 }
    {
        if self.bits < 0x20_0000 {
            self.bits << 2
        } else {
            (self.bits << 2) + 0xff00_0000
        }
    }
}

/// How many words a call goes, in 30 bits.
#[derive(Clone, Copy, PartialEq, Eq, Debug)]
pub struct Displacement30 {
    bits: u32,
}

impl Model for Displacement30 {
    ghost use Rattle.std.specs.Prelude.{ℕ, ◌<◌};

    ghost Value = { ℕ };

    ghost view = { λ d. d.bits };

    ghost invariant = { λ d. d.bits < 1073741824 };

    ghost inverse = { λ n. record { bits = n } };
}

impl Displacement30 {
    /// The displacement of these bits.
    #[inline(always)]
    pub fn new(bits: u32) -> Displacement30
        requires { bits < 1073741824 }
        ensures { result ≡ bits }
    {
        Displacement30 { bits }
    }

    /// Its bits.
    #[inline(always)]
    pub fn bits(self) -> u32
        ensures value { result ≡ self }
        ensures in_range { result < 1073741824 }
    {
        self.bits
    }

    /// The same in bytes, as a word that is added to an address.
    #[inline(always)]
    pub fn bytes(self) -> u32
        ensures { result ≡ self * 4 }
    {
        self.bits << 2
    }
}
