// Instructions at the end of the text.
ghost use Rattle.std.specs.Prelude.{◌≡◌, ◌<◌, ◌/◌, ◌%◌, ◌^◌, [], ◌∷◌, ◌++◌, OnOk};
ghost use Rattle.sparc_gen.specs.Insns.{word_insns, get_insns, put_insns};

use crate::instructions::{by_bits, by_register, ld, or, sethi, st};
use crate::registers::{OWN, STACK_POINTER};
use sparc_isa::Insn;
use std::alloc::AllocError;

/// The first distance that is too long for the field of a load.
const LONG: u32 = 0x1000;

/// One more instruction.
pub fn put(code: &mut Vec<Insn>, insn: Insn) -> Result<(), AllocError>
    ensures { OnOk result (code.new.items ≡ code.old.items ++ insn ∷ []) }
{
    put_all(code, &[insn])?;
    Ok(())
}

/// Some more instructions.
pub fn put_all(code: &mut Vec<Insn>, insns: &[Insn]) -> Result<(), AllocError>
    ensures { OnOk result (code.new.items ≡ code.old.items ++ insns.now) }
{
    code.extend_from_slice(insns)?;
    Ok(())
}

/// The upper 22 bits of a word.
fn high(bits: u32) -> u32
    ensures value { result ≡ bits / 2 ^ 10 }
    ensures in_range { result < 4194304 }
{
    bits >> 10
}

/// The lower 10 bits of a word.
fn low(bits: u32) -> u16
    ensures value { result ≡ bits % 2 ^ 10 }
    ensures in_range { result < 8192 }
{
    (bits & 0x3ff) as u16
}

/// A distance in 13 bits, which has no more than 12.
fn short(at: u32) -> u16
    ensures value { result ≡ at % 2 ^ 12 }
    ensures in_range { result < 8192 }
{
    (at & 0xfff) as u16
}

/// A word by its bits in a register.
pub fn put_word(code: &mut Vec<Insn>, to: u8, bits: u32) -> Result<(), AllocError>
    requires { to < 32 }
    ensures { OnOk result (code.new.items ≡ code.old.items ++ word_insns to bits) }
{
    put_all(
        code,
        &[sethi(to, high(bits)), or(to, to, by_bits(low(bits)))],
    )
}

/// A word of the frame in a register.
pub fn put_get(code: &mut Vec<Insn>, to: u8, at: u32) -> Result<(), AllocError>
    requires { to < 32 }
    ensures { OnOk result (code.new.items ≡ code.old.items ++ get_insns to at) }
{
    if at < LONG {
        put(code, ld(to, STACK_POINTER, by_bits(short(at))))
    } else {
        put_word(code, OWN, at)?;
        put(code, ld(to, STACK_POINTER, by_register(OWN)))
    }
}

/// A register in a word of the frame.
pub fn put_put(code: &mut Vec<Insn>, from: u8, at: u32) -> Result<(), AllocError>
    requires { from < 32 }
    ensures { OnOk result (code.new.items ≡ code.old.items ++ put_insns from at) }
{
    if at < LONG {
        put(code, st(from, STACK_POINTER, by_bits(short(at))))
    } else {
        put_word(code, OWN, at)?;
        put(code, st(from, STACK_POINTER, by_register(OWN)))
    }
}
