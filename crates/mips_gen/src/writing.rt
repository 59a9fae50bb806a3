// Instructions at the end of the text.
ghost use Rattle.std.specs.Prelude.{◌≡◌, ◌<◌, ◌+◌, ◌/◌, ◌%◌, ◌^◌, [], ◌∷◌, ◌++◌, OnOk};
ghost use Rattle.mips_gen.specs.Insns.{word_insns, upper_insns, get_insns, put_insns};

use crate::instructions::{addu, lui, lw, no_op, ori, sw};
use crate::registers::{OWN, STACK_POINTER};
use mips_isa::Insn;
use std::alloc::AllocError;

/// The first distance that is too long for the field of a load.
const LONG: u32 = 0x8000;

/// One more instruction.
pub fn put(code: &mut Vec<Insn>, insn: Insn) -> Result<(), AllocError>
    ensures { OnOk result (code.new.items ≡ code.old.items ++ insn ∷ []) }
{
    code.push(insn)?;
    Ok(())
}

/// Some more instructions.
pub fn put_all(code: &mut Vec<Insn>, insns: &[Insn]) -> Result<(), AllocError>
    ensures { OnOk result (code.new.items ≡ code.old.items ++ insns.now) }
{
    code.extend_from_slice(insns)?;
    Ok(())
}

/// The upper half of a word.
pub fn high(bits: u32) -> u16
    ensures { result ≡ bits / 2 ^ 16 }
{
    (bits >> 16) as u16
}

/// The lower half of a word.
pub fn low(bits: u32) -> u16
    ensures { result ≡ bits % 2 ^ 16 }
{
    (bits & 0xffff) as u16
}

/// The upper half that a lower half, taken with its sign, is added to.
fn adjusted_high(at: u32) -> u16
    ensures { result ≡ (at + 2 ^ 15) % 2 ^ 32 / 2 ^ 16 }
{
    high(at.wrapping_add(LONG))
}

/// A word by its bits in a register.
pub fn put_word(code: &mut Vec<Insn>, to: u8, bits: u32) -> Result<(), AllocError>
    requires { to < 32 }
    ensures { OnOk result (code.new.items ≡ code.old.items ++ word_insns to bits) }
{
    put_all(code, &[lui(to, high(bits)), ori(to, to, low(bits))])
}

/// The upper part of a long distance, and the stack pointer.
fn put_long(code: &mut Vec<Insn>, at: u32) -> Result<(), AllocError>
    ensures { OnOk result (code.new.items ≡ code.old.items ++ upper_insns at) }
{
    put_all(
        code,
        &[lui(OWN, adjusted_high(at)), addu(OWN, OWN, STACK_POINTER)],
    )
}

/// A word of the frame in a register.
pub fn put_get(code: &mut Vec<Insn>, to: u8, at: u32) -> Result<(), AllocError>
    requires { to < 32 }
    ensures { OnOk result (code.new.items ≡ code.old.items ++ get_insns to at) }
{
    if at < LONG {
        put_all(code, &[lw(to, STACK_POINTER, low(at)), no_op()])
    } else {
        put_long(code, at)?;
        put_all(code, &[lw(to, OWN, low(at)), no_op()])
    }
}

/// A register in a word of the frame.
pub fn put_put(code: &mut Vec<Insn>, from: u8, at: u32) -> Result<(), AllocError>
    requires { from < 32 }
    ensures { OnOk result (code.new.items ≡ code.old.items ++ put_insns from at) }
{
    if at < LONG {
        put(code, sw(from, STACK_POINTER, low(at)))
    } else {
        put_long(code, at)?;
        put(code, sw(from, OWN, low(at)))
    }
}
