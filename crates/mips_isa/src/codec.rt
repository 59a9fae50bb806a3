// Instructions as words, and back.

ghost use Rattle.std.specs.Prelude.{◌≡◌, ◌<◌, ◌+◌, ◌*◌, ◌^◌, ◌-◌, ◌≤◌, Some, IfSome};
ghost use Rattle.mips_isa.specs.Fit.{FieldsFit};
ghost use Rattle.mips_isa.specs.Codec.{special, with_immediate, with_target, word_of, insn_of, named_insn, special_insn, branch_insn, jump_insn, immediate_insn, op_of, rs_of, rt_of, rd_of, shamt_of, funct_of, immediate_of, target_of};

use crate::field::{Register, ShiftAmount, Target};
use crate::insn::Insn;

/// What stands in a field that an instruction does not use.
const NONE: u8 = 0;

/// The bits of `high` and, below them, a field of `width` bits.
fn append(high: u32, width: u32, field: u32) -> u32
    requires width_fits { width < 32 }
    requires high_fits { high < 2 ^ (32 - width) }
    requires field_fits { field < 2 ^ width }
    ensures { result ≡ high * 2 ^ width + field }
{
    high << width | field
}

fn special(rs: u8, rt: u8, rd: u8, shamt: u8, funct: u8) -> u32
    requires rs_fits { rs < 32 }
    requires rt_fits { rt < 32 }
    requires rd_fits { rd < 32 }
    requires shamt_fits { shamt < 32 }
    requires funct_fits { funct < 64 }
    ensures { result ≡ special rs rt rd shamt funct }
{
    let registers = append(u32::from(rs), 5, u32::from(rt));
    let destination = append(registers, 5, u32::from(rd));
    let shifted = append(destination, 5, u32::from(shamt));
    append(shifted, 6, u32::from(funct))
}

fn with_immediate(op: u8, rs: u8, rt: u8, immediate: u16) -> u32
    requires op_fits { op < 64 }
    requires rs_fits { rs < 32 }
    requires rt_fits { rt < 32 }
    ensures { result ≡ with_immediate op rs rt immediate }
{
    let source = append(u32::from(op), 5, u32::from(rs));
    let registers = append(source, 5, u32::from(rt));
    append(registers, 16, u32::from(immediate))
}

fn with_target(op: u8, target: u32) -> u32
    requires op_fits { op < 64 }
    requires target_fits { target < 2 ^ 26 }
    ensures { result ≡ with_target op target }
{
    append(u32::from(op), 26, target)
}

/// The word of an instruction, whose fields are within their widths.
#[inline(always)]
#[tactic(auto, unfolding(crate::specs::Codec::word_of, crate::specs::Fit::FieldsFit))]
fn word(insn: &Insn) -> u32
    ensures value { result ≡ word_of insn.now }
    ensures fit { FieldsFit insn.now }
{
    match insn {
        Insn::Sll { rd, rt, shamt } => special(NONE, rt.number(), rd.number(), shamt.bits(), 0x00),
        Insn::Srl { rd, rt, shamt } => special(NONE, rt.number(), rd.number(), shamt.bits(), 0x02),
        Insn::Sra { rd, rt, shamt } => special(NONE, rt.number(), rd.number(), shamt.bits(), 0x03),
        Insn::Sllv { rd, rt, rs } => special(rs.number(), rt.number(), rd.number(), NONE, 0x04),
        Insn::Srlv { rd, rt, rs } => special(rs.number(), rt.number(), rd.number(), NONE, 0x06),
        Insn::Srav { rd, rt, rs } => special(rs.number(), rt.number(), rd.number(), NONE, 0x07),
        Insn::Jr { rs } => special(rs.number(), NONE, NONE, NONE, 0x08),
        Insn::Jalr { rd, rs } => special(rs.number(), NONE, rd.number(), NONE, 0x09),
        Insn::Syscall => special(NONE, NONE, NONE, NONE, 0x0c),
        Insn::Break => special(NONE, NONE, NONE, NONE, 0x0d),
        Insn::Mfhi { rd } => special(NONE, NONE, rd.number(), NONE, 0x10),
        Insn::Mthi { rs } => special(rs.number(), NONE, NONE, NONE, 0x11),
        Insn::Mflo { rd } => special(NONE, NONE, rd.number(), NONE, 0x12),
        Insn::Mtlo { rs } => special(rs.number(), NONE, NONE, NONE, 0x13),
        Insn::Mult { rs, rt } => special(rs.number(), rt.number(), NONE, NONE, 0x18),
        Insn::Multu { rs, rt } => special(rs.number(), rt.number(), NONE, NONE, 0x19),
        Insn::Div { rs, rt } => special(rs.number(), rt.number(), NONE, NONE, 0x1a),
        Insn::Divu { rs, rt } => special(rs.number(), rt.number(), NONE, NONE, 0x1b),
        Insn::Addu { rd, rs, rt } => special(rs.number(), rt.number(), rd.number(), NONE, 0x21),
        Insn::Subu { rd, rs, rt } => special(rs.number(), rt.number(), rd.number(), NONE, 0x23),
        Insn::And { rd, rs, rt } => special(rs.number(), rt.number(), rd.number(), NONE, 0x24),
        Insn::Or { rd, rs, rt } => special(rs.number(), rt.number(), rd.number(), NONE, 0x25),
        Insn::Xor { rd, rs, rt } => special(rs.number(), rt.number(), rd.number(), NONE, 0x26),
        Insn::Nor { rd, rs, rt } => special(rs.number(), rt.number(), rd.number(), NONE, 0x27),
        Insn::Slt { rd, rs, rt } => special(rs.number(), rt.number(), rd.number(), NONE, 0x2a),
        Insn::Sltu { rd, rs, rt } => special(rs.number(), rt.number(), rd.number(), NONE, 0x2b),
        Insn::Bltz { rs, offset } => with_immediate(0x01, rs.number(), 0, *offset),
        Insn::Bgez { rs, offset } => with_immediate(0x01, rs.number(), 1, *offset),
        Insn::J { target } => with_target(0x02, target.index()),
        Insn::Jal { target } => with_target(0x03, target.index()),
        Insn::Beq { rs, rt, offset } => with_immediate(0x04, rs.number(), rt.number(), *offset),
        Insn::Bne { rs, rt, offset } => with_immediate(0x05, rs.number(), rt.number(), *offset),
        Insn::Blez { rs, offset } => with_immediate(0x06, rs.number(), NONE, *offset),
        Insn::Bgtz { rs, offset } => with_immediate(0x07, rs.number(), NONE, *offset),
        Insn::Addiu { rt, rs, immediate } => with_immediate(
            0x09,
            rs.number(),
            rt.number(),
            *immediate,
        ),
        Insn::Slti { rt, rs, immediate } => with_immediate(
            0x0a,
            rs.number(),
            rt.number(),
            *immediate,
        ),
        Insn::Sltiu { rt, rs, immediate } => with_immediate(
            0x0b,
            rs.number(),
            rt.number(),
            *immediate,
        ),
        Insn::Andi { rt, rs, immediate } => with_immediate(
            0x0c,
            rs.number(),
            rt.number(),
            *immediate,
        ),
        Insn::Ori { rt, rs, immediate } => with_immediate(
            0x0d,
            rs.number(),
            rt.number(),
            *immediate,
        ),
        Insn::Xori { rt, rs, immediate } => with_immediate(
            0x0e,
            rs.number(),
            rt.number(),
            *immediate,
        ),
        Insn::Lui { rt, immediate } => with_immediate(0x0f, NONE, rt.number(), *immediate),
        Insn::Lb { rt, base, offset } => with_immediate(0x20, base.number(), rt.number(), *offset),
        Insn::Lh { rt, base, offset } => with_immediate(0x21, base.number(), rt.number(), *offset),
        Insn::Lw { rt, base, offset } => with_immediate(0x23, base.number(), rt.number(), *offset),
        Insn::Lbu { rt, base, offset } => with_immediate(0x24, base.number(), rt.number(), *offset),
        Insn::Lhu { rt, base, offset } => with_immediate(0x25, base.number(), rt.number(), *offset),
        Insn::Sb { rt, base, offset } => with_immediate(0x28, base.number(), rt.number(), *offset),
        Insn::Sh { rt, base, offset } => with_immediate(0x29, base.number(), rt.number(), *offset),
        Insn::Sw { rt, base, offset } => with_immediate(0x2b, base.number(), rt.number(), *offset),
    }
}

fn rs(word: u32) -> Register
    ensures { result ≡ rs_of word }
{
    Register::new((word >> 21 & 31) as u8)
}

fn rt(word: u32) -> Register
    ensures { result ≡ rt_of word }
{
    Register::new((word >> 16 & 31) as u8)
}

fn rd(word: u32) -> Register
    ensures { result ≡ rd_of word }
{
    Register::new((word >> 11 & 31) as u8)
}

fn shamt(word: u32) -> ShiftAmount
    ensures { result ≡ shamt_of word }
{
    ShiftAmount::new((word >> 6 & 31) as u8)
}

fn immediate(word: u32) -> u16
    ensures { result ≡ immediate_of word }
{
    (word & 0xffff) as u16
}

fn target(word: u32) -> Target
    ensures { result ≡ target_of word }
{
    Target::new(word & 0x03ff_ffff)
}

/// The operation on registers that a word of op 0 names.
#[tactic(auto, unfolding(crate::specs::Codec::special_insn))]
fn named_special(word: u32) -> Option<Insn>
    ensures { result ≡ special_insn (rs_of word) (rt_of word) (rd_of word) (shamt_of word) (funct_of word) }
{
    let (rs, rt, rd) = (rs(word), rt(word), rd(word));
    let shamt = shamt(word);
    match word & 63 {
        0x00 => Some(Insn::Sll { rd, rt, shamt }),
        0x02 => Some(Insn::Srl { rd, rt, shamt }),
        0x03 => Some(Insn::Sra { rd, rt, shamt }),
        0x04 => Some(Insn::Sllv { rd, rt, rs }),
        0x06 => Some(Insn::Srlv { rd, rt, rs }),
        0x07 => Some(Insn::Srav { rd, rt, rs }),
        0x08 => Some(Insn::Jr { rs }),
        0x09 => Some(Insn::Jalr { rd, rs }),
        0x0c => Some(Insn::Syscall),
        0x0d => Some(Insn::Break),
        0x10 => Some(Insn::Mfhi { rd }),
        0x11 => Some(Insn::Mthi { rs }),
        0x12 => Some(Insn::Mflo { rd }),
        0x13 => Some(Insn::Mtlo { rs }),
        0x18 => Some(Insn::Mult { rs, rt }),
        0x19 => Some(Insn::Multu { rs, rt }),
        0x1a => Some(Insn::Div { rs, rt }),
        0x1b => Some(Insn::Divu { rs, rt }),
        0x21 => Some(Insn::Addu { rd, rs, rt }),
        0x23 => Some(Insn::Subu { rd, rs, rt }),
        0x24 => Some(Insn::And { rd, rs, rt }),
        0x25 => Some(Insn::Or { rd, rs, rt }),
        0x26 => Some(Insn::Xor { rd, rs, rt }),
        0x27 => Some(Insn::Nor { rd, rs, rt }),
        0x2a => Some(Insn::Slt { rd, rs, rt }),
        0x2b => Some(Insn::Sltu { rd, rs, rt }),
        _ => None,
    }
}

/// The instruction with an immediate that a word of op 4 and above names.
#[tactic(auto, unfolding(crate::specs::Codec::immediate_insn))]
fn named_immediate(word: u32) -> Option<Insn>
    ensures { result ≡ immediate_insn (op_of word) (rs_of word) (rt_of word) (immediate_of word) }
{
    let (rs, rt) = (rs(word), rt(word));
    let immediate = immediate(word);
    match word >> 26 {
        0x04 => Some(Insn::Beq {
            rs,
            rt,
            offset: immediate,
        }),
        0x05 => Some(Insn::Bne {
            rs,
            rt,
            offset: immediate,
        }),
        0x06 => Some(Insn::Blez {
            rs,
            offset: immediate,
        }),
        0x07 => Some(Insn::Bgtz {
            rs,
            offset: immediate,
        }),
        0x09 => Some(Insn::Addiu { rt, rs, immediate }),
        0x0a => Some(Insn::Slti { rt, rs, immediate }),
        0x0b => Some(Insn::Sltiu { rt, rs, immediate }),
        0x0c => Some(Insn::Andi { rt, rs, immediate }),
        0x0d => Some(Insn::Ori { rt, rs, immediate }),
        0x0e => Some(Insn::Xori { rt, rs, immediate }),
        0x0f => Some(Insn::Lui { rt, immediate }),
        0x20 => Some(Insn::Lb {
            rt,
            base: rs,
            offset: immediate,
        }),
        0x21 => Some(Insn::Lh {
            rt,
            base: rs,
            offset: immediate,
        }),
        0x23 => Some(Insn::Lw {
            rt,
            base: rs,
            offset: immediate,
        }),
        0x24 => Some(Insn::Lbu {
            rt,
            base: rs,
            offset: immediate,
        }),
        0x25 => Some(Insn::Lhu {
            rt,
            base: rs,
            offset: immediate,
        }),
        0x28 => Some(Insn::Sb {
            rt,
            base: rs,
            offset: immediate,
        }),
        0x29 => Some(Insn::Sh {
            rt,
            base: rs,
            offset: immediate,
        }),
        0x2b => Some(Insn::Sw {
            rt,
            base: rs,
            offset: immediate,
        }),
        _ => None,
    }
}

/// The instruction that a word's codes name, whatever stands in the fields that it does not use.
#[tactic(auto, unfolding(crate::specs::Codec::named_insn, crate::specs::Codec::branch_insn, crate::specs::Codec::jump_insn))]
fn named(word: u32) -> Option<Insn>
    ensures { result ≡ named_insn word }
{
    match word >> 26 {
        0x00 => named_special(word),
        0x01 => match word >> 16 & 31 {
            0x00 => Some(Insn::Bltz {
                rs: rs(word),
                offset: immediate(word),
            }),
            0x01 => Some(Insn::Bgez {
                rs: rs(word),
                offset: immediate(word),
            }),
            _ => None,
        },
        0x02 => Some(Insn::J {
            target: target(word),
        }),
        0x03 => Some(Insn::Jal {
            target: target(word),
        }),
        _ => named_immediate(word),
    }
}

/// The word of an instruction.
pub fn encode(insn: Insn) -> u32
    ensures word { result ≡ word_of insn }
    ensures decodes { insn_of result ≡ Some insn }
{
    word(&insn)
}

/// The instruction of a word, or None exactly where there is no such word.
#[tactic(auto, unfolding(crate::specs::Codec::insn_of))]
pub fn decode(word: u32) -> Option<Insn>
    ensures insn { result ≡ insn_of word }
    ensures encodes { IfSome result (λ i. word_of i ≡ word) }
    ensures fit { IfSome result FieldsFit }
{
    let insn = named(word)?;
    if self::word(&insn) == word {
        Some(insn)
    } else {
        None
    }
}
