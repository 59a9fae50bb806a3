// Instructions as words, and back (SPARC V8 manual, appendix F).

ghost use Rattle.std.specs.Prelude.{◌≡◌, ◌<◌, ◌^◌, Some, IfSome};
ghost use Rattle.sparc_isa.specs.Fit.{OperandFits, ShiftFits, TrapFits, FieldsFit};
ghost use Rattle.sparc_isa.specs.Codec.{operand_word, shift_word, trap_word, call_format, wide_format, operand_format, word_of, insn_of, named_insn, wide_insn, arithmetic_insn, memory_insn, displacement_of, five_of, wide_of, op2_of, op3_of, rs1_of, low_of, operand_of, shift_of, trap_of};

use crate::condition::Condition;
use crate::field::{
    Displacement22, Displacement30, Immediate22, Register, ShiftCount, Simm13, TrapNumber,
};
use crate::insn::Insn;
use crate::operand::{Operand, ShiftOperand, TrapOperand};

/// What stands in a field that an instruction does not use.
const NONE: u8 = 0;

/// The bit that says that an operand is an immediate.
const IMMEDIATE: u32 = 0x2000;

// ---- operands

#[tactic(auto, unfolding(crate::specs::Codec::operand_word, crate::specs::Fit::OperandFits))]
#[inline(always)]
fn operand_word(operand: &Operand) -> u32
    ensures value { result ≡ operand_word operand.now }
    ensures in_range { result < 2 ^ 14 }
    ensures fit { OperandFits operand.now }
{
    match operand {
        Operand::Register(register) => u32::from(register.number()),
        Operand::Immediate(value) => IMMEDIATE + u32::from(value.bits()),
    }
}

#[tactic(auto, unfolding(crate::specs::Codec::shift_word, crate::specs::Fit::ShiftFits))]
#[inline(always)]
fn shift_word(count: &ShiftOperand) -> u32
    ensures value { result ≡ shift_word count.now }
    ensures in_range { result < 2 ^ 14 }
    ensures fit { ShiftFits count.now }
{
    match count {
        ShiftOperand::Register(register) => u32::from(register.number()),
        ShiftOperand::Immediate(value) => IMMEDIATE + u32::from(value.bits()),
    }
}

#[tactic(auto, unfolding(crate::specs::Codec::trap_word, crate::specs::Fit::TrapFits))]
#[inline(always)]
fn trap_word(number: &TrapOperand) -> u32
    ensures value { result ≡ trap_word number.now }
    ensures in_range { result < 2 ^ 14 }
    ensures fit { TrapFits number.now }
{
    match number {
        TrapOperand::Register(register) => u32::from(register.number()),
        TrapOperand::Immediate(value) => IMMEDIATE + u32::from(value.bits()),
    }
}

// ---- the formats

#[tactic(auto, unfolding(crate::specs::Codec::call_format))]
#[inline(always)]
fn call_format(displacement: u32) -> u32
    requires { displacement < 2 ^ 30 }
    ensures { result ≡ call_format displacement }
{
    0x4000_0000 + displacement
}

#[tactic(auto, unfolding(crate::specs::Codec::wide_format))]
#[inline(always)]
fn wide_format(five: u8, op2: u8, wide: u32) -> u32
    requires five_fits { five < 32 }
    requires op2_fits { op2 < 8 }
    requires wide_fits { wide < 2 ^ 22 }
    ensures { result ≡ wide_format five op2 wide }
{
    (u32::from(five) << 25) + (u32::from(op2) << 22) + wide
}

#[tactic(auto, unfolding(crate::specs::Codec::operand_format))]
#[inline(always)]
fn operand_format(op: u8, rd: u8, op3: u8, rs1: u8, low: u32) -> u32
    requires op_fits { op < 4 }
    requires rd_fits { rd < 32 }
    requires op3_fits { op3 < 64 }
    requires rs1_fits { rs1 < 32 }
    requires low_fits { low < 2 ^ 14 }
    ensures { result ≡ operand_format op rd op3 rs1 low }
{
    (u32::from(op) << 30)
        + (u32::from(rd) << 25)
        + (u32::from(op3) << 19)
        + (u32::from(rs1) << 14)
        + low
}

/// The word of an instruction, whose fields are within their widths.
#[tactic(auto, unfolding(crate::specs::Codec::word_of, crate::specs::Fit::FieldsFit))]
#[inline(always)]
fn word(insn: &Insn) -> u32
    ensures value { result ≡ word_of insn.now }
    ensures fit { FieldsFit insn.now }
{
    match insn {
        Insn::Call { displacement } => call_format(displacement.bits()),
        Insn::Bicc {
            annul,
            condition,
            displacement,
        } => wide_format(
            u8::from(*annul) * 16 + condition.code(),
            2,
            displacement.bits(),
        ),
        Insn::Sethi { rd, immediate } => wide_format(rd.number(), 4, immediate.bits()),
        Insn::Add { rd, rs1, operand } => operand_format(
            2,
            rd.number(),
            0x00,
            rs1.number(),
            operand_word(operand),
        ),
        Insn::And { rd, rs1, operand } => operand_format(
            2,
            rd.number(),
            0x01,
            rs1.number(),
            operand_word(operand),
        ),
        Insn::Or { rd, rs1, operand } => operand_format(
            2,
            rd.number(),
            0x02,
            rs1.number(),
            operand_word(operand),
        ),
        Insn::Xor { rd, rs1, operand } => operand_format(
            2,
            rd.number(),
            0x03,
            rs1.number(),
            operand_word(operand),
        ),
        Insn::Sub { rd, rs1, operand } => operand_format(
            2,
            rd.number(),
            0x04,
            rs1.number(),
            operand_word(operand),
        ),
        Insn::Andn { rd, rs1, operand } => operand_format(
            2,
            rd.number(),
            0x05,
            rs1.number(),
            operand_word(operand),
        ),
        Insn::Orn { rd, rs1, operand } => operand_format(
            2,
            rd.number(),
            0x06,
            rs1.number(),
            operand_word(operand),
        ),
        Insn::Xnor { rd, rs1, operand } => operand_format(
            2,
            rd.number(),
            0x07,
            rs1.number(),
            operand_word(operand),
        ),
        Insn::Umul { rd, rs1, operand } => operand_format(
            2,
            rd.number(),
            0x0a,
            rs1.number(),
            operand_word(operand),
        ),
        Insn::Smul { rd, rs1, operand } => operand_format(
            2,
            rd.number(),
            0x0b,
            rs1.number(),
            operand_word(operand),
        ),
        Insn::Udiv { rd, rs1, operand } => operand_format(
            2,
            rd.number(),
            0x0e,
            rs1.number(),
            operand_word(operand),
        ),
        Insn::Sdiv { rd, rs1, operand } => operand_format(
            2,
            rd.number(),
            0x0f,
            rs1.number(),
            operand_word(operand),
        ),
        Insn::Subcc { rd, rs1, operand } => operand_format(
            2,
            rd.number(),
            0x14,
            rs1.number(),
            operand_word(operand),
        ),
        Insn::Sll { rd, rs1, count } => operand_format(
            2,
            rd.number(),
            0x25,
            rs1.number(),
            shift_word(count),
        ),
        Insn::Srl { rd, rs1, count } => operand_format(
            2,
            rd.number(),
            0x26,
            rs1.number(),
            shift_word(count),
        ),
        Insn::Sra { rd, rs1, count } => operand_format(
            2,
            rd.number(),
            0x27,
            rs1.number(),
            shift_word(count),
        ),
        Insn::Rdy { rd } => operand_format(2, rd.number(), 0x28, NONE, 0),
        Insn::Wry { rs1, operand } => operand_format(
            2,
            NONE,
            0x30,
            rs1.number(),
            operand_word(operand),
        ),
        Insn::Jmpl { rd, rs1, operand } => operand_format(
            2,
            rd.number(),
            0x38,
            rs1.number(),
            operand_word(operand),
        ),
        Insn::Ticc {
            condition,
            rs1,
            operand,
        } => operand_format(2, condition.code(), 0x3a, rs1.number(), trap_word(operand)),
        Insn::Save { rd, rs1, operand } => operand_format(
            2,
            rd.number(),
            0x3c,
            rs1.number(),
            operand_word(operand),
        ),
        Insn::Restore { rd, rs1, operand } => operand_format(
            2,
            rd.number(),
            0x3d,
            rs1.number(),
            operand_word(operand),
        ),
        Insn::Ld { rd, rs1, operand } => operand_format(
            3,
            rd.number(),
            0x00,
            rs1.number(),
            operand_word(operand),
        ),
        Insn::Ldub { rd, rs1, operand } => operand_format(
            3,
            rd.number(),
            0x01,
            rs1.number(),
            operand_word(operand),
        ),
        Insn::Lduh { rd, rs1, operand } => operand_format(
            3,
            rd.number(),
            0x02,
            rs1.number(),
            operand_word(operand),
        ),
        Insn::St { rd, rs1, operand } => operand_format(
            3,
            rd.number(),
            0x04,
            rs1.number(),
            operand_word(operand),
        ),
        Insn::Stb { rd, rs1, operand } => operand_format(
            3,
            rd.number(),
            0x05,
            rs1.number(),
            operand_word(operand),
        ),
        Insn::Sth { rd, rs1, operand } => operand_format(
            3,
            rd.number(),
            0x06,
            rs1.number(),
            operand_word(operand),
        ),
        Insn::Ldsb { rd, rs1, operand } => operand_format(
            3,
            rd.number(),
            0x09,
            rs1.number(),
            operand_word(operand),
        ),
        Insn::Ldsh { rd, rs1, operand } => operand_format(
            3,
            rd.number(),
            0x0a,
            rs1.number(),
            operand_word(operand),
        ),
    }
}

// ---- the fields of a word

/// Five bits from bit 25 on: rd, or the annul bit and the condition.
#[inline(always)]
fn five(word: u32) -> u8
    ensures value { result ≡ five_of word }
    ensures in_range { result < 32 }
{
    (word >> 25 & 31) as u8
}

#[inline(always)]
fn rs1(word: u32) -> Register
    ensures { result ≡ rs1_of word }
{
    Register::new((word >> 14 & 31) as u8)
}

#[tactic(auto, unfolding(crate::specs::Codec::operand_of))]
#[inline(always)]
fn operand(word: u32) -> Operand
    ensures { result ≡ operand_of (low_of word) }
{
    if word >> 13 & 1 == 0 {
        Operand::Register(Register::new((word & 31) as u8))
    } else {
        Operand::Immediate(Simm13::new((word & 0x1fff) as u16))
    }
}

#[tactic(auto, unfolding(crate::specs::Codec::shift_of))]
#[inline(always)]
fn count(word: u32) -> ShiftOperand
    ensures { result ≡ shift_of (low_of word) }
{
    if word >> 13 & 1 == 0 {
        ShiftOperand::Register(Register::new((word & 31) as u8))
    } else {
        ShiftOperand::Immediate(ShiftCount::new((word & 31) as u8))
    }
}

#[tactic(auto, unfolding(crate::specs::Codec::trap_of))]
#[inline(always)]
fn trap(word: u32) -> TrapOperand
    ensures { result ≡ trap_of (low_of word) }
{
    if word >> 13 & 1 == 0 {
        TrapOperand::Register(Register::new((word & 31) as u8))
    } else {
        TrapOperand::Immediate(TrapNumber::new((word & 0x7f) as u8))
    }
}

// ---- the tables

/// The instruction of op 0 that a word's op2 names.
#[tactic(auto, unfolding(crate::specs::Codec::wide_insn))]
#[inline(always)]
fn named_wide(word: u32) -> Option<Insn>
    ensures { result ≡ wide_insn (five_of word) (op2_of word) (wide_of word) }
{
    let five = five(word);
    let wide = word & 0x3f_ffff;
    match word >> 22 & 7 {
        2 => Some(Insn::Bicc {
            annul: five >> 4 == 1,
            condition: Condition::from_code(five & 15),
            displacement: Displacement22::new(wide),
        }),
        4 => Some(Insn::Sethi {
            rd: Register::new(five),
            immediate: Immediate22::new(wide),
        }),
        _ => None,
    }
}

/// The instruction of op 2 that a word's op3 names.
#[tactic(auto, unfolding(crate::specs::Codec::arithmetic_insn))]
#[inline(always)]
fn named_arithmetic(word: u32) -> Option<Insn>
    ensures { result ≡ arithmetic_insn (five_of word) (op3_of word) (rs1_of word) (low_of word) }
{
    let rd = Register::new(five(word));
    let rs1 = rs1(word);
    match word >> 19 & 63 {
        0x00 => Some(Insn::Add {
            rd,
            rs1,
            operand: operand(word),
        }),
        0x01 => Some(Insn::And {
            rd,
            rs1,
            operand: operand(word),
        }),
        0x02 => Some(Insn::Or {
            rd,
            rs1,
            operand: operand(word),
        }),
        0x03 => Some(Insn::Xor {
            rd,
            rs1,
            operand: operand(word),
        }),
        0x04 => Some(Insn::Sub {
            rd,
            rs1,
            operand: operand(word),
        }),
        0x05 => Some(Insn::Andn {
            rd,
            rs1,
            operand: operand(word),
        }),
        0x06 => Some(Insn::Orn {
            rd,
            rs1,
            operand: operand(word),
        }),
        0x07 => Some(Insn::Xnor {
            rd,
            rs1,
            operand: operand(word),
        }),
        0x0a => Some(Insn::Umul {
            rd,
            rs1,
            operand: operand(word),
        }),
        0x0b => Some(Insn::Smul {
            rd,
            rs1,
            operand: operand(word),
        }),
        0x0e => Some(Insn::Udiv {
            rd,
            rs1,
            operand: operand(word),
        }),
        0x0f => Some(Insn::Sdiv {
            rd,
            rs1,
            operand: operand(word),
        }),
        0x14 => Some(Insn::Subcc {
            rd,
            rs1,
            operand: operand(word),
        }),
        0x25 => Some(Insn::Sll {
            rd,
            rs1,
            count: count(word),
        }),
        0x26 => Some(Insn::Srl {
            rd,
            rs1,
            count: count(word),
        }),
        0x27 => Some(Insn::Sra {
            rd,
            rs1,
            count: count(word),
        }),
        0x28 => Some(Insn::Rdy { rd }),
        0x30 => Some(Insn::Wry {
            rs1,
            operand: operand(word),
        }),
        0x38 => Some(Insn::Jmpl {
            rd,
            rs1,
            operand: operand(word),
        }),
        0x3a => Some(Insn::Ticc {
            condition: Condition::from_code(five(word) & 15),
            rs1,
            operand: trap(word),
        }),
        0x3c => Some(Insn::Save {
            rd,
            rs1,
            operand: operand(word),
        }),
        0x3d => Some(Insn::Restore {
            rd,
            rs1,
            operand: operand(word),
        }),
        _ => None,
    }
}

/// The instruction of op 3 that a word's op3 names.
#[tactic(auto, unfolding(crate::specs::Codec::memory_insn))]
#[inline(always)]
fn named_memory(word: u32) -> Option<Insn>
    ensures { result ≡ memory_insn (five_of word) (op3_of word) (rs1_of word) (low_of word) }
{
    let rd = Register::new(five(word));
    let rs1 = rs1(word);
    let operand = operand(word);
    match word >> 19 & 63 {
        0x00 => Some(Insn::Ld { rd, rs1, operand }),
        0x01 => Some(Insn::Ldub { rd, rs1, operand }),
        0x02 => Some(Insn::Lduh { rd, rs1, operand }),
        0x04 => Some(Insn::St { rd, rs1, operand }),
        0x05 => Some(Insn::Stb { rd, rs1, operand }),
        0x06 => Some(Insn::Sth { rd, rs1, operand }),
        0x09 => Some(Insn::Ldsb { rd, rs1, operand }),
        0x0a => Some(Insn::Ldsh { rd, rs1, operand }),
        _ => None,
    }
}

/// The instruction that a word's codes name, whatever stands in the fields that it does not use.
#[tactic(auto, unfolding(crate::specs::Codec::named_insn))]
#[inline(always)]
fn named(word: u32) -> Option<Insn>
    ensures { result ≡ named_insn word }
{
    match word >> 30 {
        0 => named_wide(word),
        1 => Some(Insn::Call {
            displacement: Displacement30::new(word & 0x3fff_ffff),
        }),
        2 => named_arithmetic(word),
        _ => named_memory(word),
    }
}

/// The word of an instruction.
pub fn encode(insn: Insn) -> u32
    ensures word { result ≡ word_of insn }
    ensures decodes { insn_of result ≡ Some insn }
{
    word(&insn)
}

/// The instruction of a word, or None exactly where there is no such word.
#[tactic(auto, unfolding(crate::specs::Codec::insn_of))]
pub fn decode(word: u32) -> Option<Insn>
    ensures insn { result ≡ insn_of word }
    ensures encodes { IfSome result (λ i. word_of i ≡ word) }
    ensures fit { IfSome result FieldsFit }
{
    let insn = named(word)?;
    if self::word(&insn) == word {
        Some(insn)
    } else {
        None
    }
}
