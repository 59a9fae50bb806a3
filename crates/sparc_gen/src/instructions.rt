// Instructions by the numbers of their registers.
ghost use Rattle.std.specs.Prelude.{◌≡◌, ◌<◌, false};
ghost use Rattle.sparc_isa.specs.declared.condition.Condition.TheVariants as when;
ghost use Rattle.sparc_isa.specs.declared.operand.Operand.TheVariants as second;
ghost use Rattle.sparc_isa.specs.declared.operand.ShiftOperand.TheVariants as shift;
ghost use Rattle.sparc_isa.specs.declared.operand.TrapOperand.TheVariants as trap_by;
ghost use Rattle.sparc_isa.specs.declared.insn.Insn.TheVariants.{Add, And, Bicc, Call, Jmpl, Ld, Ldsb, Ldsh, Ldub, Lduh, Or, Restore, Save, Sdiv, Sethi, Sll, Smul, Sra, Srl, St, Stb, Sub, Subcc, Ticc, Udiv, Wry, Xnor, Xor};

use sparc_isa::{
    Condition, Displacement22, Displacement30, Immediate22, Insn, Operand, Register, ShiftCount,
    ShiftOperand, Simm13, TrapNumber, TrapOperand,
};

/// A register as an operand.
pub fn by_register(number: u8) -> Operand
    requires { number < 32 }
    ensures { result ≡ second.Register number }
{
    Operand::Register(Register::new(number))
}

/// An immediate of 13 bits as an operand.
pub fn by_bits(bits: u16) -> Operand
    requires { bits < 8192 }
    ensures { result ≡ second.Immediate bits }
{
    Operand::Immediate(Simm13::new(bits))
}

/// The no-op.
pub fn no_op() -> Insn
    ensures { result ≡ Sethi 0 0 }
{
    sethi(0, 0)
}

/// A call, whose displacement the linker writes.
pub fn call() -> Insn
    ensures { result ≡ Call 0 }
{
    Insn::Call {
        displacement: Displacement30::new(0),
    }
}

/// A branch by so many words, 22 bits, whose slot is never annulled.
pub fn branch(condition: Condition, words: u32) -> Insn
    requires { words < 4194304 }
    ensures { result ≡ Bicc false condition words }
{
    Insn::Bicc {
        annul: false,
        condition,
        displacement: Displacement22::new(words),
    }
}

pub fn sethi(rd: u8, bits: u32) -> Insn
    requires rd_fits { rd < 32 }
    requires bits_fits { bits < 4194304 }
    ensures { result ≡ Sethi rd bits }
{
    Insn::Sethi {
        rd: Register::new(rd),
        immediate: Immediate22::new(bits),
    }
}

/// A trap of a number, always.
pub fn trap(number: u8) -> Insn
    requires { number < 128 }
    ensures { result ≡ Ticc when.Always 0 (trap_by.Immediate number) }
{
    Insn::Ticc {
        condition: Condition::Always,
        rs1: Register::new(0),
        operand: TrapOperand::Immediate(TrapNumber::new(number)),
    }
}

pub fn wry(rs1: u8) -> Insn
    requires { rs1 < 32 }
    ensures { result ≡ Wry rs1 (second.Register 0) }
{
    Insn::Wry {
        rs1: Register::new(rs1),
        operand: by_register(0),
    }
}

pub fn add(rd: u8, rs1: u8, operand: Operand) -> Insn
    requires rd_fits { rd < 32 }
    requires rs1_fits { rs1 < 32 }
    ensures { result ≡ Add rd rs1 operand }
{
    Insn::Add {
        rd: Register::new(rd),
        rs1: Register::new(rs1),
        operand,
    }
}

pub fn and(rd: u8, rs1: u8, operand: Operand) -> Insn
    requires rd_fits { rd < 32 }
    requires rs1_fits { rs1 < 32 }
    ensures { result ≡ And rd rs1 operand }
{
    Insn::And {
        rd: Register::new(rd),
        rs1: Register::new(rs1),
        operand,
    }
}

pub fn or(rd: u8, rs1: u8, operand: Operand) -> Insn
    requires rd_fits { rd < 32 }
    requires rs1_fits { rs1 < 32 }
    ensures { result ≡ Or rd rs1 operand }
{
    Insn::Or {
        rd: Register::new(rd),
        rs1: Register::new(rs1),
        operand,
    }
}

pub fn xor(rd: u8, rs1: u8, operand: Operand) -> Insn
    requires rd_fits { rd < 32 }
    requires rs1_fits { rs1 < 32 }
    ensures { result ≡ Xor rd rs1 operand }
{
    Insn::Xor {
        rd: Register::new(rd),
        rs1: Register::new(rs1),
        operand,
    }
}

pub fn sub(rd: u8, rs1: u8, operand: Operand) -> Insn
    requires rd_fits { rd < 32 }
    requires rs1_fits { rs1 < 32 }
    ensures { result ≡ Sub rd rs1 operand }
{
    Insn::Sub {
        rd: Register::new(rd),
        rs1: Register::new(rs1),
        operand,
    }
}

pub fn xnor(rd: u8, rs1: u8, operand: Operand) -> Insn
    requires rd_fits { rd < 32 }
    requires rs1_fits { rs1 < 32 }
    ensures { result ≡ Xnor rd rs1 operand }
{
    Insn::Xnor {
        rd: Register::new(rd),
        rs1: Register::new(rs1),
        operand,
    }
}

pub fn smul(rd: u8, rs1: u8, operand: Operand) -> Insn
    requires rd_fits { rd < 32 }
    requires rs1_fits { rs1 < 32 }
    ensures { result ≡ Smul rd rs1 operand }
{
    Insn::Smul {
        rd: Register::new(rd),
        rs1: Register::new(rs1),
        operand,
    }
}

pub fn udiv(rd: u8, rs1: u8, operand: Operand) -> Insn
    requires rd_fits { rd < 32 }
    requires rs1_fits { rs1 < 32 }
    ensures { result ≡ Udiv rd rs1 operand }
{
    Insn::Udiv {
        rd: Register::new(rd),
        rs1: Register::new(rs1),
        operand,
    }
}

pub fn sdiv(rd: u8, rs1: u8, operand: Operand) -> Insn
    requires rd_fits { rd < 32 }
    requires rs1_fits { rs1 < 32 }
    ensures { result ≡ Sdiv rd rs1 operand }
{
    Insn::Sdiv {
        rd: Register::new(rd),
        rs1: Register::new(rs1),
        operand,
    }
}

pub fn subcc(rd: u8, rs1: u8, operand: Operand) -> Insn
    requires rd_fits { rd < 32 }
    requires rs1_fits { rs1 < 32 }
    ensures { result ≡ Subcc rd rs1 operand }
{
    Insn::Subcc {
        rd: Register::new(rd),
        rs1: Register::new(rs1),
        operand,
    }
}

pub fn jmpl(rd: u8, rs1: u8, operand: Operand) -> Insn
    requires rd_fits { rd < 32 }
    requires rs1_fits { rs1 < 32 }
    ensures { result ≡ Jmpl rd rs1 operand }
{
    Insn::Jmpl {
        rd: Register::new(rd),
        rs1: Register::new(rs1),
        operand,
    }
}

pub fn save(rd: u8, rs1: u8, operand: Operand) -> Insn
    requires rd_fits { rd < 32 }
    requires rs1_fits { rs1 < 32 }
    ensures { result ≡ Save rd rs1 operand }
{
    Insn::Save {
        rd: Register::new(rd),
        rs1: Register::new(rs1),
        operand,
    }
}

pub fn restore(rd: u8, rs1: u8, operand: Operand) -> Insn
    requires rd_fits { rd < 32 }
    requires rs1_fits { rs1 < 32 }
    ensures { result ≡ Restore rd rs1 operand }
{
    Insn::Restore {
        rd: Register::new(rd),
        rs1: Register::new(rs1),
        operand,
    }
}

pub fn ld(rd: u8, rs1: u8, operand: Operand) -> Insn
    requires rd_fits { rd < 32 }
    requires rs1_fits { rs1 < 32 }
    ensures { result ≡ Ld rd rs1 operand }
{
    Insn::Ld {
        rd: Register::new(rd),
        rs1: Register::new(rs1),
        operand,
    }
}

pub fn ldub(rd: u8, rs1: u8, operand: Operand) -> Insn
    requires rd_fits { rd < 32 }
    requires rs1_fits { rs1 < 32 }
    ensures { result ≡ Ldub rd rs1 operand }
{
    Insn::Ldub {
        rd: Register::new(rd),
        rs1: Register::new(rs1),
        operand,
    }
}

pub fn lduh(rd: u8, rs1: u8, operand: Operand) -> Insn
    requires rd_fits { rd < 32 }
    requires rs1_fits { rs1 < 32 }
    ensures { result ≡ Lduh rd rs1 operand }
{
    Insn::Lduh {
        rd: Register::new(rd),
        rs1: Register::new(rs1),
        operand,
    }
}

pub fn st(rd: u8, rs1: u8, operand: Operand) -> Insn
    requires rd_fits { rd < 32 }
    requires rs1_fits { rs1 < 32 }
    ensures { result ≡ St rd rs1 operand }
{
    Insn::St {
        rd: Register::new(rd),
        rs1: Register::new(rs1),
        operand,
    }
}

pub fn stb(rd: u8, rs1: u8, operand: Operand) -> Insn
    requires rd_fits { rd < 32 }
    requires rs1_fits { rs1 < 32 }
    ensures { result ≡ Stb rd rs1 operand }
{
    Insn::Stb {
        rd: Register::new(rd),
        rs1: Register::new(rs1),
        operand,
    }
}

pub fn ldsb(rd: u8, rs1: u8, operand: Operand) -> Insn
    requires rd_fits { rd < 32 }
    requires rs1_fits { rs1 < 32 }
    ensures { result ≡ Ldsb rd rs1 operand }
{
    Insn::Ldsb {
        rd: Register::new(rd),
        rs1: Register::new(rs1),
        operand,
    }
}

pub fn ldsh(rd: u8, rs1: u8, operand: Operand) -> Insn
    requires rd_fits { rd < 32 }
    requires rs1_fits { rs1 < 32 }
    ensures { result ≡ Ldsh rd rs1 operand }
{
    Insn::Ldsh {
        rd: Register::new(rd),
        rs1: Register::new(rs1),
        operand,
    }
}

pub fn sll(rd: u8, rs1: u8, by: u8) -> Insn
    requires rd_fits { rd < 32 }
    requires rs1_fits { rs1 < 32 }
    requires by_fits { by < 32 }
    ensures { result ≡ Sll rd rs1 (shift.Register by) }
{
    Insn::Sll {
        rd: Register::new(rd),
        rs1: Register::new(rs1),
        count: ShiftOperand::Register(Register::new(by)),
    }
}

pub fn sll_by(rd: u8, rs1: u8, bits: u8) -> Insn
    requires rd_fits { rd < 32 }
    requires rs1_fits { rs1 < 32 }
    requires bits_fits { bits < 32 }
    ensures { result ≡ Sll rd rs1 (shift.Immediate bits) }
{
    Insn::Sll {
        rd: Register::new(rd),
        rs1: Register::new(rs1),
        count: ShiftOperand::Immediate(ShiftCount::new(bits)),
    }
}

pub fn srl(rd: u8, rs1: u8, by: u8) -> Insn
    requires rd_fits { rd < 32 }
    requires rs1_fits { rs1 < 32 }
    requires by_fits { by < 32 }
    ensures { result ≡ Srl rd rs1 (shift.Register by) }
{
    Insn::Srl {
        rd: Register::new(rd),
        rs1: Register::new(rs1),
        count: ShiftOperand::Register(Register::new(by)),
    }
}

pub fn srl_by(rd: u8, rs1: u8, bits: u8) -> Insn
    requires rd_fits { rd < 32 }
    requires rs1_fits { rs1 < 32 }
    requires bits_fits { bits < 32 }
    ensures { result ≡ Srl rd rs1 (shift.Immediate bits) }
{
    Insn::Srl {
        rd: Register::new(rd),
        rs1: Register::new(rs1),
        count: ShiftOperand::Immediate(ShiftCount::new(bits)),
    }
}

pub fn sra(rd: u8, rs1: u8, by: u8) -> Insn
    requires rd_fits { rd < 32 }
    requires rs1_fits { rs1 < 32 }
    requires by_fits { by < 32 }
    ensures { result ≡ Sra rd rs1 (shift.Register by) }
{
    Insn::Sra {
        rd: Register::new(rd),
        rs1: Register::new(rs1),
        count: ShiftOperand::Register(Register::new(by)),
    }
}

pub fn sra_by(rd: u8, rs1: u8, bits: u8) -> Insn
    requires rd_fits { rd < 32 }
    requires rs1_fits { rs1 < 32 }
    requires bits_fits { bits < 32 }
    ensures { result ≡ Sra rd rs1 (shift.Immediate bits) }
{
    Insn::Sra {
        rd: Register::new(rd),
        rs1: Register::new(rs1),
        count: ShiftOperand::Immediate(ShiftCount::new(bits)),
    }
}
