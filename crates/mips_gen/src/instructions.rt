// Instructions by the numbers of their registers.
ghost use Rattle.std.specs.Prelude.{◌≡◌, ◌<◌};
ghost use Rattle.mips_isa.specs.declared.insn.Insn.TheVariants.{Addiu, Addu, And, Andi, Beq, Bne, Div, Divu, J, Jal, Jr, Lb, Lbu, Lh, Lhu, Lui, Lw, Mfhi, Mflo, Mult, Nor, Or, Ori, Sb, Sll, Sllv, Slt, Sltiu, Sltu, Sra, Srav, Srlv, Subu, Sw, Xor, Xori};

use mips_isa::{Insn, Register, ShiftAmount, Target};

/// The no-op.
pub fn no_op() -> Insn
    ensures { result ≡ Sll 0 0 0 }
{
    sll(0, 0, 0)
}

pub fn sll(rd: u8, rt: u8, shamt: u8) -> Insn
    requires rd_fits { rd < 32 }
    requires rt_fits { rt < 32 }
    requires shamt_fits { shamt < 32 }
    ensures { result ≡ Sll rd rt shamt }
{
    Insn::Sll {
        rd: Register::new(rd),
        rt: Register::new(rt),
        shamt: ShiftAmount::new(shamt),
    }
}

pub fn sra(rd: u8, rt: u8, shamt: u8) -> Insn
    requires rd_fits { rd < 32 }
    requires rt_fits { rt < 32 }
    requires shamt_fits { shamt < 32 }
    ensures { result ≡ Sra rd rt shamt }
{
    Insn::Sra {
        rd: Register::new(rd),
        rt: Register::new(rt),
        shamt: ShiftAmount::new(shamt),
    }
}

pub fn sllv(rd: u8, rt: u8, rs: u8) -> Insn
    requires rd_fits { rd < 32 }
    requires rt_fits { rt < 32 }
    requires rs_fits { rs < 32 }
    ensures { result ≡ Sllv rd rt rs }
{
    Insn::Sllv {
        rd: Register::new(rd),
        rt: Register::new(rt),
        rs: Register::new(rs),
    }
}

pub fn srlv(rd: u8, rt: u8, rs: u8) -> Insn
    requires rd_fits { rd < 32 }
    requires rt_fits { rt < 32 }
    requires rs_fits { rs < 32 }
    ensures { result ≡ Srlv rd rt rs }
{
    Insn::Srlv {
        rd: Register::new(rd),
        rt: Register::new(rt),
        rs: Register::new(rs),
    }
}

pub fn srav(rd: u8, rt: u8, rs: u8) -> Insn
    requires rd_fits { rd < 32 }
    requires rt_fits { rt < 32 }
    requires rs_fits { rs < 32 }
    ensures { result ≡ Srav rd rt rs }
{
    Insn::Srav {
        rd: Register::new(rd),
        rt: Register::new(rt),
        rs: Register::new(rs),
    }
}

pub fn jr(rs: u8) -> Insn
    requires { rs < 32 }
    ensures { result ≡ Jr rs }
{
    Insn::Jr {
        rs: Register::new(rs),
    }
}

pub fn mfhi(rd: u8) -> Insn
    requires { rd < 32 }
    ensures { result ≡ Mfhi rd }
{
    Insn::Mfhi {
        rd: Register::new(rd),
    }
}

pub fn mflo(rd: u8) -> Insn
    requires { rd < 32 }
    ensures { result ≡ Mflo rd }
{
    Insn::Mflo {
        rd: Register::new(rd),
    }
}

pub fn mult(rs: u8, rt: u8) -> Insn
    requires rs_fits { rs < 32 }
    requires rt_fits { rt < 32 }
    ensures { result ≡ Mult rs rt }
{
    Insn::Mult {
        rs: Register::new(rs),
        rt: Register::new(rt),
    }
}

pub fn div(rs: u8, rt: u8) -> Insn
    requires rs_fits { rs < 32 }
    requires rt_fits { rt < 32 }
    ensures { result ≡ Div rs rt }
{
    Insn::Div {
        rs: Register::new(rs),
        rt: Register::new(rt),
    }
}

pub fn divu(rs: u8, rt: u8) -> Insn
    requires rs_fits { rs < 32 }
    requires rt_fits { rt < 32 }
    ensures { result ≡ Divu rs rt }
{
    Insn::Divu {
        rs: Register::new(rs),
        rt: Register::new(rt),
    }
}

pub fn addu(rd: u8, rs: u8, rt: u8) -> Insn
    requires rd_fits { rd < 32 }
    requires rs_fits { rs < 32 }
    requires rt_fits { rt < 32 }
    ensures { result ≡ Addu rd rs rt }
{
    Insn::Addu {
        rd: Register::new(rd),
        rs: Register::new(rs),
        rt: Register::new(rt),
    }
}

pub fn subu(rd: u8, rs: u8, rt: u8) -> Insn
    requires rd_fits { rd < 32 }
    requires rs_fits { rs < 32 }
    requires rt_fits { rt < 32 }
    ensures { result ≡ Subu rd rs rt }
{
    Insn::Subu {
        rd: Register::new(rd),
        rs: Register::new(rs),
        rt: Register::new(rt),
    }
}

pub fn and(rd: u8, rs: u8, rt: u8) -> Insn
    requires rd_fits { rd < 32 }
    requires rs_fits { rs < 32 }
    requires rt_fits { rt < 32 }
    ensures { result ≡ And rd rs rt }
{
    Insn::And {
        rd: Register::new(rd),
        rs: Register::new(rs),
        rt: Register::new(rt),
    }
}

pub fn or(rd: u8, rs: u8, rt: u8) -> Insn
    requires rd_fits { rd < 32 }
    requires rs_fits { rs < 32 }
    requires rt_fits { rt < 32 }
    ensures { result ≡ Or rd rs rt }
{
    Insn::Or {
        rd: Register::new(rd),
        rs: Register::new(rs),
        rt: Register::new(rt),
    }
}

pub fn xor(rd: u8, rs: u8, rt: u8) -> Insn
    requires rd_fits { rd < 32 }
    requires rs_fits { rs < 32 }
    requires rt_fits { rt < 32 }
    ensures { result ≡ Xor rd rs rt }
{
    Insn::Xor {
        rd: Register::new(rd),
        rs: Register::new(rs),
        rt: Register::new(rt),
    }
}

pub fn nor(rd: u8, rs: u8, rt: u8) -> Insn
    requires rd_fits { rd < 32 }
    requires rs_fits { rs < 32 }
    requires rt_fits { rt < 32 }
    ensures { result ≡ Nor rd rs rt }
{
    Insn::Nor {
        rd: Register::new(rd),
        rs: Register::new(rs),
        rt: Register::new(rt),
    }
}

pub fn slt(rd: u8, rs: u8, rt: u8) -> Insn
    requires rd_fits { rd < 32 }
    requires rs_fits { rs < 32 }
    requires rt_fits { rt < 32 }
    ensures { result ≡ Slt rd rs rt }
{
    Insn::Slt {
        rd: Register::new(rd),
        rs: Register::new(rs),
        rt: Register::new(rt),
    }
}

pub fn sltu(rd: u8, rs: u8, rt: u8) -> Insn
    requires rd_fits { rd < 32 }
    requires rs_fits { rs < 32 }
    requires rt_fits { rt < 32 }
    ensures { result ≡ Sltu rd rs rt }
{
    Insn::Sltu {
        rd: Register::new(rd),
        rs: Register::new(rs),
        rt: Register::new(rt),
    }
}

/// A jump whose target the linker writes.
pub fn j() -> Insn
    ensures { result ≡ J 0 }
{
    Insn::J {
        target: Target::new(0),
    }
}

/// A jump that links, whose target the linker writes.
pub fn jal() -> Insn
    ensures { result ≡ Jal 0 }
{
    Insn::Jal {
        target: Target::new(0),
    }
}

pub fn beq(rs: u8, rt: u8, offset: u16) -> Insn
    requires rs_fits { rs < 32 }
    requires rt_fits { rt < 32 }
    ensures { result ≡ Beq rs rt offset }
{
    Insn::Beq {
        rs: Register::new(rs),
        rt: Register::new(rt),
        offset,
    }
}

pub fn bne(rs: u8, rt: u8, offset: u16) -> Insn
    requires rs_fits { rs < 32 }
    requires rt_fits { rt < 32 }
    ensures { result ≡ Bne rs rt offset }
{
    Insn::Bne {
        rs: Register::new(rs),
        rt: Register::new(rt),
        offset,
    }
}

pub fn addiu(rt: u8, rs: u8, immediate: u16) -> Insn
    requires rt_fits { rt < 32 }
    requires rs_fits { rs < 32 }
    ensures { result ≡ Addiu rt rs immediate }
{
    Insn::Addiu {
        rt: Register::new(rt),
        rs: Register::new(rs),
        immediate,
    }
}

pub fn sltiu(rt: u8, rs: u8, immediate: u16) -> Insn
    requires rt_fits { rt < 32 }
    requires rs_fits { rs < 32 }
    ensures { result ≡ Sltiu rt rs immediate }
{
    Insn::Sltiu {
        rt: Register::new(rt),
        rs: Register::new(rs),
        immediate,
    }
}

pub fn andi(rt: u8, rs: u8, immediate: u16) -> Insn
    requires rt_fits { rt < 32 }
    requires rs_fits { rs < 32 }
    ensures { result ≡ Andi rt rs immediate }
{
    Insn::Andi {
        rt: Register::new(rt),
        rs: Register::new(rs),
        immediate,
    }
}

pub fn ori(rt: u8, rs: u8, immediate: u16) -> Insn
    requires rt_fits { rt < 32 }
    requires rs_fits { rs < 32 }
    ensures { result ≡ Ori rt rs immediate }
{
    Insn::Ori {
        rt: Register::new(rt),
        rs: Register::new(rs),
        immediate,
    }
}

pub fn xori(rt: u8, rs: u8, immediate: u16) -> Insn
    requires rt_fits { rt < 32 }
    requires rs_fits { rs < 32 }
    ensures { result ≡ Xori rt rs immediate }
{
    Insn::Xori {
        rt: Register::new(rt),
        rs: Register::new(rs),
        immediate,
    }
}

pub fn lui(rt: u8, immediate: u16) -> Insn
    requires { rt < 32 }
    ensures { result ≡ Lui rt immediate }
{
    Insn::Lui {
        rt: Register::new(rt),
        immediate,
    }
}

pub fn lb(rt: u8, base: u8, offset: u16) -> Insn
    requires rt_fits { rt < 32 }
    requires base_fits { base < 32 }
    ensures { result ≡ Lb rt base offset }
{
    Insn::Lb {
        rt: Register::new(rt),
        base: Register::new(base),
        offset,
    }
}

pub fn lh(rt: u8, base: u8, offset: u16) -> Insn
    requires rt_fits { rt < 32 }
    requires base_fits { base < 32 }
    ensures { result ≡ Lh rt base offset }
{
    Insn::Lh {
        rt: Register::new(rt),
        base: Register::new(base),
        offset,
    }
}

pub fn lw(rt: u8, base: u8, offset: u16) -> Insn
    requires rt_fits { rt < 32 }
    requires base_fits { base < 32 }
    ensures { result ≡ Lw rt base offset }
{
    Insn::Lw {
        rt: Register::new(rt),
        base: Register::new(base),
        offset,
    }
}

pub fn lbu(rt: u8, base: u8, offset: u16) -> Insn
    requires rt_fits { rt < 32 }
    requires base_fits { base < 32 }
    ensures { result ≡ Lbu rt base offset }
{
    Insn::Lbu {
        rt: Register::new(rt),
        base: Register::new(base),
        offset,
    }
}

pub fn lhu(rt: u8, base: u8, offset: u16) -> Insn
    requires rt_fits { rt < 32 }
    requires base_fits { base < 32 }
    ensures { result ≡ Lhu rt base offset }
{
    Insn::Lhu {
        rt: Register::new(rt),
        base: Register::new(base),
        offset,
    }
}

pub fn sb(rt: u8, base: u8, offset: u16) -> Insn
    requires rt_fits { rt < 32 }
    requires base_fits { base < 32 }
    ensures { result ≡ Sb rt base offset }
{
    Insn::Sb {
        rt: Register::new(rt),
        base: Register::new(base),
        offset,
    }
}

pub fn sw(rt: u8, base: u8, offset: u16) -> Insn
    requires rt_fits { rt < 32 }
    requires base_fits { base < 32 }
    ensures { result ≡ Sw rt base offset }
{
    Insn::Sw {
        rt: Register::new(rt),
        base: Register::new(base),
        offset,
    }
}
