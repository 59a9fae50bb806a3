// The instructions of flat operators.
ghost use Rattle.std.specs.Prelude.{◌≡◌, ◌<◌, ◌+◌, ◌*◌, ◌%◌, [], ◌∷◌, ◌++◌, IfOk, OnOk};
ghost use Rattle.mips_isa.specs.declared.insn.Insn.TheVariants.{Addiu, Addu, J, Syscall};
ghost use Rattle.mips_gen.specs.Insns.{register_of, word_insns, load_insn, store_insn, extend_insns, fill_insns, unary_insns, turned_insns, long_insns, binary_insns, scale_insns, apart_insns, pass_insns, landed_insn, argument_insns, insns};
ghost use Rattle.mips_gen.specs.Insns.{no_op as no_op_insn, over_insn, request_number};

use crate::instructions::{
    addiu, addu, and, andi, beq, bne, div, divu, j, jal, lb, lbu, lh, lhu, lw, mfhi, mflo, mult,
    no_op, nor, or, sb, sll, sllv, slt, sltiu, sltu, sra, srav, srlv, subu, sw, xor, xori,
};
use crate::registers::{
    A, ARGUMENT, ARGUMENT_REGISTERS, B, EXIT, GET_CHAR, OWN, PUT_CHAR, RESULT, STACK_POINTER, ZERO,
    local_register,
};
use crate::writing::{put, put_all, put_get, put_put, put_word};
use flat_ir::{FlatOp, Landing, Request, Scratch};
use ldb_words::Kind;
use mips_isa::Insn;
use slot_ir::{Access, UnaryWordOp, WordOp};
use std::alloc::AllocError;

/// The register of a scratch word.
fn scratch(word: Scratch) -> u8
    ensures value { result ≡ register_of word }
    ensures in_range { result < 32 }
{
    match word {
        Scratch::A => A,
        Scratch::B => B,
    }
}

/// An address in the frame.
fn put_frame_address(code: &mut Vec<Insn>, to: u8, at: u32) -> Result<(), AllocError>
    requires { to < 32 }
    ensures { OnOk result (code.new.items ≡ code.old.items ++ word_insns to at ++ Addu to to 29 ∷ []) }
{
    put_word(code, to, at)?;
    put(code, addu(to, to, STACK_POINTER))
}

/// The load of a value.
fn load_of(access: Access) -> Insn
    ensures { result ≡ load_insn access }
{
    match access {
        Access::SignedByte => lb(A, A, 0),
        Access::UnsignedByte => lbu(A, A, 0),
        Access::SignedHalf => lh(A, A, 0),
        Access::UnsignedHalf => lhu(A, A, 0),
        Access::Word | Access::Pointer => lw(A, A, 0),
    }
}

/// The store of a register at an address and a short distance.
fn store_of(kind: Kind, from: u8, base: u8, at: u16) -> Insn
    requires from_fits { from < 32 }
    requires base_fits { base < 32 }
    ensures { result ≡ store_insn kind from base at }
{
    match kind {
        Kind::Byte => sb(from, base, at),
        Kind::Word | Kind::Address => sw(from, base, at),
    }
}

/// A extended to a word.
fn put_extend(code: &mut Vec<Insn>, access: Access) -> Result<(), AllocError>
    ensures { OnOk result (code.new.items ≡ code.old.items ++ extend_insns access) }
{
    match access {
        Access::SignedByte => put_all(code, &[sll(A, A, 24), sra(A, A, 24)]),
        Access::UnsignedByte => put(code, andi(A, A, 0xff)),
        Access::SignedHalf => put_all(code, &[sll(A, A, 16), sra(A, A, 16)]),
        Access::UnsignedHalf => put(code, andi(A, A, 0xffff)),
        Access::Word | Access::Pointer => Ok(()),
    }
}

/// Zeros from A on, up to so many bytes behind it.
fn put_fill(code: &mut Vec<Insn>, bytes: u32) -> Result<(), AllocError>
    ensures { OnOk result (code.new.items ≡ code.old.items ++ fill_insns bytes) }
{
    put_word(code, OWN, bytes)?;
    put_all(
        code,
        &[
            addu(OWN, A, OWN),
            sw(ZERO, A, 0),
            addiu(A, A, 4),
            bne(A, OWN, 0xfffd),
            no_op(),
        ],
    )
}

/// An operator on A.
fn put_unary(code: &mut Vec<Insn>, op: UnaryWordOp) -> Result<(), AllocError>
    ensures { OnOk result (code.new.items ≡ code.old.items ++ unary_insns op) }
{
    match op {
        UnaryWordOp::Plus => Ok(()),
        UnaryWordOp::Minus | UnaryWordOp::MinusUnsigned => put(code, subu(A, ZERO, A)),
        UnaryWordOp::Complement => put(code, nor(A, A, ZERO)),
        UnaryWordOp::Not => put(code, sltiu(A, A, 1)),
        UnaryWordOp::Truth => put(code, sltu(A, ZERO, A)),
    }
}

/// A comparison, and its answer turned.
fn put_turned(code: &mut Vec<Insn>, compare: Insn) -> Result<(), AllocError>
    ensures { OnOk result (code.new.items ≡ code.old.items ++ turned_insns compare) }
{
    put_all(code, &[compare, xori(A, A, 1)])
}

/// An operator that leaves its result in LO or HI, which no instruction read shortly before.
fn put_long_op(code: &mut Vec<Insn>, op: Insn, take: Insn) -> Result<(), AllocError>
    ensures { OnOk result (code.new.items ≡ code.old.items ++ long_insns op take) }
{
    put_all(code, &[no_op(), no_op(), op, take])
}

/// An operator on A and B.
fn put_binary(code: &mut Vec<Insn>, op: WordOp) -> Result<(), AllocError>
    ensures { OnOk result (code.new.items ≡ code.old.items ++ binary_insns op) }
{
    match op {
        WordOp::Or => put(code, or(A, A, B)),
        WordOp::Xor => put(code, xor(A, A, B)),
        WordOp::And => put(code, and(A, A, B)),
        WordOp::Equal => put_all(code, &[xor(A, A, B), sltiu(A, A, 1)]),
        WordOp::Unequal => put_all(code, &[xor(A, A, B), sltu(A, ZERO, A)]),
        WordOp::Less => put(code, slt(A, A, B)),
        WordOp::Greater => put(code, slt(A, B, A)),
        WordOp::LessEqual => put_turned(code, slt(A, B, A)),
        WordOp::GreaterEqual => put_turned(code, slt(A, A, B)),
        WordOp::LessUnsigned => put(code, sltu(A, A, B)),
        WordOp::GreaterUnsigned => put(code, sltu(A, B, A)),
        WordOp::LessEqualUnsigned => put_turned(code, sltu(A, B, A)),
        WordOp::GreaterEqualUnsigned => put_turned(code, sltu(A, A, B)),
        WordOp::ShiftLeft => put(code, sllv(A, A, B)),
        WordOp::ShiftRight => put(code, srav(A, A, B)),
        WordOp::ShiftRightUnsigned => put(code, srlv(A, A, B)),
        WordOp::Add | WordOp::AddUnsigned => put(code, addu(A, A, B)),
        WordOp::Subtract | WordOp::SubtractUnsigned => put(code, subu(A, A, B)),
        WordOp::Multiply | WordOp::MultiplyUnsigned => put_long_op(code, mult(A, B), mflo(A)),
        WordOp::Divide => put_long_op(code, div(A, B), mflo(A)),
        WordOp::Remainder => put_long_op(code, div(A, B), mfhi(A)),
        WordOp::DivideUnsigned => put_long_op(code, divu(A, B), mflo(A)),
        WordOp::RemainderUnsigned => put_long_op(code, divu(A, B), mfhi(A)),
    }
}

/// A moved by B items. The two instructions before MULT keep it from HI and LO being read.
fn put_scale(code: &mut Vec<Insn>, size: u32, back: bool) -> Result<(), AllocError>
    ensures { OnOk result (code.new.items ≡ code.old.items ++ scale_insns size back) }
{
    put_word(code, OWN, size)?;
    put_all(code, &[mult(B, OWN), mflo(OWN)])?;
    if back {
        put(code, subu(A, A, OWN))
    } else {
        put(code, addu(A, A, OWN))
    }
}

/// How many items lie between B and A.
fn put_apart(code: &mut Vec<Insn>, size: u32) -> Result<(), AllocError>
    ensures { OnOk result (code.new.items ≡ code.old.items ++ apart_insns size) }
{
    put_word(code, OWN, size)?;
    put_all(code, &[subu(A, A, B), div(A, OWN), mflo(A)])
}

/// A jump where A is 0, or where it is not, over which a branch goes otherwise.
fn put_jump_if(code: &mut Vec<Insn>, zero: bool) -> Result<(), AllocError>
    ensures { OnOk result (code.new.items ≡ code.old.items ++ over_insn zero ∷ no_op_insn ∷ J 0 ∷ no_op_insn ∷ []) }
{
    let over = if zero {
        bne(A, ZERO, 3)
    } else {
        beq(A, ZERO, 3)
    };
    put_all(code, &[over, no_op(), j(), no_op()])
}

/// Where the argument of a number lies above a stack pointer.
fn argument_at(number: u32) -> Result<u32, AllocError>
    ensures { IfOk result (λ n. n ≡ number * 4) }
{
    number.checked_mul(4).ok_or(AllocError)
}

/// The register of an argument below 4.
fn argument_register(number: u32) -> u8
    ensures value { result ≡ 4 + number % 4 }
    ensures in_range { result < 32 }
{
    ARGUMENT + (number % ARGUMENT_REGISTERS) as u8
}

/// A word of the frame as an argument.
fn put_pass(code: &mut Vec<Insn>, number: u32, at: u32) -> Result<(), AllocError>
    ensures { OnOk result (code.new.items ≡ code.old.items ++ pass_insns number at) }
{
    if number < ARGUMENT_REGISTERS {
        put_get(code, argument_register(number), at)
    } else {
        put_get(code, A, at)?;
        put_put(code, A, argument_at(number)?)
    }
}

/// An argument in a register where it is put.
fn put_landed(code: &mut Vec<Insn>, from: u8, landing: Landing) -> Result<(), AllocError>
    requires { from < 32 }
    ensures { OnOk result (code.new.items ≡ code.old.items ++ landed_insn from landing ∷ []) }
{
    match landing {
        Landing::Frame { at, kind } => {
            let at = u16::try_from(at).map_err(|_| AllocError)?;
            if at >= 0x8000 {
                return Err(AllocError);
            }
            put(code, store_of(kind, from, STACK_POINTER, at))
        }
        Landing::Register(number) => put(code, addu(local_register(number)?, from, ZERO)),
    }
}

/// An argument where it is put. One that is not in a register lies above the frame.
fn put_argument(
    code: &mut Vec<Insn>,
    frame: u32,
    number: u32,
    landing: Landing,
) -> Result<(), AllocError>
    ensures { OnOk result (code.new.items ≡ code.old.items ++ argument_insns frame number landing) }
{
    if number < ARGUMENT_REGISTERS {
        put_landed(code, argument_register(number), landing)
    } else {
        let at = frame.checked_add(argument_at(number)?).ok_or(AllocError)?;
        put_get(code, A, at)?;
        put_landed(code, A, landing)
    }
}

/// A request.
fn put_ask(code: &mut Vec<Insn>, request: Request) -> Result<(), AllocError>
    ensures { OnOk result (code.new.items ≡ code.old.items ++ Addu 4 8 0 ∷ Addiu 2 0 (request_number request) ∷ Syscall ∷ Addu 8 2 0 ∷ []) }
{
    let number = match request {
        Request::GetChar => GET_CHAR,
        Request::PutChar => PUT_CHAR,
        Request::Exit => EXIT,
    };
    put_all(
        code,
        &[
            addu(ARGUMENT, A, ZERO),
            addiu(RESULT, ZERO, number),
            Insn::Syscall,
            addu(A, RESULT, ZERO),
        ],
    )
}

/// The instructions of an operator in a frame of so many bytes.
pub fn put_op(code: &mut Vec<Insn>, frame: u32, op: &FlatOp) -> Result<(), AllocError>
    ensures { OnOk result (code.new.items ≡ code.old.items ++ insns frame op.now) }
{
    match *op {
        FlatOp::Set { to, bits } => put_word(code, scratch(to), bits),
        FlatOp::StaticAddress { to, object: _ } => put_word(code, scratch(to), 0),
        FlatOp::FrameAddress { to, at } => put_frame_address(code, scratch(to), at),
        FlatOp::Get { to, at } => put_get(code, scratch(to), at),
        FlatOp::Put { from, at } => put_put(code, scratch(from), at),
        FlatOp::Load { access } => put_all(code, &[load_of(access), no_op()]),
        FlatOp::Store { kind } => put(code, store_of(kind, B, A, 0)),
        FlatOp::Fill { bytes } => put_fill(code, bytes),
        FlatOp::Copy { shape: _ } => put_all(code, &[jal(), no_op()]),
        FlatOp::ReadRegister { register, access } => {
            put(code, addu(A, local_register(register)?, ZERO))?;
            put_extend(code, access)
        }
        FlatOp::WriteRegister { register } => put(code, addu(local_register(register)?, A, ZERO)),
        FlatOp::Extend { access } => put_extend(code, access),
        FlatOp::Unary { op } => put_unary(code, op),
        FlatOp::Binary { op } => put_binary(code, op),
        FlatOp::Scale { size, back } => put_scale(code, size, back),
        FlatOp::Apart { size } => put_apart(code, size),
        FlatOp::Jump { place: _ } => put_all(code, &[j(), no_op()]),
        FlatOp::JumpIf { zero, place: _ } => put_jump_if(code, zero),
        FlatOp::Pass { number, at } => put_pass(code, number, at),
        FlatOp::Argument { number, landing } => put_argument(code, frame, number, landing),
        FlatOp::Call { function: _ } => { put_all(code, &[jal(), no_op(), addu(A, RESULT, ZERO)]) }
        FlatOp::Return => put_all(code, &[addu(RESULT, A, ZERO), j(), no_op()]),
        FlatOp::Stop { point: _ } => put(code, no_op()),
        FlatOp::Ask { request } => put_ask(code, request),
    }
}
