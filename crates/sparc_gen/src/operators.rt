// The instructions of flat operators.
ghost use Rattle.std.specs.Prelude.{◌≡◌, ◌<◌, ◌+◌, ◌*◌, ◌%◌, [], ◌∷◌, ◌++◌, IfOk, OnOk};
ghost use Rattle.sparc_isa.specs.declared.operand.Operand.TheVariants.{Register};
ghost use Rattle.sparc_isa.specs.declared.insn.Insn.TheVariants.{Add};
ghost use Rattle.flat_ir.specs.declared.code.FlatOp.TheVariants as flat;
ghost use Rattle.sparc_gen.specs.Insns.{register_of, move_insn, word_insns, load_insn, store_insn, extend_insns, fill_insns, condition_insns, unary_insns, compare_insns, upper_insns, remainder_insns, binary_insns, scale_insns, apart_insns, jump_if_insns, pass_insns, landed_insn, argument_insns, insns};

use crate::instructions::{
    add, and, branch, by_bits, by_register, call, jmpl, ld, ldsb, ldsh, ldub, lduh, no_op, or,
    restore, sdiv, sll, sll_by, smul, sra, sra_by, srl, srl_by, st, stb, sub, subcc, trap, udiv,
    wry, xnor, xor,
};
use crate::registers::{
    A, ARGUMENT_REGISTERS, ARGUMENTS_AT, B, CALLED_FROM, EXIT, GET_CHAR, IN, OUT, OWN, PUT_CHAR,
    STACK_POINTER, ZERO, local_register,
};
use crate::writing::{put, put_all, put_get, put_put, put_word};
use flat_ir::{FlatOp, Landing, Request, Scratch};
use ldb_words::Kind;
use slot_ir::{Access, UnaryWordOp, WordOp};
use sparc_isa::{Condition, Insn};
use std::alloc::AllocError;

/// The register of a scratch word.
fn scratch(word: Scratch) -> u8
    ensures value { result ≡ register_of word }
    ensures in_range { result < 32 }
{
    match word {
        Scratch::A => A,
        Scratch::B => B,
    }
}

/// A register's word in another.
fn moved(to: u8, from: u8) -> Insn
    requires to_fits { to < 32 }
    requires from_fits { from < 32 }
    ensures { result ≡ move_insn to from }
{
    or(to, ZERO, by_register(from))
}

/// An address in the frame.
fn put_frame_address(code: &mut Vec<Insn>, to: u8, at: u32) -> Result<(), AllocError>
    requires { to < 32 }
    ensures { OnOk result (code.new.items ≡ code.old.items ++ word_insns to at ++ Add to to (Register 14) ∷ []) }
{
    put_word(code, to, at)?;
    put(code, add(to, to, by_register(STACK_POINTER)))
}

/// The load of a value.
fn load_of(access: Access) -> Insn
    ensures { result ≡ load_insn access }
{
    let none = by_bits(0);
    match access {
        Access::SignedByte => ldsb(A, A, none),
        Access::UnsignedByte => ldub(A, A, none),
        Access::SignedHalf => ldsh(A, A, none),
        Access::UnsignedHalf => lduh(A, A, none),
        Access::Word | Access::Pointer => ld(A, A, none),
    }
}

/// The store of a register at an address and a short distance.
fn store_of(kind: Kind, from: u8, base: u8, at: u16) -> Insn
    requires from_fits { from < 32 }
    requires base_fits { base < 32 }
    requires at_fits { at < 8192 }
    ensures { result ≡ store_insn kind from base at }
{
    match kind {
        Kind::Byte => stb(from, base, by_bits(at)),
        Kind::Word | Kind::Address => st(from, base, by_bits(at)),
    }
}

/// A extended to a word.
fn put_extend(code: &mut Vec<Insn>, access: Access) -> Result<(), AllocError>
    ensures { OnOk result (code.new.items ≡ code.old.items ++ extend_insns access) }
{
    match access {
        Access::SignedByte => put_all(code, &[sll_by(A, A, 24), sra_by(A, A, 24)]),
        Access::UnsignedByte => put(code, and(A, A, by_bits(0xff))),
        Access::SignedHalf => put_all(code, &[sll_by(A, A, 16), sra_by(A, A, 16)]),
        Access::UnsignedHalf => put_all(code, &[sll_by(A, A, 16), srl_by(A, A, 16)]),
        Access::Word | Access::Pointer => Ok(()),
    }
}

/// Zeros from A on, up to so many bytes behind it.
fn put_fill(code: &mut Vec<Insn>, bytes: u32) -> Result<(), AllocError>
    ensures { OnOk result (code.new.items ≡ code.old.items ++ fill_insns bytes) }
{
    put_word(code, OWN, bytes)?;
    put_all(
        code,
        &[
            add(OWN, A, by_register(OWN)),
            st(ZERO, A, by_bits(0)),
            add(A, A, by_bits(4)),
            subcc(ZERO, A, by_register(OWN)),
            branch(Condition::NotEqual, 0x3f_fffd),
            no_op(),
        ],
    )
}

/// A becomes 1 where a condition holds of two words, and else 0.
fn put_condition(
    code: &mut Vec<Insn>,
    compare: Insn,
    condition: Condition,
) -> Result<(), AllocError>
    ensures { OnOk result (code.new.items ≡ code.old.items ++ condition_insns compare condition) }
{
    put_all(
        code,
        &[
            compare,
            branch(condition, 3),
            or(A, ZERO, by_bits(1)),
            or(A, ZERO, by_bits(0)),
        ],
    )
}

/// An operator on A.
fn put_unary(code: &mut Vec<Insn>, op: UnaryWordOp) -> Result<(), AllocError>
    ensures { OnOk result (code.new.items ≡ code.old.items ++ unary_insns op) }
{
    let zero = subcc(ZERO, A, by_bits(0));
    match op {
        UnaryWordOp::Plus => Ok(()),
        UnaryWordOp::Minus | UnaryWordOp::MinusUnsigned => {
            put(code, sub(A, ZERO, by_register(A)))
        }
        UnaryWordOp::Complement => put(code, xnor(A, A, by_register(ZERO))),
        UnaryWordOp::Not => put_condition(code, zero, Condition::Equal),
        UnaryWordOp::Truth => put_condition(code, zero, Condition::NotEqual),
    }
}

/// A comparison of A and B.
fn put_compare(code: &mut Vec<Insn>, condition: Condition) -> Result<(), AllocError>
    ensures { OnOk result (code.new.items ≡ code.old.items ++ compare_insns condition) }
{
    put_condition(code, subcc(ZERO, A, by_register(B)), condition)
}

/// The upper word of what is divided in Y, which no division reads in the three instructions behind.
fn put_upper(code: &mut Vec<Insn>, signed: bool) -> Result<(), AllocError>
    ensures { OnOk result (code.new.items ≡ code.old.items ++ upper_insns signed) }
{
    if signed {
        put_all(code, &[sra_by(OWN, A, 31), wry(OWN)])?;
    } else {
        put(code, wry(ZERO))?;
    }
    put_all(code, &[no_op(), no_op(), no_op()])
}

/// A quotient.
fn put_quotient(code: &mut Vec<Insn>, signed: bool, divide: Insn) -> Result<(), AllocError>
    ensures { OnOk result (code.new.items ≡ code.old.items ++ (upper_insns signed ++ divide ∷ [])) }
{
    put_upper(code, signed)?;
    put(code, divide)
}

/// A remainder: what the quotient times the divisor leaves.
fn put_remainder(code: &mut Vec<Insn>, signed: bool, divide: Insn) -> Result<(), AllocError>
    ensures { OnOk result (code.new.items ≡ code.old.items ++ remainder_insns signed divide) }
{
    put_upper(code, signed)?;
    put_all(
        code,
        &[
            divide,
            smul(OWN, OWN, by_register(B)),
            sub(A, A, by_register(OWN)),
        ],
    )
}

/// An operator on A and B.
fn put_binary(code: &mut Vec<Insn>, op: WordOp) -> Result<(), AllocError>
    ensures { OnOk result (code.new.items ≡ code.old.items ++ binary_insns op) }
{
    let b = by_register(B);
    match op {
        WordOp::Or => put(code, or(A, A, b)),
        WordOp::Xor => put(code, xor(A, A, b)),
        WordOp::And => put(code, and(A, A, b)),
        WordOp::Equal => put_compare(code, Condition::Equal),
        WordOp::Unequal => put_compare(code, Condition::NotEqual),
        WordOp::Less => put_compare(code, Condition::Less),
        WordOp::Greater => put_compare(code, Condition::Greater),
        WordOp::LessEqual => put_compare(code, Condition::LessOrEqual),
        WordOp::GreaterEqual => put_compare(code, Condition::GreaterOrEqual),
        WordOp::LessUnsigned => put_compare(code, Condition::CarrySet),
        WordOp::GreaterUnsigned => put_compare(code, Condition::GreaterUnsigned),
        WordOp::LessEqualUnsigned => put_compare(code, Condition::LessOrEqualUnsigned),
        WordOp::GreaterEqualUnsigned => put_compare(code, Condition::CarryClear),
        WordOp::ShiftLeft => put(code, sll(A, A, B)),
        WordOp::ShiftRight => put(code, sra(A, A, B)),
        WordOp::ShiftRightUnsigned => put(code, srl(A, A, B)),
        WordOp::Add | WordOp::AddUnsigned => put(code, add(A, A, b)),
        WordOp::Subtract | WordOp::SubtractUnsigned => put(code, sub(A, A, b)),
        WordOp::Multiply | WordOp::MultiplyUnsigned => put(code, smul(A, A, b)),
        WordOp::Divide => put_quotient(code, true, sdiv(A, A, b)),
        WordOp::Remainder => put_remainder(code, true, sdiv(OWN, A, b)),
        WordOp::DivideUnsigned => put_quotient(code, false, udiv(A, A, b)),
        WordOp::RemainderUnsigned => put_remainder(code, false, udiv(OWN, A, b)),
    }
}

/// A moved by B items.
fn put_scale(code: &mut Vec<Insn>, size: u32, back: bool) -> Result<(), AllocError>
    ensures { OnOk result (code.new.items ≡ code.old.items ++ scale_insns size back) }
{
    put_word(code, OWN, size)?;
    put(code, smul(OWN, B, by_register(OWN)))?;
    if back {
        put(code, sub(A, A, by_register(OWN)))
    } else {
        put(code, add(A, A, by_register(OWN)))
    }
}

/// How many items lie between B and A. Three instructions stand between the write of Y and the division.
fn put_apart(code: &mut Vec<Insn>, size: u32) -> Result<(), AllocError>
    ensures { OnOk result (code.new.items ≡ code.old.items ++ apart_insns size) }
{
    put_all(
        code,
        &[sub(A, A, by_register(B)), sra_by(OWN, A, 31), wry(OWN)],
    )?;
    put_word(code, OWN, size)?;
    put_all(code, &[no_op(), sdiv(A, A, by_register(OWN))])
}

/// A jump where A is 0, or where it is not, over which a branch goes otherwise. A jump is a call, whose own address is not kept.
fn put_jump_if(code: &mut Vec<Insn>, zero: bool) -> Result<(), AllocError>
    ensures { OnOk result (code.new.items ≡ code.old.items ++ jump_if_insns zero) }
{
    let over = if zero {
        Condition::NotEqual
    } else {
        Condition::Equal
    };
    put_all(
        code,
        &[
            subcc(ZERO, A, by_bits(0)),
            branch(over, 4),
            no_op(),
            call(),
            no_op(),
        ],
    )
}

/// Where the argument of a number lies above a caller's stack pointer.
fn argument_at(number: u32) -> Result<u32, AllocError>
    ensures { IfOk result (λ n. n ≡ number * 4 + 68) }
{
    let bytes = number.checked_mul(4).ok_or(AllocError)?;
    bytes.checked_add(ARGUMENTS_AT).ok_or(AllocError)
}

/// The register of an argument below 6, where the first has this.
fn argument_register(first: u8, number: u32) -> u8
    requires { first < 26 }
    ensures value { result ≡ first + number % 6 }
    ensures in_range { result < 32 }
{
    first + (number % ARGUMENT_REGISTERS) as u8
}

/// A word of the frame as an argument.
fn put_pass(code: &mut Vec<Insn>, number: u32, at: u32) -> Result<(), AllocError>
    ensures { OnOk result (code.new.items ≡ code.old.items ++ pass_insns number at) }
{
    if number < ARGUMENT_REGISTERS {
        put_get(code, argument_register(OUT, number), at)
    } else {
        put_get(code, A, at)?;
        put_put(code, A, argument_at(number)?)
    }
}

/// An argument in a register where it is put.
fn put_landed(code: &mut Vec<Insn>, from: u8, landing: Landing) -> Result<(), AllocError>
    requires { from < 32 }
    ensures { OnOk result (code.new.items ≡ code.old.items ++ landed_insn from landing ∷ []) }
{
    match landing {
        Landing::Frame { at, kind } => {
            let at = u16::try_from(at).map_err(|_| AllocError)?;
            if at >= 0x1000 {
                return Err(AllocError);
            }
            put(code, store_of(kind, from, STACK_POINTER, at))
        }
        Landing::Register(number) => put(code, moved(local_register(number)?, from)),
    }
}

/// An argument where it is put. One that is not in a register lies above the frame.
fn put_argument(
    code: &mut Vec<Insn>,
    frame: u32,
    number: u32,
    landing: Landing,
) -> Result<(), AllocError>
    ensures { OnOk result (code.new.items ≡ code.old.items ++ argument_insns frame number landing) }
{
    if number < ARGUMENT_REGISTERS {
        put_landed(code, argument_register(IN, number), landing)
    } else {
        let at = frame.checked_add(argument_at(number)?).ok_or(AllocError)?;
        put_get(code, A, at)?;
        put_landed(code, A, landing)
    }
}

/// A request, which is the same in each frame.
fn put_ask(code: &mut Vec<Insn>, request: Request) -> Result<(), AllocError>
    ensures { OnOk result (code.new.items ≡ code.old.items ++ insns 0 (flat.Ask request)) }
{
    let number = match request {
        Request::GetChar => GET_CHAR,
        Request::PutChar => PUT_CHAR,
        Request::Exit => EXIT,
    };
    put_all(code, &[moved(OUT, A), trap(number), moved(A, OUT)])
}

/// The end of an activation with A, which is the same in each frame: the window is left before the jump, so that no trap comes in its slot.
fn put_return(code: &mut Vec<Insn>) -> Result<(), AllocError>
    ensures { OnOk result (code.new.items ≡ code.old.items ++ insns 0 flat.Return) }
{
    put_all(
        code,
        &[
            moved(IN, A),
            restore(ZERO, ZERO, by_register(ZERO)),
            jmpl(ZERO, CALLED_FROM, by_bits(8)),
            no_op(),
        ],
    )
}

/// The instructions of an operator in a frame of so many bytes.
pub fn put_op(code: &mut Vec<Insn>, frame: u32, op: &FlatOp) -> Result<(), AllocError>
    ensures { OnOk result (code.new.items ≡ code.old.items ++ insns frame op.now) }
{
    match *op {
        FlatOp::Set { to, bits } => put_word(code, scratch(to), bits),
        FlatOp::StaticAddress { to, object: _ } => put_word(code, scratch(to), 0),
        FlatOp::FrameAddress { to, at } => put_frame_address(code, scratch(to), at),
        FlatOp::Get { to, at } => put_get(code, scratch(to), at),
        FlatOp::Put { from, at } => put_put(code, scratch(from), at),
        FlatOp::Load { access } => put(code, load_of(access)),
        FlatOp::Store { kind } => put(code, store_of(kind, B, A, 0)),
        FlatOp::Fill { bytes } => put_fill(code, bytes),
        FlatOp::Copy { shape: _ } => put_all(code, &[call(), no_op()]),
        FlatOp::ReadRegister { register, access } => {
            put(code, moved(A, local_register(register)?))?;
            put_extend(code, access)
        }
        FlatOp::WriteRegister { register } => put(code, moved(local_register(register)?, A)),
        FlatOp::Extend { access } => put_extend(code, access),
        FlatOp::Unary { op } => put_unary(code, op),
        FlatOp::Binary { op } => put_binary(code, op),
        FlatOp::Scale { size, back } => put_scale(code, size, back),
        FlatOp::Apart { size } => put_apart(code, size),
        FlatOp::Jump { place: _ } => put_all(code, &[call(), no_op()]),
        FlatOp::JumpIf { zero, place: _ } => put_jump_if(code, zero),
        FlatOp::Pass { number, at } => put_pass(code, number, at),
        FlatOp::Argument { number, landing } => put_argument(code, frame, number, landing),
        FlatOp::Call { function: _ } => put_all(code, &[call(), no_op(), moved(A, OUT)]),
        FlatOp::Return => put_return(code),
        FlatOp::Stop { point: _ } => put(code, no_op()),
        FlatOp::Ask { request } => put_ask(code, request),
    }
}
