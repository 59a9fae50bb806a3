// What constant expressions make of numbers (C90 6.4).
ghost use Rattle.std.specs.Prelude.{◌≡◌};
ghost use Rattle.ldb_words.specs.Word.{signed, word_of_signed};
ghost use Rattle.c_operators.specs.Bits.{low_byte, patterned};
ghost use Rattle.c_operators.specs.Arithmetic.{on_ints as ints, on_unsigned as unsigned};
ghost use Rattle.c_typing.specs.Plain.{plain, value_type};
ghost use Rattle.c_typing.specs.Values as value;

use crate::types::is_unsigned;
use c_tree::{BinaryOp, CType, UnaryOp};
use c_typing::Constant;
use ldb_words::{
    Undef, Way, add_checked, div_checked, mul_checked, rem_checked, shift_checked, sub_checked,
};

/// The pattern of a result.
fn patterned(r: Result<i32, Undef>) -> Result<u32, Undef>
    ensures { result ≡ patterned r }
{
    match r {
        Ok(n) => Ok(n.cast_unsigned()),
        Err(why) => Err(why),
    }
}

/// An operation on two numbers of type `int` (C90 6.3.5 to 6.3.12).
fn on_ints(op: BinaryOp, x: u32, y: u32) -> Result<u32, Undef>
    ensures { result ≡ ints op x y }
{
    let a = x.cast_signed();
    let b = y.cast_signed();
    match op {
        BinaryOp::BitOr => Ok(x | y),
        BinaryOp::BitXor => Ok(x ^ y),
        BinaryOp::BitAnd => Ok(x & y),
        BinaryOp::Equal => Ok(u32::from(x == y)),
        BinaryOp::Unequal => Ok(u32::from(x != y)),
        BinaryOp::Less => Ok(u32::from(a < b)),
        BinaryOp::Greater => Ok(u32::from(b < a)),
        BinaryOp::LessEqual => Ok(u32::from(a <= b)),
        BinaryOp::GreaterEqual => Ok(u32::from(b <= a)),
        BinaryOp::ShiftLeft => shift_checked(x, y, Way::Left),
        BinaryOp::ShiftRight => shift_checked(x, y, Way::RightSigned),
        BinaryOp::Add => patterned(add_checked(a, b)),
        BinaryOp::Subtract => patterned(sub_checked(a, b)),
        BinaryOp::Multiply => patterned(mul_checked(a, b)),
        BinaryOp::Divide => patterned(div_checked(a, b)),
        BinaryOp::Remainder => patterned(rem_checked(a, b)),
    }
}

/// An operation on two numbers of type `unsigned`, modulo 2^32 (C90 6.1.2.5).
fn on_unsigned(op: BinaryOp, x: u32, y: u32) -> Result<u32, Undef>
    ensures { result ≡ unsigned op x y }
{
    match op {
        BinaryOp::Less => Ok(u32::from(x < y)),
        BinaryOp::Greater => Ok(u32::from(y < x)),
        BinaryOp::LessEqual => Ok(u32::from(x <= y)),
        BinaryOp::GreaterEqual => Ok(u32::from(y <= x)),
        BinaryOp::ShiftRight => shift_checked(x, y, Way::RightUnsigned),
        BinaryOp::Add => Ok(x.wrapping_add(y)),
        BinaryOp::Subtract => Ok(x.wrapping_sub(y)),
        BinaryOp::Multiply => Ok(x.wrapping_mul(y)),
        BinaryOp::Divide => x.checked_div(y).ok_or(Undef::Division),
        BinaryOp::Remainder => x.checked_rem(y).ok_or(Undef::Division),
        _ => on_ints(op, x, y),
    }
}

/// What an operator gives on two numbers.
fn operated(op: BinaryOp, works_unsigned: bool, x: u32, y: u32) -> Constant
    ensures { result ≡ value.operated op works_unsigned x y }
{
    let found = if works_unsigned {
        on_unsigned(op, x, y)
    } else {
        on_ints(op, x, y)
    };
    match found {
        Ok(n) => Constant::Number(n),
        Err(_) => Constant::Undefined,
    }
}

/// Whether an operator works on `unsigned` (C90 6.3.7, 6.2.1.5).
fn works_unsigned(op: BinaryOp, s: &CType, t: &CType) -> bool
    ensures { result ≡ value.works_unsigned op (value_type (plain s.now)) (value_type (plain t.now)) }
{
    match op {
        BinaryOp::ShiftLeft | BinaryOp::ShiftRight => is_unsigned(s),
        _ => is_unsigned(s) || is_unsigned(t),
    }
}

/// What a binary operator makes of two operands.
pub fn combined(op: BinaryOp, s: &CType, t: &CType, a: Constant, b: Constant) -> Constant
    ensures { result ≡ value.combined op (value_type (plain s.now)) (value_type (plain t.now)) a b }
{
    match (a, b) {
        (Constant::Number(x), Constant::Number(y)) => operated(op, works_unsigned(op, s, t), x, y),
        (Constant::Variable, _) | (_, Constant::Variable) => Constant::Variable,
        _ => Constant::Undefined,
    }
}

/// What `+ - ~ !` make of an operand (C90 6.3.3.3).
pub fn turned(op: UnaryOp, t: &CType, a: Constant) -> Constant
    ensures { result ≡ value.with_one (value.turned op (value.is_unsigned (value_type (plain t.now)))) a }
{
    match a {
        Constant::Variable => Constant::Variable,
        Constant::Undefined => Constant::Undefined,
        Constant::Number(n) => match op {
            UnaryOp::Plus => Constant::Number(n),
            UnaryOp::Minus => operated(BinaryOp::Subtract, is_unsigned(t), 0, n),
            UnaryOp::Complement => Constant::Number(4_294_967_295 ^ n),
            UnaryOp::Not => Constant::Number(u32::from(n == 0)),
        },
    }
}

/// The low 8 bits with their sign (C90 6.2.1.2).
fn low_byte(n: u32) -> u32
    ensures { result ≡ low_byte n }
{
    let low = (n % 256) as u8;
    i32::from(low.cast_signed()).cast_unsigned()
}

/// A conversion to an integer type (C90 6.2.1.2).
pub fn converted(t: &CType, a: Constant) -> Constant
    ensures { result ≡ value.with_one (value.converted (plain t.now)) a }
{
    match a {
        Constant::Variable => Constant::Variable,
        Constant::Undefined => Constant::Undefined,
        Constant::Number(n) => match t {
            CType::Char => Constant::Number(low_byte(n)),
            _ => Constant::Number(n),
        },
    }
}

/// What is chosen by a condition, where each part is a constant expression (C90 6.3.15).
pub fn chosen(c: Constant, a: Constant, b: Constant) -> Constant
    ensures { result ≡ value.chosen c a b }
{
    match (c, a, b) {
        (Constant::Variable, _, _) | (_, Constant::Variable, _) | (_, _, Constant::Variable) =>
            Constant::Variable,
        (Constant::Undefined, _, _) => Constant::Undefined,
        (Constant::Number(n), _, _) => { if n == 0 { b } else { a } }
    }
}

/// Whether a number is not 0.
fn truth(a: Constant) -> Constant
    ensures { result ≡ value.with_one value.truth_in a }
{
    match a {
        Constant::Variable => Constant::Variable,
        Constant::Undefined => Constant::Undefined,
        Constant::Number(n) => Constant::Number(u32::from(n != 0)),
    }
}

/// `a && b` (C90 6.3.13).
pub fn both(a: Constant, b: Constant) -> Constant
    ensures { result ≡ value.both a b }
{
    chosen(a, truth(b), Constant::Number(0))
}

/// `a || b` (C90 6.3.14).
pub fn either(a: Constant, b: Constant) -> Constant
    ensures { result ≡ value.either a b }
{
    chosen(a, Constant::Number(1), truth(b))
}
