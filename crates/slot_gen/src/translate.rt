// The operators of slot code for those of the tree.
ghost use Rattle.std.specs.Prelude.{◌≡◌, ◌≤◌, IfOk, option_map};
ghost use Rattle.c_tree.specs.declared.rows.Program.{Program};
ghost use Rattle.c_tree.specs.Types.{is_array, is_struct, is_unsigned, kind_of, target_of};
ghost use Rattle.c_tree.specs.Layout.{size_of as size};
ghost use Rattle.c_operators.specs.Arithmetic.{operating_type};
ghost use Rattle.slot_gen.specs.Expressions.{access_of as access, is_scalar as scalar, word_op as word, unary_op as unary, mixed_op as mixed, pointers_op as pointers, targets_op as targets, combine_op as combine};

use c_tree::{BinaryOp, CType, StructDef, UnaryOp, size_of};
use ldb_words::Kind;
use slot_ir::{Access, PointerOp, SlotOp, UnaryWordOp, WordOp};
use std::alloc::AllocError;

/// How a value is converted to a type.
pub fn access_of(t: &CType) -> Access
    ensures { result ≡ access t.now }
{
    match t {
        CType::Char => Access::SignedByte,
        CType::Pointer(_) => Access::Pointer,
        CType::Int | CType::Unsigned | CType::Void | CType::Array(_, _) | CType::Struct(_) =>
            Access::Word,
    }
}

/// What a scalar's leaf holds.
pub fn kind_of(t: &CType) -> Kind
    ensures { result ≡ kind_of t.now }
{
    match t {
        CType::Char => Kind::Byte,
        CType::Int | CType::Unsigned | CType::Void | CType::Struct(_) => Kind::Word,
        CType::Pointer(_) | CType::Array(_, _) => Kind::Address,
    }
}

/// Whether the type is an array.
pub fn is_array(t: &CType) -> bool
    ensures { result ≡ is_array t.now }
{
    matches!(t, CType::Array(_, _))
}

/// Whether the type is a struct.
pub fn is_struct(t: &CType) -> bool
    ensures { result ≡ is_struct t.now }
{
    matches!(t, CType::Struct(_))
}

/// Whether the type is `unsigned`.
pub fn is_unsigned(t: &CType) -> bool
    ensures { result ≡ is_unsigned t.now }
{
    matches!(t, CType::Unsigned)
}

/// Whether the type is neither an array nor a struct.
pub fn is_scalar(t: &CType) -> bool
    ensures { result ≡ scalar t.now }
{
    match t {
        CType::Array(_, _) | CType::Struct(_) => false,
        CType::Char | CType::Int | CType::Unsigned | CType::Void | CType::Pointer(_) => true,
    }
}

/// A binary operator on numbers.
pub fn word_op(op: BinaryOp, unsigned: bool) -> WordOp
    ensures { result ≡ word op unsigned }
{
    match op {
        BinaryOp::BitOr => WordOp::Or,
        BinaryOp::BitXor => WordOp::Xor,
        BinaryOp::BitAnd => WordOp::And,
        BinaryOp::Equal => WordOp::Equal,
        BinaryOp::Unequal => WordOp::Unequal,
        BinaryOp::ShiftLeft => WordOp::ShiftLeft,
        _ => signed_or_unsigned(op, unsigned),
    }
}

/// A binary operator that is another on `unsigned` numbers.
fn signed_or_unsigned(op: BinaryOp, unsigned: bool) -> WordOp
    ensures { result ≡ word op unsigned }
{
    match (op, unsigned) {
        (BinaryOp::Less, false) => WordOp::Less,
        (BinaryOp::Less, true) => WordOp::LessUnsigned,
        (BinaryOp::Greater, false) => WordOp::Greater,
        (BinaryOp::Greater, true) => WordOp::GreaterUnsigned,
        (BinaryOp::LessEqual, false) => WordOp::LessEqual,
        (BinaryOp::LessEqual, true) => WordOp::LessEqualUnsigned,
        (BinaryOp::GreaterEqual, false) => WordOp::GreaterEqual,
        (BinaryOp::GreaterEqual, true) => WordOp::GreaterEqualUnsigned,
        (BinaryOp::ShiftRight, false) => WordOp::ShiftRight,
        (BinaryOp::ShiftRight, true) => WordOp::ShiftRightUnsigned,
        (BinaryOp::Add, false) => WordOp::Add,
        (BinaryOp::Add, true) => WordOp::AddUnsigned,
        (BinaryOp::Subtract, false) => WordOp::Subtract,
        (BinaryOp::Subtract, true) => WordOp::SubtractUnsigned,
        (BinaryOp::Multiply, false) => WordOp::Multiply,
        (BinaryOp::Multiply, true) => WordOp::MultiplyUnsigned,
        (BinaryOp::Divide, false) => WordOp::Divide,
        (BinaryOp::Divide, true) => WordOp::DivideUnsigned,
        (BinaryOp::Remainder, false) => WordOp::Remainder,
        (BinaryOp::Remainder, true) => WordOp::RemainderUnsigned,
        (BinaryOp::BitOr, _) => WordOp::Or,
        (BinaryOp::BitXor, _) => WordOp::Xor,
        (BinaryOp::BitAnd, _) => WordOp::And,
        (BinaryOp::Equal, _) => WordOp::Equal,
        (BinaryOp::Unequal, _) => WordOp::Unequal,
        (BinaryOp::ShiftLeft, _) => WordOp::ShiftLeft,
    }
}

/// A unary operator on an operand of a type.
pub fn unary_op(op: UnaryOp, t: &CType) -> UnaryWordOp
    ensures { result ≡ unary op t.now }
{
    match op {
        UnaryOp::Plus => UnaryWordOp::Plus,
        UnaryOp::Minus => {
            if is_unsigned(t) {
                UnaryWordOp::MinusUnsigned
            } else {
                UnaryWordOp::Minus
            }
        }
        UnaryOp::Complement => UnaryWordOp::Complement,
        UnaryOp::Not => UnaryWordOp::Not,
    }
}

/// Where a binary operator finds its operands and leaves its result.
#[derive(Clone, Copy)]
pub struct Operands {
    pub to: u32,
    pub left: u32,
    pub right: u32,
}

/// An operator on a pointer to items of a size, and an integer.
fn mixed_op(at: Operands, size: u32, op: BinaryOp, t: &CType) -> SlotOp
    ensures { result ≡ mixed at.to at.left at.right size op t.now }
{
    let Operands { to, left, right } = at;
    let is_unsigned = is_unsigned(t);
    match op {
        BinaryOp::Add => SlotOp::Index {
            to,
            pointer: left,
            index: right,
            size,
            is_unsigned,
            back: false,
        },
        BinaryOp::Subtract => SlotOp::Index {
            to,
            pointer: left,
            index: right,
            size,
            is_unsigned,
            back: true,
        },
        BinaryOp::Equal => SlotOp::Compare {
            to,
            left,
            right,
            op: PointerOp::Equal,
        },
        BinaryOp::Unequal => SlotOp::Compare {
            to,
            left,
            right,
            op: PointerOp::Unequal,
        },
        _ => SlotOp::Binary {
            to,
            left,
            right,
            op: WordOp::Or,
        },
    }
}

/// An operator on two pointers to items of a size.
fn pointers_op(at: Operands, size: u32, op: BinaryOp) -> SlotOp
    ensures { result ≡ pointers at.to at.left at.right size op }
{
    let Operands { to, left, right } = at;
    match op {
        BinaryOp::Equal => SlotOp::Compare {
            to,
            left,
            right,
            op: PointerOp::Equal,
        },
        BinaryOp::Unequal => SlotOp::Compare {
            to,
            left,
            right,
            op: PointerOp::Unequal,
        },
        BinaryOp::Less => SlotOp::Compare {
            to,
            left,
            right,
            op: PointerOp::Less,
        },
        BinaryOp::Greater => SlotOp::Compare {
            to,
            left,
            right,
            op: PointerOp::Greater,
        },
        BinaryOp::LessEqual => SlotOp::Compare {
            to,
            left,
            right,
            op: PointerOp::LessEqual,
        },
        BinaryOp::GreaterEqual => SlotOp::Compare {
            to,
            left,
            right,
            op: PointerOp::GreaterEqual,
        },
        BinaryOp::Subtract => SlotOp::Distance {
            to,
            left,
            right,
            size,
        },
        _ => SlotOp::Binary {
            to,
            left,
            right,
            op: WordOp::Or,
        },
    }
}

/// Whether an operator works on `unsigned` numbers. A shift has the type of its left operand.
fn is_on_unsigned(op: BinaryOp, s: &CType, t: &CType) -> bool
    ensures { result ≡ is_unsigned (operating_type op s.now t.now) }
{
    match op {
        BinaryOp::ShiftLeft | BinaryOp::ShiftRight => is_unsigned(s),
        _ => is_unsigned(s) || is_unsigned(t),
    }
}

/// The bytes of a type. Of an accepted program's types none has more than 1,048,576.
pub fn bytes_of(t: &CType, defs: &[StructDef]) -> Result<u32, AllocError>
    ensures { IfOk result (λ n. n ≡ size defs.now t.now) }
{
    size_of(t, defs).map_err(|_| AllocError)
}

/// What a pointer points to, or an array holds.
pub fn target(t: &CType) -> Option<&CType>
    ensures { option_map (λ r. r.now) result ≡ target_of t.now }
{
    match t {
        CType::Pointer(target) | CType::Array(target, _) => Some(&**target),
        CType::Char | CType::Int | CType::Unsigned | CType::Void | CType::Struct(_) => None,
    }
}

/// A binary operator on operands of two types.
pub fn combine_op(
    defs: &[StructDef],
    at: Operands,
    op: BinaryOp,
    s: &CType,
    t: &CType,
) -> Result<SlotOp, AllocError>
    ensures { (p : Program) → p.defs ≡ defs.now → IfOk result (λ o. o ≡ combine p at.to at.left at.right op s.now t.now) }
{
    match (target(s), target(t)) {
        (None, None) => {
            let op = word_op(op, is_on_unsigned(op, s, t));
            Ok(SlotOp::Binary {
                to: at.to,
                left: at.left,
                right: at.right,
                op,
            })
        }
        (Some(a), None) => Ok(mixed_op(at, bytes_of(a, defs)?, op, t)),
        (None, Some(b)) => {
            let turned = Operands {
                to: at.to,
                left: at.right,
                right: at.left,
            };
            Ok(mixed_op(turned, bytes_of(b, defs)?, op, s))
        }
        (Some(a), Some(_)) => Ok(pointers_op(at, bytes_of(a, defs)?, op)),
    }
}
