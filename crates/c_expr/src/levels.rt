// The levels of operators.
ghost use Rattle.std.specs.Prelude.{◌≡◌};
ghost use Rattle.c_expr.specs.Levels.{level_of, left_of, ends_of, right_of, operand_of};

use c_symbol::{BinaryOp, PrefixOp};

/// The level of a binary operator: 1 for the comma, which binds loosest, up to 13 for `*` (C90 6.3.5 to 6.3.17).
pub fn level_of(op: BinaryOp) -> u32
    ensures { result ≡ level_of op }
{
    match op {
        BinaryOp::Comma => 1,
        BinaryOp::Assign(_) => 2,
        BinaryOp::LogicalOr => 4,
        BinaryOp::LogicalAnd => 5,
        BinaryOp::BitOr => 6,
        BinaryOp::BitXor => 7,
        BinaryOp::BitAnd => 8,
        BinaryOp::Equal | BinaryOp::NotEqual => 9,
        BinaryOp::Less | BinaryOp::Greater | BinaryOp::LessEqual | BinaryOp::GreaterEqual => 10,
        BinaryOp::ShiftLeft | BinaryOp::ShiftRight => 11,
        BinaryOp::Add | BinaryOp::Subtract => 12,
        BinaryOp::Multiply | BinaryOp::Divide | BinaryOp::Remainder => 13,
    }
}

/// The least level of what stands on the left of an operator.
pub fn left_of(op: BinaryOp) -> u32
    ensures { result ≡ left_of op }
{
    match op {
        BinaryOp::Assign(_) => 15,
        _ => level_of(op),
    }
}

/// The level from which on expressions end before the operator.
pub fn ends_of(op: BinaryOp) -> u32
    ensures { result ≡ ends_of op }
{
    match op {
        BinaryOp::Assign(_) => 14,
        _ => level_of(op),
    }
}

/// The least level of what stands on its right.
pub fn right_of(op: BinaryOp) -> u32
    ensures { result ≡ right_of op }
{
    match op {
        BinaryOp::Assign(_) => 2,
        _ => level_of(op) + 1,
    }
}

/// The least level of what stands behind an operator.
pub fn operand_of(op: PrefixOp) -> u32
    ensures { result ≡ operand_of op }
{
    match op {
        PrefixOp::Step(_) | PrefixOp::Sizeof => 15,
        _ => 14,
    }
}
