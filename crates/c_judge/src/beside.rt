// Operands beside a name that is not declared: the rule that an operand breaks whatever the other one is.
ghost use Rattle.std.specs.Prelude.{◌≡◌, IfOk};
ghost use Rattle.c_typing.specs.Plain.{plain, value_type};
ghost use Rattle.c_judge.specs.Answers.{unless};
ghost use Rattle.c_judge.specs.Judgement as judgement;
ghost use Rattle.c_judge.specs.Pairs.{told_alone, refused};
ghost use Rattle.c_judge.specs.Parts.{judged_of, operand_of};

use crate::fault::Fault;
use crate::operators::{compound_of, rule_of};
use crate::part::Part;
use crate::rules::{equality_type, may_drop, type_of};
use crate::types::{is_integer, is_movable, is_scalar, is_struct};
use c_symbol::{AssignOp, BinaryOp as Written};
use c_tree::{BinaryOp, CType, StructDef};

/// A rule that is broken unless this holds.
fn unless(holds: bool, rule: u8) -> Option<u8>
    ensures { result ≡ unless holds rule }
{
    if holds { None } else { Some(rule) }
}

/// Where one part breaks a rule beside a name that is not declared, that rule in place of what there is of both.
pub fn refused<A: Drop>(rule: Option<u8>, at: u32, parts: Result<A, Fault>) -> Result<A, Fault>
    ensures { result ≡ refused at rule parts }
{
    match rule {
        None => parts,
        Some(rule) => Err(Fault::Rule { rule, at }),
    }
}

/// Whether some other operand goes with one of this type: `+` and `-` take integers and pointers that arithmetic may move,
/// comparisons integers and pointers, and the other operators integers.
fn is_operand(defs: &[StructDef], op: BinaryOp, t: &CType) -> bool
    ensures { result ≡ judgement.is_operand defs.now op (value_type (plain t.now)) }
{
    match op {
        BinaryOp::Add | BinaryOp::Subtract => is_integer(t) || is_movable(defs, t),
        BinaryOp::Less
        | BinaryOp::Greater
        | BinaryOp::LessEqual
        | BinaryOp::GreaterEqual
        | BinaryOp::Equal
        | BinaryOp::Unequal => is_scalar(t),
        BinaryOp::ShiftLeft
        | BinaryOp::ShiftRight
        | BinaryOp::BitOr
        | BinaryOp::BitXor
        | BinaryOp::BitAnd
        | BinaryOp::Multiply
        | BinaryOp::Divide
        | BinaryOp::Remainder => is_integer(t),
    }
}

/// An operand of an operator between two.
fn operator_alone(defs: &[StructDef], op: BinaryOp, x: &Part) -> Option<u8>
    ensures { result ≡ judgement.operator_alone defs.now op (judged_of x.now) }
{
    unless(is_operand(defs, op, type_of(x)), rule_of(op))
}

/// An operand of `[]`.
fn index_alone(defs: &[StructDef], x: &Part) -> Option<u8>
    ensures { result ≡ judgement.index_alone defs.now (judged_of x.now) }
{
    unless(is_operand(defs, BinaryOp::Add, type_of(x)), 28)
}

/// An operand of `&&` and `||`, and a part of `? :`.
fn scalar_alone(x: &Part) -> Option<u8>
    ensures { result ≡ judgement.scalar_alone (judged_of x.now) }
{
    unless(is_scalar(type_of(x)), 38)
}

/// Two branches, which go together as the operands of `==` do (C90 6.3.15).
fn branches_alone(branches: &(Part, Part)) -> Option<u8>
    ensures { result ≡ judgement.branches_alone (judged_of branches.now.0, judged_of branches.now.1) }
{
    unless(equality_type(&branches.0, &branches.1).is_some(), 38)
}

/// The type of a cast.
fn cast_alone(t: &CType) -> Option<u8>
    ensures { result ≡ judgement.cast_alone (plain t.now) }
{
    unless(is_integer(t), 40)
}

/// What is cast.
fn cast_operand_alone(x: &Part) -> Option<u8>
    ensures { result ≡ judgement.cast_operand_alone (judged_of x.now) }
{
    unless(is_integer(type_of(x)), 40)
}

/// Compound assignment takes an lvalue that is an integer, or a pointer for `+=` and `-=` (C90 6.3.16.2).
pub fn is_stored_by(op: BinaryOp, x: &Part) -> bool
    ensures { result ≡ judgement.is_stored_by op (operand_of x.now) }
{
    if !x.facts.lvalue {
        return false;
    }
    match type_of(x) {
        CType::Char | CType::Int | CType::Unsigned => true,
        CType::Pointer(_) => match op {
            BinaryOp::Add | BinaryOp::Subtract => true,
            _ => false,
        },
        CType::Void | CType::Array(_, _) | CType::Struct(_) => false,
    }
}

/// What is assigned to.
fn target_alone(defs: &[StructDef], op: Option<BinaryOp>, x: &Part) -> Option<u8>
    ensures { result ≡ judgement.target_alone defs.now op (judged_of x.now) }
{
    match op {
        None => unless(x.facts.lvalue && is_assigned(type_of(x)), 36),
        Some(op) => {
            if is_stored_by(op, x) {
                operator_alone(defs, op, x)
            } else {
                Some(37)
            }
        }
    }
}

/// Whether some value can be assigned to an object of this type.
fn is_assigned(t: &CType) -> bool
    ensures { result ≡ judgement.is_assigned (plain t.now) }
{
    match t {
        CType::Void | CType::Array(_, _) => false,
        CType::Char | CType::Int | CType::Unsigned | CType::Pointer(_) | CType::Struct(_) => true,
    }
}

/// What is assigned.
fn source_alone(defs: &[StructDef], op: Option<BinaryOp>, y: &Part) -> Option<u8>
    ensures { result ≡ judgement.source_alone defs.now op (judged_of y.now) }
{
    let t = type_of(y);
    match op {
        None => unless(is_scalar(t) || (is_struct(t) && y.facts.lvalue), 36),
        Some(op) => {
            if is_integer(t) {
                return None;
            }
            Some(if is_operand(defs, op, t) {
                36
            } else {
                rule_of(op)
            })
        }
    }
}

/// The operator that is written between two operands, but for a comma, an assignment, `&&` and `||`.
fn operator_of(op: Written) -> BinaryOp
    ensures { result ≡ judgement.operator_of op }
{
    match op {
        Written::BitOr => BinaryOp::BitOr,
        Written::BitXor => BinaryOp::BitXor,
        Written::BitAnd => BinaryOp::BitAnd,
        Written::Equal => BinaryOp::Equal,
        Written::NotEqual => BinaryOp::Unequal,
        Written::Less => BinaryOp::Less,
        Written::Greater => BinaryOp::Greater,
        Written::LessEqual => BinaryOp::LessEqual,
        Written::GreaterEqual => BinaryOp::GreaterEqual,
        Written::ShiftLeft => BinaryOp::ShiftLeft,
        Written::ShiftRight => BinaryOp::ShiftRight,
        Written::Add => BinaryOp::Add,
        Written::Subtract => BinaryOp::Subtract,
        Written::Divide => BinaryOp::Divide,
        Written::Remainder => BinaryOp::Remainder,
        Written::Multiply
        | Written::Comma
        | Written::Assign(_)
        | Written::LogicalOr
        | Written::LogicalAnd => BinaryOp::Multiply,
    }
}

/// The left operand of an operator.
fn left_alone(defs: &[StructDef], op: Written, x: &Part) -> Option<u8>
    ensures { result ≡ judgement.left_alone defs.now op (judged_of x.now) }
{
    match op {
        Written::Comma => unless(may_drop(x), 22),
        Written::Assign(op) => target_alone(defs, compound_of(op), x),
        Written::LogicalOr | Written::LogicalAnd => scalar_alone(x),
        _ => operator_alone(defs, operator_of(op), x),
    }
}

/// The right operand of an operator.
fn right_alone(defs: &[StructDef], op: Written, y: &Part) -> Option<u8>
    ensures { result ≡ judgement.right_alone defs.now op (judged_of y.now) }
{
    match op {
        Written::Comma => unless(is_scalar(type_of(y)), 39),
        Written::Assign(op) => source_alone(defs, compound_of(op), y),
        Written::LogicalOr | Written::LogicalAnd => scalar_alone(y),
        _ => operator_alone(defs, operator_of(op), y),
    }
}

/// The operands of an operator between two.
pub fn binary_alone(
    defs: &[StructDef],
    op: Written,
    x: &Result<Part, Fault>,
    y: &Result<Part, Fault>,
) -> Option<u8>
    ensures { result ≡ told_alone (λ p. judgement.left_alone defs.now op (judged_of p)) (λ p. judgement.right_alone defs.now op (judged_of p)) x.now y.now }
{
    match (x, y) {
        (Ok(x), Err(Fault::Unknown { .. })) => left_alone(defs, op, x),
        (Err(Fault::Unknown { .. }), Ok(y)) => right_alone(defs, op, y),
        _ => None,
    }
}

/// The operands of `[]`.
pub fn indices_alone(
    defs: &[StructDef],
    x: &Result<Part, Fault>,
    y: &Result<Part, Fault>,
) -> Option<u8>
    ensures { result ≡ told_alone (λ p. judgement.index_alone defs.now (judged_of p)) (λ p. judgement.index_alone defs.now (judged_of p)) x.now y.now }
{
    match (x, y) {
        (Ok(x), Err(Fault::Unknown { .. })) => index_alone(defs, x),
        (Err(Fault::Unknown { .. }), Ok(y)) => index_alone(defs, y),
        _ => None,
    }
}

/// The type of a cast and what is cast.
pub fn casts_alone(t: &Result<CType, Fault>, x: &Result<Part, Fault>) -> Option<u8>
    ensures { result ≡ told_alone (λ u. judgement.cast_alone (plain u)) (λ p. judgement.cast_operand_alone (judged_of p)) t.now x.now }
{
    match (t, x) {
        (Ok(t), Err(Fault::Unknown { .. })) => cast_alone(t),
        (Err(Fault::Unknown { .. }), Ok(x)) => cast_operand_alone(x),
        _ => None,
    }
}

/// One branch of `? :`.
pub fn branch_alone(x: &Result<Part, Fault>, y: &Result<Part, Fault>) -> Option<u8>
    ensures { result ≡ told_alone (λ p. judgement.scalar_alone (judged_of p)) (λ p. judgement.scalar_alone (judged_of p)) x.now y.now }
{
    match (x, y) {
        (Ok(x), Err(Fault::Unknown { .. })) => scalar_alone(x),
        (Err(Fault::Unknown { .. }), Ok(y)) => scalar_alone(y),
        _ => None,
    }
}

/// What chooses between branches, or both of these.
pub fn choice_alone(z: &Result<Part, Fault>, branches: &Result<(Part, Part), Fault>) -> Option<u8>
    ensures { result ≡ told_alone (λ p. judgement.scalar_alone (judged_of p)) (λ b. judgement.branches_alone (judged_of b.0, judged_of b.1)) z.now branches.now }
{
    match (z, branches) {
        (Ok(z), Err(Fault::Unknown { .. })) => scalar_alone(z),
        (Err(Fault::Unknown { .. }), Ok(branches)) => branches_alone(branches),
        _ => None,
    }
}
