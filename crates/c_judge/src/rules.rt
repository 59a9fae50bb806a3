// The typing rules of expressions: from the operands the type of the result, or None where the rule is broken.
ghost use Rattle.std.specs.Prelude.{◌≡◌, ◌&&◌, ◌||◌, not, if◌then◌else◌, IfOk, option_map, option_and_then, Some, None};
ghost use Rattle.c_tree.specs.Types.{type_of, head_of};
ghost use Rattle.c_typing.specs.Plain.{plain, is_integer, is_pointer, value_type, Int};
ghost use Rattle.c_judge.specs.Judgement.{object};
ghost use Rattle.c_typing.specs.Rules as rule;
ghost use Rattle.c_judge.specs.Scope.{pointed_number};
ghost use Rattle.c_defs.specs.Members.{member_number};
ghost use Rattle.c_typing.specs.Values.{is_null};
ghost use Rattle.c_judge.specs.Parts.{operand_of, value_of, Gives};

use crate::part::Part;
use crate::types::{
    common, copied, is_complete, is_integer, is_movable, is_pointer, is_scalar, is_struct, is_void,
    members, point_alike, pointer_to, promoted, same, target, value_type,
};
use c_tree::{BinaryOp, CType, Head, Member, StepOp, StructDef, Typed, UnaryOp};
use c_typing::Constant;
use std::alloc::{AllocError, Global};

/// What an expression keeps beside its parts.
pub fn head_of(e: &Typed) -> &Head
    ensures { result.now ≡ head_of e.now }
{
    match e {
        Typed::Comma(h, _, _) => h,
        Typed::Assign(h, _, _, _) => h,
        Typed::Choice(h, _, _, _) => h,
        Typed::Or(h, _, _) => h,
        Typed::And(h, _, _) => h,
        Typed::Binary(h, _, _, _) => h,
        Typed::Cast(h, _) => h,
        Typed::Before(h, _, _) => h,
        Typed::Address(h, _) => h,
        Typed::Follow(h, _) => h,
        Typed::Unary(h, _, _) => h,
        Typed::SizeOf(h, _) => h,
        Typed::SizeOfType(h, _) => h,
        Typed::Index(h, _, _) => h,
        Typed::Call(h, _, _) => h,
        Typed::Dot(h, _, _) => h,
        Typed::Arrow(h, _, _) => h,
        Typed::After(h, _, _) => h,
        Typed::Name(h, _) => h,
        Typed::Constant(h, _) => h,
        Typed::Literal(h, _) => h,
        Typed::Parens(h, _) => h,
    }
}

/// The type of a part.
pub fn type_of(x: &Part) -> &CType
    ensures { plain result.now ≡ plain (type_of x.now.typed.value) }
{
    &head_of(&x.typed).ctype
}

/// Whether a part is a null constant: a constant expression of value 0 (C90 6.2.2.3).
pub fn is_null(x: &Part) -> bool
    ensures { result ≡ is_null x.now.facts.constant }
{
    match x.facts.constant {
        Constant::Number(n) => n == 0,
        Constant::Variable | Constant::Undefined => false,
    }
}

/// A type where a rule holds.
fn only(holds: bool, t: CType) -> Option<CType>
    ensures { option_map plain result ≡ (if holds then Some (plain t) else None) }
{
    if holds { Some(t) } else { None }
}

/// Whether an operand may stand where its value is dropped (C90 6.2.2.2).
pub fn may_drop(x: &Part) -> bool
    ensures { result ≡ rule.may_drop (operand_of x.now) }
{
    let t = type_of(x);
    is_scalar(t) || is_void(t) || (is_struct(t) && !x.facts.lvalue)
}

/// `+ - ~` take an integer, `!` a scalar (C90 6.3.3.3).
pub fn unary_type(op: UnaryOp, x: &Part) -> Option<CType>
    ensures { option_map plain result ≡ rule.unary_type op (value_of x.now) }
{
    let t = type_of(x);
    match op {
        UnaryOp::Not => only(is_scalar(t), CType::Int),
        UnaryOp::Plus | UnaryOp::Minus | UnaryOp::Complement => only(is_integer(t), promoted(t)),
    }
}

/// `*` takes a pointer to a complete type (C90 6.3.3.2).
pub fn followed(defs: &[StructDef], x: &Part) -> Result<Option<CType>, AllocError>
    ensures { Gives result (rule.followed defs.now (value_of x.now)) }
{
    match target(type_of(x)) {
        None => Ok(None),
        Some(t) => {
            if !is_complete(defs, t) {
                return Ok(None);
            }
            Ok(Some(copied(t)?))
        }
    }
}

/// `&` takes an lvalue that is no `register` variable and no string (C90 6.3.3.2).
pub fn address_type(alloc: Global, x: &Part) -> Result<Option<CType>, AllocError>
    ensures { Gives result (rule.address_type (operand_of x.now)) }
{
    if x.facts.lvalue && !x.facts.register && !x.facts.string {
        return Ok(Some(pointer_to(alloc, copied(type_of(x))?)?));
    }
    Ok(None)
}

/// The type of a struct's member by its number.
fn member_type(defs: &[StructDef], t: &CType, m: u32) -> Result<Option<CType>, AllocError>
    ensures { Gives result (rule.member_type defs.now (plain t.now) m) }
{
    match t {
        CType::Struct(s) => match members(defs, *s).get(m as usize) {
            None => Ok(None),
            Some(member) => Ok(Some(copied(&member.ctype)?)),
        },
        _ => Ok(None),
    }
}

/// `.` takes a struct lvalue with that member (C90 6.3.2.3).
pub fn dot_type(defs: &[StructDef], x: &Part, m: u32) -> Result<Option<CType>, AllocError>
    ensures { Gives result (rule.dot_type defs.now (operand_of x.now) m) }
{
    if !x.facts.lvalue {
        return Ok(None);
    }
    member_type(defs, type_of(x), m)
}

/// `->` takes a pointer to a complete struct with that member (C90 6.3.2.3).
pub fn arrow_type(defs: &[StructDef], x: &Part, m: u32) -> Result<Option<CType>, AllocError>
    ensures { Gives result (rule.arrow_type defs.now (value_of x.now) m) }
{
    match target(type_of(x)) {
        None => Ok(None),
        Some(t) => member_type(defs, t, m),
    }
}

/// `* / % & ^ |` take integers (C90 6.3.5, 6.3.10 to 6.3.12).
fn arithmetic_type(s: &CType, t: &CType) -> Option<CType>
    ensures { option_map plain result ≡ rule.arithmetic_type (value_type (plain s.now)) (value_type (plain t.now)) }
{
    only(is_integer(s) && is_integer(t), common(s, t))
}

/// `+` takes integers, or a pointer to a complete type and an integer (C90 6.3.6).
fn sum_type(defs: &[StructDef], s: &CType, t: &CType) -> Result<Option<CType>, AllocError>
    ensures { Gives result (rule.sum_type defs.now (value_type (plain s.now)) (value_type (plain t.now))) }
{
    if is_movable(defs, s) && is_integer(t) {
        return Ok(Some(value_type(s)?));
    }
    if is_integer(s) && is_movable(defs, t) {
        return Ok(Some(value_type(t)?));
    }
    Ok(arithmetic_type(s, t))
}

/// `-` takes integers, a pointer to a complete type and an integer, or two such pointers of one type (C90 6.3.6).
fn difference_type(defs: &[StructDef], s: &CType, t: &CType) -> Result<Option<CType>, AllocError>
    ensures { Gives result (rule.difference_type defs.now (value_type (plain s.now)) (value_type (plain t.now))) }
{
    if is_movable(defs, s) && is_integer(t) {
        return Ok(Some(value_type(s)?));
    }
    if is_movable(defs, s) && point_alike(s, t) {
        return Ok(Some(CType::Int));
    }
    Ok(arithmetic_type(s, t))
}

/// `[]` takes a pointer to a complete type and an integer, in either order (C90 6.3.2.1).
pub fn index_type(defs: &[StructDef], x: &Part, y: &Part) -> Result<Option<CType>, AllocError>
    ensures { Gives result (rule.index_type defs.now (value_of x.now) (value_of y.now)) }
{
    let s = type_of(x);
    let t = type_of(y);
    if is_movable(defs, s) && is_integer(t) {
        return followed(defs, x);
    }
    if is_integer(s) && is_movable(defs, t) {
        return followed(defs, y);
    }
    Ok(None)
}

/// Shifts take integers; the result has the promoted left type (C90 6.3.7).
fn shift_type(s: &CType, t: &CType) -> Option<CType>
    ensures { option_map plain result ≡ rule.shift_type (value_type (plain s.now)) (value_type (plain t.now)) }
{
    only(is_integer(s) && is_integer(t), promoted(s))
}

/// Order takes integers or two pointers of one type (C90 6.3.8).
fn order_type(s: &CType, t: &CType) -> Option<CType>
    ensures { option_map plain result ≡ rule.order_type (value_type (plain s.now)) (value_type (plain t.now)) }
{
    only(
        (is_integer(s) && is_integer(t)) || point_alike(s, t),
        CType::Int,
    )
}

/// A pointer's type, and a null constant.
fn is_nulled(s: &CType, y: &Part) -> bool
    ensures { result ≡ rule.is_nulled (value_type (plain s.now)) (operand_of y.now) }
{
    is_pointer(s) && is_integer(type_of(y)) && is_null(y)
}

/// Equality takes integers, two pointers of one type, or a pointer and a null constant (C90 6.3.9).
pub fn equality_type(x: &Part, y: &Part) -> Option<CType>
    ensures { option_map plain result ≡ rule.equality_type (operand_of x.now) (operand_of y.now) }
{
    let s = type_of(x);
    let t = type_of(y);
    let holds = (is_integer(s) && is_integer(t))
        || point_alike(s, t)
        || is_nulled(s, y)
        || is_nulled(t, x);
    only(holds, CType::Int)
}

/// A binary operator on two operands.
pub fn binary_type(
    defs: &[StructDef],
    op: BinaryOp,
    x: &Part,
    y: &Part,
) -> Result<Option<CType>, AllocError>
    ensures { Gives result (rule.binary_type defs.now op (operand_of x.now) (operand_of y.now)) }
{
    let s = type_of(x);
    let t = type_of(y);
    match op {
        BinaryOp::Equal | BinaryOp::Unequal => Ok(equality_type(x, y)),
        BinaryOp::Less | BinaryOp::Greater | BinaryOp::LessEqual | BinaryOp::GreaterEqual => Ok(
            order_type(s, t),
        ),
        BinaryOp::ShiftLeft | BinaryOp::ShiftRight => Ok(shift_type(s, t)),
        BinaryOp::Add => sum_type(defs, s, t),
        BinaryOp::Subtract => difference_type(defs, s, t),
        BinaryOp::BitOr
        | BinaryOp::BitXor
        | BinaryOp::BitAnd
        | BinaryOp::Multiply
        | BinaryOp::Divide
        | BinaryOp::Remainder => Ok(arithmetic_type(s, t)),
    }
}

/// Whether a value becomes one of a scalar type as by assignment: two integers, one pointer type, or a pointer and a null constant (C90 6.3.16.1).
pub fn converts(t: &CType, y: &Part) -> bool
    ensures { result ≡ rule.converts (plain t.now) (operand_of y.now) }
{
    match t {
        CType::Array(_, _) => false,
        _ => {
            let u = type_of(y);
            (is_integer(t) && is_integer(u)) || point_alike(t, u) || is_nulled(t, y)
        }
    }
}

/// Assignment has an lvalue that is no array on the left, and what converts, or two lvalues of one struct (C90 6.3.16.1).
pub fn assignment_type(x: &Part, y: &Part) -> Result<Option<CType>, AllocError>
    ensures { Gives result (rule.assignment_type (operand_of x.now) (operand_of y.now)) }
{
    let s = type_of(x);
    let copies = is_struct(s) && same(s, type_of(y)) && y.facts.lvalue;
    if x.facts.lvalue && (converts(s, y) || copies) {
        return Ok(Some(copied(s)?));
    }
    Ok(None)
}

/// The operators of compound assignments.
fn is_compound(op: BinaryOp) -> bool
    ensures { result ≡ rule.is_compound op }
{
    match op {
        BinaryOp::Equal
        | BinaryOp::Unequal
        | BinaryOp::Less
        | BinaryOp::Greater
        | BinaryOp::LessEqual
        | BinaryOp::GreaterEqual => false,
        _ => true,
    }
}

/// Whether an operator takes a number to an object of this type: any to an integer, `+` and `-` to a pointer to a complete type.
fn moves(defs: &[StructDef], op: BinaryOp, s: &CType) -> bool
    ensures { (if result then Some (plain s.now) else None) ≡ rule.compound_type defs.now op (object (plain s.now)).operand Int }
{
    match s {
        CType::Pointer(target) => match op {
            BinaryOp::Add | BinaryOp::Subtract => is_complete(defs, target),
            _ => false,
        },
        CType::Char | CType::Int | CType::Unsigned => is_compound(op),
        CType::Void | CType::Array(_, _) | CType::Struct(_) => false,
    }
}

/// Compound assignment takes a scalar lvalue and an integer; a pointer only with `+=` and `-=` (C90 6.3.16.2).
pub fn compound_type(
    defs: &[StructDef],
    op: BinaryOp,
    x: &Part,
    t: &CType,
) -> Result<Option<CType>, AllocError>
    ensures { Gives result (rule.compound_type defs.now op (operand_of x.now) (value_type (plain t.now))) }
{
    let s = type_of(x);
    if x.facts.lvalue && is_integer(t) && moves(defs, op, s) {
        return Ok(Some(copied(s)?));
    }
    Ok(None)
}

/// `++` and `--` take a scalar lvalue (C90 6.3.2.4, 6.3.3.1).
pub fn step_type(defs: &[StructDef], op: StepOp, x: &Part) -> Result<Option<CType>, AllocError>
    ensures { Gives result (rule.step_type defs.now op (operand_of x.now)) }
{
    let op = match op {
        StepOp::Up => BinaryOp::Add,
        StepOp::Down => BinaryOp::Subtract,
    };
    compound_type(defs, op, x, &CType::Int)
}

/// `&& ||` take scalars (C90 6.3.13, 6.3.14).
pub fn logical_type(x: &Part, y: &Part) -> Option<CType>
    ensures { option_map plain result ≡ rule.logical_type (value_of x.now) (value_of y.now) }
{
    only(is_scalar(type_of(x)) && is_scalar(type_of(y)), CType::Int)
}

/// The type of `? :` from its branches: two integers, one pointer type, or a pointer and a null constant (C90 6.3.15).
fn branches_type(x: &Part, y: &Part) -> Result<Option<CType>, AllocError>
    ensures { Gives result (rule.choice_type Int (operand_of x.now) (operand_of y.now)) }
{
    let s = type_of(x);
    let t = type_of(y);
    if is_integer(s) && is_integer(t) {
        return Ok(Some(common(s, t)));
    }
    if point_alike(s, t) || is_nulled(s, y) {
        return Ok(Some(value_type(s)?));
    }
    if is_nulled(t, x) {
        return Ok(Some(value_type(t)?));
    }
    Ok(None)
}

/// `? :` takes a scalar and two branches that go together (C90 6.3.15).
pub fn choice_type(c: &Part, x: &Part, y: &Part) -> Result<Option<CType>, AllocError>
    ensures { Gives result (rule.choice_type (value_of c.now) (operand_of x.now) (operand_of y.now)) }
{
    if !is_scalar(type_of(c)) {
        return Ok(None);
    }
    branches_type(x, y)
}

/// A comma's right operand is a scalar; the value of the left one is dropped (C90 6.3.17).
pub fn comma_type(x: &Part, y: &Part) -> Result<Option<CType>, AllocError>
    ensures { Gives result (rule.comma_type (operand_of x.now) (operand_of y.now)) }
{
    let t = type_of(y);
    if may_drop(x) && is_scalar(t) {
        return Ok(Some(value_type(t)?));
    }
    Ok(None)
}

/// A cast goes from an integer to `char`, `int` or `unsigned` (C90 6.3.4).
pub fn cast_type(to: CType, x: &Part) -> Option<CType>
    ensures { option_map plain result ≡ rule.cast_type (plain to) (value_of x.now) }
{
    let holds = is_integer(&to) && is_integer(type_of(x));
    only(holds, to)
}
