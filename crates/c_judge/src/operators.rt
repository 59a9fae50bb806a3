// Operators on checked parts: which node they make, and what is known of it.
ghost use Rattle.std.specs.Prelude.{◌≡◌, [], IfOk, Some, None};
ghost use Rattle.c_symbol.specs.declared.symbol.BinaryOp.TheVariants as written;
ghost use Rattle.c_typing.specs.Plain.{plain, value_type};
ghost use Rattle.c_judge.specs.Judgement.{prefixed, joined, step_of, compound_of, unary, operation, assigned, compound_rule, rule_of, sized};
ghost use Rattle.c_judge.specs.Elaboration.{site_of, IsUnary, IsPrefixed, IsAssigned, IsOperation, IsJoined};
ghost use Rattle.c_symbol.specs.declared.symbol.PrefixOp.TheVariants as prefix;
ghost use Rattle.c_judge.specs.Parts.{judged_of, value_of};
ghost use Rattle.c_typing.specs.Values as value;
ghost use Rattle.c_judge.specs.Judges.{IsPart, Makes};

use crate::beside::is_stored_by;
use crate::fault::Fault;
use crate::limits::size_within;
use crate::part::{Facts, Part};
use crate::rules::{
    address_type, assignment_type, binary_type, comma_type, compound_type, followed, logical_type,
    may_drop, step_type, type_of, unary_type,
};
use crate::types::is_complete;
use crate::values::{both, combined, either, turned};
use c_lex::Place;
use c_symbol::{AssignOp, BinaryOp as Written, PrefixOp, Step};
use c_tree::{BinaryOp, CType, Head, Site, StepOp, StructDef, Typed, UnaryOp};
use c_typing::Constant;
use std::alloc::{AllocError, Global};

/// What is known of an expression that designates an object.
pub const OBJECT: Facts = Facts {
    lvalue: true,
    register: false,
    string: false,
    constant: Constant::Variable,
};

/// What is known of an expression that has a value alone, and is no constant expression.
pub const VALUE: Facts = Facts {
    lvalue: false,
    register: false,
    string: false,
    constant: Constant::Variable,
};

/// What a node keeps.
pub fn head(at: Place, ctype: CType) -> Head
    ensures site { result.site ≡ site_of at }
    ensures ctype { result.ctype ≡ ctype }
{
    Head {
        site: Site {
            at: at.at,
            line: at.line,
            column: at.column,
        },
        ctype,
    }
}

/// A part of this tree, with what is known of it.
pub fn part_of(alloc: Global, typed: Typed, facts: Facts) -> Result<Part, Fault>
    ensures { IsPart typed facts result }
{
    Ok(Part {
        typed: Box::new(alloc, typed)?,
        facts,
    })
}

/// `++` or `--` of the typed tree.
pub fn step_of(step: Step) -> StepOp
    ensures { result ≡ step_of step }
{
    match step {
        Step::Increment => StepOp::Up,
        Step::Decrement => StepOp::Down,
    }
}

/// `++a` or `--a`
#[tactic(auto, using(crate::proofs::Wholly::makes_part))]
fn before(alloc: Global, defs: &[StructDef], at: Place, step: Step, x: Part) -> Result<Part, Fault>
    ensures { Makes (prefixed defs.now at.at (prefix.Step step) (judged_of x)) (IsPrefixed (prefix.Step step) x.typed.value) at result }
{
    let op = step_of(step);
    let Some(t) = step_type(defs, op, &x)? else {
        return Err(Fault::Rule {
            rule: 37,
            at: at.at,
        });
    };
    part_of(alloc, Typed::Before(head(at, t), op, x.typed), VALUE)
}

/// `&a`
#[tactic(auto, using(crate::proofs::Wholly::makes_part))]
fn address(alloc: Global, at: Place, x: Part) -> Result<Part, Fault>
    ensures { Makes (prefixed [] at.at prefix.Address (judged_of x)) (IsPrefixed prefix.Address x.typed.value) at result }
{
    let Some(t) = address_type(alloc, &x)? else {
        return Err(Fault::Rule {
            rule: 25,
            at: at.at,
        });
    };
    part_of(alloc, Typed::Address(head(at, t), x.typed), VALUE)
}

/// `*a`
#[tactic(auto, using(crate::proofs::Wholly::makes_part))]
fn follow(alloc: Global, defs: &[StructDef], at: Place, x: Part) -> Result<Part, Fault>
    ensures { Makes (prefixed defs.now at.at prefix.Dereference (judged_of x)) (IsPrefixed prefix.Dereference x.typed.value) at result }
{
    let Some(t) = followed(defs, &x)? else {
        return Err(Fault::Rule {
            rule: 24,
            at: at.at,
        });
    };
    part_of(alloc, Typed::Follow(head(at, t), x.typed), OBJECT)
}

/// `+ - ~ !`
#[tactic(auto, using(crate::proofs::Wholly::makes_part))]
fn unary(alloc: Global, at: Place, op: UnaryOp, x: Part) -> Result<Part, Fault>
    ensures { Makes (unary at.at op (judged_of x)) (IsUnary op x.typed.value) at result }
{
    let Some(t) = unary_type(op, &x) else {
        return Err(Fault::Rule {
            rule: 23,
            at: at.at,
        });
    };
    let constant = turned(op, type_of(&x), x.facts.constant);
    part_of(
        alloc,
        Typed::Unary(head(at, t), op, x.typed),
        Facts {
            lvalue: false,
            register: false,
            string: false,
            constant,
        },
    )
}

/// `sizeof a`
#[tactic(auto, using(crate::proofs::Wholly::makes_part))]
fn size_of(alloc: Global, defs: &[StructDef], at: Place, x: Part) -> Result<Part, Fault>
    ensures { Makes (prefixed defs.now at.at prefix.Sizeof (judged_of x)) (IsPrefixed prefix.Sizeof x.typed.value) at result }
{
    let t = type_of(&x);
    if !is_complete(defs, t) {
        return Err(Fault::Rule {
            rule: 40,
            at: at.at,
        });
    }
    let Some(size) = size_within(defs, t) else {
        return Err(Fault::Rule { rule: 1, at: at.at });
    };
    part_of(
        alloc,
        Typed::SizeOf(head(at, CType::Unsigned), x.typed),
        Facts {
            lvalue: false,
            register: false,
            string: false,
            constant: Constant::Number(size),
        },
    )
}

/// An operator in front of a part.
pub fn prefixed(
    alloc: Global,
    defs: &[StructDef],
    at: Place,
    op: PrefixOp,
    x: Part,
) -> Result<Part, Fault>
    ensures { Makes (prefixed defs.now at.at op (judged_of x)) (IsPrefixed op x.typed.value) at result }
{
    match op {
        PrefixOp::Step(step) => before(alloc, defs, at, step, x),
        PrefixOp::Address => address(alloc, at, x),
        PrefixOp::Dereference => follow(alloc, defs, at, x),
        PrefixOp::Plus => unary(alloc, at, UnaryOp::Plus, x),
        PrefixOp::Minus => unary(alloc, at, UnaryOp::Minus, x),
        PrefixOp::Complement => unary(alloc, at, UnaryOp::Complement, x),
        PrefixOp::Not => unary(alloc, at, UnaryOp::Not, x),
        PrefixOp::Sizeof => size_of(alloc, defs, at, x),
    }
}

/// `a, b`
#[tactic(auto, using(crate::proofs::Wholly::makes_part))]
fn comma(alloc: Global, at: Place, x: Part, y: Part) -> Result<Part, Fault>
    ensures { Makes (joined [] at.at written.Comma (judged_of x) (judged_of y)) (IsJoined written.Comma x.typed.value y.typed.value) at result }
{
    let Some(t) = comma_type(&x, &y)? else {
        return Err(Fault::Rule {
            rule: if may_drop(&x) { 39 } else { 22 },
            at: at.at,
        });
    };
    part_of(alloc, Typed::Comma(head(at, t), x.typed, y.typed), VALUE)
}

/// `a || b`
#[tactic(auto, using(crate::proofs::Wholly::makes_part))]
fn or(alloc: Global, at: Place, x: Part, y: Part) -> Result<Part, Fault>
    ensures { Makes (joined [] at.at written.LogicalOr (judged_of x) (judged_of y)) (IsJoined written.LogicalOr x.typed.value y.typed.value) at result }
{
    let Some(t) = logical_type(&x, &y) else {
        return Err(Fault::Rule {
            rule: 38,
            at: at.at,
        });
    };
    let constant = either(x.facts.constant, y.facts.constant);
    part_of(
        alloc,
        Typed::Or(head(at, t), x.typed, y.typed),
        Facts {
            lvalue: false,
            register: false,
            string: false,
            constant,
        },
    )
}

/// `a && b`
#[tactic(auto, using(crate::proofs::Wholly::makes_part))]
fn and(alloc: Global, at: Place, x: Part, y: Part) -> Result<Part, Fault>
    ensures { Makes (joined [] at.at written.LogicalAnd (judged_of x) (judged_of y)) (IsJoined written.LogicalAnd x.typed.value y.typed.value) at result }
{
    let Some(t) = logical_type(&x, &y) else {
        return Err(Fault::Rule {
            rule: 38,
            at: at.at,
        });
    };
    let constant = both(x.facts.constant, y.facts.constant);
    part_of(
        alloc,
        Typed::And(head(at, t), x.typed, y.typed),
        Facts {
            lvalue: false,
            register: false,
            string: false,
            constant,
        },
    )
}

/// A plain assignment (C90 6.3.16.1).
#[tactic(auto, using(crate::proofs::Wholly::makes_part))]
fn assign(alloc: Global, at: Place, x: Part, y: Part) -> Result<Part, Fault>
    ensures { Makes (assigned [] at.at None (judged_of x) (judged_of y)) (IsAssigned None x.typed.value y.typed.value) at result }
{
    let Some(t) = assignment_type(&x, &y)? else {
        return Err(Fault::Rule {
            rule: 36,
            at: at.at,
        });
    };
    part_of(
        alloc,
        Typed::Assign(head(at, t), x.typed, None, y.typed),
        VALUE,
    )
}

/// The rule that a compound assignment breaks: that on its left operand, else that of the operator, else that on the assignment of what is to be stored.
fn compound_rule(defs: &[StructDef], op: BinaryOp, x: &Part, y: &Part) -> Result<u8, AllocError>
    ensures { IfOk result (λ r. r ≡ compound_rule defs.now op (judged_of x.now) (judged_of y.now)) }
{
    if !is_stored_by(op, x) {
        return Ok(37);
    }
    match binary_type(defs, op, x, y)? {
        Some(_) => Ok(36),
        None => Ok(rule_of(op)),
    }
}

/// A compound assignment (C90 6.3.16.2).
#[tactic(auto, using(crate::proofs::Wholly::makes_part))]
fn compound(
    alloc: Global,
    defs: &[StructDef],
    at: Place,
    op: BinaryOp,
    x: Part,
    y: Part,
) -> Result<Part, Fault>
    ensures { Makes (assigned defs.now at.at (Some op) (judged_of x) (judged_of y)) (IsAssigned (Some op) x.typed.value y.typed.value) at result }
{
    let Some(t) = compound_type(defs, op, &x, type_of(&y))? else {
        let rule = compound_rule(defs, op, &x, &y)?;
        return Err(Fault::Rule { rule, at: at.at });
    };
    part_of(
        alloc,
        Typed::Assign(head(at, t), x.typed, Some(op), y.typed),
        VALUE,
    )
}

/// The operator of a compound assignment.
pub fn compound_of(op: AssignOp) -> Option<BinaryOp>
    ensures { result ≡ compound_of op }
{
    match op {
        AssignOp::Plain => None,
        AssignOp::Add => Some(BinaryOp::Add),
        AssignOp::Subtract => Some(BinaryOp::Subtract),
        AssignOp::Multiply => Some(BinaryOp::Multiply),
        AssignOp::Divide => Some(BinaryOp::Divide),
        AssignOp::Remainder => Some(BinaryOp::Remainder),
        AssignOp::ShiftLeft => Some(BinaryOp::ShiftLeft),
        AssignOp::ShiftRight => Some(BinaryOp::ShiftRight),
        AssignOp::And => Some(BinaryOp::BitAnd),
        AssignOp::Xor => Some(BinaryOp::BitXor),
        AssignOp::Or => Some(BinaryOp::BitOr),
    }
}

/// An assignment.
fn assigned(
    alloc: Global,
    defs: &[StructDef],
    at: Place,
    op: AssignOp,
    x: Part,
    y: Part,
) -> Result<Part, Fault>
    ensures { Makes (joined defs.now at.at (written.Assign op) (judged_of x) (judged_of y)) (IsJoined (written.Assign op) x.typed.value y.typed.value) at result }
{
    match compound_of(op) {
        None => assign(alloc, at, x, y),
        Some(op) => compound(alloc, defs, at, op, x, y),
    }
}

/// The number of the rule of an operator: 30 `* / % & ^ |`, 31 `+`, 32 `-`, 33 shifts, 34 order, 35 equality.
pub fn rule_of(op: BinaryOp) -> u8
    ensures { result ≡ rule_of op }
{
    match op {
        BinaryOp::Add => 31,
        BinaryOp::Subtract => 32,
        BinaryOp::ShiftLeft | BinaryOp::ShiftRight => 33,
        BinaryOp::Less | BinaryOp::Greater | BinaryOp::LessEqual | BinaryOp::GreaterEqual => 34,
        BinaryOp::Equal | BinaryOp::Unequal => 35,
        BinaryOp::BitOr
        | BinaryOp::BitXor
        | BinaryOp::BitAnd
        | BinaryOp::Multiply
        | BinaryOp::Divide
        | BinaryOp::Remainder => 30,
    }
}

/// What an operator makes of two parts as constant expressions.
fn constant_of(op: BinaryOp, x: &Part, y: &Part) -> Constant
    ensures { result ≡ value.combined op (value_of x.now) (value_of y.now) x.now.facts.constant y.now.facts.constant }
{
    combined(
        op,
        type_of(x),
        type_of(y),
        x.facts.constant,
        y.facts.constant,
    )
}

/// `a op b`
#[tactic(auto, using(crate::proofs::Wholly::makes_part))]
fn operation(
    alloc: Global,
    defs: &[StructDef],
    at: Place,
    op: BinaryOp,
    x: Part,
    y: Part,
) -> Result<Part, Fault>
    ensures { Makes (operation defs.now at.at op (judged_of x) (judged_of y)) (IsOperation op x.typed.value y.typed.value) at result }
{
    let Some(t) = binary_type(defs, op, &x, &y)? else {
        return Err(Fault::Rule {
            rule: rule_of(op),
            at: at.at,
        });
    };
    let constant = constant_of(op, &x, &y);
    part_of(
        alloc,
        Typed::Binary(head(at, t), x.typed, op, y.typed),
        Facts {
            lvalue: false,
            register: false,
            string: false,
            constant,
        },
    )
}

/// An operator between two parts.
pub fn joined(
    alloc: Global,
    defs: &[StructDef],
    at: Place,
    op: Written,
    x: Part,
    y: Part,
) -> Result<Part, Fault>
    ensures { Makes (joined defs.now at.at op (judged_of x) (judged_of y)) (IsJoined op x.typed.value y.typed.value) at result }
{
    match op {
        Written::Comma => comma(alloc, at, x, y),
        Written::Assign(op) => assigned(alloc, defs, at, op, x, y),
        Written::LogicalOr => or(alloc, at, x, y),
        Written::LogicalAnd => and(alloc, at, x, y),
        Written::BitOr => operation(alloc, defs, at, BinaryOp::BitOr, x, y),
        Written::BitXor => operation(alloc, defs, at, BinaryOp::BitXor, x, y),
        Written::BitAnd => operation(alloc, defs, at, BinaryOp::BitAnd, x, y),
        Written::Equal => operation(alloc, defs, at, BinaryOp::Equal, x, y),
        Written::NotEqual => operation(alloc, defs, at, BinaryOp::Unequal, x, y),
        Written::Less => operation(alloc, defs, at, BinaryOp::Less, x, y),
        Written::Greater => operation(alloc, defs, at, BinaryOp::Greater, x, y),
        Written::LessEqual => operation(alloc, defs, at, BinaryOp::LessEqual, x, y),
        Written::GreaterEqual => operation(alloc, defs, at, BinaryOp::GreaterEqual, x, y),
        Written::ShiftLeft => operation(alloc, defs, at, BinaryOp::ShiftLeft, x, y),
        Written::ShiftRight => operation(alloc, defs, at, BinaryOp::ShiftRight, x, y),
        Written::Add => operation(alloc, defs, at, BinaryOp::Add, x, y),
        Written::Subtract => operation(alloc, defs, at, BinaryOp::Subtract, x, y),
        Written::Multiply => operation(alloc, defs, at, BinaryOp::Multiply, x, y),
        Written::Divide => operation(alloc, defs, at, BinaryOp::Divide, x, y),
        Written::Remainder => operation(alloc, defs, at, BinaryOp::Remainder, x, y),
    }
}
