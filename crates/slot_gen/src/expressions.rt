// The code of expressions.
ghost use Rattle.std.specs.Prelude.{◌≡◌, ◌++◌, IfOk, OnOk, length};
ghost use Rattle.slot_gen.specs.Expressions.{register_in, unless_register, expr_code, place_code, args_code};

use crate::emit::{next, put, put_cast, put_load, put_read};
use crate::jumps::{end_and, end_choice, end_or, put_jump, put_test};
use crate::operands::{
    is_copy, local_of, put_arrow, put_assigned, put_combine, put_dot, put_enter, put_move,
    put_name, put_size, put_step, type_of,
};
use crate::translate::unary_op;
use crate::within::Within;
use c_tree::{BinaryOp, Typed};
use slot_ir::SlotOp;
use std::alloc::AllocError;

/// The code of an expression, which leaves its value in a temporary and changes none below.
#[cycle(expr)]
pub fn emit_expr(
    within: &Within,
    code: &mut Vec<SlotOp>,
    d: u32,
    e: &Typed,
) -> Result<(), AllocError>
    ensures { OnOk result (code.new.items ≡ code.old.items ++ expr_code within.now.program.now within.now.number (length code.old.items) d e.now) }
{
    match e {
        Typed::Comma(_, a, b) => {
            emit_expr(within, code, d, a)?;
            emit_expr(within, code, d, b)
        }
        Typed::Assign(_, a, op, b) => {
            if is_copy(*op, type_of(a)) {
                emit_place(within, code, d, a)?;
                emit_place(within, code, next(d)?, b)?;
                put_move(code, d, type_of(a))
            } else {
                let register = emit_target(within, code, d, a)?;
                emit_expr(within, code, next(d)?, b)?;
                put_assigned(within, code, d, register, type_of(a), *op, type_of(b))
            }
        }
        Typed::Choice(head, c, a, b) => {
            emit_expr(within, code, d, c)?;
            let test = put_test(code, d)?;
            emit_expr(within, code, d, a)?;
            put_cast(code, d, &head.ctype)?;
            let over = put_jump(code)?;
            emit_expr(within, code, d, b)?;
            put_cast(code, d, &head.ctype)?;
            end_choice(code, d, test, over)
        }
        Typed::Or(_, a, b) => {
            emit_expr(within, code, d, a)?;
            let test = put_test(code, d)?;
            emit_expr(within, code, d, b)?;
            end_or(code, d, test)
        }
        Typed::And(_, a, b) => {
            emit_expr(within, code, d, a)?;
            let test = put_test(code, d)?;
            emit_expr(within, code, d, b)?;
            end_and(code, d, test)
        }
        Typed::Binary(_, a, op, b) => {
            emit_expr(within, code, d, a)?;
            emit_expr(within, code, next(d)?, b)?;
            put_combine(within, code, d, *op, type_of(a), type_of(b))
        }
        Typed::Cast(head, a) => {
            emit_expr(within, code, d, a)?;
            put_cast(code, d, &head.ctype)
        }
        Typed::Before(_, op, a) => {
            let register = emit_target(within, code, d, a)?;
            put_step(within, code, d, register, type_of(a), *op, true)
        }
        Typed::After(_, a, op) => {
            let register = emit_target(within, code, d, a)?;
            put_step(within, code, d, register, type_of(a), *op, false)
        }
        Typed::Address(_, a) => emit_place(within, code, d, a),
        Typed::Unary(_, op, a) => {
            emit_expr(within, code, d, a)?;
            put(
                code,
                SlotOp::Unary {
                    at: d,
                    op: unary_op(*op, type_of(a)),
                },
            )
        }
        Typed::SizeOf(_, a) => put_size(within, code, d, type_of(a)),
        Typed::SizeOfType(_, t) => put_size(within, code, d, t),
        Typed::Call(_, g, args) => {
            emit_args(within, code, d, args)?;
            put_enter(within, code, d, *g, args.len())
        }
        Typed::Constant(_, bits) => put(code, SlotOp::Const { to: d, bits: *bits }),
        Typed::Parens(_, a) => emit_expr(within, code, d, a),
        Typed::Name(head, _) => {
            let register = emit_target(within, code, d, e)?;
            put_read(code, d, register, &head.ctype)
        }
        Typed::Literal(head, string) => {
            put(
                code,
                SlotOp::TextAddress {
                    to: d,
                    string: *string,
                },
            )?;
            put_load(code, d, &head.ctype)
        }
        Typed::Follow(head, a) => {
            emit_expr(within, code, d, a)?;
            put_load(code, d, &head.ctype)
        }
        Typed::Index(head, _, _) => {
            emit_place(within, code, d, e)?;
            put_load(code, d, &head.ctype)
        }
        Typed::Dot(head, _, _) => {
            emit_place(within, code, d, e)?;
            put_load(code, d, &head.ctype)
        }
        Typed::Arrow(head, _, _) => {
            emit_place(within, code, d, e)?;
            put_load(code, d, &head.ctype)
        }
    }
}

/// The code of where an lvalue stands.
#[cycle(expr)]
pub fn emit_place(
    within: &Within,
    code: &mut Vec<SlotOp>,
    d: u32,
    e: &Typed,
) -> Result<(), AllocError>
    ensures { OnOk result (code.new.items ≡ code.old.items ++ place_code within.now.program.now within.now.number (length code.old.items) d e.now) }
{
    match e {
        Typed::Name(_, n) => put_name(within, code, d, *n),
        Typed::Literal(_, string) => put(
            code,
            SlotOp::TextAddress {
                to: d,
                string: *string,
            },
        ),
        Typed::Follow(_, a) => emit_expr(within, code, d, a),
        Typed::Index(_, a, b) => {
            emit_expr(within, code, d, a)?;
            emit_expr(within, code, next(d)?, b)?;
            put_combine(within, code, d, BinaryOp::Add, type_of(a), type_of(b))
        }
        Typed::Dot(_, a, m) => {
            emit_place(within, code, d, a)?;
            put_dot(within, code, d, a, *m)
        }
        Typed::Arrow(_, a, m) => {
            emit_expr(within, code, d, a)?;
            put_arrow(within, code, d, a, *m)
        }
        Typed::Parens(_, a) => emit_place(within, code, d, a),
        _ => Ok(()),
    }
}

/// The code of where a scalar lvalue stands, or the local in a register that it is.
#[cycle(expr)]
fn emit_target(
    within: &Within,
    code: &mut Vec<SlotOp>,
    d: u32,
    e: &Typed,
) -> Result<Option<u32>, AllocError>
    ensures register { IfOk result (λ r. r ≡ register_in within.now.program.now within.now.number e.now) }
    ensures place { IfOk result (λ r. code.new.items ≡ code.old.items ++ unless_register r (place_code within.now.program.now within.now.number (length code.old.items) d e.now)) }
{
    let register = local_of(within, e);
    if register.is_none() {
        emit_place(within, code, d, e)?;
    }
    Ok(register)
}

/// The code of arguments, each in the next temporary.
#[cycle(expr)]
fn emit_args(
    within: &Within,
    code: &mut Vec<SlotOp>,
    d: u32,
    args: &[Typed],
) -> Result<(), AllocError>
    ensures { OnOk result (code.new.items ≡ code.old.items ++ args_code within.now.program.now within.now.number (length code.old.items) d args.now) }
{
    let mut to = d;
    for arg in args {
        emit_expr(within, code, to, arg)?;
        to = next(to)?;
    }
    Ok(())
}
