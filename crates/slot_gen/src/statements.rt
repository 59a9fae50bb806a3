// The code of statements.
ghost use Rattle.std.specs.Prelude.{◌≡◌, ◌++◌, IfOk, OnOk, length, option_map};
ghost use Rattle.slot_gen.specs.Statements.{stmt_code, stmts_code, targets_of, defaults_of, body_code, body_targets, body_defaults, seek_code};
ghost use Rattle.slot_gen.specs.Emission.{around_of, first_place, repeated_code, switched_code};

use crate::blocks::{emit_condition, emit_inits, emit_part, emit_pointed, put_result, put_zeros};
use crate::emit::{place, put};
use crate::expressions::emit_expr;
use crate::jumps::{end_choice, put_jump};
use crate::labels::{first_default, put_labels};
use crate::loops::{
    Around, begin_loop, deeper, end_loop, end_switch, in_loop, in_switch, put_leave, put_nothing,
    put_return,
};
use crate::within::Within;
use c_tree::{Pointed, Stmt};
use slot_ir::SlotOp;
use std::alloc::AllocError;

/// The code of a statement, with so many locals in scope.
#[cycle(stmt)]
fn emit_stmt(
    within: &Within,
    code: &mut Vec<SlotOp>,
    around: Around,
    scope: u32,
    s: &Stmt,
) -> Result<(), AllocError>
    ensures { OnOk result (code.new.items ≡ code.old.items ++ stmt_code within.now.program.now within.now.number (around_of around) scope (length code.old.items) s.now) }
{
    match s {
        Stmt::Value(_, e) => emit_part(within, code, e.as_ref()),
        Stmt::Block(_, locals, body, _, _) => {
            put_zeros(code, locals.as_slice())?;
            emit_inits(within, code, locals.as_slice())?;
            emit_stmts(within, code, around, deeper(scope, locals.len())?, body)?;
            put(code, SlotOp::Leave { scope })
        }
        Stmt::If(_, q, a, b) => {
            let test = emit_condition(within, code, q)?;
            emit_stmt(within, code, around, scope, a)?;
            let over = put_jump(code)?;
            match b {
                None => end_choice(code, 0, test, over),
                Some(b) => {
                    emit_stmt(within, code, around, scope, b)?;
                    end_choice(code, 0, test, over)
                }
            }
        }
        Stmt::While(_, q, body) => emit_loop(within, code, scope, true, None, Some(q), body),
        Stmt::Do(_, body, q) => emit_loop(within, code, scope, false, None, Some(q), body),
        Stmt::For(_, first, q, third, body) => {
            emit_part(within, code, first.as_ref())?;
            emit_loop(within, code, scope, true, third.as_ref(), q.as_ref(), body)
        }
        Stmt::Switch(_, q, body) => {
            emit_pointed(within, code, q)?;
            emit_switch(within, code, around, scope, body)
        }
        Stmt::Case(_, _, s) => emit_stmt(within, code, around, scope, s),
        Stmt::Default(_, s) => emit_stmt(within, code, around, scope, s),
        Stmt::Break(_) => put_leave(code, around.leave_scope, around.leave),
        Stmt::Continue(_) => put_leave(code, around.again_scope, around.again),
        Stmt::Return(_, q, e) => {
            put(code, SlotOp::Stop { point: *q })?;
            match e {
                None => put_nothing(code),
                Some(e) => {
                    emit_expr(within, code, 0, e)?;
                    put_result(within, code)?;
                    put_return(code)
                }
            }
        }
    }
}

/// The code of statements one after another.
#[cycle(stmt)]
pub fn emit_stmts(
    within: &Within,
    code: &mut Vec<SlotOp>,
    around: Around,
    scope: u32,
    body: &[Stmt],
) -> Result<(), AllocError>
    ensures { OnOk result (code.new.items ≡ code.old.items ++ stmts_code within.now.program.now within.now.number (around_of around) scope (length code.old.items) body.now) }
{
    for s in body {
        emit_stmt(within, code, around, scope, s)?;
    }
    Ok(())
}

/// The code of a loop whose test and third part may be missing, and whose test is first in a `while` and a `for`.
#[cycle(stmt)]
fn emit_loop(
    within: &Within,
    code: &mut Vec<SlotOp>,
    scope: u32,
    first: bool,
    third: Option<&Pointed>,
    q: Option<&Pointed>,
    body: &Stmt,
) -> Result<(), AllocError>
    ensures { OnOk result (code.new.items ≡ code.old.items ++ repeated_code within.now.program.now within.now.number scope (length code.old.items) first (option_map (λ r. r.now) third.entry) (option_map (λ r. r.now) q.entry) body.now) }
{
    let head = begin_loop(within, code, third, q)?;
    let around = in_loop(head.start, scope)?;
    emit_stmt(within, code, around, scope, body)?;
    end_loop(code, head, first)
}

/// The code of a `switch` behind its test.
#[cycle(stmt)]
fn emit_switch(
    within: &Within,
    code: &mut Vec<SlotOp>,
    around: Around,
    scope: u32,
    body: &Stmt,
) -> Result<(), AllocError>
    ensures { OnOk result (code.new.items ≡ code.old.items ++ switched_code within.now.program.now within.now.number (around_of around) scope (length code.old.items) body.now) }
{
    let start = put_jump(code)?;
    put(code, SlotOp::Jump { place: 0 })?;
    let inside = in_switch(start, scope, around)?;
    let mut labels = Vec::new(within.alloc);
    let default = emit_body(within, code, inside, scope, &mut labels, body)?;
    end_switch(code, start, &labels, default)
}

/// The statements of a `switch`, and its labels. Gives the place of `default`.
#[cycle(stmt)]
fn emit_body(
    within: &Within,
    code: &mut Vec<SlotOp>,
    around: Around,
    scope: u32,
    labels: &mut Vec<SlotOp>,
    body: &Stmt,
) -> Result<Option<u32>, AllocError>
    ensures code { OnOk result (code.new.items ≡ code.old.items ++ body_code within.now.program.now within.now.number (around_of around) scope (length code.old.items) body.now) }
    ensures labels { OnOk result (labels.new.items ≡ labels.old.items ++ seek_code (body_targets within.now.program.now within.now.number (around_of around) scope (length code.old.items) body.now)) }
    ensures default { IfOk result (λ o. o ≡ first_place (body_defaults within.now.program.now within.now.number (around_of around) scope (length code.old.items) body.now)) }
{
    match body {
        Stmt::Block(_, _, statements, _, _) => {
            emit_cases(within, code, around, scope, labels, statements)
        }
        _ => Ok(None),
    }
}

/// The same of statements one after another.
#[cycle(stmt)]
fn emit_cases(
    within: &Within,
    code: &mut Vec<SlotOp>,
    around: Around,
    scope: u32,
    labels: &mut Vec<SlotOp>,
    body: &[Stmt],
) -> Result<Option<u32>, AllocError>
    ensures code { OnOk result (code.new.items ≡ code.old.items ++ stmts_code within.now.program.now within.now.number (around_of around) scope (length code.old.items) body.now) }
    ensures labels { OnOk result (labels.new.items ≡ labels.old.items ++ seek_code (targets_of within.now.program.now within.now.number (around_of around) scope (length code.old.items) body.now)) }
    ensures default { IfOk result (λ o. o ≡ first_place (defaults_of within.now.program.now within.now.number (around_of around) scope (length code.old.items) body.now)) }
{
    let mut default = None;
    for s in body {
        let at = place(code)?;
        put_labels(labels, at, s)?;
        default = first_default(default, at, s);
        emit_stmt(within, code, around, scope, s)?;
    }
    Ok(default)
}
