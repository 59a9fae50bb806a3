// The code of functions.
ghost use Rattle.std.specs.Prelude.{◌≡◌, [], ◌∷◌, ◌++◌, Some, IfOk, OnOk, length, slice_get};
ghost use Rattle.c_tree.specs.Rows.{declared_in, statements_in};
ghost use Rattle.c_source.specs.Control.{outermost_of};
ghost use Rattle.c_tree.specs.Points.{first_of, last_of};
ghost use Rattle.slot_ir.specs.declared.code.SlotOp.TheVariants.{Jump, Leave, Return, Stop};
ghost use Rattle.slot_gen.specs.Statements.{body_place, function_code, nowhere as outside, zero_code as zero};
ghost use Rattle.slot_gen.specs.Emission.{around_of, whole_body};

use crate::blocks::{emit_inits, put_zeros};
use crate::emit::put;
use crate::loops::{Around, deeper, put_return};
use crate::registers::registers;
use crate::statements::emit_stmts;
use crate::within::Within;
use c_tree::{CType, DeclaredLocal, Function, Program, Stmt};
use slot_ir::SlotOp;
use std::alloc::{AllocError, Global};

/// Where a function's body begins.
const BODY: u32 = 5;

/// The declarations of a block.
fn declared(body: &Stmt) -> &[DeclaredLocal]
    ensures { result.now ≡ declared_in body.now }
{
    match body {
        Stmt::Block(_, locals, _, _, _) => locals.as_slice(),
        _ => &[],
    }
}

/// The statements of a block.
fn statements(body: &Stmt) -> &[Stmt]
    ensures { result.now ≡ statements_in body.now }
{
    match body {
        Stmt::Block(_, _, statements, _, _) => statements,
        _ => &[],
    }
}

/// The first point of a function.
pub fn first_point(points: &[u32]) -> u32
    ensures { result ≡ first_of points.now }
{
    match points.first() {
        None => 0,
        Some(q) => *q,
    }
}

/// The last point of a function.
fn last_point(points: &[u32]) -> u32
    ensures { result ≡ last_of points.now }
{
    let mut last = 0;
    for q in points {
        last = *q;
    }
    last
}

/// The first operators of a function: its first point, a jump to its body, and its end.
fn put_frame(code: &mut Vec<SlotOp>, function: &Function, scope: u32) -> Result<(), AllocError>
    ensures { OnOk result (code.new.items ≡ code.old.items ++ Stop (first_of function.now.points) ∷ Jump body_place ∷ Leave scope ∷ Stop (last_of function.now.points) ∷ Return 0 ∷ []) }
{
    let points = function.points.as_slice();
    put(
        code,
        SlotOp::Stop {
            point: first_point(points),
        },
    )?;
    put(code, SlotOp::Jump { place: BODY })?;
    put(code, SlotOp::Leave { scope })?;
    put(
        code,
        SlotOp::Stop {
            point: last_point(points),
        },
    )?;
    put(code, SlotOp::Return { at: 0 })
}

/// A result of 0, of a function whose end is reached.
fn put_zero(code: &mut Vec<SlotOp>, t: &CType) -> Result<(), AllocError>
    ensures { OnOk result (code.new.items ≡ code.old.items ++ zero t.now ∷ []) }
{
    match t {
        CType::Pointer(_) => put(code, SlotOp::Null { to: 0 }),
        _ => put(code, SlotOp::Const { to: 0, bits: 0 }),
    }
}

/// The number of locals of a function's outermost block, its parameters among them.
fn outermost(function: &Function) -> Result<u32, AllocError>
    ensures { IfOk result (λ n. n ≡ outermost_of function.now) }
{
    deeper(function.params, declared(&function.body).len())
}

/// Outside all loops.
fn nowhere() -> Around
    ensures { around_of result ≡ outside }
{
    Around {
        leave: 0,
        leave_scope: 0,
        again: 0,
        again_scope: 0,
    }
}

/// The code of a function's body, behind its first operators.
fn emit_body(
    within: &Within,
    code: &mut Vec<SlotOp>,
    function: &Function,
    scope: u32,
) -> Result<(), AllocError>
    ensures { OnOk result (code.new.items ≡ code.old.items ++ whole_body within.now.program.now within.now.number scope (length code.old.items) function.now) }
{
    let locals = declared(&function.body);
    put_zeros(code, locals)?;
    emit_inits(within, code, locals)?;
    emit_stmts(within, code, nowhere(), scope, statements(&function.body))?;
    put_zero(code, &function.result)?;
    put_return(code)
}

/// The code of a function by its number.
pub fn emit_function(
    alloc: Global,
    program: &Program,
    number: u32,
    function: &Function,
) -> Result<Vec<SlotOp>, AllocError>
    requires { slice_get program.now.functions number ≡ Some function.now }
    ensures { IfOk result (λ code. code.items ≡ function_code program.now number function.now) }
{
    let registers = registers(alloc, function.locals.as_slice())?;
    let within = Within {
        alloc,
        program,
        number,
        registers: &registers,
    };
    let scope = outermost(function)?;
    let mut code = Vec::new(alloc);
    put_frame(&mut code, function, scope)?;
    emit_body(&within, &mut code, function, scope)?;
    Ok(code)
}
