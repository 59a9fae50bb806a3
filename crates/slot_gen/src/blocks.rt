// The code of declarations, and of expressions at stopping points.
ghost use Rattle.std.specs.Prelude.{◌≡◌, ◌+◌, [], ◌∷◌, ◌++◌, IfOk, OnOk, Some, length, option_map, slice_get};
ghost use Rattle.c_source.specs.Blocks.{locals_in, local_type as declared_type, result_type as given_type};
ghost use Rattle.slot_ir.specs.declared.code.SlotOp.TheVariants.{LocalAddress};
ghost use Rattle.slot_gen.specs.Expressions.{cast_code, unless_register, write_at};
ghost use Rattle.slot_gen.specs.Statements.{part_code, test_code, zeros_code, init_code, inits_code};

use crate::emit::{put, put_cast, put_write};
use crate::expressions::emit_expr;
use crate::jumps::put_test;
use crate::registers::in_register;
use crate::within::Within;
use c_tree::{CType, DeclaredLocal, Function, Local, Pointed};
use slot_ir::SlotOp;
use std::alloc::AllocError;

/// The locals of the function.
fn locals<'a>(within: &Within<'a>) -> &'a [Local]
    ensures { result.now ≡ locals_in (slice_get within.now.program.now.functions within.now.number) }
{
    match function(within) {
        None => &[],
        Some(function) => function.locals.as_slice(),
    }
}

/// A function of the program.
fn function<'a>(within: &Within<'a>) -> Option<&'a Function>
    ensures { option_map (λ r. r.now) result ≡ slice_get within.now.program.now.functions within.now.number }
{
    within
        .program
        .functions
        .as_slice()
        .get(within.number as usize)
}

/// The row of a local.
fn local_row<'a>(within: &Within<'a>, local: u32) -> Option<&'a Local>
    ensures { option_map (λ r. r.now) result ≡ slice_get (locals_in (slice_get within.now.program.now.functions within.now.number)) local }
{
    locals(within).get(local as usize)
}

/// The value in the next temporary is written to a local.
fn put_initial(
    within: &Within,
    code: &mut Vec<SlotOp>,
    local: u32,
    register: Option<u32>,
) -> Result<(), AllocError>
    ensures { OnOk result (code.new.items ≡ code.old.items ++ write_at within.now.program.now within.now.number 0 register (declared_type within.now.program.now within.now.number local)) }
{
    match local_row(within, local) {
        None => put_write(code, 0, register, &CType::Void),
        Some(row) => put_write(code, 0, register, &row.ctype),
    }
}

/// A value is converted to the type of the function's result.
pub fn put_result(within: &Within, code: &mut Vec<SlotOp>) -> Result<(), AllocError>
    ensures { OnOk result (code.new.items ≡ code.old.items ++ cast_code 0 (given_type within.now.program.now within.now.number)) }
{
    match function(within) {
        None => put_cast(code, 0, &CType::Void),
        Some(function) => put_cast(code, 0, &function.result),
    }
}

/// The objects of a block's locals, made anew.
pub fn put_zeros(code: &mut Vec<SlotOp>, locals: &[DeclaredLocal]) -> Result<(), AllocError>
    ensures { OnOk result (code.new.items ≡ code.old.items ++ zeros_code locals.now) }
{
    for declared in locals {
        put(
            code,
            SlotOp::Zero {
                local: declared.local,
            },
        )?;
    }
    Ok(())
}

/// An expression at its stopping point, whose value is dropped.
pub fn emit_pointed(within: &Within, code: &mut Vec<SlotOp>, q: &Pointed) -> Result<(), AllocError>
    ensures { OnOk result (code.new.items ≡ code.old.items ++ part_code within.now.program.now within.now.number (length code.old.items) (Some q.now)) }
{
    put(code, SlotOp::Stop { point: q.point })?;
    emit_expr(within, code, 0, &q.e)
}

/// The same of one that may be missing.
pub fn emit_part(
    within: &Within,
    code: &mut Vec<SlotOp>,
    part: Option<&Pointed>,
) -> Result<(), AllocError>
    ensures { OnOk result (code.new.items ≡ code.old.items ++ part_code within.now.program.now within.now.number (length code.old.items) (option_map (λ r. r.now) part.entry)) }
{
    match part {
        None => Ok(()),
        Some(q) => emit_pointed(within, code, q),
    }
}

/// A test at its stopping point, and a jump where it fails, whose place is not known yet. Gives where the jump stands.
pub fn emit_condition(
    within: &Within,
    code: &mut Vec<SlotOp>,
    q: &Pointed,
) -> Result<u32, AllocError>
    ensures there { IfOk result (λ at. at + 1 ≡ length code.new.items) }
    ensures test { OnOk result (code.new.items ≡ code.old.items ++ test_code within.now.program.now within.now.number (length code.old.items) (Some q.now) 0) }
{
    emit_pointed(within, code, q)?;
    let at = put_test(code, 0)?;
    Ok(at)
}

/// The same of a test that may be missing.
pub fn emit_test(
    within: &Within,
    code: &mut Vec<SlotOp>,
    q: Option<&Pointed>,
) -> Result<(), AllocError>
    ensures { OnOk result (code.new.items ≡ code.old.items ++ test_code within.now.program.now within.now.number (length code.old.items) (option_map (λ r. r.now) q.entry) 0) }
{
    match q {
        None => Ok(()),
        Some(q) => {
            emit_condition(within, code, q)?;
            Ok(())
        }
    }
}

/// Where a local stands that is not in a register.
fn put_home(code: &mut Vec<SlotOp>, local: u32, register: Option<u32>) -> Result<(), AllocError>
    ensures { OnOk result (code.new.items ≡ code.old.items ++ unless_register register (LocalAddress 0 local ∷ [])) }
{
    match register {
        None => put(code, SlotOp::LocalAddress { to: 0, local }),
        Some(_) => Ok(()),
    }
}

/// An initializer, which is an assignment to its local.
fn emit_init(
    within: &Within,
    code: &mut Vec<SlotOp>,
    local: u32,
    q: &Pointed,
) -> Result<(), AllocError>
    ensures { OnOk result (code.new.items ≡ code.old.items ++ init_code within.now.program.now within.now.number (length code.old.items) local (Some q.now)) }
{
    let register = in_register(within.registers, local);
    put(code, SlotOp::Stop { point: q.point })?;
    put_home(code, local, register)?;
    emit_expr(within, code, 1, &q.e)?;
    put_initial(within, code, local, register)
}

/// The initializer of a local, which may be missing.
fn emit_declared(
    within: &Within,
    code: &mut Vec<SlotOp>,
    declared: &DeclaredLocal,
) -> Result<(), AllocError>
    ensures { OnOk result (code.new.items ≡ code.old.items ++ init_code within.now.program.now within.now.number (length code.old.items) declared.now.local declared.now.init) }
{
    match &declared.init {
        None => Ok(()),
        Some(q) => emit_init(within, code, declared.local, q),
    }
}

/// The initializers of a block's locals.
pub fn emit_inits(
    within: &Within,
    code: &mut Vec<SlotOp>,
    locals: &[DeclaredLocal],
) -> Result<(), AllocError>
    ensures { OnOk result (code.new.items ≡ code.old.items ++ inits_code within.now.program.now within.now.number (length code.old.items) locals.now) }
{
    for declared in locals {
        emit_declared(within, code, declared)?;
    }
    Ok(())
}
