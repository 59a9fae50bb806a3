// The flat code of functions.
ghost use Rattle.std.specs.Prelude.{◌≡◌, ◌++◌, map, IfOk, OnOk, length};
ghost use Rattle.flat_gen.specs.Codes.{first_kind as kind_of_first, landing_by, arguments, params_code, stop_code, one_code, ops_code, starts_from, code_by, starts_by, starts_of as starts_in, place_of, flat_function as function_of};

use crate::codes::emit_op;
use crate::emit::{next, place, put};
use crate::layout::{Layout, layout_of};
use crate::within::Within;
use flat_ir::{FlatFunction, FlatOp, Landing};
use ldb_words::{Kind, Many};
use slot_ir::{Home, SlotCode, SlotFunction, SlotLocal, SlotOp};
use std::alloc::{AllocError, Global};

/// What the first leaf of a local holds.
fn first_kind(local: &SlotLocal) -> Kind
    ensures { result ≡ kind_of_first local.now.leaves }
{
    match local.leaves.as_slice().first() {
        Some(leaf) => leaf.kind,
        None => Kind::Word,
    }
}

/// Where a parameter is put.
fn landing(within: &Within, number: u32, local: &SlotLocal) -> Result<Landing, AllocError>
    ensures { IfOk result (λ p. p ≡ landing_by within.now.slots.now within.now.function.now within.now.layout.now within.now.starts.now number local.now local.now.home) }
{
    match local.home {
        Home::Block => Ok(Landing::Frame {
            at: within.local_at(number)?,
            kind: first_kind(local),
        }),
        Home::Register(register) => Ok(Landing::Register(register)),
    }
}

/// The parameters put in their places.
fn emit_arguments(
    within: &Within,
    code: &mut Vec<FlatOp>,
    params: &[SlotLocal],
) -> Result<(), AllocError>
    ensures { OnOk result (code.new.items ≡ code.old.items ++ arguments within.now.slots.now within.now.function.now within.now.layout.now within.now.starts.now 0 params.now) }
{
    let mut number = 0;
    for local in params {
        put(
            code,
            FlatOp::Argument {
                number,
                landing: landing(within, number, local)?,
            },
        )?;
        number = next(number)?;
    }
    Ok(())
}

/// The same where the frame is not too great.
fn emit_params(within: &Within, code: &mut Vec<FlatOp>) -> Result<(), AllocError>
    ensures { OnOk result (code.new.items ≡ code.old.items ++ params_code within.now.slots.now within.now.function.now within.now.layout.now within.now.starts.now) }
{
    if !within.layout.fits {
        return Ok(());
    }
    let locals = within.function.locals.as_slice();
    let params = locals
        .get(..within.function.params as usize)
        .ok_or(AllocError)?;
    emit_arguments(within, code, params)
}

/// The stopping point that an operator may be.
fn emit_stop(code: &mut Vec<FlatOp>, op: &SlotOp) -> Result<(), AllocError>
    ensures { OnOk result (code.new.items ≡ code.old.items ++ stop_code op.now) }
{
    match op {
        SlotOp::Stop { point } => put(code, FlatOp::Stop { point: *point }),
        _ => Ok(()),
    }
}

/// The code of an operator; of one in a frame that is too great only a stopping point is kept.
fn emit_one(within: &Within, code: &mut Vec<FlatOp>, op: &SlotOp) -> Result<(), AllocError>
    ensures { OnOk result (code.new.items ≡ code.old.items ++ one_code within.now.slots.now within.now.function.now within.now.layout.now within.now.starts.now op.now) }
{
    if within.layout.fits {
        emit_op(within, code, op)
    } else {
        emit_stop(code, op)
    }
}

/// The code of operators, and where that of each begins.
fn emit_ops(
    within: &Within,
    code: &mut Vec<FlatOp>,
    starts: &mut Vec<u32>,
    ops: &[SlotOp],
) -> Result<(), AllocError>
    ensures code { OnOk result (code.new.items ≡ code.old.items ++ ops_code within.now.slots.now within.now.function.now within.now.layout.now within.now.starts.now ops.now) }
    ensures starts { OnOk result (starts.new.items ≡ starts.old.items ++ starts_from within.now.slots.now within.now.function.now within.now.layout.now within.now.starts.now (length code.old.items) ops.now) }
{
    for op in ops {
        starts.push(place(code)?)?;
        emit_one(within, code, op)?;
    }
    Ok(())
}

/// Code, and where that of each operator begins.
#[derive(Drop)]
struct Begun {
    code: Vec<FlatOp>,
    starts: Vec<u32>,
}

/// The code of a function, where that of each place in its slot code begins at these; and where it does begin.
fn emit_function(alloc: Global, within: &Within) -> Result<Begun, AllocError>
    ensures code { IfOk result (λ b. b.code.items ≡ code_by within.now.slots.now within.now.function.now within.now.layout.now within.now.starts.now) }
    ensures starts { IfOk result (λ b. b.starts.items ≡ starts_by within.now.slots.now within.now.function.now within.now.layout.now within.now.starts.now) }
{
    let mut code = Vec::new(alloc);
    let mut starts = Vec::new(alloc);
    emit_params(within, &mut code)?;
    emit_ops(
        within,
        &mut code,
        &mut starts,
        within.function.code.as_slice(),
    )?;
    Ok(Begun { code, starts })
}

/// Where the flat code of each place in a function's slot code begins. How many operators there are does not depend on where jumps go.
#[tactic(auto, unfolding(crate::specs::Codes::starts_of))]
fn starts_of(
    alloc: Global,
    slots: &SlotCode,
    function: &SlotFunction,
    layout: &Layout,
) -> Result<Vec<u32>, AllocError>
    ensures { IfOk result (λ s. s.items ≡ starts_in slots.now function.now layout.now) }
{
    let nowhere = Within {
        slots,
        function,
        layout,
        starts: &[],
    };
    let begun = emit_function(alloc, &nowhere)?;
    Ok(begun.starts)
}

/// The places of the stopping points in the flat code.
fn places_of(alloc: Global, within: &Within, places: &[u32]) -> Result<Many<u32>, AllocError>
    ensures { IfOk result (λ ps. ps ≡ map (place_of within.now.starts.now) places.now) }
{
    let mut found = Vec::new(alloc);
    for place in places {
        found.push(within.start(*place))?;
    }
    Ok(Many::from_vec(found))
}

/// The flat code of a function, whose frame begins with so many bytes of the target's own.
#[tactic(auto, unfolding(crate::specs::Codes::flat_function, crate::specs::Codes::function_code))]
pub fn flat_function(
    alloc: Global,
    linkage: u32,
    slots: &SlotCode,
    function: &SlotFunction,
) -> Result<FlatFunction, AllocError>
    ensures { IfOk result (λ f. f ≡ function_of linkage slots.now function.now) }
{
    let layout = layout_of(alloc, linkage, function)?;
    let starts = starts_of(alloc, slots, function, &layout)?;
    let within = Within {
        slots,
        function,
        layout: &layout,
        starts: &starts,
    };
    let begun = emit_function(alloc, &within)?;
    let places = places_of(alloc, &within, function.places.as_slice())?;
    Ok(FlatFunction {
        frame: layout.frame,
        locals: layout.locals,
        code: Many::from_vec(begun.code),
        places,
    })
}
