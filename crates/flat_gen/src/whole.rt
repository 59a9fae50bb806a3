// The flat code of a program.
ghost use Rattle.std.specs.Prelude.{◌≡◌, map, IfOk};
ghost use Rattle.flat_gen.specs.Codes.{flat_function as flat_function_of, flat_code as flat_code_of};

use crate::functions::flat_function;
use crate::movers::movers_of;
use flat_ir::{FlatCode, FlatFunction};
use ldb_words::Many;
use slot_ir::{SlotCode, SlotFunction};
use std::alloc::{AllocError, Global};

/// The flat code of functions.
fn flat_functions(
    alloc: Global,
    linkage: u32,
    slots: &SlotCode,
    functions: &[SlotFunction],
) -> Result<Many<FlatFunction>, AllocError>
    ensures { IfOk result (λ fs. fs ≡ map (flat_function_of linkage slots.now) functions.now) }
{
    let mut rows = Vec::new(alloc);
    for function in functions {
        rows.push(flat_function(alloc, linkage, slots, function)?)?;
    }
    Ok(Many::from_vec(rows))
}

/// The flat code of a program, whose frames begin with so many bytes of the target's own.
#[tactic(auto, unfolding(crate::specs::Codes::flat_code))]
pub fn flat_code(alloc: Global, linkage: u32, slots: &SlotCode) -> Result<FlatCode, AllocError>
    ensures { IfOk result (λ f. f ≡ flat_code_of linkage slots.now) }
{
    let functions = flat_functions(alloc, linkage, slots, slots.functions.as_slice())?;
    let movers = movers_of(alloc, slots)?;
    Ok(FlatCode {
        functions,
        main: slots.main,
        movers,
    })
}
