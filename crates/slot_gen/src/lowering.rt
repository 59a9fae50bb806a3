// The slot code of a program.
ghost use Rattle.std.specs.Prelude.{◌≡◌, IfOk, not, ◌&&◌, bytes_eq, codes};
ghost use Rattle.c_source.specs.Begin.{main_from};
ghost use Rattle.slot_gen.specs.Correct.{Lowers};
ghost use Rattle.slot_gen.specs.Rows.{HasRowsOf, IsLowerable};

use crate::emit::next;
use crate::rows::{lower_functions, lower_objects, lower_strings, lower_structs};
use c_tree::{Function, Program};
use slot_ir::SlotCode;
use std::alloc::{AllocError, Global};

/// The number of `main`, the external function of that name, or how many functions there are.
fn main_number(functions: &[Function]) -> Result<u32, AllocError>
    ensures { IfOk result (λ n. n ≡ main_from 0 functions.now) }
{
    let mut number = 0;
    for function in functions {
        if is_main(function) {
            return Ok(number);
        }
        number = next(number)?;
    }
    Ok(number)
}

/// Whether a function is external and called `main`.
fn is_main(function: &Function) -> bool
    ensures { result ≡ not function.now.is_static && bytes_eq function.now.name (codes "main") }
{
    !function.is_static && function.name.as_bytes() == b"main".as_slice()
}

/// The slot code of a program: a row for each of its functions, whose code is the function's, and for each of its structs and static objects; its strings; and the number of `main`.
/// It passes the program's stopping points in order, with the same objects, activations, output and exit number, for every input and all assignments made at the stops, up to the program's first undefined step. It shows nothing else, and takes at most two steps for each counted unit of the program.
pub fn lower(alloc: Global, program: &Program) -> Result<SlotCode, AllocError>
    requires { IsLowerable program.now }
    ensures rows { IfOk result (λ code. HasRowsOf program.now code) }
    ensures runs { IfOk result (λ code. Lowers program.now code) }
{
    let functions = lower_functions(alloc, program, program.functions.as_slice())?;
    let main = main_number(program.functions.as_slice())?;
    let objects = lower_objects(alloc, program, program.objects.as_slice())?;
    let strings = lower_strings(alloc, program.strings.as_slice())?;
    let structs = lower_structs(alloc, program, program.defs.as_slice())?;
    Ok(SlotCode {
        functions,
        main,
        objects,
        strings,
        structs,
    })
}
