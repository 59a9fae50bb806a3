// The code of functions.
ghost use Rattle.std.specs.Prelude.{◌≡◌, [], ◌∷◌, ◌++◌, length, IfOk, OnOk};
ghost use Rattle.gen_parts.specs.Names.{function_name as name_of_function};
ghost use Rattle.gen_parts.specs.Text.{ops_insns, ops_offsets, function_insns, functions_insns};
ghost use Rattle.gen_parts.specs.Parts.{named, end_of_returns, function_uses, function_row, functions_uses, functions_names, functions_rows};

use crate::coder::Coder;
use crate::names::function_name;
use crate::parts::{Parts, add_name, offset};
use crate::rows::Spots;
use crate::uses::{Around, put_all_uses};
use flat_ir::{FlatFunction, FlatOp};
use slot_ir::SlotFunction;
use std::alloc::{AllocError, Global};

/// The instructions of operators, and where in the text those of each begin.
fn put_ops<T: Coder>(
    alloc: Global,
    code: &mut Vec<T::Insn>,
    frame: u32,
    ops: &[FlatOp],
) -> Result<Vec<u32>, AllocError>
    ensures code { OnOk result (code.new.items ≡ code.old.items ++ ops_insns T.coding frame ops.now) }
    ensures places { IfOk result (λ ps. ps.items ≡ ops_offsets T.coding frame (length code.old.items) ops.now) }
{
    let mut places = Vec::new(alloc);
    for op in ops {
        places.push(offset::<T>(code)?)?;
        T::put_op(code, frame, op)?;
    }
    Ok(places)
}

/// Where the end of a function is, for targets whose returns jump there.
fn end_of_returns(by_end: bool, at: u32) -> Option<u32>
    ensures { result ≡ end_of_returns by_end at }
{
    if by_end { Some(at) } else { None }
}

/// A function: its code, its uses, its name and its row.
#[tactic(auto, unfolding(crate::specs::Text::function_insns, crate::specs::Parts::function_uses, crate::specs::Parts::function_row))]
fn add_function<T: Coder>(
    alloc: Global,
    parts: &mut Parts<T>,
    number: u32,
    slots: &SlotFunction,
    function: &FlatFunction,
) -> Result<(), AllocError>
    ensures code { OnOk result (parts.new.code.items ≡ parts.old.code.items ++ function_insns T.coding function.now) }
    ensures uses { OnOk result (parts.new.uses.items ≡ parts.old.uses.items ++ function_uses T.coding number (length parts.old.code.items) function.now) }
    ensures names { OnOk result (parts.new.names.items ≡ parts.old.names.items ++ named (length parts.old.code.items) (name_of_function number) ∷ []) }
    ensures rows { OnOk result (parts.new.rows.items ≡ parts.old.rows.items ++ function_row T.coding (length parts.old.code.items) slots.now function.now ∷ []) }
{
    add_name(parts, function_name(alloc, number)?)?;
    let entry = offset::<T>(&parts.code)?;
    T::put_prologue(&mut parts.code, function.frame)?;
    let ops = function.code.as_slice();
    let places = put_ops::<T>(alloc, &mut parts.code, function.frame, ops)?;
    let epilogue = offset::<T>(&parts.code)?;
    T::put_epilogue(&mut parts.code, function.frame)?;
    let end = offset::<T>(&parts.code)?;
    let shape = T::shape();
    let around = Around {
        number,
        entry,
        places: &places,
        epilogue: end_of_returns(shape.returns_by_end, epilogue),
        jump_word: shape.jump_word,
    };
    put_all_uses(alloc, &mut parts.uses, &around, ops)?;
    let spots = Spots {
        entry,
        end,
        places: &places,
    };
    parts.rows.push(T::row(alloc, slots, function, &spots)?)?;
    Ok(())
}

/// The functions.
pub fn add_functions<T: Coder>(
    alloc: Global,
    parts: &mut Parts<T>,
    slots: &[SlotFunction],
    functions: &[FlatFunction],
) -> Result<(), AllocError>
    ensures code { OnOk result (parts.new.code.items ≡ parts.old.code.items ++ functions_insns T.coding functions.now) }
    ensures uses { OnOk result (parts.new.uses.items ≡ parts.old.uses.items ++ functions_uses T.coding 0 (length parts.old.code.items) functions.now) }
    ensures names { OnOk result (parts.new.names.items ≡ parts.old.names.items ++ functions_names T.coding 0 (length parts.old.code.items) functions.now) }
    ensures rows { OnOk result (parts.new.rows.items ≡ parts.old.rows.items ++ functions_rows T.coding (length parts.old.code.items) slots.now functions.now) }
{
    let mut number: u32 = 0;
    for function in functions {
        let row = slots.get(number as usize).ok_or(AllocError)?;
        add_function(alloc, parts, number, row, function)?;
        number = number.checked_add(1).ok_or(AllocError)?;
    }
    Ok(())
}
