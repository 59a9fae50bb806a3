// The object of a program.
ghost use Rattle.std.specs.Prelude.{◌≡◌, [], ◌∷◌, ◌++◌, length, codes, IfOk, OnOk};
ghost use Rattle.gen_parts.specs.Names.{function_name as name_of_function};
ghost use Rattle.gen_parts.specs.Text.{program_insns};
ghost use Rattle.gen_parts.specs.Parts.{named, jump_use, program_uses, program_names, program_rows, IsObjectOf};

use crate::coder::Coder;
use crate::copies::add_movers;
use crate::functions::add_functions;
use crate::names::function_name;
use crate::parts::{Parts, add_name, offset, text_of};
use crate::statics::{Data, data_of};
use crate::uses::put_use;
use flat_ir::FlatCode;
use ldb_words::{Many, Text};
use obj_file::{Form, Object, Use};
use slot_ir::SlotCode;
use std::alloc::{AllocError, Global};

/// The start of a program.
fn add_start<T: Coder>(alloc: Global, parts: &mut Parts<T>, main: u32) -> Result<(), AllocError>
    ensures code { OnOk result (parts.new.code.items ≡ parts.old.code.items ++ T.coding.start) }
    ensures uses { OnOk result (parts.new.uses.items ≡ parts.old.uses.items ++ jump_use (length parts.old.code.items) (name_of_function main) ∷ []) }
    ensures names { OnOk result (parts.new.names.items ≡ parts.old.names.items ++ named (length parts.old.code.items) (codes "start") ∷ []) }
    ensures rows { OnOk result (parts.new.rows.items ≡ parts.old.rows.items) }
{
    add_name(parts, Text::from_slice(alloc, b"start")?)?;
    let at = offset::<T>(&parts.code)?;
    let name = function_name(alloc, main)?;
    put_use(&mut parts.uses, at, Form::Jump, name, 0)?;
    T::put_start(&mut parts.code)
}

/// The text, its uses, its names and its rows.
#[tactic(auto, unfolding(crate::specs::Text::program_insns, crate::specs::Parts::program_uses, crate::specs::Parts::program_names, crate::specs::Parts::program_rows))]
fn parts_of<T: Coder>(
    alloc: Global,
    slots: &SlotCode,
    flat: &FlatCode,
) -> Result<Parts<T>, AllocError>
    ensures code { IfOk result (λ p. p.code.items ≡ program_insns T.coding flat.now) }
    ensures uses { IfOk result (λ p. p.uses.items ≡ program_uses T.coding flat.now) }
    ensures names { IfOk result (λ p. p.names.items ≡ program_names T.coding flat.now) }
    ensures rows { IfOk result (λ p. p.rows.items ≡ program_rows T.coding slots.now.functions flat.now) }
{
    let mut parts = Parts {
        code: Vec::new(alloc),
        uses: Vec::new(alloc),
        names: Vec::new(alloc),
        rows: Vec::new(alloc),
    };
    add_start(alloc, &mut parts, flat.main)?;
    add_movers(alloc, &mut parts, flat.movers.as_slice())?;
    add_functions(
        alloc,
        &mut parts,
        slots.functions.as_slice(),
        flat.functions.as_slice(),
    )?;
    Ok(parts)
}

/// The uses in the text, and then those in the static objects.
fn all_uses(text: Vec<Use>, statics: Many<Use>) -> Result<Vec<Use>, AllocError>
    ensures { IfOk result (λ v. v.items ≡ text.items ++ statics) }
{
    let mut all = text;
    let mut others = statics.into_vec();
    all.append(&mut others)?;
    Ok(all)
}

/// The object of a program, by its slot code and its flat code.
pub fn object_of<T: Coder>(
    alloc: Global,
    slots: &SlotCode,
    flat: &FlatCode,
) -> Result<Object, AllocError>
    ensures { IfOk result (λ o. IsObjectOf T.coding slots.now flat.now o) }
{
    let shape = T::shape();
    let data = data_of(alloc, shape.order, slots)?;
    let Parts {
        code,
        uses,
        names,
        rows,
    } = parts_of::<T>(alloc, slots, flat)?;
    let Data {
        statics,
        uses: data_uses,
    } = data;
    let uses = all_uses(uses, data_uses)?;
    Ok(Object {
        target: shape.target,
        text: text_of::<T>(alloc, &code)?,
        names: Many::from_vec(names),
        statics,
        uses: Many::from_vec(uses),
        functions: Many::from_vec(rows),
    })
}
