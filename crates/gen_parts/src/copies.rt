// The code that copies structs.
ghost use Rattle.std.specs.Prelude.{◌≡◌, ◌+◌, ◌++◌, length, IfOk, OnOk};
ghost use Rattle.gen_parts.specs.Text.{copy_insns, mover_insns, movers_insns};
ghost use Rattle.gen_parts.specs.Parts.{direction_name as name_of_direction, step_uses, copy_uses, choice_uses, mover_uses, mover_names, movers_uses, movers_names};

use crate::coder::Coder;
use crate::names::{ascending_name, descending_name, mover_name};
use crate::parts::{Parts, add_name, offset};
use crate::uses::{put_use, words_on};
use flat_ir::{MoveStep, Mover};
use ldb_words::Text;
use obj_file::{Form, Use};
use std::alloc::{AllocError, Global};

/// The name of the copy of a struct in a direction.
fn direction_name(alloc: Global, number: u32, back: bool) -> Result<Text, AllocError>
    ensures { IfOk result (λ t. t ≡ name_of_direction back number) }
{
    if back {
        descending_name(alloc, number)
    } else {
        ascending_name(alloc, number)
    }
}

/// The call of a step that copies a struct, whose code begins at an offset.
fn use_step(
    alloc: Global,
    uses: &mut Vec<Use>,
    back: bool,
    at: u32,
    step: MoveStep,
) -> Result<(), AllocError>
    ensures { OnOk result (uses.new.items ≡ uses.old.items ++ step_uses back at step) }
{
    match step {
        MoveStep::Struct { number, words: _ } => {
            let name = direction_name(alloc, number, back)?;
            put_use(uses, words_on(at, 1)?, Form::Jump, name, 0)
        }
        _ => Ok(()),
    }
}

/// The copy of a struct in a direction.
fn add_copy<T: Coder>(
    alloc: Global,
    parts: &mut Parts<T>,
    back: bool,
    steps: &[MoveStep],
) -> Result<(), AllocError>
    ensures code { OnOk result (parts.new.code.items ≡ parts.old.code.items ++ copy_insns T.coding back steps.now) }
    ensures uses { OnOk result (parts.new.uses.items ≡ parts.old.uses.items ++ copy_uses T.coding back (length parts.old.code.items) steps.now) }
    ensures names { OnOk result (parts.new.names.items ≡ parts.old.names.items) }
    ensures rows { OnOk result (parts.new.rows.items ≡ parts.old.rows.items) }
{
    let mut before = MoveStep::Again;
    T::put_copy_begin(&mut parts.code)?;
    for step in steps {
        let at = offset::<T>(&parts.code)?;
        use_step(alloc, &mut parts.uses, back, at, *step)?;
        T::put_step(&mut parts.code, back, before, *step)?;
        before = *step;
    }
    T::put_copy_end(&mut parts.code)
}

/// The beginning of the code that copies a struct, which goes on with the copy that ascends or jumps to the one that descends.
fn add_choice<T: Coder>(
    alloc: Global,
    parts: &mut Parts<T>,
    number: u32,
    size: u32,
) -> Result<(), AllocError>
    ensures code { OnOk result (parts.new.code.items ≡ parts.old.code.items ++ T.coding.choice size) }
    ensures uses { OnOk result (parts.new.uses.items ≡ parts.old.uses.items ++ choice_uses T.coding number (length parts.old.code.items)) }
    ensures names { OnOk result (parts.new.names.items ≡ parts.old.names.items) }
    ensures rows { OnOk result (parts.new.rows.items ≡ parts.old.rows.items) }
{
    let at = words_on(offset::<T>(&parts.code)?, T::shape().choice_jump)?;
    let name = descending_name(alloc, number)?;
    put_use(&mut parts.uses, at, Form::Jump, name, 0)?;
    T::put_choice(&mut parts.code, size)
}

/// The code that copies a struct.
#[tactic(auto, unfolding(crate::specs::Text::mover_insns, crate::specs::Parts::mover_uses, crate::specs::Parts::mover_names))]
fn add_mover<T: Coder>(
    alloc: Global,
    parts: &mut Parts<T>,
    number: u32,
    mover: &Mover,
) -> Result<(), AllocError>
    ensures code { OnOk result (parts.new.code.items ≡ parts.old.code.items ++ mover_insns T.coding mover.now) }
    ensures uses { OnOk result (parts.new.uses.items ≡ parts.old.uses.items ++ mover_uses T.coding number (length parts.old.code.items) mover.now) }
    ensures names { OnOk result (parts.new.names.items ≡ parts.old.names.items ++ mover_names T.coding number (length parts.old.code.items) mover.now) }
    ensures rows { OnOk result (parts.new.rows.items ≡ parts.old.rows.items) }
{
    add_name(parts, mover_name(alloc, number)?)?;
    add_choice(alloc, parts, number, mover.size)?;
    add_name(parts, ascending_name(alloc, number)?)?;
    add_copy(alloc, parts, false, mover.ascending.as_slice())?;
    add_name(parts, descending_name(alloc, number)?)?;
    add_copy(alloc, parts, true, mover.descending.as_slice())
}

/// The code that copies each struct.
pub fn add_movers<T: Coder>(
    alloc: Global,
    parts: &mut Parts<T>,
    movers: &[Mover],
) -> Result<(), AllocError>
    ensures code { OnOk result (parts.new.code.items ≡ parts.old.code.items ++ movers_insns T.coding movers.now) }
    ensures uses { OnOk result (parts.new.uses.items ≡ parts.old.uses.items ++ movers_uses T.coding 0 (length parts.old.code.items) movers.now) }
    ensures names { OnOk result (parts.new.names.items ≡ parts.old.names.items ++ movers_names T.coding 0 (length parts.old.code.items) movers.now) }
    ensures rows { OnOk result (parts.new.rows.items ≡ parts.old.rows.items) }
{
    let mut number: u32 = 0;
    for mover in movers {
        add_mover(alloc, parts, number, mover)?;
        number = number.checked_add(1).ok_or(AllocError)?;
    }
    Ok(())
}
