// Where the text of flat operators names addresses.

ghost use Rattle.std.specs.Prelude.{◌≡◌, ◌+◌, ◌*◌, [], ◌∷◌, ◌++◌, IfOk, OnOk};
ghost use Rattle.obj_file.specs.declared.object.Form.TheVariants.{High as the_high, Low as the_low};
ghost use Rattle.gen_parts.specs.Names.{object_name as name_of_object};
ghost use Rattle.gen_parts.specs.Uses.{text_use, offset_of, own_use as use_of_own, op_uses, ops_uses};

use crate::names::{function_name, mover_name, object_name};
use flat_ir::FlatOp;
use ldb_words::Text;
use obj_file::{Form, Use};
use std::alloc::{AllocError, Global};

/// A function that is made: its number; where in the text it begins, and the code of each place of its flat code; where its end begins, if that is jumped to; and which word of a conditional jump, counted from 0, is the jump.
#[derive(Drop)]
pub struct Around<'a> {
    pub number: u32,
    pub entry: u32,
    pub places: &'a [u32],
    pub epilogue: Option<u32>,
    pub jump_word: u32,
}

/// A use in the text.
pub fn put_use(
    uses: &mut Vec<Use>,
    at: u32,
    form: Form,
    name: Text,
    add: u32,
) -> Result<(), AllocError>
    ensures { OnOk result (uses.new.items ≡ uses.old.items ++ text_use at form name add ∷ []) }
{
    uses.push(Use {
        in_text: true,
        at,
        form,
        name,
        add,
    })?;
    Ok(())
}

/// So many words behind an offset in the text.
pub fn words_on(at: u32, words: u32) -> Result<u32, AllocError>
    ensures { IfOk result (λ n. n ≡ at + words * 4) }
{
    let bytes = words.checked_mul(4).ok_or(AllocError)?;
    at.checked_add(bytes).ok_or(AllocError)
}

/// The upper and the lower half of an object's address.
fn use_object(alloc: Global, uses: &mut Vec<Use>, at: u32, object: u32) -> Result<(), AllocError>
    ensures { OnOk result (uses.new.items ≡ uses.old.items ++ text_use at the_high (name_of_object object) 0 ∷ text_use (at + 4) the_low (name_of_object object) 0 ∷ []) }
{
    put_use(uses, at, Form::High, object_name(alloc, object)?, 0)?;
    put_use(
        uses,
        words_on(at, 1)?,
        Form::Low,
        object_name(alloc, object)?,
        0,
    )
}

/// A jump to an offset in the text of the same function.
fn use_own(
    alloc: Global,
    uses: &mut Vec<Use>,
    around: &Around,
    at: u32,
    target: u32,
) -> Result<(), AllocError>
    ensures { OnOk result (uses.new.items ≡ uses.old.items ++ use_of_own around.now.number around.now.entry around.now.places.now around.now.epilogue around.now.jump_word at target ∷ []) }
{
    let add = target.checked_sub(around.entry).ok_or(AllocError)?;
    let name = function_name(alloc, around.number)?;
    put_use(uses, at, Form::Jump, name, add)
}

/// Where the code of a place begins.
pub fn offset_of(offsets: &[u32], place: u32) -> Result<u32, AllocError>
    ensures { IfOk result (λ n. n ≡ offset_of offsets.now place) }
{
    offsets.get(place as usize).copied().ok_or(AllocError)
}

/// The uses of an operator, whose code begins at an offset in the text.
fn put_uses(
    alloc: Global,
    uses: &mut Vec<Use>,
    around: &Around,
    at: u32,
    op: &FlatOp,
) -> Result<(), AllocError>
    ensures { OnOk result (uses.new.items ≡ uses.old.items ++ op_uses around.now.number around.now.entry around.now.places.now around.now.epilogue around.now.jump_word at op.now) }
{
    match *op {
        FlatOp::StaticAddress { to: _, object } => use_object(alloc, uses, at, object),
        FlatOp::Copy { shape } => put_use(uses, at, Form::Jump, mover_name(alloc, shape)?, 0),
        FlatOp::Call { function } => {
            put_use(uses, at, Form::Jump, function_name(alloc, function)?, 0)
        }
        FlatOp::Jump { place } => use_own(
            alloc,
            uses,
            around,
            at,
            offset_of(around.places, place)?,
        ),
        FlatOp::JumpIf { zero: _, place } => use_own(
            alloc,
            uses,
            around,
            words_on(at, around.jump_word)?,
            offset_of(around.places, place)?,
        ),
        FlatOp::Return => match around.epilogue {
            Some(epilogue) => use_own(alloc, uses, around, words_on(at, 1)?, epilogue),
            None => Ok(()),
        },
        _ => Ok(()),
    }
}

/// The uses of operators, each of whose code begins at its place.
pub fn put_all_uses(
    alloc: Global,
    uses: &mut Vec<Use>,
    around: &Around,
    ops: &[FlatOp],
) -> Result<(), AllocError>
    ensures { OnOk result (uses.new.items ≡ uses.old.items ++ ops_uses around.now.number around.now.entry around.now.places.now around.now.epilogue around.now.jump_word around.now.places.now ops.now) }
{
    let mut i: usize = 0;
    for op in ops {
        let Some(at) = around.places.get(i) else {
            return Err(AllocError);
        };
        put_uses(alloc, uses, around, *at, op)?;
        i += 1;
    }
    Ok(())
}
