// The code that copies structs. A is where to, B is where from; `$11` is the address of the words that a copy keeps, which lie from the end of the stack on: its return address, and the counts of items.
ghost use Rattle.std.specs.Prelude.{◌≡◌, ◌++◌, true, false, OnOk};
ghost use Rattle.mips_gen.specs.Movers.{leaf_load as load_of_leaf, leaf_store as store_of_leaf, leaf_bytes as bytes_of_leaf, back_by as back_by_of, leaf_insns, skip_insns, items_insns, over_item as over_item_of, again_insns, struct_insns, step_insns, copy_begin, copy_end, choice_insns};

use crate::instructions::{addiu, addu, beq, bne, j, jal, jr, lb, lui, lw, no_op, sb, sltu, sw};
use crate::registers::{A, B, OWN, OWN_TOO, RETURN_ADDRESS, STACK_END_HIGH, ZERO};
use crate::writing::{put, put_all, put_word};
use flat_ir::MoveStep;
use ldb_words::Kind;
use mips_isa::Insn;
use std::alloc::AllocError;

/// The load of a leaf.
fn leaf_load(kind: Kind) -> Insn
    ensures { result ≡ load_of_leaf kind }
{
    match kind {
        Kind::Byte => lb(OWN, B, 0),
        Kind::Word | Kind::Address => lw(OWN, B, 0),
    }
}

/// The store of a leaf.
fn leaf_store(kind: Kind) -> Insn
    ensures { result ≡ store_of_leaf kind }
{
    match kind {
        Kind::Byte => sb(OWN, A, 0),
        Kind::Word | Kind::Address => sw(OWN, A, 0),
    }
}

/// The bytes of a leaf.
fn leaf_bytes(kind: Kind) -> u16
    ensures { result ≡ bytes_of_leaf kind }
{
    match kind {
        Kind::Byte => 1,
        Kind::Word | Kind::Address => 4,
    }
}

/// The negative of a number of bytes, in 16 bits.
fn back_by(bytes: u16) -> u16
    ensures { result ≡ back_by_of bytes }
{
    (0xffff - bytes).wrapping_add(1)
}

/// A leaf, from its start on.
fn put_leaf(code: &mut Vec<Insn>, kind: Kind) -> Result<(), AllocError>
    ensures { OnOk result (code.new.items ≡ code.old.items ++ leaf_insns false kind) }
{
    let bytes = leaf_bytes(kind);
    put_all(
        code,
        &[
            leaf_load(kind),
            no_op(),
            leaf_store(kind),
            addiu(A, A, bytes),
            addiu(B, B, bytes),
        ],
    )
}

/// A leaf, from its end back.
fn put_leaf_back(code: &mut Vec<Insn>, kind: Kind) -> Result<(), AllocError>
    ensures { OnOk result (code.new.items ≡ code.old.items ++ leaf_insns true kind) }
{
    let back = back_by(leaf_bytes(kind));
    put_all(
        code,
        &[
            addiu(A, A, back),
            addiu(B, B, back),
            leaf_load(kind),
            no_op(),
            leaf_store(kind),
        ],
    )
}

/// Both places moved on.
fn put_skip(code: &mut Vec<Insn>, bytes: u32) -> Result<(), AllocError>
    ensures { OnOk result (code.new.items ≡ code.old.items ++ skip_insns bytes) }
{
    put_word(code, OWN, bytes)?;
    put_all(code, &[addu(A, A, OWN), addu(B, B, OWN)])
}

/// Where the count of items is kept, behind where the copy was called.
const COUNT_AT: u16 = 4;

/// So many items follow.
fn put_items(code: &mut Vec<Insn>, count: u32) -> Result<(), AllocError>
    ensures { OnOk result (code.new.items ≡ code.old.items ++ items_insns count) }
{
    put_word(code, OWN, count)?;
    put(code, sw(OWN, OWN_TOO, COUNT_AT))
}

/// The branch back, from its slot, over the code of an item and five words behind it.
fn over_item(step: MoveStep) -> u16
    ensures { result ≡ over_item_of step }
{
    match step {
        MoveStep::Leaf(_) => 0xfff6,
        _ => 0xfff7,
    }
}

/// An item is done, whose step comes before this one.
fn put_again(code: &mut Vec<Insn>, before: MoveStep) -> Result<(), AllocError>
    ensures { OnOk result (code.new.items ≡ code.old.items ++ again_insns before) }
{
    put_all(
        code,
        &[
            lw(OWN, OWN_TOO, COUNT_AT),
            no_op(),
            addiu(OWN, OWN, 0xffff),
            sw(OWN, OWN_TOO, COUNT_AT),
            bne(OWN, ZERO, over_item(before)),
            no_op(),
        ],
    )
}

/// A struct inside, whose words lie behind those of this copy.
fn put_struct(code: &mut Vec<Insn>, words: u8) -> Result<(), AllocError>
    ensures { OnOk result (code.new.items ≡ code.old.items ++ struct_insns words) }
{
    let bytes = 4 * u16::from(words);
    put_all(
        code,
        &[
            addiu(OWN_TOO, OWN_TOO, bytes),
            jal(),
            no_op(),
            addiu(OWN_TOO, OWN_TOO, back_by(bytes)),
        ],
    )
}

/// A leaf in a direction.
fn put_leaf_of(code: &mut Vec<Insn>, back: bool, kind: Kind) -> Result<(), AllocError>
    ensures { OnOk result (code.new.items ≡ code.old.items ++ leaf_insns back kind) }
{
    if back {
        put_leaf_back(code, kind)
    } else {
        put_leaf(code, kind)
    }
}

/// A step, behind another.
pub fn put_step(
    code: &mut Vec<Insn>,
    back: bool,
    before: MoveStep,
    step: MoveStep,
) -> Result<(), AllocError>
    ensures { OnOk result (code.new.items ≡ code.old.items ++ step_insns back before step) }
{
    match step {
        MoveStep::Leaf(kind) => put_leaf_of(code, back, kind),
        MoveStep::Skip(bytes) => put_skip(code, bytes),
        MoveStep::Items(count) => put_items(code, count),
        MoveStep::Again => put_again(code, before),
        MoveStep::Struct { number: _, words } => put_struct(code, words),
    }
}

/// The beginning of a copy in a direction, which keeps its return address.
pub fn put_copy_begin(code: &mut Vec<Insn>) -> Result<(), AllocError>
    ensures { OnOk result (code.new.items ≡ code.old.items ++ copy_begin) }
{
    put(code, sw(RETURN_ADDRESS, OWN_TOO, 0))
}

/// The end of a copy in a direction, which returns.
pub fn put_copy_end(code: &mut Vec<Insn>) -> Result<(), AllocError>
    ensures { OnOk result (code.new.items ≡ code.old.items ++ copy_end) }
{
    put_all(
        code,
        &[
            lw(RETURN_ADDRESS, OWN_TOO, 0),
            no_op(),
            jr(RETURN_ADDRESS),
            no_op(),
        ],
    )
}

/// The beginning of the copy of a struct, before the one that ascends: where the place to copy to lies above the one to copy from, the copy descends from their ends.
pub fn put_choice(code: &mut Vec<Insn>, size: u32) -> Result<(), AllocError>
    ensures { OnOk result (code.new.items ≡ code.old.items ++ choice_insns size) }
{
    put_all(
        code,
        &[
            lui(OWN_TOO, STACK_END_HIGH),
            sltu(OWN, B, A),
            beq(OWN, ZERO, 7),
            no_op(),
        ],
    )?;
    put_word(code, OWN, size)?;
    put_all(code, &[addu(A, A, OWN), addu(B, B, OWN), j(), no_op()])
}
