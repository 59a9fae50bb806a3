// The code that copies structs. A is where to, B is where from; `%g4` is the address of the words that a copy keeps, which lie from the end of the stack on: its return address, and the counts of items.
ghost use Rattle.std.specs.Prelude.{◌≡◌, ◌≤◌, ◌++◌, true, false, OnOk};
ghost use Rattle.sparc_gen.specs.Movers.{leaf_load as load_of_leaf, leaf_store as store_of_leaf, leaf_bytes as bytes_of_leaf, leaf_insns, skip_insns, items_insns, again_insns, struct_insns, step_insns, copy_begin, copy_end, choice_insns};

use crate::instructions::{
    add, branch, by_bits, by_register, call, jmpl, ld, ldub, no_op, or, st, stb, sub, subcc,
};
use crate::registers::{A, B, CALLED_FROM, KEPT, OWN, OWN_TOO, STACK_END, ZERO};
use crate::writing::{put, put_all, put_word};
use flat_ir::MoveStep;
use ldb_words::Kind;
use sparc_isa::{Condition, Insn};
use std::alloc::AllocError;

/// The load of a leaf.
fn leaf_load(kind: Kind) -> Insn
    ensures { result ≡ load_of_leaf kind }
{
    match kind {
        Kind::Byte => ldub(OWN, B, by_bits(0)),
        Kind::Word | Kind::Address => ld(OWN, B, by_bits(0)),
    }
}

/// The store of a leaf.
fn leaf_store(kind: Kind) -> Insn
    ensures { result ≡ store_of_leaf kind }
{
    match kind {
        Kind::Byte => stb(OWN, A, by_bits(0)),
        Kind::Word | Kind::Address => st(OWN, A, by_bits(0)),
    }
}

/// The bytes of a leaf.
fn leaf_bytes(kind: Kind) -> u16
    ensures value { result ≡ bytes_of_leaf kind }
    ensures in_range { result ≤ 4 }
{
    match kind {
        Kind::Byte => 1,
        Kind::Word | Kind::Address => 4,
    }
}

/// A leaf, from its start on.
fn put_leaf(code: &mut Vec<Insn>, kind: Kind) -> Result<(), AllocError>
    ensures { OnOk result (code.new.items ≡ code.old.items ++ leaf_insns false kind) }
{
    let bytes = leaf_bytes(kind);
    put_all(
        code,
        &[
            leaf_load(kind),
            leaf_store(kind),
            add(A, A, by_bits(bytes)),
            add(B, B, by_bits(bytes)),
        ],
    )
}

/// A leaf, from its end back.
fn put_leaf_back(code: &mut Vec<Insn>, kind: Kind) -> Result<(), AllocError>
    ensures { OnOk result (code.new.items ≡ code.old.items ++ leaf_insns true kind) }
{
    let bytes = leaf_bytes(kind);
    put_all(
        code,
        &[
            sub(A, A, by_bits(bytes)),
            sub(B, B, by_bits(bytes)),
            leaf_load(kind),
            leaf_store(kind),
        ],
    )
}

/// Both places moved on.
fn put_skip(code: &mut Vec<Insn>, bytes: u32) -> Result<(), AllocError>
    ensures { OnOk result (code.new.items ≡ code.old.items ++ skip_insns bytes) }
{
    put_word(code, OWN, bytes)?;
    put_all(
        code,
        &[add(A, A, by_register(OWN)), add(B, B, by_register(OWN))],
    )
}

/// Where the count of items is kept, behind where the copy was called.
const COUNT_AT: u16 = 4;

/// So many items follow.
fn put_items(code: &mut Vec<Insn>, count: u32) -> Result<(), AllocError>
    ensures { OnOk result (code.new.items ≡ code.old.items ++ items_insns count) }
{
    put_word(code, OWN, count)?;
    put(code, st(OWN, OWN_TOO, by_bits(COUNT_AT)))
}

/// An item is done, whose code is of four words. The branch goes back over it and the three words of this before.
fn put_again(code: &mut Vec<Insn>) -> Result<(), AllocError>
    ensures { OnOk result (code.new.items ≡ code.old.items ++ again_insns) }
{
    put_all(
        code,
        &[
            ld(OWN, OWN_TOO, by_bits(COUNT_AT)),
            subcc(OWN, OWN, by_bits(1)),
            st(OWN, OWN_TOO, by_bits(COUNT_AT)),
            branch(Condition::NotEqual, 0x3f_fff9),
            no_op(),
        ],
    )
}

/// A struct inside, whose words lie behind those of this copy.
fn put_struct(code: &mut Vec<Insn>, words: u8) -> Result<(), AllocError>
    ensures { OnOk result (code.new.items ≡ code.old.items ++ struct_insns words) }
{
    let bytes = 4 * u16::from(words);
    put_all(
        code,
        &[
            add(OWN_TOO, OWN_TOO, by_bits(bytes)),
            call(),
            no_op(),
            sub(OWN_TOO, OWN_TOO, by_bits(bytes)),
        ],
    )
}

/// A leaf in a direction.
fn put_leaf_of(code: &mut Vec<Insn>, back: bool, kind: Kind) -> Result<(), AllocError>
    ensures { OnOk result (code.new.items ≡ code.old.items ++ leaf_insns back kind) }
{
    if back {
        put_leaf_back(code, kind)
    } else {
        put_leaf(code, kind)
    }
}

/// A step, behind another.
pub fn put_step(code: &mut Vec<Insn>, back: bool, step: MoveStep) -> Result<(), AllocError>
    ensures { OnOk result (code.new.items ≡ code.old.items ++ step_insns back step) }
{
    match step {
        MoveStep::Leaf(kind) => put_leaf_of(code, back, kind),
        MoveStep::Skip(bytes) => put_skip(code, bytes),
        MoveStep::Items(count) => put_items(code, count),
        MoveStep::Again => put_again(code),
        MoveStep::Struct { number: _, words } => put_struct(code, words),
    }
}

/// The beginning of a copy in a direction, which keeps where it was called.
pub fn put_copy_begin(code: &mut Vec<Insn>) -> Result<(), AllocError>
    ensures { OnOk result (code.new.items ≡ code.old.items ++ copy_begin) }
{
    put(code, st(CALLED_FROM, OWN_TOO, by_bits(0)))
}

/// The end of a copy in a direction, which returns.
pub fn put_copy_end(code: &mut Vec<Insn>) -> Result<(), AllocError>
    ensures { OnOk result (code.new.items ≡ code.old.items ++ copy_end) }
{
    put_all(
        code,
        &[
            ld(CALLED_FROM, OWN_TOO, by_bits(0)),
            jmpl(ZERO, CALLED_FROM, by_bits(8)),
            no_op(),
        ],
    )
}

/// The beginning of the copy of a struct, before the one that ascends: where the place to copy to lies above the one to copy from, the copy descends from their ends. The jump there is a call, which would overwrite where this copy was called: its slot puts that back.
pub fn put_choice(code: &mut Vec<Insn>, size: u32) -> Result<(), AllocError>
    ensures { OnOk result (code.new.items ≡ code.old.items ++ choice_insns size) }
{
    put_word(code, OWN_TOO, STACK_END)?;
    put_all(
        code,
        &[
            subcc(ZERO, A, by_register(B)),
            branch(Condition::LessOrEqualUnsigned, 9),
            no_op(),
        ],
    )?;
    put_word(code, OWN, size)?;
    put_all(
        code,
        &[
            add(A, A, by_register(OWN)),
            add(B, B, by_register(OWN)),
            or(KEPT, ZERO, by_register(CALLED_FROM)),
            call(),
            or(CALLED_FROM, ZERO, by_register(KEPT)),
        ],
    )
}
