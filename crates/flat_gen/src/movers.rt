// How structs are copied.
ghost use Rattle.std.specs.Prelude.{◌≡◌, ◌+◌, ◌*◌, [], ◌∷◌, ◌++◌, map, reverse, slice_get, IfOk, OnOk};
ghost use Rattle.ldb_words.specs.Word.{difference_of};
ghost use Rattle.c_tree.specs.Ordered.{width_of};
ghost use Rattle.slot_ir.specs.declared.code.SlotItem.TheVariants.{Struct};
ghost use Rattle.slot_ir.specs.WellFormed.{item_size as size_of_item};
ghost use Rattle.flat_gen.specs.Movers.{only_of, only_in, skip as skip_of, item_step as step_of_item, items_steps, inner as inner_of, innermost as innermost_of, member_steps, end_of as end_of_member, ascending as ascending_of, descending as descending_of, mover as mover_by};

use flat_ir::{MoveStep, Mover};
use ldb_words::{Kind, Many};
use slot_ir::{SlotCode, SlotItem, SlotMember, SlotStruct};
use std::alloc::{AllocError, Global};

/// How deep structs are nested in one another at most.
const DEEPEST: u32 = 64;

/// The bytes of a kind.
fn bytes_of(kind: Kind) -> u32
    ensures { result ≡ width_of kind }
{
    match kind {
        Kind::Byte => 1,
        Kind::Word | Kind::Address => 4,
    }
}

/// The size of a struct by its number.
fn struct_size(slots: &SlotCode, number: u32) -> u32
    ensures { result ≡ size_of_item slots.now (Struct number) }
{
    match slots.structs.as_slice().get(number as usize) {
        Some(row) => row.size,
        None => 0,
    }
}

/// The bytes of an item.
fn item_size(slots: &SlotCode, item: SlotItem) -> u32
    ensures { result ≡ size_of_item slots.now item }
{
    match item {
        SlotItem::Scalar(kind) => bytes_of(kind),
        SlotItem::Struct(number) => struct_size(slots, number),
    }
}

/// The only one of some members.
fn only(members: &[SlotMember]) -> Option<SlotMember>
    ensures { result ≡ only_of members.now }
{
    match members {
        [member] => Some(*member),
        _ => None,
    }
}

/// The only member of a struct that has one.
fn only_member(slots: &SlotCode, number: u32) -> Option<SlotMember>
    ensures { result ≡ only_in (slice_get slots.now.structs number) }
{
    match slots.structs.as_slice().get(number as usize) {
        Some(row) => only(row.members.as_slice()),
        None => None,
    }
}

/// A member with the items of the only member of each of its own.
fn with_items(member: SlotMember, only: SlotMember) -> Result<SlotMember, AllocError>
    ensures { IfOk result (λ m. m ≡ record { at = member.at; items = member.items * only.items; item = only.item }) }
{
    Ok(SlotMember {
        at: member.at,
        items: member.items.checked_mul(only.items).ok_or(AllocError)?,
        item: only.item,
    })
}

/// A member whose items are structs of one member has the items of that one.
fn inner(slots: &SlotCode, member: SlotMember) -> Result<Option<SlotMember>, AllocError>
    ensures { IfOk result (λ m. m ≡ inner_of slots.now member) }
{
    match member.item {
        SlotItem::Scalar(_) => Ok(None),
        SlotItem::Struct(number) => match only_member(slots, number) {
            Some(only) => Ok(Some(with_items(member, only)?)),
            None => Ok(None),
        },
    }
}

/// The same through all structs of one member.
fn innermost(slots: &SlotCode, member: SlotMember) -> Result<SlotMember, AllocError>
    ensures { IfOk result (λ m. m ≡ innermost_of slots.now 64 member) }
{
    let mut found = member;
    for _ in 0..DEEPEST {
        match inner(slots, found)? {
            Some(next) => found = next,
            None => return Ok(found),
        }
    }
    Ok(found)
}

/// The step of an item, in a loop or not.
fn item_step(item: SlotItem, words: u8) -> MoveStep
    ensures { result ≡ step_of_item words item }
{
    match item {
        SlotItem::Scalar(kind) => MoveStep::Leaf(kind),
        SlotItem::Struct(number) => MoveStep::Struct { number, words },
    }
}

/// One more step.
fn put(steps: &mut Vec<MoveStep>, step: MoveStep) -> Result<(), AllocError>
    ensures { OnOk result (steps.new.items ≡ steps.old.items ++ step ∷ []) }
{
    steps.push(step)?;
    Ok(())
}

/// Some items. In a loop a copy keeps two words, where it was called and a count, and else one.
fn add_items(steps: &mut Vec<MoveStep>, items: u32, item: SlotItem) -> Result<(), AllocError>
    ensures { OnOk result (steps.new.items ≡ steps.old.items ++ items_steps items item) }
{
    if items == 1 {
        put(steps, item_step(item, 1))
    } else {
        put(steps, MoveStep::Items(items))?;
        put(steps, item_step(item, 2))?;
        put(steps, MoveStep::Again)
    }
}

/// The steps of a member's items.
fn add_member(
    steps: &mut Vec<MoveStep>,
    slots: &SlotCode,
    member: SlotMember,
) -> Result<(), AllocError>
    ensures { OnOk result (steps.new.items ≡ steps.old.items ++ member_steps slots.now member) }
{
    let found = innermost(slots, member)?;
    add_items(steps, found.items, found.item)
}

/// Both places moved from an offset to another, where these differ.
fn add_skip(steps: &mut Vec<MoveStep>, from: u32, to: u32) -> Result<(), AllocError>
    ensures { OnOk result (steps.new.items ≡ steps.old.items ++ skip_of from to) }
{
    let bytes = to.wrapping_sub(from);
    if bytes == 0 {
        Ok(())
    } else {
        put(steps, MoveStep::Skip(bytes))
    }
}

/// Where a member ends.
fn end_of(slots: &SlotCode, member: SlotMember) -> Result<u32, AllocError>
    ensures { IfOk result (λ n. n ≡ end_of_member slots.now member) }
{
    let bytes = item_size(slots, member.item)
        .checked_mul(member.items)
        .ok_or(AllocError)?;
    member.at.checked_add(bytes).ok_or(AllocError)
}

/// The steps of a copy that ascends.
fn ascending(
    alloc: Global,
    slots: &SlotCode,
    size: u32,
    members: &[SlotMember],
) -> Result<Many<MoveStep>, AllocError>
    ensures { IfOk result (λ s. s ≡ ascending_of slots.now size 0 members.now) }
{
    let mut steps = Vec::new(alloc);
    let mut at: u32 = 0;
    for member in members {
        add_skip(&mut steps, at, member.at)?;
        add_member(&mut steps, slots, *member)?;
        at = end_of(slots, *member)?;
    }
    add_skip(&mut steps, at, size)?;
    Ok(Many::from_vec(steps))
}

/// The members of a struct, the last one first.
fn reversed(alloc: Global, members: &[SlotMember]) -> Result<Vec<SlotMember>, AllocError>
    ensures { IfOk result (λ v. v.items ≡ reverse members.now) }
{
    let mut all = Vec::from_slice(alloc, members)?;
    all.reverse();
    Ok(all)
}

/// The steps of a copy that descends, by the members in that order.
fn descending(
    alloc: Global,
    slots: &SlotCode,
    size: u32,
    members: &[SlotMember],
) -> Result<Many<MoveStep>, AllocError>
    ensures { IfOk result (λ s. s ≡ descending_of slots.now size members.now) }
{
    let mut steps = Vec::new(alloc);
    let mut at = size;
    for member in members {
        add_skip(&mut steps, at, end_of(slots, *member)?)?;
        add_member(&mut steps, slots, *member)?;
        at = member.at;
    }
    add_skip(&mut steps, at, 0)?;
    Ok(Many::from_vec(steps))
}

/// How a struct is copied.
#[tactic(auto, unfolding(crate::specs::Movers::mover))]
fn mover_of(alloc: Global, slots: &SlotCode, row: &SlotStruct) -> Result<Mover, AllocError>
    ensures { IfOk result (λ m. m ≡ mover_by slots.now row.now) }
{
    let members = row.members.as_slice();
    let backward = reversed(alloc, members)?;
    Ok(Mover {
        size: row.size,
        ascending: ascending(alloc, slots, row.size, members)?,
        descending: descending(alloc, slots, row.size, &backward)?,
    })
}

/// How each struct is copied.
pub fn movers_of(alloc: Global, slots: &SlotCode) -> Result<Many<Mover>, AllocError>
    ensures { IfOk result (λ ms. ms ≡ map (mover_by slots.now) slots.now.structs) }
{
    let mut movers = Vec::new(alloc);
    for row in slots.structs.as_slice() {
        movers.push(mover_of(alloc, slots, row)?)?;
    }
    Ok(Many::from_vec(movers))
}
