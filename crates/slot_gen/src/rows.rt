// The rows of a program's slot code.
ghost use Rattle.std.specs.Prelude.{◌≡◌, ℕ, ◌++◌, Some, IfOk, OnOk, map, option_map, slice_get};
ghost use Rattle.c_tree.specs.declared.rows.Start.TheVariants.{Number};
ghost use Rattle.c_tree.specs.Layout.{leaves_of as leaves_in};
ghost use Rattle.c_tree.specs.Ordered.{AllLaidOut};
ghost use Rattle.slot_gen.specs.Expressions.{register_at, registers_from};
ghost use Rattle.slot_gen.specs.Rows.{EachFrom, IsLocalOf, IsFunctionOf, IsStructOf, IsObjectOf, home_of as home, width_of as width, value_of as value, start_of as slot_start, one_start, starts_of, item_of as item, items_of as items, member_of as slot_member};

use crate::emit::next;
use crate::functions::emit_function;
use crate::places::{places, temporaries};
use crate::registers::registers;
use crate::translate::{access_of, bytes_of};
use c_tree::{
    CType, Function, Leaf, Local, Member, ObjectRow, Program, Start, StructDef, leaves,
    leaves_ascend,
};
use ldb_words::{Kind, Many, Text};
use slot_ir::{
    Home, SlotFunction, SlotItem, SlotLocal, SlotMember, SlotObject, SlotStart, SlotStruct,
    SlotValue,
};
use std::alloc::{AllocError, Global};

/// The leaves of a type.
fn leaves_of(alloc: Global, t: &CType, defs: &[StructDef]) -> Result<Many<Leaf>, AllocError>
    requires { AllLaidOut defs.now }
    ensures { IfOk result (λ ls. ls ≡ leaves_in defs.now t.now) }
{
    leaves_ascend();
    match leaves(alloc, t, defs) {
        Ok(all) => Ok(Many::from_vec(all)),
        Err(_) => Err(AllocError),
    }
}

/// Where a local is.
fn home_of(registers: &[Option<u32>], x: u32) -> Result<Home, AllocError>
    ensures { IfOk result (λ h. h ≡ home (register_at registers.now x)) }
{
    match registers.get(x as usize) {
        Some(Some(register)) => {
            let register = u8::try_from(*register).map_err(|_| AllocError)?;
            Ok(Home::Register(register))
        }
        Some(None) | None => Ok(Home::Block),
    }
}

/// The row of a local.
fn lower_local(
    alloc: Global,
    program: &Program,
    registers: &[Option<u32>],
    x: u32,
    local: &Local,
) -> Result<SlotLocal, AllocError>
    requires { AllLaidOut program.now.defs }
    ensures { IfOk result (λ row. IsLocalOf program.now registers.now x local.now row) }
{
    let home = home_of(registers, x)?;
    let size = bytes_of(&local.ctype, program.defs.as_slice())?;
    let leaves = leaves_of(alloc, &local.ctype, program.defs.as_slice())?;
    Ok(SlotLocal {
        home,
        access: access_of(&local.ctype),
        size,
        leaves,
    })
}

/// The rows of locals, of which these are in registers.
fn lower_each(
    alloc: Global,
    program: &Program,
    registers: &[Option<u32>],
    locals: &[Local],
) -> Result<Many<SlotLocal>, AllocError>
    requires { AllLaidOut program.now.defs }
    ensures { IfOk result (λ rows. EachFrom (IsLocalOf program.now registers.now) 0 locals.now rows) }
{
    let mut rows = Vec::new(alloc);
    let mut x = 0;
    for local in locals {
        rows.push(lower_local(alloc, program, registers, x, local)?)?;
        x = next(x)?;
    }
    Ok(Many::from_vec(rows))
}

/// The rows of a function's locals.
fn lower_locals(
    alloc: Global,
    program: &Program,
    locals: &[Local],
) -> Result<Many<SlotLocal>, AllocError>
    requires { AllLaidOut program.now.defs }
    ensures { IfOk result (λ rows. EachFrom (IsLocalOf program.now (registers_from locals.now 0)) 0 locals.now rows) }
{
    let registers = registers(alloc, locals)?;
    lower_each(alloc, program, &registers, locals)
}

/// The row of a function.
fn lower_function(
    alloc: Global,
    program: &Program,
    number: u32,
    function: &Function,
) -> Result<SlotFunction, AllocError>
    requires laid_out { AllLaidOut program.now.defs }
    requires there { slice_get program.now.functions number ≡ Some function.now }
    ensures { IfOk result (λ row. IsFunctionOf program.now number function.now row) }
{
    let code = emit_function(alloc, program, number, function)?;
    let points = function.points.as_slice();
    let places = places(alloc, points, &code)?;
    Ok(SlotFunction {
        name: Text::from_slice(alloc, function.name.as_bytes())?,
        params: function.params,
        locals: lower_locals(alloc, program, function.locals.as_slice())?,
        temporaries: temporaries(&code)?,
        points: Many::from_vec(Vec::from_slice(alloc, points)?),
        places: Many::from_vec(places),
        code: Many::from_vec(code),
    })
}

/// The rows of the functions.
pub fn lower_functions(
    alloc: Global,
    program: &Program,
    functions: &[Function],
) -> Result<Many<SlotFunction>, AllocError>
    requires laid_out { AllLaidOut program.now.defs }
    requires all { functions.now ≡ program.now.functions }
    ensures { IfOk result (λ rows. EachFrom (IsFunctionOf program.now) 0 functions.now rows) }
{
    let mut rows = Vec::new(alloc);
    let mut number = 0;
    for function in functions {
        rows.push(lower_function(alloc, program, number, function)?)?;
        number = next(number)?;
    }
    Ok(Many::from_vec(rows))
}

/// What a member of a type has items of.
fn item_of(t: &CType) -> SlotItem
    ensures { result ≡ item t.now }
{
    match t {
        CType::Char | CType::Void => SlotItem::Scalar(Kind::Byte),
        CType::Int | CType::Unsigned => SlotItem::Scalar(Kind::Word),
        CType::Pointer(_) => SlotItem::Scalar(Kind::Address),
        CType::Array(held, _) => item_of(held),
        CType::Struct(number) => SlotItem::Struct(*number),
    }
}

/// How many items a member of a type has.
fn items_of(t: &CType) -> Result<u32, AllocError>
    ensures { IfOk result (λ n. n ≡ items t.now) }
{
    match t {
        CType::Array(held, n) => n.checked_mul(items_of(held)?).ok_or(AllocError),
        CType::Void => Ok(0),
        CType::Char | CType::Int | CType::Unsigned | CType::Pointer(_) | CType::Struct(_) => Ok(1),
    }
}

/// The row of a member.
fn lower_member(member: &Member) -> Result<SlotMember, AllocError>
    ensures { IfOk result (λ row. row ≡ slot_member member.now) }
{
    Ok(SlotMember {
        at: member.at,
        items: items_of(&member.ctype)?,
        item: item_of(&member.ctype),
    })
}

/// The rows of members.
fn lower_members(alloc: Global, members: &[Member]) -> Result<Many<SlotMember>, AllocError>
    ensures { IfOk result (λ rows. rows ≡ map slot_member members.now) }
{
    let mut rows = Vec::new(alloc);
    for member in members {
        rows.push(lower_member(member)?)?;
    }
    Ok(Many::from_vec(rows))
}

/// The row of a struct.
fn lower_struct(
    alloc: Global,
    program: &Program,
    number: u32,
    def: &StructDef,
) -> Result<SlotStruct, AllocError>
    requires { AllLaidOut program.now.defs }
    ensures { IfOk result (λ row. IsStructOf program.now number def.now row) }
{
    let leaves = leaves_of(alloc, &CType::Struct(number), program.defs.as_slice())?;
    let members = lower_members(alloc, def.members.as_slice())?;
    Ok(SlotStruct {
        size: def.size,
        members,
        leaves,
    })
}

/// The rows of the structs.
pub fn lower_structs(
    alloc: Global,
    program: &Program,
    defs: &[StructDef],
) -> Result<Many<SlotStruct>, AllocError>
    requires { AllLaidOut program.now.defs }
    ensures { IfOk result (λ rows. EachFrom (IsStructOf program.now) 0 defs.now rows) }
{
    let mut rows = Vec::new(alloc);
    let mut number = 0;
    for def in defs {
        rows.push(lower_struct(alloc, program, number, def)?)?;
        number = next(number)?;
    }
    Ok(Many::from_vec(rows))
}

/// What a leaf holds at first.
fn start_of(leaf: Leaf, start: Start) -> SlotStart
    ensures { result ≡ slot_start leaf start }
{
    SlotStart {
        at: leaf.at,
        width: width_of(leaf.kind),
        value: value_of(leaf.kind, start),
    }
}

/// The bytes of a leaf.
fn width_of(kind: Kind) -> u8
    ensures { result ≡ width kind }
{
    match kind {
        Kind::Byte => 1,
        Kind::Word | Kind::Address => 4,
    }
}

/// What a leaf of a kind holds at first.
fn value_of(kind: Kind, start: Start) -> SlotValue
    ensures { result ≡ value kind start }
{
    match start {
        Start::Number(bits) => number_of(kind, bits),
        Start::Object { object, offset } => SlotValue::Object { object, offset },
        Start::Str(string) => SlotValue::Str(string),
    }
}

/// A number that a leaf holds at first; an address that is a number is null.
fn number_of(kind: Kind, bits: u32) -> SlotValue
    ensures { result ≡ value kind (Number bits) }
{
    match kind {
        Kind::Byte | Kind::Word => SlotValue::Number(bits),
        Kind::Address => SlotValue::Null,
    }
}

/// What a leaf holds at first, where there is such a leaf and a start for it.
fn push_start(
    rows: &mut Vec<SlotStart>,
    leaf: Option<&Leaf>,
    start: Option<&Start>,
) -> Result<(), AllocError>
    ensures { OnOk result (rows.new.items ≡ rows.old.items ++ one_start (option_map (λ r. r.now) leaf.entry) (option_map (λ r. r.now) start.entry)) }
{
    match (leaf, start) {
        (Some(leaf), Some(start)) => {
            rows.push(start_of(*leaf, *start))?;
            Ok(())
        }
        _ => Ok(()),
    }
}

/// A leaf by its number.
fn leaf_at(leaves: &[Leaf], i: usize) -> Option<&Leaf>
    ensures { option_map (λ r. r.now) result ≡ slice_get leaves.now i }
{
    leaves.get(i)
}

/// What a leaf holds at first, by its number.
fn start_at(starts: &[Start], i: usize) -> Option<&Start>
    ensures { option_map (λ r. r.now) result ≡ slice_get starts.now i }
{
    starts.get(i)
}

/// What the leaves of an object hold at first.
fn lower_starts(
    alloc: Global,
    leaves: &[Leaf],
    starts: &[Start],
) -> Result<Many<SlotStart>, AllocError>
    ensures { IfOk result (λ rows. rows ≡ starts_of leaves.now starts.now) }
{
    let mut rows = Vec::new(alloc);
    for i in 0..leaves.len() {
        push_start(&mut rows, leaf_at(leaves, i), start_at(starts, i))?;
    }
    Ok(Many::from_vec(rows))
}

/// The row of a static object.
fn lower_object(alloc: Global, program: &Program, row: &ObjectRow) -> Result<SlotObject, AllocError>
    requires { AllLaidOut program.now.defs }
    ensures { (o : ℕ) → IfOk result (λ made. IsObjectOf program.now o row.now made) }
{
    let size = bytes_of(&row.ctype, program.defs.as_slice())?;
    let leaves = leaves_of(alloc, &row.ctype, program.defs.as_slice())?;
    let start = lower_starts(alloc, leaves.as_slice(), row.start.as_slice())?;
    let name = Text::from_slice(alloc, row.name.as_bytes())?;
    Ok(SlotObject { name, size, start })
}

/// The rows of the static objects.
pub fn lower_objects(
    alloc: Global,
    program: &Program,
    objects: &[ObjectRow],
) -> Result<Many<SlotObject>, AllocError>
    requires { AllLaidOut program.now.defs }
    ensures { IfOk result (λ rows. EachFrom (IsObjectOf program.now) 0 objects.now rows) }
{
    let mut rows = Vec::new(alloc);
    for row in objects {
        rows.push(lower_object(alloc, program, row)?)?;
    }
    Ok(Many::from_vec(rows))
}

/// The strings.
pub fn lower_strings(alloc: Global, strings: &[Text]) -> Result<Many<Text>, AllocError>
    ensures { IfOk result (λ rows. rows ≡ strings.now) }
{
    let mut rows = Vec::new(alloc);
    for text in strings {
        rows.push(Text::from_slice(alloc, text.as_bytes())?)?;
    }
    Ok(Many::from_vec(rows))
}
