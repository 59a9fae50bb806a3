// Static objects and strings.
ghost use Rattle.std.specs.Prelude.{◌≡◌, ◌+◌, ◌-◌, ◌%◌, ◌^◌, [], ◌∷◌, ◌++◌, length, IfOk, OnOk};
ghost use Rattle.machine_state.specs.Regions.{bytes_of, zeros};
ghost use Rattle.gen_parts.specs.Names.{object_name as name_of_object};
ghost use Rattle.gen_parts.specs.Statics.{number_bytes, value_bytes, leaf_bytes, data_use, value_uses, start_uses, object_bytes as bytes_of_object, objects_statics, objects_uses, strings_statics, program_statics, data_uses};

use crate::names::object_name;
use ldb_words::{Many, Order, Text};
use obj_file::{Form, StaticDef, Use};
use slot_ir::{SlotCode, SlotObject, SlotStart, SlotValue};
use std::alloc::{AllocError, Global};

/// Static objects, and the addresses in them.
#[derive(Drop)]
pub struct Data {
    pub statics: Many<StaticDef>,
    pub uses: Many<Use>,
}

/// How static objects are made: the byte order, and how many objects there are, behind which strings are numbered.
#[derive(Drop)]
struct Setting {
    order: Order,
    objects: u32,
}

/// A sum of sizes.
fn sum(a: u32, b: u32) -> Result<u32, AllocError>
    ensures { IfOk result (λ n. n ≡ a + b) }
{
    a.checked_add(b).ok_or(AllocError)
}

/// How many bytes there are.
fn size_of(bytes: &[u8]) -> Result<u32, AllocError>
    ensures { IfOk result (λ n. n ≡ length bytes.now) }
{
    u32::try_from(bytes.len()).map_err(|_| AllocError)
}

/// Zeros up to an offset.
#[tactic(auto, unfolding(machine_state::specs::Regions::zeros))]
fn fill(bytes: &mut Vec<u8>, to: u32) -> Result<(), AllocError>
    ensures { OnOk result (bytes.new.items ≡ bytes.old.items ++ zeros (to - length bytes.old.items)) }
{
    let to = to as usize;
    if bytes.len() < to {
        bytes.resize(to, 0)?;
    }
    Ok(())
}

/// The lowest byte of a number.
fn low_byte(bits: u32) -> u8
    ensures { result ≡ bits % 2 ^ 8 }
{
    (bits & 0xff) as u8
}

/// The lowest half of a number.
fn low_half(bits: u32) -> u16
    ensures { result ≡ bits % 2 ^ 16 }
{
    (bits & 0xffff) as u16
}

/// A number of one byte.
fn add_byte(bytes: &mut Vec<u8>, order: Order, number: u8) -> Result<(), AllocError>
    ensures { OnOk result (bytes.new.items ≡ bytes.old.items ++ bytes_of order 1 number) }
{
    match order {
        Order::Little => bytes.extend_from_slice(&number.to_le_bytes()),
        Order::Big => bytes.extend_from_slice(&number.to_be_bytes()),
    }
}

/// A number of two bytes.
fn add_half(bytes: &mut Vec<u8>, order: Order, number: u16) -> Result<(), AllocError>
    ensures { OnOk result (bytes.new.items ≡ bytes.old.items ++ bytes_of order 2 number) }
{
    match order {
        Order::Little => bytes.extend_from_slice(&number.to_le_bytes()),
        Order::Big => bytes.extend_from_slice(&number.to_be_bytes()),
    }
}

/// A number of four bytes.
fn add_word(bytes: &mut Vec<u8>, order: Order, number: u32) -> Result<(), AllocError>
    ensures { OnOk result (bytes.new.items ≡ bytes.old.items ++ bytes_of order 4 number) }
{
    match order {
        Order::Little => bytes.extend_from_slice(&number.to_le_bytes()),
        Order::Big => bytes.extend_from_slice(&number.to_be_bytes()),
    }
}

/// The lowest 1, 2 or 4 bytes of a number.
fn add_number(bytes: &mut Vec<u8>, order: Order, width: u8, bits: u32) -> Result<(), AllocError>
    ensures { OnOk result (bytes.new.items ≡ bytes.old.items ++ number_bytes order width bits) }
{
    if width == 1 {
        add_byte(bytes, order, low_byte(bits))
    } else if width == 2 {
        add_half(bytes, order, low_half(bits))
    } else {
        add_word(bytes, order, bits)
    }
}

/// What a leaf holds at first.
fn add_value(
    bytes: &mut Vec<u8>,
    order: Order,
    width: u8,
    value: SlotValue,
) -> Result<(), AllocError>
    ensures { OnOk result (bytes.new.items ≡ bytes.old.items ++ value_bytes order width value) }
{
    match value {
        SlotValue::Number(bits) => add_number(bytes, order, width, bits),
        SlotValue::Null => add_number(bytes, order, width, 0),
        SlotValue::Object { .. } | SlotValue::Str(_) => bytes.extend_from_slice(&[0, 0, 0, 0]),
    }
}

/// An address of an object in four bytes.
fn add_address(
    alloc: Global,
    uses: &mut Vec<Use>,
    at: u32,
    object: u32,
    offset: u32,
) -> Result<(), AllocError>
    ensures { OnOk result (uses.new.items ≡ uses.old.items ++ data_use at object offset ∷ []) }
{
    uses.push(Use {
        in_text: false,
        at,
        form: Form::Word,
        name: object_name(alloc, object)?,
        add: offset,
    })?;
    Ok(())
}

/// The address that a leaf holds at first, if it holds one.
fn add_use(
    alloc: Global,
    setting: &Setting,
    uses: &mut Vec<Use>,
    at: u32,
    value: SlotValue,
) -> Result<(), AllocError>
    ensures { OnOk result (uses.new.items ≡ uses.old.items ++ value_uses setting.now.objects at value) }
{
    match value {
        SlotValue::Number(_) | SlotValue::Null => Ok(()),
        SlotValue::Object { object, offset } => add_address(alloc, uses, at, object, offset),
        SlotValue::Str(string) => {
            let object = sum(setting.objects, string)?;
            add_address(alloc, uses, at, object, 0)
        }
    }
}

/// A leaf, behind what comes before it; so many bytes of other objects come before these.
#[tactic(auto, using(crate::proofs::Starts::filled_length))]
fn add_start(
    alloc: Global,
    setting: &Setting,
    before: u32,
    uses: &mut Vec<Use>,
    bytes: &mut Vec<u8>,
    start: &SlotStart,
) -> Result<(), AllocError>
    ensures bytes { OnOk result (bytes.new.items ≡ bytes.old.items ++ zeros (start.now.at - length bytes.old.items) ++ leaf_bytes setting.now.order start.now) }
    ensures uses { OnOk result (uses.new.items ≡ uses.old.items ++ value_uses setting.now.objects (before + (length bytes.old.items + (start.now.at - length bytes.old.items))) start.now.value) }
{
    fill(bytes, start.at)?;
    let at = sum(before, size_of(bytes)?)?;
    add_use(alloc, setting, uses, at, start.value)?;
    add_value(bytes, setting.order, start.width, start.value)
}

/// The bytes of a static object.
#[tactic(auto, unfolding(crate::specs::Statics::object_bytes))]
fn object_bytes(
    alloc: Global,
    setting: &Setting,
    before: u32,
    uses: &mut Vec<Use>,
    object: &SlotObject,
) -> Result<Vec<u8>, AllocError>
    ensures bytes { IfOk result (λ v. v.items ≡ bytes_of_object setting.now.order object.now) }
    ensures uses { OnOk result (uses.new.items ≡ uses.old.items ++ start_uses setting.now.order setting.now.objects before 0 object.now.start) }
{
    let mut bytes = Vec::new(alloc);
    for start in object.start.as_slice() {
        add_start(alloc, setting, before, uses, &mut bytes, start)?;
    }
    fill(&mut bytes, object.size)?;
    Ok(bytes)
}

/// A finished object.
fn add_static(
    alloc: Global,
    statics: &mut Vec<StaticDef>,
    number: u32,
    bytes: Vec<u8>,
) -> Result<(), AllocError>
    ensures { OnOk result (statics.new.items ≡ statics.old.items ++ record { name = name_of_object number; bytes = bytes.items } ∷ []) }
{
    statics.push(StaticDef {
        name: object_name(alloc, number)?,
        bytes: Text::from_vec(bytes),
    })?;
    Ok(())
}

/// The static objects.
fn add_objects(
    alloc: Global,
    setting: &Setting,
    statics: &mut Vec<StaticDef>,
    uses: &mut Vec<Use>,
    objects: &[SlotObject],
) -> Result<(), AllocError>
    ensures statics { OnOk result (statics.new.items ≡ statics.old.items ++ objects_statics setting.now.order 0 objects.now) }
    ensures uses { OnOk result (uses.new.items ≡ uses.old.items ++ objects_uses setting.now.order setting.now.objects 0 objects.now) }
{
    let mut number: u32 = 0;
    let mut before: u32 = 0;
    for object in objects {
        let bytes = object_bytes(alloc, setting, before, uses, object)?;
        before = sum(before, size_of(&bytes)?)?;
        add_static(alloc, statics, number, bytes)?;
        number = sum(number, 1)?;
    }
    Ok(())
}

/// The strings, each with its NUL, numbered from a number on.
fn add_strings(
    alloc: Global,
    statics: &mut Vec<StaticDef>,
    first: u32,
    strings: &[Text],
) -> Result<(), AllocError>
    ensures { OnOk result (statics.new.items ≡ statics.old.items ++ strings_statics first strings.now) }
{
    let mut number = first;
    for string in strings {
        let mut bytes = Vec::from_slice(alloc, string.as_bytes())?;
        bytes.push(0)?;
        add_static(alloc, statics, number, bytes)?;
        number = sum(number, 1)?;
    }
    Ok(())
}

/// The static objects and then the strings of a program, for a byte order.
#[tactic(auto, unfolding(crate::specs::Statics::program_statics, crate::specs::Statics::data_uses))]
pub fn data_of(alloc: Global, order: Order, slots: &SlotCode) -> Result<Data, AllocError>
    ensures statics { IfOk result (λ d. d.statics ≡ program_statics order slots.now) }
    ensures uses { IfOk result (λ d. d.uses ≡ data_uses order slots.now) }
{
    let objects = u32::try_from(slots.objects.len()).map_err(|_| AllocError)?;
    let setting = Setting { order, objects };
    let mut statics = Vec::new(alloc);
    let mut uses = Vec::new(alloc);
    add_objects(
        alloc,
        &setting,
        &mut statics,
        &mut uses,
        slots.objects.as_slice(),
    )?;
    add_strings(alloc, &mut statics, objects, slots.strings.as_slice())?;
    Ok(Data {
        statics: Many::from_vec(statics),
        uses: Many::from_vec(uses),
    })
}
