// Procedures that leave places, and the static objects.
ghost use Rattle.std.specs.Prelude.{◌≡◌, ◌++◌, suc, OnOk, IfOk, length, slice_get};
ghost use Rattle.ps_emit.specs.Grown.{Grows};
ghost use Rattle.ps_scan.specs.Escaping.{escaped};
ghost use Rattle.ps_emit.specs.Places.{anchored, absolute, homes, declared_register, register_told, place_words, words_at, home_words, placed_at, file_in, without_ending, label_front, object_label, string_label, object_code, objects_from, string_code, strings_from, objects_code};
ghost use Rattle.ps_text.specs.Code.{Stop, Text as Str};

use crate::terms::{
    add_anchor_name, add_bytes, add_integer, add_name, add_number, add_string, add_word, following,
};
use crate::types::add_type;
use c_tree::{Local, ObjectRow, Program, UnitRow};
use itoa::Buffer;
use ldb_words::Text;
use obj_file::LocalPlace;
use std::alloc::AllocError;

/// Adds the place at an anchor.
fn add_anchored(text: &mut Text, k: u32) -> Result<(), AllocError>
    ensures { OnOk result (Grows (anchored k) text.old text.new) }
{
    add_word(text, b"{")?;
    add_integer(text, 0)?;
    add_anchor_name(text, k)?;
    add_word(text, b"Anchor")?;
    add_word(text, b"Absolute")?;
    add_word(text, b"}")
}

/// Adds the place at an address.
pub fn add_absolute(text: &mut Text, address: u32) -> Result<(), AllocError>
    ensures { OnOk result (Grows (absolute address) text.old text.new) }
{
    add_word(text, b"{")?;
    add_number(text, address)?;
    add_word(text, b"Absolute")?;
    add_word(text, b"}")
}

/// Adds the word by which a table tells that a variable in memory is `register`, and drops its place.
fn add_register_told(text: &mut Text, register: bool) -> Result<(), AllocError>
    ensures { OnOk result (Grows (register_told register) text.old text.new) }
{
    if register {
        add_integer(text, 0)?;
        add_word(text, b"Register")?;
        add_word(text, b"pop")?;
        add_word(text, b"pop")?;
    }
    Ok(())
}

/// Adds what leaves the place of a local.
fn add_place_words(text: &mut Text, place: LocalPlace, register: bool) -> Result<(), AllocError>
    ensures { OnOk result (Grows (place_words place register) text.old text.new) }
{
    match place {
        LocalPlace::Slot(offset) => {
            add_integer(text, offset)?;
            add_word(text, b"Local")?;
            add_register_told(text, register)
        }
        LocalPlace::Reg(register) => {
            add_integer(text, i32::from(register))?;
            add_word(text, b"Register")
        }
    }
}

/// Whether a local is declared `register`.
fn declared_register(locals: &[Local], x: u32) -> bool
    ensures { result ≡ declared_register (slice_get locals.now x) }
{
    match locals.get(x as usize) {
        Some(local) => local.register,
        None => false,
    }
}

/// Adds what leaves the place of a local by its number.
fn add_place_of(
    text: &mut Text,
    places: &[LocalPlace],
    locals: &[Local],
    x: u32,
) -> Result<(), AllocError>
    ensures { OnOk result (Grows (home_words (homes places.now locals.now) x) text.old text.new) }
{
    match places.get(x as usize) {
        Some(place) => add_place_words(text, *place, declared_register(locals, x)),
        None => Ok(()),
    }
}

/// Adds the place of a local by its number.
pub fn add_place(
    text: &mut Text,
    places: &[LocalPlace],
    locals: &[Local],
    x: u32,
) -> Result<(), AllocError>
    ensures { OnOk result (Grows (placed_at (homes places.now locals.now) x) text.old text.new) }
{
    add_word(text, b"{")?;
    add_place_of(text, places, locals, x)?;
    add_word(text, b"}")
}

/// A file's name without its ending.
fn without_ending(file: &[u8]) -> &[u8]
    ensures { result.now ≡ without_ending file.now }
{
    &file[..file.len().saturating_sub(2)]
}

/// The name of a unit's file.
fn file_of(units: &[UnitRow], u: u32) -> &[u8]
    ensures { result.now ≡ file_in (slice_get units.now u) }
{
    match units.get(u as usize) {
        Some(unit) => unit.file.as_bytes(),
        None => &[],
    }
}

/// Adds what stands before the name in a static object's label.
fn add_label_front(text: &mut Text, units: &[UnitRow], o: &ObjectRow) -> Result<(), AllocError>
    ensures { OnOk result (text.new ≡ text.old ++ escaped (label_front units.now o.now)) }
{
    if o.is_static {
        add_bytes(text, without_ending(file_of(units, o.unit)))?;
        text.push(b'.')?;
    }
    Ok(())
}

/// Adds the label of a static object, as a string.
fn add_label(text: &mut Text, units: &[UnitRow], o: &ObjectRow) -> Result<(), AllocError>
    ensures { OnOk result (Grows (Str (object_label units.now o.now) Stop) text.old text.new) }
{
    text.push(b'(')?;
    add_label_front(text, units, o)?;
    add_bytes(text, o.name.as_bytes())?;
    text.append(b") ")
}

/// Adds a static object.
fn add_object(text: &mut Text, units: &[UnitRow], k: u32, o: &ObjectRow) -> Result<(), AllocError>
    ensures { OnOk result (Grows (object_code units.now k o.now) text.old text.new) }
{
    add_string(text, o.name.as_bytes())?;
    add_label(text, units, o)?;
    add_anchored(text, k)?;
    add_type(text, &o.ctype)?;
    add_word(text, b"NewObject")
}

/// Adds static objects, and gives the number behind them.
fn add_objects(text: &mut Text, units: &[UnitRow], objects: &[ObjectRow]) -> Result<u32, AllocError>
    ensures text { OnOk result (Grows (objects_from units.now 0 objects.now) text.old text.new) }
    ensures number { IfOk result (λ k. k ≡ length objects.now) }
{
    let mut k: u32 = 0;
    for o in objects {
        add_object(text, units, k, o)?;
        k = following(k)?;
    }
    Ok(k)
}

/// Adds the label of a string.
fn add_string_label(text: &mut Text, k: u32) -> Result<(), AllocError>
    ensures { OnOk result (Grows (Str (string_label k) Stop) text.old text.new) }
{
    let mut digits = Buffer::new();
    text.append(b"(str")?;
    add_bytes(text, digits.format(k).as_bytes())?;
    text.append(b") ")
}

/// How many bytes a string has with its NUL.
fn size_of(string: &Text) -> Result<u32, AllocError>
    ensures { IfOk result (λ n. n ≡ suc (length string.now)) }
{
    match u32::try_from(string.len()) {
        Ok(size) => following(size),
        Err(_) => Err(AllocError),
    }
}

/// Adds a string literal.
fn add_literal(text: &mut Text, k: u32, anchor: u32, string: &Text) -> Result<(), AllocError>
    ensures { OnOk result (Grows (string_code k anchor string.now) text.old text.new) }
{
    let size = size_of(string)?;
    add_string_label(text, k)?;
    add_anchored(text, anchor)?;
    add_word(text, b"char")?;
    add_number(text, size)?;
    add_word(text, b"ArrayOf")?;
    add_word(text, b"NewString")
}

/// Adds string literals, whose anchors are numbered from one on.
fn add_literals(text: &mut Text, first: u32, strings: &[Text]) -> Result<(), AllocError>
    ensures { OnOk result (Grows (strings_from 0 first strings.now) text.old text.new) }
{
    let mut k: u32 = 0;
    let mut anchor = first;
    for string in strings {
        add_literal(text, k, anchor, string)?;
        k = following(k)?;
        anchor = following(anchor)?;
    }
    Ok(())
}

/// Adds the array of static objects and strings.
pub fn add_statics(text: &mut Text, program: &Program) -> Result<(), AllocError>
    ensures { OnOk result (Grows (objects_code program.now) text.old text.new) }
{
    add_name(text, b"objects")?;
    add_word(text, b"[")?;
    let first = add_objects(text, program.units.as_slice(), program.objects.as_slice())?;
    add_literals(text, first, program.strings.as_slice())?;
    add_word(text, b"]")?;
    add_word(text, b"def")
}
