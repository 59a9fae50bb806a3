// Pieces of a text of PostScript.
ghost use Rattle.std.specs.Prelude.{◌≡◌, ◌≤◌, ◌^◌, pos, OnOk, slice_get, option_map};
ghost use Rattle.ldb_words.specs.Word.{signed};
ghost use Rattle.c_tree.specs.Types.{target_of as target};
ghost use Rattle.ps_text.specs.Code.{Stop, Num, Word, render};
ghost use Rattle.ps_emit.specs.Grown.{Grows};
ghost use Rattle.expr_serve.specs.declared.emit.Standing.TheVariants.{Named, Pointed};
ghost use Rattle.expr_serve.specs.Types.{bytes_of as bytes};
ghost use Rattle.expr_serve.specs.Codes.{address_of, value_at, as_spot, live_scalar, by_items, further as further_code, place_further, place_of_name, offset_of as offset, offset_behind as behind, near, far, large_items, signed_items, unsigned_items, bytes_by, on_pointer, on_two_pointers, on_two};

use crate::literals::add_literal;
use crate::operators::{is_unsigned, on_integers, on_ints, on_pointers};
use c_judge::Symbol;
use c_tree::{BinaryOp, CType, StructDef, members, size_of};
use itoa::Buffer;
use ldb_words::Text;
use std::alloc::AllocError;

/// How the place of an lvalue stands among the operands: as a space and an offset, which a name has, or as a pointer alone.
#[derive(Clone, Copy, PartialEq, Eq, Debug)]
pub enum Standing {
    Named,
    Pointed,
}

/// Adds a word.
pub fn add_word(text: &mut Text, word: &[u8]) -> Result<(), AllocError>
    ensures { OnOk result (Grows (Word word.now Stop) text.old text.new) }
{
    text.append(word)?;
    text.push(b' ')
}

/// Adds an integer.
pub fn add_integer(text: &mut Text, n: i32) -> Result<(), AllocError>
    ensures { OnOk result (Grows (Num n Stop) text.old text.new) }
{
    let mut digits = Buffer::new();
    text.append(digits.format(n).as_bytes())?;
    text.push(b' ')
}

/// Adds a word of 32 bits as an integer.
pub fn add_number(text: &mut Text, n: u32) -> Result<(), AllocError>
    ensures { OnOk result (Grows (Num (signed n) Stop) text.old text.new) }
{
    add_integer(text, n.cast_signed())
}

// ---- places

/// Adds the place of a name, by its number.
pub fn add_place(text: &mut Text, names: &[Symbol], n: u32) -> Result<(), AllocError>
    ensures { OnOk result (Grows (place_of_name (slice_get names.now n)) text.old text.new) }
{
    match names.get(n as usize) {
        None => add_word(text, b"Where"),
        Some(symbol) => {
            add_literal(text, symbol.name.as_bytes())?;
            add_word(text, b"Where")
        }
    }
}

/// The pointer to a place.
pub fn address(standing: Standing) -> &'static [u8]
    ensures { result.now ≡ render (address_of standing) }
{
    match standing {
        Standing::Named => b"exch pop ",
        Standing::Pointed => b"",
    }
}

/// The value at a place that a name has: an array is its place.
fn named_value(t: &CType) -> &'static [u8]
    ensures { result.now ≡ render (value_at Named t.now) }
{
    match t {
        CType::Char => b"/c fetch ",
        CType::Pointer(_) => b"/p fetch ",
        CType::Array(_, _) => b"exch pop ",
        CType::Int | CType::Unsigned | CType::Void | CType::Struct(_) => b"/w fetch ",
    }
}

/// The value where a pointer leads: an array is its place.
fn pointed_value(t: &CType) -> &'static [u8]
    ensures { result.now ≡ render (value_at Pointed t.now) }
{
    match t {
        CType::Char => b"/c Leaf /c fetch ",
        CType::Pointer(_) => b"/p Leaf /p fetch ",
        CType::Array(_, _) => b"",
        CType::Int | CType::Unsigned | CType::Void | CType::Struct(_) => b"/w Leaf /w fetch ",
    }
}

/// The value at a place.
pub fn value(standing: Standing, t: &CType) -> &'static [u8]
    ensures { result.now ≡ render (value_at standing t.now) }
{
    match standing {
        Standing::Named => named_value(t),
        Standing::Pointed => pointed_value(t),
    }
}

/// A place as a space and an offset, whether or not its leaves are live.
pub fn spot(standing: Standing) -> &'static [u8]
    ensures { result.now ≡ render (as_spot standing) }
{
    match standing {
        Standing::Named => b"",
        Standing::Pointed => b"/d exch ",
    }
}

/// The scalar's leaf where a pointer led, below the value that it is to have, is live.
fn pointed_leaf(t: &CType) -> &'static [u8]
    ensures { result.now ≡ render (live_scalar Pointed t.now) }
{
    match t {
        CType::Char => b"1 index /c Leaf pop pop ",
        CType::Pointer(_) => b"1 index /p Leaf pop pop ",
        CType::Array(_, _) => b"1 index /p Leaf pop pop ",
        CType::Int => b"1 index /w Leaf pop pop ",
        CType::Unsigned => b"1 index /w Leaf pop pop ",
        CType::Void => b"1 index /w Leaf pop pop ",
        CType::Struct(_) => b"1 index /w Leaf pop pop ",
    }
}

/// The scalar's leaf below the value that it is to have is live.
pub fn live_leaf(standing: Standing, t: &CType) -> &'static [u8]
    ensures { result.now ≡ render (live_scalar standing t.now) }
{
    match standing {
        Standing::Named => b"",
        Standing::Pointed => pointed_leaf(t),
    }
}

// ---- structs

/// The size of a type of an expression, which has at most 1,048,576 bytes.
fn bytes_of(t: &CType, defs: &[StructDef]) -> u32
    ensures bytes { result ≡ bytes defs.now t.now }
    ensures few { result ≤ 1048576 }
{
    match size_of(t, defs) {
        Ok(n) => n,
        Err(_) => 0,
    }
}

/// Adds the size of a type.
pub fn add_size(text: &mut Text, t: &CType, defs: &[StructDef]) -> Result<(), AllocError>
    ensures { OnOk result (Grows (Num (pos (bytes defs.now t.now)) Stop) text.old text.new) }
{
    add_integer(text, bytes_of(t, defs) as i32)
}

/// The offset of a member of a struct.
pub fn offset_of(t: &CType, m: u32, defs: &[StructDef]) -> u32
    ensures { result ≡ offset defs.now t.now m }
{
    match t {
        CType::Struct(s) => match members(defs, *s).get(m as usize) {
            Some(member) => member.at,
            None => 0,
        },
        _ => 0,
    }
}

/// The offset of a member of the struct to which a pointer leads.
pub fn offset_behind(t: &CType, m: u32, defs: &[StructDef]) -> u32
    ensures { result ≡ behind defs.now (target t.now) m }
{
    match target_of(t) {
        Some(t) => offset_of(t, m, defs),
        None => 0,
    }
}

// ---- pointers

/// Adds a pointer so many bytes further, fewer than 2^31.
fn add_moved(text: &mut Text, bytes: u32) -> Result<(), AllocError>
    ensures { OnOk result (Grows (near bytes) text.old text.new) }
{
    add_number(text, bytes)?;
    add_integer(text, 1)?;
    add_word(text, b"ptradd")
}

/// Adds a pointer so many bytes further, 2^31 or more: the lowest bit, and then half of them by two.
fn add_far(text: &mut Text, bytes: u32) -> Result<(), AllocError>
    ensures { OnOk result (Grows (far bytes) text.old text.new) }
{
    add_moved(text, bytes % 2)?;
    add_number(text, bytes / 2)?;
    add_integer(text, 2)?;
    add_word(text, b"ptradd")
}

/// Adds a pointer so many bytes further.
pub fn add_further(text: &mut Text, bytes: u32) -> Result<(), AllocError>
    ensures { OnOk result (Grows (further_code bytes) text.old text.new) }
{
    if bytes < 0x8000_0000 {
        add_moved(text, bytes)
    } else {
        add_far(text, bytes)
    }
}

/// Adds a place so many bytes further.
pub fn add_member(text: &mut Text, standing: Standing, at: u32) -> Result<(), AllocError>
    ensures { OnOk result (Grows (place_further standing at) text.old text.new) }
{
    match standing {
        Standing::Named => {
            add_number(text, at)?;
            add_word(text, b"uadd")
        }
        Standing::Pointed => add_further(text, at),
    }
}

/// So many bytes further, or back.
fn counted(is_back: bool, bytes: u32) -> i32
    requires { bytes ≤ 1048576 }
    ensures { result ≡ bytes_by is_back bytes }
{
    if is_back {
        -(bytes as i32)
    } else {
        bytes as i32
    }
}

/// Adds so many bytes further, or back, as an integer.
fn add_counted(text: &mut Text, is_back: bool, bytes: u32) -> Result<(), AllocError>
    requires { bytes ≤ 1048576 }
    ensures { OnOk result (Grows (Num (bytes_by is_back bytes) Stop) text.old text.new) }
{
    add_integer(text, counted(is_back, bytes))
}

/// Adds what an `unsigned` number of 2^31 or more, of items of a size, is taken by: single bytes in two steps. Of larger items it
/// leaves every object.
fn add_large(text: &mut Text, is_back: bool, size: u32) -> Result<(), AllocError>
    ensures { OnOk result (Grows (large_items is_back size) text.old text.new) }
{
    if size != 1 {
        text.append(b"pop 2147483647 2147483647 ")
    } else if is_back {
        text.append(b"exch 1 index 1 and -1 ptradd exch 1 ushr -2 ")
    } else {
        text.append(b"exch 1 index 1 and 1 ptradd exch 1 ushr 2 ")
    }
}

/// Adds a pointer moved by so many items of a size, where their number has a sign.
fn add_signed_items(text: &mut Text, is_back: bool, size: u32) -> Result<(), AllocError>
    requires { size ≤ 1048576 }
    ensures { OnOk result (Grows (signed_items is_back size) text.old text.new) }
{
    add_counted(text, is_back, size)?;
    add_word(text, b"ptradd")
}

/// The same where their number is `unsigned`.
fn add_unsigned_items(text: &mut Text, is_back: bool, size: u32) -> Result<(), AllocError>
    requires { size ≤ 1048576 }
    ensures { OnOk result (Grows (unsigned_items is_back size) text.old text.new) }
{
    text.append(b"dup 0 lt { ")?;
    add_large(text, is_back, size)?;
    text.append(b"} { ")?;
    add_counted(text, is_back, size)?;
    text.append(b"} ifelse ptradd ")
}

/// Adds a pointer moved by so many items of a size. Those of size 0 lead nowhere.
fn add_items(text: &mut Text, is_back: bool, size: u32, t: &CType) -> Result<(), AllocError>
    requires { size ≤ 1048576 }
    ensures { OnOk result (Grows (by_items is_back size t.now) text.old text.new) }
{
    if is_unsigned(t) && size > 0 {
        add_unsigned_items(text, is_back, size)
    } else {
        add_signed_items(text, is_back, size)
    }
}

// ---- two operands

/// Adds an operator on a pointer to an item and an integer of a type: one is compared with the other, or is moved by it.
fn add_on_pointer(
    text: &mut Text,
    op: BinaryOp,
    item: &CType,
    t: &CType,
    defs: &[StructDef],
) -> Result<(), AllocError>
    ensures { OnOk result (Grows (on_pointer defs.now op item.now t.now) text.old text.new) }
{
    match op {
        BinaryOp::Add => add_items(text, false, bytes_of(item, defs), t),
        BinaryOp::Subtract => add_items(text, true, bytes_of(item, defs), t),
        _ => text.append(on_ints(op)),
    }
}

/// Adds an operator on two pointers to items.
fn add_on_pointers(
    text: &mut Text,
    op: BinaryOp,
    item: &CType,
    defs: &[StructDef],
) -> Result<(), AllocError>
    ensures { OnOk result (Grows (on_two_pointers defs.now op item.now) text.old text.new) }
{
    match op {
        BinaryOp::Subtract => {
            add_size(text, item, defs)?;
            add_word(text, b"ptrsub")
        }
        _ => text.append(on_pointers(op)),
    }
}

/// Adds a binary operator on two operands of these types.
pub fn add_operator(
    text: &mut Text,
    op: BinaryOp,
    s: &CType,
    t: &CType,
    defs: &[StructDef],
) -> Result<(), AllocError>
    ensures { OnOk result (Grows (on_two defs.now op s.now t.now) text.old text.new) }
{
    match (target_of(s), target_of(t)) {
        (None, None) => text.append(on_integers(op, s, t)),
        (Some(item), None) => add_on_pointer(text, op, item, t, defs),
        (None, Some(item)) => {
            add_word(text, b"exch")?;
            add_on_pointer(text, op, item, s, defs)
        }
        (Some(item), Some(_)) => add_on_pointers(text, op, item, defs),
    }
}

/// What a pointer points to; an array is a pointer to its first item (C90 6.2.2.1).
pub fn target_of(t: &CType) -> Option<&CType>
    ensures { option_map (λ to. to.now) result ≡ target t.now }
{
    match t {
        CType::Pointer(target) => Some(target),
        CType::Array(item, _) => Some(item),
        CType::Char | CType::Int | CType::Unsigned | CType::Void | CType::Struct(_) => None,
    }
}
