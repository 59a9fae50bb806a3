// The text of a checked expression. Values and places stay on the operand stack.
ghost use Rattle.std.specs.Prelude.{◌≡◌, OnOk, IfOk};
ghost use Rattle.c_tree.specs.Types.{type_of as type_in, is_struct as struct_type};
ghost use Rattle.ps_text.specs.Code.{render};
ghost use Rattle.ps_emit.specs.Grown.{Grows};
ghost use Rattle.ps_emit.specs.Terms.{◌⋯◌};
ghost use Rattle.expr_serve.specs.Codes.{standing_of as standing_in, value_at, value_code, place_code, spot_code, struct_code, whole_code, copying_code, setting_code, assignment_code, brought as brought_code, live_leaves, live_struct, code_of, text_of as text_in};

use crate::emit::{
    Standing, add_further, add_member, add_number, add_operator, add_place, add_size, add_word,
    address, live_leaf, offset_behind, offset_of, spot, value,
};
use crate::operators::{conversion, on_one};
use crate::types::add_leaves;
use c_judge::{Mode, Symbol, head_of};
use c_tree::{BinaryOp, CType, StructDef, Typed};
use ldb_words::Text;
use std::alloc::{AllocError, Global};

/// The type of an expression.
fn type_of(e: &Typed) -> &CType
    ensures { result.now ≡ type_in e.now }
{
    &head_of(e).ctype
}

/// How the place of an lvalue stands: a place through a pointer is not asked for its leaves yet.
fn standing_of(e: &Typed) -> Standing
    ensures { result ≡ standing_in e.now }
{
    match e {
        Typed::Name(_, _) => Standing::Named,
        Typed::Dot(_, a, _) => standing_of(a),
        Typed::Parens(_, a) => standing_of(a),
        _ => Standing::Pointed,
    }
}

/// Adds the value of an expression.
#[cycle(coding)]
fn add_value(
    text: &mut Text,
    e: &Typed,
    names: &[Symbol],
    defs: &[StructDef],
) -> Result<(), AllocError>
    ensures { OnOk result (Grows (value_code names.now defs.now e.now) text.old text.new) }
{
    match e {
        Typed::Comma(_, a, b) => {
            add_value(text, a, names, defs)?;
            add_word(text, b"pop")?;
            add_value(text, b, names, defs)
        }
        Typed::Choice(head, c, a, b) => {
            add_value(text, c, names, defs)?;
            text.append(b"0 eq { ")?;
            add_value(text, b, names, defs)?;
            text.append(conversion(&head.ctype))?;
            text.append(b"} { ")?;
            add_value(text, a, names, defs)?;
            text.append(conversion(&head.ctype))?;
            text.append(b"} ifelse ")
        }
        Typed::Or(_, a, b) => {
            add_value(text, a, names, defs)?;
            text.append(b"0 eq { ")?;
            add_value(text, b, names, defs)?;
            text.append(b"0 eq { 0 } { 1 } ifelse } { 1 } ifelse ")
        }
        Typed::And(_, a, b) => {
            add_value(text, a, names, defs)?;
            text.append(b"0 eq { 0 } { ")?;
            add_value(text, b, names, defs)?;
            text.append(b"0 eq { 0 } { 1 } ifelse } ifelse ")
        }
        Typed::Binary(_, a, op, b) => {
            add_value(text, a, names, defs)?;
            add_value(text, b, names, defs)?;
            add_operator(text, *op, type_of(a), type_of(b), defs)
        }
        Typed::Cast(head, a) => {
            add_value(text, a, names, defs)?;
            text.append(conversion(&head.ctype))
        }
        Typed::Address(_, a) => {
            add_location(text, a, names, defs)?;
            text.append(address(standing_of(a)))
        }
        Typed::Unary(_, op, a) => {
            add_value(text, a, names, defs)?;
            text.append(on_one(*op, type_of(a)))
        }
        Typed::SizeOf(_, a) => add_size(text, type_of(a), defs),
        Typed::SizeOfType(_, t) => add_size(text, t, defs),
        Typed::Constant(_, bits) => add_number(text, *bits),
        Typed::Parens(_, a) => add_value(text, a, names, defs),
        Typed::Name(_, _) => add_at_place(text, e, names, defs),
        Typed::Follow(_, _) => add_at_place(text, e, names, defs),
        Typed::Index(_, _, _) => add_at_place(text, e, names, defs),
        Typed::Dot(_, _, _) => add_at_place(text, e, names, defs),
        Typed::Arrow(_, _, _) => add_at_place(text, e, names, defs),
        Typed::Assign(_, _, _, _)
        | Typed::Before(_, _, _)
        | Typed::Call(_, _, _)
        | Typed::After(_, _, _)
        | Typed::Literal(_, _) => Ok(()),
    }
}

/// Adds the value at the place of an lvalue.
#[cycle(coding)]
fn add_at_place(
    text: &mut Text,
    e: &Typed,
    names: &[Symbol],
    defs: &[StructDef],
) -> Result<(), AllocError>
    ensures { OnOk result (Grows (place_code names.now defs.now e.now ⋯ value_at (standing_in e.now) (type_in e.now)) text.old text.new) }
{
    add_location(text, e, names, defs)?;
    text.append(value(standing_of(e), type_of(e)))
}

/// Adds the place of an lvalue.
#[cycle(coding)]
fn add_location(
    text: &mut Text,
    e: &Typed,
    names: &[Symbol],
    defs: &[StructDef],
) -> Result<(), AllocError>
    ensures { OnOk result (Grows (place_code names.now defs.now e.now) text.old text.new) }
{
    match e {
        Typed::Name(_, n) => add_place(text, names, *n),
        Typed::Follow(_, a) => add_value(text, a, names, defs),
        Typed::Index(_, a, b) => {
            add_value(text, a, names, defs)?;
            add_value(text, b, names, defs)?;
            add_operator(text, BinaryOp::Add, type_of(a), type_of(b), defs)
        }
        Typed::Dot(_, a, m) => {
            add_location(text, a, names, defs)?;
            add_member(text, standing_of(a), offset_of(type_of(a), *m, defs))
        }
        Typed::Arrow(_, a, m) => {
            add_value(text, a, names, defs)?;
            add_further(text, offset_behind(type_of(a), *m, defs))
        }
        Typed::Parens(_, a) => add_location(text, a, names, defs),
        _ => Ok(()),
    }
}

/// Whether a type is a struct.
fn is_struct(t: &CType) -> bool
    ensures { result ≡ struct_type t.now }
{
    match t {
        CType::Struct(_) => true,
        _ => false,
    }
}

/// Adds the place of a struct, all of whose leaves are live.
fn add_struct(
    text: &mut Text,
    e: &Typed,
    names: &[Symbol],
    defs: &[StructDef],
) -> Result<(), AllocError>
    ensures { OnOk result (Grows (struct_code names.now defs.now e.now) text.old text.new) }
{
    add_location(text, e, names, defs)?;
    match standing_of(e) {
        Standing::Named => Ok(()),
        Standing::Pointed => add_leaves(text, type_of(e), defs),
    }
}

/// Adds what an evaluation takes: the place of a struct whose leaves are live, or else a value.
fn add_whole(
    text: &mut Text,
    e: &Typed,
    names: &[Symbol],
    defs: &[StructDef],
) -> Result<(), AllocError>
    ensures { OnOk result (Grows (whole_code names.now defs.now e.now) text.old text.new) }
{
    if is_struct(type_of(e)) {
        add_struct(text, e, names, defs)
    } else {
        add_value(text, e, names, defs)
    }
}

/// Adds a place as a space and an offset, whether or not its leaves are live.
fn add_spot(
    text: &mut Text,
    e: &Typed,
    names: &[Symbol],
    defs: &[StructDef],
) -> Result<(), AllocError>
    ensures { OnOk result (Grows (spot_code names.now defs.now e.now) text.old text.new) }
{
    add_location(text, e, names, defs)?;
    text.append(spot(standing_of(e)))
}

/// The pointer that is on top, or below another place, brought on top.
fn brought(is_below: bool) -> &'static [u8]
    ensures { result.now ≡ render (brought_code is_below) }
{
    if is_below { b"2 index " } else { b"dup " }
}

/// Adds that the leaves of a struct are live to which a pointer leads.
fn add_live_leaves(
    text: &mut Text,
    is_below: bool,
    t: &CType,
    defs: &[StructDef],
) -> Result<(), AllocError>
    ensures { OnOk result (Grows (live_leaves defs.now is_below t.now) text.old text.new) }
{
    text.append(brought(is_below))?;
    add_leaves(text, t, defs)?;
    add_word(text, b"pop")?;
    add_word(text, b"pop")
}

/// Adds that a struct's leaves are live, where a pointer led to it.
fn add_live(
    text: &mut Text,
    standing: Standing,
    is_below: bool,
    t: &CType,
    defs: &[StructDef],
) -> Result<(), AllocError>
    ensures { OnOk result (Grows (live_struct defs.now standing is_below t.now) text.old text.new) }
{
    match standing {
        Standing::Named => Ok(()),
        Standing::Pointed => add_live_leaves(text, is_below, t, defs),
    }
}

/// Adds the places of two structs, of which the leaves of those through pointers are live.
fn add_copying(
    text: &mut Text,
    a: &Typed,
    b: &Typed,
    names: &[Symbol],
    defs: &[StructDef],
) -> Result<(), AllocError>
    ensures { OnOk result (Grows (copying_code names.now defs.now a.now b.now) text.old text.new) }
{
    add_spot(text, a, names, defs)?;
    add_spot(text, b, names, defs)?;
    add_live(text, standing_of(a), true, type_of(a), defs)?;
    add_live(text, standing_of(b), false, type_of(b), defs)
}

/// Adds the place of a scalar, whose leaf is live, and the right side as a value of its type.
fn add_setting(
    text: &mut Text,
    a: &Typed,
    b: &Typed,
    names: &[Symbol],
    defs: &[StructDef],
) -> Result<(), AllocError>
    ensures { OnOk result (Grows (setting_code names.now defs.now a.now b.now) text.old text.new) }
{
    add_spot(text, a, names, defs)?;
    add_value(text, b, names, defs)?;
    text.append(conversion(type_of(a)))?;
    text.append(live_leaf(standing_of(a), type_of(a)))
}

/// Adds what a plain assignment takes: the place and the right side, of which a struct is a place too.
fn add_assignment(
    text: &mut Text,
    e: &Typed,
    names: &[Symbol],
    defs: &[StructDef],
) -> Result<(), AllocError>
    ensures { OnOk result (Grows (assignment_code names.now defs.now e.now) text.old text.new) }
{
    match e {
        Typed::Assign(_, a, None, b) => {
            if is_struct(type_of(a)) {
                add_copying(text, a, b, names, defs)
            } else {
                add_setting(text, a, b, names, defs)
            }
        }
        _ => Ok(()),
    }
}

/// Adds what a text takes by its mode.
fn add_code(
    text: &mut Text,
    e: &Typed,
    mode: Mode,
    names: &[Symbol],
    defs: &[StructDef],
) -> Result<(), AllocError>
    ensures { OnOk result (Grows (code_of names.now defs.now mode e.now) text.old text.new) }
{
    match mode {
        Mode::Value => add_whole(text, e, names, defs),
        Mode::Assign => add_assignment(text, e, names, defs),
    }
}

/// The text of a checked expression among these names and structs.
pub fn text_of(
    alloc: Global,
    e: &Typed,
    mode: Mode,
    names: &[Symbol],
    defs: &[StructDef],
) -> Result<Text, AllocError>
    ensures { IfOk result (λ text. text ≡ text_in names.now defs.now mode e.now) }
{
    let mut text = Text::from_slice(alloc, b"{ ")?;
    add_code(&mut text, e, mode, names, defs)?;
    text.append(b"} exec")?;
    Ok(text)
}
