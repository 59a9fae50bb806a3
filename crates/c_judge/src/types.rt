// Types as operands: what the rules ask of them. An array stands for a pointer to its first item (C90 6.2.2.1).
ghost use Rattle.std.specs.Prelude.{◌≡◌, ◌&&◌, IfOk, OnOk, option_map, Some, None};
ghost use Rattle.c_tree.specs.Layout.{members_of};
ghost use Rattle.c_typing.specs.Plain.{plain, same, is_integer, is_pointer, is_scalar, is_struct, is_void, is_complete, value_type, promoted, common, Pointer, Array};
ghost use Rattle.c_judge.specs.Targets.{target_of};
ghost use Rattle.c_typing.specs.Rules.{is_movable};
ghost use Rattle.c_typing.specs.Values.{is_unsigned};

use c_tree::{CType, Member, StructDef};
use std::alloc::{AllocError, Global};
use std::rc::Rc;

/// A copy of a type, which shares what it points to or holds.
pub fn copied(t: &CType) -> Result<CType, AllocError>
    ensures { IfOk result (λ r. plain r ≡ plain t.now) }
{
    match t {
        CType::Char => Ok(CType::Char),
        CType::Int => Ok(CType::Int),
        CType::Unsigned => Ok(CType::Unsigned),
        CType::Void => Ok(CType::Void),
        CType::Pointer(target) => Ok(CType::Pointer(target.clone()?)),
        CType::Array(item, n) => Ok(CType::Array(item.clone()?, *n)),
        CType::Struct(s) => Ok(CType::Struct(*s)),
    }
}

/// A pointer to a type.
pub fn pointer_to(alloc: Global, target: CType) -> Result<CType, AllocError>
    ensures { IfOk result (λ r. plain r ≡ Pointer (plain target)) }
{
    Ok(CType::Pointer(Rc::new(alloc, target)?))
}

/// So many items of a type.
pub fn array_of(alloc: Global, item: CType, n: u32) -> Result<CType, AllocError>
    ensures { IfOk result (λ r. plain r ≡ Array (plain item) n) }
{
    Ok(CType::Array(Rc::new(alloc, item)?, n))
}

/// The type of a value of this type.
pub fn value_type(t: &CType) -> Result<CType, AllocError>
    ensures { IfOk result (λ r. plain r ≡ value_type (plain t.now)) }
{
    match t {
        CType::Array(item, _) => Ok(CType::Pointer(item.clone()?)),
        _ => copied(t),
    }
}

/// Whether two types are the same.
pub fn same(s: &CType, t: &CType) -> bool
    ensures { result ≡ same (plain s.now) (plain t.now) }
{
    match (s, t) {
        (CType::Char, CType::Char) => true,
        (CType::Int, CType::Int) => true,
        (CType::Unsigned, CType::Unsigned) => true,
        (CType::Void, CType::Void) => true,
        (CType::Pointer(a), CType::Pointer(b)) => same(a, b),
        (CType::Array(a, m), CType::Array(b, n)) => same(a, b) && m == n,
        (CType::Struct(m), CType::Struct(n)) => m == n,
        _ => false,
    }
}

/// Whether a value of this type is an integer.
pub fn is_integer(t: &CType) -> bool
    ensures kept { result ≡ is_integer (plain t.now) }
    ensures value { result ≡ is_integer (value_type (plain t.now)) }
{
    match t {
        CType::Char | CType::Int | CType::Unsigned => true,
        CType::Void | CType::Pointer(_) | CType::Array(_, _) | CType::Struct(_) => false,
    }
}

/// What a value of this type points to.
pub fn target(t: &CType) -> Option<&CType>
    ensures { option_map (λ r. plain r.now) result ≡ target_of (value_type (plain t.now)) }
{
    match t {
        CType::Pointer(target) => Some(target),
        CType::Array(item, _) => Some(item),
        CType::Char | CType::Int | CType::Unsigned | CType::Void | CType::Struct(_) => None,
    }
}

/// Whether a value of this type is a pointer.
pub fn is_pointer(t: &CType) -> bool
    ensures { result ≡ is_pointer (value_type (plain t.now)) }
{
    match t {
        CType::Pointer(_) | CType::Array(_, _) => true,
        CType::Char | CType::Int | CType::Unsigned | CType::Void | CType::Struct(_) => false,
    }
}

/// Whether a value of this type is a scalar.
pub fn is_scalar(t: &CType) -> bool
    ensures { result ≡ is_scalar (value_type (plain t.now)) }
{
    match t {
        CType::Void | CType::Struct(_) => false,
        CType::Char | CType::Int | CType::Unsigned | CType::Pointer(_) | CType::Array(_, _) => true,
    }
}

/// Whether a type is `void`.
pub fn is_void(t: &CType) -> bool
    ensures { result ≡ is_void (plain t.now) }
{
    match t {
        CType::Void => true,
        _ => false,
    }
}

/// Whether a type is a struct.
pub fn is_struct(t: &CType) -> bool
    ensures { result ≡ is_struct (plain t.now) }
{
    match t {
        CType::Struct(_) => true,
        _ => false,
    }
}

/// Whether a value of this type is `unsigned`.
pub fn is_unsigned(t: &CType) -> bool
    ensures kept { result ≡ is_unsigned (plain t.now) }
    ensures value { result ≡ is_unsigned (value_type (plain t.now)) }
{
    match t {
        CType::Unsigned => true,
        _ => false,
    }
}

/// The members of a struct by its number.
pub fn members(defs: &[StructDef], s: u32) -> &[Member]
    ensures { result.now ≡ members_of defs.now s }
{
    match defs.get(s as usize) {
        None => &[],
        Some(def) => def.members.as_slice(),
    }
}

/// Whether a type is complete.
pub fn is_complete(defs: &[StructDef], t: &CType) -> bool
    ensures { result ≡ is_complete defs.now (plain t.now) }
{
    match t {
        CType::Void => false,
        CType::Array(item, n) => *n >= 1 && is_complete(defs, item),
        CType::Struct(s) => !members(defs, *s).is_empty(),
        CType::Char | CType::Int | CType::Unsigned | CType::Pointer(_) => true,
    }
}

/// Whether a value of this type is a pointer to a complete type, which arithmetic may move.
pub fn is_movable(defs: &[StructDef], t: &CType) -> bool
    ensures { result ≡ is_movable defs.now (value_type (plain t.now)) }
{
    match t {
        CType::Pointer(target) => is_complete(defs, target),
        CType::Array(item, _) => is_complete(defs, item),
        CType::Char | CType::Int | CType::Unsigned | CType::Void | CType::Struct(_) => false,
    }
}

/// Whether values of two types are pointers to one type.
pub fn point_alike(s: &CType, t: &CType) -> bool
    ensures { result ≡ (is_pointer (value_type (plain s.now)) && same (value_type (plain s.now)) (value_type (plain t.now))) }
{
    match (s, t) {
        (CType::Pointer(a), CType::Pointer(b)) => same(a, b),
        (CType::Pointer(a), CType::Array(b, _)) => same(a, b),
        (CType::Array(a, _), CType::Pointer(b)) => same(a, b),
        (CType::Array(a, _), CType::Array(b, _)) => same(a, b),
        _ => false,
    }
}

/// The integral promotions (C90 6.2.1.1).
pub fn promoted(t: &CType) -> CType
    ensures { plain result ≡ promoted (value_type (plain t.now)) }
{
    if is_unsigned(t) {
        CType::Unsigned
    } else {
        CType::Int
    }
}

/// The usual arithmetic conversions (C90 6.2.1.5).
pub fn common(s: &CType, t: &CType) -> CType
    ensures { plain result ≡ common (value_type (plain s.now)) (value_type (plain t.now)) }
{
    if is_unsigned(s) || is_unsigned(t) {
        CType::Unsigned
    } else {
        CType::Int
    }
}
