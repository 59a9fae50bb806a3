// Places in static objects (C90 6.4).
ghost use Rattle.std.specs.Prelude.{◌≡◌, IfOk, option_map, slice_get, Some, None};
ghost use Rattle.c_typing.specs.Plain.{plain};
ghost use Rattle.c_judge.specs.Judgement.{name_alone};
ghost use Rattle.c_mentions.specs.Tags.{now};
ghost use Rattle.c_scope.specs.Environment.{meant};
ghost use Rattle.c_scope.specs.Environment as around;
ghost use Rattle.c_initial.specs.Initials.{spot, is_spot};
ghost use Rattle.c_initial.specs.Spots.{object_in, object_of, item_in, whole_in, item_behind, is_add, is_address, whole_leaf, item_leaf, address, spot_of};
ghost use Rattle.c_scope.specs.Here.{environment_of};

use crate::constants::number;
use c_judge::{Symbol, same};
use c_scope::Environment;
use c_symbol::{BinaryOp, LeafKind, PrefixOp};
use c_tree::CType;
use c_trees::expression::{Expr, Node};
use ldb_words::Text;
use std::alloc::{AllocError, Global};

/// A place in the array that a name denotes, or the whole object: what stands there, how many items before it, and how many the array has.
#[derive(Clone, Copy)]
pub struct StaticPlace<'a, 'b> {
    pub name: &'a Text,
    pub ctype: &'b CType,
    pub items: u32,
    pub bound: u32,
}

/// The name that an expression is alone.
#[tactic(auto, using(crate::proofs::Spotted::no_name))]
fn name_alone(e: &Expr) -> Option<&Text>
    ensures { option_map now result ≡ name_alone e.now }
{
    match &e.node {
        Node::Leaf(_, LeafKind::Name, text) => Some(text),
        Node::Leaf(_, LeafKind::Text | LeafKind::Constant(_) | LeafKind::Character(_), _) => None,
        Node::Paren(_, _)
        | Node::Index(_, _, _)
        | Node::Call(_, _, _)
        | Node::Member(_, _, _, _, _)
        | Node::After(_, _, _)
        | Node::Prefix(_, _, _)
        | Node::SizeofType(_, _)
        | Node::Cast(_, _, _)
        | Node::Binary(_, _, _, _)
        | Node::Choice(_, _, _, _) => None,
    }
}

/// The type of an object by the row of its name; a function has none.
fn object_in(symbol: Option<&Symbol>) -> Option<&CType>
    ensures { option_map (λ t. plain t.now) result ≡ object_in (option_map (λ s. s.now) symbol.entry) }
{
    match symbol {
        None => None,
        Some(symbol) => {
            if symbol.function {
                return None;
            }
            Some(&symbol.ctype)
        }
    }
}

/// The row of a name by its number.
fn symbol_at(symbols: &[Symbol], n: u32) -> Option<&Symbol>
    ensures { option_map (λ s. s.now) result ≡ slice_get symbols.now n }
{
    match symbols.get(n as usize) {
        None => None,
        Some(symbol) => Some(symbol),
    }
}

/// The type of the object that a name denotes.
fn object_of<'a, 'b>(here: &'b Environment<'a>, name: &'a Text) -> Option<&'b CType>
    ensures { option_map (λ t. plain t.now) result ≡ object_of (meant (environment_of here.now) name.now) }
{
    match here.table.numbers().find(name.as_bytes()) {
        None => None,
        Some(n) => object_in(symbol_at(here.table.symbols(), n)),
    }
}

/// An item of an array.
fn item<'a, 'b>(
    name: &'a Text,
    t: Option<&'b CType>,
    items: Option<u32>,
) -> Option<StaticPlace<'a, 'b>>
    ensures { option_map spot_of result ≡ item_in name.now (option_map (λ u. plain u.now) t.entry) items }
{
    match (t, items) {
        (Some(CType::Array(item, n)), Some(items)) => Some(StaticPlace {
            name,
            ctype: item,
            items,
            bound: *n,
        }),
        _ => None,
    }
}

/// A whole object.
fn whole<'a, 'b>(name: &'a Text, t: Option<&'b CType>) -> Option<StaticPlace<'a, 'b>>
    ensures { option_map spot_of result ≡ whole_in name.now (option_map (λ u. plain u.now) t.entry) }
{
    match t {
        None => None,
        Some(ctype) => Some(StaticPlace {
            name,
            ctype,
            items: 0,
            bound: 1,
        }),
    }
}

/// The item that so many stand before in the array that an expression names.
fn item_behind<'a, 'b>(
    alloc: Global,
    here: &'b Environment<'a>,
    e: &'a Expr,
    c: &'a Expr,
) -> Result<Option<StaticPlace<'a, 'b>>, AllocError>
    ensures { IfOk result (λ s. option_map spot_of s ≡ item_behind (environment_of here.now) (name_alone e.now) c.now) }
{
    match name_alone(e) {
        None => Ok(None),
        Some(name) => Ok(item(name, object_of(here, name), number(alloc, here, c)?)),
    }
}

/// Whether an operator is `+`.
fn is_add(op: BinaryOp) -> bool
    ensures { result ≡ is_add op }
{
    match op {
        BinaryOp::Add => true,
        BinaryOp::Comma
        | BinaryOp::Assign(_)
        | BinaryOp::LogicalOr
        | BinaryOp::LogicalAnd
        | BinaryOp::BitOr
        | BinaryOp::BitXor
        | BinaryOp::BitAnd
        | BinaryOp::Equal
        | BinaryOp::NotEqual
        | BinaryOp::Less
        | BinaryOp::Greater
        | BinaryOp::LessEqual
        | BinaryOp::GreaterEqual
        | BinaryOp::ShiftLeft
        | BinaryOp::ShiftRight
        | BinaryOp::Subtract
        | BinaryOp::Multiply
        | BinaryOp::Divide
        | BinaryOp::Remainder => false,
    }
}

/// Whether an operator in front of an operand is `&`.
fn is_address(op: PrefixOp) -> bool
    ensures { result ≡ is_address op }
{
    match op {
        PrefixOp::Address => true,
        PrefixOp::Step(_)
        | PrefixOp::Dereference
        | PrefixOp::Plus
        | PrefixOp::Minus
        | PrefixOp::Complement
        | PrefixOp::Not
        | PrefixOp::Sizeof => false,
    }
}

/// The object that a leaf names, as a whole.
fn whole_leaf<'a, 'b>(
    here: &'b Environment<'a>,
    kind: LeafKind,
    name: &'a Text,
) -> Option<StaticPlace<'a, 'b>>
    ensures { option_map spot_of result ≡ whole_leaf (environment_of here.now) kind name.now }
{
    match kind {
        LeafKind::Name => whole(name, object_of(here, name)),
        LeafKind::Text | LeafKind::Constant(_) | LeafKind::Character(_) => None,
    }
}

/// The first item of the array that a leaf names.
fn item_leaf<'a, 'b>(
    here: &'b Environment<'a>,
    kind: LeafKind,
    name: &'a Text,
) -> Option<StaticPlace<'a, 'b>>
    ensures { option_map spot_of result ≡ item_leaf (environment_of here.now) kind name.now }
{
    match kind {
        LeafKind::Name => item(name, object_of(here, name), Some(0)),
        LeafKind::Text | LeafKind::Constant(_) | LeafKind::Character(_) => None,
    }
}

/// `&e`
#[tactic(auto, using(crate::proofs::Spotted::address_call))]
fn address<'a, 'b>(
    alloc: Global,
    here: &'b Environment<'a>,
    e: &'a Expr,
) -> Result<Option<StaticPlace<'a, 'b>>, AllocError>
    ensures { IfOk result (λ s. option_map spot_of s ≡ address (environment_of here.now) e.now) }
{
    match &e.node {
        Node::Leaf(_, kind, name) => Ok(whole_leaf(here, *kind, name)),
        Node::Index(_, a, c) => item_behind(alloc, here, a, c),
        Node::Paren(_, _)
        | Node::Call(_, _, _)
        | Node::Member(_, _, _, _, _)
        | Node::After(_, _, _)
        | Node::Prefix(_, _, _)
        | Node::SizeofType(_, _)
        | Node::Cast(_, _, _)
        | Node::Binary(_, _, _, _)
        | Node::Choice(_, _, _, _) => Ok(None),
    }
}

/// NAME, NAME + c, &NAME, &NAME[c]
#[tactic(auto, using(crate::proofs::Spotted::spot_leaf, crate::proofs::Spotted::spot_call, crate::proofs::Spotted::spot_sum, crate::proofs::Spotted::spot_prefix))]
pub fn spot<'a, 'b>(
    alloc: Global,
    here: &'b Environment<'a>,
    e: &'a Expr,
) -> Result<Option<StaticPlace<'a, 'b>>, AllocError>
    ensures { IfOk result (λ s. option_map spot_of s ≡ spot (environment_of here.now) e.now) }
{
    match &e.node {
        Node::Leaf(_, kind, name) => Ok(item_leaf(here, *kind, name)),
        Node::Binary(_, op, a, c) => if is_add(*op) {
            item_behind(alloc, here, a, c)
        } else {
            Ok(None)
        },
        Node::Prefix(_, op, a) => if is_address(*op) {
            address(alloc, here, a)
        } else {
            Ok(None)
        },
        Node::Paren(_, _)
        | Node::Index(_, _, _)
        | Node::Call(_, _, _)
        | Node::Member(_, _, _, _, _)
        | Node::After(_, _, _)
        | Node::SizeofType(_, _)
        | Node::Cast(_, _, _)
        | Node::Choice(_, _, _, _) => Ok(None),
    }
}

/// Whether a place is one that a pointer to this type may hold: its type is that, and it is within the object as far as its bound is known.
pub fn is_spot(t: &CType, s: Option<StaticPlace>) -> bool
    ensures { (v : around.Environment) → result ≡ is_spot v (plain t.now) (option_map spot_of s.entry) }
{
    match s {
        None => false,
        Some(s) => same(t, s.ctype) && (s.bound == 0 || s.items <= s.bound),
    }
}
