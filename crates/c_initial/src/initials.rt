// Initializers of objects at file scope (C90 6.5.7), as far as their form alone tells.
ghost use Rattle.std.specs.Prelude.{◌≡◌, option_map, map};
ghost use Rattle.c_typing.specs.Plain.{plain};
ghost use Rattle.c_mentions.specs.Tags.{now};
ghost use Rattle.c_initial.specs.Initials.{text_of, fits, count_of, rule_of, is_aggregate};

use c_symbol::LeafKind;
use c_tree::CType;
use c_trees::declaration::{Initial, InitialNode};
use c_trees::expression::{Expr, Node};
use ldb_words::Text;

/// The text of a string literal.
#[tactic(auto, using(crate::proofs::TextStarts::call_is_no_text))]
pub fn text_of(e: &Expr) -> Option<&Text>
    ensures { option_map now result ≡ text_of e.now }
{
    match &e.node {
        Node::Leaf(_, LeafKind::Text, text) => Some(text),
        Node::Leaf(_, LeafKind::Name | LeafKind::Constant(_) | LeafKind::Character(_), _) => None,
        Node::Paren(_, _)
        | Node::Index(_, _, _)
        | Node::Call(_, _, _)
        | Node::Member(_, _, _, _, _)
        | Node::After(_, _, _)
        | Node::Prefix(_, _, _)
        | Node::SizeofType(_, _)
        | Node::Cast(_, _, _)
        | Node::Binary(_, _, _, _)
        | Node::Choice(_, _, _, _) => None,
    }
}

/// Whether an array of so many items takes a string: it is of `char`, and the characters without the NUL fit.
pub fn fits(item: &CType, bound: u32, text: Option<&Text>) -> bool
    ensures { result ≡ fits (plain item.now) bound (option_map now text.entry) }
{
    match text {
        None => false,
        Some(text) => match item {
            CType::Char => text.len() <= bound as usize,
            CType::Int
            | CType::Unsigned
            | CType::Void
            | CType::Pointer(_)
            | CType::Array(_, _)
            | CType::Struct(_) => false,
        },
    }
}

/// How many items a list in braces has; an expression has none.
#[tactic(auto, using(crate::proofs::TextStarts::count_braces))]
pub fn count_of(i: &Initial) -> usize
    ensures { result ≡ count_of i.now }
{
    match &i.node {
        InitialNode::Value(_) => 0,
        InitialNode::Braces(_, items) => items.len(),
    }
}

/// The rule that a wrong initializer of an object of a type breaks.
pub fn rule_of(t: &CType) -> u8
    ensures { result ≡ rule_of (plain t.now) }
{
    match t {
        CType::Pointer(_) => 12,
        CType::Array(_, _) | CType::Struct(_) => 13,
        CType::Char | CType::Int | CType::Unsigned | CType::Void => 11,
    }
}

/// Whether a type is that of an aggregate, which a list in braces may initialize.
pub fn is_aggregate(t: &CType) -> bool
    ensures { result ≡ is_aggregate (plain t.now) }
{
    match t {
        CType::Array(_, _) | CType::Struct(_) => true,
        CType::Char | CType::Int | CType::Unsigned | CType::Void | CType::Pointer(_) => false,
    }
}
