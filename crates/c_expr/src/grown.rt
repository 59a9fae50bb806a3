// Parts of an expression, grown until they are too high.
ghost use Rattle.std.specs.Prelude.{◌≡◌, IfOk, max, Some};
ghost use Rattle.c_trees.specs.ExpressionView.{tree_of};
ghost use Rattle.c_expr.specs.Grown.{taller, leaf_of, paren_of, index_of, member_of, after_of, prefix_of, binary_of, choice_of};
ghost use Rattle.c_expr.specs.Levels.{level_of};

use crate::boxed::Boxed;
use crate::levels::level_of;
use crate::{Expr, Node};
use c_lex::Place;
use c_symbol::{Access, BinaryOp, LeafKind, PrefixOp, Step};
use ldb_words::Text;
use std::alloc::{AllocError, Global};

/// The greatest height of an expression.
pub const MOST_HEIGHT: u32 = 64;

/// An expression and its height.
#[derive(Drop)]
pub struct Built {
    pub height: u32,
    pub expr: Boxed<Expr>,
}

/// What some tokens are: where they begin, the level of the grammar's rule, and the tree unless it is too high.
#[derive(Drop)]
pub struct Grown {
    pub place: Place,
    pub level: u32,
    pub tree: Option<Built>,
}

/// A tree one higher than its parts.
pub fn taller(alloc: Global, height: u32, node: Node) -> Result<Option<Built>, AllocError>
    ensures { IfOk result (λ t. t ≡ taller height (tree_of node)) }
{
    if height < MOST_HEIGHT {
        let expr = Boxed::new(alloc, Expr { node })?;
        Ok(Some(Built {
            height: height + 1,
            expr,
        }))
    } else {
        Ok(None)
    }
}

/// The greater of two heights.
pub fn greater(a: u32, b: u32) -> u32
    ensures { result ≡ max a b }
{
    if a < b { b } else { a }
}

/// A name, a constant or a string.
pub fn leaf_of(alloc: Global, place: Place, kind: LeafKind, text: Text) -> Result<Grown, AllocError>
    ensures { IfOk result (λ g. g ≡ leaf_of place kind text) }
{
    Ok(Grown {
        place,
        level: 17,
        tree: taller(alloc, 0, Node::Leaf(place, kind, text))?,
    })
}

/// An expression in parentheses.
pub fn paren_of(alloc: Global, place: Place, a: Grown) -> Result<Grown, AllocError>
    ensures { IfOk result (λ g. g ≡ paren_of place a) }
{
    let tree = match a.tree {
        Some(a) => taller(alloc, a.height, Node::Paren(place, a.expr.into_box()))?,
        None => None,
    };
    Ok(Grown {
        place,
        level: 17,
        tree,
    })
}

/// `a[b]`
pub fn index_of(alloc: Global, a: Grown, b: Grown) -> Result<Grown, AllocError>
    ensures { IfOk result (λ g. g ≡ index_of a b) }
{
    let place = a.place;
    let tree = match a.tree {
        Some(a) => match b.tree {
            Some(b) => taller(
                alloc,
                greater(a.height, b.height),
                Node::Index(place, a.expr.into_box(), b.expr.into_box()),
            )?,
            None => None,
        },
        None => None,
    };
    Ok(Grown {
        place,
        level: 16,
        tree,
    })
}

/// `a.m` or `a->m`
pub fn member_of(
    alloc: Global,
    a: Grown,
    access: Access,
    name: Place,
    text: Text,
) -> Result<Grown, AllocError>
    ensures { IfOk result (λ g. g ≡ member_of a access name text) }
{
    let place = a.place;
    let tree = match a.tree {
        Some(a) => taller(
            alloc,
            a.height,
            Node::Member(place, a.expr.into_box(), access, name, text),
        )?,
        None => None,
    };
    Ok(Grown {
        place,
        level: 16,
        tree,
    })
}

/// `a++` or `a--`
pub fn after_of(alloc: Global, a: Grown, step: Step) -> Result<Grown, AllocError>
    ensures { IfOk result (λ g. g ≡ after_of a step) }
{
    let place = a.place;
    let tree = match a.tree {
        Some(a) => taller(alloc, a.height, Node::After(place, a.expr.into_box(), step))?,
        None => None,
    };
    Ok(Grown {
        place,
        level: 16,
        tree,
    })
}

/// A prefix operator and its operand.
pub fn prefix_of(alloc: Global, place: Place, op: PrefixOp, a: Grown) -> Result<Grown, AllocError>
    ensures { IfOk result (λ g. g ≡ prefix_of place op a) }
{
    let tree = match a.tree {
        Some(a) => taller(alloc, a.height, Node::Prefix(place, op, a.expr.into_box()))?,
        None => None,
    };
    Ok(Grown {
        place,
        level: 15,
        tree,
    })
}

/// Two expressions and the operator between them.
pub fn binary_of(alloc: Global, op: BinaryOp, a: Grown, b: Grown) -> Result<Grown, AllocError>
    ensures { IfOk result (λ g. g ≡ binary_of op a b) }
{
    let place = a.place;
    let level = level_of(op);
    let tree = match a.tree {
        Some(a) => match b.tree {
            Some(b) => taller(
                alloc,
                greater(a.height, b.height),
                Node::Binary(place, op, a.expr.into_box(), b.expr.into_box()),
            )?,
            None => None,
        },
        None => None,
    };
    Ok(Grown { place, level, tree })
}

/// `a ? b : c`
pub fn choice_of(alloc: Global, a: Grown, b: Grown, c: Grown) -> Result<Grown, AllocError>
    ensures { IfOk result (λ g. g ≡ choice_of a b c) }
{
    let place = a.place;
    let tree = match a.tree {
        Some(a) => match b.tree {
            Some(b) => match c.tree {
                Some(c) => taller(
                    alloc,
                    greater(a.height, greater(b.height, c.height)),
                    Node::Choice(
                        place,
                        a.expr.into_box(),
                        b.expr.into_box(),
                        c.expr.into_box(),
                    ),
                )?,
                None => None,
            },
            None => None,
        },
        None => None,
    };
    Ok(Grown {
        place,
        level: 3,
        tree,
    })
}
