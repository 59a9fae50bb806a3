//! Trees of expressions.

use c_lex::Place;
use c_symbol::{Access, BinaryOp, LeafKind, PrefixOp, Step};
use ldb_words::Text;
use std::marker::Model;

/// What a type's name begins with (C90 6.5.2).
#[derive(Drop)]
pub enum Spec {
    Char,
    Int,
    Unsigned,
    /// `unsigned int`, another spelling of `unsigned`.
    UnsignedInt,
    Void,
    /// `struct` and a tag.
    Struct(Text),
}

/// What follows in a type's name (C90 6.5.5): so many `*`, then a declarator in parentheses where there is one, then the bounds of arrays, `None` for `[]`.
#[derive(Drop)]
#[cycle(expr)]
pub struct Abstract {
    pub stars: u64,
    pub inner: Option<Box<Abstract>>,
    pub bounds: Vec<Option<Expr>>,
}

/// A type's name.
#[derive(Drop)]
#[cycle(expr)]
pub struct TypeName {
    pub spec: Spec,
    pub declarator: Abstract,
}

/// An expression. Contracts see it as a tree without where it lies in memory.
#[derive(Drop)]
#[cycle(expr)]
pub struct Expr {
    pub node: Node,
}

/// The alternatives of the grammar. Each has the place of its first token. A leaf has the text of a name or a string, a member
/// the place and the text of its name.
#[derive(Drop)]
#[cycle(expr)]
pub enum Node {
    Leaf(Place, LeafKind, Text),
    Paren(Place, Box<Expr>),
    Index(Place, Box<Expr>, Box<Expr>),
    Call(Place, Box<Expr>, Vec<Expr>),
    Member(Place, Box<Expr>, Access, Place, Text),
    After(Place, Box<Expr>, Step),
    Prefix(Place, PrefixOp, Box<Expr>),
    SizeofType(Place, TypeName),
    Cast(Place, TypeName, Box<Expr>),
    Binary(Place, BinaryOp, Box<Expr>, Box<Expr>),
    Choice(Place, Box<Expr>, Box<Expr>, Box<Expr>),
}

impl Model for Abstract {
    ghost use Rattle.std.specs.Prelude.{List};
    ghost use Rattle.std.specs.Coded.{codes, code_by};
    ghost use Rattle.c_trees.specs.Expressions.{Tree, depth, behind_stars, with_bounds};
    ghost use Rattle.c_trees.specs.ExpressionStored.{Item, items_of, tree_from, tree_from-items_of};

    ghost Value = { Tree };

    ghost coded = { code_by (List Item) (Prim.hlevel codes) items_of tree_from tree_from-items_of };

    ghost view = { λ a. with_bounds (behind_stars (λ b. b.value) a.stars a.inner) a.bounds.items };

    ghost size = { depth };

    ghost use Rattle.c_trees.specs.ExpressionSizes.{abstract_falls};

    ghost size_decreases = { λ a h. abstract_falls a };
}

impl Model for Expr {
    ghost use Rattle.std.specs.Prelude.{List};
    ghost use Rattle.std.specs.Coded.{codes, code_by};
    ghost use Rattle.c_trees.specs.Expressions.{Tree, depth};
    ghost use Rattle.c_trees.specs.ExpressionStored.{Item, items_of, tree_from, tree_from-items_of};

    ghost Value = { Tree };

    ghost coded = { code_by (List Item) (Prim.hlevel codes) items_of tree_from tree_from-items_of };

    ghost use Rattle.c_trees.specs.ExpressionView.{tree_of};

    ghost view = { λ e. tree_of e.node };

    ghost size = { depth };

    ghost use Rattle.std.proofs.Common.{arith};
    ghost use Rattle.c_trees.specs.ExpressionSizes.{grows_arguments, most_arguments};

    ghost size_decreases = { λ a h. Prim.grind (arith, grows_arguments, most_arguments) };
}
