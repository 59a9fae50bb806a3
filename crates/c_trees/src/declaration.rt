//! Trees of declarators, initializers and declarations.

use crate::expression::{Abstract, Expr, Spec};
use c_lex::Place;
use ldb_words::{Many, Text};
use std::marker::Model;

/// A declarator (C90 6.5.4). Contracts see it as a tree without where it lies in memory.
#[derive(Drop)]
#[cycle(declarator)]
pub struct Declarator {
    pub node: DeclaratorNode,
}

/// The alternatives of a declarator. Each has the place of its first token.
#[derive(Drop)]
#[cycle(declarator)]
pub enum DeclaratorNode {
    Name(Place, Text),
    Parens(Place, Box<Declarator>),
    /// So many `*`, one at least, before a declarator that has none in front.
    Pointers(Place, u64, Box<Declarator>),
    /// With its bound, `None` for `[]`.
    Array(Place, Box<Declarator>, Option<Expr>),
    /// With its parameters. It has none where `()` or `(void)` stands.
    Function(Place, Box<Declarator>, Vec<Parameter>),
}

/// A parameter of a function (C90 6.5.4.3). Contracts see it as a tree, too.
#[derive(Drop)]
#[cycle(declarator)]
pub struct Parameter {
    pub node: ParameterNode,
}

/// The alternatives of a parameter. Each has the place of its first token.
#[derive(Drop)]
#[cycle(declarator)]
pub enum ParameterNode {
    /// Whether it has `register`, how its type begins, and its declarator.
    Named(Place, bool, Spec, Declarator),
    Unnamed(Place, Spec, Abstract),
}

/// An initializer (C90 6.5.7). Contracts see it as a tree without where it lies in memory.
#[derive(Drop)]
#[cycle(initial)]
pub struct Initial {
    pub node: InitialNode,
}

/// The alternatives of an initializer.
#[derive(Drop)]
#[cycle(initial)]
pub enum InitialNode {
    Value(Expr),
    /// The place of the `{`, and one initializer at least.
    Braces(Place, Vec<Initial>),
}

/// A declared name: its declarator, and its initializer where it has one.
#[derive(Drop)]
pub struct Declared {
    pub declarator: Declarator,
    pub initial: Option<Initial>,
}

/// A declaration in a block (C90 6.5): where it begins, whether it has `register`, how its type begins, and what is declared.
#[derive(Drop)]
pub struct Local {
    pub place: Place,
    pub register: bool,
    pub spec: Spec,
    pub names: Many<Declared>,
}

/// The storage class of a declaration at file scope (C90 6.5.1).
#[derive(Clone, Copy, Debug, PartialEq, Eq)]
pub enum Storage {
    Plain,
    Extern,
    Static,
}

/// How a type begins at file scope.
#[derive(Drop)]
pub enum FileSpec {
    Named(Spec),
    /// A struct with its members (C90 6.5.2.1). Structs in structs may nest to any depth, so they are kept flat, in the order of the text.
    Members(Many<MemberPart>),
}

/// A part of a struct with members.
#[derive(Drop)]
pub enum MemberPart {
    /// `struct`, where it begins and its tag, and `{`. The parts that follow are inside.
    Opens(Place, Text),
    /// Members of a named type, and where they begin.
    Row(Place, Spec, Many<Declarator>),
    /// The `}` of a struct that was opened inside, and the members that have it as their type.
    Closes(Many<Declarator>),
}

/// A declaration at file scope: where it begins, its storage class, how its type begins, and what is declared.
#[derive(Drop)]
pub struct Head {
    pub place: Place,
    pub storage: Storage,
    pub spec: FileSpec,
    pub names: Many<Declared>,
}

/// What stands before the body of a function (C90 6.7.1).
#[derive(Drop)]
pub struct FunctionHead {
    pub place: Place,
    pub storage: Storage,
    pub spec: FileSpec,
    pub declarator: Declarator,
}

impl Model for Declarator {
    ghost use Rattle.std.specs.Prelude.{List};
    ghost use Rattle.std.specs.Coded.{codes, code_by};
    ghost use Rattle.c_trees.specs.contracts.expression.Expr as e;
    ghost use Rattle.c_trees.specs.Declarators.{DeclaratorTree, depth};
    ghost use Rattle.c_trees.specs.DeclaratorStored.{Item, items_of, tree_from, tree_from-items_of};

    ghost Value = { DeclaratorTree };

    ghost coded = { code_by (List Item) (Prim.hlevel (codes, e.the_row.coded)) items_of tree_from tree_from-items_of };

    ghost use Rattle.c_trees.specs.DeclarationView.{tree_of};

    ghost view = { λ d. tree_of d.node };

    ghost size = { depth };

    ghost use Rattle.std.proofs.Common.{arith};
    ghost use Rattle.c_trees.specs.DeclarationSizes.{grows_parameters, most_parameters};

    ghost size_decreases = { λ a h. Prim.grind (arith, grows_parameters, most_parameters) };
}

impl Model for Parameter {
    ghost use Rattle.std.specs.Prelude.{List};
    ghost use Rattle.std.specs.Coded.{codes, code_by};
    ghost use Rattle.c_trees.specs.contracts.expression.Expr as e;
    ghost use Rattle.c_trees.specs.Declarators.{DeclaratorTree, depth};
    ghost use Rattle.c_trees.specs.DeclaratorStored.{Item, items_of, tree_from, tree_from-items_of};

    ghost Value = { DeclaratorTree };

    ghost coded = { code_by (List Item) (Prim.hlevel (codes, e.the_row.coded)) items_of tree_from tree_from-items_of };

    ghost use Rattle.c_trees.specs.DeclarationView.{parameter_of};

    ghost view = { λ p. parameter_of p.node };

    ghost size = { depth };

    ghost use Rattle.std.proofs.Common.{arith};

    ghost size_decreases = { λ a h. Prim.grind (arith) };
}

impl Model for Initial {
    ghost use Rattle.std.specs.Prelude.{List};
    ghost use Rattle.std.specs.Coded.{codes, code_by};
    ghost use Rattle.c_trees.specs.contracts.expression.Expr as e;
    ghost use Rattle.c_trees.specs.Initializers.{InitialTree, depth};
    ghost use Rattle.c_trees.specs.InitializerStored.{Item, items_of, tree_from, tree_from-items_of};

    ghost Value = { InitialTree };

    ghost coded = { code_by (List Item) (Prim.hlevel (codes, e.the_row.coded)) items_of tree_from tree_from-items_of };

    ghost use Rattle.c_trees.specs.DeclarationView.{initial_of};

    ghost view = { λ i. initial_of i.node };

    ghost size = { depth };

    ghost use Rattle.std.proofs.Common.{arith};
    ghost use Rattle.c_trees.specs.DeclarationSizes.{grows_items, most_items};

    ghost size_decreases = { λ a h. Prim.grind (arith, grows_items, most_items) };
}
