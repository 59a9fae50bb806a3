//! Trees of statements.

use crate::declaration::Local;
use crate::expression::Expr;
use c_lex::Place;
use ldb_words::Many;
use std::marker::Model;

/// A statement (C90 6.6). Contracts see it as a tree without where it lies in memory.
#[derive(Drop)]
#[cycle(statement)]
pub struct Statement {
    pub node: StatementNode,
}

/// The alternatives of the grammar. Each has the place of its first token but an expression statement, whose expression has it. A
/// block has its declarations, its statements and the place of its `}`.
#[derive(Drop)]
#[cycle(statement)]
pub enum StatementNode {
    Empty(Place),
    Evaluate(Expr),
    Block(Place, Many<Local>, Vec<Statement>, Place),
    If(Place, Expr, Box<Statement>, Option<Box<Statement>>),
    While(Place, Expr, Box<Statement>),
    Do(Place, Box<Statement>, Expr),
    For(Place, Option<Expr>, Option<Expr>, Option<Expr>, Box<Statement>),
    Switch(Place, Expr, Box<Statement>),
    Case(Place, Expr, Box<Statement>),
    Default(Place, Box<Statement>),
    Break(Place),
    Continue(Place),
    Return(Place, Option<Expr>),
}

/// What stands before the statement of a loop, a `switch` or a label.
#[derive(Drop)]
pub enum Head {
    While(Place, Expr),
    For(Place, Option<Expr>, Option<Expr>, Option<Expr>),
    Switch(Place, Expr),
    Case(Place, Expr),
    Default(Place),
}

impl Model for Statement {
    ghost use Rattle.std.specs.Prelude.{List};
    ghost use Rattle.std.specs.Coded.{codes, code_by};
    ghost use Rattle.c_trees.specs.contracts.expression.Expr as e;
    ghost use Rattle.c_trees.specs.contracts.declaration.Declarator as d;
    ghost use Rattle.c_trees.specs.contracts.declaration.Initial as i;
    ghost use Rattle.c_trees.specs.Statements.{StatementTree, depth};
    ghost use Rattle.c_trees.specs.StatementStored.{Item, items_of, tree_from, tree_from-items_of};

    ghost Value = { StatementTree };

    ghost coded = { code_by (List Item) (Prim.hlevel (codes, e.the_row.coded, d.the_row.coded, i.the_row.coded)) items_of tree_from tree_from-items_of };

    ghost use Rattle.c_trees.specs.StatementView.{statement_of};

    ghost view = { λ s. statement_of s.node };

    ghost size = { depth };

    ghost use Rattle.std.proofs.Common.{arith};
    ghost use Rattle.c_trees.specs.StatementSizes.{grows_statements, most_statements};

    ghost size_decreases = { λ a h. Prim.grind (arith, grows_statements, most_statements) };
}
