// Blocks of which the `}` is still to come.
ghost use Rattle.std.specs.Prelude.{◌≡◌, IfOk};
ghost use Rattle.c_trees.specs.Statements.{Begun, Declares, Also, Closed};

use c_lex::Place;
use c_trees::declaration::Local;
use c_trees::statement::{Statement, StatementNode};
use ldb_words::Many;
use std::alloc::{AllocError, Global};
use std::marker::Model;

/// A block so far, which has only declarations: the place of its `{`, and them.
#[derive(Drop)]
pub struct Opened {
    place: Place,
    locals: Many<Local>,
}

/// A block so far: the place of its `{`, its declarations and its statements.
#[derive(Drop)]
pub struct Block {
    place: Place,
    locals: Many<Local>,
    statements: Vec<Statement>,
}

impl Model for Opened {
    ghost use Rattle.std.specs.Coded.{codes};
    ghost use Rattle.c_trees.specs.contracts.statement.Statement as s;
    ghost use Rattle.c_trees.specs.Statements.{StatementTree, Begun, with_locals};

    ghost Value = { StatementTree };

    ghost coded = { Prim.hlevel (codes, s.the_row.coded) };

    ghost view = { λ b. with_locals (Begun b.place) b.locals };
}

impl Model for Block {
    ghost use Rattle.std.specs.Coded.{codes};
    ghost use Rattle.c_trees.specs.contracts.statement.Statement as s;
    ghost use Rattle.c_trees.specs.Statements.{StatementTree, Begun, with_locals, with_statements};

    ghost Value = { StatementTree };

    ghost coded = { Prim.hlevel (codes, s.the_row.coded) };

    ghost view = { λ b. with_statements (with_locals (Begun b.place) b.locals) b.statements.items };
}

impl Opened {
    /// A block that is only begun.
    pub fn new(alloc: Global, place: Place) -> Opened
        ensures { result ≡ Begun place }
    {
        Opened {
            place,
            locals: Many::new(alloc),
        }
    }

    /// One declaration more.
    pub fn with_local(self, local: Local) -> Result<Opened, AllocError>
        ensures { IfOk result (λ b. b ≡ Declares self local) }
    {
        let Opened {
            place,
            locals: mut locals,
        } = self;
        locals.push(local)?;
        Ok(Opened { place, locals })
    }

    /// Statements may follow.
    pub fn into_block(self, alloc: Global) -> Block
        ensures { result ≡ self }
    {
        let Opened { place, locals } = self;
        Block {
            place,
            locals,
            statements: Vec::new(alloc),
        }
    }
}

impl Block {
    /// One statement more.
    pub fn with_statement(self, statement: Statement) -> Result<Block, AllocError>
        ensures { IfOk result (λ b. b ≡ Also self statement) }
    {
        let Block {
            place,
            locals,
            statements: mut statements,
        } = self;
        statements.push(statement)?;
        Ok(Block {
            place,
            locals,
            statements,
        })
    }

    /// The block with its `}`.
    pub fn closed(self, end: Place) -> Statement
        ensures { result ≡ Closed self end }
    {
        let Block {
            place,
            locals,
            statements,
        } = self;
        Statement {
            node: StatementNode::Block(place, locals, statements, end),
        }
    }
}
