// What was read so far of a block.
ghost use Rattle.std.specs.Prelude.{◌≡◌};

use crate::block::{Block, Opened};
use c_declaration::{Built, LocalParser};
use c_expr::{Boxed, Parser, Stack};
use c_lex::Place;
use c_trees::expression::Expr;
use c_trees::statement::{Head, Statement};
use std::marker::Model;

/// Keywords before a controlling expression.
#[derive(Clone, Copy)]
pub enum Control {
    If,
    While,
    Switch,
}

/// Where a keyword stands that waits for its statement. It is moved and not copied, so a frame that is taken apart leaves nothing behind.
#[derive(Drop)]
pub struct At {
    place: Place,
}

impl Model for At {
    ghost use Rattle.c_lex.specs.declared.token.Place.{Place};

    ghost Value = { Place };

    ghost view = { λ a. a.place };
}

impl At {
    /// A keyword at this place.
    pub fn new(place: Place) -> At
        ensures { result ≡ place }
    {
        At { place }
    }

    /// Its place.
    pub fn place(self) -> Place
        ensures { result ≡ self }
    {
        self.place
    }
}

/// What stands on the left of a statement that is to come.
#[derive(Drop)]
pub enum Frame {
    /// `if ( expr )`
    If(Option<Built<(Place, Boxed<Expr>)>>),
    /// `if ( expr ) statement else`
    Else(Option<Built<((Place, Boxed<Expr>), Boxed<Statement>)>>),
    Headed(Option<Built<Boxed<Head>>>),
    /// `do`
    Do(At),
    /// A block so far
    Block(Option<Built<Block>>),
}

/// What an expression is for, where one must stand, and what was read before it.
#[derive(Drop)]
pub enum Required {
    Evaluate,
    Control(Control, Place),
    /// `do statement while (`
    Until(Option<Built<(Place, Boxed<Statement>)>>),
    Case(Place),
}

/// What an expression is for, where one may stand, and what was read before it.
#[derive(Drop)]
pub enum Optional {
    /// `for (`
    First(Place),
    /// `for ( [expr] ;`
    Second(Option<Built<(Place, Option<Boxed<Expr>>)>>),
    /// `for ( [expr] ; [expr] ;`
    Third(Option<Built<((Place, Option<Boxed<Expr>>), Option<Boxed<Expr>>)>>),
    Return(Place),
}

/// What an expression is for.
#[derive(Drop)]
pub enum Purpose {
    Must(Required),
    May(Optional),
}

/// What a `(` must follow.
#[derive(Drop)]
pub enum Opener {
    Control(Control, Place),
    /// `do statement while`
    Until(Option<Built<(Place, Boxed<Statement>)>>),
    For(Place),
}

/// What goes on behind a statement.
#[derive(Drop)]
pub enum Outer {
    /// `do` at this place
    Do(Place),
    Block(Option<Built<Block>>),
    Other,
}

/// The token behind an expression.
#[derive(Clone, Copy)]
pub enum Closer {
    Semicolon,
    Paren,
    Colon,
}

/// What may come next.
#[derive(Drop)]
pub enum Mode {
    /// A statement
    Begin,
    /// A declaration, a statement or the `}` of a block with only its declarations so far
    Items(Option<Built<Opened>>),
    /// What goes on with a declaration of a block
    Declaring(Option<Built<Opened>>, Boxed<LocalParser>),
    /// What follows a statement
    After(Option<Built<Boxed<Statement>>>),
    /// Nothing, since the outermost block was read
    Done(Option<Built<Boxed<Statement>>>),
    /// A `(`
    Paren(Opener),
    /// The `;` of a statement
    Ends(Option<Built<Boxed<Statement>>>),
    /// The `:` of `default`
    Colon(Place),
    /// An expression or what follows it
    May(Optional),
    /// What goes on with an expression or follows it
    Value(Purpose, Parser),
}

/// What was read so far of a block.
ghost use Rattle.std.specs.Prelude.{◌≡◌};

#[derive(Drop)]
pub struct Reader {
    pub stack: Stack<Frame>,
    pub mode: Mode,
}
