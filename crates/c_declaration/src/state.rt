// What was read of a declarator, of an initializer and of a declaration.

use crate::braces::BuiltBraces;
use crate::built::Built;
use crate::front::Stars;
use crate::function::BuiltFunction;
use crate::step::Step;
use c_expr::{Boxed, Parser, Stack};
use c_lex::Place;
use c_trees::declaration::{
    Declarator, Declared, FileSpec, FunctionHead, Head, Initial, Local, MemberPart, Storage,
};
use c_trees::expression::{Abstract, Spec};
use ldb_words::Many;

/// A function's declarator whose parameters are being read: whether the next one is the first, and the `*` before it all.
#[derive(Drop)]
pub struct Taking {
    pub first: bool,
    pub stars: Option<Stars>,
    pub function: Option<BuiltFunction>,
}

/// What stands on the left of a declarator.
#[derive(Drop)]
pub enum Frame {
    /// So many `*` and a `(`, and whether a declarator without a name may stand here.
    Nest(Option<Stars>, Place, bool),
    /// A function up to this parameter: where the parameter begins, whether it has `register`, and how its type begins.
    Parameter(Taking, Place, bool, Spec),
}

/// A declarator before a `[`.
#[derive(Drop)]
pub enum Bounded {
    Named(Option<Stars>, Option<Built<Boxed<Declarator>>>),
    Unnamed(Option<Built<Abstract>>),
}

/// What may come next in a declarator.
#[derive(Drop)]
pub enum Mode {
    /// More `*`, or what follows them.
    Front(Option<Stars>),
    /// What follows a declarator with a name.
    Direct(Option<Stars>, Option<Built<Boxed<Declarator>>>),
    /// What follows a declarator without a name that is more than some `*`.
    Unnamed(Option<Built<Abstract>>),
    /// A bound or a `]`.
    Bounding(Bounded),
    /// More of a bound.
    Bound(Bounded, Parser),
    /// A parameter.
    Parameters(Taking),
    /// A type, behind a `register` that stands there.
    Registered(Taking, Place),
    /// A tag, in a parameter that begins there and may have `register`.
    Tagging(Taking, Place, bool),
}

/// What was read of a declarator.
#[derive(Drop)]
pub struct DeclaratorParser {
    pub stack: Stack<Frame>,
    pub mode: Mode,
}

/// What one token more of a declarator gives.
pub type DeclaratorStep = Step<DeclaratorParser, Option<Built<Boxed<Declarator>>>>;

/// A list of initializers that is open.
#[derive(Drop)]
pub struct OpenBraces {
    pub list: Option<BuiltBraces>,
}

/// What may come next in an initializer.
#[derive(Drop)]
pub enum InitialMode {
    /// An initializer.
    Want,
    /// An initializer or a `}`, behind a comma.
    Another,
    /// More of an expression.
    Value(Parser),
    /// What follows an initializer that is whole.
    Done(Option<Built<Boxed<Initial>>>),
}

/// What was read of an initializer.
#[derive(Drop)]
pub struct InitialParser {
    pub stack: Stack<OpenBraces>,
    pub mode: InitialMode,
}

/// What one token more of an initializer gives.
pub type InitialStep = Step<InitialParser, Option<Built<Boxed<Initial>>>>;

/// What was read of a declared name.
#[derive(Drop)]
pub enum NameParser {
    Declarator(DeclaratorParser),
    Initial(Option<Built<Boxed<Declarator>>>, InitialParser),
}

/// A declared name. Its parts are absent where they are too high.
#[derive(Drop)]
pub enum ReadName {
    Bare(Option<Built<Boxed<Declarator>>>),
    With(Option<Built<Boxed<Declarator>>>, Option<Built<Boxed<Initial>>>),
}

/// What one token more of a declared name gives.
pub type NameStep = Step<NameParser, ReadName>;

/// How a declaration in a block begins.
#[derive(Drop)]
pub struct LocalFront {
    pub place: Place,
    pub register: bool,
    pub spec: Spec,
}

/// What was read of a declaration in a block.
#[derive(Drop)]
pub enum LocalParser {
    Begin,
    Registered(Place),
    Tagging(Place, bool),
    Typed(LocalFront),
    Naming(LocalFront, Option<Built<Many<Declared>>>, NameParser),
}

/// A declaration in a block, and where it begins. There is no tree where that is too high.
#[derive(Drop)]
pub struct ReadLocal {
    pub place: Place,
    pub local: Option<Built<Local>>,
}

/// What one token more of a declaration in a block gives.
pub type LocalStep = Step<LocalParser, ReadLocal>;

/// How members of a struct begin: with a named type, or with the `}` of a struct inside.
#[derive(Drop)]
pub enum RowType {
    Named(Place, Spec),
    Closed,
}

/// What may come next among the members of a struct.
#[derive(Drop)]
pub enum RowMode {
    /// Members or a `}`.
    Begin,
    /// A tag, behind a `struct` that stands there.
    Tagging(Place),
    /// What follows a type that begins there.
    Typed(Place, Spec),
    /// More of a declarator, behind those of the same row.
    Naming(RowType, Option<Many<Declarator>>, DeclaratorParser),
}

/// What was read of the members of a struct, and how many structs are open inside.
#[derive(Drop)]
pub struct MembersParser {
    pub parts: Option<Many<MemberPart>>,
    pub inside: u64,
    pub mode: RowMode,
}

/// What one token more of the members of a struct gives: their parts, unless one is too high.
pub type MembersStep = Step<MembersParser, Option<Many<MemberPart>>>;

/// How a declaration at file scope begins.
#[derive(Clone, Copy)]
pub struct FileFront {
    pub place: Place,
    pub storage: Storage,
}

/// The names that were read, and whether there are any. They are absent where one of them is too high.
#[derive(Drop)]
pub struct Names {
    pub any: bool,
    pub list: Option<Many<Declared>>,
}

/// What was read of a declaration at file scope.
#[derive(Drop)]
pub enum FileParser {
    Begin,
    Stored(FileFront),
    /// A tag, behind a `struct` that stands there.
    Tagging(FileFront, Place),
    /// What follows a type that begins there.
    Typed(FileFront, Place, Spec),
    Members(FileFront, MembersParser),
    /// What follows a struct with its members.
    Whole(FileFront, Option<FileSpec>),
    Naming(FileFront, Option<FileSpec>, Names, NameParser),
}

/// A declaration at file scope with its `;`, or what stands before the body of a function, and where it begins. There is no tree where
/// something in it is too high.
#[derive(Drop)]
pub enum ReadHead {
    Declaration(Place, Option<Head>),
    Function(Place, Option<FunctionHead>),
}

/// What one token more of a declaration at file scope gives.
pub type FileStep = Step<FileParser, ReadHead>;
