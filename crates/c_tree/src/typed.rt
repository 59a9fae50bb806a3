// Checked expressions and statements: one variant for each alternative of the grammar, with its parts in order.

use crate::CType;
use ldb_words::Many;

/// Where a node begins: the offset in bytes, the line and the column of its first token, or of the token after it where it has none. Lines and columns count from 1.
#[derive(Clone, Copy, PartialEq, Eq, Debug)]
pub struct Site {
    pub at: u32,
    pub line: u32,
    pub column: u32,
}

/// What each expression keeps: where it begins, and its type.
#[derive(Drop)]
pub struct Head {
    pub site: Site,
    pub ctype: CType,
}

/// The binary operators but `&&`, `||`, `,` and the assignments (C90 6.3.5 to 6.3.12).
#[derive(Clone, Copy, PartialEq, Eq, Debug)]
pub enum BinaryOp {
    BitOr,
    BitXor,
    BitAnd,
    Equal,
    Unequal,
    Less,
    Greater,
    LessEqual,
    GreaterEqual,
    ShiftLeft,
    ShiftRight,
    Add,
    Subtract,
    Multiply,
    Divide,
    Remainder,
}

/// The unary operators `+ - ~ !` (C90 6.3.3.3).
#[derive(Clone, Copy, PartialEq, Eq, Debug)]
pub enum UnaryOp {
    Plus,
    Minus,
    Complement,
    Not,
}

/// `++` and `--` (C90 6.3.2.4 and 6.3.3.1).
#[derive(Clone, Copy, PartialEq, Eq, Debug)]
pub enum StepOp {
    Up,
    Down,
}

/// A checked expression (C90 6.3).
#[derive(Drop)]
pub enum Typed {
    /// `a, b`
    Comma(Head, Box<Typed>, Box<Typed>),
    /// `a = b`, or with the operator of a compound assignment `a op= b`
    Assign(Head, Box<Typed>, Option<BinaryOp>, Box<Typed>),
    /// `c ? a : b`
    Choice(Head, Box<Typed>, Box<Typed>, Box<Typed>),
    /// `a || b`
    Or(Head, Box<Typed>, Box<Typed>),
    /// `a && b`
    And(Head, Box<Typed>, Box<Typed>),
    /// `a op b`
    Binary(Head, Box<Typed>, BinaryOp, Box<Typed>),
    /// `(type) a`, whose type is that of the node
    Cast(Head, Box<Typed>),
    /// `++a` or `--a`
    Before(Head, StepOp, Box<Typed>),
    /// `&a`
    Address(Head, Box<Typed>),
    /// `*a`
    Follow(Head, Box<Typed>),
    /// `op a`
    Unary(Head, UnaryOp, Box<Typed>),
    /// `sizeof a`
    SizeOf(Head, Box<Typed>),
    /// `sizeof (type)`
    SizeOfType(Head, CType),
    /// `a[b]`
    Index(Head, Box<Typed>, Box<Typed>),
    /// A call of the function with this number in the list of names
    Call(Head, u32, Vec<Typed>),
    /// `a.m`, by the member's number in its struct
    Dot(Head, Box<Typed>, u32),
    /// `a->m`, by the member's number in its struct
    Arrow(Head, Box<Typed>, u32),
    /// `a++` or `a--`
    After(Head, Box<Typed>, StepOp),
    /// The name of an object, by its number in the list of names
    Name(Head, u32),
    /// An integer or character constant, by its bits
    Constant(Head, u32),
    /// A string literal that is an object, by its number in `strings`
    Literal(Head, u32),
    /// `(a)`
    Parens(Head, Box<Typed>),
}

/// An expression at a stopping point, by the point's number.
#[derive(Drop)]
pub struct Pointed {
    pub point: u32,
    pub e: Typed,
}

/// A local that a block declares, by its number in the function's `locals`, and its initializer with the point of its declarator.
#[derive(Drop)]
pub struct DeclaredLocal {
    pub local: u32,
    pub init: Option<Pointed>,
}

/// A checked statement (C90 6.6).
#[derive(Drop)]
pub enum Stmt {
    /// An expression and `;`, or `;` alone
    Value(Site, Option<Pointed>),
    /// A block: its locals, its statements, and the line and column of its `}`
    Block(Site, Many<DeclaredLocal>, Vec<Stmt>, u32, u32),
    /// `if`, with its `else`
    If(Site, Pointed, Box<Stmt>, Option<Box<Stmt>>),
    /// `while`
    While(Site, Pointed, Box<Stmt>),
    /// `do` .. `while`
    Do(Site, Box<Stmt>, Pointed),
    /// `for`, with the parts that it has
    For(Site, Option<Pointed>, Option<Pointed>, Option<Pointed>, Box<Stmt>),
    /// `switch`
    Switch(Site, Pointed, Box<Stmt>),
    /// `case`, with the bits of its constant in the promoted type of its `switch`
    Case(Site, u32, Box<Stmt>),
    /// `default`
    Default(Site, Box<Stmt>),
    /// `break`
    Break(Site),
    /// `continue`
    Continue(Site),
    /// `return`, by its point's number, with its expression
    Return(Site, u32, Option<Typed>),
}
