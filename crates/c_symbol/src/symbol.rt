// What tokens are, as the grammar sees them.
ghost use Rattle.std.specs.Prelude.{◌≡◌, drop};
ghost use Rattle.c_symbol.specs.Symbols.{keyword_symbol, punctuator_symbol, symbol_of};

use c_lex::{
    Integer, Keyword, Punctuator, TokenKind, character_value, integer_of, keyword_of, punctuator_of,
};

/// Tokens that are an expression by themselves (C90 6.3.1).
#[derive(Clone, Copy)]
pub enum LeafKind {
    Name,
    Constant(Integer),
    /// A character constant, with its value of type `int`.
    Character(i32),
    /// Adjacent string literals, which are joined (C90 5.1.1.2).
    Text,
}

/// Words that begin a type.
#[derive(Clone, Copy)]
pub enum TypeWord {
    Char,
    Int,
    Unsigned,
    Void,
}

/// `++` and `--`.
#[derive(Clone, Copy)]
pub enum Step {
    Increment,
    Decrement,
}

/// `.` and `->`.
#[derive(Clone, Copy)]
pub enum Access {
    Dot,
    Arrow,
}

/// Assignment operators (C90 6.3.16).
#[derive(Clone, Copy)]
pub enum AssignOp {
    Plain,
    Add,
    Subtract,
    Multiply,
    Divide,
    Remainder,
    ShiftLeft,
    ShiftRight,
    And,
    Xor,
    Or,
}

/// Operators between two expressions (C90 6.3.5 to 6.3.14, 6.3.16, 6.3.17).
#[derive(Clone, Copy)]
pub enum BinaryOp {
    Comma,
    Assign(AssignOp),
    LogicalOr,
    LogicalAnd,
    BitOr,
    BitXor,
    BitAnd,
    Equal,
    NotEqual,
    Less,
    Greater,
    LessEqual,
    GreaterEqual,
    ShiftLeft,
    ShiftRight,
    Add,
    Subtract,
    Multiply,
    Divide,
    Remainder,
}

/// Operators in front of an expression (C90 6.3.3).
#[derive(Clone, Copy)]
pub enum PrefixOp {
    Step(Step),
    Address,
    Dereference,
    Plus,
    Minus,
    Complement,
    Not,
    Sizeof,
}

/// What a token is. `+`, `-`, `*` and `&` are `Binary`, also where they stand in front of an expression.
#[derive(Clone, Copy)]
pub enum Symbol {
    Leaf(LeafKind),
    Word(TypeWord),
    Binary(BinaryOp),
    Step(Step),
    Access(Access),
    Complement,
    Not,
    Sizeof,
    Struct,
    Question,
    Colon,
    OpenParen,
    CloseParen,
    OpenBracket,
    CloseBracket,
    OpenBrace,
    CloseBrace,
    Semicolon,
    /// A keyword that no expression has.
    Keyword(Keyword),
    /// A token that the token grammar has not.
    Other,
}

/// The symbol of a keyword.
fn keyword_symbol(keyword: Keyword) -> Symbol
    ensures { result ≡ keyword_symbol keyword }
{
    match keyword {
        Keyword::Char => Symbol::Word(TypeWord::Char),
        Keyword::Int => Symbol::Word(TypeWord::Int),
        Keyword::Unsigned => Symbol::Word(TypeWord::Unsigned),
        Keyword::Void => Symbol::Word(TypeWord::Void),
        Keyword::Sizeof => Symbol::Sizeof,
        Keyword::Struct => Symbol::Struct,
        other => Symbol::Keyword(other),
    }
}

/// The symbol of an operator or punctuator.
fn punctuator_symbol(punctuator: Punctuator) -> Symbol
    ensures { result ≡ punctuator_symbol punctuator }
{
    match punctuator {
        Punctuator::OpenBracket => Symbol::OpenBracket,
        Punctuator::CloseBracket => Symbol::CloseBracket,
        Punctuator::OpenParen => Symbol::OpenParen,
        Punctuator::CloseParen => Symbol::CloseParen,
        Punctuator::Dot => Symbol::Access(Access::Dot),
        Punctuator::Arrow => Symbol::Access(Access::Arrow),
        Punctuator::Comma => Symbol::Binary(BinaryOp::Comma),
        Punctuator::Colon => Symbol::Colon,
        Punctuator::Question => Symbol::Question,
        Punctuator::Tilde => Symbol::Complement,
        Punctuator::Exclamation => Symbol::Not,
        Punctuator::PlusPlus => Symbol::Step(Step::Increment),
        Punctuator::MinusMinus => Symbol::Step(Step::Decrement),
        Punctuator::Ampersand => Symbol::Binary(BinaryOp::BitAnd),
        Punctuator::Star => Symbol::Binary(BinaryOp::Multiply),
        Punctuator::Plus => Symbol::Binary(BinaryOp::Add),
        Punctuator::Minus => Symbol::Binary(BinaryOp::Subtract),
        Punctuator::Slash => Symbol::Binary(BinaryOp::Divide),
        Punctuator::Percent => Symbol::Binary(BinaryOp::Remainder),
        Punctuator::Less => Symbol::Binary(BinaryOp::Less),
        Punctuator::Greater => Symbol::Binary(BinaryOp::Greater),
        Punctuator::Caret => Symbol::Binary(BinaryOp::BitXor),
        Punctuator::Bar => Symbol::Binary(BinaryOp::BitOr),
        Punctuator::LessLess => Symbol::Binary(BinaryOp::ShiftLeft),
        Punctuator::GreaterGreater => Symbol::Binary(BinaryOp::ShiftRight),
        Punctuator::AmpersandAmpersand => Symbol::Binary(BinaryOp::LogicalAnd),
        Punctuator::BarBar => Symbol::Binary(BinaryOp::LogicalOr),
        Punctuator::LessEqual => Symbol::Binary(BinaryOp::LessEqual),
        Punctuator::GreaterEqual => Symbol::Binary(BinaryOp::GreaterEqual),
        Punctuator::EqualEqual => Symbol::Binary(BinaryOp::Equal),
        Punctuator::ExclamationEqual => Symbol::Binary(BinaryOp::NotEqual),
        Punctuator::Equal => Symbol::Binary(BinaryOp::Assign(AssignOp::Plain)),
        Punctuator::StarEqual => Symbol::Binary(BinaryOp::Assign(AssignOp::Multiply)),
        Punctuator::SlashEqual => Symbol::Binary(BinaryOp::Assign(AssignOp::Divide)),
        Punctuator::PercentEqual => Symbol::Binary(BinaryOp::Assign(AssignOp::Remainder)),
        Punctuator::PlusEqual => Symbol::Binary(BinaryOp::Assign(AssignOp::Add)),
        Punctuator::MinusEqual => Symbol::Binary(BinaryOp::Assign(AssignOp::Subtract)),
        Punctuator::AmpersandEqual => Symbol::Binary(BinaryOp::Assign(AssignOp::And)),
        Punctuator::CaretEqual => Symbol::Binary(BinaryOp::Assign(AssignOp::Xor)),
        Punctuator::BarEqual => Symbol::Binary(BinaryOp::Assign(AssignOp::Or)),
        Punctuator::LessLessEqual => Symbol::Binary(BinaryOp::Assign(AssignOp::ShiftLeft)),
        Punctuator::GreaterGreaterEqual => Symbol::Binary(BinaryOp::Assign(AssignOp::ShiftRight)),
        Punctuator::OpenBrace => Symbol::OpenBrace,
        Punctuator::CloseBrace => Symbol::CloseBrace,
        Punctuator::Semicolon => Symbol::Semicolon,
    }
}

/// The symbol of a token, from its kind and its bytes.
pub fn symbol_of(kind: TokenKind, spelling: &[u8]) -> Symbol
    ensures { result ≡ symbol_of kind spelling.now }
{
    match kind {
        TokenKind::Identifier => Symbol::Leaf(LeafKind::Name),
        TokenKind::Keyword => match keyword_of(spelling) {
            Some(keyword) => keyword_symbol(keyword),
            None => Symbol::Other,
        },
        TokenKind::Integer => match integer_of(spelling) {
            Some(integer) => Symbol::Leaf(LeafKind::Constant(integer)),
            None => Symbol::Other,
        },
        TokenKind::Character => Symbol::Leaf(LeafKind::Character(character_value(behind_quote(
            spelling,
        )))),
        TokenKind::Str => Symbol::Leaf(LeafKind::Text),
        TokenKind::Punctuator => match punctuator_of(spelling) {
            Some(punctuator) => punctuator_symbol(punctuator),
            None => Symbol::Other,
        },
    }
}

/// The bytes behind the opening quote.
pub fn behind_quote(spelling: &[u8]) -> &[u8]
    ensures { result.now ≡ drop 1 spelling.now }
{
    match spelling {
        [] => spelling,
        [_, behind @ ..] => behind,
    }
}
