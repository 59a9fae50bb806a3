// Operators and punctuators.
ghost use Rattle.std.specs.Prelude.{◌≡◌};
ghost use Rattle.c_lex.specs.Punctuators.{punctuator_of, ones, before_equal, before_greater, twins, shifts, two_bytes, three_bytes};
ghost use Rattle.c_lex.specs.Bytes.{lookup};

/// An operator or punctuator (C90 6.1.5, 6.1.6).
#[derive(Clone, Copy, Debug, PartialEq, Eq)]
pub enum Punctuator {
    OpenBracket,
    CloseBracket,
    OpenParen,
    CloseParen,
    OpenBrace,
    CloseBrace,
    Dot,
    Comma,
    Semicolon,
    Colon,
    Question,
    Tilde,
    Exclamation,
    Ampersand,
    Star,
    Plus,
    Minus,
    Slash,
    Percent,
    Less,
    Greater,
    Caret,
    Bar,
    Equal,
    Arrow,
    PlusPlus,
    MinusMinus,
    LessLess,
    GreaterGreater,
    AmpersandAmpersand,
    BarBar,
    LessEqual,
    GreaterEqual,
    EqualEqual,
    ExclamationEqual,
    StarEqual,
    SlashEqual,
    PercentEqual,
    PlusEqual,
    MinusEqual,
    AmpersandEqual,
    CaretEqual,
    BarEqual,
    LessLessEqual,
    GreaterGreaterEqual,
}

/// Punctuators of one byte.
fn ones(byte: u8) -> Option<Punctuator>
    ensures { result ≡ lookup ones byte }
{
    match byte {
        b'[' => Some(Punctuator::OpenBracket),
        b']' => Some(Punctuator::CloseBracket),
        b'(' => Some(Punctuator::OpenParen),
        b')' => Some(Punctuator::CloseParen),
        b'{' => Some(Punctuator::OpenBrace),
        b'}' => Some(Punctuator::CloseBrace),
        b'.' => Some(Punctuator::Dot),
        b',' => Some(Punctuator::Comma),
        b';' => Some(Punctuator::Semicolon),
        b':' => Some(Punctuator::Colon),
        b'?' => Some(Punctuator::Question),
        b'~' => Some(Punctuator::Tilde),
        b'!' => Some(Punctuator::Exclamation),
        b'&' => Some(Punctuator::Ampersand),
        b'*' => Some(Punctuator::Star),
        b'+' => Some(Punctuator::Plus),
        b'-' => Some(Punctuator::Minus),
        b'/' => Some(Punctuator::Slash),
        b'%' => Some(Punctuator::Percent),
        b'<' => Some(Punctuator::Less),
        b'>' => Some(Punctuator::Greater),
        b'^' => Some(Punctuator::Caret),
        b'|' => Some(Punctuator::Bar),
        b'=' => Some(Punctuator::Equal),
        _ => None,
    }
}

/// Punctuators with `=` behind.
fn before_equal(byte: u8) -> Option<Punctuator>
    ensures { result ≡ lookup before_equal byte }
{
    match byte {
        b'<' => Some(Punctuator::LessEqual),
        b'>' => Some(Punctuator::GreaterEqual),
        b'=' => Some(Punctuator::EqualEqual),
        b'!' => Some(Punctuator::ExclamationEqual),
        b'*' => Some(Punctuator::StarEqual),
        b'/' => Some(Punctuator::SlashEqual),
        b'%' => Some(Punctuator::PercentEqual),
        b'+' => Some(Punctuator::PlusEqual),
        b'-' => Some(Punctuator::MinusEqual),
        b'&' => Some(Punctuator::AmpersandEqual),
        b'^' => Some(Punctuator::CaretEqual),
        b'|' => Some(Punctuator::BarEqual),
        _ => None,
    }
}

/// Punctuators with `>` behind.
fn before_greater(byte: u8) -> Option<Punctuator>
    ensures { result ≡ lookup before_greater byte }
{
    match byte {
        b'-' => Some(Punctuator::Arrow),
        b'>' => Some(Punctuator::GreaterGreater),
        _ => None,
    }
}

/// Punctuators two of one byte.
fn twins(byte: u8) -> Option<Punctuator>
    ensures { result ≡ lookup twins byte }
{
    match byte {
        b'+' => Some(Punctuator::PlusPlus),
        b'-' => Some(Punctuator::MinusMinus),
        b'<' => Some(Punctuator::LessLess),
        b'&' => Some(Punctuator::AmpersandAmpersand),
        b'|' => Some(Punctuator::BarBar),
        _ => None,
    }
}

/// Punctuators two of one byte with `=` behind.
fn shifts(byte: u8) -> Option<Punctuator>
    ensures { result ≡ lookup shifts byte }
{
    match byte {
        b'<' => Some(Punctuator::LessLessEqual),
        b'>' => Some(Punctuator::GreaterGreaterEqual),
        _ => None,
    }
}

/// The punctuator of two bytes.
fn two_bytes(a: u8, b: u8) -> Option<Punctuator>
    ensures { result ≡ two_bytes a b }
{
    if b == b'=' {
        return before_equal(a);
    }
    if b == b'>' {
        return before_greater(a);
    }
    if a == b { twins(a) } else { None }
}

/// The punctuator of three bytes.
fn three_bytes(a: u8, b: u8, c: u8) -> Option<Punctuator>
    ensures { result ≡ three_bytes a b c }
{
    if a == b && c == b'=' { shifts(a) } else { None }
}

/// The operator or punctuator that some bytes are, if they are one.
pub fn punctuator_of(bytes: &[u8]) -> Option<Punctuator>
    ensures { result ≡ punctuator_of bytes.now }
{
    match bytes {
        [a] => ones(*a),
        [a, b] => two_bytes(*a, *b),
        [a, b, c] => three_bytes(*a, *b, *c),
        _ => None,
    }
}
