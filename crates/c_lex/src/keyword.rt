// The keywords.
ghost use Rattle.std.specs.Prelude.{◌≡◌};
ghost use Rattle.c_lex.specs.Keywords.{keyword_of, lookup_word, or_else, early, middle, late, unused};

/// A keyword (C90 6.1.1).
#[derive(Clone, Copy, Debug, PartialEq, Eq)]
pub enum Keyword {
    Break,
    Case,
    Char,
    Continue,
    Default,
    Do,
    Else,
    Extern,
    For,
    If,
    Int,
    Register,
    Return,
    Sizeof,
    Static,
    Struct,
    Switch,
    Unsigned,
    Void,
    While,
    /// Any other keyword of C90, of which no rule of the language makes use.
    Unused,
}

/// The keywords from `break` to `extern`.
fn early(word: &[u8]) -> Option<Keyword>
    ensures { result ≡ lookup_word early word.now }
{
    if word == b"break".as_slice() {
        return Some(Keyword::Break);
    }
    if word == b"case".as_slice() {
        return Some(Keyword::Case);
    }
    if word == b"char".as_slice() {
        return Some(Keyword::Char);
    }
    if word == b"continue".as_slice() {
        return Some(Keyword::Continue);
    }
    if word == b"default".as_slice() {
        return Some(Keyword::Default);
    }
    if word == b"do".as_slice() {
        return Some(Keyword::Do);
    }
    if word == b"else".as_slice() {
        return Some(Keyword::Else);
    }
    if word == b"extern".as_slice() {
        return Some(Keyword::Extern);
    }
    None
}

/// The keywords from `for` to `sizeof`.
fn middle(word: &[u8]) -> Option<Keyword>
    ensures { result ≡ lookup_word middle word.now }
{
    if word == b"for".as_slice() {
        return Some(Keyword::For);
    }
    if word == b"if".as_slice() {
        return Some(Keyword::If);
    }
    if word == b"int".as_slice() {
        return Some(Keyword::Int);
    }
    if word == b"register".as_slice() {
        return Some(Keyword::Register);
    }
    if word == b"return".as_slice() {
        return Some(Keyword::Return);
    }
    if word == b"sizeof".as_slice() {
        return Some(Keyword::Sizeof);
    }
    None
}

/// The keywords from `static` to `while`.
fn late(word: &[u8]) -> Option<Keyword>
    ensures { result ≡ lookup_word late word.now }
{
    if word == b"static".as_slice() {
        return Some(Keyword::Static);
    }
    if word == b"struct".as_slice() {
        return Some(Keyword::Struct);
    }
    if word == b"switch".as_slice() {
        return Some(Keyword::Switch);
    }
    if word == b"unsigned".as_slice() {
        return Some(Keyword::Unsigned);
    }
    if word == b"void".as_slice() {
        return Some(Keyword::Void);
    }
    if word == b"while".as_slice() {
        return Some(Keyword::While);
    }
    None
}

/// The keywords of which no rule makes use.
fn unused(word: &[u8]) -> Option<Keyword>
    ensures { result ≡ lookup_word unused word.now }
{
    if word == b"auto".as_slice() {
        return Some(Keyword::Unused);
    }
    if word == b"const".as_slice() {
        return Some(Keyword::Unused);
    }
    if word == b"double".as_slice() {
        return Some(Keyword::Unused);
    }
    if word == b"enum".as_slice() {
        return Some(Keyword::Unused);
    }
    if word == b"float".as_slice() {
        return Some(Keyword::Unused);
    }
    if word == b"goto".as_slice() {
        return Some(Keyword::Unused);
    }
    if word == b"long".as_slice() {
        return Some(Keyword::Unused);
    }
    if word == b"short".as_slice() {
        return Some(Keyword::Unused);
    }
    if word == b"signed".as_slice() {
        return Some(Keyword::Unused);
    }
    if word == b"typedef".as_slice() {
        return Some(Keyword::Unused);
    }
    if word == b"union".as_slice() {
        return Some(Keyword::Unused);
    }
    if word == b"volatile".as_slice() {
        return Some(Keyword::Unused);
    }
    None
}

/// The keyword that a word is, if it is one.
pub fn keyword_of(word: &[u8]) -> Option<Keyword>
    ensures { result ≡ keyword_of word.now }
{
    if let Some(keyword) = early(word) {
        return Some(keyword);
    }
    if let Some(keyword) = middle(word) {
        return Some(keyword);
    }
    if let Some(keyword) = late(word) {
        return Some(keyword);
    }
    unused(word)
}
