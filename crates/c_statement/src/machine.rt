// One token more of a block.
ghost use Rattle.std.specs.Prelude.{◌≡◌, ◌∷◌, IfOk, Some, drop};
ghost use Rattle.c_expr.specs.First.{first};
ghost use Rattle.c_statement.specs.Parts.{also_of};
ghost use Rattle.c_declaration.specs.LocalReading.{local_offer};
ghost use Rattle.c_statement.specs.Tokens.{is_semicolon, is_open_paren, is_close_brace, is_else, is_while};
ghost use Rattle.c_statement.specs.Machine.{Gives, goes, keyword, begins, ends_block, inside, declaring, starts_local, items, until, continues, behind, takes_else, if_part, on_else, outer_of, after, opens, paren, semicolon, colon, shift, settle, begun_block};

use crate::block::{Block, Opened};
use crate::built::paired;
use crate::frame::{if_part, outer_of, settle};
use crate::parts::{
    also_of, begun_of, block_of, break_of, closed_of, continue_of, declares_of, default_head,
    empty, placed,
};
use crate::state::{At, Control, Frame, Mode, Opener, Optional, Outer, Purpose, Reader, Required};
use crate::value::{begin, maybe, value_begins, valued, waits};
use c_declaration::{Built, LocalParser, Step, local_offer};
use c_expr::{Boxed, Stack, SynFault};
use c_lex::{Keyword, Place};
use c_symbol::{Symbol, Terminal};
use c_trees::statement::Statement;
use std::alloc::{AllocError, Global};

/// What comes next changes, and nothing is begun or ended.
fn turned(stack: Stack<Frame>, mode: Mode) -> Result<Reader, SynFault>
    ensures { Gives result (goes mode stack) }
{
    Ok(Reader { stack, mode })
}

/// A keyword that begins a statement.
fn keyword(
    alloc: Global,
    stack: Stack<Frame>,
    word: Keyword,
    place: Place,
) -> Result<Reader, SynFault>
    ensures { Gives result (keyword word place stack) }
{
    match word {
        Keyword::If => turned(stack, Mode::Paren(Opener::Control(Control::If, place))),
        Keyword::While => turned(stack, Mode::Paren(Opener::Control(Control::While, place))),
        Keyword::Switch => turned(stack, Mode::Paren(Opener::Control(Control::Switch, place))),
        Keyword::Do => begin(stack, Frame::Do(At::new(place))),
        Keyword::For => turned(stack, Mode::Paren(Opener::For(place))),
        Keyword::Case => waits(alloc, stack, Required::Case(place)),
        Keyword::Default => turned(stack, Mode::Colon(place)),
        Keyword::Break => match break_of(alloc, place) {
            Ok(part) => turned(stack, Mode::Ends(part)),
            Err(AllocError) => Err(SynFault::NoMemory),
        },
        Keyword::Continue => match continue_of(alloc, place) {
            Ok(part) => turned(stack, Mode::Ends(part)),
            Err(AllocError) => Err(SynFault::NoMemory),
        },
        Keyword::Return => turned(stack, Mode::May(Optional::Return(place))),
        _ => Err(SynFault::Syntax(place)),
    }
}

/// The first token of a statement.
fn begins(alloc: Global, stack: Stack<Frame>, next: Terminal) -> Result<Reader, SynFault>
    ensures { Gives result (begins next.symbol stack next) }
{
    match next.symbol {
        Symbol::Semicolon => Ok(Reader {
            stack,
            mode: Mode::After(empty(alloc, next.place)?),
        }),
        Symbol::OpenBrace => Ok(Reader {
            stack,
            mode: Mode::Items(begun_of(alloc, next.place)),
        }),
        Symbol::Keyword(word) => keyword(alloc, stack, word, next.place),
        _ => value_begins(alloc, stack, Purpose::Must(Required::Evaluate), next),
    }
}

/// The `}` of a block: nothing may stand behind the outermost one.
fn ends_block(stack: Stack<Frame>, block: Option<Built<Boxed<Statement>>>) -> Reader
    ensures { ends_block block stack ≡ Some result }
{
    if stack.top().is_none() {
        return Reader {
            stack,
            mode: Mode::Done(block),
        };
    }
    Reader {
        stack,
        mode: Mode::After(block),
    }
}

/// Whether a token is `}`.
fn is_close_brace(symbol: Symbol) -> bool
    ensures { result ≡ is_close_brace symbol }
{
    matches!(symbol, Symbol::CloseBrace)
}

/// A token behind a part of a block.
fn inside(
    alloc: Global,
    stack: Stack<Frame>,
    block: Option<Built<Block>>,
    next: Terminal,
) -> Result<Reader, SynFault>
    ensures { Gives result (inside next.symbol block stack next) }
{
    if is_close_brace(next.symbol) {
        Ok(ends_block(stack, closed_of(alloc, block, next.place)?))
    } else {
        let mut stack = stack;
        stack.push(Frame::Block(block))?;
        begins(alloc, stack, next)
    }
}

/// One token more of a declaration in a block.
fn declaring(
    alloc: Global,
    stack: Stack<Frame>,
    block: Option<Built<Opened>>,
    parser: LocalParser,
    next: Terminal,
) -> Result<Reader, SynFault>
    ensures { Gives result (declaring block stack (local_offer parser next)) }
{
    match local_offer(alloc, parser, next)? {
        Step::Goes(parser) => Ok(Reader {
            stack,
            mode: Mode::Declaring(block, Boxed::new(alloc, parser)?),
        }),
        Step::Ends(read) => Ok(Reader {
            stack,
            mode: Mode::Items(declares_of(block, read.local)?),
        }),
    }
}

/// One token more of a declaration in a block that goes on.
fn declares_on(
    alloc: Global,
    stack: Stack<Frame>,
    block: Option<Built<Opened>>,
    parser: Boxed<LocalParser>,
    next: Terminal,
) -> Result<Reader, SynFault>
    ensures { Gives result (declaring block stack (local_offer parser next)) }
{
    declaring(alloc, stack, block, parser.into_inner(), next)
}

/// Whether a declaration begins.
fn starts_local(symbol: Symbol) -> bool
    ensures { result ≡ starts_local symbol }
{
    match symbol {
        Symbol::Word(_) | Symbol::Struct | Symbol::Keyword(Keyword::Register) => true,
        _ => false,
    }
}

/// A token behind the declarations of a block.
fn items(
    alloc: Global,
    stack: Stack<Frame>,
    block: Option<Built<Opened>>,
    next: Terminal,
) -> Result<Reader, SynFault>
    ensures { Gives result (items next.symbol block stack next) }
{
    if starts_local(next.symbol) {
        declaring(alloc, stack, block, LocalParser::Begin, next)
    } else {
        inside(alloc, stack, block_of(alloc, block), next)
    }
}

/// Whether a token is `while`.
fn is_while(symbol: Symbol) -> bool
    ensures { result ≡ is_while symbol }
{
    match symbol {
        Symbol::Keyword(Keyword::While) => true,
        _ => false,
    }
}

/// The `while` behind the statement of `do`.
fn until(
    stack: Stack<Frame>,
    begun: Place,
    part: Option<Built<Boxed<Statement>>>,
    symbol: Symbol,
    place: Place,
) -> Result<Reader, SynFault>
    ensures { Gives result (until symbol begun part stack) }
{
    if is_while(symbol) {
        Ok(Reader {
            stack,
            mode: Mode::Paren(Opener::Until(placed(begun, part))),
        })
    } else {
        drop(part);
        Err(SynFault::Syntax(place))
    }
}

/// A token behind a statement of which all is ended.
fn behind(
    alloc: Global,
    stack: Stack<Frame>,
    part: Option<Built<Boxed<Statement>>>,
    next: Terminal,
) -> Result<Reader, SynFault>
    ensures { Gives result (behind (part, stack) next) }
{
    let mut stack = stack;
    match outer_of(stack.pop()) {
        Outer::Do(begun) => until(stack, begun, part, next.symbol, next.place),
        Outer::Block(block) => inside(alloc, stack, also_of(block, part)?, next),
        Outer::Other => {
            drop(part);
            Err(SynFault::Syntax(next.place))
        }
    }
}

/// An `else` behind a statement of which all that it ends is ended.
fn on_else(
    stack: Stack<Frame>,
    part: Option<Built<Boxed<Statement>>>,
    place: Place,
) -> Result<Reader, SynFault>
    ensures { Gives result (on_else (part, stack)) }
{
    let mut stack = stack;
    match if_part(stack.pop()) {
        Some(control) => begin(stack, Frame::Else(paired(control, part))),
        None => {
            drop(part);
            Err(SynFault::Syntax(place))
        }
    }
}

/// Whether a token is `else`.
fn is_else(symbol: Symbol) -> bool
    ensures { result ≡ is_else symbol }
{
    match symbol {
        Symbol::Keyword(Keyword::Else) => true,
        _ => false,
    }
}

/// A token behind a statement.
fn after(
    alloc: Global,
    stack: Stack<Frame>,
    part: Option<Built<Boxed<Statement>>>,
    next: Terminal,
) -> Result<Reader, SynFault>
    ensures { Gives result (after next.symbol part stack next) }
{
    let mut stack = stack;
    let otherwise = is_else(next.symbol);
    let part = settle(alloc, otherwise, part, &mut stack)?;
    if otherwise {
        on_else(stack, part, next.place)
    } else {
        behind(alloc, stack, part, next)
    }
}

/// The `(` behind a keyword.
fn opens(alloc: Global, stack: Stack<Frame>, opener: Opener) -> Result<Reader, SynFault>
    ensures { Gives result (opens opener stack) }
{
    match opener {
        Opener::Control(control, begun) => waits(alloc, stack, Required::Control(control, begun)),
        Opener::Until(before) => waits(alloc, stack, Required::Until(before)),
        Opener::For(begun) => Ok(Reader {
            stack,
            mode: Mode::May(Optional::First(begun)),
        }),
    }
}

/// Whether a token is `(`.
fn is_open_paren(symbol: Symbol) -> bool
    ensures { result ≡ is_open_paren symbol }
{
    matches!(symbol, Symbol::OpenParen)
}

/// A token where a `(` must stand.
fn paren(
    alloc: Global,
    stack: Stack<Frame>,
    opener: Opener,
    symbol: Symbol,
    place: Place,
) -> Result<Reader, SynFault>
    ensures { Gives result (paren symbol opener stack) }
{
    if is_open_paren(symbol) {
        opens(alloc, stack, opener)
    } else {
        drop(opener);
        Err(SynFault::Syntax(place))
    }
}

/// Whether a token is `;`.
fn is_semicolon(symbol: Symbol) -> bool
    ensures { result ≡ is_semicolon symbol }
{
    matches!(symbol, Symbol::Semicolon)
}

/// A token where the `;` of a statement must stand.
fn semicolon(
    stack: Stack<Frame>,
    part: Option<Built<Boxed<Statement>>>,
    symbol: Symbol,
    place: Place,
) -> Result<Reader, SynFault>
    ensures { Gives result (semicolon symbol part stack) }
{
    if is_semicolon(symbol) {
        Ok(Reader {
            stack,
            mode: Mode::After(part),
        })
    } else {
        drop(part);
        Err(SynFault::Syntax(place))
    }
}

/// A token where the `:` of `default` must stand.
fn colon(
    alloc: Global,
    stack: Stack<Frame>,
    begun: Place,
    symbol: Symbol,
    place: Place,
) -> Result<Reader, SynFault>
    ensures { Gives result (colon symbol begun stack) }
{
    match symbol {
        Symbol::Colon => {
            match default_head(alloc, begun) {
                Ok(head) => begin(stack, Frame::Headed(head)),
                Err(AllocError) => Err(SynFault::NoMemory),
            }
        }
        _ => Err(SynFault::Syntax(place)),
    }
}

/// One token more of a block. Syntax comes where it cannot go on.
pub fn shift(alloc: Global, reader: Reader, next: Terminal) -> Result<Reader, SynFault>
    ensures { Gives result (shift reader next) }
{
    let Reader { stack, mode } = reader;
    match mode {
        Mode::Begin => begins(alloc, stack, next),
        Mode::Items(block) => items(alloc, stack, block, next),
        Mode::Declaring(block, parser) => declares_on(alloc, stack, block, parser, next),
        Mode::After(part) => after(alloc, stack, part, next),
        Mode::Done(part) => {
            drop(part);
            Err(SynFault::Syntax(next.place))
        }
        Mode::Paren(opener) => paren(alloc, stack, opener, next.symbol, next.place),
        Mode::Ends(part) => semicolon(stack, part, next.symbol, next.place),
        Mode::Colon(begun) => colon(alloc, stack, begun, next.symbol, next.place),
        Mode::May(purpose) => maybe(alloc, stack, purpose, next),
        Mode::Value(purpose, parser) => valued(alloc, stack, purpose, parser, next),
    }
}

impl Reader {
    /// Only the `{` of a block was read.
    pub fn begun(alloc: Global, place: Place) -> Reader
        ensures { result ≡ begun_block place }
    {
        Reader {
            stack: Stack::new(alloc),
            mode: Mode::Items(begun_of(alloc, place)),
        }
    }
}
