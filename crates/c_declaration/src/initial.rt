// Reading an initializer.
ghost use Rattle.std.specs.Prelude.{◌≡◌, ◌∷◌, Some, drop};
ghost use Rattle.c_expr.specs.First.{first};
ghost use Rattle.c_declaration.specs.Feeding.{Answers};
ghost use Rattle.c_declaration.specs.Grown.{expr_of, value_of, item_of, closed_of};
ghost use Rattle.c_declaration.specs.declared.state.InitialMode.TheVariants.{Want, Another, Done};
ghost use Rattle.c_declaration.specs.InitialReading.{goes, braces_with, done, value_offered, valuing, is_open_brace, wanting, closed, is_close_brace, another, shift_mode, initial_offer, initial_start};

use crate::braces::{BuiltBraces, braces_of, closed_of, item_of, value_of};
use crate::built::{Built, expr_of};
use crate::state::{InitialMode, InitialParser, InitialStep, OpenBraces};
use crate::step::Step;
use c_expr::{Boxed, Least, Offered, Parser, Stack, SynFault, offer};
use c_lex::Place;
use c_symbol::{BinaryOp, Symbol, Terminal};
use c_trees::declaration::Initial;
use std::alloc::{AllocError, Global};

/// Reading goes on.
fn goes(mode: InitialMode, stack: Stack<OpenBraces>) -> Result<InitialStep, SynFault>
    ensures { Answers result (goes mode stack) }
{
    Ok(Step::Goes(InitialParser { stack, mode }))
}

/// A list behind a comma.
fn continued(stack: Stack<OpenBraces>, list: Option<BuiltBraces>) -> Result<InitialStep, SynFault>
    ensures { Answers result (goes Another (braces_with list ∷ stack)) }
{
    let mut stack = stack;
    match stack.push(OpenBraces { list }) {
        Ok(()) => goes(InitialMode::Another, stack),
        Err(AllocError) => Err(SynFault::NoMemory),
    }
}

/// A list behind its `{`.
fn opened(stack: Stack<OpenBraces>, list: Option<BuiltBraces>) -> Result<InitialStep, SynFault>
    ensures { Answers result (goes Want (braces_with list ∷ stack)) }
{
    let mut stack = stack;
    match stack.push(OpenBraces { list }) {
        Ok(()) => goes(InitialMode::Want, stack),
        Err(AllocError) => Err(SynFault::NoMemory),
    }
}

/// A list that is whole.
fn whole(
    alloc: Global,
    stack: Stack<OpenBraces>,
    list: Option<BuiltBraces>,
) -> Result<InitialStep, SynFault>
    ensures { Answers result (goes (Done (closed_of list)) stack) }
{
    match closed_of(alloc, list) {
        Ok(item) => goes(InitialMode::Done(item), stack),
        Err(AllocError) => Err(SynFault::NoMemory),
    }
}

/// The token behind an item of a list.
fn done_in(
    alloc: Global,
    waiting: OpenBraces,
    symbol: Symbol,
    item: Option<Built<Boxed<Initial>>>,
    stack: Stack<OpenBraces>,
    place: Place,
) -> Result<InitialStep, SynFault>
    ensures { Answers result (done (Some waiting) symbol item stack) }
{
    match symbol {
        Symbol::Binary(BinaryOp::Comma) => match item_of(waiting.list, item) {
            Ok(list) => continued(stack, list),
            Err(AllocError) => Err(SynFault::NoMemory),
        },
        Symbol::CloseBrace => match item_of(waiting.list, item) {
            Ok(list) => whole(alloc, stack, list),
            Err(AllocError) => Err(SynFault::NoMemory),
        },
        _ => {
            drop(waiting);
            drop(item);
            Err(SynFault::Syntax(place))
        }
    }
}

/// The token behind an initializer.
fn done(
    alloc: Global,
    symbol: Symbol,
    item: Option<Built<Boxed<Initial>>>,
    stack: Stack<OpenBraces>,
    place: Place,
) -> Result<InitialStep, SynFault>
    ensures { Answers result (done (first stack) symbol item (drop 1 stack)) }
{
    let mut stack = stack;
    match stack.pop() {
        Some(waiting) => done_in(alloc, waiting, symbol, item, stack, place),
        None => Ok(Step::Ends(item)),
    }
}

/// A token of an expression, or behind it.
fn valuing(
    alloc: Global,
    stack: Stack<OpenBraces>,
    parser: Parser,
    next: Terminal,
) -> Result<InitialStep, SynFault>
    ensures { Answers result (valuing stack parser next) }
{
    let symbol = next.symbol;
    let place = next.place;
    match offer(alloc, parser, Least::Assignment, next) {
        Ok(Offered::Goes(parser)) => goes(InitialMode::Value(parser), stack),
        Ok(Offered::Ends(value)) => match value_of(alloc, expr_of(value.tree)) {
            Ok(value) => done(alloc, symbol, value, stack, place),
            Err(AllocError) => Err(SynFault::NoMemory),
        },
        Err(fault) => Err(fault),
    }
}

/// Whether a token is a `{`.
pub fn is_open_brace(symbol: Symbol) -> bool
    ensures { result ≡ is_open_brace symbol }
{
    match symbol {
        Symbol::OpenBrace => true,
        _ => false,
    }
}

/// Whether a token is a `}`.
fn is_close_brace(symbol: Symbol) -> bool
    ensures { result ≡ is_close_brace symbol }
{
    match symbol {
        Symbol::CloseBrace => true,
        _ => false,
    }
}

/// A token where an initializer begins.
fn wanting(alloc: Global, stack: Stack<OpenBraces>, next: Terminal) -> Result<InitialStep, SynFault>
    ensures { Answers result (wanting stack next) }
{
    if is_open_brace(next.symbol) {
        let list = braces_of(alloc, next.place);
        drop(next);
        return opened(stack, list);
    }
    match Parser::new(alloc, Least::Assignment) {
        Ok(parser) => valuing(alloc, stack, parser, next),
        Err(AllocError) => {
            drop(next);
            Err(SynFault::NoMemory)
        }
    }
}

/// The `}` behind a comma.
fn closed(alloc: Global, stack: Stack<OpenBraces>, place: Place) -> Result<InitialStep, SynFault>
    ensures { Answers result (closed (first stack) (drop 1 stack)) }
{
    let mut stack = stack;
    match stack.pop() {
        Some(waiting) => whole(alloc, stack, waiting.list),
        None => Err(SynFault::Syntax(place)),
    }
}

/// The token behind a comma.
fn another(alloc: Global, stack: Stack<OpenBraces>, next: Terminal) -> Result<InitialStep, SynFault>
    ensures { Answers result (another stack next) }
{
    if is_close_brace(next.symbol) {
        return closed(alloc, stack, next.place);
    }
    wanting(alloc, stack, next)
}

/// One token more of an initializer, or its end before a token behind it. Syntax comes where neither can be.
pub fn initial_offer(
    alloc: Global,
    parser: InitialParser,
    next: Terminal,
) -> Result<InitialStep, SynFault>
    ensures { Answers result (initial_offer parser next) }
{
    let InitialParser { stack, mode } = parser;
    match mode {
        InitialMode::Want => wanting(alloc, stack, next),
        InitialMode::Another => another(alloc, stack, next),
        InitialMode::Value(parser) => valuing(alloc, stack, parser, next),
        InitialMode::Done(item) => done(alloc, next.symbol, item, stack, next.place),
    }
}

impl InitialParser {
    /// Nothing was read of an initializer.
    pub fn new(alloc: Global) -> InitialParser
        ensures { result ≡ initial_start }
    {
        InitialParser {
            stack: Stack::new(alloc),
            mode: InitialMode::Want,
        }
    }
}
