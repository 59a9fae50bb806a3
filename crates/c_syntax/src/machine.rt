// One token more of a unit.
ghost use Rattle.std.specs.Prelude.{◌≡◌, IfOk};
ghost use Rattle.c_declaration.specs.FileReading.{file_offer};
ghost use Rattle.c_statement.specs.Machine as block;
ghost use Rattle.c_syntax.specs.Machine.{Gives, one_more, both, kept_at, more, declared_of, defined_by, defined_of, deep_place, bodied, ended, headed, shift, start};

use crate::state::{Kept, Mode, UnitParser};
use c_declaration::{Built, FileParser, ReadHead, Step, file_offer};
use c_expr::{Boxed, SynFault};
use c_lex::Place;
use c_statement::{Mode as BlockMode, Reader, shift as shift_block};
use c_symbol::Terminal;
use c_trees::declaration::{FunctionHead, Head};
use c_trees::statement::Statement;
use c_trees::unit::External;
use ldb_words::Many;
use std::alloc::{AllocError, Global};

/// One item more, where it is there.
fn one_more<T: Drop>(items: Many<T>, item: Option<T>) -> Result<Option<Many<T>>, AllocError>
    ensures { IfOk result (λ r. r ≡ one_more items item) }
{
    match item {
        Some(item) => {
            let mut items = items;
            items.push(item)?;
            Ok(Some(items))
        }
        None => Ok(None),
    }
}

/// Two parts, where both are there.
fn both<A: Drop, B: Drop>(a: Option<A>, b: Option<B>) -> Option<(A, B)>
    ensures { result ≡ both a b }
{
    match a {
        Some(a) => match b {
            Some(b) => Some((a, b)),
            None => None,
        },
        None => None,
    }
}

/// The external declarations, unless the last of them, which begins there, is too high.
fn kept_at(place: Place, externals: Option<Many<External>>) -> Kept
    ensures { result ≡ kept_at place externals }
{
    match externals {
        Some(externals) => Kept::All(externals),
        None => Kept::TooDeep(place),
    }
}

/// One external declaration more, which begins there.
fn more(kept: Kept, place: Place, external: Option<External>) -> Result<Kept, AllocError>
    ensures { IfOk result (λ k. k ≡ more kept place external) }
{
    match kept {
        Kept::All(externals) => Ok(kept_at(place, one_more(externals, external)?)),
        Kept::TooDeep(first) => {
            drop(external);
            Ok(Kept::TooDeep(first))
        }
    }
}

fn declared_of(head: Option<Head>) -> Option<External>
    ensures { result ≡ declared_of head }
{
    match head {
        Some(head) => Some(External::Declaration(head)),
        None => None,
    }
}

fn defined_by(parts: Option<(Boxed<FunctionHead>, Built<Boxed<Statement>>)>) -> Option<External>
    ensures { result ≡ defined_by parts }
{
    match parts {
        Some((head, body)) => Some(External::Definition(head.into_inner(), body.tree.into_inner())),
        None => None,
    }
}

fn defined_of(
    head: Option<Boxed<FunctionHead>>,
    body: Option<Built<Boxed<Statement>>>,
) -> Option<External>
    ensures { result ≡ defined_of head body }
{
    defined_by(both(head, body))
}

/// Where a definition is too high: at its begin, or else at its body.
fn deep_place(place: Place, brace: Place, head: &Option<Boxed<FunctionHead>>) -> Place
    ensures { result ≡ deep_place place brace head.now }
{
    match head {
        Some(_) => brace,
        None => place,
    }
}

/// One token more of a function's body was read.
fn bodied(
    alloc: Global,
    kept: Kept,
    place: Place,
    brace: Place,
    head: Option<Boxed<FunctionHead>>,
    reader: Reader,
) -> Result<UnitParser, SynFault>
    ensures { Gives result (bodied kept place brace head (Some reader)) }
{
    let Reader { stack, mode } = reader;
    match mode {
        BlockMode::Done(body) => {
            let first = deep_place(place, brace, &head);
            Ok(UnitParser {
                kept: more(kept, first, defined_of(head, body))?,
                mode: Mode::Between,
            })
        }
        mode => {
            let reader = Boxed::new(alloc, Reader { stack, mode })?;
            Ok(UnitParser {
                kept,
                mode: Mode::Body(place, brace, head, reader),
            })
        }
    }
}

/// What stands before a function's body, on the heap.
fn boxed_head(
    alloc: Global,
    head: Option<FunctionHead>,
) -> Result<Option<Boxed<FunctionHead>>, AllocError>
    ensures { IfOk result (λ h. h ≡ head) }
{
    let Some(head) = head else {
        return Ok(None);
    };
    Ok(Some(Boxed::new(alloc, head)?))
}

/// A declaration that has ended, or what stands before a function's body and, as the last token, the `{` of that.
fn ended(alloc: Global, kept: Kept, head: ReadHead, last: Place) -> Result<UnitParser, SynFault>
    ensures { Gives result (ended kept last head) }
{
    match head {
        ReadHead::Declaration(place, head) => Ok(UnitParser {
            kept: more(kept, place, declared_of(head))?,
            mode: Mode::Between,
        }),
        ReadHead::Function(place, head) => {
            let head = boxed_head(alloc, head)?;
            let reader = Boxed::new(alloc, Reader::begun(alloc, last))?;
            Ok(UnitParser {
                kept,
                mode: Mode::Body(place, last, head, reader),
            })
        }
    }
}

/// One token more of a declaration or of what stands before a function's body.
fn headed(
    alloc: Global,
    kept: Kept,
    parser: FileParser,
    next: Terminal,
) -> Result<UnitParser, SynFault>
    ensures { Gives result (headed kept next.place (file_offer parser next)) }
{
    let last = next.place;
    match file_offer(alloc, parser, next)? {
        Step::Goes(parser) => Ok(UnitParser {
            kept,
            mode: Mode::Heading(Boxed::new(alloc, parser)?),
        }),
        Step::Ends(head) => ended(alloc, kept, head, last),
    }
}

/// One token more of a unit. Syntax comes where it cannot go on.
pub fn shift(alloc: Global, parser: UnitParser, next: Terminal) -> Result<UnitParser, SynFault>
    ensures { Gives result (shift parser next) }
{
    let UnitParser { kept, mode } = parser;
    match mode {
        Mode::Between => headed(alloc, kept, FileParser::Begin, next),
        Mode::Heading(parser) => headed(alloc, kept, parser.into_inner(), next),
        Mode::Body(place, brace, head, reader) => {
            let reader = shift_block(alloc, reader.into_inner(), next)?;
            bodied(alloc, kept, place, brace, head, reader)
        }
    }
}

impl UnitParser {
    /// Nothing was read of a unit.
    pub fn new(alloc: Global) -> UnitParser
        ensures { result ≡ start }
    {
        UnitParser {
            kept: Kept::All(Many::new(alloc)),
            mode: Mode::Between,
        }
    }
}
