// Reading a declaration at file scope.
ghost use Rattle.std.specs.Prelude.{◌≡◌, IfOk, if◌then◌else◌, None};
ghost use Rattle.c_declaration.specs.Feeding.{Answers};
ghost use Rattle.c_declaration.specs.FileReading.{goes, front_at, both, head_with, function_with, bare_declared, declared_of, no_names, more_names, body, declared, behind_name, name_offered, naming, is_semicolon, whole, struct_of, members_offered, opened, worded, typed, typing, beginning, tagging, file_offer};
ghost use Rattle.c_declaration.specs.MembersReading.{tree_in, members_offer};
ghost use Rattle.c_declaration.specs.Grown.{name_with};
ghost use Rattle.c_declaration.specs.declared.state.FileParser.TheVariants.{Stored};

use crate::declarator::{both_words, spec_of};
use crate::initial::is_open_brace;
use crate::local::is_int;
use crate::members::{last, members_offer, tag_of, tree_in};
use crate::name::name_offer;
use crate::state::{
    FileFront, FileParser, FileStep, MembersParser, NameParser, Names, ReadHead, ReadName,
};
use crate::step::Step;
use c_expr::SynFault;
use c_lex::{Keyword, Place};
use c_symbol::{BinaryOp, LeafKind, Symbol, Terminal};
use c_trees::declaration::{
    Declarator, Declared, FileSpec, FunctionHead, Head, Initial, MemberPart, Storage,
};
use c_trees::expression::Spec;
use ldb_words::{Many, Text};
use std::alloc::{AllocError, Global};

/// A declarator without an initializer.
fn bare_declared(d: Option<Declarator>) -> Option<Declared>
    ensures { result ≡ bare_declared d }
{
    match d {
        Some(declarator) => Some(Declared {
            declarator,
            initial: None,
        }),
        None => None,
    }
}

/// A declarator with an initializer, where both are there.
fn name_with(d: Option<Declarator>, initial: Option<Initial>) -> Option<Declared>
    ensures { result ≡ both name_with d initial }
{
    match d {
        Some(declarator) => match initial {
            Some(initial) => Some(Declared {
                declarator,
                initial: Some(initial),
            }),
            None => {
                drop(declarator);
                None
            }
        },
        None => {
            drop(initial);
            None
        }
    }
}

/// A name that was read.
fn declared_of(name: ReadName) -> Option<Declared>
    ensures { result ≡ declared_of name }
{
    match name {
        ReadName::Bare(d) => bare_declared(tree_in(d)),
        ReadName::With(d, initial) => name_with(tree_in(d), tree_in(initial)),
    }
}

/// No names.
fn no_names(alloc: Global) -> Names
    ensures { result ≡ no_names }
{
    Names {
        any: false,
        list: Some(Many::new(alloc)),
    }
}

/// Names with one more.
fn more_names(names: Names, name: ReadName) -> Result<Names, AllocError>
    ensures { IfOk result (λ r. r ≡ more_names names name) }
{
    let list = last(names.list, declared_of(name))?;
    Ok(Names { any: true, list })
}

/// What stands before a body, where all of it is there.
fn function_with(
    front: FileFront,
    spec: Option<FileSpec>,
    d: Option<Declarator>,
) -> Option<FunctionHead>
    ensures { result ≡ both (function_with front) spec d }
{
    match spec {
        Some(spec) => match d {
            Some(declarator) => Some(FunctionHead {
                place: front.place,
                storage: front.storage,
                spec,
                declarator,
            }),
            None => {
                drop(spec);
                None
            }
        },
        None => {
            drop(d);
            None
        }
    }
}

/// A declaration, where all of it is there.
fn head_with(
    front: FileFront,
    spec: Option<FileSpec>,
    names: Option<Many<Declared>>,
) -> Option<Head>
    ensures { result ≡ both (head_with front) spec names }
{
    match spec {
        Some(spec) => match names {
            Some(names) => Some(Head {
                place: front.place,
                storage: front.storage,
                spec,
                names,
            }),
            None => {
                drop(spec);
                None
            }
        },
        None => {
            drop(names);
            None
        }
    }
}

/// The `{` behind a name.
fn body(
    front: FileFront,
    spec: Option<FileSpec>,
    name: ReadName,
    place: Place,
) -> Result<FileStep, SynFault>
    ensures { Answers result (body front spec name) }
{
    match name {
        ReadName::Bare(d) => {
            let head = function_with(front, spec, tree_in(d));
            Ok(Step::Ends(ReadHead::Function(front.place, head)))
        }
        ReadName::With(d, initial) => {
            drop(spec);
            drop(d);
            drop(initial);
            Err(SynFault::Syntax(place))
        }
    }
}

/// The `{` behind a name, before which there may be others.
fn only_body(
    front: FileFront,
    spec: Option<FileSpec>,
    any: bool,
    name: ReadName,
    place: Place,
) -> Result<FileStep, SynFault>
    ensures { Answers result (if any then None else body front spec name) }
{
    if any {
        drop(spec);
        drop(name);
        return Err(SynFault::Syntax(place));
    }
    body(front, spec, name, place)
}

/// The end of a declaration.
fn declared(
    front: FileFront,
    spec: Option<FileSpec>,
    names: Option<Many<Declared>>,
) -> Result<FileStep, SynFault>
    ensures { Answers result (declared front spec names) }
{
    let place = front.place;
    Ok(Step::Ends(ReadHead::Declaration(place, head_with(front, spec, names))))
}

/// The token behind a name.
fn behind_name(
    alloc: Global,
    front: FileFront,
    spec: Option<FileSpec>,
    names: Names,
    name: ReadName,
    symbol: Symbol,
    place: Place,
) -> Result<FileStep, SynFault>
    ensures { Answers result (behind_name front spec names name symbol) }
{
    match symbol {
        Symbol::Binary(BinaryOp::Comma) => {
            match more_names(names, name) {
                Ok(names) => Ok(Step::Goes(FileParser::Naming(
                    front,
                    spec,
                    names,
                    NameParser::new(alloc),
                ))),
                Err(AllocError) => {
                    drop(spec);
                    Err(SynFault::NoMemory)
                }
            }
        }
        Symbol::Semicolon => {
            match more_names(names, name) {
                Ok(names) => declared(front, spec, names.list),
                Err(AllocError) => {
                    drop(spec);
                    Err(SynFault::NoMemory)
                }
            }
        }
        Symbol::OpenBrace => {
            let any = names.any;
            drop(names);
            only_body(front, spec, any, name, place)
        }
        _ => {
            drop(spec);
            drop(names);
            drop(name);
            Err(SynFault::Syntax(place))
        }
    }
}

/// A token of a name, or behind it.
fn naming(
    alloc: Global,
    front: FileFront,
    spec: Option<FileSpec>,
    names: Names,
    parser: NameParser,
    next: Terminal,
) -> Result<FileStep, SynFault>
    ensures { Answers result (naming front spec names parser next) }
{
    let symbol = next.symbol;
    let place = next.place;
    match name_offer(alloc, parser, next) {
        Ok(Step::Goes(parser)) => Ok(Step::Goes(FileParser::Naming(front, spec, names, parser))),
        Ok(Step::Ends(name)) => behind_name(alloc, front, spec, names, name, symbol, place),
        Err(fault) => {
            drop(spec);
            drop(names);
            Err(fault)
        }
    }
}

/// Whether a token is a `;`.
fn is_semicolon(symbol: Symbol) -> bool
    ensures { result ≡ is_semicolon symbol }
{
    match symbol {
        Symbol::Semicolon => true,
        _ => false,
    }
}

/// The token behind a type that is whole.
fn whole(
    alloc: Global,
    front: FileFront,
    spec: Option<FileSpec>,
    next: Terminal,
) -> Result<FileStep, SynFault>
    ensures { Answers result (whole front spec next) }
{
    if is_semicolon(next.symbol) {
        drop(next);
        return declared(front, spec, Some(Many::new(alloc)));
    }
    naming(
        alloc,
        front,
        spec,
        no_names(alloc),
        NameParser::new(alloc),
        next,
    )
}

/// A struct with its members.
fn struct_of(parts: Option<Many<MemberPart>>) -> Option<FileSpec>
    ensures { result ≡ struct_of parts }
{
    match parts {
        Some(parts) => Some(FileSpec::Members(parts)),
        None => None,
    }
}

/// A token of the members of a struct.
fn inside(
    alloc: Global,
    front: FileFront,
    parser: MembersParser,
    next: Terminal,
) -> Result<FileStep, SynFault>
    ensures { Answers result (members_offered front (members_offer parser next)) }
{
    match members_offer(alloc, parser, next) {
        Ok(Step::Goes(parser)) => Ok(Step::Goes(FileParser::Members(front, parser))),
        Ok(Step::Ends(parts)) => Ok(Step::Goes(FileParser::Whole(front, struct_of(parts)))),
        Err(fault) => Err(fault),
    }
}

/// The `{` of a struct.
fn opened(
    alloc: Global,
    front: FileFront,
    begun: Place,
    tag: Option<Text>,
    place: Place,
) -> Result<FileStep, SynFault>
    ensures { Answers result (opened front begun tag) }
{
    match tag {
        Some(tag) => {
            let parser = MembersParser::new(alloc, begun, tag)?;
            Ok(Step::Goes(FileParser::Members(front, parser)))
        }
        None => Err(SynFault::Syntax(place)),
    }
}

/// `int` behind a type.
fn worded(
    front: FileFront,
    begun: Place,
    spec: Option<Spec>,
    place: Place,
) -> Result<FileStep, SynFault>
    ensures { Answers result (worded front begun spec) }
{
    match spec {
        Some(spec) => Ok(Step::Goes(FileParser::Typed(front, begun, spec))),
        None => Err(SynFault::Syntax(place)),
    }
}

/// The token behind a type.
fn typed(
    alloc: Global,
    front: FileFront,
    begun: Place,
    spec: Spec,
    next: Terminal,
) -> Result<FileStep, SynFault>
    ensures { Answers result (typed front begun spec next) }
{
    if is_int(next.symbol) {
        return worded(front, begun, both_words(spec), next.place);
    }
    if is_open_brace(next.symbol) {
        return opened(alloc, front, begun, tag_of(spec), next.place);
    }
    whole(alloc, front, Some(FileSpec::Named(spec)), next)
}

/// A type.
fn typing(front: FileFront, symbol: Symbol, place: Place) -> Result<FileStep, SynFault>
    ensures { Answers result (typing front symbol place) }
{
    match symbol {
        Symbol::Word(word) => Ok(Step::Goes(FileParser::Typed(front, place, spec_of(word)))),
        Symbol::Struct => Ok(Step::Goes(FileParser::Tagging(front, place))),
        _ => Err(SynFault::Syntax(place)),
    }
}

/// The first token, behind which a type follows where it is a storage class.
fn stored(storage: Storage, place: Place) -> Result<FileStep, SynFault>
    ensures { Answers result (goes (Stored (front_at place storage))) }
{
    Ok(Step::Goes(FileParser::Stored(FileFront { place, storage })))
}

/// The first token.
fn beginning(symbol: Symbol, place: Place) -> Result<FileStep, SynFault>
    ensures { Answers result (beginning symbol place) }
{
    match symbol {
        Symbol::Keyword(Keyword::Extern) => stored(Storage::Extern, place),
        Symbol::Keyword(Keyword::Static) => stored(Storage::Static, place),
        _ => {
            let storage = Storage::Plain;
            typing(FileFront { place, storage }, symbol, place)
        }
    }
}

/// A token where a tag stands.
fn tagging(
    front: FileFront,
    begun: Place,
    symbol: Symbol,
    place: Place,
    text: Text,
) -> Result<FileStep, SynFault>
    ensures { Answers result (tagging front begun symbol text) }
{
    match symbol {
        Symbol::Leaf(LeafKind::Name) => Ok(Step::Goes(FileParser::Typed(
            front,
            begun,
            Spec::Struct(text),
        ))),
        _ => Err(SynFault::Syntax(place)),
    }
}

/// One token more of a declaration at file scope, which ends with its `;` or with the `{` of a function's body. Syntax comes where no
/// such declaration goes on so.
pub fn file_offer(alloc: Global, parser: FileParser, next: Terminal) -> Result<FileStep, SynFault>
    ensures { Answers result (file_offer parser next) }
{
    match parser {
        FileParser::Begin => beginning(next.symbol, next.place),
        FileParser::Stored(front) => typing(front, next.symbol, next.place),
        FileParser::Tagging(front, begun) => tagging(
            front,
            begun,
            next.symbol,
            next.place,
            next.text,
        ),
        FileParser::Typed(front, begun, spec) => typed(alloc, front, begun, spec, next),
        FileParser::Members(front, parser) => inside(alloc, front, parser, next),
        FileParser::Whole(front, spec) => whole(alloc, front, spec, next),
        FileParser::Naming(front, spec, names, parser) => naming(
            alloc, front, spec, names, parser, next,
        ),
    }
}
