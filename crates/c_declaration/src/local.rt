// Reading a declaration in a block.
ghost use Rattle.std.specs.Prelude.{◌≡◌, ◌+◌, IfOk, Some, max};
ghost use Rattle.c_declaration.specs.Feeding.{Answers};
ghost use Rattle.c_declaration.specs.Grown.{grow_list, grow_two, bare_of, with_of, names_of, no_names, name_with, put_last};
ghost use Rattle.c_declaration.specs.LocalReading.{goes, front_at, local_with, local_of, declared_of, behind_name, name_offered, naming, is_int, worded, typed, typing, beginning, tagging, local_offer};

use crate::built::{Built, MOST_HEIGHT, greater, taller};
use crate::declarator::{both_words, spec_of};
use crate::name::name_offer;
use crate::state::{LocalFront, LocalParser, LocalStep, NameParser, ReadLocal, ReadName};
use crate::step::Step;
use c_expr::{Boxed, SynFault};
use c_lex::{Keyword, Place};
use c_symbol::{BinaryOp, LeafKind, Symbol, Terminal, TypeWord};
use c_trees::declaration::{Declarator, Declared, Initial, Local};
use c_trees::expression::Spec;
use ldb_words::{Many, Text};
use std::alloc::{AllocError, Global};

/// A name without an initializer.
fn bare_of(d: Option<Built<Boxed<Declarator>>>) -> Option<Built<Declared>>
    ensures { result ≡ bare_of d }
{
    match d {
        Some(d) => Some(Built {
            height: d.height,
            tree: Declared {
                declarator: d.tree.into_inner(),
                initial: None,
            },
        }),
        None => None,
    }
}

/// A name with an initializer.
fn with_both(d: Built<Boxed<Declarator>>, initial: Built<Boxed<Initial>>) -> Option<Built<Declared>>
    ensures { result ≡ grow_two name_with (Some d) (Some initial) }
{
    taller(
        greater(d.height, initial.height),
        Declared {
            declarator: d.tree.into_inner(),
            initial: Some(initial.tree.into_inner()),
        },
    )
}

/// A name with an initializer, unless one of them is too high.
fn with_of(
    d: Option<Built<Boxed<Declarator>>>,
    initial: Option<Built<Boxed<Initial>>>,
) -> Option<Built<Declared>>
    ensures { result ≡ with_of d initial }
{
    match d {
        Some(d) => match initial {
            Some(initial) => with_both(d, initial),
            None => {
                drop(d);
                None
            }
        },
        None => {
            drop(initial);
            None
        }
    }
}

/// A name that was read.
fn declared_of(name: ReadName) -> Option<Built<Declared>>
    ensures { result ≡ declared_of name }
{
    match name {
        ReadName::Bare(d) => bare_of(d),
        ReadName::With(d, initial) => with_of(d, initial),
    }
}

/// No names.
fn no_names(alloc: Global) -> Option<Built<Many<Declared>>>
    ensures { result ≡ no_names }
{
    Some(Built {
        height: 0,
        tree: Many::new(alloc),
    })
}

/// Names with one more.
fn longer(
    names: Built<Many<Declared>>,
    name: Built<Declared>,
) -> Result<Option<Built<Many<Declared>>>, AllocError>
    ensures { IfOk result (λ r. r ≡ grow_list 64 1 put_last (Some names) (Some name)) }
{
    if name.height < MOST_HEIGHT {
        let mut list = names.tree;
        list.push(name.tree)?;
        return Ok(Some(Built {
            height: greater(names.height, name.height + 1),
            tree: list,
        }));
    }
    drop(names);
    drop(name);
    Ok(None)
}

/// Names with one more, unless one of them is too high.
fn names_of(
    names: Option<Built<Many<Declared>>>,
    name: Option<Built<Declared>>,
) -> Result<Option<Built<Many<Declared>>>, AllocError>
    ensures { IfOk result (λ r. r ≡ names_of names name) }
{
    match names {
        Some(names) => match name {
            Some(name) => longer(names, name),
            None => {
                drop(names);
                Ok(None)
            }
        },
        None => {
            drop(name);
            Ok(None)
        }
    }
}

/// The declaration of these names.
fn local_of(front: LocalFront, names: Option<Built<Many<Declared>>>) -> ReadLocal
    ensures { result ≡ local_of front names }
{
    let LocalFront {
        place,
        register,
        spec,
    } = front;
    let local = match names {
        Some(names) => taller(
            names.height,
            Local {
                place,
                register,
                spec,
                names: names.tree,
            },
        ),
        None => None,
    };
    ReadLocal { place, local }
}

/// The token behind a name.
fn behind_name(
    alloc: Global,
    front: LocalFront,
    names: Option<Built<Many<Declared>>>,
    symbol: Symbol,
    place: Place,
) -> Result<LocalStep, SynFault>
    ensures { Answers result (behind_name front names symbol) }
{
    match symbol {
        Symbol::Binary(BinaryOp::Comma) => Ok(Step::Goes(LocalParser::Naming(
            front,
            names,
            NameParser::new(alloc),
        ))),
        Symbol::Semicolon => Ok(Step::Ends(local_of(front, names))),
        _ => {
            drop(front);
            drop(names);
            Err(SynFault::Syntax(place))
        }
    }
}

/// A token of a name, or behind it.
fn naming(
    alloc: Global,
    front: LocalFront,
    names: Option<Built<Many<Declared>>>,
    parser: NameParser,
    next: Terminal,
) -> Result<LocalStep, SynFault>
    ensures { Answers result (naming front names parser next) }
{
    let symbol = next.symbol;
    let place = next.place;
    match name_offer(alloc, parser, next) {
        Ok(Step::Goes(parser)) => Ok(Step::Goes(LocalParser::Naming(front, names, parser))),
        Ok(Step::Ends(name)) => match names_of(names, declared_of(name)) {
            Ok(names) => behind_name(alloc, front, names, symbol, place),
            Err(AllocError) => {
                drop(front);
                Err(SynFault::NoMemory)
            }
        },
        Err(fault) => {
            drop(front);
            drop(names);
            Err(fault)
        }
    }
}

/// Whether a token is `int`.
pub fn is_int(symbol: Symbol) -> bool
    ensures { result ≡ is_int symbol }
{
    match symbol {
        Symbol::Word(TypeWord::Int) => true,
        _ => false,
    }
}

/// `int` behind a type.
fn worded(
    begun: Place,
    register: bool,
    spec: Option<Spec>,
    place: Place,
) -> Result<LocalStep, SynFault>
    ensures { Answers result (worded begun register spec) }
{
    match spec {
        Some(spec) => Ok(Step::Goes(LocalParser::Typed(LocalFront {
            place: begun,
            register,
            spec,
        }))),
        None => Err(SynFault::Syntax(place)),
    }
}

/// The token behind a type.
fn typed(alloc: Global, front: LocalFront, next: Terminal) -> Result<LocalStep, SynFault>
    ensures { Answers result (typed front next) }
{
    if is_int(next.symbol) {
        let LocalFront {
            place,
            register,
            spec,
        } = front;
        return worded(place, register, both_words(spec), next.place);
    }
    naming(alloc, front, no_names(alloc), NameParser::new(alloc), next)
}

/// A type.
fn typing(begun: Place, register: bool, symbol: Symbol, place: Place) -> Result<LocalStep, SynFault>
    ensures { Answers result (typing begun register symbol) }
{
    match symbol {
        Symbol::Word(word) => Ok(Step::Goes(LocalParser::Typed(LocalFront {
            place: begun,
            register,
            spec: spec_of(word),
        }))),
        Symbol::Struct => Ok(Step::Goes(LocalParser::Tagging(begun, register))),
        _ => Err(SynFault::Syntax(place)),
    }
}

/// The first token.
fn beginning(symbol: Symbol, place: Place) -> Result<LocalStep, SynFault>
    ensures { Answers result (beginning symbol place) }
{
    match symbol {
        Symbol::Keyword(Keyword::Register) => Ok(Step::Goes(LocalParser::Registered(place))),
        _ => typing(place, false, symbol, place),
    }
}

/// A token where a tag stands.
fn tagging(
    begun: Place,
    register: bool,
    symbol: Symbol,
    place: Place,
    text: Text,
) -> Result<LocalStep, SynFault>
    ensures { Answers result (tagging begun register symbol text) }
{
    match symbol {
        Symbol::Leaf(LeafKind::Name) => Ok(Step::Goes(LocalParser::Typed(LocalFront {
            place: begun,
            register,
            spec: Spec::Struct(text),
        }))),
        _ => Err(SynFault::Syntax(place)),
    }
}

/// One token more of a declaration in a block, which ends with its `;`. Syntax comes where no such declaration goes on so.
pub fn local_offer(
    alloc: Global,
    parser: LocalParser,
    next: Terminal,
) -> Result<LocalStep, SynFault>
    ensures { Answers result (local_offer parser next) }
{
    match parser {
        LocalParser::Begin => beginning(next.symbol, next.place),
        LocalParser::Registered(begun) => typing(begun, true, next.symbol, next.place),
        LocalParser::Tagging(begun, register) => tagging(
            begun,
            register,
            next.symbol,
            next.place,
            next.text,
        ),
        LocalParser::Typed(front) => typed(alloc, front, next),
        LocalParser::Naming(front, names, parser) => naming(alloc, front, names, parser, next),
    }
}
