// Reading the members of a struct.
ghost use Rattle.std.specs.Prelude.{◌≡◌, IfOk};
ghost use Rattle.c_declaration.specs.Feeding.{Answers};
ghost use Rattle.c_declaration.specs.MembersReading.{goes, last, tree_in, row_of, row_with, behind_member, member_offered, naming, closed, beginning, tagging, worded, tag_of, opened, typed_name, typed, shift_mode, members_offer, members_start};

use crate::built::Built;
use crate::declarator::{both_words, declarator_offer, spec_of};
use crate::initial::is_open_brace;
use crate::local::is_int;
use crate::state::{DeclaratorParser, MembersParser, MembersStep, RowMode, RowType};
use crate::step::Step;
use c_expr::{Boxed, SynFault};
use c_lex::Place;
use c_symbol::{BinaryOp, LeafKind, Symbol, Terminal};
use c_trees::declaration::{Declarator, MemberPart};
use c_trees::expression::Spec;
use ldb_words::{Many, Text};
use std::alloc::{AllocError, Global};

/// Reading goes on.
fn goes(
    parts: Option<Many<MemberPart>>,
    inside: u64,
    mode: RowMode,
) -> Result<MembersStep, SynFault>
    ensures { Answers result (goes parts inside mode) }
{
    Ok(Step::Goes(MembersParser {
        parts,
        inside,
        mode,
    }))
}

/// One more in a list, where all of them are there.
pub fn last<T: Drop>(list: Option<Many<T>>, item: Option<T>) -> Result<Option<Many<T>>, AllocError>
    ensures { IfOk result (λ r. r ≡ last list item) }
{
    match list {
        Some(list) => match item {
            Some(item) => {
                let mut list = list;
                list.push(item)?;
                Ok(Some(list))
            }
            None => Ok(None),
        },
        None => Ok(None),
    }
}

/// The tree without its height.
pub fn tree_in<T: Drop>(built: Option<Built<Boxed<T>>>) -> Option<T>
    ensures { result ≡ tree_in built }
{
    match built {
        Some(built) => Some(built.tree.into_inner()),
        None => None,
    }
}

/// Members with their type.
fn row_of(row: RowType, declarators: Many<Declarator>) -> MemberPart
    ensures { result ≡ row_of row declarators }
{
    match row {
        RowType::Named(place, spec) => MemberPart::Row(place, spec, declarators),
        RowType::Closed => MemberPart::Closes(declarators),
    }
}

/// Members with their type, where all of them are there.
fn row_with(row: RowType, declarators: Option<Many<Declarator>>) -> Option<MemberPart>
    ensures { result ≡ row_with row declarators }
{
    match declarators {
        Some(declarators) => Some(row_of(row, declarators)),
        None => None,
    }
}

/// The token behind a declarator.
fn behind_member(
    alloc: Global,
    parts: Option<Many<MemberPart>>,
    inside: u64,
    row: RowType,
    declarators: Option<Many<Declarator>>,
    symbol: Symbol,
    place: Place,
) -> Result<MembersStep, SynFault>
    ensures { Answers result (behind_member parts inside row declarators symbol) }
{
    match symbol {
        Symbol::Binary(BinaryOp::Comma) => {
            let parser = DeclaratorParser::new(alloc);
            goes(parts, inside, RowMode::Naming(row, declarators, parser))
        }
        Symbol::Semicolon => match last(parts, row_with(row, declarators)) {
            Ok(parts) => goes(parts, inside, RowMode::Begin),
            Err(AllocError) => Err(SynFault::NoMemory),
        },
        _ => {
            drop(parts);
            drop(row);
            drop(declarators);
            Err(SynFault::Syntax(place))
        }
    }
}

/// A token of a declarator, or behind it.
fn naming(
    alloc: Global,
    parts: Option<Many<MemberPart>>,
    inside: u64,
    row: RowType,
    declarators: Option<Many<Declarator>>,
    parser: DeclaratorParser,
    next: Terminal,
) -> Result<MembersStep, SynFault>
    ensures { Answers result (naming parts inside row declarators parser next) }
{
    let symbol = next.symbol;
    let place = next.place;
    match declarator_offer(alloc, parser, next) {
        Ok(Step::Goes(parser)) => goes(parts, inside, RowMode::Naming(row, declarators, parser)),
        Ok(Step::Ends(d)) => match last(declarators, tree_in(d)) {
            Ok(declarators) => behind_member(alloc, parts, inside, row, declarators, symbol, place),
            Err(AllocError) => {
                drop(parts);
                drop(row);
                Err(SynFault::NoMemory)
            }
        },
        Err(fault) => {
            drop(parts);
            drop(row);
            drop(declarators);
            Err(fault)
        }
    }
}

/// The `}` of a struct.
fn closed(
    alloc: Global,
    parts: Option<Many<MemberPart>>,
    inside: u64,
) -> Result<MembersStep, SynFault>
    ensures { Answers result (closed parts inside) }
{
    if inside == 0 {
        return Ok(Step::Ends(parts));
    }
    let declarators = Some(Many::new(alloc));
    let parser = DeclaratorParser::new(alloc);
    goes(
        parts,
        inside - 1,
        RowMode::Naming(RowType::Closed, declarators, parser),
    )
}

/// A row begins, or the struct ends.
fn beginning(
    alloc: Global,
    parts: Option<Many<MemberPart>>,
    inside: u64,
    symbol: Symbol,
    place: Place,
) -> Result<MembersStep, SynFault>
    ensures { Answers result (beginning parts inside symbol place) }
{
    match symbol {
        Symbol::Word(word) => goes(parts, inside, RowMode::Typed(place, spec_of(word))),
        Symbol::Struct => goes(parts, inside, RowMode::Tagging(place)),
        Symbol::CloseBrace => closed(alloc, parts, inside),
        _ => Err(SynFault::Syntax(place)),
    }
}

/// A token where a tag stands.
fn tagging(
    parts: Option<Many<MemberPart>>,
    inside: u64,
    begun: Place,
    symbol: Symbol,
    place: Place,
    text: Text,
) -> Result<MembersStep, SynFault>
    ensures { Answers result (tagging parts inside begun symbol text) }
{
    match symbol {
        Symbol::Leaf(LeafKind::Name) => goes(
            parts,
            inside,
            RowMode::Typed(begun, Spec::Struct(text)),
        ),
        _ => Err(SynFault::Syntax(place)),
    }
}

/// `int` behind a type.
fn worded(
    parts: Option<Many<MemberPart>>,
    inside: u64,
    begun: Place,
    spec: Option<Spec>,
    place: Place,
) -> Result<MembersStep, SynFault>
    ensures { Answers result (worded parts inside begun spec) }
{
    match spec {
        Some(spec) => goes(parts, inside, RowMode::Typed(begun, spec)),
        None => Err(SynFault::Syntax(place)),
    }
}

/// The tag of a struct.
pub fn tag_of(spec: Spec) -> Option<Text>
    ensures { result ≡ tag_of spec }
{
    match spec {
        Spec::Struct(tag) => Some(tag),
        _other => None,
    }
}

/// The `{` of a struct inside.
fn opened(
    parts: Option<Many<MemberPart>>,
    inside: u64,
    begun: Place,
    tag: Option<Text>,
    place: Place,
) -> Result<MembersStep, SynFault>
    ensures { Answers result (opened parts inside begun tag) }
{
    match tag {
        Some(tag) => {
            if inside == u64::MAX {
                drop(parts);
                drop(tag);
                return Err(SynFault::NoMemory);
            }
            match last(parts, Some(MemberPart::Opens(begun, tag))) {
                Ok(parts) => goes(parts, inside + 1, RowMode::Begin),
                Err(AllocError) => Err(SynFault::NoMemory),
            }
        }
        None => {
            drop(parts);
            Err(SynFault::Syntax(place))
        }
    }
}

/// The first token of a row's first declarator.
fn typed_name(
    alloc: Global,
    parts: Option<Many<MemberPart>>,
    inside: u64,
    begun: Place,
    spec: Spec,
    next: Terminal,
) -> Result<MembersStep, SynFault>
    ensures { Answers result (typed_name parts inside begun spec next) }
{
    let declarators = Some(Many::new(alloc));
    let parser = DeclaratorParser::new(alloc);
    let row = RowType::Named(begun, spec);
    naming(alloc, parts, inside, row, declarators, parser, next)
}

/// The token behind a type.
fn typed(
    alloc: Global,
    parts: Option<Many<MemberPart>>,
    inside: u64,
    begun: Place,
    spec: Spec,
    next: Terminal,
) -> Result<MembersStep, SynFault>
    ensures { Answers result (typed parts inside begun spec next) }
{
    if is_int(next.symbol) {
        return worded(parts, inside, begun, both_words(spec), next.place);
    }
    if is_open_brace(next.symbol) {
        return opened(parts, inside, begun, tag_of(spec), next.place);
    }
    typed_name(alloc, parts, inside, begun, spec, next)
}

/// One token more of the members of a struct, which end with its `}`.
pub fn members_offer(
    alloc: Global,
    parser: MembersParser,
    next: Terminal,
) -> Result<MembersStep, SynFault>
    ensures { Answers result (members_offer parser next) }
{
    let MembersParser {
        parts,
        inside,
        mode,
    } = parser;
    match mode {
        RowMode::Begin => beginning(alloc, parts, inside, next.symbol, next.place),
        RowMode::Tagging(begun) => tagging(
            parts,
            inside,
            begun,
            next.symbol,
            next.place,
            next.text,
        ),
        RowMode::Typed(begun, spec) => typed(alloc, parts, inside, begun, spec, next),
        RowMode::Naming(row, declarators, parser) => naming(
            alloc,
            parts,
            inside,
            row,
            declarators,
            parser,
            next,
        ),
    }
}

impl MembersParser {
    /// A struct up to its `{`.
    pub fn new(alloc: Global, place: Place, tag: Text) -> Result<MembersParser, AllocError>
        ensures { IfOk result (λ p. p ≡ members_start place tag) }
    {
        let mut parts = Many::new(alloc);
        parts.push(MemberPart::Opens(place, tag))?;
        Ok(MembersParser {
            parts: Some(parts),
            inside: 0,
            mode: RowMode::Begin,
        })
    }
}
