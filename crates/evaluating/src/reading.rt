// How the text of a command is read: its frame, its grammar, its names and tags by the table, and the typing rules.

ghost use Rattle.std.specs.Prelude.{◌≡◌, ◌≤◌, IfErr};
ghost use Rattle.ps_store.specs.Store.{closed_part};
ghost use Rattle.table_asks.specs.Closing.{Settles};
ghost use Rattle.table_asks.specs.Faults.{IsUnbroken};
ghost use Rattle.evaluating.specs.Told.{StoresNone};

use crate::known::{Known, Want, wanted};
use abs_mem::AbsMem;
use c_judge::Mode;
use c_tree::{CType, StructDef};
use expr_serve::{Refuse, Server, Turn};
use frame_bytes::Frame;
use ldb_words::Text;
use ps_ops::Operators;
use ps_store::DictId;
use std::alloc::Global;
use table_asks::{AskFault, Cause, Inquiry, frame_found, scope_found, symbol_found};

/// The most names and tags of a text of 1,000 bytes.
const MOST_MENTIONS: u32 = 1_000;

/// A text that was read in a frame: the innermost symbol in scope there, the text of PostScript, the type of what it leaves, and the structs that
/// types name by number.
#[derive(Drop)]
pub struct ReadText {
    pub frame: Frame,
    pub scope: Option<DictId>,
    pub postscript: Text,
    pub ctype: CType,
    pub defs: Vec<StructDef>,
}

/// What a command answers where an expression is refused.
pub fn refused(refuse: Refuse) -> AskFault
    ensures { IsUnbroken result }
{
    match refuse {
        Refuse::Syntax => AskFault::Refused(Cause::BadSyntax),
        Refuse::Scope => AskFault::Refused(Cause::NoScope),
        Refuse::Rule => AskFault::Refused(Cause::BadType),
        Refuse::NoMemory => AskFault::NoMemory,
    }
}

/// Answers a name.
fn answer_name(
    inquiry: &mut Inquiry,
    scope: Option<DictId>,
    known: &mut Known,
    server: &mut Server,
    name: Text,
) -> Result<(), AskFault>
    ensures steps { inquiry.new.steps ≡ inquiry.old.steps }
    ensures closed { closed_part inquiry.new.core.store ≡ closed_part inquiry.old.core.store }
    ensures unbroken { IfErr result (λ fault. IsUnbroken fault) }
{
    let symbol = match symbol_found(inquiry, scope, name.as_bytes()) {
        Err(fault) => return Err(fault),
        Ok(None) => return Err(AskFault::Refused(Cause::NoScope)),
        Ok(Some(symbol)) => symbol,
    };
    match known.symbol_told(&mut inquiry.core.store, name, symbol) {
        Err(want) => Err(wanted(want)),
        Ok(symbol) => match server.answer(Some(symbol), known.defs.as_slice()) {
            Ok(()) => Ok(()),
            Err(refuse) => Err(refused(refuse)),
        },
    }
}

/// Answers a tag.
fn answer_tag(
    inquiry: &mut Inquiry,
    known: &mut Known,
    server: &mut Server,
    tag: &Text,
) -> Result<(), AskFault>
    ensures steps { inquiry.new.steps ≡ inquiry.old.steps }
    ensures closed { closed_part inquiry.new.core.store ≡ closed_part inquiry.old.core.store }
    ensures unbroken { IfErr result (λ fault. IsUnbroken fault) }
{
    match known.tag_told(&mut inquiry.core.store, tag.as_bytes()) {
        Err(want) => Err(wanted(want)),
        Ok(()) => match server.answer_tag(known.defs.as_slice()) {
            Ok(()) => Ok(()),
            Err(refuse) => Err(refused(refuse)),
        },
    }
}

/// Answers all names and tags, and takes the text of PostScript with its type.
fn serve(
    inquiry: &mut Inquiry,
    scope: Option<DictId>,
    known: &mut Known,
    server: Server,
) -> Result<(Text, CType), AskFault>
    ensures steps { inquiry.new.steps ≡ inquiry.old.steps }
    ensures closed { closed_part inquiry.new.core.store ≡ closed_part inquiry.old.core.store }
    ensures unbroken { IfErr result (λ fault. IsUnbroken fault) }
{
    let mut server = server;
    for _ in 0..=MOST_MENTIONS {
        match server.advance() {
            Err(refuse) => return Err(refused(refuse)),
            Ok(Turn::Done { postscript, ctype }) => return Ok((postscript, ctype)),
            Ok(Turn::Ask { name, server: next }) => {
                server = next;
                match answer_name(inquiry, scope, known, &mut server, name) {
                    Ok(()) => {}
                    Err(fault) => return Err(fault),
                }
            }
            Ok(Turn::AskTag { tag, server: next }) => {
                server = next;
                match answer_tag(inquiry, known, &mut server, &tag) {
                    Ok(()) => {}
                    Err(fault) => return Err(fault),
                }
            }
        }
    }
    Err(AskFault::NoMemory)
}

/// Reads a text whose frame and scope are known.
fn read_in(
    alloc: Global,
    inquiry: &mut Inquiry,
    frame: Frame,
    scope: Option<DictId>,
    server: Server,
) -> Result<ReadText, AskFault>
    ensures steps { inquiry.new.steps ≡ inquiry.old.steps }
    ensures closed { closed_part inquiry.new.core.store ≡ closed_part inquiry.old.core.store }
    ensures unbroken { IfErr result (λ fault. IsUnbroken fault) }
{
    let mut known = match Known::new(alloc, &mut inquiry.core.store) {
        Ok(known) => known,
        Err(want) => return Err(wanted(want)),
    };
    match serve(inquiry, scope, &mut known, server) {
        Err(fault) => Err(fault),
        Ok((postscript, ctype)) => Ok(ReadText {
            frame,
            scope,
            postscript,
            ctype,
            defs: known.into_defs(),
        }),
    }
}

/// Reads a text in the frame with a number: the frame, the grammar, the names and tags in their order, and then the typing rules.
pub fn read_text<W: AbsMem + Drop>(
    inquiry: &mut Inquiry,
    talk: &mut Operators<W>,
    number: u32,
    text: &[u8],
    mode: Mode,
) -> Result<ReadText, AskFault>
    requires within { inquiry.old.steps.taken ≤ inquiry.old.steps.limit }
    ensures within { inquiry.new.steps.taken ≤ inquiry.new.steps.limit }
    ensures limit { inquiry.new.steps.limit ≡ inquiry.old.steps.limit }
    ensures closed { Settles (closed_part inquiry.old.core.store) (closed_part inquiry.new.core.store) }
    ensures told { StoresNone W.seen talk.old result talk.new }
{
    let alloc = inquiry.core.operands.allocator();
    let frame = match frame_found(inquiry, talk, number) {
        Err(fault) => return Err(fault),
        Ok(None) => return Err(AskFault::Refused(Cause::NoFrame)),
        Ok(Some(frame)) => frame,
    };
    let server = match Server::start(alloc, text, mode) {
        Err(refuse) => return Err(refused(refuse)),
        Ok(server) => server,
    };
    match scope_found(inquiry, number, &frame) {
        Err(fault) => Err(fault),
        Ok(scope) => read_in(alloc, inquiry, frame, scope, server),
    }
}
