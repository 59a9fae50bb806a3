// `print`.

ghost use Rattle.std.specs.Prelude.{◌≡◌, ◌≤◌, Err, IfErr, IfOk, codes};
ghost use Rattle.std.specs.List.{list_all};
ghost use Rattle.c_lex.specs.Bytes.{is_letter, is_part};
ghost use Rattle.c_reading.specs.Readings.{is_identifier};
ghost use Rattle.ps_store.specs.Store.{closed_part};
ghost use Rattle.table_model.specs.Symbols.{function_kind, is_function};
ghost use Rattle.table_asks.specs.Asking.{Comes};
ghost use Rattle.table_asks.specs.Closing.{Settles};
ghost use Rattle.table_asks.specs.Faults.{IsUnbroken};
ghost use Rattle.table_asks.specs.Running.{RanOver};
ghost use Rattle.asking.specs.Doing.{talk_in};
ghost use Rattle.asking.specs.Lines.{BeginsWith};
ghost use Rattle.asking.specs.Printing.{procedure_of, unless_too_deep, type_of, variable_type, printed, dial_in, printed_in, printing, EndsOver, target_with, PlacedOver, ShownOver};

use crate::lines::value_text;
use crate::parts::parts_left;
use abs_mem::AbsMem;
use c_lex::keyword_of;
use frame_bytes::Frame;
use ldb_words::Text;
use ps_ops::{Operators, Standing};
use ps_store::{DictId, PsObj, PsStore};
use std::alloc::Global;
use table_asks::{
    AskFault, Cause, Inquiry, begin_run, fault_of_run, frame_found, raised, run_object,
    scope_found, symbol_found,
};
use table_model::Lack;
use table_read::{dict_at, entry};

/// The most that a type is deep.
const MOST_DEEP: u32 = 64;

/// The most parts of a type that are walked. A table by hand may tell more, each struct holding others twice, and so may structs
/// of C that are nested deep, each counted at its level: for a walk of such a type there is no memory, and no time.
const MOST_PARTS: u32 = 1_048_576;

/// The most bytes of an identifier.
const MOST_LETTERS: usize = 63;

/// Before a command runs PostScript: in which frame its operators work, and whether they may store to the target. Nothing is
/// appended yet, the immediate cell is 0, and no fault is kept.
pub fn begin_talk<W: AbsMem + Drop>(
    alloc: Global,
    talk: &mut Operators<W>,
    standing: Standing,
    raw: bool,
)
    ensures { talk.new ≡ talk_in talk.old standing raw }
{
    talk.view.standing = standing;
    talk.view.raw = raw;
    talk.memory.below.cell = 0;
    talk.out = Text::new(alloc);
    talk.fault = None;
}

/// Whether a byte may stand first in an identifier.
fn is_letter(b: u8) -> bool
    ensures { result ≡ is_letter b }
{
    (b >= b'a' && b <= b'z') || (b >= b'A' && b <= b'Z') || b == b'_'
}

/// Whether a byte may stand in an identifier behind its first one.
fn is_part(b: u8) -> bool
    ensures { result ≡ is_part b }
{
    is_letter(b) || (b >= b'0' && b <= b'9')
}

/// Whether each byte of a text may stand in an identifier.
fn are_parts(text: &[u8]) -> bool
    ensures { result ≡ list_all is_part text.now }
{
    text.iter().all(|b| is_part(*b))
}

/// Whether a text is one identifier: a letter or `_`, then letters, digits and `_`, at most 63 bytes, and no keyword.
fn is_identifier(text: &[u8]) -> bool
    ensures { result ≡ is_identifier text.now }
{
    let [first, ..] = text else {
        return false;
    };
    is_letter(*first) && are_parts(text) && text.len() <= MOST_LETTERS && keyword_of(text).is_none()
}

/// Whether a kind of symbols is that of functions; the other one is that of variables.
fn function_kind(text: &[u8]) -> Result<bool, Lack>
    ensures { result ≡ function_kind text.now }
{
    if text == b"function".as_slice() {
        Ok(true)
    } else if text == b"variable".as_slice() {
        Ok(false)
    } else {
        Err(Lack::WrongType)
    }
}

/// Whether a symbol is of a function.
fn is_function(store: &PsStore, symbol: DictId) -> Result<bool, Lack>
    ensures { result ≡ is_function store.now symbol }
{
    match entry(store, symbol, b"kind")? {
        PsObj::Name(text, _) => function_kind(store.string_get(text)),
        _ => Err(Lack::WrongType),
    }
}

/// A type that lacks something, unless it is too deep.
fn unless_too_deep(ctype: DictId, lack: Lack) -> Result<DictId, Lack>
    ensures { result ≡ unless_too_deep ctype (Err lack) }
{
    match lack {
        Lack::TooDeep => Err(Lack::TooDeep),
        _ => Ok(ctype),
    }
}

/// The type of a symbol, unless it is too deep or has more inside than there is memory for. What else a type lacks is met by its
/// printer, where that asks for it.
fn printed_type(inquiry: &Inquiry, symbol: DictId) -> Result<DictId, AskFault>
    ensures unbroken { IfErr result (λ fault. IsUnbroken fault) }
    ensures meaning { Comes (type_of symbol) inquiry.now result inquiry.now }
{
    let store = &inquiry.core.store;
    let ctype = match dict_at(store, symbol, b"type") {
        Ok(ctype) => ctype,
        Err(lack) => return Err(raised(lack)),
    };
    match parts_left(store, MOST_DEEP, MOST_PARTS, ctype) {
        Ok(0) => Err(AskFault::NoMemory),
        Ok(_) => Ok(ctype),
        Err(lack) => match unless_too_deep(ctype, lack) {
            Ok(ctype) => Ok(ctype),
            Err(lack) => Err(raised(lack)),
        },
    }
}

/// The procedure of a symbol that leaves its place.
pub fn procedure_of(store: &PsStore, symbol: DictId) -> Result<PsObj, Lack>
    ensures { result ≡ procedure_of store.now symbol }
{
    match entry(store, symbol, b"where")? {
        PsObj::Array(a, true) => Ok(PsObj::Array(a, true)),
        _ => Err(Lack::WrongType),
    }
}

/// The type of the variable that a symbol is; a function is none.
fn variable_type(inquiry: &Inquiry, symbol: DictId) -> Result<DictId, AskFault>
    ensures unbroken { IfErr result (λ fault. IsUnbroken fault) }
    ensures meaning { Comes (variable_type symbol) inquiry.now result inquiry.now }
{
    match is_function(&inquiry.core.store, symbol) {
        Err(lack) => Err(raised(lack)),
        Ok(true) => Err(AskFault::Refused(Cause::BadType)),
        Ok(false) => printed_type(inquiry, symbol),
    }
}

/// Runs the procedure of a symbol in a frame, in a dictionary of the command's own. Its operators may not store to the target.
fn place<W: AbsMem + Drop>(
    inquiry: &mut Inquiry,
    talk: &mut Operators<W>,
    frame: Frame,
    scope: Option<DictId>,
    symbol: DictId,
) -> Result<(), AskFault>
    requires within { inquiry.old.steps.taken ≤ inquiry.old.steps.limit }
    ensures within { inquiry.new.steps.taken ≤ inquiry.new.steps.limit }
    ensures limit { inquiry.new.steps.limit ≡ inquiry.old.steps.limit }
    ensures more { inquiry.old.steps.taken ≤ inquiry.new.steps.taken }
    ensures closed { Settles (closed_part inquiry.old.core.store) (closed_part inquiry.new.core.store) }
    ensures calls { RanOver W.seen W.leads talk.old.memory.below.below.below result talk.new.memory.below.below.below }
    ensures meaning { PlacedOver W.seen symbol frame scope inquiry.old talk.old result inquiry.new talk.new }
{
    let alloc = inquiry.core.operands.allocator();
    begin_talk(alloc, talk, Standing::InFrame { frame, scope }, false);
    let where_is = match procedure_of(&inquiry.core.store, symbol) {
        Ok(procedure) => procedure,
        Err(lack) => return Err(raised(lack)),
    };
    match begin_run(inquiry) {
        Err(fault) => Err(fault),
        Ok(()) => run_object(inquiry, talk, where_is),
    }
}

/// Runs the printer of a type on the place that was left.
fn show<W: AbsMem + Drop>(
    inquiry: &mut Inquiry,
    talk: &mut Operators<W>,
    ctype: DictId,
) -> Result<(), AskFault>
    requires within { inquiry.old.steps.taken ≤ inquiry.old.steps.limit }
    ensures within { inquiry.new.steps.taken ≤ inquiry.new.steps.limit }
    ensures limit { inquiry.new.steps.limit ≡ inquiry.old.steps.limit }
    ensures more { inquiry.old.steps.taken ≤ inquiry.new.steps.taken }
    ensures closed { Settles (closed_part inquiry.old.core.store) (closed_part inquiry.new.core.store) }
    ensures calls { RanOver W.seen W.leads talk.old.memory.below.below.below result talk.new.memory.below.below.below }
    ensures meaning { ShownOver W.seen ctype inquiry.old talk.old result inquiry.new talk.new }
{
    match inquiry.core.push(PsObj::Dict(ctype)) {
        Ok(()) => {}
        Err(fault) => return Err(fault_of_run(fault, None)),
    }
    match entry(&inquiry.core.store, ctype, b"printer") {
        Ok(printer) => run_object(inquiry, talk, printer),
        Err(lack) => Err(raised(lack)),
    }
}

/// Prints the variable of a symbol in a frame whose innermost symbol in scope is given.
fn print_symbol<W: AbsMem + Drop>(
    inquiry: &mut Inquiry,
    talk: &mut Operators<W>,
    frame: Frame,
    scope: Option<DictId>,
    symbol: DictId,
) -> Result<Text, AskFault>
    requires within { inquiry.old.steps.taken ≤ inquiry.old.steps.limit }
    ensures within { inquiry.new.steps.taken ≤ inquiry.new.steps.limit }
    ensures limit { inquiry.new.steps.limit ≡ inquiry.old.steps.limit }
    ensures more { inquiry.old.steps.taken ≤ inquiry.new.steps.taken }
    ensures closed { Settles (closed_part inquiry.old.core.store) (closed_part inquiry.new.core.store) }
    ensures calls { RanOver W.seen W.leads talk.old.memory.below.below.below result talk.new.memory.below.below.below }
    ensures word { IfOk result (λ text. BeginsWith (codes "value ") text) }
    ensures meaning { EndsOver (λ t. printed symbol (dial_in t frame scope)) (target_with talk.old) inquiry.old (W.seen talk.old.memory.below.below.below) result inquiry.new (W.seen talk.new.memory.below.below.below) }
{
    let ctype = match variable_type(inquiry, symbol) {
        Ok(ctype) => ctype,
        Err(fault) => return Err(fault),
    };
    match place(inquiry, talk, frame, scope, symbol) {
        Ok(()) => {}
        Err(fault) => return Err(fault),
    }
    match show(inquiry, talk, ctype) {
        Ok(()) => match value_text(inquiry.core.operands.allocator(), &talk.out) {
            Ok(text) => Ok(text),
            Err(_) => Err(AskFault::NoMemory),
        },
        Err(fault) => Err(fault),
    }
}

/// Prints the variable of a name in a frame.
fn print_in<W: AbsMem + Drop>(
    inquiry: &mut Inquiry,
    talk: &mut Operators<W>,
    number: u32,
    frame: Frame,
    name: &[u8],
) -> Result<Text, AskFault>
    requires within { inquiry.old.steps.taken ≤ inquiry.old.steps.limit }
    ensures within { inquiry.new.steps.taken ≤ inquiry.new.steps.limit }
    ensures limit { inquiry.new.steps.limit ≡ inquiry.old.steps.limit }
    ensures more { inquiry.old.steps.taken ≤ inquiry.new.steps.taken }
    ensures closed { Settles (closed_part inquiry.old.core.store) (closed_part inquiry.new.core.store) }
    ensures calls { RanOver W.seen W.leads talk.old.memory.below.below.below result talk.new.memory.below.below.below }
    ensures word { IfOk result (λ text. BeginsWith (codes "value ") text) }
    ensures meaning { EndsOver (printed_in number frame name.now) (target_with talk.old) inquiry.old (W.seen talk.old.memory.below.below.below) result inquiry.new (W.seen talk.new.memory.below.below.below) }
{
    if !is_identifier(name) {
        return Err(AskFault::Refused(Cause::BadSyntax));
    }
    let scope = match scope_found(inquiry, number, &frame) {
        Ok(scope) => scope,
        Err(fault) => return Err(fault),
    };
    match symbol_found(inquiry, scope, name) {
        Err(fault) => Err(fault),
        Ok(None) => Err(AskFault::Refused(Cause::NoScope)),
        Ok(Some(symbol)) => print_symbol(inquiry, talk, frame, scope, symbol),
    }
}

/// `print NAME`: the text of the variable of the name that is in scope in the frame with the number.
pub fn printing<W: AbsMem + Drop>(
    inquiry: &mut Inquiry,
    talk: &mut Operators<W>,
    number: u32,
    name: &[u8],
) -> Result<Text, AskFault>
    requires within { inquiry.old.steps.taken ≤ inquiry.old.steps.limit }
    ensures within { inquiry.new.steps.taken ≤ inquiry.new.steps.limit }
    ensures limit { inquiry.new.steps.limit ≡ inquiry.old.steps.limit }
    ensures more { inquiry.old.steps.taken ≤ inquiry.new.steps.taken }
    ensures closed { Settles (closed_part inquiry.old.core.store) (closed_part inquiry.new.core.store) }
    ensures calls { RanOver W.seen W.leads talk.old.memory.below.below.below result talk.new.memory.below.below.below }
    ensures word { IfOk result (λ text. BeginsWith (codes "value ") text) }
    ensures meaning { EndsOver (printing number name.now) (target_with talk.old) inquiry.old (W.seen talk.old.memory.below.below.below) result inquiry.new (W.seen talk.new.memory.below.below.below) }
{
    match frame_found(inquiry, talk, number) {
        Err(fault) => Err(fault),
        Ok(None) => Err(AskFault::Refused(Cause::NoFrame)),
        Ok(Some(frame)) => print_in(inquiry, talk, number, frame, name),
    }
}
