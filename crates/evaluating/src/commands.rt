// The commands.

ghost use Rattle.std.specs.Prelude.{◌≡◌, ◌≤◌, ◌∷◌, ◌++◌, [], IfErr, IfOk, codes};
ghost use Rattle.ps_store.specs.Store.{closed_part};
ghost use Rattle.table_asks.specs.Closing.{Settles};
ghost use Rattle.table_asks.specs.Faults.{IsUnbroken};
ghost use Rattle.evaluating.specs.Told.{StoresNone, reasoned};
ghost use Rattle.asking.specs.Lines.{BeginsWith};

use crate::depths::is_struct;
use crate::leaves::{fetch_leaves, further, leaves_of};
use crate::reading::{ReadText, read_text};
use crate::running::{check_writable, number_left, place_left, run_text};
use crate::showing::show;
use crate::storing::{Changes, Leaving};
use abs_mem::AbsMem;
use c_judge::Mode;
use c_tree::{CType, Leaf};
use frame_bytes::{Frame, Place};
use ldb_words::{Kind, Many, Text, Undef};
use ps_ops::Operators;
use ps_run::PsError;
use std::alloc::{AllocError, Global};
use table_asks::{AskFault, Cause, Inquiry};

/// The dialect's four errors are undefined steps, whichever procedure raised them.
fn reasoned(fault: AskFault) -> AskFault
    ensures { result ≡ reasoned fault }
{
    match fault {
        AskFault::Raised(PsError::Overflow) => undefined(Undef::Overflow),
        AskFault::Raised(PsError::Division) => undefined(Undef::Division),
        AskFault::Raised(PsError::Shift) => undefined(Undef::Shift),
        AskFault::Raised(PsError::Pointer) => undefined(Undef::Pointer),
        other => other,
    }
}

/// A refusal for an undefined step.
fn undefined(reason: Undef) -> AskFault
    ensures { result ≡ AskFault.Refused (Cause.Undefined reason) }
{
    AskFault::Refused(Cause::Undefined(reason))
}

/// A word, a text and LF.
fn line(alloc: Global, word: &[u8], text: &[u8]) -> Result<Text, AllocError>
    ensures { IfOk result (λ t. t ≡ word.now ++ (text.now ++ (10 ∷ []))) }
{
    let mut line = Text::from_slice(alloc, word)?;
    line.append(text)?;
    line.append(b"\n")?;
    Ok(line)
}

/// The reply of a word and a text.
fn reply(alloc: Global, word: &[u8], text: &[u8]) -> Result<Text, AskFault>
    ensures err { IfErr result (λ fault. fault ≡ AskFault.NoMemory) }
    ensures word { IfOk result (λ t. BeginsWith word.now t) }
{
    match line(alloc, word, text) {
        Ok(line) => Ok(line),
        Err(_) => Err(AskFault::NoMemory),
    }
}

/// The text of an expression's value.
fn value<W: AbsMem + Drop>(
    inquiry: &mut Inquiry,
    talk: &mut Operators<W>,
    frame: u32,
    text: &[u8],
) -> Result<Text, AskFault>
    requires within { inquiry.old.steps.taken ≤ inquiry.old.steps.limit }
    ensures within { inquiry.new.steps.taken ≤ inquiry.new.steps.limit }
    ensures limit { inquiry.new.steps.limit ≡ inquiry.old.steps.limit }
    ensures closed { Settles (closed_part inquiry.old.core.store) (closed_part inquiry.new.core.store) }
    ensures told { StoresNone W.seen talk.old result talk.new }
{
    let alloc = inquiry.core.operands.allocator();
    match read_text(inquiry, talk, frame, text, Mode::Value) {
        Err(fault) => Err(fault),
        Ok(read) => match run_text(inquiry, talk, &read) {
            Err(fault) => Err(fault),
            Ok(()) => show(alloc, inquiry, talk, &read),
        },
    }
}

/// `eval`: the value of an expression in the frame with a number, as the line `value TEXT`.
pub fn evaluating<W: AbsMem + Drop>(
    inquiry: &mut Inquiry,
    talk: &mut Operators<W>,
    frame: u32,
    text: &[u8],
) -> Result<Text, AskFault>
    requires within { inquiry.old.steps.taken ≤ inquiry.old.steps.limit }
    ensures within { inquiry.new.steps.taken ≤ inquiry.new.steps.limit }
    ensures limit { inquiry.new.steps.limit ≡ inquiry.old.steps.limit }
    ensures closed { Settles (closed_part inquiry.old.core.store) (closed_part inquiry.new.core.store) }
    ensures word { IfOk result (λ text. BeginsWith (codes "value ") text) }
    ensures told { StoresNone W.seen talk.old result talk.new }
{
    let alloc = inquiry.core.operands.allocator();
    match value(inquiry, talk, frame, text) {
        Err(fault) => Err(reasoned(fault)),
        Ok(shown) => reply(alloc, b"value ", shown.as_bytes()),
    }
}

/// `code`: the PostScript that computes an expression in the frame with a number, as the line `code TEXT`. It is not run.
pub fn coding<W: AbsMem + Drop>(
    inquiry: &mut Inquiry,
    talk: &mut Operators<W>,
    frame: u32,
    text: &[u8],
) -> Result<Text, AskFault>
    requires within { inquiry.old.steps.taken ≤ inquiry.old.steps.limit }
    ensures within { inquiry.new.steps.taken ≤ inquiry.new.steps.limit }
    ensures limit { inquiry.new.steps.limit ≡ inquiry.old.steps.limit }
    ensures closed { Settles (closed_part inquiry.old.core.store) (closed_part inquiry.new.core.store) }
    ensures word { IfOk result (λ text. BeginsWith (codes "code ") text) }
    ensures told { StoresNone W.seen talk.old result talk.new }
{
    let alloc = inquiry.core.operands.allocator();
    match read_text(inquiry, talk, frame, text, Mode::Value) {
        Err(fault) => Err(fault),
        Ok(read) => reply(alloc, b"code ", read.postscript.as_bytes()),
    }
}

/// The kind of a scalar's leaf.
fn kind_of(t: &CType) -> Kind {
    match t {
        CType::Char => Kind::Byte,
        CType::Pointer(_) | CType::Array(_, _) => Kind::Address,
        CType::Int | CType::Unsigned | CType::Void | CType::Struct(_) => Kind::Word,
    }
}

/// The leaves of what is assigned to.
fn leaves_of_target(alloc: Global, read: &ReadText) -> Result<Vec<Leaf>, AllocError> {
    if is_struct(&read.ctype) {
        return leaves_of(alloc, read.defs.as_slice(), &read.ctype);
    }
    let mut leaves = Vec::new(alloc);
    leaves.push(Leaf {
        at: 0,
        kind: kind_of(&read.ctype),
    })?;
    Ok(leaves)
}

/// What leaves are stored at a place, with these numbers.
fn leavings(
    alloc: Global,
    frame: Frame,
    place: Place,
    leaves: &[Leaf],
    values: &[u32],
) -> Result<Changes, AllocError> {
    let mut changes = Changes {
        frame,
        leaves: Many::new(alloc),
    };
    for (leaf, value) in leaves.iter().zip(values) {
        changes.leaves.push(Leaving {
            place: further(place, leaf.at),
            kind: leaf.kind,
            value: *value,
        })?;
    }
    Ok(changes)
}

/// The place that an assignment is to; beneath it stands nothing, and above it the right side.
fn target_left(inquiry: &Inquiry, read: &ReadText) -> Result<Place, AskFault>
    ensures { IfErr result (λ fault. IsUnbroken fault) }
{
    let above = if is_struct(&read.ctype) { 2 } else { 1 };
    match place_left(&inquiry.core, above) {
        Ok(place) => Ok(place),
        Err(error) => Err(AskFault::Raised(error)),
    }
}

/// The numbers of the right side: one, or those in the leaves of a struct.
fn right_side<W: AbsMem + Drop>(
    alloc: Global,
    inquiry: &Inquiry,
    talk: &mut Operators<W>,
    read: &ReadText,
    leaves: &[Leaf],
) -> Result<Vec<u32>, AskFault>
    ensures told { StoresNone W.seen talk.old result talk.new }
{
    if is_struct(&read.ctype) {
        return match place_left(&inquiry.core, 0) {
            Err(error) => Err(AskFault::Raised(error)),
            Ok(from) => fetch_leaves(alloc, talk, &read.frame, from, leaves),
        };
    }
    match number_left(&inquiry.core, 0) {
        Err(error) => Err(AskFault::Raised(error)),
        Ok(number) => match Vec::from_slice(alloc, &[number]) {
            Ok(values) => Ok(values),
            Err(_) => Err(AskFault::NoMemory),
        },
    }
}

/// What an assignment changes, once its text has run: no literal, and all leaves can be fetched.
fn fetch_changes<W: AbsMem + Drop>(
    alloc: Global,
    inquiry: &mut Inquiry,
    talk: &mut Operators<W>,
    read: &ReadText,
) -> Result<Changes, AskFault>
    requires within { inquiry.old.steps.taken ≤ inquiry.old.steps.limit }
    ensures within { inquiry.new.steps.taken ≤ inquiry.new.steps.limit }
    ensures limit { inquiry.new.steps.limit ≡ inquiry.old.steps.limit }
    ensures closed { Settles (closed_part inquiry.old.core.store) (closed_part inquiry.new.core.store) }
    ensures told { StoresNone W.seen talk.old result talk.new }
{
    let place = match target_left(inquiry, read) {
        Err(fault) => return Err(fault),
        Ok(place) => place,
    };
    match check_writable(inquiry, talk, place) {
        Err(fault) => return Err(fault),
        Ok(()) => {}
    }
    let leaves = match leaves_of_target(alloc, read) {
        Err(_) => return Err(AskFault::NoMemory),
        Ok(leaves) => leaves,
    };
    let values = match right_side(alloc, inquiry, talk, read, leaves.as_slice()) {
        Err(fault) => return Err(fault),
        Ok(values) => values,
    };
    match fetch_leaves(alloc, talk, &read.frame, place, leaves.as_slice()) {
        Err(fault) => return Err(fault),
        Ok(_) => {}
    }
    match leavings(
        alloc,
        read.frame,
        place,
        leaves.as_slice(),
        values.as_slice(),
    ) {
        Ok(changes) => Ok(changes),
        Err(_) => Err(AskFault::NoMemory),
    }
}

/// `assign`: what a plain assignment changes in the frame with a number. Its text is run, a place in memory that belongs to a string literal is
/// refused, and then each leaf is fetched. Nothing is stored.
pub fn assignment<W: AbsMem + Drop>(
    inquiry: &mut Inquiry,
    talk: &mut Operators<W>,
    frame: u32,
    text: &[u8],
) -> Result<Changes, AskFault>
    requires within { inquiry.old.steps.taken ≤ inquiry.old.steps.limit }
    ensures within { inquiry.new.steps.taken ≤ inquiry.new.steps.limit }
    ensures limit { inquiry.new.steps.limit ≡ inquiry.old.steps.limit }
    ensures closed { Settles (closed_part inquiry.old.core.store) (closed_part inquiry.new.core.store) }
    ensures told { StoresNone W.seen talk.old result talk.new }
{
    let alloc = inquiry.core.operands.allocator();
    let read = match read_text(inquiry, talk, frame, text, Mode::Assign) {
        Err(fault) => return Err(reasoned(fault)),
        Ok(read) => read,
    };
    match run_text(inquiry, talk, &read) {
        Err(fault) => return Err(reasoned(fault)),
        Ok(()) => {}
    }
    match fetch_changes(alloc, inquiry, talk, &read) {
        Ok(changes) => Ok(changes),
        Err(fault) => Err(reasoned(fault)),
    }
}
