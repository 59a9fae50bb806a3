// Running the PostScript of an expression, and what it leaves.

ghost use Rattle.std.specs.Prelude.{◌≡◌, ◌≤◌};
ghost use Rattle.ps_store.specs.Store.{closed_part};
ghost use Rattle.table_asks.specs.Closing.{Settles};
ghost use Rattle.evaluating.specs.Told.{StoresNone};

use crate::known::{Want, wanted};
use crate::reading::ReadText;
use abs_mem::{AbsMem, Locate};
use frame_bytes::{Place, Space};
use ldb_words::{Text, Undef};
use locate::Locator;
use ps_ops::{Operators, Standing};
use ps_places::{space_named, text_of};
use ps_run::{PsCore, PsError};
use ps_store::PsObj;
use ps_words::word_in;
use table_asks::{AskFault, Cause, Inquiry, begin_run, run_object, settle_walk};
use table_model::Found;

/// Runs the PostScript of a text in its frame.
pub fn run_text<W: AbsMem + Drop>(
    inquiry: &mut Inquiry,
    talk: &mut Operators<W>,
    read: &ReadText,
) -> Result<(), AskFault>
    requires within { inquiry.old.steps.taken ≤ inquiry.old.steps.limit }
    ensures within { inquiry.new.steps.taken ≤ inquiry.new.steps.limit }
    ensures limit { inquiry.new.steps.limit ≡ inquiry.old.steps.limit }
    ensures closed { Settles (closed_part inquiry.old.core.store) (closed_part inquiry.new.core.store) }
    ensures told { StoresNone W.seen talk.old result talk.new }
{
    talk.view.standing = Standing::InFrame {
        frame: read.frame,
        scope: read.scope,
    };
    talk.view.raw = false;
    talk.memory.below.cell = 0;
    talk.out = Text::new(inquiry.core.operands.allocator());
    talk.fault = None;
    match begin_run(inquiry) {
        Ok(()) => {}
        Err(fault) => return Err(fault),
    }
    match inquiry.core.store.make_string(read.postscript.as_bytes()) {
        Ok(text) => run_object(inquiry, talk, PsObj::Str(text, true)),
        Err(fault) => Err(wanted(Want::from(fault))),
    }
}

/// The operand with so many above it.
fn operand(core: &PsCore, depth: usize) -> Result<PsObj, PsError> {
    match core.operands.get(depth) {
        Some(object) => Ok(object),
        None => Err(PsError::StackUnderflow),
    }
}

/// The number that is the operand with so many above it.
pub fn number_left(core: &PsCore, depth: usize) -> Result<u32, PsError> {
    word_in(operand(core, depth)?)
}

/// The place whose offset is the operand with so many above it; its space stands beneath.
pub fn place_left(core: &PsCore, depth: usize) -> Result<Place, PsError> {
    let at = number_left(core, depth)?;
    let text = text_of(&core.store, operand(core, depth.saturating_add(1))?)?;
    let space = space_named(core.store.string_get(text))?;
    Ok(Place { space, at })
}

/// The object to which an address belongs, if there is one.
fn object_at<W: AbsMem + Drop>(
    inquiry: &mut Inquiry,
    talk: &mut Operators<W>,
    address: u32,
) -> Result<Option<Found>, AskFault>
    requires within { inquiry.old.steps.taken ≤ inquiry.old.steps.limit }
    ensures within { inquiry.new.steps.taken ≤ inquiry.new.steps.limit }
    ensures limit { inquiry.new.steps.limit ≡ inquiry.old.steps.limit }
    ensures closed { Settles (closed_part inquiry.old.core.store) (closed_part inquiry.new.core.store) }
    ensures told { StoresNone W.seen talk.old result talk.new }
{
    let mut locator = Locator {
        target: talk.view.target,
        context: talk.view.context,
    };
    let m = &mut talk.memory.below.below.below;
    'again: loop {
        match locator.find(&inquiry.core.store, m, address) {
            Ok(found) => return Ok(found),
            Err(fault) => match settle_walk(inquiry, fault) {
                Ok(()) => {}
                Err(fault) => return Err(fault),
            },
        }
    }
}

/// Whether a place may be written: no string literal is.
pub fn check_writable<W: AbsMem + Drop>(
    inquiry: &mut Inquiry,
    talk: &mut Operators<W>,
    place: Place,
) -> Result<(), AskFault>
    requires within { inquiry.old.steps.taken ≤ inquiry.old.steps.limit }
    ensures within { inquiry.new.steps.taken ≤ inquiry.new.steps.limit }
    ensures limit { inquiry.new.steps.limit ≡ inquiry.old.steps.limit }
    ensures closed { Settles (closed_part inquiry.old.core.store) (closed_part inquiry.new.core.store) }
    ensures told { StoresNone W.seen talk.old result talk.new }
{
    if place.space != Space::Memory || place.at == 0 {
        return Ok(());
    }
    match object_at(inquiry, talk, place.at) {
        Err(fault) => Err(fault),
        Ok(Some(found)) if found.literal => {
            Err(AskFault::Refused(Cause::Undefined(Undef::Pointer)))
        }
        Ok(_) => Ok(()),
    }
}
