// Showing the value that a text left.

ghost use Rattle.std.specs.Prelude.{◌≡◌, ◌≤◌, IfErr};
ghost use Rattle.ps_store.specs.Store.{closed_part};
ghost use Rattle.table_asks.specs.Closing.{Settles};
ghost use Rattle.table_asks.specs.Faults.{IsUnbroken};
ghost use Rattle.evaluating.specs.Told.{StoresNone};

use crate::apart::Apart;
use crate::depths::is_struct;
use crate::dressing::type_of_value;
use crate::known::{Want, wanted};
use crate::leaves::{fetch_leaves, leaves_of};
use crate::reading::ReadText;
use crate::running::{number_left, place_left};
use abs_mem::AbsMem;
use frame_bytes::{Place, Space};
use ldb_words::Text;
use ps_ops::Operators;
use ps_places::space_name;
use ps_run::{PsError, Steps, run};
use ps_store::{DictId, PsObj};
use std::alloc::{AllocError, Global};
use std::mem;
use table_asks::{AskFault, Inquiry, fault_of_run};

/// The most steps of a printer.
const MOST_STEPS: u32 = 10_000_000;

/// The place of what is shown: of a struct where it stands, once all its leaves were fetched; any other value is put into the immediate cell.
fn shown_place<W: AbsMem + Drop>(
    alloc: Global,
    inquiry: &Inquiry,
    talk: &mut Operators<W>,
    read: &ReadText,
) -> Result<Place, AskFault>
    ensures told { StoresNone W.seen talk.old result talk.new }
{
    if !is_struct(&read.ctype) {
        return match number_left(&inquiry.core, 0) {
            Err(error) => Err(AskFault::Raised(error)),
            Ok(value) => {
                talk.memory.below.cell = value;
                Ok(Place {
                    space: Space::Immediate,
                    at: 0,
                })
            }
        };
    }
    let place = match place_left(&inquiry.core, 0) {
        Err(error) => return Err(AskFault::Raised(error)),
        Ok(place) => place,
    };
    let leaves = match leaves_of(alloc, read.defs.as_slice(), &read.ctype) {
        Err(_) => return Err(AskFault::NoMemory),
        Ok(leaves) => leaves,
    };
    match fetch_leaves(alloc, talk, &read.frame, place, leaves.as_slice()) {
        Err(fault) => Err(fault),
        Ok(_) => Ok(place),
    }
}

/// The prelude's dictionary, the first of the base ones.
fn prelude_of(inquiry: &Inquiry) -> Result<DictId, AskFault>
    ensures { IfErr result (λ fault. IsUnbroken fault) }
{
    match inquiry.core.store.base().first() {
        Some(prelude) => Ok(*prelude),
        None => Err(AskFault::Raised(PsError::Undefined)),
    }
}

/// Puts a place and the dictionary of a type alone on the operands, and the prelude's dictionary alone on the dictionaries.
fn stand(
    inquiry: &mut Inquiry,
    prelude: DictId,
    place: Place,
    ctype: DictId,
) -> Result<(), AllocError>
    ensures steps { inquiry.new.steps ≡ inquiry.old.steps }
    ensures closed { closed_part inquiry.new.core.store ≡ closed_part inquiry.old.core.store }
{
    inquiry.core.dictionaries.clear();
    inquiry.core.dictionaries.push(prelude)?;
    inquiry.core.operands.clear();
    inquiry.core.operands.push(space_name(place.space))?;
    inquiry
        .core
        .operands
        .push(PsObj::Int(place.at.cast_signed()))?;
    inquiry.core.operands.push(PsObj::Dict(ctype))
}

/// Runs a printer on the operands. Its own steps don't count for the command, but those of the units that it runs do. Its operators may
/// not store to the target.
fn run_printer<W: AbsMem + Drop>(
    inquiry: &mut Inquiry,
    talk: &mut Operators<W>,
    printer: PsObj,
) -> Result<(), AskFault>
    requires within { inquiry.old.steps.taken ≤ inquiry.old.steps.limit }
    ensures within { inquiry.new.steps.taken ≤ inquiry.new.steps.limit }
    ensures limit { inquiry.new.steps.limit ≡ inquiry.old.steps.limit }
    ensures closed { Settles (closed_part inquiry.old.core.store) (closed_part inquiry.new.core.store) }
    ensures told { StoresNone W.seen talk.old result talk.new }
{
    talk.view.raw = false;
    let mut steps = Steps {
        taken: 0,
        limit: MOST_STEPS,
    };
    let mut apart = Apart {
        talk,
        counted: inquiry.steps,
    };
    let ended = run(&mut inquiry.core, &mut apart, printer, &mut steps);
    inquiry.steps.taken = apart.counted.taken.min(inquiry.steps.limit);
    match ended {
        Ok(()) => Ok(()),
        Err(fault) => Err(fault_of_run(fault, talk.fault.take())),
    }
}

/// Shows what a text left: the text of its value.
pub fn show<W: AbsMem + Drop>(
    alloc: Global,
    inquiry: &mut Inquiry,
    talk: &mut Operators<W>,
    read: &ReadText,
) -> Result<Text, AskFault>
    requires within { inquiry.old.steps.taken ≤ inquiry.old.steps.limit }
    ensures within { inquiry.new.steps.taken ≤ inquiry.new.steps.limit }
    ensures limit { inquiry.new.steps.limit ≡ inquiry.old.steps.limit }
    ensures closed { Settles (closed_part inquiry.old.core.store) (closed_part inquiry.new.core.store) }
    ensures told { StoresNone W.seen talk.old result talk.new }
{
    let place = match shown_place(alloc, inquiry, talk, read) {
        Err(fault) => return Err(fault),
        Ok(place) => place,
    };
    let prelude = match prelude_of(inquiry) {
        Err(fault) => return Err(fault),
        Ok(prelude) => prelude,
    };
    let defs = read.defs.as_slice();
    let store = &mut inquiry.core.store;
    let ctype = match type_of_value(alloc, store, prelude, defs, &read.ctype) {
        Err(fault) => return Err(wanted(Want::from(fault))),
        Ok(ctype) => ctype,
    };
    let printer = match inquiry.core.store.text_get(ctype, b"printer") {
        None => return Err(AskFault::Raised(PsError::Undefined)),
        Some(printer) => printer,
    };
    match stand(inquiry, prelude, place, ctype) {
        Err(_) => return Err(AskFault::NoMemory),
        Ok(()) => {}
    }
    talk.out = Text::new(alloc);
    match run_printer(inquiry, talk, printer) {
        Err(fault) => Err(fault),
        Ok(()) => Ok(mem::replace(&mut talk.out, Text::new(alloc))),
    }
}
