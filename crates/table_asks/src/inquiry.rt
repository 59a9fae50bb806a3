// A command's use of a table.

ghost use Rattle.std.specs.Prelude.{◌≡◌, ◌≤◌, ◌<◌, IfOk, IfErr, OnOk, OnErr};
ghost use Rattle.ps_store.specs.Store.{closed_part};
ghost use Rattle.table_asks.specs.Closing.{Settles};
ghost use Rattle.ps_store.specs.Cut.{IsMark, cut, mark_of};
ghost use Rattle.ps_store.specs.declared.object.Part.TheVariants.{Command as CommandPart};
ghost use Rattle.table_asks.specs.Faults.{IsOwn, IsUnrefused};
ghost use Rattle.table_asks.specs.Asking.{SettlesLack, SettlesWalk};
ghost use Rattle.dialect_model.specs.Running.{core_in};
ghost use Rattle.table_asks.specs.Running.{Begins, RanOver, RunsOver};

use crate::fault::{AskFault, fault_of_run};
use abs_mem::{AbsMem, MemFault, WalkFault};
use ps_bare::force_unit;
use ps_ops::Operators;
use ps_places::error_of;
use ps_run::{PsCore, PsError, PsFault, Steps, run};
use ps_step::stack::Stack;
use ps_store::{DictId, Mark, Part, PsObj, StoreFault};
use std::alloc::AllocError;
use table_model::Lack;

/// The most steps that a command's PostScript takes.
const MOST_STEPS: u32 = 10_000_000;

/// What a side has beside the memory of its target: the interpreter with the table, and the steps of the command.
#[derive(Drop)]
pub struct Inquiry {
    pub core: PsCore,
    pub steps: Steps,
}

/// Begins a command: none of its 10,000,000 steps is taken, nothing is left on the stacks but the base dictionaries, and what is made
/// from here on is the command's own, up to `end_command` with the mark that is given. Without memory nothing changes.
pub fn begin_command(inquiry: &mut Inquiry) -> Result<Mark, AllocError>
    ensures mark { IfOk result (λ mark. IsMark mark) }
    ensures within { OnOk result (inquiry.new.steps.taken ≤ inquiry.new.steps.limit) }
    ensures kept { OnErr result (inquiry.new ≡ inquiry.old) }
    ensures closed { OnOk result (closed_part inquiry.new.core.store ≡ record (closed_part inquiry.old.core.store) { part = CommandPart }) }
    ensures steps { OnOk result (inquiry.new.steps ≡ record { taken = 0; limit = 10000000 }) }
    ensures store { OnOk result (inquiry.new.core.store ≡ record inquiry.old.core.store { part = CommandPart }) }
    ensures there { IfOk result (λ mark. mark ≡ mark_of inquiry.old.core.store.command) }
{
    let alloc = inquiry.core.operands.allocator();
    let dictionaries = Stack::copy_of(alloc, inquiry.core.store.base())?;
    inquiry.core.dictionaries = dictionaries;
    inquiry.core.operands.clear();
    inquiry.core.execution.clear();
    inquiry.core.store.use_part(Part::Command);
    inquiry.steps = Steps {
        taken: 0,
        limit: MOST_STEPS,
    };
    Ok(inquiry.core.store.mark())
}

/// Ends a command: what it made is dropped, and nothing is left on the stacks.
pub fn end_command(inquiry: &mut Inquiry, mark: Mark)
    requires { IsMark mark }
    ensures closed { closed_part inquiry.new.core.store ≡ record (closed_part inquiry.old.core.store) { part = CommandPart } }
    ensures store { inquiry.new.core.store ≡ record inquiry.old.core.store { part = CommandPart; command = cut inquiry.old.core.store.command mark } }
{
    inquiry.core.operands.clear();
    inquiry.core.dictionaries.clear();
    inquiry.core.execution.clear();
    inquiry.core.store.use_part(Part::Command);
    inquiry.core.store.cut_back(mark);
}

/// Puts a dictionary on the base ones, alone: the command's own one, before it runs PostScript again. There are no operands.
pub fn stand_on(inquiry: &mut Inquiry, own: DictId) -> Result<(), AllocError>
    ensures store { inquiry.new.core.store ≡ inquiry.old.core.store }
    ensures steps { inquiry.new.steps ≡ inquiry.old.steps }
    ensures stands { OnOk result (inquiry.new.core ≡ core_in inquiry.old.core.store own) }
{
    let alloc = inquiry.core.operands.allocator();
    let mut dictionaries = Stack::copy_of(alloc, inquiry.core.store.base())?;
    dictionaries.push(own)?;
    inquiry.core.dictionaries = dictionaries;
    inquiry.core.operands.clear();
    inquiry.core.execution.clear();
    Ok(())
}

/// Before a command runs PostScript: its own dictionary is made, and stands on the base ones; there are no operands. limitcheck
/// comes where the store has no room for a dictionary.
pub fn begin_run(inquiry: &mut Inquiry) -> Result<(), AskFault>
    ensures steps { inquiry.new.steps ≡ inquiry.old.steps }
    ensures closed { closed_part inquiry.new.core.store ≡ closed_part inquiry.old.core.store }
    ensures own { IfErr result (λ fault. IsOwn fault) }
    ensures begins { Begins inquiry.old result inquiry.new }
{
    match inquiry.core.store.make_dict() {
        Ok(own) => match stand_on(inquiry, own) {
            Ok(()) => Ok(()),
            Err(_) => Err(AskFault::NoMemory),
        },
        Err(StoreFault::NoMemory) => Err(AskFault::NoMemory),
        Err(StoreFault::Limit | StoreFault::ReadOnly) => Err(AskFault::Raised(PsError::LimitCheck)),
    }
}

/// Runs an object over the memory of the target, on the stacks as they are.
pub fn run_object<W: AbsMem + Drop>(
    inquiry: &mut Inquiry,
    talk: &mut Operators<W>,
    what: PsObj,
) -> Result<(), AskFault>
    requires within { inquiry.old.steps.taken ≤ inquiry.old.steps.limit }
    ensures within { inquiry.new.steps.taken ≤ inquiry.new.steps.limit }
    ensures limit { inquiry.new.steps.limit ≡ inquiry.old.steps.limit }
    ensures more { inquiry.old.steps.taken ≤ inquiry.new.steps.taken }
    ensures closed { Settles (closed_part inquiry.old.core.store) (closed_part inquiry.new.core.store) }
    ensures unrefused { IfErr result (λ fault. IsUnrefused fault) }
    ensures calls { RanOver W.seen W.leads talk.old.memory.below.below.below result talk.new.memory.below.below.below }
    ensures meaning { RunsOver W.seen what inquiry.old talk.old result inquiry.new talk.new }
{
    match run(&mut inquiry.core, talk, what, &mut inquiry.steps) {
        Ok(()) => Ok(()),
        Err(fault) => Err(fault_of_run(fault, talk.fault.take())),
    }
}

/// Runs the unit that a look-up met, after which it is asked again; or tells the error of what the table lacks. The steps that are
/// taken grow where a unit was run.
pub fn settle(inquiry: &mut Inquiry, lack: Lack) -> Result<(), AskFault>
    requires within { inquiry.old.steps.taken ≤ inquiry.old.steps.limit }
    ensures own { IfErr result (λ fault. IsOwn fault) }
    ensures unrefused { IfErr result (λ fault. IsUnrefused fault) }
    ensures within { inquiry.new.steps.taken ≤ inquiry.new.steps.limit }
    ensures limit { inquiry.new.steps.limit ≡ inquiry.old.steps.limit }
    ensures more { inquiry.old.steps.taken ≤ inquiry.new.steps.taken }
    ensures some { OnOk result (inquiry.old.steps.taken < inquiry.new.steps.taken) }
    ensures closed { Settles (closed_part inquiry.old.core.store) (closed_part inquiry.new.core.store) }
    ensures settles { SettlesLack lack inquiry.old result inquiry.new }
{
    match lack {
        Lack::Unforced { unit } => {
            match force_unit(&mut inquiry.core, unit, &mut inquiry.steps) {
                Ok(()) => Ok(()),
                Err(PsFault::Error(error)) => Err(AskFault::Raised(error)),
                Err(PsFault::Spent) => Err(AskFault::Spent),
                Err(PsFault::Link | PsFault::NoMemory) => Err(AskFault::NoMemory),
            }
        }
        other => Err(AskFault::Raised(error_of(other))),
    }
}

/// The same for what a walk tells: where the memory gave no answer that is told.
pub fn settle_walk(inquiry: &mut Inquiry, fault: WalkFault) -> Result<(), AskFault>
    requires within { inquiry.old.steps.taken ≤ inquiry.old.steps.limit }
    ensures unrefused { IfErr result (λ fault. IsUnrefused fault) }
    ensures within { inquiry.new.steps.taken ≤ inquiry.new.steps.limit }
    ensures limit { inquiry.new.steps.limit ≡ inquiry.old.steps.limit }
    ensures more { inquiry.old.steps.taken ≤ inquiry.new.steps.taken }
    ensures some { OnOk result (inquiry.old.steps.taken < inquiry.new.steps.taken) }
    ensures closed { Settles (closed_part inquiry.old.core.store) (closed_part inquiry.new.core.store) }
    ensures settles { SettlesWalk fault inquiry.old result inquiry.new }
{
    match fault {
        WalkFault::Unforced { unit } => settle(inquiry, Lack::Unforced { unit }),
        WalkFault::Shape { missing: true } => Err(AskFault::Raised(PsError::Undefined)),
        WalkFault::Shape { missing: false } => Err(AskFault::Raised(PsError::TypeCheck)),
        WalkFault::Memory(MemFault::Outside { .. }) => Err(AskFault::Raised(PsError::RangeCheck)),
        WalkFault::Memory(other) => Err(AskFault::Broken(other)),
    }
}
