// An entry is used.

ghost use Rattle.ps_store.specs.StoreState.{Closed};
ghost use Rattle.ps_store.specs.Store.{closed_part, entries_of, KeepsClosed};
ghost use Rattle.ps_store.specs.Entries.{value_at};
ghost use Rattle.ps_store.specs.Cut.{mark_of, IsMark};
ghost use Rattle.ps_store.specs.Settled.{Settled};
ghost use Rattle.std.specs.Prelude.{◌≡◌, ◌≢◌, ◌≤◌, ◌-◌, Err, OnErr, reverse};
ghost use Rattle.ps_step.specs.declared.fault.PsFault.TheVariants.{Spent as OutOfSteps};
ghost use Rattle.ps_run.specs.Runs.{RunsObject, TellsSteps};
ghost use Rattle.ps_force.specs.Forcing.{left_on, forced_by, placing, Forces, Uses};

use ps_run::{Dialect, PsCore, PsError, PsFault, Steps, run};
use ps_step::stack::Stack;
use ps_store::{DictId, Key, Mark, Part, PsObj};

/// What a run leaves: its topmost operand, which may not be an executable string.
fn left_on(operands: &Stack<PsObj>) -> Result<PsObj, PsFault>
    ensures left { result ≡ left_on operands.now }
    ensures unspent { result ≢ Err OutOfSteps }
{
    match operands.get(0) {
        None => Err(PsFault::Error(PsError::StackUnderflow)),
        Some(PsObj::Str(_, true)) => Err(PsFault::Error(PsError::TypeCheck)),
        Some(x) => Ok(x),
    }
}

/// Puts a value in the place of a deferred entry, and closes what was made.
fn place(core: &mut PsCore, d: DictId, key: &Key, mark: Mark, x: PsObj) -> Result<PsObj, PsFault>
    requires counted { IsMark mark }
    requires keeps { KeepsClosed core.old.store mark }
    ensures given { placing mark d key.now x (value_at (entries_of core.old.store d) key.now) core.old.store ≡ (result, core.new.store) }
    ensures others { core.new ≡ record core.old { store = core.new.store } }
    ensures unspent { result ≢ Err OutOfSteps }
    ensures stays { OnErr result (closed_part core.new.store ≡ closed_part core.old.store) }
    ensures closed { Settled (closed_part core.old.store) (closed_part core.new.store) }
{
    match core.store.dict_get(d, key) {
        Some(PsObj::Str(_, true)) => {
            core.store.settle(d, key, x);
            core.store.close_all();
            Ok(x)
        }
        Some(y) => {
            core.store.close_all();
            Ok(y)
        }
        None => {
            core.store.cut_back(mark);
            Err(PsFault::Error(PsError::Undefined))
        }
    }
}

/// Settles a deferred entry by what its run answered. Where it failed, what it made since the mark is dropped.
fn settle_by(
    core: &mut PsCore,
    d: DictId,
    key: &Key,
    mark: Mark,
    answer: Result<(), PsFault>,
) -> Result<PsObj, PsFault>
    requires counted { IsMark mark }
    requires keeps { KeepsClosed core.old.store mark }
    ensures given { forced_by mark d key.now answer core.old.operands core.old.store ≡ (result, core.new.store) }
    ensures others { core.new ≡ record core.old { store = core.new.store } }
    ensures spent { result ≡ Err OutOfSteps → answer ≡ Err OutOfSteps }
    ensures stays { OnErr result (closed_part core.new.store ≡ closed_part core.old.store) }
    ensures closed { Settled (closed_part core.old.store) (closed_part core.new.store) }
{
    if let Err(fault) = answer {
        core.store.cut_back(mark);
        return Err(fault);
    }
    match left_on(&core.operands) {
        Ok(x) => place(core, d, key, mark, x),
        Err(fault) => {
            core.store.cut_back(mark);
            Err(fault)
        }
    }
}

/// Runs an object with the store's base dictionaries.
fn run_on_base<D: Dialect>(
    core: &mut PsCore,
    dialect: &mut D,
    text: PsObj,
    steps: &mut Steps,
) -> Result<(), PsFault>
    requires within { steps.old.taken ≤ steps.old.limit }
    requires keeps { (p q : Closed) → D.remains p q → q ≡ p }
    ensures limit { steps.new.limit ≡ steps.old.limit }
    ensures within { steps.new.taken ≤ steps.new.limit }
    ensures more { steps.old.taken ≤ steps.new.taken }
    ensures kept { core.new.execution ≡ core.old.execution }
    ensures closed { closed_part core.new.store ≡ closed_part core.old.store }
    ensures told { TellsSteps result (steps.new.limit - steps.new.taken) }
    ensures runs { RunsObject D.operates (steps.old.limit - steps.old.taken) text dialect.old (record core.old { dictionaries = reverse core.old.store.base }) result (steps.new.limit - steps.new.taken) dialect.new core.new }
{
    core.dictionaries = Stack::copy_of(core.operands.allocator(), core.store.base())?;
    run(core, dialect, text, steps)
}

/// Runs an executable string and settles its entry. What it makes belongs to the table's part, and is closed.
#[tactic(auto, using(crate::proofs::Forcing::part_back))]
fn force_text<D: Dialect>(
    core: &mut PsCore,
    dialect: &mut D,
    d: DictId,
    key: &Key,
    text: PsObj,
    steps: &mut Steps,
) -> Result<PsObj, PsFault>
    requires within { steps.old.taken ≤ steps.old.limit }
    requires keeps { (p q : Closed) → D.remains p q → q ≡ p }
    ensures limit { steps.new.limit ≡ steps.old.limit }
    ensures within { steps.new.taken ≤ steps.new.limit }
    ensures more { steps.old.taken ≤ steps.new.taken }
    ensures spent { result ≡ Err OutOfSteps → steps.new.taken ≡ steps.new.limit }
    ensures stays { OnErr result (closed_part core.new.store ≡ closed_part core.old.store) }
    ensures closed { Settled (closed_part core.old.store) (closed_part core.new.store) }
    ensures forces { Forces D.operates (steps.old.limit - steps.old.taken) dialect.old core.old d key.now text result (steps.new.limit - steps.new.taken) dialect.new core.new }
{
    let part = core.store.part();
    core.store.use_part(Part::Table);
    let mark = core.store.mark();
    let operands = core.operands.take_all();
    let dictionaries = core.dictionaries.take_all();
    let answer = run_on_base(core, dialect, text, steps);
    let result = settle_by(core, d, key, mark, answer);
    core.operands = operands;
    core.dictionaries = dictionaries;
    core.store.use_part(part);
    result
}

/// Gives the value under a key of a dictionary. An executable string there is run once: on no operands and the store's base
/// dictionaries, as a part of the table, and the topmost operand that it leaves takes its place, so that each later use gives
/// that object; but where the run itself put another value there, as it can into a dictionary that is not closed, that one
/// stays and is given. What it made is closed. `dialect` is a new one, without a target, for each use.
///
/// undefined comes where the key is not there, stackunderflow where the string leaves nothing, typecheck where it leaves an
/// executable string, and else the error of its run. Then what is closed, with the entry, is as it was, also where memory runs
/// out, and what the run made is dropped. Spent comes exactly where the run spends the steps. The stacks are as before, whatever the answer but want of memory.
pub fn force<D: Dialect>(
    core: &mut PsCore,
    dialect: &mut D,
    d: DictId,
    key: &Key,
    steps: &mut Steps,
) -> Result<PsObj, PsFault>
    requires within { steps.old.taken ≤ steps.old.limit }
    requires keeps { (p q : Closed) → D.remains p q → q ≡ p }
    ensures limit { steps.new.limit ≡ steps.old.limit }
    ensures within { steps.new.taken ≤ steps.new.limit }
    ensures more { steps.old.taken ≤ steps.new.taken }
    ensures spent { result ≡ Err OutOfSteps → steps.new.taken ≡ steps.new.limit }
    ensures stays { OnErr result (closed_part core.new.store ≡ closed_part core.old.store) }
    ensures closed { Settled (closed_part core.old.store) (closed_part core.new.store) }
    ensures uses { Uses D.operates (steps.old.limit - steps.old.taken) dialect.old core.old d key.now (value_at (entries_of core.old.store d) key.now) result (steps.new.limit - steps.new.taken) dialect.new core.new }
{
    match core.store.dict_get(d, key) {
        None => Err(PsFault::Error(PsError::Undefined)),
        Some(PsObj::Str(t, true)) => {
            force_text(core, dialect, d, key, PsObj::Str(t, true), steps)
        }
        Some(x) => Ok(x),
    }
}
