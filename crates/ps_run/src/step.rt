//! One step of a run: one object is executed, or one turn of a loop is made.

ghost use Rattle.ps_store.specs.Store.{closed_part};
ghost use Rattle.std.specs.Prelude.{◌≡◌, ◌≤◌, ◌+ℤ◌, length, true, false, drop, ◌∷◌, IfSome, IfNone, OnSome};
ghost use Rattle.ps_step.specs.declared.item.Item.TheVariants.{Object, Procedure, Text, Repeat as Turns, Loop, For, ForArray, ForString, ForDict, Stopped};
ghost use Rattle.ps_step.specs.ControlOperators.{goes_on};
ghost use Rattle.ps_step.specs.Effects.{DoesOrLeaves};
ghost use Rattle.ps_run.specs.Step.{raising, settled, turning, turning_pair, step};
ghost use Rattle.ps_step.specs.State.{with_execution};
ghost use Rattle.ps_step.specs.Executing.{alone, meeting};
ghost use Rattle.ps_run.specs.Runs.{Raises, Steps};

use crate::scan::read_object;
use ps_step::fault::{PsError, PsFault};
use ps_step::item::{Item, cut_to_stopped};
use ps_step::machine::{MOST_OPERANDS, PsCore};
use ps_store::{ArrayId, DictId, Pair, PsObj, StringId};

/// What a step did.
#[derive(Clone, Copy)]
pub enum Progress {
    /// Nothing was left to be executed.
    Ended,
    /// The step was made.
    Went,
    /// The step asks for the dialect's operator with this number in its list.
    Asked(u16),
}

/// Raises an error: the innermost `stopped` leaves true.
pub(crate) fn raise(core: &mut PsCore, error: PsError) -> Result<(), PsFault>
    ensures raises { Raises result core.new (raising error core.old) }
    ensures closed { closed_part core.new.store ≡ closed_part core.old.store }
{
    if !cut_to_stopped(&mut core.execution) {
        return Err(PsFault::Error(error));
    }
    if core.operands.len() >= MOST_OPERANDS {
        core.execution.clear();
        return Err(PsFault::Error(PsError::StackOverflow));
    }
    core.operands.push(PsObj::Bool(true))?;
    Ok(())
}

/// The number of the next turn of `for`, if there is one.
fn number_after(next: i32, by: i32, limit: i32) -> Option<i32>
    ensures sum { IfSome result (λ after. after ≡ next +ℤ by) }
    ensures some { OnSome result (goes_on (next +ℤ by) by limit ≡ true) }
    ensures none { IfNone result (goes_on (next +ℤ by) by limit ≡ false) }
{
    let after = i64::from(next) + i64::from(by);
    if 0 <= by {
        if after <= i64::from(limit) {
            return Some(next + by);
        }
    } else if i64::from(limit) <= after {
        return Some(next + by);
    }
    None
}

/// Executes an object that stood on the execution stack.
fn step_object(core: &mut PsCore, x: PsObj) -> Result<Progress, PsFault>
    requires { core.old.execution ≡ Object x ∷ drop 1 core.old.execution }
    ensures steps { Steps result core.new (step core.old) }
    ensures closed { closed_part core.new.store ≡ closed_part core.old.store }
{
    core.execution.take(1);
    match core.execute(x) {
        Ok(None) => Ok(Progress::Went),
        Ok(Some(op)) => Ok(Progress::Asked(op)),
        Err(PsFault::Error(error)) => {
            raise(core, error)?;
            Ok(Progress::Went)
        }
        Err(fault) => Err(fault),
    }
}

/// Executes the next object of a procedure.
fn step_procedure(core: &mut PsCore, a: ArrayId, at: usize) -> Result<Progress, PsFault>
    requires { core.old.execution ≡ Procedure a at ∷ drop 1 core.old.execution }
    ensures steps { Steps result core.new (step core.old) }
    ensures closed { closed_part core.new.store ≡ closed_part core.old.store }
{
    let items = core.store.array_get(a);
    let x = match items.get(at) {
        Some(x) => *x,
        None => PsObj::Null,
    };
    if at < items.len() && at + 1 < items.len() {
        core.execution.continue_at(a, at, at + 1);
    } else {
        core.execution.take(1);
    }
    match core.meet(x) {
        Ok(None) => Ok(Progress::Went),
        Ok(Some(op)) => Ok(Progress::Asked(op)),
        Err(PsFault::Error(error)) => {
            raise(core, error)?;
            Ok(Progress::Went)
        }
        Err(fault) => Err(fault),
    }
}

/// Executes an object that was read from a text up to a place.
fn step_read(core: &mut PsCore, t: StringId, next: usize, x: PsObj) -> Result<Progress, PsFault>
    requires { 1 ≤ length core.old.execution }
    ensures steps { Steps result core.new (settled (meeting x (with_execution core.old (Text t next ∷ drop 1 core.old.execution)))) }
    ensures closed { closed_part core.new.store ≡ closed_part core.old.store }
{
    core.execution.replace(1, Item::Text(t, next));
    match core.meet(x) {
        Ok(None) => Ok(Progress::Went),
        Ok(Some(op)) => Ok(Progress::Asked(op)),
        Err(PsFault::Error(error)) => {
            raise(core, error)?;
            Ok(Progress::Went)
        }
        Err(fault) => Err(fault),
    }
}

/// Makes one turn of `repeat`.
fn step_repeat(core: &mut PsCore, left: u32, body: ArrayId) -> Result<Progress, PsFault>
    requires { core.old.execution ≡ Turns left body ∷ drop 1 core.old.execution }
    ensures steps { Steps result core.new (step core.old) }
    ensures closed { closed_part core.new.store ≡ closed_part core.old.store }
{
    if 1 < left {
        core.execution.set_top(Item::Repeat(left - 1, body));
    } else {
        core.execution.set_top(Item::LastTurn);
    }
    match core.call(body) {
        Ok(()) => Ok(Progress::Went),
        Err(PsFault::Error(error)) => {
            raise(core, error)?;
            Ok(Progress::Went)
        }
        Err(fault) => Err(fault),
    }
}

/// Pushes an object, and enters the body of a loop.
fn turn(core: &mut PsCore, x: PsObj, body: ArrayId) -> Result<(), PsFault>
    ensures does { DoesOrLeaves result core.new (turning x body core.old) }
    ensures closed { closed_part core.new.store ≡ closed_part core.old.store }
{
    core.push(x)?;
    core.call(body)?;
    Ok(())
}

/// Makes one turn of a loop that pushes an object.
fn make_turn(core: &mut PsCore, x: PsObj, body: ArrayId) -> Result<Progress, PsFault>
    ensures steps { Steps result core.new (settled (alone (turning x body core.old))) }
    ensures closed { closed_part core.new.store ≡ closed_part core.old.store }
{
    match turn(core, x, body) {
        Ok(()) => Ok(Progress::Went),
        Err(PsFault::Error(error)) => {
            raise(core, error)?;
            Ok(Progress::Went)
        }
        Err(fault) => Err(fault),
    }
}

/// Makes one turn of `for`.
fn step_for(
    core: &mut PsCore,
    next: i32,
    by: i32,
    limit: i32,
    body: ArrayId,
) -> Result<Progress, PsFault>
    requires { core.old.execution ≡ For next by limit body ∷ drop 1 core.old.execution }
    ensures steps { Steps result core.new (step core.old) }
    ensures closed { closed_part core.new.store ≡ closed_part core.old.store }
{
    match number_after(next, by, limit) {
        Some(after) => core.execution.replace(1, Item::For(after, by, limit, body)),
        None => core.execution.replace(1, Item::LastTurn),
    }
    make_turn(core, PsObj::Int(next), body)
}

/// Makes one turn of `forall` over an array.
fn step_array(core: &mut PsCore, a: ArrayId, at: usize, body: ArrayId) -> Result<Progress, PsFault>
    requires { core.old.execution ≡ ForArray a at body ∷ drop 1 core.old.execution }
    ensures steps { Steps result core.new (step core.old) }
    ensures closed { closed_part core.new.store ≡ closed_part core.old.store }
{
    let items = core.store.array_get(a);
    let x = match items.get(at) {
        Some(x) => *x,
        None => PsObj::Null,
    };
    if at < items.len() && at + 1 < items.len() {
        core.execution.replace(1, Item::ForArray(a, at + 1, body));
    } else {
        core.execution.replace(1, Item::LastTurn);
    }
    make_turn(core, x, body)
}

/// Makes one turn of `forall` over a string.
fn step_string(
    core: &mut PsCore,
    t: StringId,
    at: usize,
    body: ArrayId,
) -> Result<Progress, PsFault>
    requires { core.old.execution ≡ ForString t at body ∷ drop 1 core.old.execution }
    ensures steps { Steps result core.new (step core.old) }
    ensures closed { closed_part core.new.store ≡ closed_part core.old.store }
{
    let bytes = core.store.string_get(t);
    let byte = match bytes.get(at) {
        Some(byte) => *byte,
        None => 0,
    };
    if at < bytes.len() && at + 1 < bytes.len() {
        core.execution.replace(1, Item::ForString(t, at + 1, body));
    } else {
        core.execution.replace(1, Item::LastTurn);
    }
    make_turn(core, PsObj::Int(i32::from(byte)), body)
}

/// Pushes the key of a pair and its value, and enters the body of a loop. The store stays as it is.
fn turn_pair(core: &mut PsCore, pair: Option<Pair>, body: ArrayId) -> Result<(), PsFault>
    ensures does { DoesOrLeaves result core.new (turning_pair pair body core.old) }
    ensures closed { closed_part core.new.store ≡ closed_part core.old.store }
{
    let Some(pair) = pair else {
        return Ok(());
    };
    if core.operands.len() > MOST_OPERANDS - 2 {
        return Err(PsFault::Error(PsError::StackOverflow));
    }
    core.operands.push(pair.key)?;
    core.operands.push(pair.value)?;
    core.call(body)?;
    Ok(())
}

/// Makes one turn of `forall` over a dictionary.
fn step_dict(core: &mut PsCore, d: DictId, at: usize, body: ArrayId) -> Result<Progress, PsFault>
    requires { core.old.execution ≡ ForDict d at body ∷ drop 1 core.old.execution }
    ensures steps { Steps result core.new (step core.old) }
    ensures closed { closed_part core.new.store ≡ closed_part core.old.store }
{
    let pair = core.store.pair_at(d, at);
    let count = core.store.dict_len(d);
    if at < count && at + 1 < count {
        core.execution.replace(1, Item::ForDict(d, at + 1, body));
    } else {
        core.execution.replace(1, Item::LastTurn);
    }
    match turn_pair(core, pair, body) {
        Ok(()) => Ok(Progress::Went),
        Err(PsFault::Error(error)) => {
            raise(core, error)?;
            Ok(Progress::Went)
        }
        Err(fault) => Err(fault),
    }
}

/// Makes one turn of `loop`.
fn step_loop(core: &mut PsCore, body: ArrayId) -> Result<Progress, PsFault>
    requires { core.old.execution ≡ Loop body ∷ drop 1 core.old.execution }
    ensures steps { Steps result core.new (step core.old) }
    ensures closed { closed_part core.new.store ≡ closed_part core.old.store }
{
    match core.call(body) {
        Ok(()) => Ok(Progress::Went),
        Err(PsFault::Error(error)) => {
            raise(core, error)?;
            Ok(Progress::Went)
        }
        Err(fault) => Err(fault),
    }
}

/// Makes one step. Where the object of a `stopped` has ended it leaves false, and where a text or the last turn of a loop
/// has ended it is dropped: the step is what comes then.
#[tactic(auto, using(crate::proofs::Tops::full_guard, crate::proofs::Tops::ended_at))]
pub fn step(core: &mut PsCore) -> Result<Progress, PsFault>
    ensures steps { Steps result core.new (step core.old) }
    ensures closed { closed_part core.new.store ≡ closed_part core.old.store }
{
    while let Some(item) = core.execution.top() {
        match *item {
            Item::Stopped => {
                if core.operands.len() >= MOST_OPERANDS {
                    core.execution.clear();
                    return Err(PsFault::Error(PsError::StackOverflow));
                }
                core.execution.take(1);
                core.operands.push(PsObj::Bool(false))?;
            }
            Item::Text(t, at) => match read_object(&mut core.store, t, at, core.operands.fresh()) {
                Ok(Some((x, next))) => return step_read(core, t, next, x),
                Ok(None) => core.execution.take(1),
                Err(PsFault::Error(error)) => {
                    core.execution.take(1);
                    raise(core, error)?;
                    return Ok(Progress::Went);
                }
                Err(fault) => return Err(fault),
            },
            Item::Object(x) => return step_object(core, x),
            Item::Procedure(a, at) => return step_procedure(core, a, at),
            Item::Repeat(left, body) => return step_repeat(core, left, body),
            Item::For(next, by, limit, body) => return step_for(core, next, by, limit, body),
            Item::ForArray(a, at, body) => return step_array(core, a, at, body),
            Item::ForString(t, at, body) => return step_string(core, t, at, body),
            Item::ForDict(d, at, body) => return step_dict(core, d, at, body),
            Item::Loop(body) => return step_loop(core, body),
            Item::LastTurn => core.execution.take(1),
        }
    }
    Ok(Progress::Ended)
}
