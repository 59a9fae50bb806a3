//! Control operators (PostScript Language Reference Manual, 8.1, "Control"). They take their operands once the procedure is entered.

ghost use Rattle.ps_store.specs.Store.{closed_part};
ghost use Rattle.std.specs.Prelude.{◌≡◌};
ghost use Rattle.ps_step.specs.Effects.{Does};
ghost use Rattle.ps_step.specs.ControlOperators.{choosing, choosing_one, counting_up, repeating, looping, exiting, each_of, executing_top, guarding, cursor_of};
ghost use Rattle.ps_step.specs.ControlOperators.{goes_on};

use crate::arithmetic::{integer_of, truth_of};
use crate::fault::{PsError, PsFault};
use crate::item::{Item, loop_depth};
use crate::machine::{MOST_ITEMS, PsCore};
use crate::operands::{one_of, pair_of, quadruple_of, triple_of};
use crate::values::{count_of, length_of, procedure_of};
use ps_store::{ArrayId, PsObj};

/// Whether `for` makes another turn.
pub fn goes_on(next: i32, by: i32, limit: i32) -> bool
    ensures { result ≡ goes_on next by limit }
{
    if 0 <= by {
        next <= limit
    } else {
        limit <= next
    }
}

/// Where `forall` begins in an object.
fn cursor_of(whole: PsObj, body: ArrayId) -> Result<Item, PsError>
    ensures { result ≡ cursor_of whole body }
{
    match whole {
        PsObj::Array(a, _) => Ok(Item::ForArray(a, 0, body)),
        PsObj::Str(t, _) => Ok(Item::ForString(t, 0, body)),
        PsObj::Dict(d) => Ok(Item::ForDict(d, 0, body)),
        _ => Err(PsError::TypeCheck),
    }
}

impl PsCore {
    /// `if`
    pub(crate) fn choose(&mut self) -> Result<(), PsFault>
        ensures does { Does result self.old self.new (choosing self.old) }
        ensures closed { closed_part self.new.store ≡ closed_part self.old.store }
    {
        let (test, body) = pair_of(&self.operands)?;
        let holds = truth_of(test)?;
        let a = procedure_of(body)?;
        if holds {
            self.call(a)?;
        }
        self.operands.take(2);
        Ok(())
    }

    /// `ifelse`
    pub(crate) fn choose_one(&mut self) -> Result<(), PsFault>
        ensures does { Does result self.old self.new (choosing_one self.old) }
        ensures closed { closed_part self.new.store ≡ closed_part self.old.store }
    {
        let (test, yes, no) = triple_of(&self.operands)?;
        let holds = truth_of(test)?;
        let first = procedure_of(yes)?;
        let second = procedure_of(no)?;
        self.call(if holds { first } else { second })?;
        self.operands.take(3);
        Ok(())
    }

    /// `for`
    pub(crate) fn count(&mut self) -> Result<(), PsFault>
        ensures does { Does result self.old self.new (counting_up self.old) }
        ensures closed { closed_part self.new.store ≡ closed_part self.old.store }
    {
        let (first, by, limit, body) = quadruple_of(&self.operands)?;
        let next = integer_of(first)?;
        let step = integer_of(by)?;
        let last = integer_of(limit)?;
        let a = procedure_of(body)?;
        if goes_on(next, step, last) {
            self.schedule_item(Item::For(next, step, last, a))?;
        }
        self.operands.take(4);
        Ok(())
    }

    /// `repeat`
    pub(crate) fn repeat(&mut self) -> Result<(), PsFault>
        ensures does { Does result self.old self.new (repeating self.old) }
        ensures closed { closed_part self.new.store ≡ closed_part self.old.store }
    {
        let (count, body) = pair_of(&self.operands)?;
        let a = procedure_of(body)?;
        let n = count_of(count)?;
        if n > 0 {
            self.schedule_item(Item::Repeat(n, a))?;
        }
        self.operands.take(2);
        Ok(())
    }

    /// `loop`
    pub(crate) fn loop_forever(&mut self) -> Result<(), PsFault>
        ensures does { Does result self.old self.new (looping self.old) }
        ensures closed { closed_part self.new.store ≡ closed_part self.old.store }
    {
        let body = one_of(&self.operands)?;
        let a = procedure_of(body)?;
        self.schedule_item(Item::Loop(a))?;
        self.operands.take(1);
        Ok(())
    }

    /// `exit`
    pub(crate) fn exit(&mut self) -> Result<(), PsFault>
        ensures does { Does result self.old self.new (exiting self.old) }
        ensures closed { closed_part self.new.store ≡ closed_part self.old.store }
    {
        match loop_depth(&self.execution) {
            Some(n) => {
                self.execution.take(n + 1);
                Ok(())
            }
            None => Err(PsFault::Error(PsError::InvalidExit)),
        }
    }

    /// `forall`
    pub(crate) fn each(&mut self) -> Result<(), PsFault>
        ensures does { Does result self.old self.new (each_of self.old) }
        ensures closed { closed_part self.new.store ≡ closed_part self.old.store }
    {
        let (whole, body) = pair_of(&self.operands)?;
        let a = procedure_of(body)?;
        let cursor = cursor_of(whole, a)?;
        let n = length_of(&self.store, whole)?;
        if n > 0 {
            self.schedule_item(cursor)?;
        }
        self.operands.take(2);
        Ok(())
    }

    /// `exec`
    pub(crate) fn execute_top(&mut self) -> Result<(), PsFault>
        ensures does { Does result self.old self.new (executing_top self.old) }
        ensures closed { closed_part self.new.store ≡ closed_part self.old.store }
    {
        let x = one_of(&self.operands)?;
        self.schedule_item(Item::Object(x))?;
        self.operands.take(1);
        Ok(())
    }

    /// `stopped`
    pub(crate) fn guard(&mut self) -> Result<(), PsFault>
        ensures does { Does result self.old self.new (guarding self.old) }
        ensures closed { closed_part self.new.store ≡ closed_part self.old.store }
    {
        let x = one_of(&self.operands)?;
        if self.execution.len() >= MOST_ITEMS - 1 {
            return Err(PsFault::Error(PsError::ExecStackOverflow));
        }
        self.execution.push(Item::Stopped)?;
        self.execution.push(Item::Object(x))?;
        self.operands.take(1);
        Ok(())
    }
}
