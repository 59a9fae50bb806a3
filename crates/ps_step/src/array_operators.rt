//! Operators on arrays (PostScript Language Reference Manual, 8.1, "Array").

ghost use Rattle.ps_store.specs.Store.{closed_part};
ghost use Rattle.std.specs.Prelude.{◌≡◌};
ghost use Rattle.ps_step.specs.Effects.{Does};
ghost use Rattle.ps_step.specs.ArrayOperators.{closing_array, making_nulls_of, loading_all, storing_all};

use crate::fault::{PsError, PsFault};
use crate::machine::{MOST_OPERANDS, PsCore};
use crate::marks::mark_depth;
use crate::operands::one_of;
use crate::values::{array_of, count_of};
use ps_store::PsObj;

impl PsCore {
    /// `]`
    pub(crate) fn close_array(&mut self) -> Result<(), PsFault>
        ensures does { Does result self.old self.new (closing_array self.old) }
        ensures closed { closed_part self.new.store ≡ closed_part self.old.store }
    {
        match mark_depth(&self.operands) {
            Some(n) => {
                let a = self.store.make_array_of(self.operands.topmost(n))?;
                self.operands.replace(n + 1, PsObj::Array(a, false));
                Ok(())
            }
            None => Err(PsFault::Error(PsError::UnmatchedMark)),
        }
    }

    /// `array`
    pub(crate) fn make_array(&mut self) -> Result<(), PsFault>
        ensures does { Does result self.old self.new (making_nulls_of self.old) }
        ensures closed { closed_part self.new.store ≡ closed_part self.old.store }
    {
        let size = one_of(&self.operands)?;
        let n = count_of(size)?;
        let a = self.store.make_array(n)?;
        self.operands.replace(1, PsObj::Array(a, false));
        Ok(())
    }

    /// `aload`
    pub(crate) fn load_all(&mut self) -> Result<(), PsFault>
        ensures does { Does result self.old self.new (loading_all self.old) }
        ensures closed { closed_part self.new.store ≡ closed_part self.old.store }
    {
        let whole = one_of(&self.operands)?;
        let a = array_of(whole)?;
        let items = self.store.array_get(a);
        if self.operands.len() > MOST_OPERANDS
            || items.len() > MOST_OPERANDS - self.operands.len()
        {
            return Err(PsFault::Error(PsError::StackOverflow));
        }
        self.operands.take(1);
        self.operands.push_all(items)?;
        self.operands.push(whole)?;
        Ok(())
    }

    /// `astore`
    pub(crate) fn store_all(&mut self) -> Result<(), PsFault>
        ensures does { Does result self.old self.new (storing_all self.old) }
        ensures closed { closed_part self.new.store ≡ closed_part self.old.store }
    {
        let whole = one_of(&self.operands)?;
        let a = array_of(whole)?;
        let n = self.store.array_get(a).len();
        if self.operands.len() <= n {
            return Err(PsFault::Error(PsError::StackUnderflow));
        }
        self.store.array_write(a, 0, self.operands.under_top(n))?;
        self.operands.replace(n + 1, whole);
        Ok(())
    }
}
