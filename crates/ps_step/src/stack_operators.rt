//! Operators on the operand stack (PostScript Language Reference Manual, 8.1, "Operand Stack Manipulation").

ghost use Rattle.ps_store.specs.Store.{closed_part};
ghost use Rattle.std.specs.Prelude.{◌≡◌, ◌≤◌};
ghost use Rattle.ps_step.specs.Effects.{Does};
ghost use Rattle.ps_step.specs.StackOperators.{exchanging, duplicating, popping, copying_top, indexing, rolling, counting, clearing};
ghost use Rattle.ps_step.specs.StackOperators.{turns};

use crate::arithmetic::integer_of;
use crate::fault::{PsError, PsFault};
use crate::machine::{MOST_OPERANDS, PsCore};
use crate::marks::mark_depth;
use crate::operands::{one_of, pair_of};
use crate::values::{as_count, count_of};

/// How many places `roll` turns `n` objects up.
fn turns(j: i32, n: u32) -> usize
    ensures turns { result ≡ turns j n }
    ensures within { result ≤ n }
{
    if n == 0 {
        return 0;
    }
    let turned = i64::from(j).rem_euclid(i64::from(n));
    turned as usize
}

impl PsCore {
    /// `exch`
    pub(crate) fn exchange(&mut self) -> Result<(), PsFault>
        ensures does { Does result self.old self.new (exchanging self.old) }
        ensures closed { closed_part self.new.store ≡ closed_part self.old.store }
    {
        let (a, b) = pair_of(&self.operands)?;
        self.operands.replace(2, b);
        self.operands.push(a)?;
        Ok(())
    }

    /// `dup`
    pub(crate) fn duplicate(&mut self) -> Result<(), PsFault>
        ensures does { Does result self.old self.new (duplicating self.old) }
        ensures closed { closed_part self.new.store ≡ closed_part self.old.store }
    {
        let x = one_of(&self.operands)?;
        self.push(x)
    }

    /// `pop`
    pub(crate) fn pop(&mut self) -> Result<(), PsFault>
        ensures does { Does result self.old self.new (popping self.old) }
        ensures closed { closed_part self.new.store ≡ closed_part self.old.store }
    {
        one_of(&self.operands)?;
        self.operands.take(1);
        Ok(())
    }

    /// `copy` of the objects under a count
    pub(crate) fn copy_top(&mut self, count: u32) -> Result<(), PsFault>
        ensures does { Does result self.old self.new (copying_top count self.old) }
        ensures closed { closed_part self.new.store ≡ closed_part self.old.store }
    {
        let n = count as usize;
        if self.operands.len() <= n {
            return Err(PsFault::Error(PsError::StackUnderflow));
        }
        if n > MOST_OPERANDS || self.operands.len() - 1 > MOST_OPERANDS - n {
            return Err(PsFault::Error(PsError::StackOverflow));
        }
        self.operands.take(1);
        self.operands.copy_topmost(n)?;
        Ok(())
    }

    /// `index`
    pub(crate) fn index(&mut self) -> Result<(), PsFault>
        ensures does { Does result self.old self.new (indexing self.old) }
        ensures closed { closed_part self.new.store ≡ closed_part self.old.store }
    {
        let depth = one_of(&self.operands)?;
        let n = count_of(depth)?;
        match self.operands.get(n as usize + 1) {
            Some(x) => {
                self.operands.replace(1, x);
                Ok(())
            }
            None => Err(PsFault::Error(PsError::StackUnderflow)),
        }
    }

    /// `roll`
    pub(crate) fn roll(&mut self) -> Result<(), PsFault>
        ensures does { Does result self.old self.new (rolling self.old) }
        ensures closed { closed_part self.new.store ≡ closed_part self.old.store }
    {
        let (count, by) = pair_of(&self.operands)?;
        let j = integer_of(by)?;
        let n = count_of(count)?;
        if self.operands.len() - 2 < n as usize {
            return Err(PsFault::Error(PsError::StackUnderflow));
        }
        self.operands.take(2);
        self.operands.roll(n as usize, turns(j, n));
        Ok(())
    }

    /// `counttomark`
    pub(crate) fn count_to_mark(&mut self) -> Result<(), PsFault>
        ensures does { Does result self.old self.new (counting self.old) }
        ensures closed { closed_part self.new.store ≡ closed_part self.old.store }
    {
        match mark_depth(&self.operands) {
            Some(n) => {
                let count = as_count(n)?;
                self.push(count)
            }
            None => Err(PsFault::Error(PsError::UnmatchedMark)),
        }
    }

    /// `cleartomark`
    pub(crate) fn clear_to_mark(&mut self) -> Result<(), PsFault>
        ensures does { Does result self.old self.new (clearing self.old) }
        ensures closed { closed_part self.new.store ≡ closed_part self.old.store }
    {
        match mark_depth(&self.operands) {
            Some(n) => {
                self.operands.take(n + 1);
                Ok(())
            }
            None => Err(PsFault::Error(PsError::UnmatchedMark)),
        }
    }
}
