//! Operators whose error may come after something was made or put.

ghost use Rattle.ps_store.specs.Store.{closed_part};
ghost use Rattle.std.specs.Prelude.{◌≡◌};
ghost use Rattle.ps_step.specs.Effects.{DoesOrLeaves};
ghost use Rattle.ps_step.specs.CopyOperators.{copying, closing_dict, writing_text};

use crate::composites::{copy_whole, make_filled, place_text};
use crate::fault::{PsError, PsFault};
use crate::machine::PsCore;
use crate::marks::mark_depth;
use crate::operands::{one_of, pair_of};
use crate::text::text_of;
use crate::values::{count_of, string_of};
use ps_store::PsObj;

impl PsCore {
    /// `copy`
    pub(crate) fn copy(&mut self) -> Result<(), PsFault>
        ensures does { DoesOrLeaves result self.new (copying self.old) }
        ensures closed { closed_part self.new.store ≡ closed_part self.old.store }
    {
        let top = one_of(&self.operands)?;
        if let PsObj::Int(_) = top {
            let n = count_of(top)?;
            self.copy_top(n)?;
            return Ok(());
        }
        let (from, to) = pair_of(&self.operands)?;
        let x = copy_whole(&mut self.store, from, to, self.operands.allocator())?;
        self.operands.replace(2, x);
        Ok(())
    }

    /// `>>`
    pub(crate) fn close_dict(&mut self) -> Result<(), PsFault>
        ensures does { DoesOrLeaves result self.new (closing_dict self.old) }
        ensures closed { closed_part self.new.store ≡ closed_part self.old.store }
    {
        let Some(n) = mark_depth(&self.operands) else {
            return Err(PsFault::Error(PsError::UnmatchedMark));
        };
        if n % 2 == 1 {
            return Err(PsFault::Error(PsError::RangeCheck));
        }
        let x = make_filled(&mut self.store, self.operands.topmost(n))?;
        self.operands.replace(n + 1, x);
        Ok(())
    }

    /// `cvs`
    pub(crate) fn write_text(&mut self) -> Result<(), PsFault>
        ensures does { DoesOrLeaves result self.new (writing_text self.old) }
        ensures closed { closed_part self.new.store ≡ closed_part self.old.store }
    {
        let (x, whole) = pair_of(&self.operands)?;
        let (t, executable) = string_of(whole)?;
        let text = text_of(&self.store, x, self.operands.allocator())?;
        let y = place_text(&mut self.store, &text, t, executable)?;
        self.operands.replace(2, y);
        Ok(())
    }
}
