//! Operators that make one object of one or two.

ghost use Rattle.ps_store.specs.Store.{closed_part};
ghost use Rattle.std.specs.Prelude.{◌≡◌};
ghost use Rattle.ps_step.specs.Effects.{Does};
ghost use Rattle.ps_step.specs.ValueOperators.{calculating, combining, shifting, negating, inverting, equating, comparing, getting, putting, measuring};

use crate::arithmetic::{Arithmetic, Bitwise, negation_of, opposite_of, shifting_of};
use crate::compare::{Relation, same_object};
use crate::composites::{put_in, value_in};
use crate::fault::{PsError, PsFault};
use crate::machine::PsCore;
use crate::operands::{one_of, pair_of, triple_of};
use crate::values::{as_count, length_of};
use ps_store::PsObj;

impl PsCore {
    /// `add`, `sub`, `mul`, `idiv`, `mod`
    pub(crate) fn calculate(&mut self, op: Arithmetic) -> Result<(), PsFault>
        ensures does { Does result self.old self.new (calculating op self.old) }
        ensures closed { closed_part self.new.store ≡ closed_part self.old.store }
    {
        let (a, b) = pair_of(&self.operands)?;
        let x = op.apply(a, b)?;
        self.operands.replace(2, x);
        Ok(())
    }

    /// `and`, `or`, `xor`
    pub(crate) fn combine(&mut self, op: Bitwise) -> Result<(), PsFault>
        ensures does { Does result self.old self.new (combining op self.old) }
        ensures closed { closed_part self.new.store ≡ closed_part self.old.store }
    {
        let (a, b) = pair_of(&self.operands)?;
        let x = op.apply(a, b)?;
        self.operands.replace(2, x);
        Ok(())
    }

    /// `bitshift`
    pub(crate) fn shift(&mut self) -> Result<(), PsFault>
        ensures does { Does result self.old self.new (shifting self.old) }
        ensures closed { closed_part self.new.store ≡ closed_part self.old.store }
    {
        let (a, b) = pair_of(&self.operands)?;
        let x = shifting_of(a, b)?;
        self.operands.replace(2, x);
        Ok(())
    }

    /// `neg`
    pub(crate) fn negate(&mut self) -> Result<(), PsFault>
        ensures does { Does result self.old self.new (negating self.old) }
        ensures closed { closed_part self.new.store ≡ closed_part self.old.store }
    {
        let a = one_of(&self.operands)?;
        let x = negation_of(a)?;
        self.operands.replace(1, x);
        Ok(())
    }

    /// `not`
    pub(crate) fn invert(&mut self) -> Result<(), PsFault>
        ensures does { Does result self.old self.new (inverting self.old) }
        ensures closed { closed_part self.new.store ≡ closed_part self.old.store }
    {
        let a = one_of(&self.operands)?;
        let x = opposite_of(a)?;
        self.operands.replace(1, x);
        Ok(())
    }

    /// `eq`, or `ne` where `equal` is false
    pub(crate) fn equate(&mut self, equal: bool) -> Result<(), PsFault>
        ensures does { Does result self.old self.new (equating equal self.old) }
        ensures closed { closed_part self.new.store ≡ closed_part self.old.store }
    {
        let (a, b) = pair_of(&self.operands)?;
        let same = same_object(&self.store, a, b);
        self.operands.replace(2, PsObj::Bool(same == equal));
        Ok(())
    }

    /// `lt`, `le`, `gt`, `ge`
    pub(crate) fn compare(&mut self, relation: Relation) -> Result<(), PsFault>
        ensures does { Does result self.old self.new (comparing relation self.old) }
        ensures closed { closed_part self.new.store ≡ closed_part self.old.store }
    {
        let (a, b) = pair_of(&self.operands)?;
        let x = relation.apply(&self.store, a, b)?;
        self.operands.replace(2, x);
        Ok(())
    }

    /// `get`
    pub(crate) fn get(&mut self) -> Result<(), PsFault>
        ensures does { Does result self.old self.new (getting self.old) }
        ensures closed { closed_part self.new.store ≡ closed_part self.old.store }
    {
        let (whole, place) = pair_of(&self.operands)?;
        let x = value_in(&self.store, whole, place)?;
        self.operands.replace(2, x);
        Ok(())
    }

    /// `put`
    pub(crate) fn put(&mut self) -> Result<(), PsFault>
        ensures does { Does result self.old self.new (putting self.old) }
        ensures closed { closed_part self.new.store ≡ closed_part self.old.store }
    {
        let (whole, place, value) = triple_of(&self.operands)?;
        put_in(&mut self.store, whole, place, value)?;
        self.operands.take(3);
        Ok(())
    }

    /// `length`
    pub(crate) fn length(&mut self) -> Result<(), PsFault>
        ensures does { Does result self.old self.new (measuring self.old) }
        ensures closed { closed_part self.new.store ≡ closed_part self.old.store }
    {
        let whole = one_of(&self.operands)?;
        let n = length_of(&self.store, whole)?;
        let count = as_count(n)?;
        self.operands.replace(1, count);
        Ok(())
    }
}
