//! Operators on dictionaries and on their stack (PostScript Language Reference Manual, 8.1, "Dictionary").

ghost use Rattle.ps_store.specs.Store.{closed_part};
ghost use Rattle.std.specs.Prelude.{◌≡◌};
ghost use Rattle.ps_step.specs.Effects.{Does};
ghost use Rattle.ps_step.specs.DictionaryOperators.{making_dict_of, beginning, ending, defining, loading, knowing, finding};

use crate::fault::{PsError, PsFault};
use crate::keys::{current, holder_of, key_of, meant_by, put_under, under, value_under};
use crate::machine::{MOST_DICTIONARIES, MOST_OPERANDS, PsCore};
use crate::operands::{one_of, pair_of};
use crate::values::{count_of, dict_of};
use ps_store::PsObj;

impl PsCore {
    /// `dict`
    pub(crate) fn make_dict(&mut self) -> Result<(), PsFault>
        ensures does { Does result self.old self.new (making_dict_of self.old) }
        ensures closed { closed_part self.new.store ≡ closed_part self.old.store }
    {
        let size = one_of(&self.operands)?;
        count_of(size)?;
        let d = self.store.make_dict()?;
        self.operands.replace(1, PsObj::Dict(d));
        Ok(())
    }

    /// `begin`
    pub(crate) fn begin(&mut self) -> Result<(), PsFault>
        ensures does { Does result self.old self.new (beginning self.old) }
        ensures closed { closed_part self.new.store ≡ closed_part self.old.store }
    {
        let x = one_of(&self.operands)?;
        let d = dict_of(x)?;
        if self.dictionaries.len() >= MOST_DICTIONARIES {
            return Err(PsFault::Error(PsError::DictStackOverflow));
        }
        self.dictionaries.push(d)?;
        self.operands.take(1);
        Ok(())
    }

    /// `end`, which never takes a base dictionary
    pub(crate) fn end(&mut self) -> Result<(), PsFault>
        ensures does { Does result self.old self.new (ending self.old) }
        ensures closed { closed_part self.new.store ≡ closed_part self.old.store }
    {
        if self.dictionaries.len() <= self.store.base().len() {
            return Err(PsFault::Error(PsError::DictStackUnderflow));
        }
        self.dictionaries.take(1);
        Ok(())
    }

    /// `def`
    pub(crate) fn define(&mut self) -> Result<(), PsFault>
        ensures does { Does result self.old self.new (defining self.old) }
        ensures closed { closed_part self.new.store ≡ closed_part self.old.store }
    {
        let (place, value) = pair_of(&self.operands)?;
        let d = current(&self.dictionaries)?;
        put_under(&mut self.store, d, place, value)?;
        self.operands.take(2);
        Ok(())
    }

    /// `load`
    pub(crate) fn load(&mut self) -> Result<(), PsFault>
        ensures does { Does result self.old self.new (loading self.old) }
        ensures closed { closed_part self.new.store ≡ closed_part self.old.store }
    {
        let place = one_of(&self.operands)?;
        let found = meant_by(&self.store, &self.dictionaries, place)?;
        let x = under(found)?;
        self.operands.set_top(x);
        Ok(())
    }

    /// `known`
    pub(crate) fn known(&mut self) -> Result<(), PsFault>
        ensures does { Does result self.old self.new (knowing self.old) }
        ensures closed { closed_part self.new.store ≡ closed_part self.old.store }
    {
        let (whole, place) = pair_of(&self.operands)?;
        let d = dict_of(whole)?;
        let found = value_under(&self.store, d, place)?;
        self.operands.replace(2, PsObj::Bool(found.is_some()));
        Ok(())
    }

    /// `where`
    pub(crate) fn find_holder(&mut self) -> Result<(), PsFault>
        ensures does { Does result self.old self.new (finding self.old) }
        ensures closed { closed_part self.new.store ≡ closed_part self.old.store }
    {
        let place = one_of(&self.operands)?;
        let key = key_of(&self.store, place)?;
        match holder_of(&self.store, &self.dictionaries, &key) {
            Some(d) => {
                if self.operands.len() >= MOST_OPERANDS {
                    return Err(PsFault::Error(PsError::StackOverflow));
                }
                self.operands.replace(1, PsObj::Dict(d));
                self.operands.push(PsObj::Bool(true))?;
            }
            None => self.operands.replace(1, PsObj::Bool(false)),
        }
        Ok(())
    }
}
