//! Operators on strings, names and attributes (PostScript Language Reference Manual, 8.1, "String", "Type, Attribute, and Conversion").

ghost use Rattle.ps_store.specs.Store.{closed_part};
ghost use Rattle.std.specs.Prelude.{◌≡◌};
ghost use Rattle.ps_step.specs.Effects.{Does};
ghost use Rattle.ps_step.specs.StringOperators.{making_string_of, naming_of, converting};

use crate::fault::{PsError, PsFault};
use crate::machine::PsCore;
use crate::operands::one_of;
use crate::values::{count_of, string_of};
use ps_store::{NameText, PsObj};

impl PsCore {
    /// `string`
    pub(crate) fn make_string(&mut self) -> Result<(), PsFault>
        ensures does { Does result self.old self.new (making_string_of self.old) }
        ensures closed { closed_part self.new.store ≡ closed_part self.old.store }
    {
        let size = one_of(&self.operands)?;
        let n = count_of(size)?;
        let t = self.store.make_zeros(n)?;
        self.operands.replace(1, PsObj::Str(t, false));
        Ok(())
    }

    /// `cvn`
    pub(crate) fn make_name(&mut self) -> Result<(), PsFault>
        ensures does { Does result self.old self.new (naming_of self.old) }
        ensures closed { closed_part self.new.store ≡ closed_part self.old.store }
    {
        let whole = one_of(&self.operands)?;
        let (t, executable) = string_of(whole)?;
        let Some(text) = NameText::new(self.store.string_get(t)) else {
            return Err(PsFault::Error(PsError::LimitCheck));
        };
        let name = self.store.make_name(text.as_slice())?;
        self.operands.replace(1, PsObj::Name(name, executable));
        Ok(())
    }

    /// `cvx`, `cvlit`
    pub(crate) fn convert(&mut self, executable: bool) -> Result<(), PsFault>
        ensures does { Does result self.old self.new (converting executable self.old) }
        ensures closed { closed_part self.new.store ≡ closed_part self.old.store }
    {
        let x = one_of(&self.operands)?;
        self.operands.replace(1, x.with_attribute(executable));
        Ok(())
    }
}
