// What holds of entries that were run.

ghost use Rattle.std.specs.Prelude.{◌≡◌, ℕ, false, Some, Ok};
ghost use Rattle.ps_store.specs.declared.object.DictId.{DictId};
ghost use Rattle.ps_store.specs.declared.object.PsObj.{PsObj};
ghost use Rattle.ps_store.specs.declared.key.Key.{Key};
ghost use Rattle.ps_store.specs.Store.{entries_of, is_deferred};
ghost use Rattle.ps_store.specs.Entries.{value_at};
ghost use Rattle.ps_step.specs.declared.machine.PsCore.{PsCore};
ghost use Rattle.ps_force.specs.Forcing.{Forces};

use ps_run::Dialect;

/// The object that a run gave for an entry stands under its key then, and is no executable string: so each later use gives that
/// object, and runs nothing.
pub fn forced_entries_stay<D: Dialect>()
    ensures value { (n : ℕ) (dialect : D) (c : PsCore) (d : DictId) (key : Key) (text x : PsObj) (m : ℕ) (dialect' : D) (c' : PsCore) → Forces D.operates n dialect c d key text (Ok x) m dialect' c' → value_at (entries_of c'.store d) key ≡ Some x }
    ensures plain { (n : ℕ) (dialect : D) (c : PsCore) (d : DictId) (key : Key) (text x : PsObj) (m : ℕ) (dialect' : D) (c' : PsCore) → Forces D.operates n dialect c d key text (Ok x) m dialect' c' → is_deferred (Some x) ≡ false }
{}
