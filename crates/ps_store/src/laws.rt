// What holds of closed and of added objects.

ghost use Rattle.std.specs.Prelude.{◌≡◌, ℕ, List, true, false, Some, Ok};
ghost use Rattle.ps_store.specs.declared.object.ArrayId.{ArrayId};
ghost use Rattle.ps_store.specs.declared.object.DictId.{DictId};
ghost use Rattle.ps_store.specs.declared.object.StringId.{StringId};
ghost use Rattle.ps_store.specs.declared.object.PsObj.{PsObj};
ghost use Rattle.ps_store.specs.declared.object.Pair.{Pair};
ghost use Rattle.ps_store.specs.declared.key.Key.{Key};
ghost use Rattle.ps_store.specs.StoreState.{StoreState, Closed};
ghost use Rattle.ps_store.specs.Entries.{value_at};
ghost use Rattle.ps_store.specs.Store.{closed_part, is_closed, is_deferred, elements_of, entries_of, bytes_of, making_array, making_dict, making_text};
ghost use Rattle.ps_store.specs.Settled.{Settled, ArePairsKept};
ghost use Rattle.ps_store.specs.Extends.{Extends, HoldsArray, HoldsDict, HoldsString};

/// Settling is an order on what is closed.
pub fn settling_is_an_order()
    ensures same { (p : Closed) → Settled p p }
    ensures on { (p q r : Closed) → Settled p q → Settled q r → Settled p r }
{}

/// Where what is closed was settled, a closed array or string is as it was, and a closed dictionary but for the values of
/// deferred entries.
pub fn closed_objects_stay()
    ensures array { (s t : StoreState) (a : ArrayId) → Settled (closed_part s) (closed_part t) → HoldsArray s a → is_closed a.part a.index s.closed.arrays ≡ true → elements_of t a ≡ elements_of s a }
    ensures string { (s t : StoreState) (x : StringId) → Settled (closed_part s) (closed_part t) → HoldsString s x → is_closed x.part x.index s.closed.strings ≡ true → bytes_of t x ≡ bytes_of s x }
    ensures dict { (s t : StoreState) (d : DictId) → Settled (closed_part s) (closed_part t) → HoldsDict s d → is_closed d.part d.index s.closed.dicts ≡ true → ArePairsKept (entries_of s d) (entries_of t d) }
    ensures value { (old new : List (Key × Pair)) (key : Key) (x : PsObj) → ArePairsKept old new → value_at old key ≡ Some x → is_deferred (Some x) ≡ false → value_at new key ≡ Some x }
{}

/// An object that is made is added to a store, and nothing else.
pub fn making_adds()
    ensures array { (s t : StoreState) (items : List PsObj) (a : ArrayId) → making_array s items ≡ Ok (a, t) → Extends s t }
    ensures dict { (s t : StoreState) (d : DictId) → making_dict s ≡ Ok (d, t) → Extends s t }
    ensures text { (most : ℕ) (s t : StoreState) (bytes : List ℕ) (x : StringId) → making_text most s bytes ≡ Ok (x, t) → Extends s t }
{}

/// What a store holds is unchanged where objects are added, once or more than once.
pub fn held_objects_stay()
    ensures same { (s : StoreState) → Extends s s }
    ensures on { (s t u : StoreState) → Extends s t → Extends t u → Extends s u }
    ensures array { (s t : StoreState) (a : ArrayId) → Extends s t → HoldsArray s a → elements_of t a ≡ elements_of s a }
    ensures dict { (s t : StoreState) (d : DictId) → Extends s t → HoldsDict s d → entries_of t d ≡ entries_of s d }
    ensures string { (s t : StoreState) (x : StringId) → Extends s t → HoldsString s x → bytes_of t x ≡ bytes_of s x }
{}
