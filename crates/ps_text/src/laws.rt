//! What holds of texts.

ghost use Rattle.std.specs.Prelude.{◌≡◌, ℕ, ◌+◌, ◌≤◌, ◌∷◌, ◌++◌, List, length, drop};
ghost use Rattle.ps_store.specs.declared.object.StringId.{StringId};
ghost use Rattle.ps_store.specs.StoreState.{StoreState};
ghost use Rattle.ps_run.specs.Scan.{Nothing, reading_object};
ghost use Rattle.ps_text.specs.Code.{Code, render};
ghost use Rattle.ps_text.specs.Grown.{IsString};
ghost use Rattle.ps_text.specs.Spells.{units, Fine};
ghost use Rattle.ps_text.specs.Reading.{first, IsMore, Lead, ReadsFirst};

/// A term's text is read object by object: each is what the term says, nothing else is made, and behind the last one nothing is read.
pub fn terms_are_read()
    ensures first { (post text g : List ℕ) (s : StoreState) (t : StringId) (at : ℕ) (k : Code) → Lead g → IsString s t text → IsMore k → Fine (first k) → drop at text ≡ g ++ (render k ++ post) → s.table.units + s.command.units + units (first k) ≤ 8000000 → ReadsFirst k post text s t at }
    ensures end { (g text : List ℕ) (s : StoreState) (t : StringId) (at : ℕ) → Lead g → IsString s t text → at ≤ length text → drop at text ≡ g → reading_object s t at ≡ Nothing s }
{}
