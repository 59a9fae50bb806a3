// What holds of placed objects.

ghost use Rattle.std.specs.Prelude.{ℕ, List, Option, true, false, length};
ghost use Rattle.std.specs.List.{AllByRecursion};
ghost use Rattle.obj_file.specs.declared.object.Object.{Object};
ghost use Rattle.obj_placed.specs.Placed.{IsFound, joined, placed_text, placed_bytes};
ghost use Rattle.obj_placed.specs.Words.{ArePatched};

/// A text, and the bytes of static objects, once each use in them is found and patched: a word that one use names has its field replaced by
/// what the use asks for, and bytes that no use names are as they were.
pub fn placed_word_by_word()
    ensures text { (address_of : List ℕ → Option ℕ) (base : ℕ) (o : Object) → AllByRecursion (IsFound address_of true (length o.text)) o.uses → ArePatched o.target base address_of true o.uses o.text (placed_text address_of base o) }
    ensures statics { (address_of : List ℕ → Option ℕ) (o : Object) → AllByRecursion (IsFound address_of false (length (joined o.statics))) o.uses → ArePatched o.target 0 address_of false o.uses (joined o.statics) (placed_bytes address_of o) }
{}
