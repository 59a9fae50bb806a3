// What holds of the rules.
ghost use Rattle.std.specs.Prelude.{◌≡◌, List, true};
ghost use Rattle.c_tree.specs.declared.types.CType.{CType};
ghost use Rattle.c_tree.specs.declared.types.StructDef.{StructDef};
ghost use Rattle.c_tree.specs.Layout.{IsComplete};
ghost use Rattle.c_typing.specs.Plain.{Plain, plain, same, is_complete};

/// The rules ask for complete types exactly where C says that a type is complete.
pub fn complete_types()
    ensures only { (defs : List StructDef) (t : CType) → is_complete defs (plain t) ≡ true → IsComplete defs t }
    ensures all { (defs : List StructDef) (t : CType) → IsComplete defs t → is_complete defs (plain t) ≡ true }
{}

/// Two types are told to be the same exactly where they are.
pub fn same_types()
    ensures only { (s t : Plain) → same s t ≡ true → s ≡ t }
    ensures all { (t : Plain) → same t t ≡ true }
{}
