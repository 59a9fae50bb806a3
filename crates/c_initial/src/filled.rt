// What holds of initializers of static objects.
ghost use Rattle.std.specs.Prelude.{◌≡◌, ℕ, true, length};
ghost use Rattle.c_trees.specs.Initializers.{InitialTree};
ghost use Rattle.c_typing.specs.Plain.{Plain, is_complete};
ghost use Rattle.c_defs.specs.Depths.{deepest, is_within};
ghost use Rattle.c_scope.specs.Environment as around;
ghost use Rattle.c_scope.specs.Findings.{nothing};
ghost use Rattle.c_initial.specs.Initials.{initial_found};
ghost use Rattle.c_initial.specs.Begins.{begins_of};
ghost use Rattle.c_defs.specs.Leaves.{leaf_count};
ghost use Rattle.c_initial.specs.Filled.{IsInitial, AreWhole};

/// An initializer in which nothing is wrong gives each leaf of its object what it holds at first, and no more.
pub fn initializers_fill_objects()
    ensures { (v : around.Environment) → AreWhole v.defs → (k : ℕ) (t : Plain) (i : InitialTree) → IsInitial i → is_within v.defs deepest t ≡ true → is_complete v.defs t ≡ true → initial_found v t i ≡ nothing → length (begins_of v k t i) ≡ leaf_count v.defs deepest t }
{}
