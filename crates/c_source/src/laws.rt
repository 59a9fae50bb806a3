// What holds of the meaning of an expression.
ghost use Rattle.std.specs.Prelude.{◌≡◌, ◌∷◌, List, Ok};
ghost use Rattle.c_tree.specs.declared.rows.Program.{Program};
ghost use Rattle.c_tree.specs.declared.typed.Typed.{Typed};
ghost use Rattle.c_store.specs.Store.{Value};
ghost use Rattle.c_store.specs.Frames.{Here, with_world};
ghost use Rattle.c_source.specs.Control.{Item, Eval, Locate, State, Activation};
ghost use Rattle.c_store.specs.Assigned.{Assignment, all_assigned};
ghost use Rattle.c_source.specs.Meaning.{Given, value_of, place_of, assigned, IsPlain, IsAssignment};
ghost use Rattle.c_source.specs.Leads.{Leads};

/// The steps of an expression, whatever remains to be done behind it, come to its value, or to a step that is undefined for the reason that its meaning gives. So do those of an lvalue to its place.
pub fn steps_give_the_meaning()
    ensures value { (p : Program) (h : Here) (outer : List Activation) (e : Typed) (vs : List Value) (k : List Item) → IsPlain e → Leads p (record { here = h; values = vs; control = Eval e ∷ k; outer = outer }) (value_of p h e) (λ v. record { here = h; values = v ∷ vs; control = k; outer = outer }) }
    ensures place { (p : Program) (h : Here) (outer : List Activation) (e : Typed) (vs : List Value) (k : List Item) → IsPlain e → Leads p (record { here = h; values = vs; control = Locate e ∷ k; outer = outer }) (place_of p h e) (λ v. record { here = h; values = v ∷ vs; control = k; outer = outer }) }
{}

/// The steps of a plain assignment come to the world and the value that its meaning gives, or to a step that is undefined for its reason.
pub fn steps_give_the_assignment()
    ensures { (p : Program) (h : Here) (outer : List Activation) (e : Typed) (vs : List Value) (k : List Item) → IsAssignment e → Leads p (record { here = h; values = vs; control = Eval e ∷ k; outer = outer }) (assigned p h e) (λ g. record { here = with_world h g.world; values = g.value ∷ vs; control = k; outer = outer }) }
{}

/// A plain assignment is a list of assignments to leaves, so a run with assignments of a debugger at its stops is one with a history of these.
pub fn assignments_are_of_leaves()
    ensures { (p : Program) (h : Here) (e : Typed) (g : Given) → assigned p h e ≡ Ok g → (all : List Assignment) × (g.world ≡ all_assigned all h.world) }
{}
