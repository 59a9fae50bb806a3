// What holds of slot code.
ghost use Rattle.std.specs.Prelude.{◌≤◌, ◌+◌, ◌*◌, ℕ};
ghost use Rattle.c_tree.specs.declared.rows.Program.{Program};
ghost use Rattle.c_tree.specs.declared.rows.Function.{Function};
ghost use Rattle.c_tree.specs.declared.typed.Typed.{Typed};
ghost use Rattle.c_source.specs.Size.{nodes_of, most_nodes};
ghost use Rattle.slot_ir.specs.declared.code.SlotCode.{SlotCode};
ghost use Rattle.slot_ir.specs.WellFormed.{operators_of_a_token, weight};
ghost use Rattle.slot_gen.specs.Tokens.{tokens_of};
ghost use Rattle.slot_gen.specs.Bounds.{temps_of, function_temps, AreBelow};
ghost use Rattle.slot_gen.specs.Correct.{IsCodeOf, HasMain, Lowers};
ghost use Rattle.slot_gen.specs.Rows.{HasRowsOf, AllFitting};
ghost use Rattle.slot_gen.specs.Expressions.{expr_code};
ghost use Rattle.slot_gen.specs.Statements.{function_code};

/// The slot code of a program passes its stopping points in order, with the same objects, activations, output and exit number, for every input and all assignments made at the stops, up to the program's first undefined step; and it shows nothing else.
pub fn slot_code_keeps_the_run()
    ensures { (p : Program) (c : SlotCode) → IsCodeOf p c → HasMain p → Lowers p c }
{}

/// Code that has a program's rows is the code of the program, where its static objects hold what their types say.
pub fn rows_are_the_code()
    ensures { (p : Program) (c : SlotCode) → HasRowsOf p c → AllFitting p p.objects → IsCodeOf p c }
{}

/// The code of an expression and of a function names the temporaries that it is said to take alone. An expression takes at most one more than it has nodes, and a function at most two more than its deepest expression has.
pub fn code_takes_few_temporaries()
    ensures expression { (p : Program) (f at d : ℕ) (e : Typed) → AreBelow (d + temps_of e) (expr_code p f at d e) }
    ensures function { (p : Program) (f : ℕ) (fn : Function) → AreBelow (function_temps fn) (function_code p f fn) }
    ensures few { (e : Typed) → temps_of e ≤ nodes_of e + 1 }
    ensures few_of_function { (fn : Function) → function_temps fn ≤ most_nodes fn.body + 2 }
{}

/// The code of an expression weighs at most so much for each token that the expression is written with: an operator weighs 1, and a call 1 more for each argument. So it has at most so many operators.
pub fn code_of_an_expression_is_short()
    ensures { (p : Program) (f at d : ℕ) (e : Typed) → weight (expr_code p f at d e) ≤ operators_of_a_token * tokens_of e }
{}
