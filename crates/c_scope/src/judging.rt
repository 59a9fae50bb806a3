// Expressions and types among what is declared, where the numbers of string literals are not asked for.
ghost use Rattle.std.specs.Prelude.{◌≡◌};
ghost use Rattle.c_typing.specs.Plain.{plain};
ghost use Rattle.c_judge.specs.Judgement.{judged, spec_type};
ghost use Rattle.c_judge.specs.Parts.{judged_of};
ghost use Rattle.c_judge.specs.Judges.{Gives};
ghost use Rattle.c_scope.specs.Environment.{scope_of};
ghost use Rattle.c_scope.specs.Here.{environment_of};

use crate::environment::Environment;
use c_judge::{Fault, Part, judge, spec_type};
use c_tree::CType;
use c_trees::expression::{Expr, Spec};
use std::alloc::Global;
use std::collections::BTreeMap;

/// Judges an expression.
pub fn judged_in<'a>(alloc: Global, here: &Environment<'a>, e: &'a Expr) -> Result<Part, Fault>
    ensures { Gives judged_of (judged (scope_of (environment_of here.now)) e.now) result }
{
    let none = BTreeMap::new(alloc);
    let v = here.scope(&none);
    judge(alloc, &v, e)
}

/// The type that a declaration begins with.
pub fn named_type<'a>(alloc: Global, here: &Environment<'a>, spec: &'a Spec) -> CType
    ensures { plain result ≡ spec_type (scope_of (environment_of here.now)) spec.now }
{
    let none = BTreeMap::new(alloc);
    let v = here.scope(&none);
    spec_type(&v, spec)
}
