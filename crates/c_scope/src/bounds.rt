// Bounds of arrays that are declared.
ghost use Rattle.std.specs.Prelude.{◌≡◌};
ghost use Rattle.c_typing.specs.Plain.{plain};
ghost use Rattle.c_judge.specs.Judges.{Denotes};
ghost use Rattle.c_scope.specs.Declarators.{bounded, unbounded};
ghost use Rattle.c_scope.specs.Here.{environment_of};

use crate::environment::Environment;
use crate::judging::judged_in;
use c_judge::{Fault, array_of, bounded, is_complete, limited, place_of};
use c_tree::CType;
use c_trees::expression::Expr;
use std::alloc::Global;

/// So many items of a type, by a bound that is a constant expression.
pub fn with_bound<'a>(
    alloc: Global,
    here: &Environment<'a>,
    e: &'a Expr,
    t: CType,
) -> Result<CType, Fault>
    ensures { Denotes (bounded (environment_of here.now) e.now (plain t)) result }
{
    let at = place_of(e).at;
    match judged_in(alloc, here, e) {
        Ok(x) => bounded(alloc, &here.defs.view(), at, at, t, &x),
        Err(Fault::Unknown { .. }) => Err(Fault::Rule { rule: 2, at }),
        Err(f) => Err(f),
    }
}

/// The type of an array whose bound is not written.
pub fn without_bound<'a>(
    alloc: Global,
    here: &Environment<'a>,
    at: u32,
    t: CType,
) -> Result<CType, Fault>
    ensures { Denotes (unbounded (environment_of here.now) at (plain t)) result }
{
    if !is_complete(here.defs.defs(), &t) {
        return Err(Fault::Rule { rule: 2, at });
    }
    limited(&here.defs.view(), at, array_of(alloc, t, 0)?)
}
