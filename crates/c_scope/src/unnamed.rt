// Types of parameters without a name.
ghost use Rattle.std.specs.Prelude.{◌≡◌, ℕ};
ghost use Rattle.c_trees.specs.Expressions.{behind_stars, with_bounds};
ghost use Rattle.c_typing.specs.Plain.{plain};
ghost use Rattle.c_judge.specs.Judges.{Denotes};
ghost use Rattle.c_scope.specs.Declarators.{unnamed, unnamed_within};
ghost use Rattle.c_scope.specs.Gathered.{open_bound, is_outermost};
ghost use Rattle.c_scope.specs.Here.{environment_of};

use crate::bounds::{with_bound, without_bound};
use crate::environment::Environment;
use c_judge::{Fault, pointers};
use c_tree::CType;
use c_trees::expression::{Abstract, Expr};
use std::alloc::Global;

/// The type of a parameter without a name, in which the outermost bound may be missing.
#[cycle(unnaming)]
#[tactic(auto, using(crate::proofs::Unbounded::depth_inner))]
pub fn unnamed<'a>(
    alloc: Global,
    here: &Environment<'a>,
    at: u32,
    d: &'a Abstract,
    t: CType,
) -> Result<CType, Fault>
    ensures { Denotes (unnamed (environment_of here.now) at d.now (plain t)) result }
{
    match pointers(alloc, &here.defs.view(), at, d.stars, t) {
        Ok(t) => within(alloc, here, at, &d.inner, &d.bounds, t),
        Err(f) => Err(f),
    }
}

/// The same once the `*` have been taken: the bounds from the last to the first, then the declarator in parentheses.
#[cycle(unnaming)]
fn within<'a>(
    alloc: Global,
    here: &Environment<'a>,
    at: u32,
    inner: &'a Option<Box<Abstract>>,
    bounds: &'a [Option<Expr>],
    t: CType,
) -> Result<CType, Fault>
    ensures { (n : ℕ) → Denotes (unnamed_within (environment_of here.now) at (with_bounds (behind_stars (λ b. b.value) n inner.now) bounds.now) (plain t)) result }
{
    let mut t = t;
    let mut i = bounds.len();
    'bounding: while i > 0 {
        i -= 1;
        t = match &bounds[i] {
            Some(e) => match with_bound(alloc, here, e, t) {
                Ok(t) => t,
                Err(f) => return Err(f),
            },
            None => return open_bound(alloc, here, at, is_outermost(i, inner), t),
        };
    }
    match inner {
        None => Ok(t),
        Some(d) => unnamed(alloc, here, at, d, t),
    }
}

/// A bound that is not written, which only the outermost one may be.
fn open_bound<'a>(
    alloc: Global,
    here: &Environment<'a>,
    at: u32,
    outermost: bool,
    t: CType,
) -> Result<CType, Fault>
    ensures { Denotes (open_bound (environment_of here.now) at outermost (plain t)) result }
{
    if outermost {
        without_bound(alloc, here, at, t)
    } else {
        Err(Fault::Rule { rule: 2, at })
    }
}

/// Whether a bound behind so many others is the outermost one.
fn is_outermost(left: usize, inner: &Option<Box<Abstract>>) -> bool
    ensures { result ≡ is_outermost left inner.now }
{
    match inner {
        None => left == 0,
        Some(_) => false,
    }
}
