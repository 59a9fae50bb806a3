// Declarators without a name (C90 6.5.5), grown until they are too high.
ghost use Rattle.std.specs.Prelude.{◌≡◌, ◌≤◌, ◌+◌, IfOk, Some, max};
ghost use Rattle.c_trees.specs.Expressions.{Bounded, bound_behind};
ghost use Rattle.c_expr.specs.Grammar.{stars_height};
ghost use Rattle.c_declaration.specs.Grown.{grow_list, stars_of, around_of, bounded_of, unbounded_of};

use crate::built::{Built, MOST_HEIGHT, greater};
use c_trees::expression::{Abstract, Expr};
use std::alloc::{AllocError, Global};

/// The height of a list of so many `*`, where there are some.
fn stars_height(stars: u64) -> u32
    ensures value { result ≡ stars_height stars }
    ensures most { result ≤ 2 }
{
    if stars == 0 { 0 } else { 2 }
}

/// So many `*`.
pub fn stars_of(alloc: Global, stars: u64) -> Option<Built<Abstract>>
    ensures { result ≡ stars_of stars }
{
    Some(Built {
        height: stars_height(stars),
        tree: Abstract {
            stars,
            inner: None,
            bounds: Vec::new(alloc),
        },
    })
}

/// So many `*`, and a declarator in parentheses.
pub fn around_of(
    alloc: Global,
    stars: u64,
    inner: Option<Built<Abstract>>,
) -> Result<Option<Built<Abstract>>, AllocError>
    ensures { IfOk result (λ d. d ≡ around_of stars inner) }
{
    match inner {
        Some(inner) => {
            if inner.height < MOST_HEIGHT {
                return Ok(Some(Built {
                    height: greater(stars_height(stars), inner.height + 1),
                    tree: Abstract {
                        stars,
                        inner: Some(Box::new(alloc, inner.tree)?),
                        bounds: Vec::new(alloc),
                    },
                }));
            }
            drop(inner);
            Ok(None)
        }
        None => Ok(None),
    }
}

/// A declarator with one more bound, which may be absent.
fn push_bound(declarator: Abstract, bound: Option<Expr>) -> Result<Abstract, AllocError>
    ensures { IfOk result (λ d. d ≡ bound_behind declarator bound) }
{
    let Abstract {
        stars,
        inner,
        bounds: mut bounds,
    } = declarator;
    bounds.push(bound)?;
    Ok(Abstract {
        stars,
        inner,
        bounds,
    })
}

/// A declarator with a bound behind it.
fn with_bound(d: Built<Abstract>, bound: Built<Expr>) -> Result<Option<Built<Abstract>>, AllocError>
    ensures { IfOk result (λ r. r ≡ grow_list 64 1 Bounded (Some d) (Some bound)) }
{
    if bound.height < MOST_HEIGHT {
        return Ok(Some(Built {
            height: greater(d.height, bound.height + 1),
            tree: push_bound(d.tree, Some(bound.tree))?,
        }));
    }
    drop(d);
    drop(bound);
    Ok(None)
}

/// A declarator with a bound behind it, unless one of them is too high.
pub fn bounded_of(
    d: Option<Built<Abstract>>,
    bound: Option<Built<Expr>>,
) -> Result<Option<Built<Abstract>>, AllocError>
    ensures { IfOk result (λ r. r ≡ bounded_of d bound) }
{
    match d {
        Some(d) => match bound {
            Some(bound) => with_bound(d, bound),
            None => {
                drop(d);
                Ok(None)
            }
        },
        None => {
            drop(bound);
            Ok(None)
        }
    }
}

/// A declarator with `[]` behind it.
pub fn unbounded_of(d: Option<Built<Abstract>>) -> Result<Option<Built<Abstract>>, AllocError>
    ensures { IfOk result (λ r. r ≡ unbounded_of d) }
{
    match d {
        Some(d) => Ok(Some(Built {
            height: greater(d.height, 2),
            tree: push_bound(d.tree, None)?,
        })),
        None => Ok(None),
    }
}
