// Declarators in the names of types, and what they are part of.
ghost use Rattle.std.specs.Prelude.{◌≡◌, ◌≤◌, ◌+◌, IfOk, Some, max};
ghost use Rattle.c_trees.specs.Expressions.{Bounded, bound_behind};
ghost use Rattle.c_expr.specs.Grammar.{stars_height, name_height};
ghost use Rattle.c_expr.specs.Grown.{grow_list, stars_of, around_of, bounded_of, unbounded_of, sized, sizeof_type_of, cast_tree, cast_of};

use crate::grown::{Built, Grown, MOST_HEIGHT, greater, taller};
use crate::{Abstract, Expr, Node, Spec, TypeName};
use c_lex::Place;
use std::alloc::{AllocError, Global};
use std::marker::Model;

/// A declarator so far, and the greatest height of its parts.
#[derive(Drop)]
pub struct BuiltAbstract {
    height: u32,
    declarator: Abstract,
}

impl Model for BuiltAbstract {
    ghost use Rattle.std.specs.Coded.{codes};
    ghost use Rattle.c_trees.specs.contracts.expression.Expr as e;
    ghost use Rattle.c_expr.specs.declared.grown.Built.{Built};

    ghost Value = { Built };

    ghost coded = { Prim.hlevel (codes, e.the_row.coded) };

    ghost view = { λ b. record { height = b.height; expr = b.declarator } };

    ghost use Rattle.std.specs.Prelude.{◌≤◌};

    ghost invariant = { λ b. b.height ≤ 64 };
}

/// The height of a list of so many `*`, where there are some.
fn stars_height(stars: u64) -> u32
    ensures value { result ≡ stars_height stars }
    ensures most { result ≤ 2 }
{
    if stars == 0 { 0 } else { 2 }
}

/// So many `*`.
pub fn stars_of(alloc: Global, stars: u64) -> Option<BuiltAbstract>
    ensures { result ≡ stars_of stars }
{
    Some(BuiltAbstract {
        height: stars_height(stars),
        declarator: Abstract {
            stars,
            inner: None,
            bounds: Vec::new(alloc),
        },
    })
}

/// So many `*`, and a declarator in parentheses.
pub fn around_of(
    alloc: Global,
    stars: u64,
    inner: Option<BuiltAbstract>,
) -> Result<Option<BuiltAbstract>, AllocError>
    ensures { IfOk result (λ d. d ≡ around_of stars inner) }
{
    match inner {
        Some(inner) => {
            let BuiltAbstract { height, declarator } = inner;
            if height < MOST_HEIGHT {
                return Ok(Some(BuiltAbstract {
                    height: greater(stars_height(stars), height + 1),
                    declarator: Abstract {
                        stars,
                        inner: Some(Box::new(alloc, declarator)?),
                        bounds: Vec::new(alloc),
                    },
                }));
            }
            Ok(None)
        }
        None => Ok(None),
    }
}

/// A declarator with one more bound, which may be absent.
fn push_bound(declarator: Abstract, bound: Option<Expr>) -> Result<Abstract, AllocError>
    ensures { IfOk result (λ d. d ≡ bound_behind declarator bound) }
{
    let Abstract {
        stars,
        inner,
        bounds: mut bounds,
    } = declarator;
    bounds.push(bound)?;
    Ok(Abstract {
        stars,
        inner,
        bounds,
    })
}

/// A declarator with a bound behind it.
fn with_bound(d: BuiltAbstract, bound: Built) -> Result<Option<BuiltAbstract>, AllocError>
    ensures { IfOk result (λ r. r ≡ grow_list 64 1 Bounded (Some d) (Some bound)) }
{
    if bound.height < MOST_HEIGHT {
        let BuiltAbstract { height, declarator } = d;
        return Ok(Some(BuiltAbstract {
            height: greater(height, bound.height + 1),
            declarator: push_bound(declarator, Some(bound.expr.into_inner()))?,
        }));
    }
    Ok(None)
}

/// A declarator with a bound behind it, unless one of them is too high.
pub fn bounded_of(
    d: Option<BuiltAbstract>,
    bound: Option<Built>,
) -> Result<Option<BuiltAbstract>, AllocError>
    ensures { IfOk result (λ r. r ≡ bounded_of d bound) }
{
    match d {
        Some(d) => match bound {
            Some(bound) => with_bound(d, bound),
            None => Ok(None),
        },
        None => Ok(None),
    }
}

/// A declarator with `[]` behind it.
pub fn unbounded_of(d: Option<BuiltAbstract>) -> Result<Option<BuiltAbstract>, AllocError>
    ensures { IfOk result (λ r. r ≡ unbounded_of d) }
{
    match d {
        Some(d) => {
            let BuiltAbstract { height, declarator } = d;
            Ok(Some(BuiltAbstract {
                height: greater(height, 2),
                declarator: push_bound(declarator, None)?,
            }))
        }
        None => Ok(None),
    }
}

/// The height of a type's name whose declarator has parts of this height and less.
fn name_height(height: u32) -> u32
    requires { height ≤ 64 }
    ensures { result ≡ name_height height }
{
    greater(1, height) + 1
}

/// `sizeof` of a type's name.
fn sized(
    alloc: Global,
    place: Place,
    spec: Spec,
    d: BuiltAbstract,
) -> Result<Option<Built>, AllocError>
    ensures { IfOk result (λ t. t ≡ sized place spec (Some d)) }
{
    let BuiltAbstract { height, declarator } = d;
    taller(
        alloc,
        name_height(height),
        Node::SizeofType(place, TypeName { spec, declarator }),
    )
}

/// `sizeof` of a type's name, unless that is too high.
pub fn sizeof_type_of(
    alloc: Global,
    place: Place,
    spec: Spec,
    d: Option<BuiltAbstract>,
) -> Result<Grown, AllocError>
    ensures { IfOk result (λ g. g ≡ sizeof_type_of place spec d) }
{
    let tree = match d {
        Some(d) => sized(alloc, place, spec, d)?,
        None => None,
    };
    Ok(Grown {
        place,
        level: 15,
        tree,
    })
}

/// A cast of an operand.
fn cast_tree(
    alloc: Global,
    place: Place,
    spec: Spec,
    d: BuiltAbstract,
    a: Built,
) -> Result<Option<Built>, AllocError>
    ensures { IfOk result (λ r. r ≡ cast_tree place spec (Some d) (Some a)) }
{
    let BuiltAbstract { height, declarator } = d;
    taller(
        alloc,
        greater(name_height(height), a.height),
        Node::Cast(place, TypeName { spec, declarator }, a.expr.into_box()),
    )
}

/// A cast, unless the type's name or the operand is too high.
pub fn cast_of(
    alloc: Global,
    place: Place,
    spec: Spec,
    d: Option<BuiltAbstract>,
    a: Grown,
) -> Result<Grown, AllocError>
    ensures { IfOk result (λ g. g ≡ cast_of place spec d a) }
{
    let tree = match d {
        Some(d) => match a.tree {
            Some(a) => cast_tree(alloc, place, spec, d, a)?,
            None => None,
        },
        None => None,
    };
    Ok(Grown {
        place,
        level: 14,
        tree,
    })
}
