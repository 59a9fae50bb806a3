// Calls whose arguments are being read.
ghost use Rattle.std.specs.Prelude.{◌≡◌, ◌+◌, IfOk, Some, max};
ghost use Rattle.c_trees.specs.Expressions.{With};
ghost use Rattle.c_expr.specs.Grown.{grow_list, call_of, with_of, called_of};

use crate::boxed::Boxed;
use crate::grown::{Built, Grown, MOST_HEIGHT, greater};
use crate::{Expr, Node};
use c_lex::Place;
use std::alloc::{AllocError, Global};
use std::marker::Model;

/// A call so far, and the height of its tree.
#[derive(Drop)]
pub struct BuiltCall {
    height: u32,
    place: Place,
    callee: Box<Expr>,
    arguments: Vec<Expr>,
}

impl Model for BuiltCall {
    ghost use Rattle.std.specs.Coded.{codes};
    ghost use Rattle.c_trees.specs.contracts.expression.Expr as e;
    ghost use Rattle.c_expr.specs.declared.grown.Built.{Built};
    ghost use Rattle.c_trees.specs.Expressions.{Call, with_arguments};

    ghost Value = { Built };

    ghost coded = { Prim.hlevel (codes, e.the_row.coded) };

    ghost view = { λ c. record { height = c.height; expr = with_arguments (Call c.place c.callee.value) c.arguments.items } };
}

/// Where a call begins, and its tree unless that is too high.
#[derive(Drop)]
pub struct GrownCall {
    pub place: Place,
    pub tree: Option<BuiltCall>,
}

/// A call of this expression, without arguments.
pub fn call_of(alloc: Global, a: Grown) -> Result<GrownCall, AllocError>
    ensures { IfOk result (λ c. c ≡ call_of a) }
{
    let place = a.place;
    let tree = match a.tree {
        Some(a) => if a.height < MOST_HEIGHT {
            Some(BuiltCall {
                height: a.height + 1,
                place,
                callee: a.expr.into_box(),
                arguments: Vec::new(alloc),
            })
        } else {
            None
        },
        None => None,
    };
    Ok(GrownCall { place, tree })
}

/// A call with an argument more. The list of the arguments is a level.
fn longer(call: BuiltCall, argument: Built) -> Result<Option<BuiltCall>, AllocError>
    ensures { IfOk result (λ r. r ≡ grow_list 63 2 With (Some call) (Some argument)) }
{
    if argument.height < MOST_HEIGHT - 1 {
        let BuiltCall {
            height,
            place,
            callee,
            arguments: mut arguments,
        } = call;
        arguments.push(argument.expr.into_inner())?;
        return Ok(Some(BuiltCall {
            height: greater(height, argument.height + 2),
            place,
            callee,
            arguments,
        }));
    }
    Ok(None)
}

/// A call with an argument more, unless one of them is too high.
pub fn with_of(call: GrownCall, argument: Grown) -> Result<GrownCall, AllocError>
    ensures { IfOk result (λ c. c ≡ with_of call argument) }
{
    let place = call.place;
    let tree = match call.tree {
        Some(call) => match argument.tree {
            Some(argument) => longer(call, argument)?,
            None => None,
        },
        None => None,
    };
    Ok(GrownCall { place, tree })
}

/// The tree of a call that is whole.
fn whole_call(alloc: Global, call: BuiltCall) -> Result<Built, AllocError>
    ensures { IfOk result (λ b. b ≡ call) }
{
    let BuiltCall {
        height,
        place,
        callee,
        arguments,
    } = call;
    let expr = Expr {
        node: Node::Call(place, callee, arguments),
    };
    Ok(Built {
        height,
        expr: Boxed::new(alloc, expr)?,
    })
}

/// A call that is whole.
pub fn called_of(alloc: Global, call: GrownCall) -> Result<Grown, AllocError>
    ensures { IfOk result (λ g. g ≡ called_of call) }
{
    let place = call.place;
    let tree = match call.tree {
        Some(call) => Some(whole_call(alloc, call)?),
        None => None,
    };
    Ok(Grown {
        place,
        level: 16,
        tree,
    })
}
