// Functions whose parameters are being read.
ghost use Rattle.std.specs.Prelude.{◌≡◌, ◌+◌, IfOk, Some, max};
ghost use Rattle.c_trees.specs.Declarators.{Taking};
ghost use Rattle.c_declaration.specs.Grown.{grow_list, function_of, taking_of};

use crate::built::{Built, MOST_HEIGHT, greater};
use crate::grown::begins;
use c_expr::Boxed;
use c_lex::Place;
use c_trees::declaration::{Declarator, DeclaratorNode, Parameter};
use std::alloc::{AllocError, Global};
use std::marker::Model;

/// A function's declarator so far, and the height of its tree.
#[derive(Drop)]
pub struct BuiltFunction {
    height: u32,
    place: Place,
    declarator: Box<Declarator>,
    parameters: Vec<Parameter>,
}

impl Model for BuiltFunction {
    ghost use Rattle.std.specs.Coded.{codes};
    ghost use Rattle.c_trees.specs.contracts.declaration.Declarator as d;
    ghost use Rattle.c_declaration.specs.declared.built.Built.{Built};
    ghost use Rattle.c_trees.specs.Declarators.{DeclaratorTree, Function, with_parameters};

    ghost Value = { Built DeclaratorTree };

    ghost coded = { Prim.hlevel (codes, d.the_row.coded) };

    ghost view = { λ f. record { height = f.height; tree = with_parameters (Function f.place f.declarator.value) f.parameters.items } };
}

/// A function of this declarator, without parameters.
pub fn function_of(
    alloc: Global,
    d: Option<Built<Boxed<Declarator>>>,
) -> Result<Option<BuiltFunction>, AllocError>
    ensures { IfOk result (λ f. f ≡ function_of d) }
{
    match d {
        Some(d) => {
            if d.height < MOST_HEIGHT {
                let height = d.height + 1;
                let declarator = d.tree.into_box();
                return Ok(Some(BuiltFunction {
                    height,
                    place: begins(&declarator),
                    declarator,
                    parameters: Vec::new(alloc),
                }));
            }
            Ok(None)
        }
        None => Ok(None),
    }
}

/// A function with a parameter more. The list of the parameters is a level.
fn longer(
    function: BuiltFunction,
    parameter: Built<Parameter>,
) -> Result<Option<BuiltFunction>, AllocError>
    ensures { IfOk result (λ r. r ≡ grow_list 63 2 Taking (Some function) (Some parameter)) }
{
    if parameter.height < MOST_HEIGHT - 1 {
        let BuiltFunction {
            height,
            place,
            declarator,
            parameters: mut parameters,
        } = function;
        parameters.push(parameter.tree)?;
        return Ok(Some(BuiltFunction {
            height: greater(height, parameter.height + 2),
            place,
            declarator,
            parameters,
        }));
    }
    drop(function);
    drop(parameter);
    Ok(None)
}

/// A function with a parameter more, unless one of them is too high.
pub fn taking_of(
    function: Option<BuiltFunction>,
    parameter: Option<Built<Parameter>>,
) -> Result<Option<BuiltFunction>, AllocError>
    ensures { IfOk result (λ r. r ≡ taking_of function parameter) }
{
    match function {
        Some(function) => match parameter {
            Some(parameter) => longer(function, parameter),
            None => {
                drop(function);
                Ok(None)
            }
        },
        None => {
            drop(parameter);
            Ok(None)
        }
    }
}

/// The declarator of a function that is whole.
fn whole(alloc: Global, function: BuiltFunction) -> Result<Built<Boxed<Declarator>>, AllocError>
    ensures { IfOk result (λ d. d ≡ function) }
{
    let BuiltFunction {
        height,
        place,
        declarator,
        parameters,
    } = function;
    let tree = Boxed::new(
        alloc,
        Declarator {
            node: DeclaratorNode::Function(place, declarator, parameters),
        },
    )?;
    Ok(Built { height, tree })
}

/// The declarator of a function that is whole, unless that is too high.
pub fn whole_function(
    alloc: Global,
    function: Option<BuiltFunction>,
) -> Result<Option<Built<Boxed<Declarator>>>, AllocError>
    ensures { IfOk result (λ d. d ≡ function) }
{
    match function {
        Some(function) => {
            let whole = whole(alloc, function)?;
            Ok(Some(whole))
        }
        None => Ok(None),
    }
}
