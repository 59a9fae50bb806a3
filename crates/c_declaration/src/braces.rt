// Initializers, grown until they are too high.
ghost use Rattle.std.specs.Prelude.{◌≡◌, ◌+◌, IfOk, Some, max};
ghost use Rattle.c_trees.specs.Initializers.{Item};
ghost use Rattle.c_declaration.specs.Grown.{grow_list, value_of, value_at, braces_of, item_of, closed_of};

use crate::built::{Built, MOST_HEIGHT, greater};
use c_expr::Boxed;
use c_lex::Place;
use c_trees::declaration::{Initial, InitialNode};
use c_trees::expression::Expr;
use std::alloc::{AllocError, Global};
use std::marker::Model;

/// A list of initializers in braces so far, and the height of the list.
#[derive(Drop)]
pub struct BuiltBraces {
    height: u32,
    place: Place,
    items: Vec<Initial>,
}

impl Model for BuiltBraces {
    ghost use Rattle.std.specs.Coded.{codes};
    ghost use Rattle.c_trees.specs.contracts.declaration.Initial as i;
    ghost use Rattle.c_declaration.specs.declared.built.Built.{Built};
    ghost use Rattle.c_trees.specs.Initializers.{InitialTree, Braces, with_items};

    ghost Value = { Built InitialTree };

    ghost coded = { Prim.hlevel (codes, i.the_row.coded) };

    ghost view = { λ b. record { height = b.height; tree = with_items (Braces b.place) b.items.items } };
}

/// An initializer that is an expression.
fn value_at(alloc: Global, expr: Built<Expr>) -> Result<Built<Boxed<Initial>>, AllocError>
    ensures { IfOk result (λ i. i ≡ value_at expr) }
{
    let height = expr.height;
    let tree = Boxed::new(
        alloc,
        Initial {
            node: InitialNode::Value(expr.tree),
        },
    )?;
    Ok(Built { height, tree })
}

/// An initializer that is an expression, unless that is too high.
pub fn value_of(
    alloc: Global,
    expr: Option<Built<Expr>>,
) -> Result<Option<Built<Boxed<Initial>>>, AllocError>
    ensures { IfOk result (λ i. i ≡ value_of expr) }
{
    match expr {
        Some(expr) => {
            let value = value_at(alloc, expr)?;
            Ok(Some(value))
        }
        None => Ok(None),
    }
}

/// A list in braces without an item.
pub fn braces_of(alloc: Global, place: Place) -> Option<BuiltBraces>
    ensures { result ≡ braces_of place }
{
    Some(BuiltBraces {
        height: 0,
        place,
        items: Vec::new(alloc),
    })
}

/// A list in braces with an item more.
fn longer(
    braces: BuiltBraces,
    item: Built<Boxed<Initial>>,
) -> Result<Option<BuiltBraces>, AllocError>
    ensures { IfOk result (λ r. r ≡ grow_list 64 1 Item (Some braces) (Some item)) }
{
    if item.height < MOST_HEIGHT {
        let BuiltBraces {
            height,
            place,
            items: mut items,
        } = braces;
        items.push(item.tree.into_inner())?;
        return Ok(Some(BuiltBraces {
            height: greater(height, item.height + 1),
            place,
            items,
        }));
    }
    drop(braces);
    drop(item);
    Ok(None)
}

/// A list in braces with an item more, unless one of them is too high.
pub fn item_of(
    braces: Option<BuiltBraces>,
    item: Option<Built<Boxed<Initial>>>,
) -> Result<Option<BuiltBraces>, AllocError>
    ensures { IfOk result (λ r. r ≡ item_of braces item) }
{
    match braces {
        Some(braces) => match item {
            Some(item) => longer(braces, item),
            None => {
                drop(braces);
                Ok(None)
            }
        },
        None => {
            drop(item);
            Ok(None)
        }
    }
}

/// An initializer that is a list.
fn list_of(alloc: Global, braces: BuiltBraces) -> Result<Option<Built<Boxed<Initial>>>, AllocError>
    ensures { IfOk result (λ i. i ≡ closed_of (Some braces)) }
{
    let BuiltBraces {
        height,
        place,
        items,
    } = braces;
    if height < MOST_HEIGHT {
        let tree = Boxed::new(
            alloc,
            Initial {
                node: InitialNode::Braces(place, items),
            },
        )?;
        return Ok(Some(Built {
            height: height + 1,
            tree,
        }));
    }
    Ok(None)
}

/// An initializer that is a list, unless that is too high.
pub fn closed_of(
    alloc: Global,
    braces: Option<BuiltBraces>,
) -> Result<Option<Built<Boxed<Initial>>>, AllocError>
    ensures { IfOk result (λ i. i ≡ closed_of braces) }
{
    match braces {
        Some(braces) => list_of(alloc, braces),
        None => Ok(None),
    }
}
