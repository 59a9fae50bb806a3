// Declarators and parameters, grown until they are too high.
ghost use Rattle.std.specs.Prelude.{◌≡◌, IfOk, Some, None, max};
ghost use Rattle.c_trees.specs.Declarators.{begins};
ghost use Rattle.c_trees.specs.DeclarationView.{tree_of, parameter_of};
ghost use Rattle.c_declaration.specs.Grown.{taller, name_of, parens_of, array_of, open_array_of, higher_pointers, pointed, named_of, unnamed_of};

use crate::built::{Built, greater, taller};
use crate::front::Stars;
use c_expr::Boxed;
use c_lex::Place;
use c_trees::declaration::{Declarator, DeclaratorNode, Parameter, ParameterNode};
use c_trees::expression::{Abstract, Expr, Spec};
use ldb_words::Text;
use std::alloc::{AllocError, Global};

/// Where a declarator begins.
pub fn begins(d: &Declarator) -> Place
    ensures { result ≡ begins d.now }
{
    match &d.node {
        DeclaratorNode::Name(place, _) => *place,
        DeclaratorNode::Parens(place, _) => *place,
        DeclaratorNode::Pointers(place, _, _) => *place,
        DeclaratorNode::Array(place, _, _) => *place,
        DeclaratorNode::Function(place, _, _) => *place,
    }
}

/// A declarator one higher than its parts.
fn declarator_of(
    alloc: Global,
    height: u32,
    node: DeclaratorNode,
) -> Result<Option<Built<Boxed<Declarator>>>, AllocError>
    ensures { IfOk result (λ r. r ≡ taller height (tree_of node)) }
{
    let tree = Boxed::new(alloc, Declarator { node })?;
    Ok(taller(height, tree))
}

/// A parameter one higher than its parts.
fn parameter_of(height: u32, node: ParameterNode) -> Option<Built<Parameter>>
    ensures { result ≡ taller height (parameter_of node) }
{
    taller(height, Parameter { node })
}

/// The declared name.
pub fn name_of(
    alloc: Global,
    place: Place,
    text: Text,
) -> Result<Option<Built<Boxed<Declarator>>>, AllocError>
    ensures { IfOk result (λ r. r ≡ name_of place text) }
{
    declarator_of(alloc, 0, DeclaratorNode::Name(place, text))
}

/// A declarator in parentheses.
pub fn parens_of(
    alloc: Global,
    place: Place,
    d: Option<Built<Boxed<Declarator>>>,
) -> Result<Option<Built<Boxed<Declarator>>>, AllocError>
    ensures { IfOk result (λ r. r ≡ parens_of place d) }
{
    match d {
        Some(d) => declarator_of(
            alloc,
            d.height,
            DeclaratorNode::Parens(place, d.tree.into_box()),
        ),
        None => Ok(None),
    }
}

/// An array with a bound.
fn array_with(
    alloc: Global,
    d: Built<Boxed<Declarator>>,
    bound: Built<Expr>,
) -> Result<Option<Built<Boxed<Declarator>>>, AllocError>
    ensures { IfOk result (λ r. r ≡ array_of (Some d) (Some bound)) }
{
    let height = greater(d.height, bound.height);
    let tree = d.tree.into_box();
    let place = begins(&tree);
    declarator_of(
        alloc,
        height,
        DeclaratorNode::Array(place, tree, Some(bound.tree)),
    )
}

/// An array with a bound, unless a part is too high.
pub fn array_of(
    alloc: Global,
    d: Option<Built<Boxed<Declarator>>>,
    bound: Option<Built<Expr>>,
) -> Result<Option<Built<Boxed<Declarator>>>, AllocError>
    ensures { IfOk result (λ r. r ≡ array_of d bound) }
{
    match d {
        Some(d) => match bound {
            Some(bound) => array_with(alloc, d, bound),
            None => {
                drop(d);
                Ok(None)
            }
        },
        None => {
            drop(bound);
            Ok(None)
        }
    }
}

/// An array without a bound.
pub fn open_array_of(
    alloc: Global,
    d: Option<Built<Boxed<Declarator>>>,
) -> Result<Option<Built<Boxed<Declarator>>>, AllocError>
    ensures { IfOk result (λ r. r ≡ open_array_of d) }
{
    match d {
        Some(d) => {
            let height = d.height;
            let tree = d.tree.into_box();
            let place = begins(&tree);
            declarator_of(alloc, height, DeclaratorNode::Array(place, tree, None))
        }
        None => Ok(None),
    }
}

/// A declarator behind these `*`.
fn higher_pointers(
    alloc: Global,
    stars: Stars,
    d: Built<Boxed<Declarator>>,
) -> Result<Option<Built<Boxed<Declarator>>>, AllocError>
    ensures { IfOk result (λ r. r ≡ higher_pointers stars d) }
{
    declarator_of(
        alloc,
        greater(2, d.height),
        DeclaratorNode::Pointers(stars.place, stars.count, d.tree.into_box()),
    )
}

/// A declarator behind its `*`, if there are some.
pub fn pointed(
    alloc: Global,
    stars: Option<Stars>,
    d: Option<Built<Boxed<Declarator>>>,
) -> Result<Option<Built<Boxed<Declarator>>>, AllocError>
    ensures { IfOk result (λ r. r ≡ pointed stars d) }
{
    match stars {
        Some(stars) => match d {
            Some(d) => higher_pointers(alloc, stars, d),
            None => Ok(None),
        },
        None => Ok(d),
    }
}

/// A parameter with a name.
pub fn named_of(
    place: Place,
    register: bool,
    spec: Spec,
    d: Option<Built<Boxed<Declarator>>>,
) -> Option<Built<Parameter>>
    ensures { result ≡ named_of place register spec d }
{
    match d {
        Some(d) => parameter_of(
            d.height,
            ParameterNode::Named(place, register, spec, d.tree.into_inner()),
        ),
        None => None,
    }
}

/// A parameter without a name.
pub fn unnamed_of(place: Place, spec: Spec, a: Option<Built<Abstract>>) -> Option<Built<Parameter>>
    ensures { result ≡ unnamed_of place spec a }
{
    match a {
        Some(a) => parameter_of(
            greater(1, a.height),
            ParameterNode::Unnamed(place, spec, a.tree),
        ),
        None => None,
    }
}
