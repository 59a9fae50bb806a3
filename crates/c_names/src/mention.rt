// The names and tags that an expression mentions.

ghost use Rattle.std.specs.Prelude.{◌≡◌, ◌∷◌, ◌++◌, [], IfOk, OnOk};
ghost use Rattle.c_names.specs.Mentions.{of_leaf, of_spec, mentions as mentions_in, in_all, in_part};

use c_symbol::LeafKind;
use c_trees::expression::{Abstract, Expr, Node, Spec, TypeName};
use ldb_words::Text;
use std::alloc::{AllocError, Global};

/// The name of an object or a function, or the tag of a struct.
#[derive(Drop)]
pub enum Mention {
    Name(Text),
    Tag(Text),
}

/// Adds one more.
fn add(found: &mut Vec<Mention>, mention: Mention) -> Result<(), AllocError>
    ensures { OnOk result (found.new.items ≡ found.old.items ++ mention ∷ []) }
{
    found.push(mention)?;
    Ok(())
}

/// The name that a leaf is.
fn in_leaf(
    alloc: Global,
    found: &mut Vec<Mention>,
    kind: LeafKind,
    text: &Text,
) -> Result<(), AllocError>
    ensures { OnOk result (found.new.items ≡ found.old.items ++ of_leaf kind text.now) }
{
    match kind {
        LeafKind::Name => {
            let name = Text::from_slice(alloc, text.as_bytes())?;
            add(found, Mention::Name(name))
        }
        _ => Ok(()),
    }
}

/// The tag of how a type begins.
fn in_spec(alloc: Global, found: &mut Vec<Mention>, spec: &Spec) -> Result<(), AllocError>
    ensures { OnOk result (found.new.items ≡ found.old.items ++ of_spec spec.now) }
{
    match spec {
        Spec::Struct(text) => {
            let tag = Text::from_slice(alloc, text.as_bytes())?;
            add(found, Mention::Tag(tag))
        }
        Spec::Char | Spec::Int | Spec::Unsigned | Spec::UnsignedInt | Spec::Void => Ok(()),
    }
}

/// Those of an expression.
#[cycle(naming)]
#[tactic(auto, using(crate::proofs::Named::mentions_call, crate::proofs::Measures::depth_call))]
fn in_tree(alloc: Global, found: &mut Vec<Mention>, e: &Expr) -> Result<(), AllocError>
    ensures { OnOk result (found.new.items ≡ found.old.items ++ mentions_in e.now) }
{
    match &e.node {
        Node::Leaf(_, kind, text) => in_leaf(alloc, found, *kind, text),
        Node::Paren(_, a) => in_tree(alloc, found, a),
        Node::Index(_, a, b) => in_two(alloc, found, a, b),
        Node::Call(_, f, arguments) => {
            in_tree(alloc, found, f)?;
            in_arguments(alloc, found, arguments)
        }
        Node::Member(_, a, _, _, _) => in_tree(alloc, found, a),
        Node::After(_, a, _) => in_tree(alloc, found, a),
        Node::Prefix(_, _, a) => in_tree(alloc, found, a),
        Node::SizeofType(_, name) => in_type(alloc, found, name),
        Node::Cast(_, name, a) => {
            in_type(alloc, found, name)?;
            in_tree(alloc, found, a)
        }
        Node::Binary(_, _, a, b) => in_two(alloc, found, a, b),
        Node::Choice(_, c, a, b) => {
            in_tree(alloc, found, c)?;
            in_two(alloc, found, a, b)
        }
    }
}

/// Those of two expressions.
#[cycle(naming)]
fn in_two(alloc: Global, found: &mut Vec<Mention>, a: &Expr, b: &Expr) -> Result<(), AllocError>
    ensures { OnOk result (found.new.items ≡ found.old.items ++ (mentions_in a.now ++ mentions_in b.now)) }
{
    in_tree(alloc, found, a)?;
    in_tree(alloc, found, b)
}

/// Those of the arguments of a call.
#[cycle(naming)]
#[tactic(auto, using(crate::proofs::Measures::argument_at))]
fn in_arguments(
    alloc: Global,
    found: &mut Vec<Mention>,
    arguments: &[Expr],
) -> Result<(), AllocError>
    ensures { OnOk result (found.new.items ≡ found.old.items ++ in_all mentions_in arguments.now) }
{
    for argument in arguments {
        in_tree(alloc, found, argument)?;
    }
    Ok(())
}

/// Those of a type's name.
#[cycle(naming)]
fn in_type(alloc: Global, found: &mut Vec<Mention>, name: &TypeName) -> Result<(), AllocError>
    ensures { OnOk result (found.new.items ≡ found.old.items ++ of_spec name.now.spec ++ mentions_in name.now.declarator) }
{
    in_spec(alloc, found, &name.spec)?;
    in_abstract(alloc, found, &name.declarator)
}

/// Those of a declarator in a type's name.
#[cycle(naming)]
#[tactic(auto, using(crate::proofs::Named::mentions_bounds, crate::proofs::Named::nothing_behind, crate::proofs::Measures::depth_bounds))]
fn in_abstract(alloc: Global, found: &mut Vec<Mention>, d: &Abstract) -> Result<(), AllocError>
    ensures { OnOk result (found.new.items ≡ found.old.items ++ mentions_in d.now) }
{
    match &d.inner {
        None => in_bounds(alloc, found, &d.bounds),
        Some(inner) => {
            in_abstract(alloc, found, inner)?;
            in_bounds(alloc, found, &d.bounds)
        }
    }
}

/// Those of the bounds of an array.
#[cycle(naming)]
#[tactic(auto, using(crate::proofs::Measures::bound_at))]
fn in_bounds(
    alloc: Global,
    found: &mut Vec<Mention>,
    bounds: &[Option<Expr>],
) -> Result<(), AllocError>
    ensures { OnOk result (found.new.items ≡ found.old.items ++ in_all (in_part mentions_in) bounds.now) }
{
    for bound in bounds {
        in_part(alloc, found, bound)?;
    }
    Ok(())
}

/// Those of an expression, where there is one.
#[cycle(naming)]
fn in_part(alloc: Global, found: &mut Vec<Mention>, part: &Option<Expr>) -> Result<(), AllocError>
    ensures { OnOk result (found.new.items ≡ found.old.items ++ in_part mentions_in part.now) }
{
    match part {
        None => Ok(()),
        Some(e) => in_tree(alloc, found, e),
    }
}

/// The names and tags that an expression mentions, in the order of its text; one that it mentions twice is there twice.
pub fn mentions(alloc: Global, e: &Expr) -> Result<Vec<Mention>, AllocError>
    ensures { IfOk result (λ found. found.items ≡ mentions_in e.now) }
{
    let mut found = Vec::new(alloc);
    in_tree(alloc, &mut found, e)?;
    Ok(found)
}
