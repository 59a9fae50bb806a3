// Names of an expression that are not in scope.
ghost use Rattle.std.specs.Prelude.{◌≡◌, option_map};
ghost use Rattle.c_judge.specs.Forms.{first_of, unknown, unknown_leaf, unknown_bounds, unknown_all};
ghost use Rattle.c_judge.specs.Judges.{scope_of};

use crate::leaf::number_of;
use crate::scope::Scope;
use c_symbol::LeafKind;
use c_trees::expression::{Abstract, Expr, Node};
use ldb_words::Text;

/// A name that is not in scope.
fn unknown_leaf<'a, 'n>(v: &Scope<'a, 'n>, kind: LeafKind, text: &'n Text) -> Option<&'n Text>
    ensures { option_map (λ t. t.now) result ≡ unknown_leaf (scope_of v.now) kind text.now }
{
    match kind {
        LeafKind::Name => match number_of(v, text) {
            None => Some(text),
            Some(_) => None,
        },
        LeafKind::Constant(_) | LeafKind::Character(_) | LeafKind::Text => None,
    }
}

/// The first name of an expression that is not in scope.
#[cycle(naming)]
#[tactic(auto, using(crate::proofs::First::unknown_call, crate::proofs::Depths::depth_arguments))]
pub fn unknown<'a, 'n>(v: &Scope<'a, 'n>, e: &'n Expr) -> Option<&'n Text>
    ensures { option_map (λ t. t.now) result ≡ unknown (scope_of v.now) e.now }
{
    match &e.node {
        Node::Leaf(_, kind, text) => unknown_leaf(v, *kind, text),
        Node::Paren(_, a) => unknown(v, a),
        Node::Index(_, a, b) => unknown_two(v, a, b),
        Node::Call(_, f, args) => match unknown(v, f) {
            Some(name) => Some(name),
            None => unknown_among(v, args),
        },
        Node::Member(_, a, _, _, _) => unknown(v, a),
        Node::After(_, a, _) => unknown(v, a),
        Node::Prefix(_, _, a) => unknown(v, a),
        Node::SizeofType(_, name) => unknown_in(v, &name.declarator),
        Node::Cast(_, name, a) => match unknown_in(v, &name.declarator) {
            Some(name) => Some(name),
            None => unknown(v, a),
        },
        Node::Binary(_, _, a, b) => unknown_two(v, a, b),
        Node::Choice(_, c, a, b) => match unknown(v, c) {
            Some(name) => Some(name),
            None => unknown_two(v, a, b),
        },
    }
}

/// The first of two expressions.
#[cycle(naming)]
fn unknown_two<'a, 'n>(v: &Scope<'a, 'n>, a: &'n Expr, b: &'n Expr) -> Option<&'n Text>
    ensures { option_map (λ t. t.now) result ≡ first_of (unknown (scope_of v.now) a.now) (unknown (scope_of v.now) b.now) }
{
    match unknown(v, a) {
        Some(name) => Some(name),
        None => unknown(v, b),
    }
}

/// The first of the arguments of a call.
#[cycle(naming)]
#[tactic(auto, using(crate::proofs::Depths::depth_at))]
fn unknown_among<'a, 'n>(v: &Scope<'a, 'n>, args: &'n [Expr]) -> Option<&'n Text>
    ensures { option_map (λ t. t.now) result ≡ unknown_all (scope_of v.now) args.now }
{
    for arg in args {
        if let Some(name) = unknown(v, arg) {
            return Some(name);
        }
    }
    None
}

/// The first of a declarator.
#[cycle(naming)]
#[tactic(auto, using(crate::proofs::First::unknown_declarator, crate::proofs::Depths::depth_bounds))]
fn unknown_in<'a, 'n>(v: &Scope<'a, 'n>, d: &'n Abstract) -> Option<&'n Text>
    ensures { option_map (λ t. t.now) result ≡ unknown (scope_of v.now) d.now }
{
    if let Some(inner) = &d.inner {
        if let Some(name) = unknown_in(v, inner) {
            return Some(name);
        }
    }
    unknown_bounds(v, &d.bounds)
}

/// The first of the bounds of an array.
#[cycle(naming)]
#[tactic(auto, using(crate::proofs::Depths::bound_depth_at))]
fn unknown_bounds<'a, 'n>(v: &Scope<'a, 'n>, bounds: &'n [Option<Expr>]) -> Option<&'n Text>
    ensures { option_map (λ t. t.now) result ≡ unknown_bounds (scope_of v.now) bounds.now }
{
    for bound in bounds {
        if let Some(e) = bound {
            if let Some(name) = unknown(v, e) {
                return Some(name);
            }
        }
    }
    None
}
