// Forms of expressions that a session forbids: calls, assignments, `++`, `--` and strings.
ghost use Rattle.std.specs.Prelude.{◌≡◌};
ghost use Rattle.c_judge.specs.Forms.{first_of, forbidden, forbidden_leaf, forbidden_prefix, forbidden_binary, forbidden_bounds, forbidden_beside, forbidden_in, forbidden_as};
ghost use Rattle.c_judge.specs.Places.{place_of};

use crate::check::Mode;
use c_lex::Place;
use c_symbol::{AssignOp, BinaryOp, LeafKind, PrefixOp};
use c_trees::expression::{Abstract, Expr, Node};

/// A string is forbidden.
fn forbidden_leaf(at: Place, kind: LeafKind) -> Option<u32>
    ensures { result ≡ forbidden_leaf at kind }
{
    match kind {
        LeafKind::Text => Some(at.at),
        LeafKind::Name | LeafKind::Constant(_) | LeafKind::Character(_) => None,
    }
}

/// `++` and `--` are forbidden.
fn forbidden_prefix(at: Place, op: PrefixOp) -> Option<u32>
    ensures { result ≡ forbidden_prefix at op }
{
    match op {
        PrefixOp::Step(_) => Some(at.at),
        _ => None,
    }
}

/// An assignment is forbidden.
fn forbidden_binary(at: Place, op: BinaryOp) -> Option<u32>
    ensures { result ≡ forbidden_binary at op }
{
    match op {
        BinaryOp::Assign(_) => Some(at.at),
        _ => None,
    }
}

/// Where the first forbidden form of an expression begins.
#[cycle(forbidding)]
#[tactic(auto, using(crate::proofs::First::forbidden_call))]
pub fn forbidden(e: &Expr) -> Option<u32>
    ensures { result ≡ forbidden e.now }
{
    match &e.node {
        Node::Leaf(at, kind, _) => forbidden_leaf(*at, *kind),
        Node::Paren(_, a) => forbidden(a),
        Node::Index(_, a, b) => forbidden_two(a, b),
        Node::Call(at, _, _) => Some(at.at),
        Node::Member(_, a, _, _, _) => forbidden(a),
        Node::After(at, _, _) => Some(at.at),
        Node::Prefix(at, op, a) => match forbidden_prefix(*at, *op) {
            Some(at) => Some(at),
            None => forbidden(a),
        },
        Node::SizeofType(_, name) => forbidden_declarator(&name.declarator),
        Node::Cast(_, name, a) => match forbidden_declarator(&name.declarator) {
            Some(at) => Some(at),
            None => forbidden(a),
        },
        Node::Binary(at, op, a, b) => match forbidden_binary(*at, *op) {
            Some(at) => Some(at),
            None => forbidden_two(a, b),
        },
        Node::Choice(_, c, a, b) => match forbidden(c) {
            Some(at) => Some(at),
            None => forbidden_two(a, b),
        },
    }
}

/// The first of two expressions.
#[cycle(forbidding)]
fn forbidden_two(a: &Expr, b: &Expr) -> Option<u32>
    ensures { result ≡ first_of (forbidden a.now) (forbidden b.now) }
{
    match forbidden(a) {
        Some(at) => Some(at),
        None => forbidden(b),
    }
}

/// The first of a declarator.
#[cycle(forbidding)]
#[tactic(auto, using(crate::proofs::First::forbidden_declarator, crate::proofs::Depths::depth_bounds))]
fn forbidden_declarator(d: &Abstract) -> Option<u32>
    ensures { result ≡ forbidden d.now }
{
    if let Some(inner) = &d.inner {
        if let Some(at) = forbidden_declarator(inner) {
            return Some(at);
        }
    }
    forbidden_bounds(&d.bounds)
}

/// The first of the bounds of an array.
#[cycle(forbidding)]
#[tactic(auto, using(crate::proofs::Depths::bound_depth_at))]
fn forbidden_bounds(bounds: &[Option<Expr>]) -> Option<u32>
    ensures { result ≡ forbidden_bounds bounds.now }
{
    for bound in bounds {
        if let Some(e) = bound {
            if let Some(at) = forbidden(e) {
                return Some(at);
            }
        }
    }
    None
}

/// Where the first form begins that is forbidden in this mode.
pub fn forbidden_in(mode: Mode, e: &Expr) -> Option<u32>
    ensures { result ≡ forbidden_in mode e.now }
{
    match mode {
        Mode::Value => forbidden(e),
        Mode::Assign => forbidden_beside(e),
    }
}

/// The same beside a plain assignment.
#[tactic(auto, using(crate::proofs::First::beside_call))]
fn forbidden_beside(e: &Expr) -> Option<u32>
    ensures { result ≡ forbidden_beside e.now }
{
    match &e.node {
        Node::Binary(at, op, a, b) => match op {
            BinaryOp::Assign(AssignOp::Plain) => forbidden_two(a, b),
            _ => Some(at.at),
        },
        Node::Call(at, _, _) => Some(at.at),
        Node::Leaf(at, _, _) => Some(at.at),
        Node::Paren(at, _) => Some(at.at),
        Node::Index(at, _, _) => Some(at.at),
        Node::Member(at, _, _, _, _) => Some(at.at),
        Node::After(at, _, _) => Some(at.at),
        Node::Prefix(at, _, _) => Some(at.at),
        Node::SizeofType(at, _) => Some(at.at),
        Node::Cast(at, _, _) => Some(at.at),
        Node::Choice(at, _, _, _) => Some(at.at),
    }
}
