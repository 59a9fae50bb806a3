// Where expressions begin.
ghost use Rattle.std.specs.Prelude.{◌≡◌};
ghost use Rattle.c_judge.specs.Places.{place_of};

use c_lex::Place;
use c_trees::expression::{Expr, Node};

/// The place of the first token of an expression.
#[tactic(auto, using(crate::proofs::Alone::place_call))]
pub fn place_of(e: &Expr) -> Place
    ensures { result ≡ place_of e.now }
{
    match &e.node {
        Node::Leaf(at, _, _) => *at,
        Node::Paren(at, _) => *at,
        Node::Index(at, _, _) => *at,
        Node::Call(at, _, _) => *at,
        Node::Member(at, _, _, _, _) => *at,
        Node::After(at, _, _) => *at,
        Node::Prefix(at, _, _) => *at,
        Node::SizeofType(at, _) => *at,
        Node::Cast(at, _, _) => *at,
        Node::Binary(at, _, _, _) => *at,
        Node::Choice(at, _, _, _) => *at,
    }
}
