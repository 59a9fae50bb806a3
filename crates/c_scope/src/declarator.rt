// The names of declarators.
ghost use Rattle.std.specs.Prelude.{◌≡◌};
ghost use Rattle.c_trees.specs.Declarators.{begins};
ghost use Rattle.c_scope.specs.Declarators.{name_in, is_name};

use c_lex::Place;
use c_trees::declaration::{Declarator, DeclaratorNode, Parameter, ParameterNode};
use ldb_words::Text;

/// The name that a declarator declares.
#[tactic(auto, using(crate::proofs::Applied::name_with, crate::proofs::Applied::depth_function))]
pub fn name_in<'a>(d: &'a Declarator) -> &'a Text
    ensures { result.now ≡ name_in d.now }
{
    match &d.node {
        DeclaratorNode::Name(_, text) => text,
        DeclaratorNode::Parens(_, d) => name_in(d),
        DeclaratorNode::Pointers(_, _, d) => name_in(d),
        DeclaratorNode::Array(_, d, _) => name_in(d),
        DeclaratorNode::Function(_, d, _) => name_in(d),
    }
}

/// Whether a declarator is a name alone, perhaps in parentheses.
#[tactic(auto, using(crate::proofs::Applied::no_name_with))]
pub fn is_name(d: &Declarator) -> bool
    ensures { result ≡ is_name d.now }
{
    match &d.node {
        DeclaratorNode::Name(_, _) => true,
        DeclaratorNode::Parens(_, d) => is_name(d),
        DeclaratorNode::Pointers(_, _, _)
        | DeclaratorNode::Array(_, _, _)
        | DeclaratorNode::Function(_, _, _) => false,
    }
}

/// Where a declarator begins.
#[tactic(auto, using(crate::proofs::Applied::begins_with))]
pub fn declarator_place(d: &Declarator) -> Place
    ensures { result ≡ begins d.now }
{
    match &d.node {
        DeclaratorNode::Name(at, _) => *at,
        DeclaratorNode::Parens(at, _) => *at,
        DeclaratorNode::Pointers(at, _, _) => *at,
        DeclaratorNode::Array(at, _, _) => *at,
        DeclaratorNode::Function(at, _, _) => *at,
    }
}

/// Where a parameter begins.
pub fn parameter_place(p: &Parameter) -> Place
    ensures { result ≡ begins p.now }
{
    match &p.node {
        ParameterNode::Named(at, _, _, _) => *at,
        ParameterNode::Unnamed(at, _, _) => *at,
    }
}
