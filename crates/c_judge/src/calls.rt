// Calls of checked parts.
ghost use Rattle.std.specs.Prelude.{◌≡◌, ℕ, ◌||◌, not, length, map, option_map, IfOk, List, Some, None};
ghost use Rattle.c_typing.specs.Plain.{plain};
ghost use Rattle.c_judge.specs.Judgement.{name_alone, function_numbered, function_named, has_parameters, parameter_at, goes_to, result_of, called};
ghost use Rattle.c_judge.specs.Judges.{Judges, Makes, scope_of};
ghost use Rattle.c_judge.specs.Scope.{Scope as Names};
ghost use Rattle.c_trees.specs.Expressions.{Tree, Call, With, with_arguments};
ghost use Rattle.c_lex.specs.declared.token.Place.{Place};
ghost use Rattle.c_judge.specs.Elaboration.{IsCall};
ghost use Rattle.c_judge.specs.Parts.{operand_of};
ghost use Rattle.c_judge.specs.Pairs.{dropped};
ghost use Rattle.c_judge.specs.Calls.{typed_in, number_or_none, parameters_by, NamesCallee, IsWith, IsPassed, IsArgument, Calls, Gathers};

use crate::fault::Fault;
use crate::leaf::{number_of, unknown};
use crate::operators::{VALUE, head, part_of};
use crate::pairs::pair;
use crate::part::Part;
use crate::rules::{converts, type_of};
use crate::scope::Scope;
use crate::symbol::Symbol;
use crate::types::{copied, is_scalar};
use c_lex::Place;
use c_symbol::LeafKind;
use c_tree::{CType, Typed};
use c_trees::expression::{Expr, Node};
use ldb_words::Text;
use std::alloc::{AllocError, Global};

/// What is called, by the number of its name where it is one, with the arguments so far.
#[derive(Drop)]
pub struct Calling {
    pub callee: Option<u32>,
    pub arguments: Vec<Part>,
}

/// The typed trees of parts.
pub fn typed_of(alloc: Global, parts: Vec<Part>) -> Result<Vec<Typed>, AllocError>
    ensures { IfOk result (λ r. r.items ≡ map typed_in parts.items) }
{
    let mut typed = Vec::new(alloc);
    for part in parts {
        typed.push(Box::into_inner(part.typed))?;
    }
    Ok(typed)
}

/// The text of an expression that is a name alone.
#[tactic(auto, using(crate::proofs::Alone::no_name))]
pub fn name_alone<'a>(e: &'a Expr) -> Option<&'a Text>
    ensures { option_map (λ t. t.now) result ≡ name_alone e.now }
{
    match &e.node {
        Node::Leaf(_, kind, text) => match kind {
            LeafKind::Name => Some(text),
            LeafKind::Constant(_) | LeafKind::Character(_) | LeafKind::Text => None,
        },
        Node::Call(_, _, _) => None,
        Node::Paren(_, _)
        | Node::Index(_, _, _)
        | Node::Member(_, _, _, _, _)
        | Node::After(_, _, _)
        | Node::Prefix(_, _, _)
        | Node::SizeofType(_, _)
        | Node::Cast(_, _, _)
        | Node::Binary(_, _, _, _)
        | Node::Choice(_, _, _, _) => None,
    }
}

/// The function with a number: its row, where it is one.
fn function_at<'a, 'n>(v: &Scope<'a, 'n>, n: u32) -> Option<&'a Symbol>
    ensures { option_map (λ s. (plain s.now.ctype, map plain (parameters_by v.now (Some n)))) result ≡ function_numbered (scope_of v.now) (Some n) }
{
    match v.rows.get(n as usize) {
        None => None,
        Some(symbol) => {
            if symbol.function {
                return Some(symbol);
            }
            None
        }
    }
}

/// The function that a number calls: its row, where it is one.
fn function_by<'a, 'n>(v: &Scope<'a, 'n>, n: Option<u32>) -> Option<&'a Symbol>
    ensures { option_map (λ s. (plain s.now.ctype, map plain (parameters_by v.now n))) result ≡ function_numbered (scope_of v.now) n }
{
    match n {
        None => None,
        Some(n) => function_at(v, n),
    }
}

/// The parameters of the function that a number calls.
fn parameters_by<'a, 'n>(v: &Scope<'a, 'n>, n: Option<u32>) -> &'a [CType]
    ensures { result.now ≡ parameters_by v.now n }
{
    match n {
        None => &[],
        Some(n) => match v.parameters.get(n as usize) {
            None => &[],
            Some(parameters) => parameters.as_slice(),
        },
    }
}

/// Whether so many arguments may stand in a call: as many as what is called has parameters, where these are known.
fn is_counted<'a, 'n>(v: &Scope<'a, 'n>, n: Option<u32>, count: usize) -> bool
    ensures { result ≡ (not v.now.asks || has_parameters count (function_numbered (scope_of v.now) n)) }
{
    if !v.asks {
        return true;
    }
    match function_by(v, n) {
        None => false,
        Some(_) => parameters_by(v, n).len() == count,
    }
}

/// The type of a parameter by its place, where it is known.
fn parameter_at<'a, 'n>(v: &Scope<'a, 'n>, n: Option<u32>, i: usize) -> Option<&'a CType>
    ensures { option_map (λ t. plain t.now) result ≡ parameter_at v.now.asks (function_numbered (scope_of v.now) n) i }
{
    match function_by(v, n) {
        None => None,
        Some(_) => {
            if v.asks {
                return parameters_by(v, n).get(i);
            }
            None
        }
    }
}

/// Whether the argument at a place goes to its parameter; where that is not known, it is a scalar.
fn goes_to_parameter<'a, 'n>(v: &Scope<'a, 'n>, n: Option<u32>, i: usize, x: &Part) -> bool
    ensures { result ≡ goes_to (parameter_at v.now.asks (function_numbered (scope_of v.now) n) i) (operand_of x.now) }
{
    match parameter_at(v, n, i) {
        None => is_scalar(type_of(x)),
        Some(t) => converts(t, x),
    }
}

/// The argument at a place among those of a call, which keeps the rule of its parameter.
pub fn passed<'a, 'n>(
    v: &Scope<'a, 'n>,
    n: Option<u32>,
    i: usize,
    at: u32,
    x: Result<Part, Fault>,
) -> Result<Part, Fault>
    ensures { IsPassed v.now.asks at (parameter_at v.now.asks (function_numbered (scope_of v.now) n) i) x result }
{
    match x {
        Ok(x) => {
            if goes_to_parameter(v, n, i, &x) {
                return Ok(x);
            }
            Err(Fault::Rule {
                rule: if v.asks { 29 } else { 22 },
                at,
            })
        }
        Err(f) => Err(f),
    }
}

/// The number of the name of what is called, where that is one.
pub fn number_called<'a, 'n>(v: &Scope<'a, 'n>, f: &'n Expr) -> Option<u32>
    ensures { function_numbered (scope_of v.now) result ≡ function_named (scope_of v.now) (name_alone f.now) }
{
    match name_alone(f) {
        None => None,
        Some(name) => number_of(v, name),
    }
}

/// The result of a call; where what is called is no function, it is `int`.
fn result_of<'a, 'n>(v: &Scope<'a, 'n>, n: Option<u32>) -> Result<CType, AllocError>
    ensures { IfOk result (λ t. plain t ≡ result_of (function_numbered (scope_of v.now) n)) }
{
    match function_by(v, n) {
        None => Ok(CType::Int),
        Some(symbol) => copied(&symbol.ctype),
    }
}

/// A call of what is called with checked arguments.
pub fn called<'a, 'n>(
    alloc: Global,
    v: &Scope<'a, 'n>,
    at: Place,
    calling: Calling,
) -> Result<Part, Fault>
    ensures { Makes (called (function_numbered (scope_of v.now) calling.callee)) (IsCall (λ m. m ≡ number_or_none calling.callee) (map typed_in calling.arguments.items)) at result }
{
    let t = result_of(v, calling.callee)?;
    let n = calling.callee.unwrap_or(0);
    let typed = typed_of(alloc, calling.arguments)?;
    part_of(alloc, Typed::Call(head(at, t), n, typed), VALUE)
}

/// What is called where an expression is a name, by the name's number.
pub fn named<'a, 'n>(alloc: Global, v: &Scope<'a, 'n>, name: &'n Text) -> Result<Option<u32>, Fault>
    ensures { NamesCallee (scope_of v.now) name.now result }
{
    match number_of(v, name) {
        None => Err(unknown(alloc, name)),
        Some(n) => Ok(Some(n)),
    }
}

/// A call with one argument more.
pub fn with_argument(calling: Calling, x: Part) -> Result<Calling, Fault>
    ensures { IsWith calling x result }
{
    let mut calling = calling;
    calling.arguments.push(x)?;
    Ok(calling)
}

/// A call with one argument more, where both are there.
pub fn extended(calling: Result<Calling, Fault>, x: Result<Part, Fault>) -> Result<Calling, Fault>
    ensures { (v : Names) (n : ℕ) (t e : Tree) → Gathers v n t calling → IsArgument v t e x → Gathers v n (With t e) result }
{
    match pair(calling, x) {
        Ok((calling, x)) => with_argument(calling, x),
        Err(f) => Err(f),
    }
}

/// What is called where it is no name: it is judged as any part is.
pub fn unnamed(x: Result<Part, Fault>) -> Result<Option<u32>, Fault>
    ensures { result ≡ dropped x None }
{
    match x {
        Ok(_part) => Ok(None),
        Err(f) => Err(f),
    }
}

/// A call with so many arguments, without these.
pub fn begun<'a, 'n>(
    alloc: Global,
    v: &Scope<'a, 'n>,
    at: Place,
    count: usize,
    callee: Result<Option<u32>, Fault>,
) -> Result<Calling, Fault>
    ensures { (f : Tree) → Calls (scope_of v.now) f callee → Gathers (scope_of v.now) count (Call at f) result }
{
    match callee {
        Ok(callee) => {
            if is_counted(v, callee, count) {
                return Ok(Calling {
                    callee,
                    arguments: Vec::new(alloc),
                });
            }
            Err(Fault::Rule {
                rule: 29,
                at: at.at,
            })
        }
        Err(f) => Err(f),
    }
}

/// A call of what was gathered.
pub fn at_call<'a, 'n>(
    alloc: Global,
    v: &Scope<'a, 'n>,
    at: Place,
    calling: Result<Calling, Fault>,
) -> Result<Part, Fault>
    ensures { (f : Tree) (es : List Tree) → Gathers (scope_of v.now) (length es) (with_arguments (Call at f) es) calling → Judges (scope_of v.now) (with_arguments (Call at f) es) result }
{
    match calling {
        Ok(calling) => called(alloc, v, at, calling),
        Err(f) => Err(f),
    }
}
