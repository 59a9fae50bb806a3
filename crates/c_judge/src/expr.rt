// The judgement of expressions. It goes as deep as the tree is nested.
ghost use Rattle.std.specs.Prelude.{◌≡◌, length};
ghost use Rattle.c_trees.specs.Expressions as tree;
ghost use Rattle.c_trees.specs.Expressions.{with_arguments};
ghost use Rattle.c_typing.specs.Plain.{Plain};
ghost use Rattle.c_judge.specs.Answers.{Known, Answer};
ghost use Rattle.c_judge.specs.Judgement.{declared, spec_type};
ghost use Rattle.c_judge.specs.Bounds.{all_bounds, one_bound};
ghost use Rattle.c_judge.specs.Calls.{Calls, Gathers};
ghost use Rattle.c_judge.specs.Judges.{Judges, Denotes, scope_of};

use crate::calls::{
    Calling, at_call, begun, extended, name_alone, named, number_called, passed, unnamed,
};
use crate::fault::Fault;
use crate::leaf::{leaf, spec_type};
use crate::nodes::{
    at_after, at_binary, at_bound, at_cast, at_choice, at_index, at_member, at_paren, at_prefix,
    at_size, starred, unbounded,
};
use crate::part::Part;
use crate::place::place_of;
use crate::scope::Scope;
use c_lex::Place;
use c_tree::CType;
use c_trees::expression::{Abstract, Expr, Node, TypeName};
use std::alloc::Global;

/// Judges an expression: gives it with its types, or says why there are none.
#[cycle(judging)]
pub fn judge<'a, 'n>(alloc: Global, v: &Scope<'a, 'n>, e: &'n Expr) -> Result<Part, Fault>
    ensures { Judges (scope_of v.now) e.now result }
{
    match &e.node {
        Node::Leaf(at, kind, text) => leaf(alloc, v, *at, *kind, text),
        Node::Paren(at, a) => at_paren(alloc, *at, judge(alloc, v, a)),
        Node::Index(at, a, b) => at_index(alloc, v, *at, judge(alloc, v, a), judge(alloc, v, b)),
        Node::Call(at, f, arguments) => at_call(
            alloc,
            v,
            *at,
            gathered(alloc, v, *at, f, arguments),
        ),
        Node::Member(at, a, access, _, name) => at_member(
            alloc,
            v,
            *at,
            *access,
            name.as_bytes(),
            judge(alloc, v, a),
        ),
        Node::After(at, a, step) => at_after(alloc, v, *at, *step, judge(alloc, v, a)),
        Node::Prefix(at, op, a) => at_prefix(alloc, v, *at, *op, judge(alloc, v, a)),
        Node::SizeofType(at, name) => at_size(alloc, v, *at, written_type(alloc, v, at.at, name)),
        Node::Cast(at, name, a) => at_cast(
            alloc,
            *at,
            written_type(alloc, v, at.at, name),
            judge(alloc, v, a),
        ),
        Node::Binary(at, op, a, b) => at_binary(
            alloc,
            v,
            *at,
            *op,
            judge(alloc, v, a),
            judge(alloc, v, b),
        ),
        Node::Choice(at, c, a, b) => at_choice(
            alloc,
            *at,
            judge(alloc, v, c),
            judge(alloc, v, a),
            judge(alloc, v, b),
        ),
    }
}

/// The type that a type's name writes (C90 6.5.5). Where a rule of types is broken in it, the place is the one that is given.
#[cycle(judging)]
pub fn written_type<'a, 'n>(
    alloc: Global,
    v: &Scope<'a, 'n>,
    at: u32,
    name: &'n TypeName,
) -> Result<CType, Fault>
    ensures { Denotes (declared (scope_of v.now) at name.now.declarator (Known (spec_type (scope_of v.now) name.now.spec))) result }
{
    declared(alloc, v, at, &name.declarator, Ok(spec_type(v, &name.spec)))
}

/// The type of what is declared, from the type that the declaration begins with (C90 6.5.4, 6.5.5).
#[cycle(judging)]
fn declared<'a, 'n>(
    alloc: Global,
    v: &Scope<'a, 'n>,
    at: u32,
    d: &'n Abstract,
    t: Result<CType, Fault>,
) -> Result<CType, Fault>
    ensures { (j : Answer Plain) → Denotes j t → Denotes (declared (scope_of v.now) at d.now j) result }
{
    let t = starred(alloc, &v.defs, at, d.stars, t);
    let t = within_bounds(alloc, v, at, &d.bounds, t);
    match &d.inner {
        None => t,
        Some(inner) => declared(alloc, v, at, inner, t),
    }
}

/// An array of arrays, from the last bound to the first.
#[cycle(judging)]
fn within_bounds<'a, 'n>(
    alloc: Global,
    v: &Scope<'a, 'n>,
    at: u32,
    bounds: &'n [Option<Expr>],
    t: Result<CType, Fault>,
) -> Result<CType, Fault>
    ensures { (j : Answer Plain) → Denotes j t → Denotes (all_bounds (scope_of v.now) at bounds.now j) result }
{
    let mut t = t;
    let mut i = bounds.len();
    'bounding: while i > 0 {
        i -= 1;
        t = one_bound(alloc, v, at, &bounds[i], t);
    }
    t
}

/// So many items of a type.
#[cycle(judging)]
fn one_bound<'a, 'n>(
    alloc: Global,
    v: &Scope<'a, 'n>,
    at: u32,
    bound: &'n Option<Expr>,
    t: Result<CType, Fault>,
) -> Result<CType, Fault>
    ensures { (j : Answer Plain) → Denotes j t → Denotes (one_bound (scope_of v.now) at bound.now j) result }
{
    match bound {
        None => unbounded(at, t),
        Some(e) => at_bound(alloc, v, at, place_of(e).at, t, judge(alloc, v, e)),
    }
}

/// What is called, with its arguments.
#[cycle(judging)]
fn gathered<'a, 'n>(
    alloc: Global,
    v: &Scope<'a, 'n>,
    at: Place,
    f: &'n Expr,
    arguments: &'n [Expr],
) -> Result<Calling, Fault>
    ensures { Gathers (scope_of v.now) (length arguments.now) (with_arguments (tree.Call at f.now) arguments.now) result }
{
    let n = number_called(v, f);
    let mut calling = begun(alloc, v, at, arguments.len(), callee(alloc, v, f));
    let mut i = 0;
    'gathering: while i < arguments.len() {
        let e = &arguments[i];
        let x = passed(v, n, i, place_of(e).at, judge(alloc, v, e));
        calling = extended(calling, x);
        i += 1;
    }
    calling
}

/// What is called: the number of a name, or none for another expression, which is judged as any part is.
#[cycle(judging)]
fn callee<'a, 'n>(alloc: Global, v: &Scope<'a, 'n>, f: &'n Expr) -> Result<Option<u32>, Fault>
    ensures { Calls (scope_of v.now) f.now result }
{
    match name_alone(f) {
        Some(name) => named(alloc, v, name),
        None => unnamed(judge(alloc, v, f)),
    }
}
