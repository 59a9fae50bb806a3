// What a declarator declares: one function for each form. It goes as deep as the declarator is nested.
ghost use Rattle.std.specs.Prelude.{◌≡◌, false, [], map, Some, None};
ghost use Rattle.c_trees.specs.Declarators as tree;
ghost use Rattle.c_trees.specs.Declarators.{begins, with_parameters};
ghost use Rattle.c_typing.specs.Plain.{Plain, plain};
ghost use Rattle.c_judge.specs.Answers.{Answer, ◌then◌};
ghost use Rattle.c_judge.specs.Judges.{Denotes, Gives};
ghost use Rattle.c_scope.specs.Declarators.{shape, taken, with_one};
ghost use Rattle.c_scope.specs.Declarators as spec;
ghost use Rattle.c_scope.specs.Gathered.{gathered};
ghost use Rattle.c_scope.specs.Here.{environment_of};
ghost use Rattle.c_scope.specs.Shapes.{parameter_of, shape_of};

use crate::bounds::{with_bound, without_bound};
use crate::declarator::{is_name, name_in, parameter_place};
use crate::environment::Environment;
use crate::judging::named_type;
use crate::parameter::{function, parameter, with_one};
use crate::shapes::{Parameter, Shape};
use crate::unnamed::unnamed;
use c_judge::{Fault, pointers};
use c_lex::Place;
use c_tree::CType;
use c_trees::declaration::{Declarator, DeclaratorNode, Parameter as Written, ParameterNode};
use c_trees::expression::{Abstract, Expr, Spec};
use std::alloc::Global;

/// What a declarator declares, from the type that its declaration begins with.
#[cycle(shaping)]
#[tactic(auto, using(crate::proofs::Applied::depth_function))]
pub fn shape<'a>(
    alloc: Global,
    here: &Environment<'a>,
    d: &'a Declarator,
    t: CType,
) -> Result<Shape<'a>, Fault>
    ensures { Gives shape_of (shape (environment_of here.now) d.now (plain t)) result }
{
    match &d.node {
        DeclaratorNode::Name(_, _) => Ok(Shape::Object(t)),
        DeclaratorNode::Parens(_, d) => shape(alloc, here, d, t),
        DeclaratorNode::Pointers(at, n, d) => at_pointers(alloc, here, *at, *n, d, t),
        DeclaratorNode::Array(at, d, bound) => match bound {
            Some(e) => at_array(alloc, here, d, with_bound(alloc, here, e, t)),
            None => open_array(alloc, here, *at, d, t),
        },
        DeclaratorNode::Function(at, d, ps) => at_function(alloc, here, *at, d, ps, t),
    }
}

/// `* d`
#[cycle(shaping)]
fn at_pointers<'a>(
    alloc: Global,
    here: &Environment<'a>,
    at: Place,
    n: u64,
    d: &'a Declarator,
    t: CType,
) -> Result<Shape<'a>, Fault>
    ensures { Gives shape_of (shape (environment_of here.now) (tree.Pointers at n d.now) (plain t)) result }
{
    match pointers(alloc, &here.defs.view(), at.at, n, t) {
        Ok(t) => shape(alloc, here, d, t),
        Err(f) => Err(f),
    }
}

/// `d[e]`, once it is known of what type `d` is.
#[cycle(shaping)]
fn at_array<'a>(
    alloc: Global,
    here: &Environment<'a>,
    d: &'a Declarator,
    t: Result<CType, Fault>,
) -> Result<Shape<'a>, Fault>
    ensures { (j : Answer Plain) → Denotes j t → Gives shape_of (j then shape (environment_of here.now) d.now) result }
{
    match t {
        Ok(t) => shape(alloc, here, d, t),
        Err(f) => Err(f),
    }
}

/// `d[]`
fn open_array<'a>(
    alloc: Global,
    here: &Environment<'a>,
    at: Place,
    d: &'a Declarator,
    t: CType,
) -> Result<Shape<'a>, Fault>
    ensures { Gives shape_of (shape (environment_of here.now) (tree.Array at d.now None) (plain t)) result }
{
    if !is_name(d) {
        return Err(Fault::Rule { rule: 2, at: at.at });
    }
    match without_bound(alloc, here, at.at, t) {
        Ok(t) => Ok(Shape::Object(t)),
        Err(f) => Err(f),
    }
}

/// `d(ps)`
#[cycle(shaping)]
fn at_function<'a>(
    alloc: Global,
    here: &Environment<'a>,
    at: Place,
    d: &'a Declarator,
    ps: &'a [Written],
    t: CType,
) -> Result<Shape<'a>, Fault>
    ensures { Gives shape_of (shape (environment_of here.now) (with_parameters (tree.Function at d.now) ps.now) (plain t)) result }
{
    match parameters(alloc, here, ps) {
        Ok(taken) => function(is_name(d), at.at, t, taken),
        Err(f) => Err(f),
    }
}

/// The parameters of a function's declarator, in order.
#[cycle(shaping)]
#[tactic(auto, using(crate::proofs::Applied::depth_at))]
fn parameters<'a>(
    alloc: Global,
    here: &Environment<'a>,
    ps: &'a [Written],
) -> Result<Vec<Parameter<'a>>, Fault>
    ensures { Gives (λ v. map parameter_of v.items) (gathered (environment_of here.now) [] ps.now) result }
{
    let mut taken = Vec::new(alloc);
    for p in ps {
        taken = match with_taken(alloc, here, taken, p) {
            Ok(more) => more,
            Err(f) => return Err(f),
        };
    }
    Ok(taken)
}

/// With one parameter more.
#[cycle(shaping)]
fn with_taken<'a>(
    alloc: Global,
    here: &Environment<'a>,
    before: Vec<Parameter<'a>>,
    p: &'a Written,
) -> Result<Vec<Parameter<'a>>, Fault>
    ensures { Gives (λ v. map parameter_of v.items) (taken (environment_of here.now) p.now then with_one (map parameter_of before.entry.items) (begins p.now).at) result }
{
    match taken(alloc, here, p) {
        Ok(q) => with_one(before, parameter_place(p).at, q),
        Err(f) => Err(f),
    }
}

/// A parameter.
#[cycle(shaping)]
fn taken<'a>(alloc: Global, here: &Environment<'a>, p: &'a Written) -> Result<Parameter<'a>, Fault>
    ensures { Gives parameter_of (taken (environment_of here.now) p.now) result }
{
    match &p.node {
        ParameterNode::Named(at, r, spec, d) => taken_named(alloc, here, *at, *r, spec, d),
        ParameterNode::Unnamed(at, spec, d) => taken_unnamed(alloc, here, *at, spec, d),
    }
}

/// A parameter with a name.
#[cycle(shaping)]
fn taken_named<'a>(
    alloc: Global,
    here: &Environment<'a>,
    at: Place,
    register: bool,
    spec: &'a Spec,
    d: &'a Declarator,
) -> Result<Parameter<'a>, Fault>
    ensures { Gives parameter_of (taken (environment_of here.now) (tree.Named at register spec.now d.now)) result }
{
    let t = named_type(alloc, here, spec);
    match shape(alloc, here, d, t) {
        Ok(s) => parameter(Some(name_in(d)), register, at.at, s),
        Err(f) => Err(f),
    }
}

/// A parameter without a name.
fn taken_unnamed<'a>(
    alloc: Global,
    here: &Environment<'a>,
    at: Place,
    spec: &'a Spec,
    d: &'a Abstract,
) -> Result<Parameter<'a>, Fault>
    ensures { Gives parameter_of (taken (environment_of here.now) (tree.Unnamed at spec.now d.now)) result }
{
    let t = named_type(alloc, here, spec);
    match unnamed(alloc, here, at.at, d, t) {
        Ok(t) => nameless(at.at, t),
        Err(f) => Err(f),
    }
}

/// A parameter of this type without a name.
fn nameless<'a>(at: u32, t: CType) -> Result<Parameter<'a>, Fault>
    ensures { Gives parameter_of (spec.parameter None false at (spec.Object (plain t))) result }
{
    parameter(None, false, at, Shape::Object(t))
}
