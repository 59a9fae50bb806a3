// Nodes of checked parts, each of which may have failed.
ghost use Rattle.std.specs.Prelude.{◌≡◌, Some, None};
ghost use Rattle.c_lex.specs.declared.token.Place.{Place};
ghost use Rattle.c_trees.specs.Expressions as tree;
ghost use Rattle.c_trees.specs.Expressions.{Tree};
ghost use Rattle.c_trees.specs.declared.expression.Spec.{Spec};
ghost use Rattle.c_typing.specs.Plain.{Plain};
ghost use Rattle.c_judge.specs.Answers.{Answer, Known, ◌then◌};
ghost use Rattle.c_judge.specs.Scope.{Scope as Names};
ghost use Rattle.c_judge.specs.Judgement.{declared, chosen_of, spec_type, pointers};
ghost use Rattle.c_judge.specs.Bounds.{one_bound};
ghost use Rattle.c_judge.specs.Pairs.{without_bound};
ghost use Rattle.c_judge.specs.Places.{place_of};
ghost use Rattle.c_judge.specs.Judges.{Judges, Denotes, Makes, scope_of};
ghost use Rattle.c_judge.specs.Elaboration.{IsChoice};
ghost use Rattle.c_judge.specs.Parts.{judged_of};

use crate::beside::{
    binary_alone, branch_alone, casts_alone, choice_alone, indices_alone, refused,
};
use crate::fault::Fault;
use crate::forms::{after, cast, choice, index, member, paren, size_of_type};
use crate::limits::{bounded, pointers};
use crate::operators::{joined, prefixed};
use crate::pairs::pair;
use crate::part::Part;
use crate::scope::Scope;
use c_defs::StructsView;
use c_lex::Place;
use c_symbol::{Access, BinaryOp, PrefixOp, Step};
use c_tree::CType;
use std::alloc::Global;

/// `(a)`
pub fn at_paren(alloc: Global, at: Place, x: Result<Part, Fault>) -> Result<Part, Fault>
    ensures { (v : Names) (a : Tree) → Judges v a x → Judges v (tree.Paren at a) result }
{
    match x {
        Ok(x) => paren(alloc, at, x),
        Err(f) => Err(f),
    }
}

/// `a.m` or `a->m`
pub fn at_member<'a, 'n>(
    alloc: Global,
    v: &Scope<'a, 'n>,
    at: Place,
    access: Access,
    name: &'n [u8],
    x: Result<Part, Fault>,
) -> Result<Part, Fault>
    ensures { (a : Tree) (q : Place) → Judges (scope_of v.now) a x → Judges (scope_of v.now) (tree.Member at a access q name.now) result }
{
    match x {
        Ok(x) => member(alloc, &v.defs, at, access, name, x),
        Err(f) => Err(f),
    }
}

/// `a++` or `a--`
pub fn at_after<'a, 'n>(
    alloc: Global,
    v: &Scope<'a, 'n>,
    at: Place,
    step: Step,
    x: Result<Part, Fault>,
) -> Result<Part, Fault>
    ensures { (a : Tree) → Judges (scope_of v.now) a x → Judges (scope_of v.now) (tree.After at a step) result }
{
    match x {
        Ok(x) => after(alloc, v.defs.defs(), at, step, x),
        Err(f) => Err(f),
    }
}

/// An operator in front of an expression.
pub fn at_prefix<'a, 'n>(
    alloc: Global,
    v: &Scope<'a, 'n>,
    at: Place,
    op: PrefixOp,
    x: Result<Part, Fault>,
) -> Result<Part, Fault>
    ensures { (a : Tree) → Judges (scope_of v.now) a x → Judges (scope_of v.now) (tree.Prefix at op a) result }
{
    match x {
        Ok(x) => prefixed(alloc, v.defs.defs(), at, op, x),
        Err(f) => Err(f),
    }
}

/// `sizeof (type)`
pub fn at_size<'a, 'n>(
    alloc: Global,
    v: &Scope<'a, 'n>,
    at: Place,
    t: Result<CType, Fault>,
) -> Result<Part, Fault>
    ensures { (s : Spec) (d : Tree) → Denotes (declared (scope_of v.now) at.at d (Known (spec_type (scope_of v.now) s))) t → Judges (scope_of v.now) (tree.SizeofType at s d) result }
{
    match t {
        Ok(t) => size_of_type(alloc, v.defs.defs(), at, t),
        Err(f) => Err(f),
    }
}

/// `a[b]`
pub fn at_index<'a, 'n>(
    alloc: Global,
    v: &Scope<'a, 'n>,
    at: Place,
    x: Result<Part, Fault>,
    y: Result<Part, Fault>,
) -> Result<Part, Fault>
    ensures { (a b : Tree) → Judges (scope_of v.now) a x → Judges (scope_of v.now) b y → Judges (scope_of v.now) (tree.Index at a b) result }
{
    let rule = indices_alone(v.defs.defs(), &x, &y);
    match refused(rule, at.at, pair(x, y)) {
        Ok((x, y)) => index(alloc, v.defs.defs(), at, x, y),
        Err(f) => Err(f),
    }
}

/// An operator between two expressions.
pub fn at_binary<'a, 'n>(
    alloc: Global,
    v: &Scope<'a, 'n>,
    at: Place,
    op: BinaryOp,
    x: Result<Part, Fault>,
    y: Result<Part, Fault>,
) -> Result<Part, Fault>
    ensures { (a b : Tree) → Judges (scope_of v.now) a x → Judges (scope_of v.now) b y → Judges (scope_of v.now) (tree.Binary at op a b) result }
{
    let rule = binary_alone(v.defs.defs(), op, &x, &y);
    match refused(rule, at.at, pair(x, y)) {
        Ok((x, y)) => joined(alloc, v.defs.defs(), at, op, x, y),
        Err(f) => Err(f),
    }
}

/// `(type) a`
pub fn at_cast(
    alloc: Global,
    at: Place,
    t: Result<CType, Fault>,
    x: Result<Part, Fault>,
) -> Result<Part, Fault>
    ensures { (v : Names) (s : Spec) (d a : Tree) → Denotes (declared v at.at d (Known (spec_type v s))) t → Judges v a x → Judges v (tree.Cast at s d a) result }
{
    let rule = casts_alone(&t, &x);
    match refused(rule, at.at, pair(t, x)) {
        Ok((t, x)) => cast(alloc, at, t, x),
        Err(f) => Err(f),
    }
}

/// `c ? a : b`
pub fn at_choice(
    alloc: Global,
    at: Place,
    z: Result<Part, Fault>,
    x: Result<Part, Fault>,
    y: Result<Part, Fault>,
) -> Result<Part, Fault>
    ensures { (v : Names) (c a b : Tree) → Judges v c z → Judges v a x → Judges v b y → Judges v (tree.Choice at c a b) result }
{
    let rule = branch_alone(&x, &y);
    let branches = refused(rule, at.at, pair(x, y));
    let rule = choice_alone(&z, &branches);
    match refused(rule, at.at, pair(z, branches)) {
        Ok((z, branches)) => chosen(alloc, at, z, branches),
        Err(f) => Err(f),
    }
}

/// The same of parts that are there.
fn chosen(alloc: Global, at: Place, z: Part, branches: (Part, Part)) -> Result<Part, Fault>
    ensures { Makes (chosen_of at.at (judged_of z) (judged_of branches.0) (judged_of branches.1)) (IsChoice z.typed.value branches.0.typed.value branches.1.typed.value) at result }
{
    let (x, y) = branches;
    choice(alloc, at, z, x, y)
}

/// The pointers that a declarator's `*` make.
pub fn starred(
    alloc: Global,
    defs: &StructsView<'_, '_>,
    at: u32,
    n: u64,
    t: Result<CType, Fault>,
) -> Result<CType, Fault>
    ensures { (j : Answer Plain) → Denotes j t → Denotes (j then pointers defs.now at n) result }
{
    match t {
        Ok(t) => pointers(alloc, defs, at, n, t),
        Err(f) => Err(f),
    }
}

/// An array without a bound, which is none here.
pub fn unbounded(at: u32, t: Result<CType, Fault>) -> Result<CType, Fault>
    ensures { result ≡ without_bound at t }
{
    match t {
        Ok(_item) => Err(Fault::Rule { rule: 2, at }),
        Err(f) => Err(f),
    }
}

/// So many items of a type.
pub fn at_bound<'a, 'n>(
    alloc: Global,
    v: &Scope<'a, 'n>,
    at: u32,
    bound_at: u32,
    t: Result<CType, Fault>,
    x: Result<Part, Fault>,
) -> Result<CType, Fault>
    ensures { (j : Answer Plain) (e : Tree) → bound_at ≡ (place_of e).at → Denotes j t → Judges (scope_of v.now) e x → Denotes (one_bound (scope_of v.now) at (Some e) j) result }
{
    match pair(t, x) {
        Ok((t, x)) => bounded(alloc, &v.defs, at, bound_at, t, &x),
        Err(f) => Err(f),
    }
}
