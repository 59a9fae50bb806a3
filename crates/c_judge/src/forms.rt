// Forms of expressions beside the operators: which node they make of their parts.
ghost use Rattle.std.specs.Prelude.{◌≡◌, Some, None};
ghost use Rattle.c_typing.specs.Plain.{plain, value_type};
ghost use Rattle.c_tree.specs.Types.{type_of};
ghost use Rattle.c_symbol.specs.declared.symbol.Access.TheVariants as access;
ghost use Rattle.c_judge.specs.Scope.{pointed_number};
ghost use Rattle.c_judge.specs.Judgement.{indexed, stepped, cast_to, sized, chosen_of, member_of};
ghost use Rattle.c_judge.specs.Elaboration.{IsParen, IsIndex, IsMember, IsAfter, IsChoice, IsCast, IsSizeOfType};
ghost use Rattle.c_judge.specs.Answers.{Known};
ghost use Rattle.c_judge.specs.Parts.{judged_of};
ghost use Rattle.c_judge.specs.Judges.{Makes};

use crate::fault::Fault;
use crate::limits::size_within;
use crate::operators::{OBJECT, VALUE, head, part_of, step_of};
use crate::part::{Facts, Part};
use crate::rules::{arrow_type, cast_type, choice_type, dot_type, index_type, step_type, type_of};
use crate::types::{copied, is_complete, target};
use crate::values::{chosen, converted};
use c_defs::StructsView;
use c_lex::Place;
use c_symbol::{Access, Step};
use c_tree::{CType, StructDef, Typed};
use c_typing::Constant;
use std::alloc::Global;

/// `(a)`
#[tactic(auto, using(crate::proofs::Wholly::makes_part))]
pub fn paren(alloc: Global, at: Place, x: Part) -> Result<Part, Fault>
    ensures { Makes (Known (judged_of x)) (IsParen x.typed.value) at result }
{
    let t = copied(type_of(&x))?;
    let facts = x.facts;
    part_of(alloc, Typed::Parens(head(at, t), x.typed), facts)
}

/// `a[b]`
#[tactic(auto, using(crate::proofs::Wholly::makes_part))]
pub fn index(alloc: Global, defs: &[StructDef], at: Place, x: Part, y: Part) -> Result<Part, Fault>
    ensures { Makes (indexed defs.now at.at (judged_of x) (judged_of y)) (IsIndex x.typed.value y.typed.value) at result }
{
    let Some(t) = index_type(defs, &x, &y)? else {
        return Err(Fault::Rule {
            rule: 28,
            at: at.at,
        });
    };
    part_of(alloc, Typed::Index(head(at, t), x.typed, y.typed), OBJECT)
}

/// `a.m`
#[tactic(auto, using(crate::proofs::Wholly::makes_part))]
fn dot<'n>(
    alloc: Global,
    defs: &StructsView<'_, 'n>,
    at: Place,
    name: &'n [u8],
    x: Part,
) -> Result<Part, Fault>
    ensures { Makes (member_of defs.now at.at access.Dot name.now (judged_of x)) (IsMember defs.now access.Dot name.now x.typed.value) at result }
{
    let Some(m) = defs.member_number(type_of(&x), name) else {
        return Err(Fault::Rule {
            rule: 26,
            at: at.at,
        });
    };
    let Some(t) = dot_type(defs.defs(), &x, m)? else {
        return Err(Fault::Rule {
            rule: 26,
            at: at.at,
        });
    };
    part_of(alloc, Typed::Dot(head(at, t), x.typed, m), OBJECT)
}

/// The number of the member with a name, in the struct that a value of this type points to.
fn pointed_number<'n>(defs: &StructsView<'_, 'n>, t: &CType, name: &'n [u8]) -> Option<u32>
    ensures { result ≡ pointed_number defs.now (value_type (plain t.now)) name.now }
{
    match target(t) {
        None => None,
        Some(t) => defs.member_number(t, name),
    }
}

/// `a->m`
#[tactic(auto, using(crate::proofs::Wholly::makes_part))]
fn arrow<'n>(
    alloc: Global,
    defs: &StructsView<'_, 'n>,
    at: Place,
    name: &'n [u8],
    x: Part,
) -> Result<Part, Fault>
    ensures { Makes (member_of defs.now at.at access.Arrow name.now (judged_of x)) (IsMember defs.now access.Arrow name.now x.typed.value) at result }
{
    let Some(m) = pointed_number(defs, type_of(&x), name) else {
        return Err(Fault::Rule {
            rule: 27,
            at: at.at,
        });
    };
    let Some(t) = arrow_type(defs.defs(), &x, m)? else {
        return Err(Fault::Rule {
            rule: 27,
            at: at.at,
        });
    };
    part_of(alloc, Typed::Arrow(head(at, t), x.typed, m), OBJECT)
}

/// `a.m` or `a->m`
pub fn member<'n>(
    alloc: Global,
    defs: &StructsView<'_, 'n>,
    at: Place,
    access: Access,
    name: &'n [u8],
    x: Part,
) -> Result<Part, Fault>
    ensures { Makes (member_of defs.now at.at access name.now (judged_of x)) (IsMember defs.now access name.now x.typed.value) at result }
{
    match access {
        Access::Dot => dot(alloc, defs, at, name, x),
        Access::Arrow => arrow(alloc, defs, at, name, x),
    }
}

/// `a++` or `a--`
#[tactic(auto, using(crate::proofs::Wholly::makes_part))]
pub fn after(
    alloc: Global,
    defs: &[StructDef],
    at: Place,
    step: Step,
    x: Part,
) -> Result<Part, Fault>
    ensures { Makes (stepped defs.now at.at step (judged_of x)) (IsAfter step x.typed.value) at result }
{
    let op = step_of(step);
    let Some(t) = step_type(defs, op, &x)? else {
        return Err(Fault::Rule {
            rule: 37,
            at: at.at,
        });
    };
    part_of(alloc, Typed::After(head(at, t), x.typed, op), VALUE)
}

/// `c ? a : b`
#[tactic(auto, using(crate::proofs::Wholly::makes_part))]
pub fn choice(alloc: Global, at: Place, c: Part, x: Part, y: Part) -> Result<Part, Fault>
    ensures { Makes (chosen_of at.at (judged_of c) (judged_of x) (judged_of y)) (IsChoice c.typed.value x.typed.value y.typed.value) at result }
{
    let Some(t) = choice_type(&c, &x, &y)? else {
        return Err(Fault::Rule {
            rule: 38,
            at: at.at,
        });
    };
    let constant = chosen(c.facts.constant, x.facts.constant, y.facts.constant);
    part_of(
        alloc,
        Typed::Choice(head(at, t), c.typed, x.typed, y.typed),
        Facts {
            lvalue: false,
            register: false,
            string: false,
            constant,
        },
    )
}

/// `(type) a`
#[tactic(auto, using(crate::proofs::Wholly::makes_part))]
pub fn cast(alloc: Global, at: Place, to: CType, x: Part) -> Result<Part, Fault>
    ensures { Makes (cast_to at.at (plain to) (judged_of x)) (IsCast x.typed.value) at result }
{
    let constant = converted(&to, x.facts.constant);
    let Some(t) = cast_type(to, &x) else {
        return Err(Fault::Rule {
            rule: 40,
            at: at.at,
        });
    };
    part_of(
        alloc,
        Typed::Cast(head(at, t), x.typed),
        Facts {
            lvalue: false,
            register: false,
            string: false,
            constant,
        },
    )
}

/// `sizeof (type)`
#[tactic(auto, using(crate::proofs::Wholly::makes_part))]
pub fn size_of_type(alloc: Global, defs: &[StructDef], at: Place, t: CType) -> Result<Part, Fault>
    ensures { Makes (sized defs.now at.at (plain t)) (IsSizeOfType (plain t)) at result }
{
    if !is_complete(defs, &t) {
        return Err(Fault::Rule {
            rule: 40,
            at: at.at,
        });
    }
    let Some(size) = size_within(defs, &t) else {
        return Err(Fault::Rule { rule: 1, at: at.at });
    };
    part_of(
        alloc,
        Typed::SizeOfType(head(at, CType::Unsigned), t),
        Facts {
            lvalue: false,
            register: false,
            string: false,
            constant: Constant::Number(size),
        },
    )
}
