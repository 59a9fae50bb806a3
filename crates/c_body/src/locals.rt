// The declarations of a block: the type of each local, its name and its initializer.
ghost use Rattle.std.specs.Prelude.{◌≡◌, ◌&&◌, ◌++◌, [], ◌∷◌, IfOk, option_map, Some, OnOk, map};
ghost use Rattle.c_trees.specs.Initializers.{Value};
ghost use Rattle.c_typing.specs.Plain.{plain, is_scalar};
ghost use Rattle.c_typing.specs.Expressions.{Object};
ghost use Rattle.c_typing.specs.Rules as rule;
ghost use Rattle.c_judge.specs.Judges.{Denotes};
ghost use Rattle.c_judge.specs.Parts.{judged_of};
ghost use Rattle.c_judge.specs.Places.{place_of};
ghost use Rattle.c_body.specs.Becoming.{IsInitial, AreLocals};
ghost use Rattle.c_body.specs.Calls.{called_initial, called_locals};
ghost use Rattle.c_scope.specs.Here.{environment_of};
ghost use Rattle.c_body.specs.Calls as calls;
ghost use Rattle.c_scope.specs.Declarators as declarators;
ghost use Rattle.c_mentions.specs.Literals as literals;
ghost use Rattle.c_mentions.specs.Literals.{in_part, in_value, in_local, texts};
ghost use Rattle.c_body.specs.Locals.{kept, after_declaration, declaration_found, initialized, initialized_or_not};
ghost use Rattle.c_body.specs.PassingLocals.{with_made, IsLocalType, Declares, PassesLocal};
ghost use Rattle.c_body.specs.Stops.{at_initial, at_locals, stop};
ghost use Rattle.c_body.specs.Walks.{Passes, before_of};
ghost use Rattle.c_body.specs.Walking.{walk_of};
ghost use Rattle.c_mentions.specs.Tags.{now};

use crate::parts::pointed;
use crate::passing::{at_expression, point, push_texts};
use crate::uses::called_in_declarator;
use crate::walk::Walk;
use c_judge::{Fault, Part, converts, copied, is_complete, place_of};
use c_lex::Place;
use c_mentions::in_declarator;
use c_scope::{Environment, Shape, declarator_place, name_in, named_type, shape};
use c_tree::{CType, DeclaredLocal, Pointed};
use c_trees::declaration::{Declarator, Declared, Initial, InitialNode, Local};
use c_trees::expression::{Expr, Spec};
use ldb_words::Text;
use std::alloc::{AllocError, Global};

/// Whether objects of a type are scalars.
fn is_scalar(t: &CType) -> bool
    ensures { result ≡ is_scalar (plain t.now) }
{
    match t {
        CType::Char | CType::Int | CType::Unsigned | CType::Pointer(_) => true,
        CType::Void | CType::Array(_, _) | CType::Struct(_) => false,
    }
}

/// The type of an object that a block declares. Breaks rule 1 where it is not complete, and 8 where it is no scalar and has `register`.
fn kept_object<'a>(
    here: &Environment<'a>,
    register: bool,
    at: u32,
    t: CType,
) -> Result<CType, Fault>
    ensures { Denotes (kept (environment_of here.now) register at (declarators.Object (plain t))) result }
{
    if !is_complete(here.defs.defs(), &t) {
        return Err(Fault::Rule { rule: 1, at });
    }
    if register && !is_scalar(&t) {
        return Err(Fault::Rule { rule: 8, at });
    }
    Ok(t)
}

/// The type of a declared local, which is an object.
fn local_type<'a>(
    alloc: Global,
    here: &Environment<'a>,
    register: bool,
    spec: &'a Spec,
    d: &'a Declared,
) -> Result<CType, Fault>
    ensures { IsLocalType register spec.now (environment_of here.now) d.now result }
{
    let at = declarator_place(&d.declarator).at;
    let t = named_type(alloc, here, spec);
    match shape(alloc, here, &d.declarator, t) {
        Ok(Shape::Object(t)) => kept_object(here, register, at, t),
        Ok(Shape::Function(_, _)) => Err(Fault::Rule { rule: 9, at }),
        Err(Fault::Rule { rule, at }) => Err(Fault::Rule { rule, at }),
        // No name is unknown in a declarator: an expression there is a constant, or breaks rule 2.
        Err(Fault::Unknown { .. } | Fault::NoMemory) => Err(Fault::NoMemory),
    }
}

/// The literals of a declarator are behind those of a walk.
fn at_declarator<'a>(
    alloc: Global,
    strings: &mut Vec<&'a Text>,
    d: &'a Declarator,
) -> Result<(), AllocError>
    ensures { OnOk result (map now strings.new.items ≡ map now strings.old.items ++ texts (literals.in_declarator d.now)) }
{
    let mut found = Vec::new(alloc);
    in_declarator(&mut found, d)?;
    push_texts(strings, &found)
}

/// A local is declared. Breaks rule 5 where the block has one of its name.
fn declare<'a>(
    alloc: Global,
    here: &mut Environment<'a>,
    name: &'a Text,
    at: u32,
    t: &CType,
    register: bool,
) -> Result<(), Fault>
    ensures here { Declares (environment_of here.old) name.now at (Object (plain t.now) register) result (environment_of here.new) }
    ensures start { here.new.table.start ≡ here.old.table.start }
{
    if here.is_here(name) {
        return Err(Fault::Rule { rule: 5, at });
    }
    here.declare_local(alloc, name, copied(t)?, register)?;
    Ok(())
}

/// Whether an expression may initialize a local of this type, which is a scalar.
fn initializes(t: &CType, part: &Part) -> bool
    ensures { result ≡ (is_scalar (plain t.now) && rule.converts (plain t.now) (judged_of part.now).operand) }
{
    is_scalar(t) && converts(t, part)
}

/// An expression that does not initialize the local that it stands behind.
fn no_initializer(e: &Expr) -> Fault
    ensures { result ≡ Fault.Rule 14 (place_of e.now).at }
{
    Fault::Rule {
        rule: 14,
        at: place_of(e).at,
    }
}

/// An initializer that is an expression, at the point of its declarator.
fn at_value<'a>(
    alloc: Global,
    walk: &mut Walk<'a>,
    t: &CType,
    at: Place,
    e: &'a Expr,
) -> Result<Option<Option<Pointed>>, Fault>
    ensures found { Passes (walk_of walk.old) (initialized (environment_of walk.old.here) (plain t.now) (Value e.now)) (environment_of walk.old.here) (stop (environment_of walk.old.here) at ∷ []) (literals.in_tree e.now) (calls.called (environment_of walk.old.here) e.now) (IsInitial (environment_of walk.old.here) (before_of (walk_of walk.old)) (Some (Value e.now))) result (walk_of walk.new) }
    ensures here { walk.new.here ≡ walk.old.here }
{
    let point = point(walk, at)?;
    match at_expression(alloc, walk, e) {
        Ok(Some(part)) => {
            if initializes(t, &part) {
                Ok(Some(Some(pointed(point, part))))
            } else {
                Err(no_initializer(e))
            }
        }
        Ok(None) => {
            if is_scalar(t) {
                Ok(None)
            } else {
                Err(no_initializer(e))
            }
        }
        Err(f) => Err(f),
    }
}

/// The initializer of a local of this type.
#[tactic(auto, using(crate::proofs::PassedLocals::braces_break))]
fn at_initial<'a>(
    alloc: Global,
    walk: &mut Walk<'a>,
    t: &CType,
    at: Place,
    i: &'a Initial,
) -> Result<Option<Option<Pointed>>, Fault>
    ensures found { Passes (walk_of walk.old) (initialized (environment_of walk.old.here) (plain t.now) i.now) (environment_of walk.old.here) (stop (environment_of walk.old.here) at ∷ []) (in_value i.now) (called_initial (environment_of walk.old.here) (Some i.now)) (IsInitial (environment_of walk.old.here) (before_of (walk_of walk.old)) (Some i.now)) result (walk_of walk.new) }
    ensures here { walk.new.here ≡ walk.old.here }
{
    match &i.node {
        InitialNode::Value(e) => at_value(alloc, walk, t, at, e),
        InitialNode::Braces(at, _) => Err(Fault::Rule {
            rule: 14,
            at: at.at,
        }),
    }
}

/// The initializer of a local, where it has one.
fn at_initial_or_none<'a>(
    alloc: Global,
    walk: &mut Walk<'a>,
    t: &CType,
    d: &'a Declared,
) -> Result<Option<Option<Pointed>>, Fault>
    ensures found { Passes (walk_of walk.old) (initialized_or_not (environment_of walk.old.here) (plain t.now) d.now.initial) (environment_of walk.old.here) (at_initial (environment_of walk.old.here) d.now d.now.initial) (in_part in_value d.now.initial) (called_initial (environment_of walk.old.here) d.now.initial) (IsInitial (environment_of walk.old.here) (before_of (walk_of walk.old)) d.now.initial) result (walk_of walk.new) }
    ensures here { walk.new.here ≡ walk.old.here }
{
    match &d.initial {
        None => Ok(Some(None)),
        Some(i) => at_initial(alloc, walk, t, declarator_place(&d.declarator), i),
    }
}

/// A declared local: its name is in scope from its declarator on, in its initializer too.
fn at_local<'a>(
    alloc: Global,
    walk: &mut Walk<'a>,
    register: bool,
    spec: &'a Spec,
    d: &'a Declared,
) -> Result<Option<DeclaredLocal>, Fault>
    ensures found { PassesLocal register spec.now (walk_of walk.old) d.now result (walk_of walk.new) }
    ensures start { walk.new.here.table.start ≡ walk.old.here.table.start }
{
    at_declarator(alloc, &mut walk.strings, &d.declarator)?;
    called_in_declarator(&mut walk.calls, &walk.here, &d.declarator)?;
    let t = match local_type(alloc, &walk.here, register, spec, d) {
        Ok(t) => t,
        Err(f) => return Err(f),
    };
    let local = walk.here.locals;
    let name = name_in(&d.declarator);
    let at = declarator_place(&d.declarator).at;
    match declare(alloc, &mut walk.here, name, at, &t, register) {
        Ok(()) => {}
        Err(f) => return Err(f),
    }
    match at_initial_or_none(alloc, walk, &t, d) {
        Ok(Some(init)) => Ok(Some(DeclaredLocal { local, init })),
        Ok(None) => Ok(None),
        Err(f) => Err(f),
    }
}

/// One local more, where all of them are there.
fn with_one(
    made: Option<Vec<DeclaredLocal>>,
    one: Option<DeclaredLocal>,
) -> Result<Option<Vec<DeclaredLocal>>, AllocError>
    ensures { IfOk result (λ r. option_map (λ v. v.items) r ≡ with_made (option_map (λ v. v.items) made) one) }
{
    match made {
        None => Ok(None),
        Some(made) => match one {
            None => Ok(None),
            Some(one) => Ok(Some(with_last(made, one)?)),
        },
    }
}

/// One local more at the end.
fn with_last(
    mut made: Vec<DeclaredLocal>,
    one: DeclaredLocal,
) -> Result<Vec<DeclaredLocal>, AllocError>
    ensures { IfOk result (λ r. r.items ≡ made.items ++ one ∷ []) }
{
    made.push(one)?;
    Ok(made)
}

/// A declaration in a block.
pub fn at_locals<'a>(
    alloc: Global,
    walk: &mut Walk<'a>,
    local: &'a Local,
) -> Result<Option<Vec<DeclaredLocal>>, Fault>
    ensures passes { Passes (walk_of walk.old) (declaration_found (environment_of walk.old.here) local.now) (after_declaration (environment_of walk.old.here) local.now) (at_locals local.now (environment_of walk.old.here) local.now.names) (in_local local.now) (called_locals local.now (environment_of walk.old.here) local.now.names) (λ zs. AreLocals local.now (environment_of walk.old.here) (before_of (walk_of walk.old)) local.now.names zs.items) result (walk_of walk.new) }
    ensures start { walk.new.here.table.start ≡ walk.old.here.table.start }
{
    let mut made = Some(Vec::new(alloc));
    for name in local.names.as_slice() {
        let one = match at_local(alloc, walk, local.register, &local.spec, name) {
            Ok(one) => one,
            Err(f) => return Err(f),
        };
        made = with_one(made, one)?;
    }
    Ok(made)
}
