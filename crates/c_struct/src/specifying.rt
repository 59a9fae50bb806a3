// The type that a declaration at file scope begins with, where structs are completed.
ghost use Rattle.std.specs.Prelude.{◌≡◌, List, [], ◌∷◌, ◌++◌, OnOk};
ghost use Rattle.c_trees.specs.declared.declaration.MemberPart.TheVariants.{Opens, Row, Closes};
ghost use Rattle.c_trees.specs.declared.declaration.FileSpec.TheVariants.{Members};
ghost use Rattle.c_lex.specs.declared.token.Place as token;
ghost use Rattle.c_tree.specs.declared.types.StructDef as types;
ghost use Rattle.c_scope.specs.Environment as around;
ghost use Rattle.c_struct.specs.Specifies.{Inside};
ghost use Rattle.c_scope.specs.Here.{environment_of};
ghost use Rattle.c_struct.specs.Nested.{opens_of, AreNamed, Passes};
ghost use Rattle.c_struct.specs.Specified.{Answers, IsSpecified};

use crate::completing::complete;
use crate::members::{OpenStruct, opened};
use crate::struct_members::add_declarators;
use c_judge::Fault;
use c_lex::Place;
use c_scope::{Environment, fault_of, named_type};
use c_tree::{CType, StructDef};
use c_trees::declaration::{Declarator, FileSpec, MemberPart};
use c_trees::expression::Spec;
use ldb_words::Text;
use std::alloc::{AllocError, Global};

/// The structs whose `}` is still to come: the innermost, and those around it, the outermost first.
#[derive(Drop)]
struct Nesting<'a> {
    outer: Vec<OpenStruct<'a>>,
    inner: OpenStruct<'a>,
}

/// Adds a struct at the end.
fn push<'a>(outer: &mut Vec<OpenStruct<'a>>, o: OpenStruct<'a>) -> Result<(), AllocError>
    ensures { OnOk result (outer.new.items ≡ outer.old.items ++ o.entry ∷ []) }
{
    outer.push(o)?;
    Ok(())
}

/// A struct begins inside another.
fn open_inside<'a>(
    alloc: Global,
    n: Nesting<'a>,
    at: Place,
    tag: &'a Text,
) -> Result<Nesting<'a>, Fault>
    requires { AreNamed n }
    ensures { (others : List types.StructDef) (v : around.Environment) → Passes others v (opens_of n.entry) (Opens at tag.now) v result }
{
    let Nesting { mut outer, inner } = n;
    push(&mut outer, inner)?;
    Ok(Nesting {
        outer,
        inner: opened(alloc, at.at, tag),
    })
}

/// Members of a named type.
fn add_row<'a>(
    alloc: Global,
    here: &Environment<'a>,
    n: Nesting<'a>,
    spec: &'a Spec,
    ds: &'a [Declarator],
) -> Result<Nesting<'a>, Fault>
    requires { AreNamed n }
    ensures { (others : List types.StructDef) (at : token.Place) → Passes others (environment_of here.now) (opens_of n.entry) (Row at spec.now ds.now) (environment_of here.now) result }
{
    let Nesting { outer, mut inner } = n;
    let t = named_type(alloc, here, spec);
    match add_declarators(alloc, here, &mut inner, &t, ds) {
        Ok(()) => Ok(Nesting { outer, inner }),
        Err(f) => Err(f),
    }
}

/// The members that have the struct as their type whose `}` stands here.
fn close_inside<'a>(
    alloc: Global,
    others: &[StructDef],
    here: &mut Environment<'a>,
    n: Nesting<'a>,
    ds: &'a [Declarator],
) -> Result<Nesting<'a>, Fault>
    requires { AreNamed n }
    ensures passes { Passes others.now (environment_of here.old) (opens_of n.entry) (Closes ds.now) (environment_of here.new) result }
    ensures table { here.new.table ≡ here.old.table }
    ensures unit { here.new.unit ≡ here.old.unit }
{
    let Nesting { mut outer, inner } = n;
    match outer.pop() {
        None => Err(Fault::Rule { rule: 3, at: 0 }),
        Some(mut next) => match complete(alloc, others, here, inner) {
            Err(why) => Err(fault_of(why)),
            Ok(t) => match add_declarators(alloc, here, &mut next, &t, ds) {
                Ok(()) => Ok(Nesting { outer, inner: next }),
                Err(f) => Err(f),
            },
        },
    }
}

/// One part.
fn pass<'a>(
    alloc: Global,
    others: &[StructDef],
    here: &mut Environment<'a>,
    n: Nesting<'a>,
    part: &'a MemberPart,
) -> Result<Nesting<'a>, Fault>
    requires { AreNamed n }
    ensures passes { Passes others.now (environment_of here.old) (opens_of n.entry) part.now (environment_of here.new) result }
    ensures table { here.new.table ≡ here.old.table }
    ensures unit { here.new.unit ≡ here.old.unit }
{
    match part {
        MemberPart::Opens(at, tag) => open_inside(alloc, n, *at, tag),
        MemberPart::Row(_, spec, ds) => add_row(alloc, here, n, spec, ds.as_slice()),
        MemberPart::Closes(ds) => close_inside(alloc, others, here, n, ds.as_slice()),
    }
}

/// The `}` of the outermost struct, where no other is open.
fn close<'a>(
    alloc: Global,
    others: &[StructDef],
    here: &mut Environment<'a>,
    n: Nesting<'a>,
) -> Result<CType, Fault>
    requires { AreNamed n }
    ensures inside { Answers (Inside others.now (environment_of here.old) (opens_of n.entry) []) result (environment_of here.new) }
    ensures table { here.new.table ≡ here.old.table }
    ensures unit { here.new.unit ≡ here.old.unit }
{
    if !n.outer.is_empty() {
        return Err(Fault::Rule { rule: 3, at: 0 });
    }
    match complete(alloc, others, here, n.inner) {
        Ok(t) => Ok(t),
        Err(why) => Err(fault_of(why)),
    }
}

/// The type of a struct with members, from the parts behind its first `{`.
fn inside<'a>(
    alloc: Global,
    others: &[StructDef],
    here: &mut Environment<'a>,
    n: Nesting<'a>,
    parts: &'a [MemberPart],
) -> Result<CType, Fault>
    requires { AreNamed n }
    ensures inside { Answers (Inside others.now (environment_of here.old) (opens_of n.entry) parts.now) result (environment_of here.new) }
    ensures table { here.new.table ≡ here.old.table }
    ensures unit { here.new.unit ≡ here.old.unit }
{
    let mut n = n;
    for part in parts {
        n = match pass(alloc, others, here, n, part) {
            Ok(n) => n,
            Err(f) => return Err(f),
        };
    }
    close(alloc, others, here, n)
}

/// The type of a struct with members.
fn with_members<'a>(
    alloc: Global,
    others: &[StructDef],
    here: &mut Environment<'a>,
    parts: &'a [MemberPart],
) -> Result<CType, Fault>
    ensures specified { IsSpecified others.now (environment_of here.old) (Members parts.now) result (environment_of here.new) }
    ensures table { here.new.table ≡ here.old.table }
    ensures unit { here.new.unit ≡ here.old.unit }
{
    match parts {
        [] => Err(Fault::Rule { rule: 3, at: 0 }),
        [first, rest @ ..] => match first {
            MemberPart::Opens(at, tag) => {
                let n = Nesting {
                    outer: Vec::new(alloc),
                    inner: opened(alloc, at.at, tag),
                };
                inside(alloc, others, here, n, rest)
            }
            MemberPart::Row(_, _, _) => Err(Fault::Rule { rule: 3, at: 0 }),
            MemberPart::Closes(_) => Err(Fault::Rule { rule: 3, at: 0 }),
        },
    }
}

/// The type that a declaration begins with. A struct with members is completed from here on; `others` are the structs as the files before
/// complete them. Answers the first rule that is broken.
pub fn specified<'a>(
    alloc: Global,
    others: &[StructDef],
    here: &mut Environment<'a>,
    spec: &'a FileSpec,
) -> Result<CType, Fault>
    ensures specified { IsSpecified others.now (environment_of here.old) spec.now result (environment_of here.new) }
    ensures table { here.new.table ≡ here.old.table }
    ensures unit { here.new.unit ≡ here.old.unit }
{
    match spec {
        FileSpec::Named(spec) => Ok(named_type(alloc, here, spec)),
        FileSpec::Members(parts) => with_members(alloc, others, here, parts.as_slice()),
    }
}
