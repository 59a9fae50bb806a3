// The walk through the initializer of a static object (C90 6.5.7). It goes as deep as the initializer is nested.
ghost use Rattle.std.specs.Prelude.{◌≡◌, ◌+◌, length, option_map};
ghost use Rattle.c_trees.specs.Initializers.{Value, Braces, with_items};
ghost use Rattle.c_typing.specs.Plain.{plain};
ghost use Rattle.c_scope.specs.Spelling.{initial_at};
ghost use Rattle.c_initial.specs.Initials.{part_of, initial_found, late_in};
ghost use Rattle.c_initial.specs.Begins.{items_begin, begins_of, strings_of};
ghost use Rattle.c_initial.specs.Starts.{given_of, Adds, part_found, part_begins, part_strings};
ghost use Rattle.c_scope.specs.Environment as around;
ghost use Rattle.c_scope.specs.Here.{environment_of};

use crate::initials::{is_aggregate, rule_of};
use crate::starts::Initialized;
use crate::values::add_value;
use crate::zeros::add_rest;
use c_judge::place_of;
use c_lex::Place;
use c_scope::{Environment, Refusal};
use c_tree::{CType, StructDef, members};
use c_trees::declaration::{Initial, InitialNode};
use std::alloc::Global;

/// The offset where an initializer begins.
#[tactic(auto, using(crate::proofs::Braced::braces_at))]
fn initial_at(i: &Initial) -> u32
    ensures { result ≡ initial_at i.now }
{
    match &i.node {
        InitialNode::Value(e) => place_of(e).at,
        InitialNode::Braces(at, _) => at.at,
    }
}

/// The type of a part of an aggregate by its number.
fn part_of<'b>(defs: &'b [StructDef], t: &'b CType, k: usize) -> Option<&'b CType>
    ensures { (v : around.Environment) → v.defs ≡ defs.now → option_map (λ u. plain u.now) result ≡ part_of v (plain t.now) k }
{
    match t {
        CType::Array(item, n) => if k < *n as usize { Some(item) } else { None },
        CType::Struct(s) => match members(defs, *s).get(k) {
            None => None,
            Some(member) => Some(&member.ctype),
        },
        CType::Char | CType::Int | CType::Unsigned | CType::Void | CType::Pointer(_) => None,
    }
}

/// Adds what the initializer of an object of a type gives.
#[cycle(starting)]
#[tactic(auto, using(c_mentions::proofs::Measures::depth_braces))]
pub fn add_initial<'a>(
    alloc: Global,
    here: &Environment<'a>,
    first: u32,
    out: &mut Initialized<'a>,
    t: &CType,
    i: &'a Initial,
) -> Result<(), Refusal>
    ensures { Adds (initial_found (environment_of here.now) (plain t.now) i.now) (given_of out.old) (begins_of (environment_of here.now) (first + length (given_of out.old).strings) (plain t.now) i.now) (strings_of (environment_of here.now) (plain t.now) i.now) (late_in (environment_of here.now) i.now) (given_of out.new) result }
{
    match &i.node {
        InitialNode::Value(e) => add_value(alloc, here, first, out, t, e),
        InitialNode::Braces(at, items) => add_list(alloc, here, first, out, t, *at, items),
    }
}

/// Adds what a list in braces gives.
#[cycle(starting)]
fn add_list<'a>(
    alloc: Global,
    here: &Environment<'a>,
    first: u32,
    out: &mut Initialized<'a>,
    t: &CType,
    at: Place,
    items: &'a [Initial],
) -> Result<(), Refusal>
    ensures { Adds (initial_found (environment_of here.now) (plain t.now) (with_items (Braces at) items.now)) (given_of out.old) (begins_of (environment_of here.now) (first + length (given_of out.old).strings) (plain t.now) (with_items (Braces at) items.now)) (strings_of (environment_of here.now) (plain t.now) (with_items (Braces at) items.now)) (late_in (environment_of here.now) (with_items (Braces at) items.now)) (given_of out.new) result }
{
    match add_items(alloc, here, first, out, t, at, items) {
        Err(why) => Err(why),
        Ok(()) => {
            add_rest(&here.defs.view(), &mut out.begins, t, items.len())?;
            Ok(())
        }
    }
}

/// Adds what the items of a list in braces give.
#[cycle(starting)]
#[tactic(auto, using(c_mentions::proofs::Measures::item_at))]
fn add_items<'a>(
    alloc: Global,
    here: &Environment<'a>,
    first: u32,
    out: &mut Initialized<'a>,
    t: &CType,
    at: Place,
    items: &'a [Initial],
) -> Result<(), Refusal>
    ensures { Adds (initial_found (environment_of here.now) (plain t.now) (with_items (Braces at) items.now)) (given_of out.old) (items_begin (environment_of here.now) (first + length (given_of out.old).strings) (plain t.now) (with_items (Braces at) items.now)) (strings_of (environment_of here.now) (plain t.now) (with_items (Braces at) items.now)) (late_in (environment_of here.now) (with_items (Braces at) items.now)) (given_of out.new) result }
{
    if !is_aggregate(t) {
        return Err(Refusal::Rule {
            rule: rule_of(t),
            at: at.at,
        });
    }
    for (k, item) in items.iter().enumerate() {
        match add_item(alloc, here, first, out, t, k, item) {
            Ok(()) => {}
            Err(why) => return Err(why),
        }
    }
    Ok(())
}

/// Adds what an item gives that so many stand before.
#[cycle(starting)]
fn add_item<'a>(
    alloc: Global,
    here: &Environment<'a>,
    first: u32,
    out: &mut Initialized<'a>,
    t: &CType,
    k: usize,
    item: &'a Initial,
) -> Result<(), Refusal>
    ensures { Adds (part_found (environment_of here.now) (plain t.now) (part_of (environment_of here.now) (plain t.now) k) item.now) (given_of out.old) (part_begins (environment_of here.now) (first + length (given_of out.old).strings) (part_of (environment_of here.now) (plain t.now) k) item.now) (part_strings (environment_of here.now) (part_of (environment_of here.now) (plain t.now) k) item.now) (late_in (environment_of here.now) item.now) (given_of out.new) result }
{
    match part_of(here.defs.defs(), &*t, k) {
        None => Err(Refusal::Rule {
            rule: rule_of(t),
            at: initial_at(item),
        }),
        Some(u) => add_initial(alloc, here, first, out, u, item),
    }
}
