// What stands before the statement of a loop, a `switch` or a label.
ghost use Rattle.std.specs.Prelude.{[], ◌≡◌, option_map};
ghost use Rattle.c_typing.specs.Plain.{Plain};
ghost use Rattle.c_trees.specs.Statements.{StatementTree};
ghost use Rattle.c_trees.specs.declared.statement.Head.TheVariants as head;
ghost use Rattle.c_judge.specs.Elaboration.{site_of};
ghost use Rattle.c_body.specs.declared.heads.CheckedHead.TheVariants as checked;
ghost use Rattle.c_body.specs.Bodies.{Around as Surroundings, differ, is_plain_block, labels_in, statement_at};
ghost use Rattle.c_scope.specs.Findings.{◌beside◌, holds};
ghost use Rattle.c_scope.specs.Here.{environment_of};
ghost use Rattle.c_body.specs.PassingParts.{Checks};
ghost use Rattle.c_body.specs.Heads.{around_of, PassesHead};
ghost use Rattle.c_body.specs.Walks.{Walked};
ghost use Rattle.c_body.specs.Walking.{walk_of};

use crate::around::{Around, placed};
use crate::blocks::{is_plain_block, statement_at};
use crate::making::{kept, site_of, with_next};
use crate::parts::{at_label, at_part_stop, at_stop, labels_differ};
use crate::walk::{Asking, Walk};
use c_judge::Fault;
use c_lex::Place;
use c_scope::Environment;
use c_tree::{Pointed, Site};
use c_trees::expression::Expr;
use c_trees::statement::Statement;
use std::alloc::Global;

/// What stands before the statement of a loop, a `switch` or a label, once it is checked.
#[derive(Drop)]
pub enum CheckedHead {
    While(Site, Pointed),
    For(Site, Option<Pointed>, Option<Pointed>, Option<Pointed>),
    Switch(Site, Pointed),
    Case(Site, u32),
    Default(Site),
}

/// `while (e)`
pub fn at_while<'a>(
    alloc: Global,
    walk: &mut Walk<'a>,
    at: Place,
    e: &'a Expr,
) -> Result<Option<CheckedHead>, Fault>
    ensures passes { (t : Plain) (a : Surroundings) (s : StatementTree) → PassesHead t a (head.While at e.now) s (walk_of walk.old) result (walk_of walk.new) }
    ensures start { walk.new.here.table.start ≡ walk.old.here.table.start }
{
    match at_stop(alloc, walk, Asking::Tested, e) {
        Ok(q) => Ok(checked_while(at, q)),
        Err(f) => Err(f),
    }
}

/// The head of a `while`, where its expression is there.
fn checked_while(at: Place, q: Option<Pointed>) -> Option<CheckedHead>
    ensures { result ≡ option_map (λ q. checked.While (site_of at) q) q }
{
    match q {
        None => None,
        Some(q) => Some(CheckedHead::While(site_of(at), q)),
    }
}

/// `for (i; e; k)`
pub fn at_for<'a>(
    alloc: Global,
    walk: &mut Walk<'a>,
    at: Place,
    i: &'a Option<Expr>,
    e: &'a Option<Expr>,
    k: &'a Option<Expr>,
) -> Result<Option<CheckedHead>, Fault>
    ensures passes { (t : Plain) (a : Surroundings) (s : StatementTree) → PassesHead t a (head.For at i.now e.now k.now) s (walk_of walk.old) result (walk_of walk.new) }
    ensures start { walk.new.here.table.start ≡ walk.old.here.table.start }
{
    let x = match at_part_stop(alloc, walk, Asking::Dropped, i) {
        Ok(x) => x,
        Err(f) => return Err(f),
    };
    let y = at_part_stop(alloc, walk, Asking::Tested, e);
    let parts = match with_next(x, y) {
        Ok(parts) => parts,
        Err(f) => return Err(f),
    };
    let z = at_part_stop(alloc, walk, Asking::Dropped, k);
    match with_next(parts, z) {
        Ok(parts) => Ok(checked_for(at, parts)),
        Err(f) => Err(f),
    }
}

/// The parts of a `for` that are there.
type ForParts = ((Option<Pointed>, Option<Pointed>), Option<Pointed>);

/// The head of a `for`, where its parts are there.
fn checked_for(at: Place, parts: Option<ForParts>) -> Option<CheckedHead>
    ensures { result ≡ option_map (λ p. checked.For (site_of at) p.0.0 p.0.1 p.1) parts }
{
    match parts {
        None => None,
        Some(((x, y), z)) => Some(CheckedHead::For(site_of(at), x, y, z)),
    }
}

/// `switch (e)`, before this statement.
pub fn at_switch<'a>(
    alloc: Global,
    walk: &mut Walk<'a>,
    at: Place,
    e: &'a Expr,
    s: &'a Statement,
) -> Result<Option<CheckedHead>, Fault>
    ensures passes { (t : Plain) (a : Surroundings) → PassesHead t a (head.Switch at e.now) s.now (walk_of walk.old) result (walk_of walk.new) }
    ensures start { walk.new.here.table.start ≡ walk.old.here.table.start }
{
    let q = match at_stop(alloc, walk, Asking::Selected, e) {
        Ok(q) => q,
        Err(f) => return Err(f),
    };
    match kept(q, is_switch_body(alloc, &walk.here, s)) {
        Ok(q) => Ok(checked_switch(at, q)),
        Err(f) => Err(f),
    }
}

/// What a `switch` asks of its body: a block without declarations, whose labels differ.
fn is_switch_body<'a>(alloc: Global, here: &Environment<'a>, s: &'a Statement) -> Result<(), Fault>
    ensures { Checks (holds (is_plain_block s.now) 18 (statement_at s.now) beside differ [] (labels_in (environment_of here.now) s.now)) result }
{
    if !is_plain_block(s) {
        return Err(Fault::Rule {
            rule: 18,
            at: statement_at(s),
        });
    }
    labels_differ(alloc, here, s)
}

/// The head of a `switch`, where its expression is there.
fn checked_switch(at: Place, q: Option<Pointed>) -> Option<CheckedHead>
    ensures { result ≡ option_map (λ q. checked.Switch (site_of at) q) q }
{
    match q {
        None => None,
        Some(q) => Some(CheckedHead::Switch(site_of(at), q)),
    }
}

/// `case e:`
pub fn at_case<'a>(
    alloc: Global,
    walk: &mut Walk<'a>,
    around: Around,
    at: Place,
    e: &'a Expr,
) -> Result<Option<CheckedHead>, Fault>
    ensures passes { (t : Plain) (s : StatementTree) → PassesHead t (around_of around) (head.Case at e.now) s (walk_of walk.old) result (walk_of walk.new) }
    ensures start { walk.new.here.table.start ≡ walk.old.here.table.start }
{
    match placed(around, at.at) {
        Ok(()) => {}
        Err(f) => return Err(f),
    }
    match at_label(alloc, walk, e) {
        Ok(n) => Ok(checked_case(at, n)),
        Err(f) => Err(f),
    }
}

/// The head of a `case`, where its value is there.
fn checked_case(at: Place, n: Option<u32>) -> Option<CheckedHead>
    ensures { result ≡ option_map (λ n. checked.Case (site_of at) n) n }
{
    match n {
        None => None,
        Some(n) => Some(CheckedHead::Case(site_of(at), n)),
    }
}

/// `default:`
pub fn at_default(around: Around, at: Place) -> Result<Option<CheckedHead>, Fault>
    ensures { (t : Plain) (s : StatementTree) (w : Walked) → PassesHead t (around_of around) (head.Default at) s w result w }
{
    match placed(around, at.at) {
        Ok(()) => Ok(Some(CheckedHead::Default(site_of(at)))),
        Err(f) => Err(f),
    }
}
