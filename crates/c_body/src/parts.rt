// The parts of statements: expressions at stopping points, labels and declarations.
ghost use Rattle.std.specs.Prelude.{[], ◌∷◌, ◌≡◌};
ghost use Rattle.c_typing.specs.Plain.{plain};
ghost use Rattle.c_judge.specs.Judges.{Gives};
ghost use Rattle.c_judge.specs.Elaboration.{site_of};
ghost use Rattle.c_judge.specs.Parts.{judged_of};
ghost use Rattle.c_scope.specs.Findings.{fine};
ghost use Rattle.c_trees.specs.Statements as tree;
ghost use Rattle.c_scope.specs.Here.{environment_of};
ghost use Rattle.c_mentions.specs.Literals.{in_tree, in_part};
ghost use Rattle.c_body.specs.Bodies.{part, returned, start_of, label_found, labels_in, differ};
ghost use Rattle.c_body.specs.Calls.{called, called_part};
ghost use Rattle.c_body.specs.Stops.{at_expression, at_part, stop};
ghost use Rattle.c_body.specs.Becoming.{IsStop, IsStopOrNone, IsLabel, Becomes};
ghost use Rattle.c_body.specs.Walks.{Passes, before_of, answered};
ghost use Rattle.c_body.specs.Passing.{answers, rule_of};
ghost use Rattle.c_body.specs.Walking.{walk_of};

use crate::labels::{differ, label_value, labels_in};
use crate::passing::{at_expression, gathered, point};
use crate::walk::{Asking, Walk};
use c_judge::{Fault, Part, converts, is_integer, is_scalar, is_void, may_drop, place_of, type_of};
use c_lex::Place;
use c_scope::Environment;
use c_tree::{CType, Pointed, Site, Stmt};
use c_trees::expression::Expr;
use c_trees::statement::Statement;
use std::alloc::Global;

/// Whether an expression is what it is asked.
fn answers(asking: Asking, part: &Part) -> bool
    ensures { result ≡ answers asking (judged_of part.now) }
{
    match asking {
        Asking::Tested => is_scalar(type_of(part)),
        Asking::Selected => is_integer(type_of(part)),
        Asking::Dropped => may_drop(part),
    }
}

/// The rule that an expression breaks which is not what it is asked.
fn rule_of(asking: Asking) -> u8
    ensures { result ≡ rule_of asking }
{
    match asking {
        Asking::Tested => 16,
        Asking::Selected => 17,
        Asking::Dropped => 22,
    }
}

/// An expression at a stopping point.
pub fn at_stop<'a>(
    alloc: Global,
    walk: &mut Walk<'a>,
    asking: Asking,
    e: &'a Expr,
) -> Result<Option<Pointed>, Fault>
    ensures passes { Passes (walk_of walk.old) (answered asking (environment_of walk.old.here) e.now) (environment_of walk.old.here) (at_expression (environment_of walk.old.here) e.now) (in_tree e.now) (called (environment_of walk.old.here) e.now) (IsStop (environment_of walk.old.here) (before_of (walk_of walk.old)) e.now) result (walk_of walk.new) }
    ensures start { walk.new.here.table.start ≡ walk.old.here.table.start }
{
    let at = place_of(e);
    let point = point(walk, at)?;
    match at_expression(alloc, walk, e) {
        Ok(Some(part)) => {
            if answers(asking, &part) {
                Ok(Some(pointed(point, part)))
            } else {
                Err(Fault::Rule {
                    rule: rule_of(asking),
                    at: at.at,
                })
            }
        }
        Ok(None) => Ok(None),
        Err(f) => Err(f),
    }
}

/// A part at a stopping point.
pub fn pointed(point: u32, part: Part) -> Pointed
    ensures { result ≡ record { point = point; e = part.typed.value } }
{
    Pointed {
        point,
        e: Box::into_inner(part.typed),
    }
}

/// One that may be missing.
pub fn at_part_stop<'a>(
    alloc: Global,
    walk: &mut Walk<'a>,
    asking: Asking,
    e: &'a Option<Expr>,
) -> Result<Option<Option<Pointed>>, Fault>
    ensures passes { Passes (walk_of walk.old) (part (answered asking) (environment_of walk.old.here) e.now) (environment_of walk.old.here) (at_part (environment_of walk.old.here) e.now) (in_part in_tree e.now) (called_part (environment_of walk.old.here) e.now) (IsStopOrNone (environment_of walk.old.here) (before_of (walk_of walk.old)) e.now) result (walk_of walk.new) }
    ensures start { walk.new.here.table.start ≡ walk.old.here.table.start }
{
    match e {
        None => Ok(Some(None)),
        Some(e) => match at_stop(alloc, walk, asking, e) {
            Ok(Some(stop)) => Ok(Some(Some(stop))),
            Ok(None) => Ok(None),
            Err(f) => Err(f),
        },
    }
}

/// `return`, from a function with this result.
pub fn at_return<'a>(
    alloc: Global,
    walk: &mut Walk<'a>,
    to: &CType,
    at: Place,
    e: &'a Option<Expr>,
) -> Result<Option<Stmt>, Fault>
    ensures passes { Passes (walk_of walk.old) (returned (environment_of walk.old.here) (plain to.now) at.at e.now) (environment_of walk.old.here) (stop (environment_of walk.old.here) at ∷ []) (in_part in_tree e.now) (called_part (environment_of walk.old.here) e.now) (Becomes (environment_of walk.old.here) (before_of (walk_of walk.old)) (tree.Return at e.now)) result (walk_of walk.new) }
    ensures start { walk.new.here.table.start ≡ walk.old.here.table.start }
{
    match e {
        None => return_nothing(walk, to, at),
        Some(e) => return_value(alloc, walk, to, at, e),
    }
}

/// `return;`
fn return_nothing<'a>(walk: &mut Walk<'a>, to: &CType, at: Place) -> Result<Option<Stmt>, Fault>
    ensures passes { Passes (walk_of walk.old) (returned (environment_of walk.old.here) (plain to.now) at.at None) (environment_of walk.old.here) (stop (environment_of walk.old.here) at ∷ []) [] [] (Becomes (environment_of walk.old.here) (before_of (walk_of walk.old)) (tree.Return at None)) result (walk_of walk.new) }
    ensures start { walk.new.here.table.start ≡ walk.old.here.table.start }
{
    let point = point(walk, at)?;
    if is_void(to) {
        Ok(Some(Stmt::Return(site(at), point, None)))
    } else {
        Err(Fault::Rule {
            rule: 20,
            at: at.at,
        })
    }
}

/// An expression that is no result of the function that it stands in.
fn no_result(e: &Expr) -> Fault
    ensures { result ≡ Fault.Rule 20 (start_of e.now) }
{
    Fault::Rule {
        rule: 20,
        at: place_of(e).at,
    }
}

/// `return e;`
fn return_value<'a>(
    alloc: Global,
    walk: &mut Walk<'a>,
    to: &CType,
    at: Place,
    e: &'a Expr,
) -> Result<Option<Stmt>, Fault>
    ensures passes { Passes (walk_of walk.old) (returned (environment_of walk.old.here) (plain to.now) at.at (Some e.now)) (environment_of walk.old.here) (stop (environment_of walk.old.here) at ∷ []) (in_tree e.now) (called (environment_of walk.old.here) e.now) (Becomes (environment_of walk.old.here) (before_of (walk_of walk.old)) (tree.Return at (Some e.now))) result (walk_of walk.new) }
    ensures start { walk.new.here.table.start ≡ walk.old.here.table.start }
{
    let point = point(walk, at)?;
    match at_expression(alloc, walk, e) {
        Ok(Some(part)) => {
            if converts(to, &part) {
                Ok(Some(returning(at, point, part)))
            } else {
                Err(no_result(e))
            }
        }
        Ok(None) => {
            if is_void(to) {
                Err(no_result(e))
            } else {
                Ok(None)
            }
        }
        Err(f) => Err(f),
    }
}

/// Where a statement begins.
fn site(at: Place) -> Site
    ensures { result ≡ site_of at }
{
    Site {
        at: at.at,
        line: at.line,
        column: at.column,
    }
}

/// `return` of a value, at its point.
fn returning(at: Place, point: u32, part: Part) -> Stmt
    ensures { result ≡ Stmt.Return (site_of at) point (Some part.typed.value) }
{
    Stmt::Return(site(at), point, Some(Box::into_inner(part.typed)))
}

/// The value of a label.
pub fn at_label<'a>(alloc: Global, walk: &mut Walk<'a>, e: &'a Expr) -> Result<Option<u32>, Fault>
    ensures passes { Passes (walk_of walk.old) (label_found (environment_of walk.old.here) e.now) (environment_of walk.old.here) [] (in_tree e.now) (called (environment_of walk.old.here) e.now) (IsLabel (environment_of walk.old.here) e.now) result (walk_of walk.new) }
    ensures start { walk.new.here.table.start ≡ walk.old.here.table.start }
{
    gathered(alloc, walk, e)?;
    match label_value(alloc, &walk.here, e) {
        Ok(n) => Ok(Some(n)),
        Err(f) => Err(f),
    }
}

/// The labels of a `switch` with this body differ.
pub fn labels_differ<'a>(
    alloc: Global,
    here: &Environment<'a>,
    body: &'a Statement,
) -> Result<(), Fault>
    ensures { Gives (λ _. fine) (differ [] (labels_in (environment_of here.now) body.now)) result }
{
    let labels = labels_in(alloc, here, body)?;
    differ(alloc, &labels)
}
