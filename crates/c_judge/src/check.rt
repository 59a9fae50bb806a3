// Checking an expression of a session.
ghost use Rattle.std.specs.Prelude.{◌≡◌, ◌<◌, ◌^◌, length, None, Ok};
ghost use Rattle.c_judge.specs.Session.{session};
ghost use Rattle.c_judge.specs.Judges.{Judges, scope_of};
ghost use Rattle.c_judge.specs.Forms.{unknown};
ghost use Rattle.c_judge.specs.Scope.{Scope as Names};
ghost use Rattle.c_judge.specs.Checks.{Checks, IsOutOfScope, stands};
ghost use Rattle.c_judge.specs.Parts.{operand_of};

use crate::expr::judge;
use crate::fault::{ExprFault, Fault};
use crate::forbidden::forbidden_in;
use crate::names::unknown;
use crate::part::Part;
use crate::rules::{may_drop, type_of};
use crate::scope::Scope;
use crate::session::{number_names, number_tags, session_scope};
use crate::symbol::Symbol;
use crate::types::is_void;
use c_tree::{StructDef, Typed};
use c_trees::expression::Expr;
use ldb_words::Text;
use std::alloc::Global;
use std::collections::BTreeMap;

/// What an expression is checked for.
#[derive(Clone, Copy, Debug, PartialEq, Eq)]
pub enum Mode {
    /// Its value.
    Value,
    /// A plain assignment.
    Assign,
}

/// Whether the value of a whole expression may stand there: no `void` value; and of structs in `Assign` only that of an assignment.
fn stands(mode: Mode, x: &Part) -> bool
    ensures { result ≡ stands mode (operand_of x.now) }
{
    let t = type_of(x);
    match mode {
        Mode::Value => !is_void(t),
        Mode::Assign => !is_void(t) && may_drop(x),
    }
}

/// Checks an expression among these names and structs, of which the first of a name or tag counts. Refuses it where a name is not among them,
/// a typing rule is broken (but not that of calls), or a call, an assignment, `++`, `--` or a string stands in it, in this order;
/// in the mode `Assign` a plain assignment is asked for.
pub fn check_expr<'n>(
    alloc: Global,
    e: &'n Expr,
    names: &'n [Symbol],
    defs: &'n [StructDef],
    mode: Mode,
) -> Result<Typed, ExprFault>
    requires names { length names.now < 2 ^ 32 }
    requires defs { length defs.now < 2 ^ 32 }
    ensures { Checks (session names.now defs.now) mode e.now result }
{
    let numbers = number_names(alloc, names)?;
    let tags = number_tags(alloc, defs)?;
    let literals = BTreeMap::new(alloc);
    let v = session_scope(names, defs, &numbers, &tags, &literals);
    check_in(alloc, &v, e, mode)
}

/// The same in a scope.
pub fn check_in<'a, 'n>(
    alloc: Global,
    v: &Scope<'a, 'n>,
    e: &'n Expr,
    mode: Mode,
) -> Result<Typed, ExprFault>
    ensures { Checks (scope_of v.now) mode e.now result }
{
    match unknown(v, e) {
        Some(name) => Err(out_of_scope(alloc, name)),
        None => in_scope(alloc, v, e, mode),
    }
}

/// A name that is not in scope.
fn out_of_scope(alloc: Global, name: &Text) -> ExprFault
    ensures { IsOutOfScope name.now result }
{
    match Text::from_slice(alloc, name.as_bytes()) {
        Ok(name) => ExprFault::Scope { name },
        Err(_) => ExprFault::NoMemory,
    }
}

/// Checks an expression whose names are in scope.
fn in_scope<'a, 'n>(
    alloc: Global,
    v: &Scope<'a, 'n>,
    e: &'n Expr,
    mode: Mode,
) -> Result<Typed, ExprFault>
    requires { unknown (scope_of v.now) e.now ≡ None }
    ensures { Checks (scope_of v.now) mode e.now result }
{
    match judge(alloc, v, e) {
        Ok(part) => accepted(mode, e, part),
        Err(Fault::Rule { rule, .. }) => Err(ExprFault::Rule { rule }),
        Err(Fault::NoMemory) => Err(ExprFault::NoMemory),
        Err(Fault::Unknown { .. }) => unreachable!(),
    }
}

/// An expression whose parts keep the rules: it stands there as a whole, and has no forbidden form.
fn accepted(mode: Mode, e: &Expr, part: Part) -> Result<Typed, ExprFault>
    ensures { (v : Names) → unknown v e.now ≡ None → Judges v e.now (Ok part) → Checks v mode e.now result }
{
    if !stands(mode, &part) {
        return Err(ExprFault::Rule { rule: 22 });
    }
    match forbidden_in(mode, e) {
        Some(at) => Err(ExprFault::Forbidden { at }),
        None => Ok(Box::into_inner(part.typed)),
    }
}
