// Values of constant expressions among what is declared.
ghost use Rattle.std.specs.Prelude.{◌≡◌, IfOk};
ghost use Rattle.c_judge.specs.Judgement.{judged};
ghost use Rattle.c_judge.specs.Parts.{judged_of};
ghost use Rattle.c_judge.specs.Answers.{Known};
ghost use Rattle.c_scope.specs.Environment.{scope_of};
ghost use Rattle.c_scope.specs.Declarators.{constant};
ghost use Rattle.c_initial.specs.Initials.{number, number_in};
ghost use Rattle.c_scope.specs.Refused.{Tells};
ghost use Rattle.c_scope.specs.Here.{environment_of};

use c_judge::{Constant, Fault, Part};
use c_scope::{Environment, Refusal, judged_in};
use c_trees::expression::Expr;
use std::alloc::{AllocError, Global};

/// What a part is as a constant expression.
fn constant_of(x: Part) -> Constant
    ensures { result ≡ (judged_of x).constant }
{
    x.facts.constant
}

/// What an expression is as a constant expression. One in which a name is not declared has no value.
pub fn constant_in<'a>(
    alloc: Global,
    here: &Environment<'a>,
    e: &'a Expr,
) -> Result<Constant, Refusal>
    ensures { Tells (constant (judged (scope_of (environment_of here.now)) e.now)) result }
{
    match judged_in(alloc, here, e) {
        Ok(x) => Ok(constant_of(x)),
        Err(Fault::Unknown { .. }) => Ok(Constant::Undefined),
        Err(Fault::Rule { rule, at }) => Err(Refusal::Rule { rule, at }),
        Err(Fault::NoMemory) => Err(Refusal::NoMemory),
    }
}

/// The number that a constant is.
pub fn number_in(c: Constant) -> Option<u32>
    ensures { result ≡ number_in (Known c) }
{
    match c {
        Constant::Number(n) => Some(n),
        Constant::Variable | Constant::Undefined => None,
    }
}

/// The value of a constant expression; none of one that is refused.
pub fn number<'a>(
    alloc: Global,
    here: &Environment<'a>,
    e: &'a Expr,
) -> Result<Option<u32>, AllocError>
    ensures { IfOk result (λ n. n ≡ number (environment_of here.now) e.now) }
{
    match constant_in(alloc, here, e) {
        Ok(c) => Ok(number_in(c)),
        Err(Refusal::Rule { .. }) => Ok(None),
        Err(Refusal::NoMemory) => Err(AllocError),
    }
}
