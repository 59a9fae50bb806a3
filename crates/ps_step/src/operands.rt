//! The topmost operands.

ghost use Rattle.std.specs.Prelude.{◌≡◌, ◌≤◌, OnOk, length};
ghost use Rattle.ps_step.specs.Operands.{one_of, pair_of, triple_of, quadruple_of};

use crate::fault::PsError;
use crate::stack::Stack;
use ps_store::PsObj;

/// The topmost operand.
pub fn one_of(operands: &Stack<PsObj>) -> Result<PsObj, PsError>
    ensures value { result ≡ one_of operands.now }
    ensures enough { OnOk result (1 ≤ length operands.now) }
{
    match operands.get(0) {
        Some(a) => Ok(a),
        None => Err(PsError::StackUnderflow),
    }
}

/// The two topmost operands, the lower one first.
pub fn pair_of(operands: &Stack<PsObj>) -> Result<(PsObj, PsObj), PsError>
    ensures value { result ≡ pair_of operands.now }
    ensures enough { OnOk result (2 ≤ length operands.now) }
{
    match (operands.get(1), operands.get(0)) {
        (Some(a), Some(b)) => Ok((a, b)),
        _ => Err(PsError::StackUnderflow),
    }
}

/// The three topmost operands, the lowest first.
pub fn triple_of(operands: &Stack<PsObj>) -> Result<(PsObj, PsObj, PsObj), PsError>
    ensures value { result ≡ triple_of operands.now }
    ensures enough { OnOk result (3 ≤ length operands.now) }
{
    match (operands.get(2), operands.get(1), operands.get(0)) {
        (Some(a), Some(b), Some(c)) => Ok((a, b, c)),
        _ => Err(PsError::StackUnderflow),
    }
}

/// The four topmost operands, the lowest first.
pub fn quadruple_of(operands: &Stack<PsObj>) -> Result<(PsObj, PsObj, PsObj, PsObj), PsError>
    ensures value { result ≡ quadruple_of operands.now }
    ensures enough { OnOk result (4 ≤ length operands.now) }
{
    match (
        operands.get(3),
        operands.get(2),
        operands.get(1),
        operands.get(0),
    ) {
        (Some(a), Some(b), Some(c), Some(d)) => Ok((a, b, c, d)),
        _ => Err(PsError::StackUnderflow),
    }
}
