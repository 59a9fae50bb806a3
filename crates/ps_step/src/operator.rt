//! The operators, by their numbers.

ghost use Rattle.std.specs.Prelude.{◌≡◌, ◌≤◌, IfNone, slice_get, length};
ghost use Rattle.ps_step.specs.Operator.{operator_at};

use crate::arithmetic::{Arithmetic, Bitwise};
use crate::compare::Relation;

/// An operator on the operand stack. Its error leaves the state as it was.
#[derive(Clone, Copy)]
pub enum StackOperator {
    Exch,
    Dup,
    Pop,
    Index,
    Roll,
    Mark,
    CountToMark,
    ClearToMark,
}

/// An operator on arrays, dictionaries, strings and names. Its error leaves the state as it was.
#[derive(Clone, Copy)]
pub enum CompositeOperator {
    CloseArray,
    Array,
    ALoad,
    AStore,
    Dict,
    Begin,
    End,
    Def,
    Load,
    Known,
    Where,
    String,
    Cvx,
    Cvlit,
    Cvn,
    Get,
    Put,
    Length,
}

/// An operator on integers, booleans and their like. Its error leaves the state as it was.
#[derive(Clone, Copy)]
pub enum ValueOperator {
    Arithmetic(Arithmetic),
    Neg,
    BitShift,
    Bitwise(Bitwise),
    Not,
    Eq,
    Ne,
    Relation(Relation),
    True,
    False,
    Null,
}

/// A control operator. Its error leaves the state as it was.
#[derive(Clone, Copy)]
pub enum ControlOperator {
    If,
    IfElse,
    For,
    Repeat,
    Loop,
    Exit,
    ForAll,
    Exec,
    Stop,
    Stopped,
}

/// An operator.
#[derive(Clone, Copy)]
pub enum Operator {
    Stack(StackOperator),
    Composite(CompositeOperator),
    Value(ValueOperator),
    Control(ControlOperator),
    /// `copy`
    Copy,
    /// `>>`
    CloseDict,
    /// `cvs`
    Cvs,
}

/// The operators by their numbers. The names are in the store's crate, in the same order.
static OPERATORS: [Operator; 61] = [
    Operator::Stack(StackOperator::Exch),
    Operator::Stack(StackOperator::Dup),
    Operator::Stack(StackOperator::Pop),
    Operator::Copy,
    Operator::Stack(StackOperator::Index),
    Operator::Stack(StackOperator::Roll),
    Operator::Stack(StackOperator::Mark),
    Operator::Stack(StackOperator::CountToMark),
    Operator::Stack(StackOperator::ClearToMark),
    Operator::Stack(StackOperator::Mark),
    Operator::Composite(CompositeOperator::CloseArray),
    Operator::Stack(StackOperator::Mark),
    Operator::CloseDict,
    Operator::Composite(CompositeOperator::Array),
    Operator::Composite(CompositeOperator::Dict),
    Operator::Composite(CompositeOperator::String),
    Operator::Control(ControlOperator::If),
    Operator::Control(ControlOperator::IfElse),
    Operator::Control(ControlOperator::For),
    Operator::Control(ControlOperator::Repeat),
    Operator::Control(ControlOperator::Loop),
    Operator::Control(ControlOperator::Exit),
    Operator::Control(ControlOperator::ForAll),
    Operator::Control(ControlOperator::Exec),
    Operator::Control(ControlOperator::Stop),
    Operator::Control(ControlOperator::Stopped),
    Operator::Composite(CompositeOperator::Begin),
    Operator::Composite(CompositeOperator::End),
    Operator::Composite(CompositeOperator::Def),
    Operator::Composite(CompositeOperator::Load),
    Operator::Composite(CompositeOperator::Known),
    Operator::Composite(CompositeOperator::Where),
    Operator::Composite(CompositeOperator::Get),
    Operator::Composite(CompositeOperator::Put),
    Operator::Composite(CompositeOperator::Length),
    Operator::Composite(CompositeOperator::ALoad),
    Operator::Composite(CompositeOperator::AStore),
    Operator::Composite(CompositeOperator::Cvx),
    Operator::Composite(CompositeOperator::Cvlit),
    Operator::Composite(CompositeOperator::Cvn),
    Operator::Cvs,
    Operator::Value(ValueOperator::Arithmetic(Arithmetic::Add)),
    Operator::Value(ValueOperator::Arithmetic(Arithmetic::Sub)),
    Operator::Value(ValueOperator::Arithmetic(Arithmetic::Mul)),
    Operator::Value(ValueOperator::Arithmetic(Arithmetic::Idiv)),
    Operator::Value(ValueOperator::Arithmetic(Arithmetic::Mod)),
    Operator::Value(ValueOperator::Neg),
    Operator::Value(ValueOperator::BitShift),
    Operator::Value(ValueOperator::Bitwise(Bitwise::And)),
    Operator::Value(ValueOperator::Bitwise(Bitwise::Or)),
    Operator::Value(ValueOperator::Bitwise(Bitwise::Xor)),
    Operator::Value(ValueOperator::Not),
    Operator::Value(ValueOperator::Eq),
    Operator::Value(ValueOperator::Ne),
    Operator::Value(ValueOperator::Relation(Relation::Lt)),
    Operator::Value(ValueOperator::Relation(Relation::Le)),
    Operator::Value(ValueOperator::Relation(Relation::Gt)),
    Operator::Value(ValueOperator::Relation(Relation::Ge)),
    Operator::Value(ValueOperator::True),
    Operator::Value(ValueOperator::False),
    Operator::Value(ValueOperator::Null),
];

/// The operator at a place of a list.
fn operator_in(operators: &[Operator], number: u16) -> Option<Operator>
    ensures operator { result ≡ slice_get operators.now number }
    ensures none { IfNone result (length operators.now ≤ number) }
{
    operators.get(number as usize).copied()
}

/// The operator with a number, none for the dialect's own, which have the numbers from 61 on.
pub fn operator_at(number: u16) -> Option<Operator>
    ensures operator { result ≡ operator_at number }
    ensures first { IfNone result (61 ≤ number) }
{
    operator_in(&OPERATORS, number)
}
