//! Objects are executed (PostScript Language Reference Manual, 3.5).

ghost use Rattle.ps_store.specs.Store.{closed_part, bytes_of};
ghost use Rattle.std.specs.Prelude.{◌≡◌};
ghost use Rattle.ps_step.specs.Effects.{Does, Acts};
ghost use Rattle.ps_step.specs.Executing.{on_stack, on_composites, on_values, on_control, numbered, acting, naming, executing, meeting};

use crate::fault::{PsError, PsFault};
use crate::item::Item;
use crate::keys::name_found;
use crate::machine::PsCore;
use crate::operator::{
    CompositeOperator, ControlOperator, Operator, StackOperator, ValueOperator, operator_at,
};
use ps_store::{PsObj, StringId};

/// The number of the dialect's first operator.
const FIRST_OF_DIALECT: u16 = 61;

impl PsCore {
    /// An operator on the operand stack.
    fn operate_stack(&mut self, operator: StackOperator) -> Result<(), PsFault>
        ensures does { Does result self.old self.new (on_stack operator self.old) }
        ensures closed { closed_part self.new.store ≡ closed_part self.old.store }
    {
        match operator {
            StackOperator::Exch => self.exchange(),
            StackOperator::Dup => self.duplicate(),
            StackOperator::Pop => self.pop(),
            StackOperator::Index => self.index(),
            StackOperator::Roll => self.roll(),
            StackOperator::Mark => self.push(PsObj::Mark),
            StackOperator::CountToMark => self.count_to_mark(),
            StackOperator::ClearToMark => self.clear_to_mark(),
        }
    }

    /// An operator on arrays, dictionaries, strings and names.
    fn operate_composites(&mut self, operator: CompositeOperator) -> Result<(), PsFault>
        ensures does { Does result self.old self.new (on_composites operator self.old) }
        ensures closed { closed_part self.new.store ≡ closed_part self.old.store }
    {
        match operator {
            CompositeOperator::CloseArray => self.close_array(),
            CompositeOperator::Array => self.make_array(),
            CompositeOperator::ALoad => self.load_all(),
            CompositeOperator::AStore => self.store_all(),
            CompositeOperator::Dict => self.make_dict(),
            CompositeOperator::Begin => self.begin(),
            CompositeOperator::End => self.end(),
            CompositeOperator::Def => self.define(),
            CompositeOperator::Load => self.load(),
            CompositeOperator::Known => self.known(),
            CompositeOperator::Where => self.find_holder(),
            CompositeOperator::String => self.make_string(),
            CompositeOperator::Cvx => self.convert(true),
            CompositeOperator::Cvlit => self.convert(false),
            CompositeOperator::Cvn => self.make_name(),
            CompositeOperator::Get => self.get(),
            CompositeOperator::Put => self.put(),
            CompositeOperator::Length => self.length(),
        }
    }

    /// An operator on integers, booleans and their like.
    fn operate_values(&mut self, operator: ValueOperator) -> Result<(), PsFault>
        ensures does { Does result self.old self.new (on_values operator self.old) }
        ensures closed { closed_part self.new.store ≡ closed_part self.old.store }
    {
        match operator {
            ValueOperator::Arithmetic(op) => self.calculate(op),
            ValueOperator::Neg => self.negate(),
            ValueOperator::BitShift => self.shift(),
            ValueOperator::Bitwise(op) => self.combine(op),
            ValueOperator::Not => self.invert(),
            ValueOperator::Eq => self.equate(true),
            ValueOperator::Ne => self.equate(false),
            ValueOperator::Relation(relation) => self.compare(relation),
            ValueOperator::True => self.push(PsObj::Bool(true)),
            ValueOperator::False => self.push(PsObj::Bool(false)),
            ValueOperator::Null => self.push(PsObj::Null),
        }
    }

    /// A control operator.
    fn operate_control(&mut self, operator: ControlOperator) -> Result<(), PsFault>
        ensures does { Does result self.old self.new (on_control operator self.old) }
        ensures closed { closed_part self.new.store ≡ closed_part self.old.store }
    {
        match operator {
            ControlOperator::If => self.choose(),
            ControlOperator::IfElse => self.choose_one(),
            ControlOperator::For => self.count(),
            ControlOperator::Repeat => self.repeat(),
            ControlOperator::Loop => self.loop_forever(),
            ControlOperator::Exit => self.exit(),
            ControlOperator::ForAll => self.each(),
            ControlOperator::Exec => self.execute_top(),
            ControlOperator::Stop => Err(PsFault::Error(PsError::InvalidExit)),
            ControlOperator::Stopped => self.guard(),
        }
    }

    /// An operator by its number, or the number in its list of the dialect's operator that is asked for.
    fn operate(&mut self, number: u16) -> Result<Option<u16>, PsFault>
        ensures acts { Acts result self.new (numbered number self.old) }
        ensures closed { closed_part self.new.store ≡ closed_part self.old.store }
    {
        match operator_at(number) {
            Some(Operator::Stack(operator)) => self.operate_stack(operator)?,
            Some(Operator::Value(operator)) => self.operate_values(operator)?,
            Some(Operator::Control(operator)) => self.operate_control(operator)?,
            Some(Operator::Composite(operator)) => self.operate_composites(operator)?,
            Some(Operator::Copy) => self.copy()?,
            Some(Operator::CloseDict) => self.close_dict()?,
            Some(Operator::Cvs) => self.write_text()?,
            None => return Ok(Some(number - FIRST_OF_DIALECT)),
        }
        Ok(None)
    }

    /// A value is executed. An executable name is executed in the next step.
    #[inline(always)]
    fn act(&mut self, x: PsObj) -> Result<Option<u16>, PsFault>
        ensures acts { Acts result self.new (acting x self.old) }
        ensures closed { closed_part self.new.store ≡ closed_part self.old.store }
    {
        match x {
            PsObj::Op(n) => return self.operate(n),
            PsObj::Array(a, true) => self.call(a)?,
            PsObj::Name(_, true) => self.schedule(x)?,
            PsObj::Str(t, true) => self.schedule_item(Item::Text(t, 0))?,
            _ => self.push(x)?,
        }
        Ok(None)
    }

    /// A name is executed: its value is.
    #[inline(always)]
    fn execute_name(&mut self, t: StringId) -> Result<Option<u16>, PsFault>
        ensures acts { Acts result self.new (naming (bytes_of self.old.store t) self.old) }
        ensures closed { closed_part self.new.store ≡ closed_part self.old.store }
    {
        match name_found(&self.store, &self.dictionaries, t) {
            Some(x) => self.act(x),
            None => match self.store.operator_named(t) {
                Some(number) => self.operate(number),
                None => Err(PsFault::Error(PsError::Undefined)),
            },
        }
    }

    /// An object is executed. The answer is the number of the dialect's operator that is asked for, if one is.
    #[inline(always)]
    pub fn execute(&mut self, x: PsObj) -> Result<Option<u16>, PsFault>
        ensures acts { Acts result self.new (executing x self.old) }
        ensures closed { closed_part self.new.store ≡ closed_part self.old.store }
    {
        match x {
            PsObj::Name(t, true) => self.execute_name(t),
            _ => self.act(x),
        }
    }

    /// An object is met in a procedure or a text. One that is a procedure itself is pushed.
    #[inline(always)]
    pub fn meet(&mut self, x: PsObj) -> Result<Option<u16>, PsFault>
        ensures acts { Acts result self.new (meeting x self.old) }
        ensures closed { closed_part self.new.store ≡ closed_part self.old.store }
    {
        match x {
            PsObj::Name(t, true) => self.execute_name(t),
            PsObj::Op(n) => self.operate(n),
            PsObj::Str(t, true) => {
                self.schedule_item(Item::Text(t, 0))?;
                Ok(None)
            }
            _ => {
                self.push(x)?;
                Ok(None)
            }
        }
    }
}
