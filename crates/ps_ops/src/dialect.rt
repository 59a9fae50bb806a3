// The dialect of a command.

ghost use Rattle.std.specs.Prelude.{◌≡◌, ◌≤◌, ◌-◌, Err};
ghost use Rattle.ps_store.specs.Store.{closed_part};
ghost use Rattle.ps_store.specs.Settled.{Settled};
ghost use Rattle.ps_step.specs.declared.fault.PsFault.TheVariants.{Spent as OutOfSteps};
ghost use Rattle.ps_ops.specs.Acting.{ActsOn, OperatesOn, LedKept};
ghost use Rattle.ps_ops.specs.Desk.{desk_of};
ghost use Rattle.ps_ops.specs.Halts.{LedHalt};

use crate::halt::{Halt, left};
use crate::objects::{add, compare, find_where, measure_run, subtract, take_leaf};
use crate::places::{fetch_at, local_in, place_value, store_at};
use crate::texts::append;
use crate::view::View;
use abs_mem::{AbsMem, Joined, MemFault};
use ldb_words::Text;
use ps_bare::{force_unit, run_on_words};
use ps_places::{absolute, register};
use ps_run::{Dialect, PsCore, PsError, PsFault, Steps};
use ps_symbols::{anchor, find_struct};

/// Runs the operator with a number once.
#[tactic(auto, using(crate::proofs::States::words_act))]
fn act<W: AbsMem + Drop>(
    view: &View,
    memory: &mut Joined<W>,
    core: &mut PsCore,
    out: &mut Text,
    op: u16,
) -> Result<(), Halt>
    ensures acts { ActsOn op (desk_of view.now memory.old.below.below.order memory.old.below.cell out.old) (W.seen memory.old.below.below.below) core.old result (desk_of view.now memory.new.below.below.order memory.new.below.cell out.new) (W.seen memory.new.below.below.below) core.new }
    ensures calls { LedHalt W.leads memory.old.below.below.below result memory.new.below.below.below }
    ensures closed { closed_part core.new.store ≡ closed_part core.old.store }
{
    match op {
        0 => left(anchor(core, true)),
        1 => left(absolute(core)),
        2 => local_in(view, memory, core),
        3 => left(register(core)),
        4 => place_value(view, memory, core),
        5 => find_where(view, memory, core),
        6 => fetch_at(view, memory, core),
        7 => store_at(view, memory, core),
        8..=22 => left(run_on_words(core, op)),
        23 => add(view, memory, core),
        24 => subtract(view, memory, core),
        25 => compare(view, memory, core),
        26 => take_leaf(view, memory, core),
        27 => left(find_struct(core, true)),
        28..=31 => append(view, memory, core, out, op),
        32 => measure_run(view, memory, core),
        _ => Err(Halt::Raised(PsError::Undefined)),
    }
}

/// Runs the operator with a number. Where it needs the functions of a unit, these are run first, and it acts again, which a step
/// was taken for. Where the memory gave no answer it is told why.
fn run_operator<W: AbsMem + Drop>(
    view: &View,
    memory: &mut Joined<W>,
    core: &mut PsCore,
    out: &mut Text,
    fault: &mut Option<MemFault>,
    op: u16,
    steps: &mut Steps,
) -> Result<(), PsFault>
    requires { steps.old.taken ≤ steps.old.limit }
    ensures operates { OperatesOn (desk_of view.now memory.old.below.below.order memory.old.below.cell out.old) (W.seen memory.old.below.below.below) core.old op (steps.old.limit - steps.old.taken) result (desk_of view.now memory.new.below.below.order memory.new.below.cell out.new) (W.seen memory.new.below.below.below) core.new (steps.new.limit - steps.new.taken) fault.new }
    ensures calls { LedKept W.leads memory.old.below.below.below result memory.new.below.below.below fault.new }
    ensures limit { steps.new.limit ≡ steps.old.limit }
    ensures within { steps.new.taken ≤ steps.new.limit }
    ensures spent { result ≡ Err OutOfSteps → steps.new.taken ≡ steps.new.limit }
    ensures closed { Settled (closed_part core.old.store) (closed_part core.new.store) }
    ensures more { steps.old.taken ≤ steps.new.taken }
{
    'again: loop {
        match act(view, memory, core, out, op) {
            Ok(()) => return Ok(()),
            Err(Halt::Raised(error)) => return Err(PsFault::Error(error)),
            Err(Halt::Wanting) => return Err(PsFault::NoMemory),
            Err(Halt::Broken(why)) => {
                *fault = Some(why);
                return Err(PsFault::Link);
            }
            Err(Halt::Needs { unit }) => match force_unit(core, unit, steps) {
                Ok(()) => {}
                Err(stopped) => return Err(stopped),
            },
        }
    }
}

/// The dialect of a command over the memory of a target. An operator that needs the functions of a unit has them run first and
/// acts again; each appends to the text.
#[derive(Drop)]
pub struct Operators<W> {
    pub memory: Joined<W>,
    pub view: View,
    pub out: Text,
    /// Why the memory gave no answer, where an operator answered `Link`.
    pub fault: Option<MemFault>,
}

impl<W: AbsMem + Drop> Dialect for Operators<W> {
    ghost use Rattle.std.specs.Prelude.{◌≡◌};
    ghost use Rattle.ps_store.proofs.Settling.{settled_same, settled_on};

    ghost operates = { λ o c op left answer o' c' left'. (o'.view ≡ o.view) × OperatesOn (desk_of o.view o.memory.below.below.order o.memory.below.cell o.out) (W.seen o.memory.below.below.below) c op left answer (desk_of o'.view o'.memory.below.below.order o'.memory.below.cell o'.out) (W.seen o'.memory.below.below.below) c' left' o'.fault × LedKept W.leads o.memory.below.below.below answer o'.memory.below.below.below o'.fault };

    ghost remains = { Settled };

    fn operate(&mut self, core: &mut PsCore, op: u16, steps: &mut Steps) -> Result<(), PsFault> {
        run_operator(
            &self.view,
            &mut self.memory,
            core,
            &mut self.out,
            &mut self.fault,
            op,
            steps,
        )
    }

    ghost stays = { settled_same };

    ghost goes_on = { λ p q r first second. settled_on p q r first second };
}
