// The operators of a command under a run whose own steps don't count.

ghost use Rattle.std.specs.Prelude.{◌≤◌};

use abs_mem::AbsMem;
use ps_ops::Operators;
use ps_run::{Dialect, PsCore, PsFault, Steps};

/// Operators whose own steps, of the units that they run, are counted apart from those of the run that asks for them.
#[derive(Drop)]
pub struct Apart<'a, W> {
    pub talk: &'a mut Operators<W>,
    pub counted: Steps,
    ghost within: { counted.taken ≤ counted.limit },
}

impl<W: AbsMem + Drop> Dialect for Apart<'_, W> {
    ghost use Rattle.std.specs.Prelude.{◌≡◌};
    ghost use Rattle.ps_store.specs.Settled.{Settled};
    ghost use Rattle.evaluating.specs.Stepping.{DoesApart};
    ghost use Rattle.ps_store.proofs.Settling.{settled_same, settled_on};

    ghost operates = { λ d c op left answer d' c' left'. (d'.talk.ghost_name ≡ d.talk.ghost_name) × DoesApart W.seen d.talk.now c op answer d'.talk.now c' };

    ghost remains = { Settled };

    fn operate(&mut self, core: &mut PsCore, op: u16, steps: &mut Steps) -> Result<(), PsFault> {
        match self.talk.operate(core, op, &mut self.counted) {
            Err(PsFault::Spent) => {
                steps.taken = steps.limit;
                Err(PsFault::Spent)
            }
            other => other,
        }
    }

    ghost stays = { settled_same };

    ghost goes_on = { λ p q r first second. settled_on p q r first second };
}
