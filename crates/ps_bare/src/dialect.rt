// The dialect.

ghost use Rattle.std.specs.Prelude.{◌≡◌, ◌≤◌};
ghost use Rattle.ps_store.specs.Store.{closed_part};
ghost use Rattle.ps_bare.specs.Bare.{ActsBare};

use crate::objects::run_on_object;
use crate::places::run_on_place;
use crate::texts::append;
use crate::words::run_on_words;
use abs_mem::{NoMem, Register};
use ps_run::{Dialect, PsCore, PsError, PsFault, Steps};

/// Runs the operator with a number once.
#[tactic(auto, using(crate::proofs::Acting::words_bare, crate::proofs::Acting::past_bare))]
fn act(core: &mut PsCore, memory: &mut Register<NoMem>, op: u16) -> Result<(), PsFault>
    ensures acts { ActsBare op memory.old.cell core.old result memory.new.cell core.new }
    ensures closed { closed_part core.new.store ≡ closed_part core.old.store }
{
    match op {
        0..=7 => run_on_place(core, memory, op),
        8..=22 => run_on_words(core, op),
        23..=27 | 32 => run_on_object(core, op),
        28..=31 => append(core, memory, op),
        _ => Err(PsFault::Error(PsError::Undefined)),
    }
}

/// The dialect where there is no target, as while the prelude, a table or an executable string of a table runs: all places but the
/// cell are outside, no object is live, there is no frame, anchors and structs are undefined, and what is appended is dropped.
#[derive(Clone, Copy, Debug)]
pub struct NoTarget {
    /// The word of the immediate cell, which is 0 where a run begins.
    pub cell: u32,
}

impl Dialect for NoTarget {
    ghost use Rattle.std.specs.Prelude.{◌≡◌, refl};
    ghost use Rattle.std.proofs.Common.{◌∙◌};
    ghost use Rattle.ps_bare.specs.Bare.{OperatesBare};

    ghost operates = { λ d c op left answer d' c' left'. OperatesBare d.cell c op left answer d'.cell c' left' };

    ghost remains = { λ p q. q ≡ p };

    #[tactic(auto, using(crate::proofs::Acting::operated, crate::proofs::Acting::never_spent))]
    fn operate(&mut self, core: &mut PsCore, op: u16, _steps: &mut Steps) -> Result<(), PsFault> {
        let mut memory = Register {
            below: NoMem,
            cell: self.cell,
        };
        let answer = act(core, &mut memory, op);
        self.cell = memory.cell;
        answer
    }

    ghost stays = { λ p. refl };

    ghost goes_on = { λ p q r first second. second ∙ first };
}
