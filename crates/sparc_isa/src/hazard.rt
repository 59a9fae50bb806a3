// Which instructions may not follow which.

ghost use Rattle.std.specs.Prelude.{◌≡◌};
ghost use Rattle.sparc_isa.specs.Step.{is_transfer, reads_y, is_hazard};

use crate::insn::Insn;

/// Whether an instruction may not stand in a delay slot.
#[tactic(auto, unfolding(crate::specs::Step::is_transfer))]
#[inline(always)]
fn is_transfer(insn: &Insn) -> bool
    ensures { result ≡ is_transfer insn.now }
{
    matches!(
        insn,
        Insn::Call { .. } | Insn::Bicc { .. } | Insn::Jmpl { .. } | Insn::Ticc { .. }
    )
}

/// Whether an instruction reads Y.
#[tactic(auto, unfolding(crate::specs::Step::reads_y))]
#[inline(always)]
fn reads_y(insn: &Insn) -> bool
    ensures { result ≡ reads_y insn.now }
{
    matches!(
        insn,
        Insn::Rdy { .. } | Insn::Udiv { .. } | Insn::Sdiv { .. }
    )
}

/// Whether an instruction may not follow what stands before it: in the delay slot of a control
/// transfer, or where `wait` more instructions may not read Y, which was written.
#[tactic(auto, unfolding(crate::specs::Step::is_hazard))]
#[inline(always)]
pub fn is_hazard(insn: &Insn, in_slot: bool, wait: u8) -> bool
    ensures { result ≡ is_hazard insn.now (record { in_slot = in_slot; loaded = 0; wait = wait }) }
{
    if !in_slot && wait == 0 {
        return false;
    }
    in_slot && is_transfer(insn) || wait > 0 && reads_y(insn)
}
