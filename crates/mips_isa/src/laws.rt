// What holds of machines of this target.

ghost use Rattle.std.specs.Prelude.{ℕ, List};
ghost use Rattle.machine_state.specs.Sound.{MayBegin, Keeps};
ghost use Rattle.mips_isa.specs.Loaded.{first_state, mips_behaviour};
ghost use Rattle.mips_isa.specs.Sound.{IsSound};

/// In each machine that can be reached words and bytes fit, regions and lists have their sizes, and `$0` is 0: it is so at
/// the start, and whatever is done to a machine keeps it.
pub fn machines_stay_sound()
    ensures first { (entry : ℕ) (text statics : List ℕ) → MayBegin entry text statics → IsSound (first_state entry text statics) }
    ensures keeps { Keeps IsSound mips_behaviour }
{}
