// Bytes as numbers.

ghost use Rattle.std.specs.Prelude.{take};
ghost use Rattle.machine_state.specs.Sound.{AreBytes};

/// Tells that bytes are numbers below 256. Contracts know the range of an element only once it is read, so this loop reads
/// them and does nothing else.
#[tactic(auto, using(crate::proofs::SoundMemory::one_more_byte, crate::proofs::SoundMemory::all_bytes))]
pub fn tell_bytes(bytes: &[u8])
    ensures { AreBytes bytes.now }
{
    for (at, byte) in bytes.iter().enumerate() {
        let (_at, _byte) = (at, *byte);
    }
}
