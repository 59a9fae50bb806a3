// What holds of machines of both targets.

ghost use Rattle.machine_state.specs.Sound.{AreBytes, Keeps};
ghost use Rattle.obj_file.specs.Image.{ImageFields, IsImage};
ghost use Rattle.targets.specs.Targets.{loaded, machine_behaviour, IsSound};

/// In each machine that can be reached words and bytes fit, regions and lists have their sizes, register 0 is 0 and the
/// current window is valid: so it is of the machine of an image, and whatever is done to a machine keeps it.
pub fn machines_stay_sound()
    ensures first { (i : ImageFields) → IsImage i → AreBytes i.text → AreBytes i.statics → IsSound (loaded i) }
    ensures keeps { Keeps IsSound machine_behaviour }
{}
