// What holds of the nubs behind a near link.

ghost use Rattle.near_link.specs.Fitting.{SoundMachinesTellWords, FreshSidesAreReady};

/// Each machine that can be reached from a sound one holds bytes and tells words, so what its nub tells fits messages: each
/// side of a new link is at rest, and gives no bad reply to what a debugger may ask (`nub_wire::told_links_answer`).
pub fn near_nubs_fit()
    ensures machines { SoundMachinesTellWords }
    ensures sides { FreshSidesAreReady }
{}
