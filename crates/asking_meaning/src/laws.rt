// What the commands of one side mean.

ghost use Rattle.asking_meaning.specs.Told.{FramesAreTold, FrameIsTold, BreakIsTold, ClearIsTold, PrintIsTold};
ghost use Rattle.asking_meaning.specs.Meant.{FramesAreMeant, FrameIsMeant, BreakIsMeant, ClearIsMeant, RegsAreMeant, PsIsMeant};

use abs_mem::AbsMem;

/// What `frames` and `frame` answer on a side is what they answer in the machine session.
pub fn frames_are_meant()
    ensures all { FramesAreMeant }
    ensures one { FrameIsMeant }
{}

/// What `break` and `clear` answer on a side, and store to its target, is what they do in the machine session.
pub fn breakpoints_are_meant()
    ensures set { BreakIsMeant }
    ensures cleared { ClearIsMeant }
{}

/// What `ps` answers on a side, and its text stores to its target, is what it does in the machine session.
pub fn texts_are_meant()
    ensures { PsIsMeant }
{}

/// What `regs` tells of a side, whose memory has its regions, is what it tells in the machine session.
pub fn registers_are_meant()
    ensures { RegsAreMeant }
{}

/// So it is of `frames` and `frame` where a memory tells the bytes of the side's machine, and goes on to tell them.
pub fn frames_are_told<M: AbsMem>()
    ensures all { (m m' : M) → FramesAreTold (M.seen m) (M.seen m') }
    ensures one { (m m' : M) → FrameIsTold (M.seen m) (M.seen m') }
{}

/// So it is of `break` and `clear` where a memory tells the bytes of the side's machine; it tells those of the machine after them.
pub fn breakpoints_are_told<M: AbsMem>()
    ensures set { (m m' : M) → BreakIsTold (M.seen m) (M.seen m') }
    ensures cleared { (m m' : M) → ClearIsTold (M.seen m) (M.seen m') }
{}

/// So it is of `print` in the side's frame, where its operators see the side's target: the memory goes on to tell its bytes.
pub fn print_is_told<M: AbsMem>()
    ensures { (m m' : M) → PrintIsTold (M.seen m) (M.seen m') }
{}
