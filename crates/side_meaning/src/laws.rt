// What is done on a side means.

ghost use Rattle.side_meaning.specs.Asking.{RowsStay, NamesStay, WordsAreNamed, NamesGoOn, AsksAreMeant, RegsAreMeant};
ghost use Rattle.side_meaning.specs.Resuming.{ResumesAreMeant, TheyMayRun};
ghost use Rattle.side_meaning.specs.Sessions.{ResumesAreAnswered, SidesBegin, SidesSettle, AsksStand, LimitsStand};
ghost use Rattle.side_meaning.specs.Stepping.{StepsAreMeant, NoStepIsMeant, StepsAreUndone, StepsAreAgain, ContinuesAreMeant, StepsBegin, PointsFail, WordsFail, ContinuesAreWhole, StepsAreWhole};
ghost use Rattle.side_meaning.specs.Storing.{RunsStoreNumbers, ReachesStoreNumbers, NumbersAreReached};
ghost use Rattle.side_meaning.specs.Telling.{MemoriesAreTold, PlantsAreTold, ClearsAreTold, ResumesAreTold};

/// A resume of a side that stands for one of the machine session comes to that one's event and puts its output, and the side stands
/// for it again. Where it has no event yet its nub's run has not ended.
pub fn resumes_are_meant()
    ensures resumes { ResumesAreMeant }
    ensures runs { TheyMayRun }
{}

/// The words that are put before a step are those of the machine session, and where an address is outside none are put by either.
/// Where they are put back the memory is as it was before. Those of the text that are left behind an event are the ones that the
/// next step would put.
pub fn steps_are_meant()
    ensures put { StepsAreMeant }
    ensures outside { NoStepIsMeant }
    ensures undone { StepsAreUndone }
    ensures again { StepsAreAgain }
{}

/// What is done before a resume leaves a side that stands for the one that the machine session has prepared: `continue` takes away the
/// words that a step left, and `step` puts its words or finds them where the step before left them. Where its points can't be read, or
/// the address of one is outside, it isn't begun there either.
pub fn sides_are_prepared()
    ensures continues { ContinuesAreMeant }
    ensures steps { StepsBegin }
    ensures points { PointsFail }
    ensures words { WordsFail }
{}

/// `continue` and `step` of a side are those of the machine session, with their event and output, and the side stands for it again.
pub fn commands_are_meant()
    ensures continues { ContinuesAreWhole }
    ensures steps { StepsAreWhole }
{}

/// While units of a table are run the points that are kept of a side stay what they are. A command that doesn't resume, and changes both
/// sides alike, leaves a side that stands for the machine session's. `regs` tells the words of the machine session's machine, also where
/// words are left in the text.
pub fn asks_are_meant()
    ensures rows { RowsStay }
    ensures names { NamesStay }
    ensures words { WordsAreNamed }
    ensures go_on { NamesGoOn }
    ensures asks { AsksAreMeant }
    ensures regs { RegsAreMeant }
{}

/// The sides of a session stand for those of the machine session from its start on, once the words that a step left are taken away, behind
/// a command that changes both alike, and behind a new limit.
pub fn sides_stand()
    ensures begin { SidesBegin }
    ensures settle { SidesSettle }
    ensures asks { AsksStand }
    ensures limit { LimitsStand }
{}

/// `continue` and `step` of a session over one machine or two are answered as the machine session answers them, in each state that
/// doesn't refuse them, and the sides stand for that one's again.
pub fn resumes_are_answered()
    ensures { ResumesAreAnswered }
{}

/// Over a link whose nubs meet their definition planting the words of a step, and taking them away, does that and nothing else to the
/// machine of a side, whose memory holds bytes; and a resume that came to an event leaves a side that was resumed to it.
pub fn calls_are_told()
    ensures memories { MemoriesAreTold }
    ensures plants { PlantsAreTold }
    ensures clears { ClearsAreTold }
    ensures resumes { ResumesAreTold }
{}

/// Whatever PostScript is run under a command's operators, it stores numbers to its target and changes nothing else of that; so a
/// machine with what it leaves is one that can be reached from the one before.
pub fn texts_store_numbers()
    ensures runs { RunsStoreNumbers }
    ensures reaches { ReachesStoreNumbers }
    ensures machines { NumbersAreReached }
{}
