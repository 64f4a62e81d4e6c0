//! Laws of a worker as its master drives it, over whatever comes, as contracts.

ghost use Rattle.bm_latent.specs.MachineLaws.{AskedInTime, DismissedAreNotTold, EndedMastersStartNone, KilledInTime, NewProgramsAreUnasked, NoneIsForgotten, NoneIsKilledUnasked, NoneIsStartedUnwanted, OneProgramRuns, ProgramsAreToEnd, StartsWhereNoneRuns, ToldOnceToShutDown};

/// One program runs at most, and none is started while one does.
pub fn one_program_runs()
    ensures counted { OneProgramRuns }
    ensures told { StartsWhereNoneRuns }
{}

/// None is killed that wasn't asked to end since it began.
pub fn none_is_killed_unasked()
    ensures unasked { NoneIsKilledUnasked }
    ensures begun { NewProgramsAreUnasked }
{}

/// No start is told unless a build waits for the worker, and none once the master ends.
pub fn none_is_started_unwanted()
    ensures wanted { NoneIsStartedUnwanted }
    ensures over { EndedMastersStartNone }
{}

/// Once the master ends, a program that runs is asked to end in time, and killed if it doesn't.
pub fn none_is_forgotten()
    ensures due { ProgramsAreToEnd }
    ensures asked { AskedInTime }
    ensures killed { KilledInTime }
    ensures soon { NoneIsForgotten }
{}

/// A worker is told once to shut down, until it logs in again or has gone.
pub fn told_once_to_shut_down()
    ensures counted { ToldOnceToShutDown }
    ensures over { DismissedAreNotTold }
{}
