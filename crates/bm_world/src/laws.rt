//! Laws of what viewers see, as contracts.

ghost use Rattle.bm_world.specs.Laws.{VisibleLogsGrow, DrainedLogsAreWhole, LooksNeverShrink};
ghost use Rattle.bm_world.specs.Laws.{RefusalsAreNotMemory};

/// What viewers see of a log is a prefix of what they see after more drains. Once everything is
/// drained it is the whole log.
pub fn visible_logs_grow()
    ensures grows { VisibleLogsGrow }
    ensures whole { DrainedLogsAreWhole }
{}

/// Whatever steps follow other steps, a log that viewers see is a prefix of what they see later.
/// That is a prefix of the log of all events that were taken.
pub fn looks_never_shrink()
    ensures { LooksNeverShrink }
{}

/// An event is never refused for want of memory: that hands the step back.
pub fn refusals_are_not_memory()
    ensures { RefusalsAreNotMemory }
{}
