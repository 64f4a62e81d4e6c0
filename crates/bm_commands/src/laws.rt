//! Laws of a worker's commands over whatever comes, as contracts.

ghost use Rattle.bm_commands.specs.Laws.{EndsOnce, InterruptedGiveNoCode, LostAreSilent, SilentBehindEnd, SleepsUntilWake, StandstillsEndNothing, TurnsAreFair};

/// A command's end is told at most once, and no text of it behind that.
pub fn ends_are_told_once()
    ensures once { EndsOnce }
    ensures silent { SilentBehindEnd }
{}

/// Of a command that was interrupted no exit code is told, whatever comes.
pub fn interrupted_commands_give_no_code()
    ensures { InterruptedGiveNoCode }
{}

/// Of the commands of a lost session nothing is told any more.
pub fn lost_commands_are_silent()
    ensures { LostAreSilent }
{}

/// While a command has a text to be told, at most as many texts of others are told as there are
/// commands before it.
pub fn turns_are_fair()
    ensures { TurnsAreFair }
{}

/// A tick before the wake does nothing, so a thread may sleep until then.
pub fn ticks_wait_for_the_wake()
    ensures { SleepsUntilWake }
{}

/// Fewer than 250 looks end no command whose sweep goes on, however much time lies between them.
pub fn standstills_end_nothing()
    ensures { StandstillsEndNothing }
{}
