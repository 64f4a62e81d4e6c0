//! Laws of a lane's policy over whatever comes, at whatever times, as contracts.

ghost use Rattle.bm_lane_actor.specs.LaneLaws.{AskedGivenUp, AskedHaveTime, AskedNotSooner, AskedOnce, AskedOnceEach, HeardNotFailed, NoneWaits, NotAskedSooner, OnlyReadFail, SilentAsked, UnaskedNotFailed, WaitingAnsweredOnce, WantedGivenUp, WantedNotSooner};

/// A link that waits for the lane is admitted, displaced, put off or let go once.
pub fn waiting_logins_are_answered_once()
    ensures { WaitingAnsweredOnce }
{}

/// Once the master ends no link waits until another logs in.
pub fn none_waits_behind_the_end()
    ensures { NoneWaits }
{}

/// The link of a silent worker fails only after the worker was asked for a sign of life, and had
/// 1,500 ms for it. The link was then read until nothing came.
pub fn silent_workers_are_asked_first()
    ensures unasked { UnaskedNotFailed }
    ensures heard { HeardNotFailed }
    ensures time { AskedHaveTime }
    ensures read { OnlyReadFail }
{}

/// A silent worker is taken for dead 45,000 ms after it was asked. Where a login or its end asks it
/// is 1,500 ms after that. No worker is sooner.
pub fn silent_workers_are_given_up()
    ensures asked { AskedGivenUp }
    ensures wanted { WantedGivenUp }
    ensures asked_sooner { AskedNotSooner }
    ensures wanted_sooner { WantedNotSooner }
{}

/// A worker that is silent for 15,000 ms is asked, once a silence. A login or its end asks at once.
pub fn asked_once_a_silence()
    ensures once { AskedOnce }
    ensures each { AskedOnceEach }
    ensures asked { SilentAsked }
    ensures sooner { NotAskedSooner }
{}
