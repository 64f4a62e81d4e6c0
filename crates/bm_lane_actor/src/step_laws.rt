//! Laws of a build's steps over whatever comes, as contracts.

ghost use Rattle.bm_lane_actor.specs.StepLaws.{CancelledStepsEnd, CancelsAreTold, CancelsToldOnce, HeldCancelLeavesOutOne, HeldCancelWaits, InterruptedOnce, LimitedStepsEnd, LimitsToldOnce, NoMoreAreLeftOut, OneCancelToldOnce, OneLimitACommand, StepsEndSoon};

/// Once the order to interrupt a command was kept, it isn't given again for that command.
pub fn commands_are_interrupted_once()
    ensures { InterruptedOnce }
{}

/// A cancel is told once, until it is taken back or used up. None is taken back untold by a start.
pub fn cancels_are_told_once()
    ensures counted { CancelsToldOnce }
    ensures told { CancelsAreTold }
    ensures once { OneCancelToldOnce }
{}

/// Of a command at most one limit is told.
pub fn limits_are_told_once()
    ensures once { LimitsToldOnce }
    ensures counted { OneLimitACommand }
{}

/// A step is over at most 1,000 ticks behind a limit that it reached, or a cancel.
pub fn interrupted_steps_end()
    ensures limited { LimitedStepsEnd }
    ensures cancelled { CancelledStepsEnd }
    ensures soon { StepsEndSoon }
{}

/// A cancel that is held waits for the next step that doesn't always run, and leaves out that one
/// alone.
pub fn held_cancel_leaves_out_one_step()
    ensures waits { HeldCancelWaits }
    ensures one { HeldCancelLeavesOutOne }
    ensures counted { NoMoreAreLeftOut }
{}
