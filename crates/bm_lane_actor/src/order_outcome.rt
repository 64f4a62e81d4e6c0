//! What came of an order to start or to interrupt a command.

ghost use Rattle.std.specs.Prelude.{◌≡◌};
ghost use Rattle.bm_lane_actor.specs.LaneStates.{interrupt_outcome, start_outcome, unlinked_outcome};

use bm_lane::{HearRefusal, ReaderEnd, Yard};
use bm_link::LinkFault;
use bm_session::Refusal;

/// What came of an order to start or to interrupt a command.
#[derive(Clone, Copy, PartialEq, Eq)]
pub enum OrderOutcome {
    /// The command with this number was started.
    Started(u64),
    /// The command was interrupted.
    Interrupted,
    /// Nothing was done: the build was cancelled before the lane took the order.
    Cancelled,
    /// Nothing was done, and it may be tried again. The lane is cut and may be resumed, is busy, or
    /// has no room for one more open command. Or memory is wanting for an interruption.
    Later,
    /// Nothing was done, since memory is wanting. It may be tried again.
    Short,
    /// The lane was given up, or refuses the order.
    Refused,
    /// The lane has had as many events as it may.
    Full,
    /// Nothing was done: an order doesn't carry as many words, or as long ones.
    TooLong,
}

/// What came of a start, by the link's answer and whether the lane took the order. Where memory is
/// wanting for it the session goes on, so the worker isn't lost.
pub(crate) fn start_outcome(answer: Result<u64, LinkFault>, is_taken: bool) -> OrderOutcome
    ensures { result ≡ start_outcome is_taken answer }
{
    match answer {
        Ok(command) => OrderOutcome::Started(command),
        Err(LinkFault::Lane(HearRefusal::Busy | HearRefusal::Session(Refusal::TooManyOpen))) =>
            OrderOutcome::Later,
        Err(LinkFault::Lane(HearRefusal::Session(Refusal::Mem))) => OrderOutcome::Short,
        Err(LinkFault::Lane(HearRefusal::Session(Refusal::Full))) => OrderOutcome::Full,
        Err(LinkFault::Lane(HearRefusal::Session(_))) => OrderOutcome::Refused,
        Err(_) if is_taken => OrderOutcome::Refused,
        Err(_) => OrderOutcome::Later,
    }
}

/// What came of an interruption, told likewise.
pub(crate) fn interrupt_outcome(answer: Result<(), LinkFault>, is_taken: bool) -> OrderOutcome
    ensures { result ≡ interrupt_outcome is_taken answer }
{
    match answer {
        Ok(()) => OrderOutcome::Interrupted,
        Err(LinkFault::Lane(HearRefusal::Busy | HearRefusal::Session(Refusal::Mem))) =>
            OrderOutcome::Later,
        Err(LinkFault::Lane(HearRefusal::Session(_))) => OrderOutcome::Refused,
        Err(_) if is_taken => OrderOutcome::Interrupted,
        Err(_) => OrderOutcome::Later,
    }
}

/// What comes of an order to a lane without a link.
pub(crate) fn unlinked_outcome<Y: Yard>(reader: &ReaderEnd<Y>) -> OrderOutcome
    ensures { result ≡ unlinked_outcome reader.now }
{
    if reader.is_cut() {
        OrderOutcome::Later
    } else {
        OrderOutcome::Refused
    }
}
