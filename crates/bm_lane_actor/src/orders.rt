//! The orders of a build to the actor of its worker's lane.

ghost use Rattle.std.specs.Prelude.{◌≡◌};
ghost use Rattle.bm_lane_actor.specs.StartProgress.{settled};

use crate::byte_count::ByteCount;
use crate::drain_gate::DrainGate;
use crate::lane_request::{CancelFlag, LaneRequest};
use crate::mailbox::LaneHandle;
use crate::start_progress::{StartProgress, StartStep};
use bm_board::StepPlan;
use bm_latent::TICK_MS;
use bm_operator::StartRefusal;
use crossbeam_channel::bounded;
use std::alloc::Global;
use std::sync::Wait;
use std::thread;
use std::time::{Clock, Duration};

/// Hands the lane's actor the order to interrupt a command. It keeps the order until its lane can
/// send it, so nobody waits for a lane that is cut. False where memory is wanting for that: it is
/// to be tried again.
pub(crate) fn interrupt<S: Drop, R: Wait + Clock>(
    rt: &R,
    alloc: Global,
    handle: &LaneHandle<S>,
    command: u64,
) -> bool {
    let Ok((answer, answers)) = bounded(alloc, 1) else {
        return false;
    };
    if !handle.tell(rt, LaneRequest::Interrupt(command, answer)) {
        return true;
    }
    match handle.answer(rt, &answers) {
        Some(is_kept) => is_kept,
        None => true,
    }
}

/// Waits until the actor has told all that happened to the lane so far, or has left. Where memory
/// is wanting the actor is given a tick for it.
pub(crate) fn wait_until_told<S: Drop, R: Wait + Clock>(
    rt: &R,
    alloc: Global,
    handle: &LaneHandle<S>,
) {
    let Ok((answer, answers)) = bounded(alloc, 1) else {
        thread::sleep(rt, Duration::from_millis(TICK_MS));
        return;
    };
    if handle.tell(rt, LaneRequest::Settle(answer)) {
        let _ = handle.answer(rt, &answers);
    }
}

/// Starts a step's command once the lane is up. An order that is to come later is tried again once
/// an item was drained, and each tick. One for which the lane wants memory is tried each tick.
/// Whether the build is cancelled is looked at by the lane's actor alone, right before it takes the
/// order. The first answer that isn't to try it later settles it, and no order follows that one.
///
/// # Errors
///
/// `Lost` where the lane is given up, or refuses. `Full` where it has had as many events as it
/// may. `TooLong` where the words are more than an order can have. `Cancelled` where the step
/// doesn't always run and its build is cancelled before the lane takes the order. `Memory` where
/// that is wanting here, or at the lane for a minute in all. Nothing is started then.
pub(crate) fn start<S: Drop, R: Wait + Clock + Drop>(
    rt: &R,
    alloc: Global,
    gate: &DrainGate<R>,
    handle: &LaneHandle<S>,
    step: &StepPlan,
    cancelled: &CancelFlag,
    bytes: &ByteCount,
    progress: &mut StartProgress,
) -> Result<u64, StartRefusal>
    ensures { progress.new.stage ≡ settled result }
{
    let place = handle.lane() as usize;
    let tick = Duration::from_millis(TICK_MS);
    *progress = StartProgress::new();
    for _ in rt.forever() {
        let took = gate.took(place);
        match progress.ask(rt, alloc, handle, step, cancelled, bytes) {
            StartStep::Started(command) => return Ok(command),
            StartStep::Refused(why) => return Err(why),
            StartStep::AskAgain => gate.wait_for_drain(place, took, tick),
            StartStep::AskShort => thread::sleep(rt, tick),
        }
    }
    unreachable!()
}
