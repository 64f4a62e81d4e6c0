//! The orders of a build to start one command, and how far it has come by their answers.

ghost use Rattle.std.specs.Prelude.{◌≡◌, false, is_none, IfSome};
ghost use Rattle.bm_latent.specs.StartTries.{is_given_up};
ghost use Rattle.bm_lane_actor.specs.StartProgress.{after_step, bounded, start_refusal, start_step, tries_in};
ghost use Rattle.bm_lane_actor.specs.declared.start_progress.StartStage.TheVariants as stage;

use crate::byte_count::ByteCount;
use crate::lane_request::{CancelFlag, LaneRequest, StartOrder};
use crate::mailbox::LaneHandle;
use crate::order_outcome::OrderOutcome;
use bm_board::StepPlan;
use bm_latent::StartTries;
use bm_operator::StartRefusal;
use crossbeam_channel::bounded;
use std::alloc::Global;
use std::sync::{Arc, Wait};
use std::time::Clock;

/// What a build does by the answer to one order.
#[derive(Clone, Copy, PartialEq, Eq)]
pub enum StartStep {
    /// The lane can't take the order now: it asks again once an item was drained, or a tick passed.
    AskAgain,
    /// Memory is wanting for that: it asks again once a tick has passed.
    AskShort,
    /// The lane has started this command.
    Started(u64),
    /// The command isn't started, and isn't asked for again.
    Refused(StartRefusal),
}

/// How far a build has come with one command.
#[derive(Clone, Copy, PartialEq, Eq)]
pub enum StartStage {
    /// Each answer so far was to try it later.
    Asking,
    /// The last answer was the first that had started it.
    Started(u64),
    /// The last answer was the first that had refused it.
    Refused(StartRefusal),
    /// An order was given once it was settled.
    AskedTwice,
    /// It was refused before an order was given.
    Unasked(StartRefusal),
}

/// How far a build has come with one command. Contracts see its stage. What comes by a mailbox no
/// contract sees, so `ask` alone may say it.
#[derive(Drop)]
pub struct StartProgress {
    stage: StartStage,
    /// For how long memory was wanting for it at the lane, in all.
    tries: StartTries,
}

/// Why a step isn't started whose order came to this, and isn't tried again.
fn start_refusal(outcome: OrderOutcome) -> StartRefusal
    ensures { result ≡ start_refusal outcome }
{
    match outcome {
        OrderOutcome::Cancelled => StartRefusal::Cancelled,
        OrderOutcome::Full => StartRefusal::Full,
        OrderOutcome::TooLong => StartRefusal::TooLong,
        OrderOutcome::Started(_)
        | OrderOutcome::Interrupted
        | OrderOutcome::Later
        | OrderOutcome::Short
        | OrderOutcome::Refused => StartRefusal::Lost,
    }
}

/// What a build does by the answer to an order. None: memory was wanting for that.
pub fn start_step(answer: Option<OrderOutcome>) -> StartStep
    ensures { result ≡ start_step answer }
{
    match answer {
        Some(OrderOutcome::Started(command)) => StartStep::Started(command),
        Some(OrderOutcome::Later) => StartStep::AskAgain,
        Some(OrderOutcome::Short) => StartStep::AskShort,
        Some(outcome) => StartStep::Refused(start_refusal(outcome)),
        None => StartStep::Refused(StartRefusal::Memory),
    }
}

/// How far a build has come after one step more.
pub fn after_step(before: StartStage, step: StartStep) -> StartStage
    ensures { result ≡ after_step before step }
{
    match (before, step) {
        (StartStage::Asking, StartStep::AskAgain | StartStep::AskShort) => StartStage::Asking,
        (StartStage::Asking, StartStep::Started(command)) => StartStage::Started(command),
        (StartStage::Asking, StartStep::Refused(why)) => StartStage::Refused(why),
        _ => StartStage::AskedTwice,
    }
}

/// The order to start a step's command. None where memory is wanting.
fn order_of(step: &StepPlan, cancelled: &CancelFlag, bytes: &ByteCount) -> Option<StartOrder>
    ensures words { IfSome result (λ order. order.words ≡ step.now.argv) }
    ensures cancelled { IfSome result (λ order. is_none order.cancelled ≡ step.now.always_run) }
{
    let cancelled = if step.always_run {
        None
    } else {
        Some(Arc::try_clone(cancelled).ok()?)
    };
    let bytes = Arc::try_clone(bytes).ok()?;
    let words = step.argv.copy().ok()?;
    Some(StartOrder {
        words,
        bytes,
        cancelled,
    })
}

/// What the actor answers to a start; `Refused` where it has left. None where memory is wanting.
fn try_start<S: Drop, R: Wait + Clock>(
    rt: &R,
    alloc: Global,
    handle: &LaneHandle<S>,
    step: &StepPlan,
    cancelled: &CancelFlag,
    bytes: &ByteCount,
) -> Option<OrderOutcome> {
    let order = order_of(step, cancelled, bytes)?;
    let (answer, answers) = bounded(alloc, 1).ok()?;
    if !handle.tell(rt, LaneRequest::Start(order, answer)) {
        return Some(OrderOutcome::Refused);
    }
    match handle.answer(rt, &answers) {
        Some(outcome) => Some(outcome),
        None => Some(OrderOutcome::Refused),
    }
}

impl StartProgress {
    /// Nothing was asked for.
    pub fn new() -> StartProgress
        ensures { (result.stage ≡ stage.Asking) × (result.tries ≡ 0) }
    {
        StartProgress {
            stage: StartStage::Asking,
            tries: StartTries::new(),
        }
    }

    /// The command isn't asked for.
    pub fn refuse(&mut self, why: StartRefusal) -> StartRefusal
        ensures stage { self.new.stage ≡ stage.Unasked why }
        ensures told { result ≡ why }
    {
        self.stage = StartStage::Unasked(why);
        why
    }

    /// The stage that the command has reached.
    pub fn stage(&self) -> StartStage
        ensures { result ≡ self.now.stage }
    {
        self.stage
    }

    /// The lane has answered an order so; none where memory was wanting for that. The result is
    /// what the build does then. A start that wants memory at the lane for a minute in all is
    /// refused.
    pub fn hear(&mut self, answer: Option<OrderOutcome>) -> StartStep
        ensures step { result ≡ bounded self.old.tries (start_step answer) }
        ensures stage { self.new.stage ≡ after_step self.old.stage result }
        ensures tries { self.new.tries ≡ tries_in self.old.tries result }
    {
        let mut said = start_step(answer);
        if said == StartStep::AskShort {
            if self.tries.is_given_up(false) {
                said = StartStep::Refused(StartRefusal::Memory);
            } else {
                self.tries.tick();
            }
        }
        self.stage = after_step(self.stage, said);
        said
    }

    /// Gives the lane's actor the order once, and hears its answer.
    pub fn ask<S: Drop, R: Wait + Clock>(
        &mut self,
        rt: &R,
        alloc: Global,
        handle: &LaneHandle<S>,
        step: &StepPlan,
        cancelled: &CancelFlag,
        bytes: &ByteCount,
    ) -> StartStep
        ensures stage { self.new.stage ≡ after_step self.old.stage result }
        ensures tries { self.new.tries ≡ tries_in self.old.tries result }
        ensures bounded { result ≡ bounded self.old.tries result }
    {
        self.hear(try_start(rt, alloc, handle, step, cancelled, bytes))
    }
}
