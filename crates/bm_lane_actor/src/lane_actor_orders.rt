//! The orders of builds to a lane's actor.

ghost use Rattle.std.specs.Prelude.{◌≡◌, None, false};
ghost use Rattle.bm_lane_actor.specs.LaneActors.{SendsStop, StartsCounted, kept_stop};

use crate::connection_state::ConnectionState;
use crate::lane_actor::LaneActor;
use crate::lane_event::{EventSink, LaneEvent};
use crate::lane_request::{CancelFlag, StartOrder};
use crate::order_outcome::OrderOutcome;
use crate::stream::WorkerStream;
use bm_lane::Yard;
use bm_link::are_short;
use crossbeam_channel::Sender;
use std::alloc::Global;
use std::io::Write;
use std::sync::Wait;
use std::sync::atomic::Ordering;
use std::time::Clock;

/// Whether there is a flag, and it is set.
fn is_set(flag: &Option<CancelFlag>) -> bool
    ensures { flag.now ≡ None → result ≡ false }
{
    match flag {
        Some(flag) => flag.load(Ordering::SeqCst),
        None => false,
    }
}

/// Sends what came of an order to who waits for it. What was sent comes back, since no contract
/// sees what a channel holds.
fn reply<R: Wait>(
    rt: &R,
    answer: &Sender<OrderOutcome, Global>,
    outcome: OrderOutcome,
) -> OrderOutcome
    ensures { result ≡ outcome }
{
    let _ = answer.send(rt, outcome);
    outcome
}

impl<'a, Y, T, R> LaneActor<'a, Y, T, R>
where
    Y: Yard,
    T: EventSink + Drop,
    R: Wait + Clock + Drop,
{
    /// Starts a command, and answers what came of it.
    pub(crate) fn answer_start(
        &mut self,
        order: StartOrder,
        answer: &Sender<OrderOutcome, Global>,
    ) -> OrderOutcome
        ensures { StartsCounted ⟦<WorkerStream<R> as Write>⟧.contents order self.old result
            self.new }
    {
        let outcome = self.start(order);
        reply(self.rt, answer, outcome)
    }

    /// Starts a command. The words of a configuration are short enough. A plan by which others
    /// come is refused here, before its order is kept to be sent again. The flag is looked at right
    /// before the lane takes the order: who set it by then knows that no command follows. It is
    /// looked at before memory is wanting, so that a cancel ends what waits for that.
    fn start(&mut self, order: StartOrder) -> OrderOutcome
        ensures { StartsCounted ⟦<WorkerStream<R> as Write>⟧.contents order self.old result
            self.new }
    {
        let StartOrder {
            words,
            bytes,
            cancelled,
        } = order;
        let argv = words.as_slice();
        if !are_short(argv) {
            return OrderOutcome::TooLong;
        }
        let has_room = self.commands.reserve().is_ok();
        let before = self.state.connection();
        if is_set(&cancelled) {
            return OrderOutcome::Cancelled;
        }
        if !has_room {
            return OrderOutcome::Short;
        }
        let outcome = self.state.start(self.rt, self.alloc, argv);
        match outcome {
            OrderOutcome::Started(command) => self.commands.begin(command, bytes),
            OrderOutcome::Full => self.events.tell(LaneEvent::Filled),
            OrderOutcome::Interrupted
            | OrderOutcome::Cancelled
            | OrderOutcome::Later
            | OrderOutcome::Short
            | OrderOutcome::Refused
            | OrderOutcome::TooLong => {}
        }
        let why = self.state.order_loss();
        self.note(before, why);
        self.reads.told();
        outcome
    }

    /// Keeps the order to interrupt a command. False where memory is wanting.
    pub(crate) fn keep_stop(&mut self, command: u64) -> bool
        ensures { self.new ≡ kept_stop command result self.old }
    {
        self.stops.keep(command).is_ok()
    }

    /// Sends the oldest order to interrupt a command, where the lane takes it. One that it doesn't
    /// take just now is kept, and so is each while the lane is cut. Another turn follows: it sends
    /// the next one, or meets the fault of a link by which nothing could be sent.
    pub(crate) fn send_stop(&mut self)
        ensures { SendsStop ⟦<WorkerStream<R> as Write>⟧.contents self.old self.new }
    {
        let (before, took) = (self.state.connection(), self.gate.took(self.place));
        let Some(command) = self.stops.due(before) else {
            return;
        };
        let outcome = self.state.interrupt(self.rt, self.alloc, command);
        self.stops.tried(outcome);
        let why = self.state.order_loss();
        self.note(before, why);
        if outcome == OrderOutcome::Later && self.state.connection() == ConnectionState::Up {
            self.wait_for_place(took);
        }
        self.reads.told();
    }
}
