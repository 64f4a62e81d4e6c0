//! The ticks of a lane's actor, and the signals to it.

ghost use Rattle.std.specs.Prelude.{◌≡◌};
ghost use Rattle.bm_session.specs.Trace.{is_up};
ghost use Rattle.bm_lane_actor.specs.LaneActors.{CountsTicks, EndsProcess, GivenUp, MayEnd, MayShutDown, ShutsWorkerDown, Signals, TickPasses, TurnsWhere, counted_until, ended_ticks, with_state, with_ticks};

use crate::lane_actor::LaneActor;
use crate::lane_event::EventSink;
use crate::lane_policy::LaneInput;
use crate::lane_request::LaneSignal;
use crate::lane_state::Awaited;
use crate::stream::WorkerStream;
use bm_lane::Yard;
use bm_latent::{TICK_MS, TickCounter};
use std::io::{Read, Write};
use std::sync::Wait;
use std::time::Clock;

impl<'a, Y, T, R> LaneActor<'a, Y, T, R>
where
    Y: Yard,
    T: EventSink + Drop,
    R: Wait + Clock + Drop,
{
    /// Counts the ticks of a lane that is cut: one that isn't awaited any more is given up.
    pub(crate) fn count_ticks(&mut self, awaited: Awaited)
        ensures { CountsTicks awaited self.old self.new }
    {
        if awaited != Awaited::Tick {
            self.ticks = None;
            return;
        }
        let now = self.age();
        match self.ended_ticks(now) {
            Some(ended) => self.pass_ticks(ended),
            None => self.expire(),
        }
    }

    /// How many ticks have ended. None where the first begins now.
    fn ended_ticks(&mut self, now: Option<u64>) -> Option<u64>
        ensures ended { result ≡ ended_ticks now self.old.ticks }
        ensures ticks { self.new ≡ with_ticks self.old (counted_until now self.old.ticks) }
    {
        match &mut self.ticks {
            Some(ticks) => Some(ticks.told(now)),
            None => {
                self.ticks = Some(TickCounter::new(TICK_MS, now.unwrap_or(0)));
                None
            }
        }
    }

    /// So many ticks have passed.
    fn pass_ticks(&mut self, ended: u64)
        ensures { self.new ≡ with_state self.old self.new.state self.old.lively }
    {
        for _ in 0..ended {
            self.tick();
        }
    }

    /// Signals come before each request that lies in the mailbox.
    pub(crate) fn takes_signals(&mut self)
        ensures { Signals ⟦<WorkerStream<R> as Read>⟧.remaining
            ⟦<WorkerStream<R> as Write>⟧.contents self.old self.new }
    {
        self.takes_shut_down();
        self.takes_end();
    }

    /// The signal to shut the worker down is taken, where it was given.
    fn takes_shut_down(&mut self)
        ensures { MayShutDown ⟦<WorkerStream<R> as Read>⟧.remaining
            ⟦<WorkerStream<R> as Write>⟧.contents self.old self.new }
    {
        if self.mailbox.takes(LaneSignal::ShutDown) {
            self.shut_down();
        }
    }

    /// The signal that the worker's process has ended is taken, where it was given.
    fn takes_end(&mut self)
        ensures { MayEnd ⟦<WorkerStream<R> as Read>⟧.remaining
            ⟦<WorkerStream<R> as Write>⟧.contents self.old self.new }
    {
        if self.mailbox.takes(LaneSignal::Ended) {
            self.end_process();
        }
    }

    /// The worker is to shut down.
    fn shut_down(&mut self)
        ensures { ShutsWorkerDown ⟦<WorkerStream<R> as Read>⟧.remaining
            ⟦<WorkerStream<R> as Write>⟧.contents self.old self.new }
    {
        self.follows(LaneInput::ShutDown);
        self.state.shut_down(self.alloc);
        self.reads.told();
        self.expire();
    }

    /// The worker's process has ended. What lies ready of it is read before it is asked, since that
    /// is no answer.
    fn end_process(&mut self)
        ensures { EndsProcess ⟦<WorkerStream<R> as Read>⟧.remaining
            ⟦<WorkerStream<R> as Write>⟧.contents self.old self.new }
    {
        self.read_ready();
        let (is_up, came) = (self.is_up(), self.came());
        self.follows(LaneInput::Ended { is_up, came });
        self.state.dismiss();
        self.reads.told();
        self.expire();
    }

    /// Reads once where the lane is up.
    fn read_ready(&mut self)
        ensures { TurnsWhere ⟦<WorkerStream<R> as Read>⟧.remaining
            ⟦<WorkerStream<R> as Write>⟧.contents (is_up self.old.state.lane.trace) self.old self.new }
    {
        if self.is_up() {
            self.turn();
        }
    }

    /// A tick of a cut lane has passed.
    fn tick(&mut self)
        ensures { TickPasses self.old self.new }
    {
        let before = self.state.connection();
        self.state.tick(self.rt);
        let why = self.policy.why();
        self.note(before, why);
    }

    /// A cut lane whose worker is awaited no more is given up.
    fn expire(&mut self)
        ensures { GivenUp self.old self.new }
    {
        let before = self.state.connection();
        self.state.expire(self.rt);
        let why = self.policy.why();
        self.note(before, why);
    }
}
