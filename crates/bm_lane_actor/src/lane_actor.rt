//! The actor of a lane: a thread's loop round the lane's state.

ghost use Rattle.std.specs.Prelude.{◌≡◌, None, true};
ghost use Rattle.bm_lane_actor.specs.LaneStates.{GivesUp};
ghost use Rattle.bm_lane_actor.specs.LaneActors.{Departs, HandsBack, Obeys, Rests, Runs, TakesNext, TakesTurn, Waits, with_state};

use crate::byte_count::ByteCounts;
use crate::connection_state::ConnectionState;
use crate::drain_gate::DrainGate;
use crate::lane_event::{EventSink, event_after, loss_of};
use crate::lane_policy::{LaneInput, LanePolicy};
use crate::lane_request::{LaneRequest, LaneSignal};
use crate::lane_state::{Awaited, LaneState};
use crate::mailbox::{Mailbox, NextRequest};
use crate::read_watch::ReadWatch;
use crate::stop_orders::StopOrders;
use crate::stream::WorkerStream;
use bm_lane::{ReaderEnd, Yard};
use bm_latent::{TICK_MS, TickCounter};
use bm_link::{LinkFault, MasterLink, Turn};
use bm_operator::LossCause;
use bumpalo::Bump;
use std::alloc::Global;
use std::io::{Read, Write};
use std::marker::Model;
use std::sync::Wait;
use std::time::{Clock, Duration, Instant};

/// The most bytes that the arena of a lane's messages takes, and what it keeps after a message. A
/// reader without a tree would spare them, and be a second decoder. No clause has this limit, since
/// `bumpalo`'s contract doesn't say that it holds.
const MOST_ARENA_BYTES: usize = 32 * 1_048_576;

const MOST_KEPT_BYTES: usize = 1_048_576;

/// The actor of a lane at work.
#[derive(Drop)]
pub(crate) struct LaneActor<'a, Y: Yard, T, R: Wait + Clock + Drop> {
    pub(crate) rt: &'a R,
    pub(crate) alloc: Global,
    /// The lane, with its link.
    pub(crate) state: LaneState<Y, WorkerStream<R>>,
    /// Where messages are read.
    pub(crate) arena: Bump,
    /// Since when the timer counts. None where the clock failed: it then counts nothing.
    pub(crate) began: Option<Instant>,
    /// What is to be done about the worker's connection, and about a link that waits.
    pub(crate) policy: LanePolicy,
    /// A link that has logged in while the lane is up, until the lane's worker lives or is given
    /// up. The policy says whether there is one.
    pub(crate) waiting: Option<MasterLink<WorkerStream<R>>>,
    pub(crate) gate: &'a DrainGate<R>,
    /// The number of the lane.
    pub(crate) place: usize,
    /// Who is told what happens to the lane.
    pub(crate) events: T,
    /// The commands that were started whose end no build has seen, and what their updates carried.
    pub(crate) commands: ByteCounts,
    /// Whether a read of the link may give something.
    pub(crate) reads: ReadWatch,
    /// The commands that are to be interrupted once the lane takes that order.
    pub(crate) stops: StopOrders,
    /// The ticks of a lane that is cut, from the cut on. A link that takes the lane up ends them:
    /// the next cut has its own.
    pub(crate) ticks: Option<TickCounter>,
    /// Where it waits.
    pub(crate) mailbox: Mailbox<WorkerStream<R>>,
}

impl<'a, Y: Yard, T, R: Wait + Clock + Drop> Model for LaneActor<'a, Y, T, R> {
    ghost use Rattle.bm_lane_actor.specs.LaneActors.{ActorView};
    ghost use Rattle.bm_lane_actor.specs.declared.stream.WorkerStream.{WorkerStream};

    ghost Value = { ActorView (WorkerStream R) };

    ghost view = { λ a. record {
      state = a.state;
      policy = a.policy;
      waiting = a.waiting;
      stops = a.stops.commands.items;
      counted = a.commands.commands.items;
      lively = a.reads;
      ticks = a.ticks;
      began = a.began;
    } };
}

/// An arena for a lane's messages.
fn arena_of(alloc: Global) -> Bump {
    let arena = Bump::new(alloc);
    arena.set_allocation_limit(Some(MOST_ARENA_BYTES));
    arena
}

/// Serves a lane until it gets the signal `Leave`. It waits in one place, where its mailbox and its
/// worker's connections wake it. It obeys each request, and hears the worker once a read may give
/// something. It asks a silent one for a sign of life, and counts ticks while the lane is cut.
/// After each event it wakes the gate. What happens to the lane it tells before it takes or answers
/// a request after that. With timed reads between, each order would wait for a read, and each idle
/// lane would wake often.
///
/// Then the mailbox is shut, and a login that waits is told `busy`. The worker is told by a close
/// frame, the session is given up, and the lane's end comes back.
pub fn serve_lane<Y, T, R>(
    rt: &R,
    alloc: Global,
    state: LaneState<Y, WorkerStream<R>>,
    mailbox: Mailbox<WorkerStream<R>>,
    gate: &DrainGate<R>,
    events: T,
) -> ReaderEnd<Y>
where
    Y: Yard,
    T: EventSink + Drop,
    R: Wait + Clock + Drop,
    requires { state.lane.lane ≡ mailbox }
    ensures { HandsBack ⟦<WorkerStream<R> as Write>⟧.contents result }
{
    let mut actor = LaneActor {
        rt,
        alloc,
        state,
        arena: arena_of(alloc),
        began: Instant::now(rt).ok(),
        policy: LanePolicy::new(),
        waiting: None,
        gate,
        place: mailbox.lane() as usize,
        events,
        commands: ByteCounts::new(alloc),
        reads: ReadWatch::new(),
        stops: StopOrders::new(alloc),
        ticks: None,
        mailbox,
    };
    for _ in rt.forever() {
        if !actor.goes_on() {
            break;
        }
    }
    actor.mailbox.shut();
    actor.follows(LaneInput::PutOff);
    actor.leave();
    actor.into_reader()
}

impl<'a, Y, T, R> LaneActor<'a, Y, T, R>
where
    Y: Yard,
    T: EventSink + Drop,
    R: Wait + Clock + Drop,
{
    /// Waits at the mailbox, and does what comes. False once it is told to leave.
    fn goes_on(&mut self) -> bool
        ensures { Runs ⟦<WorkerStream<R> as Read>⟧.remaining
            ⟦<WorkerStream<R> as Write>⟧.contents self.old result self.new }
    {
        if self.mailbox.takes(LaneSignal::Leave) {
            return false;
        }
        self.takes_signals();
        self.watch();
        self.send_stop();
        let awaited = self.state.awaited(self.reads.may_give());
        self.count_ticks(awaited);
        let next = self.wait(awaited);
        self.takes(next)
    }

    /// Waits at the mailbox for what is awaited, and answers what lies there. An arrival says that
    /// a read may give something.
    fn wait(&mut self, awaited: Awaited) -> NextRequest<WorkerStream<R>>
        ensures { Waits self.old self.new }
    {
        let next = match awaited {
            Awaited::Request | Awaited::Glance => {
                let most = self.glance();
                self.mailbox.wait_for(self.rt, most)
            }
            Awaited::Message => self.mailbox.look(self.rt),
            Awaited::Tick => {
                let most = Duration::from_millis(TICK_MS);
                self.mailbox.wait_for(self.rt, most)
            }
        };
        if self.mailbox.has_arrival() {
            self.reads.told();
        }
        next
    }

    /// How long it waits for a request at most.
    fn glance(&self) -> Duration
        ensures { Rests self.now result }
    {
        Duration::from_millis(self.policy.rest_ms(self.is_up(), self.now()))
    }

    /// Obeys what was in the mailbox, or hears the worker where nothing was.
    fn takes(&mut self, next: NextRequest<WorkerStream<R>>) -> bool
        ensures { TakesNext ⟦<WorkerStream<R> as Read>⟧.remaining
            ⟦<WorkerStream<R> as Write>⟧.contents next self.old result self.new }
    {
        match next {
            NextRequest::Request(request) => self.obeys(request),
            NextRequest::Nothing => self.turn(),
            NextRequest::Left => return false,
        }
        true
    }

    /// Does what it is asked for.
    fn obeys(&mut self, request: LaneRequest<WorkerStream<R>>)
        ensures { Obeys ⟦<WorkerStream<R> as Read>⟧.remaining
            ⟦<WorkerStream<R> as Write>⟧.contents request self.old self.new }
    {
        match request {
            LaneRequest::Attach(link) => self.attach(link),
            LaneRequest::Start(order, answer) => {
                self.answer_start(order, &answer);
            }
            LaneRequest::Interrupt(command, answer) => {
                let is_kept = self.keep_stop(command);
                let _ = answer.send(self.rt, is_kept);
            }
            LaneRequest::Seen(command) => self.commands.end(command),
            LaneRequest::Settle(answer) => {
                let _ = answer.send(self.rt, ());
            }
            LaneRequest::PutOff(answer) => {
                self.follows(LaneInput::PutOff);
                let _ = answer.send(self.rt, ());
            }
        }
    }

    /// Wakes the gate, and tells how the lane went on from where it stood. Then its builds are
    /// called.
    pub(crate) fn note(&mut self, before: ConnectionState, cause: LossCause)
        ensures { self.new ≡ self.old }
    {
        if let Some(event) = event_after(before, self.state.connection(), cause) {
            self.events.tell(event);
            self.gate.call_builds(self.place);
        }
        self.gate.wake(self.place);
    }

    /// Reads one message of the worker, where one is there, and tells who waits for what it
    /// brought.
    pub(crate) fn turn(&mut self)
        ensures { TakesTurn ⟦<WorkerStream<R> as Read>⟧.remaining
            ⟦<WorkerStream<R> as Write>⟧.contents self.old self.new }
    {
        let before = self.state.connection();
        let took = self.gate.took(self.place);
        let answer = self.state.turn(self.rt, self.alloc, &mut self.arena);
        let is_drained = self.is_drained();
        self.reads.turned(&answer, is_drained);
        match answer {
            Ok(Turn::Quiet) => {}
            Ok(Turn::Busy) => self.wait_for_place(took),
            Ok(Turn::Heard) => self.heard(),
            Ok(Turn::Noted) => self.gate.ring(self.place),
            Ok(Turn::Dropped) => self.gate.wake(self.place),
            Err(fault) => self.note(before, loss_of(fault)),
        }
        if self.arena.allocated_bytes() > MOST_KEPT_BYTES {
            self.arena = arena_of(self.alloc);
        }
    }

    /// Whether a read of the link gives nothing until something comes.
    pub(crate) fn is_drained(&self) -> bool
        ensures { self.now.state.link ≡ None → result ≡ true }
    {
        match self.state.stream() {
            Some(stream) => stream.is_drained(),
            None => true,
        }
    }

    /// Counts what was heard, and wakes the gate; for what is more than lines the builds too.
    fn heard(&mut self)
        ensures { self.new ≡ self.old }
    {
        let is_lines = match self.state.last_event() {
            Some(event) => self.commands.note(event),
            None => false,
        };
        if is_lines {
            self.gate.wake(self.place);
        } else {
            self.gate.ring(self.place);
        }
    }

    /// Waits until the lane's queue has room; a tick at most.
    pub(crate) fn wait_for_place(&self, took: u64) {
        self.gate
            .wait_for_drain(self.place, took, Duration::from_millis(TICK_MS));
    }

    /// Tells the worker that the master ends, and gives the session up.
    fn leave(&mut self)
        ensures { Departs ⟦<WorkerStream<R> as Write>⟧.contents self.old self.new }
    {
        self.state.close();
        self.give_up();
        self.gate.ring(self.place);
    }

    /// Gives the session up once the lane's queue has room for that.
    fn give_up(&mut self)
        ensures lane { GivesUp self.old.state true self.new.state }
        ensures rest { self.new ≡ with_state self.old self.new.state self.old.lively }
    {
        for _ in self.rt.forever() {
            let took = self.gate.took(self.place);
            if self.state.give_up(self.rt) {
                return;
            }
            self.wait_for_place(took);
        }
        unreachable!()
    }

    /// Hands the lane's end back.
    fn into_reader(self) -> ReaderEnd<Y>
        ensures { result ≡ self.entry.state.lane }
    {
        drop(self.waiting);
        self.state.into_reader()
    }
}
