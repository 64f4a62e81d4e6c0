//! The end of a lane that hears its worker.
ghost use Rattle.std.specs.Prelude.{◌≡◌, ◌≢◌, ◌≤◌, ◌<◌, ◌^◌, ◌++◌, ◌∷◌, [], length, IfErr};
ghost use Rattle.std.specs.Prelude.{MatchBool, MatchResult, true, false};
ghost use Rattle.std.specs.Arc.{arc_value};
ghost use Rattle.crossbeam_queue.specs.Passes.{IsPassOf, IsSamePass, ruled_capacity};
ghost use Rattle.bm_session.specs.Session.{IsPlanFor};
ghost use Rattle.bm_session.specs.Trace.{is_up as up_of, is_cut as cut_of, items, commands, orders};
ghost use Rattle.bm_session.specs.Trace.{reply, was_taken};
ghost use Rattle.bm_lane.specs.Relay.{hand, known};
ghost use Rattle.bm_lane.specs.Hearing.{TraceRefuses, Hears};

use crate::publisher::Publisher;
use crate::refusals::HearRefusal;
use crate::relay::{ItemPass, ItemQueue, Puts, Roles, Whole};
use crate::writer_end::WriterEnd;
use crate::yard::Yard;
use bm_session::{Event, Item, Plan, Refusal, Reply, Session};
use std::marker::{Model, PhantomData};
use std::sync::{Arc, Wait};

/// The reader's end of a lane: it takes events and puts their items into the queue.
///
/// At all times what it put is the items of its trace. Each call answers its event, which then ends
/// the trace; or hands the event back with the reason, and then nothing has changed.
///
/// It tells what its caller has to know (`is_up`, `next_order`), since no contract would tie a
/// caller's own note of that to it.
#[derive(Drop)]
pub struct ReaderEnd<Y: Yard> {
    lane: u64,
    session: Session,
    queue: Arc<ItemQueue>,
    pass: ItemPass,
    of: PhantomData<Y>,
}

impl<Y: Yard> Model for ReaderEnd<Y> {
    ghost use Rattle.std.specs.Prelude.{◌≡◌, [], true, false};
    ghost use Rattle.std.specs.Arc.{arc_value};
    ghost use Rattle.crossbeam_queue.specs.Passes.{IsPassOf, ruled_capacity};
    ghost use Rattle.bm_session.specs.Trace.{items};
    ghost use Rattle.bm_lane.specs.Relay.{hand, known};
    ghost use Rattle.bm_lane.specs.Ends.{Heard};

    ghost Value = { Heard };

    ghost view = { λ r. record {
      lane = r.lane;
      capacity = ruled_capacity (arc_value r.queue);
      trace = r.session.trace;
      put = (known r.pass).put;
    } };

    ghost invariant = { λ r. IsPassOf (arc_value r.queue) r.pass
        × (r.pass.table_id ≡ Y.queue r.lane)
        × (known r.pass ≡ hand true false (items r.session.trace) []) };
}

// Puts an item into the queue, where it has a place.
fn put<R: Wait>(rt: &R, queue: &ItemQueue, pass: &mut ItemPass, item: Item) -> bool
    requires own { IsPassOf queue.now pass.old }
    requires puts { (known pass.old).puts ≡ true }
    ensures own { IsSamePass pass.old pass.new }
    ensures put { MatchBool result
        (known pass.new ≡ hand (known pass.old).puts (known pass.old).takes
        ((known pass.old).put ++ item ∷ []) (known pass.old).taken)
        ((known pass.new ≡ known pass.old)
        × (ruled_capacity queue.now ≤ length (known pass.old).put)) }
{
    match queue.push_as::<Puts, R>(rt, pass, item) {
        Ok(()) => true,
        Err(_) => false,
    }
}

// Commits a plan whose item was taken, or gives none.
fn commit(session: &mut Session, plan: Plan) -> Reply
    requires { IsPlanFor session.old plan }
    ensures trace { session.new.trace ≡ session.old.trace ++ plan.event ∷ [] }
    ensures reply { result ≡ reply session.old.trace plan.event }
{
    let (reply, _) = session.commit(plan);
    reply
}

impl<Y: Yard> ReaderEnd<Y> {
    pub(crate) fn over(
        lane: u64,
        session: Session,
        queue: Arc<ItemQueue>,
        pass: ItemPass,
    ) -> ReaderEnd<Y>
        requires session { session.trace ≡ [] }
        requires queue { IsPassOf (arc_value queue) pass × (pass.table_id ≡ Y.queue lane) }
        requires fresh { known pass ≡ hand true false [] [] }
        ensures { result ≡ record {
          lane = lane;
          capacity = ruled_capacity (arc_value queue);
          trace = [];
          put = [];
        } }
    {
        ReaderEnd {
            lane,
            session,
            queue,
            pass,
            of: PhantomData,
        }
    }

    /// An event comes, as a message of the worker. It takes no memory where that gives the session
    /// up, and refuses a cut only where the trace does.
    ///
    /// Every event may come: to hear a Down is `down`. A condition that nothing needs would be
    /// proved by each caller.
    pub fn hear<R: Wait>(&mut self, rt: &R, event: Event) -> Result<Reply, (Event, HearRefusal)>
        ensures taken { Hears self.old event result self.new }
        ensures spared { event ≡ Event.Down
            → IfErr result (λ r. r.1 ≢ HearRefusal.Session Refusal.Mem) }
        ensures by_trace { event ≡ Event.Cut → IfErr result (λ r. TraceRefuses self.old event r.1) }
    {
        // A plan is readied, its item pushed, and the plan committed.
        // On a full queue it is withdrawn.
        let mut plan = match self.session.ready(event) {
            Ok(plan) => plan,
            Err((event, why)) => return Err((event, HearRefusal::Session(why))),
        };
        let Some(item) = plan.take_item() else {
            return Ok(commit(&mut self.session, plan));
        };
        if put(rt, &self.queue, &mut self.pass, item) {
            Ok(commit(&mut self.session, plan))
        } else {
            Err((self.session.withdraw(plan), HearRefusal::Busy))
        }
    }

    /// A connection of the worker begins. It resumes the session where that was cut.
    pub fn up<R: Wait>(&mut self, rt: &R) -> Result<Reply, (Event, HearRefusal)>
        ensures { Hears self.old Event.Up result self.new }
    {
        self.hear(rt, Event::Up)
    }

    /// The next command is ordered to start.
    pub fn go<R: Wait>(&mut self, rt: &R) -> Result<Reply, (Event, HearRefusal)>
        ensures { Hears self.old Event.Go result self.new }
    {
        self.hear(rt, Event::Go)
    }

    /// A command is ordered to stop.
    pub fn stop<R: Wait>(&mut self, rt: &R, command: u64) -> Result<Reply, (Event, HearRefusal)>
        ensures { Hears self.old (Event.Stop command) result self.new }
    {
        self.hear(rt, Event::Stop(command))
    }

    /// The connection is cut: commands stay open. It gives no item, so the lane is never busy, and
    /// takes no memory.
    pub fn cut<R: Wait>(&mut self, rt: &R) -> Result<Reply, (Event, HearRefusal)>
        ensures heard { Hears self.old Event.Cut result self.new }
        ensures by_trace { IfErr result (λ r. TraceRefuses self.old Event.Cut r.1) }
    {
        self.hear(rt, Event::Cut)
    }

    /// The session is given up. It takes no memory.
    pub fn down<R: Wait>(&mut self, rt: &R) -> Result<Reply, (Event, HearRefusal)>
        ensures heard { Hears self.old Event.Down result self.new }
        ensures spared { IfErr result (λ r. r.1 ≢ HearRefusal.Session Refusal.Mem) }
    {
        self.hear(rt, Event::Down)
    }

    /// The events that were taken, in order.
    pub fn trace(&self) -> &[Event]
        ensures events { result.now ≡ self.now.trace }
        ensures taken { was_taken self.now.trace ≡ true }
        ensures put { self.now.put ≡ items self.now.trace }
    {
        self.session.trace()
    }

    /// Whether the lane is up: a connection of its worker takes messages and orders. It takes
    /// constant time.
    pub fn is_up(&self) -> bool
        ensures { result ≡ up_of self.now.trace }
    {
        self.session.is_up()
    }

    /// Whether the lane is cut: its session may be resumed or given up. It takes constant time.
    pub fn is_cut(&self) -> bool
        ensures { result ≡ cut_of self.now.trace }
    {
        self.session.is_cut()
    }

    /// The number that the next order gets which is taken, in this session. It takes constant time.
    pub fn next_order(&self) -> u64
        ensures number { result ≡ orders self.now.trace }
        ensures small { result < 2 ^ 63 }
    {
        self.session.next_order()
    }

    /// The number of the command that is started next. It takes constant time.
    pub fn next_command(&self) -> u64
        ensures number { result ≡ commands self.now.trace }
        ensures small { result < 2 ^ 63 }
    {
        self.session.next_command()
    }

    /// The number of its lane.
    pub fn lane(&self) -> u64
        ensures { result ≡ self.now.lane }
    {
        self.lane
    }
}

impl<Y: Yard> ReaderEnd<Y> {
    /// The session and the publisher of the lane, where the queue is empty.
    pub(crate) fn join<R: Wait + Drop>(
        self,
        writer: WriterEnd<Y, R>,
    ) -> Result<(Session, Publisher<R>, u64), (ReaderEnd<Y>, WriterEnd<Y, R>)>
        requires { (self.lane ≡ writer.lane) × (writer.held ≡ []) }
        ensures { MatchResult result
            (λ s. (s.0.trace ≡ self.trace) × (s.1.shown ≡ items self.trace) × (s.1.held ≡ [])
            × (s.1.history ≡ Y.copy s.2) × (s.2 ≡ self.lane))
            (λ e. (e.0 ≡ self) × (e.1 ≡ writer)) }
    {
        let ReaderEnd {
            lane,
            session,
            queue,
            mut pass,
            of,
        } = self;
        let WriterEnd {
            lane: number,
            viewers,
            queue: theirs,
            pass: other,
            publisher,
            of: brand,
        } = writer;
        queue.absorb::<Roles>(&mut pass, other);
        if queue.is_empty_as::<Whole>(&mut pass) {
            return Ok((session, publisher, lane));
        }
        let other = queue.another::<Roles>(&mut pass);
        let reader = ReaderEnd {
            lane,
            session,
            queue,
            pass,
            of,
        };
        let writer = WriterEnd {
            lane: number,
            viewers,
            queue: theirs,
            pass: other,
            publisher,
            of: brand,
        };
        Err((reader, writer))
    }
}
