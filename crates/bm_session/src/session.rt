//! A lane's session.

ghost use Rattle.std.specs.Prelude.{◌≡◌, ◌⊎◌, ◌++◌, ◌∷◌, ◌||◌, ◌≤◌, ◌<◌, ◌^◌, [], Some, None, true, false, IfOk, IfErr, IsOk, OnOk, if◌then◌else◌};
ghost use Rattle.bm_session.specs.Trace.{is_up as up_of, is_cut as cut_of, orders as orders_of, commands as commands_of, refusal as refusal_of, reply as reply_of, item as item_of, log as log_of, has_log as has_log_in, outcome as outcome_of, was_taken};
ghost use Rattle.bm_session.specs.Seen.{HoldsSeen};
ghost use Rattle.bm_session.specs.Session.{IsPlanFor, needed, ran_as, trace_as, ran_after, trace_after};

use crate::event::Event;
use crate::item::Item;
use crate::log;
use crate::plan::Plan;
use crate::refusal::Refusal;
use crate::reply::Reply;
use crate::results::Results;
use crate::run::Ran;
use crate::seen::Seen;
use crate::table::Table;
use bm_lines::{Block, STDIO};
use std::alloc::{AllocError, Global};
use std::marker::Model;

/// A lane's session: the events that it took, and the table of what they mean.
///
/// While it is up it has room for two events more, and while it is cut for one. So it can be cut
/// and given up without memory.
#[derive(Drop)]
pub struct Session {
    events: Vec<Event>,
    table: Table,
}

impl Model for Session {
    ghost use Rattle.std.specs.Prelude.{◌-◌, min, vec_len, vec_capacity};
    ghost use Rattle.bm_session.specs.Session.{SessionState};
    ghost use Rattle.bm_session.specs.Table.{IsSession, table_room};

    ghost Value = { SessionState };

    ghost view = { λ s. record {
      trace = s.events.items;
      room = min (vec_capacity s.events - vec_len s.events) (table_room s.table);
    } };

    ghost invariant = { λ s. IsSession (record {
      trace = s.events.items;
      room = min (vec_capacity s.events - vec_len s.events) (table_room s.table);
    }) s.table };
}

impl Session {
    /// A session that took no event yet, and isn't up.
    pub fn new(alloc: Global) -> Result<Session, AllocError>
        ensures { IfOk result (λ s. s.trace ≡ []) }
    {
        Ok(Session {
            events: Vec::with_capacity(alloc, 2)?,
            table: Table::new(alloc)?,
        })
    }

    /// The events that were taken, in order.
    pub fn trace(&self) -> &[Event]
        ensures events { result.now ≡ self.now.trace }
        ensures taken { was_taken self.now.trace ≡ true }
    {
        self.events.as_slice()
    }

    /// The events that were taken, in order, when the session is over.
    pub fn into_trace(self) -> Vec<Event>
        ensures events { result.items ≡ self.trace }
        ensures taken { was_taken self.trace ≡ true }
    {
        let Session { events, .. } = self;
        events
    }

    /// Whether the lane is up: a connection of the worker takes messages and orders. It takes
    /// constant time.
    pub fn is_up(&self) -> bool
        ensures { result ≡ up_of self.now.trace }
    {
        self.table.is_up()
    }

    /// Whether the lane is cut: the session may be resumed or given up. It takes constant time.
    pub fn is_cut(&self) -> bool
        ensures { result ≡ cut_of self.now.trace }
    {
        self.table.is_cut()
    }

    /// The number that the next order gets which is taken, in this session. It takes constant time.
    pub fn next_order(&self) -> u64
        ensures number { result ≡ orders_of self.now.trace }
        ensures small { result < 2 ^ 63 }
    {
        self.table.orders
    }

    /// The number of the command that is started next. It takes constant time.
    pub fn next_command(&self) -> u64
        ensures number { result ≡ commands_of self.now.trace }
        ensures small { result < 2 ^ 63 }
    {
        self.table.commands()
    }

    /// The log of the command under the name, or None where that log isn't there. It reads the
    /// whole trace, and takes memory for that unless the command was never started. A flag for each
    /// event would make each line larger, and this is asked seldom. To ask for n logs in turn takes
    /// n times n comparisons of n names.
    pub fn log(&self, alloc: Global, command: u64, name: &str) -> Result<Option<Block>, AllocError>
        ensures log { IfOk result (λ log. log ≡ (if has_log_in self.now.trace command name.now
            then Some (log_of self.now.trace command name.now) else None)) }
        ensures unstarted { commands_of self.now.trace ≤ command → IsOk result }
    {
        if command >= self.table.commands() {
            return Ok(None);
        }
        let (found, log) = log::walk(alloc, self.events.as_slice(), command, name)?;
        if name != STDIO && !found {
            return Ok(None);
        }
        Ok(Some(log))
    }

    /// How the command ended, or None while it is open or isn't there.
    pub fn outcome(&self, command: u64) -> Option<Results>
        ensures { result ≡ outcome_of self.now.trace command }
    {
        self.table.outcome(command)
    }

    /// The numbers of the requests that the session had, with the first verdicts. They are sorted
    /// ranges, of which no two overlap or could be one. While the session is neither up nor cut
    /// there are none.
    pub fn seen(&self) -> &[Seen]
        ensures holds { HoldsSeen result.now self.now.trace }
        ensures none { (up_of self.now.trace || cut_of self.now.trace) ≡ false → result.now ≡ [] }
    {
        self.table.seen.as_slice()
    }

    /// Decides whether the event is taken next, and takes the memory that this needs. The session
    /// means the same afterwards, and earlier plans for it stay good. An event that isn't taken
    /// comes back with the reason.
    ///
    /// To cut a session takes no memory, nor does it to give up one that is up or cut.
    pub fn ready(&mut self, event: Event) -> Result<Plan, (Event, Refusal)>
        ensures same { self.new.trace ≡ self.old.trace }
        ensures room { self.old.room ≤ self.new.room }

        ensures planned { IfOk result (λ p. IsPlanFor self.new p) }
        ensures event { IfOk result (λ p. p.event ≡ event) }
        ensures item { IfOk result (λ p. p.given ≡ item_of self.old.trace event) }

        ensures back { IfErr result (λ r. r.0 ≡ event) }
        ensures refused { IfErr result (λ r. (refusal_of self.old.trace event ≡ Some r.1)
            ⊎ ((refusal_of self.old.trace event ≡ None) × (r.1 ≡ Refusal.Mem))) }
        ensures down { event ≡ Event.Down → (up_of self.old.trace || cut_of self.old.trace) ≡ true
            → IsOk result }
        ensures cut { event ≡ Event.Cut
            → IfErr result (λ r. refusal_of self.old.trace event ≡ Some r.1) }
    {
        match self.prepare(&event) {
            Ok((reply, item)) => Ok(Plan::of(event, reply, item)),
            Err(reason) => Err((event, reason)),
        }
    }

    /// What the master sends after the event, and its item, or why it isn't taken. Makes the room
    /// that it needs.
    fn prepare(&mut self, event: &Event) -> Result<(Reply, Option<Item>), Refusal>
        ensures same { self.new.trace ≡ self.old.trace }
        ensures room { self.old.room ≤ self.new.room }

        ensures accepted { OnOk result (refusal_of self.old.trace event.now ≡ None) }
        ensures spare { OnOk result (needed event.now ≤ self.new.room) }
        ensures reply { IfOk result (λ r. r.0 ≡ reply_of self.old.trace event.now) }
        ensures item { IfOk result (λ r. r.1 ≡ item_of self.old.trace event.now) }

        ensures refused { IfErr result (λ r. (refusal_of self.old.trace event.now ≡ Some r)
            ⊎ ((refusal_of self.old.trace event.now ≡ None) × (r ≡ Refusal.Mem))) }
        ensures down { event.now ≡ Event.Down
            → (up_of self.old.trace || cut_of self.old.trace) ≡ true → IsOk result }
        ensures cut { event.now ≡ Event.Cut
            → IfErr result (λ r. refusal_of self.old.trace event.now ≡ Some r) }
    {
        if let Some(reason) = self.table.refusal(self.events.len(), event) {
            return Err(reason);
        }
        let reply = self.table.reply(event);
        let Ok(item) = self.table.item(event) else {
            return Err(Refusal::Mem);
        };
        let needed = match event {
            Event::Down => 1,
            Event::Cut => 2,
            _ => 3,
        };
        if self.events.reserve(needed).is_err() || self.table.reserve(needed).is_err() {
            return Err(Refusal::Mem);
        }
        Ok((reply, item))
    }

    /// Takes an event that was prepared, where none was taken since.
    fn record(&mut self, event: Event)
        requires accepted { refusal_of self.old.trace event ≡ None }
        requires room { needed event ≤ self.old.room }
        ensures { self.new.trace ≡ self.old.trace ++ event ∷ [] }
    {
        self.table.take(&event);
        self.events.push_reserved(event);
    }

    /// Takes the event of the plan: answers what the master sends, and the event's item unless it
    /// was taken from the plan before.
    pub fn commit(&mut self, plan: Plan) -> (Reply, Option<Item>)
        requires { IsPlanFor self.old plan }
        ensures trace { self.new.trace ≡ self.old.trace ++ plan.event ∷ [] }
        ensures reply { result.0 ≡ reply_of self.old.trace plan.event }
        ensures item { result.1 ≡ plan.given }
    {
        let (event, reply, item) = plan.into_parts();
        self.record(event);
        (reply, item)
    }

    /// A session that took the events, one after the other, and what came of each. A refused event
    /// is passed over.
    pub fn run(alloc: Global, events: Vec<Event>) -> Result<(Session, Vec<Ran>), AllocError>
        ensures trace { IfOk result (λ r. r.0.trace ≡ trace_after [] events.items) }
        ensures ran { IfOk result (λ r. r.1.items ≡ ran_after [] events.items) }
    {
        let mut session = Session::new(alloc)?;
        let mut ran = Vec::with_capacity(alloc, events.len())?;
        for event in events {
            let one = session.take(event)?;
            ran.push(one)?;
        }
        Ok((session, ran))
    }

    /// Takes the event, or passes it over.
    fn take(&mut self, event: Event) -> Result<Ran, AllocError>
        ensures trace { IfOk result (λ r. self.new.trace
            ≡ trace_as self.old.trace event (refusal_of self.old.trace event)) }
        ensures ran { IfOk result
            (λ r. r ≡ ran_as self.old.trace event (refusal_of self.old.trace event)) }
    {
        match self.ready(event) {
            Ok(plan) => {
                let (reply, item) = self.commit(plan);
                Ok(Ran::Done(reply, item))
            }
            Err((_, Refusal::Mem)) => Err(AllocError),
            Err((_, reason)) => Ok(Ran::Refused(reason)),
        }
    }

    /// Gives the event of the plan back. Nothing was done.
    pub fn withdraw(&mut self, plan: Plan) -> Event
        ensures event { result ≡ plan.event }
        ensures same { self.new ≡ self.old }
    {
        let (event, _, _) = plan.into_parts();
        event
    }
}
