//! How a session's table takes an event.

ghost use Rattle.std.specs.Prelude.{◌≡◌, ◌==◌, ◌≤◌, ◌<◌, ◌+◌, ◌^◌, ◌∷◌, ◌++◌, [], slice_set, true, false, not, length, filter, if◌then◌else◌, Some, None, IfOk, OnOk, vec_capacity};
ghost use Rattle.bm_session.specs.Trace.{Trace, is_up as up_of, refusal as refusal_of, was_taken};
ghost use Rattle.bm_session.specs.declared.open.Open.{Open};
ghost use Rattle.bm_session.specs.Seen.{verdict_in};
ghost use Rattle.bm_session.specs.Table.{IsTable, IsTableUp, counts as counts_in, is_link_cut, table_room, asks, ends_as as ends_as_lem};

use crate::event::{Body, Event};
use crate::open::{Open, note_stop, note_told, result_of_code, with_command, with_order};
use crate::results::Results;
use crate::table::{Link, Table};
use std::alloc::AllocError;

impl Table {
    /// Takes the event, which isn't refused, into the table.
    pub fn take(&mut self, event: &Event)
        requires known { (t : Trace) × IsTable self.old t × (refusal_of t event.now ≡ None) }
        requires orders { self.old.orders < 2 ^ 63 }
        requires places { 4 ≤ vec_capacity self.old.opened }
        requires room { 0 < table_room self.old }
        ensures table { (t : Trace) → IsTable self.old t → was_taken t ≡ true
            → refusal_of t event.now ≡ None → IsTable self.new (t ++ event.now ∷ []) }
        ensures places { 4 ≤ vec_capacity self.new.opened }
        ensures room { table_room self.old ≤ table_room self.new + 1 }
    {
        match event {
            Event::Up => self.take_up(),
            Event::Cut => self.take_cut(),
            Event::Down => self.take_down(),
            Event::Go => self.take_go(),
            Event::Stop(command) => self.take_stop(*command),
            Event::In(number, body) => self.take_in(*number, body),
        }
    }

    /// Takes the next event of a trace that was taken, and tells whether it counts for a log.
    pub fn follow(&mut self, event: &Event) -> Result<bool, AllocError>
        requires known { (t : Trace) × IsTable self.old t × (refusal_of t event.now ≡ None) }
        requires orders { self.old.orders < 2 ^ 63 }
        requires places { 4 ≤ vec_capacity self.old.opened }
        ensures counts { IfOk result (λ b. (t : Trace) → IsTable self.old t
            → refusal_of t event.now ≡ None → b ≡ counts_in t event.now) }
        ensures table { OnOk result ((t : Trace) → IsTable self.old t → was_taken t ≡ true
            → refusal_of t event.now ≡ None → IsTable self.new (t ++ event.now ∷ [])) }
        ensures places { 4 ≤ vec_capacity self.new.opened }
    {
        self.reserve(1)?;
        let counts = self.counts(event);
        self.take(event);
        Ok(counts)
    }

    fn orders_after_up(&self) -> u64
        ensures { result ≡ (if is_link_cut self.now.link then self.now.orders else 0) }
    {
        match self.link {
            Link::Cut => self.orders,
            Link::Down | Link::Up => 0,
        }
    }

    /// A session that was cut is resumed; else one begins.
    fn take_up(&mut self)
        ensures table { (t : Trace) → IsTable self.old t → refusal_of t Event.Up ≡ None
            → IsTable self.new (t ++ Event.Up ∷ []) }
        ensures places { vec_capacity self.new.opened ≡ vec_capacity self.old.opened }
        ensures room { table_room self.old ≤ table_room self.new }
    {
        self.orders = self.orders_after_up();
        self.link = Link::Up;
    }

    /// The commands stay open, and the numbers known.
    fn take_cut(&mut self)
        ensures table { (t : Trace) → IsTable self.old t → refusal_of t Event.Cut ≡ None
            → IsTable self.new (t ++ Event.Cut ∷ []) }
        ensures places { vec_capacity self.new.opened ≡ vec_capacity self.old.opened }
        ensures room { table_room self.old ≤ table_room self.new }
    {
        self.link = Link::Cut;
    }

    /// Every open command ends, and the session's numbers are forgotten.
    fn take_down(&mut self)
        ensures table { (t : Trace) → IsTable self.old t → IsTable self.new (t ++ Event.Down ∷ []) }
        ensures places { vec_capacity self.new.opened ≡ vec_capacity self.old.opened }
        ensures room { table_room self.old ≤ table_room self.new }
    {
        self.link = Link::Down;
        self.opened.clear();
        self.seen.clear();
    }

    fn take_go(&mut self)
        requires orders { self.old.orders < 2 ^ 63 }
        requires places { 4 ≤ vec_capacity self.old.opened }
        requires room { 0 < table_room self.old }
        ensures table { (t : Trace) → IsTable self.old t → was_taken t ≡ true
            → refusal_of t Event.Go ≡ None → IsTable self.new (t ++ Event.Go ∷ []) }
        ensures places { 4 ≤ vec_capacity self.new.opened }
        ensures room { table_room self.old ≤ table_room self.new + 1 }
    {
        let entry = Open {
            command: self.outcomes.len() as u64,
            order: self.orders,
            stopped: false,
            told: Results::Exception,
        };
        let _ = self.opened.push(entry);
        let _ = self.outcomes.push(None);
        self.orders += 1;
    }

    fn take_stop(&mut self, command: u64)
        requires { self.old.orders < 2 ^ 63 }
        ensures table { (t : Trace) → IsTable self.old t
            → refusal_of t (Event.Stop command) ≡ None
            → IsTable self.new (t ++ Event.Stop command ∷ []) }
        ensures places { vec_capacity self.new.opened ≡ vec_capacity self.old.opened }
        ensures room { table_room self.old ≤ table_room self.new }
    {
        note_stop(&mut self.opened, command);
        self.orders += 1;
    }

    /// Takes a message of the worker. The number of a request that is fresh is kept with its
    /// verdict, and a repeat changes nothing.
    fn take_in(&mut self, number: u64, body: &Body)
        requires known { IsTableUp self.old }
        requires room { 0 < table_room self.old }
        ensures table { (t : Trace) → IsTable self.old t → was_taken t ≡ true → up_of t ≡ true
            → IsTable self.new (t ++ Event.In number body.now ∷ []) }
        ensures places { vec_capacity self.new.opened ≡ vec_capacity self.old.opened }
        ensures room { table_room self.old ≤ table_room self.new + 1 }
    {
        match body {
            Body::Answered { fault } => {
                if *fault {
                    self.take_refusal(number);
                }
            }
            _ => {
                if self.seen.verdict(number).is_none() {
                    self.take_request(number, body);
                }
            }
        }
    }

    /// Takes the refusal of an order: the command that the order started ends, if it is open.
    fn take_refusal(&mut self, number: u64)
        requires { IsTableUp self.old }
        ensures table { (t : Trace) → IsTable self.old t → was_taken t ≡ true → up_of t ≡ true
            → IsTable self.new (t ++ Event.In number (Body.Answered true) ∷ []) }
        ensures places { vec_capacity self.new.opened ≡ vec_capacity self.old.opened }
        ensures room { table_room self.new ≡ table_room self.old }
    {
        if let Some(entry) = with_order(self.opened.as_slice(), number) {
            self.end(entry, true);
        }
    }

    fn take_request(&mut self, number: u64, body: &Body)
        requires known { IsTableUp self.old }
        requires room { 0 < table_room self.old }
        requires asks { asks body.now ≡ true }
        requires fresh { verdict_in self.old.seen.ranges number ≡ None }
        ensures table { (t : Trace) → IsTable self.old t → up_of t ≡ true
            → IsTable self.new (t ++ Event.In number body.now ∷ []) }
        ensures places { vec_capacity self.new.opened ≡ vec_capacity self.old.opened }
        ensures room { table_room self.old ≤ table_room self.new + 1 }
    {
        let verdict = self.verdict(body);
        self.seen.insert(number, verdict);
        match body {
            Body::Update { command, rc, .. } => {
                if let Some(rc) = rc {
                    note_told(&mut self.opened, *command, result_of_code(*rc));
                }
            }
            Body::Complete { command, fault } => {
                if let Some(entry) = with_command(self.opened.as_slice(), *command) {
                    self.end(entry, *fault);
                }
            }
            _ => {}
        }
    }

    /// Ends the open command.
    fn end(&mut self, entry: Open, fault: bool)
        requires { entry.command < length self.old.outcomes.items }
        ensures listed { self.new.opened.items ≡ filter
            (λ (o : Open). not (entry.command == o.command)) self.old.opened.items }
        ensures ended { self.new.outcomes.items
            ≡ slice_set self.old.outcomes.items entry.command (Some (ends_as_lem entry fault)) }
        ensures link { self.new.link ≡ self.old.link }
        ensures orders { self.new.orders ≡ self.old.orders }
        ensures seen { self.new.seen ≡ self.old.seen }
        ensures places { vec_capacity self.new.opened ≡ vec_capacity self.old.opened }
        ensures room { table_room self.new ≡ table_room self.old }
    {
        self.outcomes[entry.command as usize] = Some(entry.ends_as(fault));
        self.opened.retain(|other| entry.command != other.command);
    }
}
