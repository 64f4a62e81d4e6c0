//! A lane as one value, and its steps.
ghost use Rattle.std.specs.Prelude.{◌≡◌, ◌≤◌, ◌<◌, ◌++◌, ◌∷◌, [], None, true, IfOk, IfErr, OnOk};
ghost use Rattle.std.specs.Prelude.{OnErr};
ghost use Rattle.bm_session.specs.Session.{IsPlanFor};
ghost use Rattle.bm_session.specs.Trace.{refusal as refusal_of, reply as reply_of, has_log};
ghost use Rattle.bm_session.specs.Trace.{productive, visible};
ghost use Rattle.bm_world.specs.World.{start, stepped, heard, drained, seen, answers_of};
ghost use Rattle.bm_world.specs.World.{TakesMemory};

use crate::answer::Answer;
use crate::step::Step;
use bm_lines::Text;
use bm_session::{Event, Item, Plan, Refusal, Reply, Session};
use bm_store::{Book, ViewRefusal};
use std::alloc::{AllocError, Global};
use std::collections::VecDeque;
use std::marker::Model;

/// A lane, one step at a time: the reader's session, the items that wait, and the book of those
/// that were drained.
///
/// Contracts see its capacity, its trace, and how many of the trace's items viewers see.
#[derive(Drop)]
pub struct World {
    capacity: usize,
    session: Session,
    queue: VecDeque<Item>,
    book: Book,
}

impl Model for World {
    ghost use Rattle.std.specs.Prelude.{◌-◌, length};
    ghost use Rattle.bm_session.specs.Trace.{productive};
    ghost use Rattle.bm_world.specs.World.{World as Lane};
    ghost use Rattle.bm_world.specs.Keeping.{IsKept};

    ghost Value = { Lane };

    ghost view = { λ w. record {
      capacity = w.capacity;
      trace = w.session.trace;
      shown = productive w.session.trace - length w.queue.items;
    } };

    ghost invariant = { λ w. IsKept w.session.trace w.queue.items w.book };
}

/// Commits a plan whose item was taken, or gives none.
fn commit(session: &mut Session, plan: Plan) -> Reply
    requires { IsPlanFor session.old plan }
    ensures trace { session.new.trace ≡ session.old.trace ++ plan.event ∷ [] }
    ensures reply { result ≡ reply_of session.old.trace plan.event }
{
    let (reply, _) = session.commit(plan);
    reply
}

impl World {
    /// A lane that took no event, whose queue takes up to `capacity` items.
    pub fn new(alloc: Global, capacity: usize) -> Result<World, AllocError>
        requires some { 1 ≤ capacity }
        requires few { capacity ≤ 65536 }
        ensures { IfOk result (λ w. w ≡ start capacity) }
    {
        Ok(World {
            capacity,
            session: Session::new(alloc)?,
            queue: VecDeque::new(alloc),
            book: Book::new(alloc),
        })
    }

    /// The reader's session.
    pub fn session(&self) -> &Session
        ensures { result.now.trace ≡ self.now.trace }
    {
        &self.session
    }

    /// Does one step. Out of memory, the step comes back and nothing has changed. An event that is
    /// refused, a drain that finds no item, and a look at a log that isn't there take no memory. An
    /// event that finds the queue full may, since a plan takes its memory first.
    pub fn step(&mut self, step: Step) -> Result<Answer, (Step, AllocError)>
        ensures answer { IfOk result (λ a. a ≡ (stepped self.old step).0) }
        ensures after { OnOk result (self.new ≡ (stepped self.old step).1) }
        ensures back { IfErr result (λ e. e.0 ≡ step) }
        ensures unchanged { OnErr result (self.new ≡ self.old) }
        ensures wanting { OnErr result (TakesMemory self.old step) }
    {
        match step {
            Step::Hear(event) => match self.hear(event) {
                Ok(answer) => Ok(answer),
                Err(event) => Err((Step::Hear(event), AllocError)),
            },
            Step::Drain => match self.drain() {
                Ok(answer) => Ok(answer),
                Err(error) => Err((Step::Drain, error)),
            },
            Step::Look(k, name, offset, limit) => match self.look(k, &name, offset, limit) {
                Ok(answer) => Ok(answer),
                Err(error) => Err((Step::Look(k, name, offset, limit), error)),
            },
        }
    }

    /// Takes an event whose item has room. Out of memory, the event comes back.
    fn hear(&mut self, event: Event) -> Result<Answer, Event>
        ensures answer { IfOk result (λ a. a
            ≡ (heard self.old event (refusal_of self.old.trace event)).0) }
        ensures after { OnOk result (self.new
            ≡ (heard self.old event (refusal_of self.old.trace event)).1) }
        ensures back { IfErr result (λ e. e ≡ event) }
        ensures unchanged { OnErr result (self.new ≡ self.old) }
        ensures wanting { OnErr result (refusal_of self.old.trace event ≡ None) }
    {
        let mut plan = match self.session.ready(event) {
            Ok(plan) => plan,
            Err((event, Refusal::Mem)) => return Err(event),
            Err((_, reason)) => return Ok(Answer::Refused(reason)),
        };
        let Some(item) = plan.take_item() else {
            return Ok(Answer::Heard(commit(&mut self.session, plan)));
        };
        if self.queue.len() >= self.capacity {
            return Ok(Answer::Busy);
        }
        if self.queue.reserve(1).is_err() {
            return Err(self.session.withdraw(plan));
        }
        self.queue.push_back_reserved(item);
        Ok(Answer::Heard(commit(&mut self.session, plan)))
    }

    /// Takes one item out of the queue into the book. Out of memory, it stays in the queue.
    fn drain(&mut self) -> Result<Answer, AllocError>
        ensures answer { IfOk result (λ a. a ≡ (drained self.old).0) }
        ensures after { OnOk result (self.new ≡ (drained self.old).1) }
        ensures unchanged { OnErr result (self.new ≡ self.old) }
        ensures wanting { OnErr result (self.old.shown < productive self.old.trace) }
    {
        let Some(item) = self.queue.pop_front() else {
            return Ok(Answer::Empty);
        };
        match self.book.apply(&item) {
            Ok(()) => Ok(Answer::Took),
            Err(error) => {
                self.queue.push_front_reserved(item);
                Err(error)
            }
        }
    }

    /// The asked lines of what viewers see.
    fn look(&self, k: u64, name: &Text, offset: u64, limit: u64) -> Result<Answer, AllocError>
        ensures answer { IfOk result (λ a. a ≡ seen self.now k name.now offset limit) }
        ensures wanting { OnErr result (has_log (visible self.now.trace self.now.shown) k name.now
            ≡ true) }
    {
        match self.book.slice(k, name.as_str(), offset, limit) {
            Ok(chunk) => Ok(Answer::Chunk(chunk)),
            Err(ViewRefusal::NoLog) => Ok(Answer::NoLog),
            Err(ViewRefusal::Mem) => Err(AllocError),
            Err(ViewRefusal::Closed) => Err(AllocError),
        }
    }

    /// The answers of a new lane to the steps, in order.
    pub fn run(alloc: Global, steps: Vec<Step>, capacity: usize) -> Result<Vec<Answer>, AllocError>
        requires some { 1 ≤ capacity }
        requires few { capacity ≤ 65536 }
        ensures { IfOk result (λ v. v.items ≡ answers_of (start capacity) steps.items) }
    {
        let mut world = World::new(alloc, capacity)?;
        let mut answers = Vec::with_capacity(alloc, steps.len())?;
        for step in steps {
            match world.step(step) {
                Ok(answer) => answers.push(answer)?,
                Err((_, error)) => return Err(error),
            }
        }
        Ok(answers)
    }
}
