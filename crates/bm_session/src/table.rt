//! What a session keeps of its trace.

ghost use Rattle.std.specs.Prelude.{◌≡◌, ◌&&◌, ◌≤◌, ◌<◌, [], ℕ, true, false, length, option_map, if◌then◌else◌, Some, None, IfOk, IsOk, OnOk, vec_capacity};
ghost use Rattle.bm_session.specs.Trace.{Trace, is_up as up_of, is_cut as cut_of, commands as commands_of, is_open as is_open_in, is_new as is_new_in, ended_by as ended_by_of, outcome as outcome_of, verdict as verdict_of, answer as answer_of, reply as reply_of, refusal as refusal_of, item as item_of};
ghost use Rattle.bm_session.specs.declared.open.Open.{Open};
ghost use Rattle.bm_session.specs.Table.{IsTable, counts as counts_in, table_room, open_entry};

use crate::event::{Body, Event};
use crate::item::Item;
use crate::open::{Open, is_fault, with_command, with_order};
use crate::ranges::Ranges;
use crate::refusal::Refusal;
use crate::reply::{Reply, Verdict};
use crate::results::Results;
use std::alloc::{AllocError, Global};

/// So many commands of a lane may be open.
pub(crate) const MOST_OPEN: usize = 4;

/// So many events a lane may have, and one more that gives its session up.
pub(crate) const MOST_EVENTS: usize = 999_999;

/// Whether a lane's worker is there.
#[derive(Clone, Copy, PartialEq, Eq)]
pub enum Link {
    Down,
    Up,
    Cut,
}

/// What a session keeps of its trace, so that it needn't read it again.
#[derive(Drop)]
pub struct Table {
    pub link: Link,
    /// How many orders the session had.
    pub orders: u64,
    /// The open commands, oldest first: at most four.
    pub opened: Vec<Open>,
    /// For each command how it ended. None stands for one that is open, and for one that ended with
    /// its session.
    pub outcomes: Vec<Option<Results>>,
    /// The request numbers that the session had, with the first verdicts. None while the lane is
    /// down.
    pub seen: Ranges,
}

impl Table {
    /// The table of the empty trace.
    pub fn new(alloc: Global) -> Result<Table, AllocError>
        ensures empty { IfOk result (λ tb. IsTable tb []) }
        ensures places { IfOk result (λ tb. 4 ≤ vec_capacity tb.opened) }
    {
        Ok(Table {
            link: Link::Down,
            orders: 0,
            opened: Vec::with_capacity(alloc, MOST_OPEN)?,
            outcomes: Vec::new(alloc),
            seen: Ranges::new(alloc),
        })
    }

    /// Whether the command is open.
    pub fn is_open(&self, command: u64) -> bool
        ensures { (t : Trace) → IsTable self.now t → result ≡ is_open_in t command }
    {
        with_command(self.opened.as_slice(), command).is_some()
    }

    /// How many commands were started.
    pub fn commands(&self) -> u64
        ensures { (t : Trace) → IsTable self.now t → result ≡ commands_of t }
    {
        self.outcomes.len() as u64
    }

    /// Whether the event is a fresh update of a command that is open.
    pub(crate) fn counts(&self, event: &Event) -> bool
        ensures { (t : Trace) → IsTable self.now t → refusal_of t event.now ≡ None
            → result ≡ counts_in t event.now }
    {
        match event {
            Event::In(n, Body::Update { command, .. }) => self.updates(*n, *command),
            _ => false,
        }
    }

    /// How the command ended, or None while it is open or isn't there.
    pub fn outcome(&self, command: u64) -> Option<Results>
        ensures { (t : Trace) → IsTable self.now t → result ≡ outcome_of t command }
    {
        if command >= self.outcomes.len() as u64 {
            return None;
        }
        match self.outcomes[command as usize] {
            Some(result) => Some(result),
            None if self.is_open(command) => None,
            None => Some(Results::Retry),
        }
    }

    /// The verdict on a fresh request.
    pub(crate) fn verdict(&self, body: &Body) -> Verdict
        ensures { (t : Trace) (n : ℕ) → IsTable self.now t
            → result ≡ verdict_of t (Event.In n body.now) }
    {
        match body {
            Body::Update { command, .. } | Body::Complete { command, .. } => {
                if self.is_open(*command) {
                    Verdict::Done
                } else {
                    Verdict::NoCommand
                }
            }
            Body::Auth => Verdict::AuthAgain,
            Body::BadArgs => Verdict::BadArgs,
            Body::NoSuchOp | Body::Answered { .. } => Verdict::NoSuchOp,
        }
    }

    /// Whether the lane is up.
    pub fn is_up(&self) -> bool
        ensures { (t : Trace) → IsTable self.now t → result ≡ up_of t }
    {
        match self.link {
            Link::Up => true,
            _ => false,
        }
    }

    /// Whether the lane is cut.
    pub fn is_cut(&self) -> bool
        ensures { (t : Trace) → IsTable self.now t → result ≡ cut_of t }
    {
        match self.link {
            Link::Cut => true,
            _ => false,
        }
    }

    /// Why the event isn't taken where so many were taken before it.
    pub fn refusal(&self, taken: usize, event: &Event) -> Option<Refusal>
        ensures { (t : Trace) → IsTable self.now t → length t ≡ taken
            → result ≡ refusal_of t event.now }
    {
        if let Event::Up = event {
            if self.is_up() {
                return Some(Refusal::AlreadyUp);
            }
        } else if let Event::Down = event {
            if !self.is_up() && !self.is_cut() {
                return Some(Refusal::NotUp);
            }
        } else if !self.is_up() {
            return Some(Refusal::NotUp);
        }
        match event {
            Event::Down => return None,
            Event::Go => {
                if self.opened.len() >= MOST_OPEN {
                    return Some(Refusal::TooManyOpen);
                }
            }
            Event::Stop(k) => {
                if !self.is_open(*k) {
                    return Some(Refusal::NoSuchCommand);
                }
            }
            _ => {}
        }
        if taken >= MOST_EVENTS {
            Some(Refusal::Full)
        } else {
            None
        }
    }

    /// Whether no request of the session had the number.
    fn is_new(&self, number: u64) -> bool
        ensures { (t : Trace) → IsTable self.now t → up_of t ≡ true → result ≡ is_new_in t number }
    {
        self.seen.verdict(number).is_none()
    }

    /// The verdict that a request gets: the first one on its number.
    fn answer(&self, number: u64, body: &Body) -> Verdict
        ensures { (t : Trace) → IsTable self.now t → up_of t ≡ true
            → result ≡ answer_of t number (Event.In number body.now) }
    {
        match self.seen.verdict(number) {
            Some(first) => first,
            None => self.verdict(body),
        }
    }

    /// What the master sends after the event.
    pub fn reply(&self, event: &Event) -> Reply
        ensures { (t : Trace) → IsTable self.now t → refusal_of t event.now ≡ None
            → result ≡ reply_of t event.now }
    {
        match event {
            Event::Up | Event::Cut | Event::Down => Reply::Silent,
            Event::Go => Reply::Start(self.orders, self.outcomes.len() as u64),
            Event::Stop(k) => Reply::Interrupt(self.orders, *k),
            Event::In(n, body) => match body {
                Body::Answered { .. } => Reply::Silent,
                _ => Reply::Answer(*n, self.answer(*n, body)),
            },
        }
    }

    /// The open command that the message ends.
    fn ended(&self, number: u64, body: &Body) -> Option<Open>
        ensures { (t : Trace) → IsTable self.now t → up_of t ≡ true
            → result ≡ option_map (open_entry t) (ended_by_of t (Event.In number body.now)) }
    {
        match body {
            Body::Complete { command, .. } => {
                if self.is_new(number) {
                    with_command(self.opened.as_slice(), *command)
                } else {
                    None
                }
            }
            Body::Answered { fault } => {
                if *fault {
                    with_order(self.opened.as_slice(), number)
                } else {
                    None
                }
            }
            Body::Auth | Body::Update { .. } | Body::BadArgs | Body::NoSuchOp => None,
        }
    }

    /// Whether the event is a fresh update of the command, which is open.
    fn updates(&self, number: u64, command: u64) -> bool
        ensures { (t : Trace) → IsTable self.now t → up_of t ≡ true
            → result ≡ (is_new_in t number && is_open_in t command) }
    {
        self.is_new(number) && self.is_open(command)
    }

    /// What the event does to the logs. A `Cut` or a `Down` takes no memory.
    pub fn item(&self, event: &Event) -> Result<Option<Item>, AllocError>
        ensures item { IfOk result (λ i. (t : Trace) → IsTable self.now t
            → refusal_of t event.now ≡ None → i ≡ item_of t event.now) }
        ensures cut { event.now ≡ Event.Cut → IsOk result }
        ensures down { event.now ≡ Event.Down → IsOk result }
    {
        match event {
            Event::Up | Event::Cut | Event::Stop(_) => Ok(None),
            Event::Go => Ok(Some(Item::Open(self.outcomes.len() as u64))),
            Event::Down => Ok(if self.opened.is_empty() {
                None
            } else {
                Some(Item::Gone)
            }),
            Event::In(n, Body::Update { command, batch, .. }) => {
                if self.updates(*n, *command) {
                    Ok(Some(Item::Lines(*command, batch.copy()?)))
                } else {
                    Ok(None)
                }
            }
            Event::In(n, body) => match self.ended(*n, body) {
                None => Ok(None),
                Some(entry) => Ok(Some(Item::End(entry.command, entry.ends_as(is_fault(body))))),
            },
        }
    }

    /// Makes room for so many events more.
    pub fn reserve(&mut self, additional: usize) -> Result<(), AllocError>
        ensures table { (t : Trace) → IsTable self.old t → IsTable self.new t }
        ensures places { vec_capacity self.new.opened ≡ vec_capacity self.old.opened }
        ensures room { table_room self.old ≤ table_room self.new }
        ensures ok { OnOk result (additional ≤ table_room self.new) }
        ensures succeeds { additional ≤ table_room self.old → IsOk result }
    {
        self.outcomes.reserve(additional)?;
        self.seen.reserve(additional)
    }
}
