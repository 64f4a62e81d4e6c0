//! A decision to take an event.

ghost use Rattle.std.specs.Prelude.{◌≡◌, None};

use crate::event::Event;
use crate::item::Item;
use crate::reply::Reply;
use std::marker::Model;

/// A session's decision to take an event, good until the session takes one.
#[derive(Drop)]
pub struct Plan {
    event: Event,
    reply: Reply,
    item: Option<Item>,
}

impl Model for Plan {
    ghost use Rattle.bm_session.specs.Session.{Planned};

    ghost Value = { Planned };

    ghost view = { λ p. record { event = p.event; sent = p.reply; given = p.item } };
}

impl Plan {
    /// A plan with these parts.
    pub(crate) fn of(event: Event, reply: Reply, item: Option<Item>) -> Plan
        ensures { result ≡ record { event = event; sent = reply; given = item } }
    {
        Plan { event, reply, item }
    }

    /// The parts of the plan.
    pub(crate) fn into_parts(self) -> (Event, Reply, Option<Item>)
        ensures event { result.0 ≡ self.event }
        ensures reply { result.1 ≡ self.sent }
        ensures item { result.2 ≡ self.given }
    {
        let Plan { event, reply, item } = self;
        (event, reply, item)
    }

    /// The event's item at the first call, and None from then on.
    pub fn take_item(&mut self) -> Option<Item>
        ensures given { result ≡ self.old.given }
        ensures left { self.new ≡ record self.old { given = None } }
    {
        self.item.take()
    }
}
