//! What a lane carries from one link of its worker to the next.

ghost use Rattle.std.specs.Prelude.{◌≡◌, ◌≤◌, ◌<◌, ◌^◌, ◌==◌, not, filter, OnOk, OnErr, MatchOption};
ghost use Rattle.bm_work.specs.declared.sent.Sent.{Sent as SentOrder};
ghost use Rattle.bm_link.specs.Carries.{Carried, is_bad, may_cut, is_same, new_carried, begun, with_order, noted, has_asked, carried_with};

use crate::fault::LinkFault;
use bm_lines::Text;
use bm_msg::NUMBER_LIMIT;
use bm_work::Sent;
use std::alloc::{AllocError, Global};
use std::marker::Model;

/// The number of the first request of a session that is no order.
const FIRST_ASK: u64 = 1 << 62;

/// What a lane keeps from one link of its worker to the next, so that a session can be resumed. It
/// has the session's text, and the orders that have no answer yet, with the bytes that were sent.
/// It also has the number of the next request that is no order. Each lane has one of its own, and
/// gives it to all of its links.
///
/// A call of a link takes it beside the reader's end. A value of both would be taken apart for each
/// call, since the lane's own calls take a reader's end.
#[derive(Drop)]
pub struct ResumeState {
    resumable: bool,
    text: Option<Text>,
    orders: Vec<Sent>,
    next_ask: u64,
}

impl Model for ResumeState {
    ghost use Rattle.bm_link.specs.Carries.{Carried};

    ghost Value = { Carried };

    ghost view = { λ c. record {
      resumable = c.resumable;
      text = c.text;
      orders = c.orders.items;
      next_ask = c.next_ask;
    } };
}

fn is_bad(fault: &LinkFault) -> bool
    ensures { result ≡ is_bad fault.now }
{
    matches!(fault, LinkFault::BadMessage)
}

fn take_out(orders: &mut Vec<Sent>, seq: u64)
    ensures { orders.new.items ≡ filter (λ (o : SentOrder). not (o.seq == seq)) orders.old.items }
{
    orders.retain(|order| order.seq != seq);
}

impl ResumeState {
    /// Nothing is carried yet. Where sessions are not to be resumed, no session's text ever is. It
    /// takes no memory.
    pub fn new(alloc: Global, resumable: bool) -> ResumeState
        ensures { result ≡ new_carried resumable }
    {
        ResumeState {
            resumable,
            text: None,
            orders: Vec::new(alloc),
            next_ask: FIRST_ASK,
        }
    }

    /// Whether the lane may be cut after this fault.
    pub(crate) fn may_cut(&self, fault: &LinkFault) -> bool
        ensures { result ≡ may_cut self.now fault.now }
    {
        self.text.is_some() && !is_bad(fault)
    }

    /// Whether this is the session that is kept.
    pub(crate) fn is(&self, named: &Option<Text>) -> bool
        ensures { result ≡ is_same self.now.text named.now }
    {
        match (&self.text, named) {
            (Some(kept), Some(named)) => kept.is(named),
            _ => false,
        }
    }

    /// A session begins, which the worker names or not.
    fn begin(&mut self, named: Option<Text>)
        ensures { self.new ≡ begun self.old named }
    {
        self.text = if self.resumable { named } else { None };
        self.orders.clear();
        self.next_ask = FIRST_ASK;
    }

    /// A session goes on, or another begins.
    pub(crate) fn resume_or_begin(&mut self, resumes: bool, named: Option<Text>)
        ensures { self.new ≡ carried_with resumes self.old named }
    {
        if !resumes {
            self.begin(named);
        }
    }

    /// Keeps an order.
    pub(crate) fn keep(&mut self, order: Sent) -> Result<(), AllocError>
        ensures ok { OnOk result (self.new ≡ with_order self.old order) }
        ensures err { OnErr result (self.new ≡ self.old) }
    {
        self.orders.push(order)?;
        Ok(())
    }

    /// Forgets the order that was kept last, since the lane didn't take it.
    pub(crate) fn take_back(&mut self)
        ensures { (before : Carried) (order : SentOrder) → self.old ≡ with_order before order
            → self.new ≡ before }
    {
        self.orders.pop();
    }

    /// Forgets the order with this number, which was answered.
    pub(crate) fn note(&mut self, answered: Option<u64>)
        ensures { self.new ≡ noted self.old answered }
    {
        if let Some(seq) = answered {
            take_out(&mut self.orders, seq);
        }
    }

    /// The orders that have no answer yet, oldest first.
    pub(crate) fn orders(&self) -> &[Sent]
        ensures { result.now ≡ self.now.orders }
    {
        self.orders.as_slice()
    }

    /// The number of a request that is no order, which is not given again in this session. None
    /// where the numbers are used up.
    pub(crate) fn next_ask(&mut self) -> Option<u64>
        ensures next { MatchOption result (2 ^ 63 ≤ self.old.next_ask) (λ n. (n ≡ self.old.next_ask)
            × (n < 2 ^ 63)) }
        ensures used { self.new ≡ has_asked self.old }
    {
        let seq = self.next_ask;
        if seq >= NUMBER_LIMIT {
            return None;
        }
        self.next_ask = seq + 1;
        Some(seq)
    }
}
