//! When a silent worker is asked for a sign of life, and when it is taken for dead.

ghost use Rattle.std.specs.Prelude.{◌≡◌};
ghost use Rattle.std.specs.Option.{is_some};
ghost use Rattle.bm_lane_actor.specs.PeerTimer.{after_action, action_at, glance_at, heard_at, is_unanswered, remaining, rest_at, started, wanted_at};

use std::marker::Model;

/// How long a worker may be silent before it is asked for a sign of life, in milliseconds.
pub const ASK_AFTER_MS: u64 = 15_000;

/// How long a worker that was asked may be silent before it is taken for dead, in milliseconds. The
/// count begins with the question: a master that stood still asks first.
pub const DEAD_AFTER_MS: u64 = 45_000;

/// How long a worker may be silent once another connection asks for its lane, in milliseconds.
pub const ANSWER_WITHIN_MS: u64 = 1_500;

/// How long an actor waits at its mailbox at the most.
const GLANCE_MS: u64 = 60_000;

/// How long, where another link waits for a sign of life: its peer may leave.
const WANTED_GLANCE_MS: u64 = 100;

/// What is to be done about a worker.
#[derive(Clone, Copy, PartialEq, Eq)]
pub enum PeerAction {
    Nothing,
    /// It is asked for a sign of life.
    Ask,
    /// It is taken for dead.
    GiveUp,
}

/// How long a worker has been silent. Whoever asks gives the time in milliseconds since some
/// moment, and a count that grows by each sign of life.
#[derive(Drop)]
pub struct PeerTimer {
    count: u64,
    /// When the count was first seen.
    since: u64,
    /// When it was asked since.
    asked: Option<u64>,
    /// Since when another connection asks for its lane.
    wanted: Option<u64>,
}

impl Model for PeerTimer {
    ghost use Rattle.bm_lane_actor.specs.PeerTimer.{PeerView};

    ghost Value = { PeerView };

    ghost view = { λ t. record {
      count = t.count;
      since = t.since;
      asked = t.asked;
      wanted = t.wanted;
    } };
}

impl PeerTimer {
    /// That of a worker which was heard just now.
    pub fn new(count: u64, now: u64) -> PeerTimer
        ensures { result ≡ started count now }
    {
        PeerTimer {
            count,
            since: now,
            asked: None,
            wanted: None,
        }
    }

    /// The count stands so: where it has changed the worker lives, and nobody waits for it.
    pub fn hear(&mut self, count: u64, now: u64)
        ensures { self.new ≡ heard_at count now self.old }
    {
        if self.count != count {
            *self = PeerTimer::new(count, now);
        }
    }

    /// Whether nothing came since it was asked, for longer than it has for an answer.
    fn is_unanswered(&self, now: u64) -> bool
        ensures { result ≡ is_unanswered now self.now }
    {
        if let Some(since) = self.wanted {
            if ANSWER_WITHIN_MS <= now.saturating_sub(since) {
                return true;
            }
        }
        match self.asked {
            Some(since) => DEAD_AFTER_MS <= now.saturating_sub(since),
            None => false,
        }
    }

    fn action(&self, now: u64) -> PeerAction
        ensures { result ≡ action_at now self.now }
    {
        if self.is_unanswered(now) {
            PeerAction::GiveUp
        } else if self.asked.is_none() && ASK_AFTER_MS <= now.saturating_sub(self.since) {
            PeerAction::Ask
        } else {
            PeerAction::Nothing
        }
    }

    /// What is to be done now. It is asked once for each silence.
    pub fn look(&mut self, count: u64, now: u64) -> PeerAction
        ensures action { result ≡ action_at now (heard_at count now self.old) }
        ensures timer { self.new ≡ after_action now result (heard_at count now self.old) }
    {
        self.hear(count, now);
        let action = self.action(now);
        if action == PeerAction::Ask {
            self.asked = Some(now);
        }
        action
    }

    /// For how many milliseconds there is nothing to be done, if nothing comes from the worker. 0
    /// where something is to be done now.
    pub fn rest(&self, now: u64) -> u64
        ensures { result ≡ rest_at now self.now }
    {
        let rest = match self.asked {
            Some(since) => remaining(DEAD_AFTER_MS, since, now),
            None => remaining(ASK_AFTER_MS, self.since, now),
        };
        match self.wanted {
            Some(since) => rest.min(remaining(ANSWER_WITHIN_MS, since, now)),
            None => rest,
        }
    }

    /// Another connection asks for the worker's lane, for which the worker is asked now. Its time
    /// for an answer began with the first question that it left without one.
    pub fn want(&mut self, now: u64)
        ensures { self.new ≡ wanted_at now self.old }
    {
        self.asked = Some(self.asked.unwrap_or(now));
        self.wanted = Some(self.wanted.unwrap_or(now));
    }

    /// Whether another connection asks for the worker's lane, and the worker said nothing since.
    pub fn is_wanted(&self) -> bool
        ensures { result ≡ is_some self.now.wanted }
    {
        self.wanted.is_some()
    }
}

/// How much of so many milliseconds is left that have begun then.
fn remaining(most: u64, since: u64, now: u64) -> u64
    ensures { result ≡ remaining most since now }
{
    most.saturating_sub(now.saturating_sub(since))
}

/// How long an actor waits at its mailbox at most, in milliseconds. While it is up its worker needs
/// nothing for `rest_ms`. `is_wanted`: another link waits for a sign of life.
pub(crate) fn glance_ms(is_up: bool, rest_ms: u64, is_wanted: bool) -> u64
    ensures { result ≡ glance_at is_up rest_ms is_wanted }
{
    let most = if is_wanted {
        WANTED_GLANCE_MS
    } else {
        GLANCE_MS
    };
    if is_up {
        rest_ms.min(most).max(1)
    } else {
        most
    }
}
