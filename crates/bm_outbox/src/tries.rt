//! How often and for how long a worker connects again.

ghost use Rattle.std.specs.Prelude.{◌≡◌};
ghost use Rattle.bm_outbox.specs.Tries.{after_connection, after_fault, first_pause, goes_on, has_lasted, pause_before};

use std::marker::Model;

/// How many times in a row a worker tries to connect again before it gives up.
const MOST: u32 = 10;

/// For how long a try goes on once a login was answered: ten of them last a minute. A connection
/// that lasts for so long ends the tries before it. By a single connect for each try a worker would
/// end just behind its master, or by a tunnel that closes connects.
const SHARE_MS: u64 = 6_000;

/// How long a worker waits before the first connect of a try. The pauses grow: a constant one
/// floods a tunnel, or delays a worker whose master is back.
const FIRST_PAUSE_MS: u64 = 10;

/// How long it waits before a further one at the most.
const LAST_PAUSE_MS: u64 = 1_000;

/// Why a worker has to connect again.
#[derive(Clone, Copy, PartialEq, Eq)]
pub enum ConnectFault {
    /// A connect or its handshake failed, the login wasn't answered, or the connection was lost.
    NoAnswer,
    /// The login was answered by a refusal.
    Refused,
}

/// How many times in a row a worker has tried to connect again, and how far its last try is.
#[derive(Drop)]
pub struct Tries {
    made: u32,
    begun_ms: u64,
    next_pause_ms: u64,
    is_known: bool,
    /// When the login of the connection that stands was answered.
    answered_ms: Option<u64>,
}

impl Model for Tries {
    ghost use Rattle.std.specs.Prelude.{◌≤◌};
    ghost use Rattle.bm_outbox.specs.Tries.{TriesState};

    ghost Value = { TriesState };

    ghost view = { λ t. record {
      made = t.made;
      begun_ms = t.begun_ms;
      next_pause_ms = t.next_pause_ms;
      is_known = t.is_known;
      answered_ms = t.answered_ms;
    } };

    ghost invariant = { λ t. (t.made ≤ 10) × (t.next_pause_ms ≤ 1000) };
}

impl Tries {
    ghost use Rattle.std.specs.Prelude.{true, false, Some, None};

    /// No try was made, and no login was answered.
    pub fn new() -> Tries
        ensures { result ≡ record {
          made = 0;
          begun_ms = 0;
          next_pause_ms = 10;
          is_known = false;
          answered_ms = None;
        } }
    {
        Tries {
            made: 0,
            begun_ms: 0,
            next_pause_ms: FIRST_PAUSE_MS,
            is_known: false,
            answered_ms: None,
        }
    }

    /// A login was answered by a session, where the worker's clock shows so many milliseconds. From
    /// now on each try lasts for its share of a minute.
    pub fn answered(&mut self, now_ms: u64)
        ensures { self.new ≡ record self.old { is_known = true; answered_ms = Some now_ms } }
    {
        self.is_known = true;
        self.answered_ms = Some(now_ms);
    }

    /// A message was heard after a login: the count starts afresh.
    pub fn heard(&mut self)
        ensures { self.new ≡ record self.old { made = 0 } }
    {
        self.made = 0;
    }

    /// After how many milliseconds the worker connects again, where its clock shows so many of
    /// them. None where it gives up: the tenth try in a row has ended.
    ///
    /// A try ends with its share of the time, or by a login that is refused. Before a login was
    /// answered each connect is a try. The pauses of a try grow from 10 milliseconds to a second.
    /// Behind a refused login they grow on, once one was answered.
    /// Where a connection is lost that lasted for a try's share behind the answer to its login, the
    /// count starts afresh. So no number of cuts ends a worker that hears no message since it has
    /// no builds. One that was answered and dropped at once is part of its try. So a master that
    /// does that isn't called for ever.
    pub fn again(&mut self, why: ConnectFault, now_ms: u64) -> Option<u64>
        ensures pause { result ≡ pause_before why now_ms (after_connection now_ms self.old) }
        ensures tries { self.new ≡ after_fault why now_ms (after_connection now_ms self.old) }
    {
        self.leave(now_ms);
        if self.goes_on(why, now_ms) {
            let pause = self.next_pause_ms;
            self.next_pause_ms = LAST_PAUSE_MS.min(2 * pause);
            return Some(pause);
        }
        if self.made >= MOST {
            return None;
        }
        let pause = self.first_pause(why);
        self.made += 1;
        self.begun_ms = now_ms;
        self.next_pause_ms = LAST_PAUSE_MS.min(2 * pause);
        Some(pause)
    }

    /// The pause before a try that begins now. A master that knows the worker may refuse it for as
    /// long as the connection before delivers what was on its way. So the pauses grow on.
    fn first_pause(&self, why: ConnectFault) -> u64
        ensures { result ≡ first_pause why self.now }
    {
        if self.is_known && why == ConnectFault::Refused && self.made > 0 {
            self.next_pause_ms
        } else {
            FIRST_PAUSE_MS
        }
    }

    /// Forgets the connection that stood. Where it lasted for a try's share, the count starts
    /// afresh.
    fn leave(&mut self, now_ms: u64)
        ensures { self.new ≡ after_connection now_ms self.old }
    {
        if self.has_lasted(now_ms) {
            self.made = 0;
        }
        self.answered_ms = None;
    }

    /// Whether the connection that stands has lasted for a try's share.
    fn has_lasted(&self, now_ms: u64) -> bool
        ensures { result ≡ has_lasted now_ms self.now.answered_ms }
    {
        match self.answered_ms {
            Some(answered) => now_ms.saturating_sub(answered) >= SHARE_MS,
            None => false,
        }
    }

    /// Whether the try that was begun last goes on.
    fn goes_on(&self, why: ConnectFault, now_ms: u64) -> bool
        ensures { result ≡ goes_on why now_ms self.now }
    {
        self.is_known
            && why == ConnectFault::NoAnswer
            && self.made > 0
            && now_ms.saturating_sub(self.begun_ms) < SHARE_MS
    }
}
