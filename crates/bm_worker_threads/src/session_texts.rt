//! The texts that a worker's logins name.

ghost use Rattle.std.specs.Prelude.{◌≡◌, false, IfOk};
ghost use Rattle.std.specs.Option.{is_some, option_copied};
ghost use Rattle.bm_worker_threads.specs.SessionTexts.{after_answer, wants_next};

use crate::session::new_session;
use bm_lines::Text;
use bm_link::Attached;
use std::alloc::{AllocError, AllocGlobal, Global};
use std::io;
use std::marker::Model;
use std::random::RandomSource;

/// The text of the session that the worker asks to resume, and whether a login of it was answered.
#[derive(Drop)]
pub struct SessionTexts {
    session: Option<Text>,
    is_answered: bool,
}

impl Model for SessionTexts {
    ghost use Rattle.bm_worker_threads.specs.SessionTexts.{NamedTexts};

    ghost Value = { NamedTexts };

    ghost view = { λ t. record { session = t.session; is_answered = t.is_answered } };
}

impl SessionTexts {
    /// The first login is to name this session, or none.
    pub fn new(alloc: Global, session: Option<&str>) -> Result<SessionTexts, AllocError>
        ensures { IfOk result (λ t. t
            ≡ record { session = option_copied session.entry; is_answered = false }) }
    {
        let session = match session {
            Some(text) => Some(Text::from_str(alloc, text)?),
            None => None,
        };
        Ok(SessionTexts {
            session,
            is_answered: false,
        })
    }

    /// The session that a login asks to resume.
    pub fn session(&self) -> Option<&str>
        ensures { option_copied result ≡ self.now.session }
    {
        match &self.session {
            Some(text) => Some(text.as_str()),
            None => None,
        }
    }

    /// Whether a session that begins by the login which comes now is to have a text of its own.
    /// Until an answer was heard it has that of the first login. A worker that misses such answers
    /// has a core that is new, so it may resume whichever session has begun by these logins.
    fn wants_next(&self) -> bool
        ensures { result ≡ wants_next self.now }
    {
        self.is_answered && self.session.is_some()
    }

    /// The text that a session is to have which begins by the login that comes now: a fresh one,
    /// once a login was answered. None where it has the text that is asked for, and where the
    /// worker names no session.
    ///
    /// # Errors
    ///
    /// The system gives no random bytes, or memory is wanting.
    pub fn next<R: RandomSource + AllocGlobal>(&self, rt: &R) -> io::Result<Option<Text>>
        ensures { IfOk result (λ next. is_some next ≡ wants_next self.now) }
    {
        if !self.wants_next() {
            return Ok(None);
        }
        Ok(Some(Text::from_string(new_session(rt)?)))
    }

    /// A login that named this next session was answered so. Where a session began by it, that one
    /// is asked for from now on.
    pub fn answered(&mut self, attached: Attached, next: Option<Text>)
        ensures { self.new ≡ after_answer attached next self.old }
    {
        self.is_answered = true;
        if attached == Attached::New && next.is_some() {
            self.session = next;
        }
    }
}
