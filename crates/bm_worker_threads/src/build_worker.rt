//! A build worker, and its loop over a connection: what is told, and what is done about its mail.

ghost use Rattle.std.specs.Prelude.{◌≡◌, ◌∷◌, [], IfOk, None, false};
ghost use Rattle.std.specs.Option.{option_copied};
ghost use Rattle.bm_link.specs.Texts.{AreShort};
ghost use Rattle.bm_worker_session.specs.Sessions.{new_session};
ghost use Rattle.bm_worker_threads.specs.Connections.{keeps_commands};
ghost use Rattle.bm_worker_threads.specs.Serving.{LogsIn, SendsOn, TellsMore, after_sending, no_tries};

use crate::connection::{Connection, ConnectionEnd};
use crate::host::Host;
use crate::marks::Marks;
use crate::processes::Processes;
use crate::session_texts::SessionTexts;
use bm_lines::Text;
use bm_link::{Attached, LinkFault, WorkerLink};
use bm_outbox::Tries;
use bm_worker_session::{SessionFault, WorkerSession};
use bumpalo::Bump;
use std::alloc::{AllocError, AllocGlobal, Global};
use std::io::{Read, Write};
use std::random::RandomSource;
use tungstenite::MaskKeys;

/// Above so many unanswered bytes texts wait where several commands run: a text of one command
/// would stand behind too many of the others. Ends don't wait for this.
const MOST_UNANSWERED_BYTES: usize = 262_144;

/// All that outlives a connection: the session, and the processes of its commands.
#[derive(Drop)]
pub struct BuildWorker<S, K> {
    pub(crate) session: WorkerSession<S, K>,
    pub(crate) texts: SessionTexts,
    pub(crate) processes: Processes,
    pub(crate) tries: Tries,
}

impl<S: Read + Write + Drop, K: MaskKeys + Drop> BuildWorker<S, K> {
    /// Nothing runs, and nothing was said. The first login is to name this session, or none.
    pub(crate) fn new(
        alloc: Global,
        session: Option<&str>,
        marks: Marks,
    ) -> Result<BuildWorker<S, K>, AllocError>
        ensures session { IfOk result (λ worker. worker.session ≡ new_session) }
        ensures texts { IfOk result (λ worker. worker.texts
            ≡ record { session = option_copied session.entry; is_answered = false }) }
        ensures tries { IfOk result (λ worker. worker.tries ≡ no_tries) }
    {
        let texts = SessionTexts::new(alloc, session)?;
        let processes = Processes::new(alloc, marks)?;
        Ok(BuildWorker {
            session: WorkerSession::new(alloc),
            texts,
            processes,
            tries: Tries::new(),
        })
    }

    /// Logs in by a new link, and goes on with the session as the master answers.
    ///
    /// # Errors
    ///
    /// Those of the session's `connect`. `Mem` also where no text for a next session could be
    /// drawn. Once a login was answered, none is made without such a text. A worker that misses the
    /// answer to it could resume a session that it never heard of, and hang.
    pub fn log_in<R: RandomSource + AllocGlobal>(
        &mut self,
        rt: &R,
        alloc: Global,
        link: WorkerLink<S, K>,
        name: &str,
        password: &str,
    ) -> Result<Attached, LinkFault>
        requires { AreShort (name.now ∷ password.now ∷ []) }
        ensures login { LogsIn S.remaining S.contents name.now password.now self.old.texts link
            self.old.session result self.new.texts self.new.session }
        ensures others { self.new
            ≡ record self.old { session = self.new.session; texts = self.new.texts } }
    {
        let Ok(next) = self.texts.next(rt) else {
            return Err(LinkFault::Mem);
        };
        let new = text_in(&next);
        let session = self.texts.session();
        match self
            .session
            .connect(alloc, link, name, password, session, new)
        {
            Ok(attached) => {
                self.texts.answered(attached, next);
                Ok(attached)
            }
            Err(fault) => Err(fault),
        }
    }

    /// Serves the connection whose login was answered so, to its end. Its link is lost then, and is
    /// answered.
    pub fn serve<R: Host>(
        &mut self,
        rt: &R,
        alloc: Global,
        connection: &Connection,
        attached: Attached,
    ) -> (ConnectionEnd, Option<WorkerLink<S, K>>)
        ensures lost { self.new.session.link ≡ None }
        ensures texts { self.new.texts ≡ self.old.texts }
    {
        let mut arena = Bump::new(alloc);
        let end = self.work(rt, alloc, &mut arena, connection, attached);
        if end == ConnectionEnd::Shutdown {
            self.hear_last_answers(rt, alloc, &mut arena, connection);
        }
        (end, self.session.lose())
    }

    /// Works until the connection ends. What ran in a session that wasn't resumed is killed first.
    fn work<R: Host>(
        &mut self,
        rt: &R,
        alloc: Global,
        arena: &mut Bump,
        connection: &Connection,
        attached: Attached,
    ) -> ConnectionEnd
        ensures texts { self.new.texts ≡ self.old.texts }
    {
        if !keeps_commands(attached) && self.processes.lose(rt, alloc).is_err() {
            return ConnectionEnd::NoMemory;
        }
        if let Err(end) = self.hear(rt, alloc, arena, connection) {
            return end;
        }
        for _ in rt.forever() {
            if let Err(end) = self.step(rt, alloc, arena, connection) {
                return end;
            }
        }
        unreachable!()
    }

    /// Sends what is next, or else waits for mail; and takes all mail that lies ready. So answers
    /// count also on a connection that ends before all is sent again.
    fn step<R: Host>(
        &mut self,
        rt: &R,
        alloc: Global,
        arena: &mut Bump,
        connection: &Connection,
    ) -> Result<(), ConnectionEnd>
        ensures texts { self.new.texts ≡ self.old.texts }
    {
        if !self.send_next(rt, alloc)? {
            if let Some(mail) = self.processes.wait(rt) {
                self.take(rt, alloc, arena, connection, mail)?;
            }
        }
        self.take_all(rt, alloc, arena, connection)
    }

    /// Sends what is next, and answers whether there was anything that can be sent.
    fn send_next<R: Host>(&mut self, rt: &R, alloc: Global) -> Result<bool, ConnectionEnd>
        ensures sent { SendsOn S.contents self.old.session result self.new.session }
        ensures texts { self.new.texts ≡ self.old.texts }
        ensures tries { self.new.tries ≡ self.old.tries }
    {
        match self.tell_next(rt, alloc) {
            Ok(()) => after_sending(self.session.send_next(alloc)),
            Err(_) => Err(ConnectionEnd::NoMemory),
        }
    }

    /// Does what the time asks for. Where nothing waits to be told, what the machine of the
    /// commands tells next is to be told.
    fn tell_next<R: Host>(&mut self, rt: &R, alloc: Global) -> Result<(), AllocError>
        ensures told { TellsMore self.old.session.outbox self.old.session self.new.session }
        ensures texts { self.new.texts ≡ self.old.texts }
        ensures tries { self.new.tries ≡ self.old.tries }
    {
        self.processes.tick(rt, alloc)?;
        if !self.session.outbox.is_empty() {
            return Ok(());
        }
        let may_say = self.session.unanswered_bytes() < MOST_UNANSWERED_BYTES;
        let outbox = &mut self.session.outbox;
        let now_ms = self.processes.time.now(rt);
        self.processes.turn(rt, alloc, now_ms, may_say, outbox)
    }
}

/// How a connection ends where nothing more could be sent.
fn after_sending(sent: Result<bool, SessionFault>) -> Result<bool, ConnectionEnd>
    ensures { result ≡ after_sending sent }
{
    match sent {
        Ok(is_some) => Ok(is_some),
        Err(SessionFault::Link) => Err(ConnectionEnd::Lost),
        Err(SessionFault::Memory) => Err(ConnectionEnd::NoMemory),
    }
}

/// Whether what runs goes on, behind a login that was answered so.
fn keeps_commands(attached: Attached) -> bool
    ensures { result ≡ keeps_commands attached }
{
    attached == Attached::Resumed
}

fn text_in(text: &Option<Text>) -> Option<&str>
    ensures { option_copied result ≡ text.now }
{
    match text {
        Some(text) => Some(text.as_str()),
        None => None,
    }
}
