//! What the worker hears over a connection and of its commands, and what it does about it.

ghost use Rattle.std.specs.Prelude.{◌≡◌};
ghost use Rattle.bm_worker_threads.specs.Connections.{is_message};
ghost use Rattle.bm_worker_threads.specs.Serving.{AfterTurn, DoesAct, HearsOnce, KeepsAlive, OnlyTells, Takes, after_turn, end_of_link};

use crate::build_worker::BuildWorker;
use crate::connection::{Connection, ConnectionEnd};
use crate::host::Host;
use crate::mailbox::WorkerMail;
use crate::processes::MOST_MAIL;
use bm_commands::Input;
use bm_link::{LinkFault, Turn};
use bm_outbox::Keepalive;
use bm_work::WorkAct;
use bumpalo::Bump;
use std::alloc::Global;
use std::io::{Read, Write};
use tungstenite::MaskKeys;

impl<S: Read + Write + Drop, K: MaskKeys + Drop> BuildWorker<S, K> {
    /// Takes all mail that lies ready.
    pub(crate) fn take_all<R: Host>(
        &mut self,
        rt: &R,
        alloc: Global,
        arena: &mut Bump,
        connection: &Connection,
    ) -> Result<(), ConnectionEnd>
        ensures texts { self.new.texts ≡ self.old.texts }
    {
        for _ in 0..MOST_MAIL {
            match self.processes.mail(rt) {
                Some(mail) => self.take(rt, alloc, arena, connection, mail)?,
                None => return Ok(()),
            }
        }
        Ok(())
    }

    /// Takes mail. Mail of an earlier connection is passed over.
    pub(crate) fn take<R: Host>(
        &mut self,
        rt: &R,
        alloc: Global,
        arena: &mut Bump,
        connection: &Connection,
        mail: WorkerMail,
    ) -> Result<(), ConnectionEnd>
        ensures taken { Takes S.contents connection.now.number mail self.old.session result
            self.new.session }
        ensures texts { self.new.texts ≡ self.old.texts }
    {
        match mail {
            WorkerMail::Process(told) => {
                match self.processes.keep(rt, alloc, told) {
                    Ok(()) => Ok(()),
                    Err(_) => Err(ConnectionEnd::NoMemory),
                }
            }
            WorkerMail::Readable(number) if number == connection.number => {
                connection.allow_reads(1);
                self.hear(rt, alloc, arena, connection)
            }
            WorkerMail::Silent(number, next) if number == connection.number => {
                self.keep_alive(next)
            }
            _ => Ok(()),
        }
    }

    /// Hears the messages that have come, does what they ask, and has the connection's thread look
    /// for more.
    pub(crate) fn hear<R: Host>(
        &mut self,
        rt: &R,
        alloc: Global,
        arena: &mut Bump,
        connection: &Connection,
    ) -> Result<(), ConnectionEnd>
        ensures texts { self.new.texts ≡ self.old.texts }
    {
        for _ in rt.forever() {
            if !self.hear_one(rt, alloc, arena)? {
                break;
            }
        }
        if connection.ask(rt) {
            Ok(())
        } else {
            Err(ConnectionEnd::Lost)
        }
    }

    /// Hears a message, and does what it asks. False where none had come.
    fn hear_one<R: Host>(
        &mut self,
        rt: &R,
        alloc: Global,
        arena: &mut Bump,
    ) -> Result<bool, ConnectionEnd>
        ensures heard { HearsOnce S.remaining S.contents self.old.session self.old.tries result
            self.new.session self.new.tries }
        ensures texts { self.new.texts ≡ self.old.texts }
    {
        let heard = self.session.hear(alloc, arena);
        self.follow(rt, alloc, heard)
    }

    /// Does what a turn of the link asks. False where nothing was heard.
    fn follow<R: Host>(
        &mut self,
        rt: &R,
        alloc: Global,
        heard: Result<(Turn, WorkAct), LinkFault>,
    ) -> Result<bool, ConnectionEnd>
        ensures done { AfterTurn heard self.old.session self.old.tries result self.new.session
            self.new.tries }
        ensures texts { self.new.texts ≡ self.old.texts }
    {
        match heard {
            Ok((Turn::Quiet, _)) => Ok(false),
            Ok((turn, act)) => {
                self.counts(turn);
                match self.does(rt, alloc, &act) {
                    Ok(()) => Ok(true),
                    Err(end) => Err(end),
                }
            }
            Err(_) => Err(end_of_link(self.session.is_closed())),
        }
    }

    /// A message begins the count of tries to connect afresh.
    fn counts(&mut self, turn: Turn)
        ensures { self.new ≡ record self.old { tries = after_turn turn self.old.tries } }
    {
        if is_message(turn) {
            self.tries.heard();
        }
    }

    /// Does what a message asks.
    fn does<R: Host>(&mut self, rt: &R, alloc: Global, act: &WorkAct) -> Result<(), ConnectionEnd>
        ensures done { DoesAct act.now self.old.session.outbox result self.new.session.outbox }
        ensures session { OnlyTells self.old.session self.new.session }
        ensures texts { self.new.texts ≡ self.old.texts }
        ensures tries { self.new.tries ≡ self.old.tries }
    {
        let outbox = &mut self.session.outbox;
        let done = match act {
            WorkAct::Run { command, argv } => {
                self.processes.run(rt, alloc, *command, argv, outbox)
            }
            WorkAct::Interrupt(command) => {
                self.processes.put(rt, alloc, Input::Interrupt(*command))
            }
            WorkAct::Shutdown => return Err(ConnectionEnd::Shutdown),
            _ => Ok(()),
        };
        match done {
            Ok(()) => Ok(()),
            Err(_) => Err(ConnectionEnd::NoMemory),
        }
    }

    /// Pings a silent master, or counts the connection as lost.
    fn keep_alive(&mut self, next: Keepalive) -> Result<(), ConnectionEnd>
        ensures kept { KeepsAlive S.contents next self.old.session result self.new.session }
        ensures others { self.new ≡ record self.old { session = self.new.session } }
    {
        match next {
            Keepalive::Wait => Ok(()),
            Keepalive::Ping => match self.session.ping() {
                Ok(()) => Ok(()),
                Err(_) => Err(ConnectionEnd::Lost),
            },
            Keepalive::GiveUp => Err(ConnectionEnd::Lost),
        }
    }
}

/// Whether a message of the master was taken by this turn.
fn is_message(turn: Turn) -> bool
    ensures { result ≡ is_message turn }
{
    matches!(turn, Turn::Heard | Turn::Noted)
}

/// How a connection ends whose link failed: its master may have closed it.
fn end_of_link(is_closed: bool) -> ConnectionEnd
    ensures { result ≡ end_of_link is_closed }
{
    if is_closed {
        ConnectionEnd::Closed
    } else {
        ConnectionEnd::Lost
    }
}
