//! A worker's session: its core, its outbox and the link that is up.

ghost use Rattle.std.specs.Prelude.{◌≡◌};
ghost use Rattle.bm_worker_session.specs.Sessions.{is_resumed};

use crate::sending::{hand_over, outcome, tell_on};
use crate::session_fault::SessionFault;
use bm_link::{Attached, LinkFault, Turn, WorkerLink};
use bm_outbox::{Outbox, begin};
use bm_work::{Sent, WorkAct, Worker};
use bumpalo::Bump;
use std::alloc::{AllocError, Global};
use std::collections::VecDeque;
use std::io::{Read, Write};
use std::marker::Model;
use tungstenite::MaskKeys;

/// A worker's session with its master, which outlives its connections. It has the core, what waits
/// to be told, and the link, if one is up. The backlog is what that link still has to send again.
/// In one value what was told is sent at once and in order, by contract. With three it would be up
/// to a thread's loop.
#[derive(Drop)]
pub struct WorkerSession<S, K> {
    core: Worker,
    /// What waits to be told.
    pub outbox: Outbox,
    backlog: VecDeque<Sent>,
    link: Option<WorkerLink<S, K>>,
}

impl<S, K> Model for WorkerSession<S, K> {
    ghost use Rattle.std.specs.Coded.{codes};
    ghost use Rattle.bm_work.specs.contracts.worker.Worker as worker;
    ghost use Rattle.bm_worker_session.specs.Sessions.{SessionState};

    ghost Value = { SessionState S };

    ghost coded = { Prim.hlevel (codes, worker.the_row.coded) };

    ghost view = { λ w. record {
      core = w.core;
      outbox = w.outbox;
      backlog = w.backlog.items;
      link = w.link;
    } };
}

impl<S: Read + Write + Drop, K: MaskKeys + Drop> WorkerSession<S, K> {
    ghost use Rattle.std.specs.Prelude.{◌≡◌, ◌∷◌, [], length, not, ◌==◌, min, ◌-◌, ◌^◌, None};
    ghost use Rattle.std.specs.Option.{option_copied};
    ghost use Rattle.bm_link.specs.Texts.{AreShort};
    ghost use Rattle.bm_work.specs.Core.{bytes_of, unanswered_requests};
    ghost use Rattle.bm_worker_session.specs.Sessions.{BeginsBy, ConnectsBy, HearsBy, PingsBy, SendsNext, is_closed, is_resumed, new_session};

    /// Nothing runs, nothing was said, and no link is up.
    pub fn new(alloc: Global) -> WorkerSession<S, K>
        ensures { result ≡ new_session }
    {
        WorkerSession {
            core: Worker::new(alloc),
            outbox: Outbox::new(alloc),
            backlog: VecDeque::new(alloc),
            link: None,
        }
    }

    /// Logs in by a new link, and goes on by it as the master answers. The worker asks to resume
    /// `session`. A session that begins by this login has the text `next`, or that of `session`
    /// where there is no `next`.
    ///
    /// A resumed session's requests without an answer are to be sent again by the link, and what
    /// waits waits on. Another session begins anew, with no step between that could fail: so no
    /// answer that was read is forgotten.
    ///
    /// # Errors
    ///
    /// Those of the link's `login`, where no answer was read. `Mem` also where the session is
    /// resumed and memory is wanting for what is to be sent again. Nothing was changed, and the new
    /// link is gone.
    pub fn connect(
        &mut self,
        alloc: Global,
        link: WorkerLink<S, K>,
        name: &str,
        password: &str,
        session: Option<&str>,
        next: Option<&str>,
    ) -> Result<Attached, LinkFault>
        requires { AreShort (name.now ∷ password.now ∷ []) }
        ensures { ConnectsBy S.remaining S.contents name.now password.now
            (option_copied session.entry) (option_copied next.entry) link self.old result self.new }
    {
        let mut new_link = link;
        let attached = match new_link.login(alloc, name, password, session, next) {
            Ok(attached) => attached,
            Err(fault) => return Err(fault),
        };
        match self.begin(alloc, new_link, attached) {
            Ok(()) => Ok(attached),
            Err(_) => Err(LinkFault::Mem),
        }
    }

    /// Goes on by a new link whose login was answered so. A resumed session's requests without an
    /// answer are to be sent again by it, and what waits waits on. Another session begins anew.
    ///
    /// # Errors
    ///
    /// Want of memory, where the session is resumed. Nothing was changed, and the new link is gone.
    fn begin(
        &mut self,
        alloc: Global,
        link: WorkerLink<S, K>,
        attached: Attached,
    ) -> Result<(), AllocError>
        ensures { BeginsBy (is_resumed attached) link self.old result self.new }
    {
        let resumed = is_resumed(attached);
        if !resumed {
            self.core.lost();
            self.outbox = Outbox::new(alloc);
            self.backlog = VecDeque::new(alloc);
            self.link = Some(link);
            return Ok(());
        }
        let requests = begin(alloc, true, &mut self.core, &mut self.outbox)?;
        self.backlog = VecDeque::from(requests);
        self.link = Some(link);
        Ok(())
    }

    /// Sends what is next, and answers whether there was anything. The oldest request that is to
    /// be sent again is next; or, where there is none, what waits first in the outbox.
    ///
    /// # Errors
    ///
    /// After a fault of the link it sends nothing more. What it wasn't handed has no answer, so the
    /// next link sends it again.
    pub fn send_next(&mut self, alloc: Global) -> Result<bool, SessionFault>
        ensures { SendsNext S.contents self.old.backlog self.old.link self.old result self.new }
    {
        let Some(link) = &mut self.link else {
            return Err(SessionFault::Link);
        };
        let Some(request) = self.backlog.pop_front() else {
            return tell_on(alloc, &mut self.core, &mut self.outbox, link);
        };
        outcome(hand_over(alloc, link, &[request]))
    }

    /// Hears one message of the link. A request of the master is answered, and an answer of it
    /// frees the place of its request.
    ///
    /// # Errors
    ///
    /// After any fault the link has failed. `Closed` where none is up.
    pub fn hear(&mut self, alloc: Global, arena: &mut Bump) -> Result<(Turn, WorkAct), LinkFault>
        ensures { HearsBy S.remaining S.contents self.old.link self.old result self.new }
    {
        match &mut self.link {
            Some(link) => link.turn(alloc, arena, &mut self.core),
            None => Err(LinkFault::Closed),
        }
    }

    /// Asks the master for a sign of life.
    ///
    /// # Errors
    ///
    /// After any fault the link has failed. `Closed` where none is up.
    pub fn ping(&mut self) -> Result<(), LinkFault>
        ensures { PingsBy S.contents self.old.link self.old result self.new }
    {
        let Some(link) = &mut self.link else {
            return Err(LinkFault::Closed);
        };
        link.ping()
    }

    /// The link is lost, or given up: the core and what waits stay as they are, and the next link
    /// goes on with them. It answers the link.
    pub fn lose(&mut self) -> Option<WorkerLink<S, K>>
        ensures link { result ≡ self.old.link }
        ensures kept { self.new ≡ record self.old { backlog = []; link = None } }
    {
        self.backlog.clear();
        self.link.take()
    }

    /// Whether the link that is up has read a close frame of the master. False where none is up.
    pub fn is_closed(&self) -> bool
        ensures { result ≡ is_closed self.now.link }
    {
        match &self.link {
            Some(link) => link.closed(),
            None => false,
        }
    }

    /// Whether a request has no answer.
    pub fn has_unanswered(&self) -> bool
        ensures { result ≡ not (length (unanswered_requests self.now.core) == 0) }
    {
        self.core.has_unanswered()
    }

    /// The sum of the bytes of all requests without an answer, as they are sent.
    pub fn unanswered_bytes(&self) -> usize
        ensures { result ≡ min (bytes_of (unanswered_requests self.now.core)) (2 ^ 64 - 1) }
    {
        self.core.unanswered_bytes()
    }
}

fn is_resumed(attached: Attached) -> bool
    ensures { result ≡ is_resumed attached }
{
    match attached {
        Attached::Resumed => true,
        Attached::Plain | Attached::New => false,
    }
}
