//! The events of a lane.

ghost use Rattle.std.specs.Prelude.{◌≡◌, ◌≢◌, ℕ, IfOk, IfErr, IsErrOf, Ok};
ghost use Rattle.bm_value.specs.View.{tree};
ghost use Rattle.bm_msg.specs.declared.fault.MsgError.{MsgError};
ghost use Rattle.bm_msg.specs.Meaning.{asked, meaning};
ghost use Rattle.bm_msg.specs.Messages.{IsFaulty};
ghost use Rattle.bm_msg.specs.Updates.{says};
ghost use Rattle.bm_session.specs.Heard.{body_of, event_of, faulty_as, IsEvent, IsNoEvent};

use crate::carried;
use bm_lines::{LineBatch, LogName};
use bm_msg::{Message, MsgError, Numbered, Request, Response, TextUpdate, read, read_text};
use bm_value::{Num, Value};
use std::alloc::{AllocError, Allocator, Global};

/// What a lane's session takes, one at a time.
#[derive(Drop)]
pub enum Event {
    /// A connection of the worker begins. It resumes the session where that was cut.
    Up,
    /// A message of the worker, with its sequence number.
    In(u64, Body),
    /// A command is ordered to start. Its number is the count of those before it.
    Go,
    /// A command is ordered to stop.
    Stop(u64),
    /// The connection is cut: commands stay open, and the session may be resumed.
    Cut,
    /// The session is given up: every open command ends.
    Down,
}

impl Event {
    /// The event that a value is: that of its message, or a request with bad arguments.
    ///
    /// What stays is copied, so the value may be dropped afterwards.
    ///
    /// # Errors
    ///
    /// The first reason why the value is no message, but for bad arguments; `Mem` where memory ran
    /// out.
    pub fn of_value<A: Allocator>(alloc: Global, value: &Value<A>) -> Result<Event, MsgError>
        // What is answered is the event that the value is.
        ensures event { IfOk result (IsEvent (tree value.now)) }
        // A value that is an event is answered as that, unless memory runs out.
        ensures only { (e : Event) → IsEvent (tree value.now) e → IfOk result (λ r. r ≡ e) }
        ensures wants { (e : Event) → IsEvent (tree value.now) e → IfErr result
            (λ f. f ≡ MsgError.Mem) }
        // A fault that is told is the first reason why it is none.
        ensures fault { IfErr result (λ f. f ≢ MsgError.Mem → IsNoEvent (tree value.now) f) }
        // The first reason is told, and bad arguments are an event, whatever memory there is.
        ensures told { (f : MsgError) → IsNoEvent (tree value.now) f → IsErrOf result f }
        ensures args { (n : ℕ) → IsFaulty (tree value.now) (MsgError.BadArgs n)
            → result ≡ Ok (Event.In n Body.BadArgs) }
    {
        if let Some(update) = read_text(value) {
            return Ok(Event::of_text(alloc, update)?);
        }
        match read(alloc, value) {
            Ok(message) => Ok(Event::of_message(alloc, message)?),
            Err(fault) => Event::of_fault(fault),
        }
    }

    /// Bad arguments are a request; with another fault it is no event.
    fn of_fault(fault: MsgError) -> Result<Event, MsgError>
        ensures { result ≡ faulty_as fault }
    {
        match fault {
            MsgError::BadArgs(number) => Ok(Event::bad_args(number)),
            MsgError::NotMap | MsgError::NoSeq | MsgError::NoOp | MsgError::Mem => Err(fault),
        }
    }

    /// What a message of the worker is to its session. Requests that only a master sends are no
    /// operation.
    pub fn of_message(alloc: Global, message: Message) -> Result<Event, AllocError>
        ensures { IfOk result (λ event. event ≡ event_of (meaning message)) }
    {
        match message {
            Message::Request(Numbered { seq, request }) => {
                Ok(Event::In(seq, Body::of_request(alloc, request)?))
            }
            Message::Response(Response { seq, exception, .. }) => {
                Ok(Event::In(seq, Body::Answered { fault: exception }))
            }
        }
    }

    /// What an update of one text is to its session. The text stays where it is: its lines are
    /// copied.
    fn of_text(alloc: Global, update: TextUpdate<'_>) -> Result<Event, AllocError>
        ensures { IfOk result (λ event. event ≡ event_of (says update.entry)) }
    {
        let batch = LineBatch::of_str(alloc, LogName::stdio(), update.letter, update.text)?;
        let body = Body::Update {
            command: update.command,
            batch,
            rc: None,
        };
        Ok(Event::In(update.seq, body))
    }

    /// An equal event. The lines of an update are shared.
    pub fn copy(&self) -> Result<Event, AllocError>
        ensures { IfOk result (λ event. event ≡ self.now) }
    {
        Ok(match self {
            Event::Up => Event::Up,
            Event::In(seq, body) => Event::In(*seq, body.copy()?),
            Event::Go => Event::Go,
            Event::Stop(command) => Event::Stop(*command),
            Event::Cut => Event::Cut,
            Event::Down => Event::Down,
        })
    }

    /// The request with this number, whose keys are missing or of another kind.
    pub fn bad_args(seq: u64) -> Event
        ensures { result ≡ Event.In seq Body.BadArgs }
    {
        Event::In(seq, Body::BadArgs)
    }
}

/// What a message of the worker says.
#[derive(Drop)]
pub enum Body {
    /// A login, which is out of place once the connection is up.
    Auth,
    /// Lines of a command's logs, and the last exit code that the message told.
    Update {
        command: u64,
        batch: LineBatch,
        rc: Option<Num>,
    },
    /// The end of a command. A fault is an end without an exit code.
    Complete {
        command: u64,
        fault: bool,
    },
    /// A request whose keys are missing or of another kind.
    BadArgs,
    /// A request that a worker doesn't send.
    NoSuchOp,
    /// The response to an order. A fault is a refusal of it.
    Answered {
        fault: bool,
    },
}

impl Body {
    /// An equal body. The lines of an update are shared.
    pub fn copy(&self) -> Result<Body, AllocError>
        ensures { IfOk result (λ body. body ≡ self.now) }
    {
        Ok(match self {
            Body::Auth => Body::Auth,
            Body::Update { command, batch, rc } => Body::Update {
                command: *command,
                batch: batch.copy()?,
                rc: *rc,
            },
            Body::Complete { command, fault } => Body::Complete {
                command: *command,
                fault: *fault,
            },
            Body::BadArgs => Body::BadArgs,
            Body::NoSuchOp => Body::NoSuchOp,
            Body::Answered { fault } => Body::Answered { fault: *fault },
        })
    }

    /// What a request asks of a session.
    fn of_request(alloc: Global, request: Request) -> Result<Body, AllocError>
        ensures { IfOk result (λ body. body ≡ body_of (asked request)) }
    {
        match request {
            Request::Auth { .. } => Ok(Body::Auth),
            Request::Update { command, fields } => {
                let rc = carried::last_rc(fields.as_slice());
                let batch = carried::batch(alloc, fields)?;
                Ok(Body::Update { command, batch, rc })
            }
            Request::Complete { command, fault } => Ok(Body::Complete {
                command,
                fault: fault.is_some(),
            }),
            _ => Ok(Body::NoSuchOp),
        }
    }
}
