//! Laws of what a worker says and its master logs.
//!
//! # A run of two links as a schedule
//!
//! The laws are of schedules. These clauses make a run of a worker's and a master's link a
//! schedule. Of each part of a schedule the list has who supplies it, and what stays the
//! transport's.
//!
//! - *Each step of the lane is a step of the interleaving.* By `bm_lane`'s clauses on the reader's
//!   end every event goes through it (`with_event`). No other call of a link touches the lane.
//! - *The event that is delivered is that of the request's bytes (`as_heard`).* That is `Comes`,
//!   with the law `bytes_are_the_event`.
//! - *None is passed over: a request that reaches the lane is the next of those sent, or one that
//!   was taken.* By `Turned` a binary message is taken, or waits and is then the next. Or the link
//!   has failed, and adds nothing but the lane's end.
//! - *The worker's requests are sent in the order of their numbers, and after a cut the unanswered
//!   ones first.* By `SendsAt` exactly the bytes of the request leave that `bm_work` made. In which
//!   order they are handed to it is `bm_worker_session`'s (`SendsNext`, `BeginsBy`, `InStep`).
//! - *A request is answered only once the trace took it, over the connection that brought it.* By
//!   `Heard` the lane took the event, and the link that read it sent the answer's bytes. After a
//!   fault an answer to what a read gave, or a beginning, left only for an event that the lane
//!   took. That is `Takes` and the law `faults_leave_no_more`.
//! - *A command runs once, in the session in which its start was taken, and not after a refusal.*
//!   By `Starts` an order leaves only where the lane took its Go, with that order's and that
//!   command's numbers. By `Worked` the core heard exactly the message that was read. That a number
//!   runs once is `bm_work`'s (`heard`).
//! - *A response is the one to the order that was heard.* By the worker's `Heard` the bytes of the
//!   core's response were sent. At the master it is `Comes`, as for a request.
//! - *A session is new, or goes on, at both ends alike.* `Attaches` writes how it took the lane up
//!   (`login_bytes`), and `Greets` reads it. What the worker then forgets or sends again is
//!   `bm_outbox`'s (`Begins`).
//! - *After a cut the unanswered orders are given again under their numbers.* `Attaches` sends what
//!   is carried. A `LaneState` keeps that to be what is pending (`carries_what_is_pending`).
//! - *A cut loses only what is on its way.* That is the transport's. A failed link's socket isn't
//!   used again, since every call of that link answers `Closed`.
//! - *What is read is what the other end wrote, in order.* That is the transport's (TCP and the
//!   operating system). `tungstenite`'s `Reads` and `Writes` say which bytes a message is.

ghost use Rattle.bm_replay.specs.Wire.{BytesAreRead, BytesAreTheEvent};
ghost use Rattle.bm_replay.specs.Laws.{SaidIsLogged, AllSaidIsLogged, OtherLogsAreEmpty};
ghost use Rattle.bm_replay.specs.Laws.{NumbersAreSmall, ResumedIsLogged, AllResumedIsLogged};
ghost use Rattle.bm_replay.specs.Laws.{OtherResumedLogsAreEmpty, ResumedIsSchedule};
ghost use Rattle.bm_replay.specs.Laws.{SentAreRequests};

/// In every schedule of a worker's connections the log of a command is a prefix of what the worker
/// said for it. It is all of that once every request of the session that started the command was
/// taken. A log of another name has no line. Requests that may be delivered and their commands
/// have numbers below 2^63.
pub fn said_is_logged()
    ensures prefix { SaidIsLogged }
    ensures whole { AllSaidIsLogged }
    ensures others { OtherLogsAreEmpty }
    ensures numbers { NumbersAreSmall }
{}

/// What is said is logged over connections that are cut, with whatever is in flight, and resumed.
/// Where the worker has nothing unanswered, no session was given up and the lane is drained,
/// viewers see all that was said. A resumed schedule is a schedule, so all that holds of those
/// holds here. What is sent over its connections are the worker's requests, each with its number
/// and its bytes.
pub fn resumed_is_logged()
    ensures prefix { ResumedIsLogged }
    ensures whole { AllResumedIsLogged }
    ensures others { OtherResumedLogsAreEmpty }
    ensures schedule { ResumedIsSchedule }
    ensures sent { SentAreRequests }
{}

/// The bytes play no part. Those of each request that a worker can say spell a tree that can be
/// decoded and is a message. Whatever tree they spell, and whatever message it is, its event is
/// the one that schedules deliver. `Worker::say` and `finish` give these bytes; `decode_whole`
/// answers such a tree, and `Event::of_value` its event.
pub fn bytes_are_the_event()
    ensures read { BytesAreRead }
    ensures event { BytesAreTheEvent }
{}
