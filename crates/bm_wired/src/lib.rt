//! The law that joins the master's end of a session with the worker's. What a lane and a worker's
//! core reach over a connection, a schedule of `bm_replay` reaches too.
//!
//! `service_is_logged` says it from socket to socket, in the words of `Service.antt` alone. The
//! connections carry bytes and are cut anywhere. Sessions are resumed, given up and begun anew.
//! Each step is stated by what the call that makes it ensures. At the master these are a turn, an
//! order, a question, a drain and a login. At the worker they are a turn, what is told next, and
//! what is sent again. Two things stand as premises of a step, since no clause says them. A drained
//! item is one that was put, and texts are UTF-8. A third is that a session which is resumed is
//! that of the worker's core, or that the core is still new.
//!
//! It is proved in layers, and `service_is_over_bytes` says that these reach the same states. One
//! is of whole messages in one session, whose connection isn't cut. Another is of connections that
//! are cut, and of sessions. The last is of bytes. Of each there is a run in which a line comes
//! from a command to a viewer. What is taken of frames is proved of the reader that both ends have.
//! Pings and close frames are no part of it.
//!
//! Beside them stand the laws that messages are read back as they were meant, by either end. They
//! are of bytes alone, and need no run.
//!
//! Not said: that a program makes these steps alone, and that anything arrives.
//!
//! # Which function makes which step
//!
//! The steps are those of `Service.antt`. No clause says that the programs make no others. The list
//! names, for each, the function that makes it, and the definition that its contract cites.
//! `tests/gate/recorded_runs` plays what both programs said in a run through the replay. That shows
//! moves of the lane. Of a worker it looks that no request is passed over, and that what is sent
//! again has the same bytes.
//!
//! - *Start*: `LaneState::start`, for `LaneActor::answer_start`. Cites `Starts` of `bm_lane_actor`,
//!   by that of `bm_link`.
//! - *Interrupt*: `LaneState::interrupt`, for `LaneActor::send_stop`. Cites `Interrupts` of both.
//! - *Inquire*: `LaneState::shut_down`, which asks for a shutdown. The programs ask for nothing
//!   else. Cites `ShutsDown`, by `AsksFor` of `bm_link`.
//! - *Turn*: `LaneState::turn`, for `LaneActor::turn`. Cites `Turns`, by `Turned` of `bm_link`.
//! - *Tell*: `WorkerSession::send_next`, where no request is to be sent again. Cites `SendsNext`,
//!   by `TellsOn` and `TellsNext`. What waits may be anything: `Processes::next` and
//!   `Processes::run` put it into the outbox.
//! - *Resend*: `WorkerSession::send_next`, where one is. Cites `SendsNext`, by `HandsOver`.
//! - *Listen*: `WorkerSession::hear`. Cites `HearsBy`, by `Worked` of `bm_link`.
//! - *Drain*: `WriterEnd::drain`, where it answers `Took`. Cites `Drains`.
//! - *Stay*: `Viewer::chunk`, `portion` and `state`. Cites `GivesChunk`, `GivesPortion`,
//!   `GivesState`. A call that is refused is one too, and a turn of a lane that is busy.
//! - *Break*: no function: the network does, or an end that fails. A call whose write fails is the
//!   step that succeeded, and then a Break. Cites none.
//! - *Leave*: `WorkerSession::lose`; the end of the worker's process is one too. By the clauses
//!   `link` and `kept`.
//! - *Lose*: `LaneState::turn`, `start`, `interrupt` and `attach`, where the link has failed;
//!   `give_up`, `expire` and `tick`. Cites `Ends` of `bm_link`; `GivesUp`, `Expires`, `Ticks`.
//! - *Meet*: `LaneState::attach`, for `LaneActor::admit`. Cites `Attaches` of `bm_lane_actor`, by
//!   that of `bm_link`.
//! - *Resume, Begin*: `WorkerSession::connect`, behind the answer that it reads. Cites
//!   `ConnectsBy`, by `BeginsBy`.
//!
//! No other thread makes them, since each value has one owner, and its calls take it by `&mut`:
//!
//! - *Start to Turn, Lose, Meet*: the `LaneState` owns the lane's `ReaderEnd`, its `MasterLink` and
//!   its `ResumeState`, in private fields. `start_actor` moves it into the lane's thread, where the
//!   `LaneActor` owns it until `serve_lane` ends. Others have a `LaneHandle`: they send a request
//!   or a signal to the `Mailbox`, and the actor makes the move. A login's thread owns its
//!   `MasterLink` until the request `Attach` moves it there.
//! - *Tell, Resend, Listen, Leave, Resume, Begin*: the `WorkerSession` owns the core, the backlog
//!   and the `WorkerLink` in private fields. The `BuildWorker` owns the session, and is a local
//!   value of `work_run` on the worker's main thread. The outbox is a public field, which
//!   `BuildWorker` alone lends out, to `Processes` on the same thread. The threads of a pipe and of
//!   a connection send mail.
//! - *Drain*: a `WriterEnd` lies behind a lock. A thread of the pool (`writers`), or `drain_lanes`
//!   in its place, has it while it holds the lock.
//! - *Stay*, of a look: a `Viewer` is moved to the thread of a build, and back to the coordinator
//!   at its end. Those of the web lie in a `LogService`: a look takes one out, under the lock of
//!   its lane.
//!
//! What ownership doesn't say: a connection's thread has a second handle of the worker's socket.
//! That it peeks there, and takes and writes nothing, is by its body alone. So it is that the
//! outbox gets nothing but what `Processes` puts there.
//!
//! # What refuses the ways to break it
//!
//! Each has a wrong body that a call's clause refuses, and a wrong sentence that a law refuses
//! (`tests/beside/wrong_sentences`):
//!
//! - An update is sent before the core has it: `said_but_not_kept` of `bm_work`; the sentences
//!   `update_before_the_core_has_it` and `service_tells_before_the_core_has_it`.
//! - An answer leaves before the trace took the update: `answered_before_the_lane_took_it` of
//!   `bm_link`; `answered_before_the_trace_took_it`, `service_answers_before_the_trace_took_it`.
//! - A request is sent again under another number: `resend_renumbers` of `bm_work`;
//!   `another_request_is_sent_again`, `service_sends_another_request_again`.
//! - A session begins twice: `resumed_session_begins_anew` of `bm_worker_session`; a sentence of
//!   that name, and `service_begins_a_session_twice`.
//! - An order is dropped at a resumption: `orders_are_not_sent_again` of `bm_link`, for which the
//!   caller `order_is_sent_again` stands. Of the laws `service_is_over_bytes` alone refuses it, by
//!   `service_drops_orders`: a command that isn't run makes no log wrong.
#![tactic(auto)]

pub mod laws;
