//! The actor of one lane of a build master, and what works with it.
//!
//! A lane has one actor, in a thread of its own ([`serve_lane`]), which alone calls the lane's
//! link. Requests and links come to it by a [`Mailbox`], and it answers each until it is told to
//! leave. It waits in one place for its mailbox and for its worker's connections. [`log_in`] brings
//! a new connection there, [`LanePort`] a build. [`DrainGate`] lets the pool of writers sleep, and
//! calls builds. What an actor decides is in [`LaneState`] and [`LanePolicy`], what a port decides
//! in [`StepMachine`].
//!
//! A large value is dropped by a call of `drop`, also at the end of a function. Else the proof
//! takes it apart in each such place.
//!
//! Promised: what each call of it does to lane, link and timers, and that the orders without an
//! answer are those sent again. The laws of `StepLaws.antt` and `LaneLaws.antt` say what follows of
//! its two machines over whatever comes. `LaneActors.antt` says of each thing that an actor takes
//! up which input its policy hears, and that nothing else touches the lane. An actor that has ended
//! hands its lane's end back.
//!
//! No clause says that an actor takes up each thing that was sent, when it does, or what it tells.
//! A body could still wait too long, or tell no event. Tests show that, and what a channel carries
//! and a flag holds, but for `StartProgress::ask`, `reply` and `SeenFlag::read`. They show that
//! each update's bytes are counted once. Inside the crate `CancelPolicy`, `StepMeter`,
//! `StopOrders`, `LoginLimit` and `CallTimes` have clauses too. So have the reads and writes of a
//! worker's connection, and what comes back of what a mailbox doesn't take.
#![tactic(auto)]

mod arrivals;
mod byte_count;
mod call_times;
mod cancel_policy;
mod connection_state;
mod drain_gate;
mod lane_actor;
mod lane_actor_links;
mod lane_actor_orders;
mod lane_actor_ticks;
mod lane_event;
mod lane_laws;
mod lane_policy;
mod lane_request;
mod lane_state;
mod link_keeping;
mod login;
mod login_fates;
mod login_limit;
mod login_refusal;
mod mailbox;
mod order_outcome;
mod orders;
mod peer_timer;
mod pending_login;
mod placing;
mod port;
mod port_log;
mod port_tick;
mod read_watch;
mod resume_timer;
mod seen_flag;
mod start_progress;
mod step_laws;
mod step_machine;
mod step_meter;
mod stop_orders;
mod stream;
mod stream_calls;
mod watch;

pub use byte_count::{ByteCount, ByteCounts};
pub use call_times::LOGIN_MS;
pub use cancel_policy::CancelActs;
pub use connection_state::ConnectionState;
pub use drain_gate::DrainGate;
pub use lane_actor::serve_lane;
pub use lane_event::{
    EventSink, LaneEvent, declines, event_after, event_of, failed_login, fills, greeting, loss_of,
    remark_of,
};
pub use lane_laws::{
    asked_once_a_silence, none_waits_behind_the_end, silent_workers_are_asked_first,
    silent_workers_are_given_up, waiting_logins_are_answered_once,
};
pub use lane_policy::{LaneActs, LaneInput, LanePolicy, LinkAct, SecondAct};
pub use lane_request::{CancelFlag, LaneRequest, LaneSignal, StartOrder};
pub use lane_state::LaneState;
pub use login::log_in;
pub use login_fates::{LoginFate, WaitingFate, login_fate, waiting_fate};
pub use login_limit::{LoginLimit, MOST_PENDING_LOGINS};
pub use login_refusal::{refusal_in, refusal_of, refusal_remark};
pub use mailbox::{LaneHandle, Mailbox, Mailboxes, handle_of, open_mailbox, open_mailboxes};
pub use order_outcome::OrderOutcome;
pub use peer_timer::{ANSWER_WITHIN_MS, ASK_AFTER_MS, DEAD_AFTER_MS, PeerAction, PeerTimer};
pub use pending_login::PendingLogin;
pub use port::LanePort;
pub use port_log::polled;
pub use resume_timer::ResumeTimer;
pub use seen_flag::SeenFlag;
pub use start_progress::{StartProgress, StartStage, StartStep, after_step, start_step};
pub use step_laws::{
    cancels_are_told_once, commands_are_interrupted_once, held_cancel_leaves_out_one_step,
    interrupted_steps_end, limits_are_told_once,
};
pub use step_machine::{StepActs, StepInput, StepMachine};
pub use stop_orders::StopOrders;
pub use stream::WorkerStream;
pub use watch::Watch;
