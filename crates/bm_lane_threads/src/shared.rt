//! What the threads that serve lanes share.

ghost use Rattle.std.specs.Prelude.{◌≡◌, IfSome};
ghost use Rattle.bm_lanes.specs.ConfigLists.{users};

use crate::sockets::AcceptorWaker;
use bm_config::Config;
use bm_coordinator::{CoordinatorShared, EventSender};
use bm_lane::{WriterEnd, Yard};
use bm_lane_actor::{LaneHandle, LoginLimit, WorkerStream};
use bm_lanes::users_of;
use bm_link::User;
use std::alloc::Global;
use std::sync::atomic::AtomicBool;
use std::sync::{Arc, Mutex, Wait};
use std::time::Clock;

/// What the threads that serve lanes share. Each list is in the order of the lanes.
#[derive(Drop)]
pub struct LaneThreadsShared<Y: Yard, R: Wait + Clock + Drop> {
    /// What the coordinator and the builds have of it.
    pub base: CoordinatorShared<Y, R>,
    /// Who may log in.
    pub users: Vec<User>,
    /// By what the acceptor is woken.
    pub acceptor: AcceptorWaker,
    /// The connections without a login, and how many of them there may be.
    pub logins: LoginLimit,
    /// The writers' ends, which the pool drains.
    pub writers: Vec<Mutex<WriterEnd<Y, R>>>,
    /// Set once the coordinator has left.
    pub is_over: Arc<AtomicBool, Global>,
}

impl<Y: Yard, R: Wait + Clock + Copy + Drop> LaneThreadsShared<Y, R> {
    /// What is shared before the first thread starts. None where memory is wanting.
    pub fn new(
        rt: &R,
        alloc: Global,
        config: Config,
        lanes: Vec<LaneHandle<WorkerStream<R>>>,
        events: EventSender<Y>,
        acceptor: AcceptorWaker,
        writers: Vec<Mutex<WriterEnd<Y, R>>>,
    ) -> Option<LaneThreadsShared<Y, R>>
        ensures config { IfSome result (λ shared. shared.base.config ≡ config) }
        ensures lanes { IfSome result (λ shared. shared.base.lanes ≡ lanes) }
        ensures users { IfSome result (λ shared. shared.users.items ≡ users config.workers) }
        ensures writers { IfSome result (λ shared. shared.writers ≡ writers) }
    {
        let Ok(users) = users_of(alloc, config.workers.as_slice()) else {
            return None;
        };
        let base = CoordinatorShared::new(rt, alloc, config, lanes, events, writers.len())?;
        let is_over = Arc::new(alloc, AtomicBool::new(false)).ok()?;
        let logins = LoginLimit::new(alloc).ok()?;
        Some(LaneThreadsShared {
            base,
            users,
            acceptor,
            logins,
            writers,
            is_over,
        })
    }
}
