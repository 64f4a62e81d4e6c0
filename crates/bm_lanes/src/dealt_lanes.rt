//! The ends of all lanes, by who owns them.

ghost use Rattle.std.specs.Prelude.{◌≡◌, ◌++◌, ◌∷◌, [], IfSome, length, map, true};
ghost use Rattle.bm_session.specs.Trace.{below};
ghost use Rattle.bm_lanes.specs.Dealt.{AreDealt, DealsToo};

use bm_build_queue::ViewerPool;
use bm_config::WorkerConfig;
use bm_lane::{Ends, Viewer, WriterEnd, Yard};
use bm_lane_actor::LaneState;
use std::alloc::Global;
use std::sync::{Mutex, Wait};

/// The ends of many lanes, by who owns them. Each list is in the lanes' order.
#[derive(Drop)]
pub struct DealtLanes<Y: Yard, W: Wait + Drop, S> {
    pub states: Vec<LaneState<Y, S>>,
    pub writers: Vec<Mutex<WriterEnd<Y, W>>>,
    /// The viewers of the builds.
    pub pools: Vec<ViewerPool<Y>>,
    /// The web's viewer of each lane.
    pub web_viewers: Vec<Viewer<Y>>,
}

// Appends the value. False where there is no room; then it is dropped.
pub(crate) fn is_pushed<T: Drop>(list: &mut Vec<T>, one: T) -> bool
    ensures { result ≡ true → list.new.items ≡ list.old.items ++ one ∷ [] }
{
    list.push(one).is_ok()
}

// Whether each viewer is one of the lane whose number is its place.
fn is_in_order<Y: Yard>(viewers: &[Viewer<Y>]) -> bool
    ensures { result ≡ true → map (λ v. v.lane) viewers.now ≡ below (length viewers.now) }
{
    let mut lane = 0;
    for viewer in viewers {
        if viewer.lane() != lane {
            return false;
        }
        lane += 1;
    }
    true
}

/// Per lane: the reader's end to its actor, the writer's end to the pool, the last viewer to the
/// web, the others to builds. None where memory is wanting. None also where a lane isn't new, whole
/// and at its place, which never comes. `AreDealt` says which viewers are the builds'.
pub fn deal<Y: Yard, W: Wait + Drop, S: Drop>(
    alloc: Global,
    workers: &[WorkerConfig],
    all: Vec<Ends<Y, W>>,
) -> Option<DealtLanes<Y, W, S>>
    ensures web_viewers { IfSome result
        (λ lanes. map (λ v. v.lane) lanes.web_viewers.items ≡ below (length lanes.web_viewers.items)) }
    ensures dealt { IfSome result (λ lanes. AreDealt all.items lanes) }
{
    let mut lanes = DealtLanes {
        states: Vec::new(alloc),
        writers: Vec::new(alloc),
        pools: Vec::new(alloc),
        web_viewers: Vec::new(alloc),
    };
    let mut workers = workers.iter();
    for ends in all {
        let worker = workers.next()?;
        if !lanes.add(alloc, worker.resume_ticks, ends) {
            return None;
        }
    }
    lanes.in_order()
}

impl<Y: Yard, W: Wait + Drop, S: Drop> DealtLanes<Y, W, S> {
    // These lanes, where the web's viewer of each lane stands at its place.
    fn in_order(self) -> Option<DealtLanes<Y, W, S>>
        ensures web_viewers { IfSome result
            (λ lanes. map (λ v. v.lane) lanes.web_viewers.items ≡ below (length lanes.web_viewers.items)) }
        ensures same { IfSome result (λ lanes. lanes ≡ self) }
    {
        if is_in_order(self.web_viewers.as_slice()) {
            Some(self)
        } else {
            None
        }
    }

    // False where memory is wanting, or the lane isn't new and whole.
    fn add(&mut self, alloc: Global, resume_ticks: u32, ends: Ends<Y, W>) -> bool
        ensures { result ≡ true → DealsToo ends self.old self.new }
    {
        let Ends {
            reader,
            writer,
            viewers,
        } = ends;
        let mut viewers = viewers;
        let lane = reader.lane();
        if !reader.trace().is_empty() {
            return false;
        }
        let Some(viewer) = viewers.pop() else {
            return false;
        };
        let Some(pool) = ViewerPool::new(lane, viewers) else {
            return false;
        };
        let state = LaneState::new(alloc, reader, resume_ticks);
        let is_kept = is_pushed(&mut self.states, state);
        let is_written = is_pushed(&mut self.writers, Mutex::new(writer));
        let is_pooled = is_pushed(&mut self.pools, pool);
        let is_served = is_pushed(&mut self.web_viewers, viewer);
        is_kept & is_written & is_pooled & is_served
    }
}
