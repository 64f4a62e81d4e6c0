//! What the coordinator shares with the other threads of a master.

ghost use Rattle.std.specs.Prelude.{◌≡◌, option_map, IfOk, IfSome, length};
ghost use Rattle.bm_coordinator.specs.Shared.{both_at};

use crate::events::EventSender;
use crate::lines_ahead::LinesAhead;
use bm_board::Build;
use bm_config::Config;
use bm_lane::Yard;
use bm_lane_actor::{CancelFlag, DrainGate, LaneHandle, LaneSignal, WorkerStream};
use std::alloc::{AllocError, Global};
use std::sync::atomic::{AtomicBool, AtomicU64, Ordering};
use std::sync::{Arc, Wait};
use std::time::Clock;

/// Whether a build is to be cancelled, and where it is called.
#[derive(Drop)]
pub struct BuildCancel {
    /// Set by the coordinator, cleared by the build once a step has ended by it.
    pub flag: CancelFlag,
    /// The number of the lane on which the build runs, once it does.
    lane: AtomicU64,
}

impl BuildCancel {
    /// The build begins on this lane.
    pub fn begins(&self, lane: usize) {
        self.lane.store(lane as u64, Ordering::SeqCst);
    }
}

/// What the coordinator shares with the other threads of a master.
#[derive(Drop)]
pub struct CoordinatorShared<Y: Yard, R: Wait + Clock + Drop> {
    pub rt: R,
    pub alloc: Global,
    pub config: Config,
    /// For each build, whether it is to be cancelled.
    pub cancels: Vec<BuildCancel>,
    /// By what the lanes' actors are reached, in the order of the lanes.
    pub lanes: Vec<LaneHandle<WorkerStream<R>>>,
    /// By what the coordinator is reached.
    pub events: EventSender<Y>,
    /// How far the input's thread is ahead of the coordinator.
    pub lines: LinesAhead,
    /// Where the pool sleeps while nothing is to be drained. By it builds are called too.
    pub drain_gate: DrainGate<R>,
}

impl<Y: Yard, R: Wait + Clock + Copy + Drop> CoordinatorShared<Y, R> {
    /// What is shared before the first thread starts. `ends`: how many writers' ends the pool
    /// drains. None where memory is wanting.
    pub fn new(
        rt: &R,
        alloc: Global,
        config: Config,
        lanes: Vec<LaneHandle<WorkerStream<R>>>,
        events: EventSender<Y>,
        ends: usize,
    ) -> Option<CoordinatorShared<Y, R>>
        ensures config { IfSome result (λ shared. shared.config ≡ config) }
        ensures lanes { IfSome result (λ shared. shared.lanes ≡ lanes) }
        ensures cancels { IfSome result
            (λ shared. length shared.cancels.items ≡ length config.builds) }
    {
        let gate = DrainGate::new(*rt, alloc, ends, config.writers as usize).ok();
        let cancels = cancels_of(alloc, config.builds.as_slice().len()).ok();
        let (drain_gate, cancels) = gate.zip(cancels)?;
        Some(CoordinatorShared {
            rt: *rt,
            alloc,
            config,
            cancels,
            lanes,
            events,
            lines: LinesAhead::new(),
            drain_gate,
        })
    }
}

impl<Y: Yard, R: Wait + Clock + Drop> CoordinatorShared<Y, R> {
    /// The build of this number, and by what it is cancelled. None where there is no such build.
    pub fn build(&self, number: u64) -> Option<(&Build, &BuildCancel)>
        ensures { option_map (λ both. (both.0.now, both.1.now)) result
            ≡ both_at number self.now.config.builds self.now.cancels.items }
    {
        let build = self.config.builds.as_slice().get(number as usize)?;
        Some((build, self.cancels.get(number as usize)?))
    }

    /// Calls a build that is to be cancelled. It tells itself that it obeys.
    pub fn cancel(&self, build: u64) {
        if let Some(cancel) = self.cancels.get(build as usize) {
            cancel.flag.store(true, Ordering::SeqCst);
            let lane = cancel.lane.load(Ordering::SeqCst);
            self.drain_gate.call_builds(lane as usize);
        }
    }

    /// Gives the lane of a worker a signal.
    pub fn signal(&self, worker: usize, signal: LaneSignal) {
        if let Some(lane) = self.lanes.get(worker) {
            lane.signal(signal);
        }
    }
}

// For each build, that it isn't to be cancelled.
fn cancels_of(alloc: Global, builds: usize) -> Result<Vec<BuildCancel>, AllocError>
    ensures { IfOk result (λ cancels. length cancels.items ≡ builds) }
{
    let mut cancels = Vec::with_capacity(alloc, builds)?;
    for made in 0..builds {
        cancels.push(BuildCancel {
            flag: Arc::new(alloc, AtomicBool::new(false))?,
            lane: AtomicU64::new(0),
        })?;
    }
    Ok(cancels)
}
