//! What can be asked of a master's machine.

ghost use Rattle.std.specs.Prelude.{◌≡◌, IfSome, IfNone, Ok, Some, false, length, slice_get};
ghost use Rattle.std.specs.List.{list_any};
ghost use Rattle.std.specs.Option.{option_map, option_map_or};
ghost use Rattle.bm_board.specs.Board.{result_on};
ghost use Rattle.bm_build_queue.specs.BuildQueue.{AreResults, LacksResult};
ghost use Rattle.bm_latent.specs.WorkerState.{is_ready};
ghost use Rattle.bm_master.specs.Held.{is_of};

use crate::master::Master;
use bm_build_queue::ViewerPool;
use bm_lane::Yard;
use bm_session::Results;
use std::alloc::Global;

impl<Y: Yard> Master<Y> {
    /// How many builds there are.
    pub fn builds(&self) -> u64
        ensures { result ≡ length self.now.builds.queue.board.jobs }
    {
        self.builds.count()
    }

    /// The result of a build, None before its end.
    pub fn result(&self, build: u64) -> Option<Results>
        ensures found { IfSome result (λ r. result_on self.now.builds.queue.board build ≡ Ok (Some r)) }
        ensures none { IfNone result (LacksResult self.now.builds.queue.board build) }
    {
        self.builds.result(build)
    }

    /// Whether the worker was told to shut down, and hasn't gone or logged in since.
    pub fn is_dismissed(&self, at: usize) -> bool
        ensures { result ≡ option_map_or (λ w. w.machine.dismissed)
            (slice_get self.now.workers at) false }
    {
        match self.workers.get(at) {
            Some(worker) => worker.is_dismissed(),
            None => false,
        }
    }

    /// Whether the worker takes builds.
    pub fn is_ready(&self, at: usize) -> bool
        ensures { result ≡ option_map_or (λ w. is_ready w.machine.known)
            (slice_get self.now.workers at) false }
    {
        match self.workers.get(at) {
            Some(worker) => worker.is_ready(),
            None => false,
        }
    }

    /// The build that has its slot, and whose thread could not be started yet.
    pub fn unstarted(&self) -> Option<u64>
        ensures { result ≡ option_map (λ b. b.number) self.now.builds.unstarted }
    {
        self.builds.unstarted()
    }

    /// Whether a build holds its slot although it has its result.
    pub fn is_held(&self, build: u64) -> bool
        ensures { result ≡ list_any (is_of build) self.now.builds.held.places }
    {
        self.builds.is_held(build)
    }

    /// Whether any worker was told to shut down, and hasn't gone since.
    pub fn awaits_workers(&self) -> bool
        ensures { result ≡ list_any (λ w. w.machine.dismissed) self.now.workers }
    {
        self.workers.iter().any(|worker| worker.is_dismissed())
    }

    /// Whether the program of a worker runs.
    pub fn has_program(&self) -> bool
        ensures { result ≡ list_any (λ w. w.machine.running) self.now.workers }
    {
        self.workers.iter().any(|worker| worker.is_running())
    }

    /// Whether a build could not be run.
    pub fn has_failed(&self) -> bool
        ensures { result ≡ self.now.builds.failed }
    {
        self.builds.has_failed()
    }

    /// How each build ended, by its number. None where one has not, or memory is wanting.
    pub fn results(&self, alloc: Global) -> Option<Vec<Results>>
        ensures { IfSome result (λ all. AreResults self.now.builds.queue.board all.items) }
    {
        self.builds.results(alloc)
    }

    /// The viewers of the builds, by their lanes.
    pub fn into_pools(self) -> Vec<ViewerPool<Y>>
        ensures { result.items ≡ self.builds.queue.pools }
    {
        self.builds.into_pools()
    }
}
