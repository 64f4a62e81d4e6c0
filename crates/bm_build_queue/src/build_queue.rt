//! The build queue itself.
ghost use Rattle.std.specs.Prelude.{◌≡◌, ◌⊎◌, ◌<◌, ◌≤◌, ℕ, All, IfOk, OnOk, OnErr, IfErr, IfSome, IfNone, IsSome, length, true, false, Ok, Some, None, position};
ghost use Rattle.bm_build_queue.specs.BuildQueue.{AreResults, CanStart, HoldsSlots, IsOver, IsStarted, LacksResult, Releases, Reports, after_cancel, after_giving_up, after_release, after_step, can_start, has_viewer, on_board, with_board};
ghost use Rattle.bm_build_queue.specs.ViewerPool.{IsGiven, IsTaken, is_taken_back};
ghost use Rattle.bm_build_queue.specs.Cancels.{met_by};
ghost use Rattle.bm_board.specs.ScheduledBuild.{answer_of, cancel, waits_for};
ghost use Rattle.bm_board.specs.Board.{add_refusal, has_build, is_wanted, on_build, opening, result_on, with_build, with_ready};

use crate::assignment::Assignment;
use crate::viewer_pool::ViewerPool;
use bm_board::{Board, BoardRefusal, Build, StepPlan, StepPlans, Words};
use bm_lane::{Viewer, Yard};
use bm_lines::Text;
use bm_session::Results;
use std::alloc::{AllocError, Global};
use std::marker::Model;

/// What a cancel met.
#[derive(Clone, Copy, PartialEq, Eq)]
pub enum Cancelled {
    /// The build waited, and has ended CANCELLED.
    Waiting,
    /// The build runs: its runner is to be told, and it will count as CANCELLED.
    Running,
    /// There is no such build, or it had ended: nothing changed.
    Nothing,
}

/// The builds by number, the workers and the locks, and the viewers that no build has. Contracts
/// see its board, its pools of viewers, and whether memory was wanting.
///
/// On the board a build is one step, that of its runner, whose outcome is what the runner reports.
/// Its own steps run in the build's thread, by `run_build`. Steps on the board would bring in the
/// coordinator between any two of them. They would start nothing earlier, since a build keeps slot
/// and locks from its first step to its last.
#[derive(Drop)]
pub struct BuildQueue<Y: Yard> {
    board: Board,
    pools: Vec<ViewerPool<Y>>,
    is_short: bool,
}

impl<Y: Yard> Model for BuildQueue<Y> {
    ghost use Rattle.bm_build_queue.specs.BuildQueue.{QueueState};
    ghost use Rattle.bm_build_queue.specs.Wholes.{AreWhole};

    ghost Value = { QueueState };

    ghost view = { λ q. record {
      board = q.board;
      pools = q.pools.items;
      is_short = q.is_short;
    } };

    ghost invariant = { λ q. AreWhole q.board };
}

// What a build is on the board: its worker, its locks, and one step.
fn as_one_step(alloc: Global, build: &Build) -> Result<Build, AllocError>
    ensures { IfOk result (λ b. b ≡ on_board build.now) }
{
    let step = StepPlan {
        name: Text::from_str(alloc, "")?,
        argv: Words::new(alloc),
        halt_on_failure: false,
        flunk_on_failure: true,
        always_run: false,
        max_bytes: 0,
        timeout_ticks: 0,
        silent_ticks: 0,
    };
    let mut steps = Vec::with_capacity(alloc, 1)?;
    steps.push_reserved(step);
    Ok(Build {
        worker: build.worker,
        locks: build.locks.copy()?,
        steps: StepPlans::from_vec(steps),
    })
}

impl<Y: Yard> BuildQueue<Y> {
    /// A queue without builds. Worker w has the slots and the pool at place w, and isn't ready.
    pub fn new(
        alloc: Global,
        slots: &[u8],
        lock_max: &[u32],
        pools: Vec<ViewerPool<Y>>,
    ) -> Result<BuildQueue<Y>, AllocError>
        requires slots { All (λ n. (1 ≤ n) × (n ≤ 4)) slots.now }
        requires maxima { All (λ n. 1 ≤ n) lock_max.now }
        ensures { IfOk result (λ r. r ≡ record {
          board = opening slots.now lock_max.now;
          pools = pools.items;
          is_short = false;
        }) }
    {
        Ok(BuildQueue {
            board: Board::new(alloc, slots, lock_max)?,
            pools,
            is_short: false,
        })
    }

    /// Adds a build, which waits. Its number is how many were added before.
    /// Errors: those of the board. Nothing has changed then.
    pub fn add(&mut self, alloc: Global, build: &Build) -> Result<u64, BoardRefusal>
        ensures number { IfOk result (λ n. n ≡ length self.old.board.jobs) }
        ensures added { OnOk result (self.new
            ≡ with_board self.old (with_build self.old.board (on_board build.now))) }
        ensures refused { IfErr result
            (λ r. (add_refusal self.old.board (on_board build.now) ≡ Some r)
            ⊎ (r ≡ BoardRefusal.Mem)) }
        ensures unchanged { OnErr result (self.new ≡ self.old) }
    {
        let Ok(one) = as_one_step(alloc, build) else {
            return Err(BoardRefusal::Mem);
        };
        let number = match self.board.add_build(one) {
            Ok(number) => number,
            Err((_, why)) => return Err(why),
        };
        Ok(number)
    }

    /// How many builds there are.
    pub fn builds(&self) -> u64
        ensures { result ≡ length self.now.board.jobs }
    {
        self.board.builds() as u64
    }

    /// How many workers there are.
    pub fn workers(&self) -> usize
        ensures { result ≡ length self.now.board.workers }
    {
        self.board.workers()
    }

    /// Says whether the worker takes builds. A worker that isn't there is passed over.
    pub fn set_ready(&mut self, worker: usize, ready: bool)
        ensures there { worker < length self.old.board.workers
            → self.new ≡ with_board self.old (with_ready self.old.board worker ready) }
        ensures nowhere { length self.old.board.workers ≤ worker → self.new ≡ self.old }
    {
        if worker < self.board.workers() {
            self.board.set_ready(worker, ready);
        }
    }

    /// Whether a build waits for the worker.
    pub fn is_wanted(&self, worker: usize) -> bool
        ensures { result ≡ is_wanted self.now.board worker }
    {
        self.board.is_wanted(worker)
    }

    /// Whether a build of the worker holds a slot: it was started, and not released.
    pub fn has_build(&self, worker: usize) -> bool
        ensures { result ≡ has_build self.now.board worker }
    {
        self.board.has_build(worker)
    }

    // Whether a viewer of the worker's lane is left.
    fn has_viewer(&self, worker: usize) -> bool
        ensures { result ≡ has_viewer self.now.pools worker }
    {
        match self.pools.get(worker) {
            Some(pool) => pool.lane() == worker as u64 && pool.has_viewer(),
            None => false,
        }
    }

    fn take_viewer(&mut self, worker: usize) -> Option<Viewer<Y>>
        ensures own { IfSome result (λ v. v.lane ≡ worker) }
        ensures found { has_viewer self.old.pools worker ≡ true → IsSome result }
        ensures taken { IfSome result (λ v. IsTaken self.old.pools self.new.pools worker v) }
        ensures board { self.new.board ≡ self.old.board }
        ensures short { self.new.is_short ≡ self.old.is_short }
        ensures unchanged { IfNone result (self.new ≡ self.old) }
    {
        let pool = self.pools.get_mut(worker)?;
        if pool.lane() != worker as u64 {
            return None;
        }
        pool.take()
    }

    // Starts a build that can be started. None where it can't be, or memory is wanting, which is
    // kept: nothing has changed then but for that.
    fn start(&mut self, number: u64) -> Option<Assignment<Y>>
        ensures started { IfSome result (λ c. (c.number ≡ number)
            × IsStarted self.old.board self.new.board number c.worker) }
        ensures viewer { IfSome result
            (λ c. IsTaken self.old.pools self.new.pools c.worker c.viewer) }
        ensures unchanged { IfNone result ((self.new.board ≡ self.old.board)
            × (self.new.pools ≡ self.old.pools)) }
        ensures left { IfNone result (can_start self.old number ≡ true → self.new.is_short ≡ true) }
        ensures still { self.old.is_short ≡ true → self.new.is_short ≡ true }
        ensures short { self.new.is_short ≡ true
            → (self.old.is_short ≡ true) ⊎ CanStart self.old.board }
    {
        let worker = self.board.worker_of(number)?;
        if !self.has_viewer(worker) {
            return None;
        }
        match self.board.try_start(number) {
            Ok(_) => {}
            Err(BoardRefusal::Mem) => {
                self.is_short = true;
                return None;
            }
            Err(_) => return None,
        }
        match self.take_viewer(worker) {
            Some(viewer) => Some(Assignment {
                number,
                worker,
                viewer,
            }),
            None => unreachable!(),
        }
    }

    /// Starts the first of the builds that can be started now. It waits, its worker is ready and
    /// has a free slot and a viewer left, and its locks may be had. It is to run, to be reported,
    /// and to be released. None where there is none, or memory is wanting for each of them.
    pub fn next(&mut self) -> Option<Assignment<Y>>
        ensures started { IfSome result
            (λ c. IsStarted self.old.board self.new.board c.number c.worker) }
        ensures viewer { IfSome result
            (λ c. IsTaken self.old.pools self.new.pools c.worker c.viewer) }
        ensures first { IfSome result (λ c. (k : ℕ) → k < c.number → can_start self.old k ≡ true
            → self.new.is_short ≡ true) }
        ensures none { IfNone result ((k : ℕ) → can_start self.old k ≡ true
            → self.new.is_short ≡ true) }
        ensures board { IfNone result (self.new.board ≡ self.old.board) }
        ensures pools { IfNone result (self.new.pools ≡ self.old.pools) }
        ensures short { self.new.is_short ≡ true → CanStart self.old.board }
    {
        self.is_short = false;
        for number in 0..self.board.builds() as u64 {
            if let Some(assignment) = self.start(number) {
                return Some(assignment);
            }
        }
        None
    }

    /// Whether memory was wanting for the start of a build, so that it is to be tried again.
    pub fn is_short(&self) -> bool
        ensures { result ≡ self.now.is_short }
    {
        self.is_short
    }

    /// The runner of a build that was started reports this, which is kept as the build's result; or
    /// CANCELLED, where it was cancelled meanwhile. The build holds its slot and its locks until it
    /// is released, since a command of it may be open. It takes no memory.
    pub fn report(&mut self, number: u64, reported: Results)
        ensures board { self.new ≡ with_board self.old (after_step self.old.board number reported) }
        ensures reported { Reports self.old.board self.new.board number reported }
        ensures held { HoldsSlots self.old.board self.new.board }
    {
        let _ = self.board.step_done(number, reported);
    }

    /// A build that has its result gives its slot and its locks back. Its viewer goes back to the
    /// pool of its lane. The answer is whether it has a place there: one that `next` gave has. It
    /// takes no memory.
    pub fn release(&mut self, number: u64, viewer: Viewer<Y>) -> bool
        ensures board { self.new.board ≡ after_release self.old.board number }
        ensures released { Releases self.old.board self.new.board number }
        ensures answer { result ≡ is_taken_back self.old.pools viewer }
        ensures given { result ≡ true
            → IsGiven self.old.pools self.new.pools viewer.lane viewer }
        ensures lost { result ≡ false → self.new.pools ≡ self.old.pools }
        ensures memory { self.new.is_short ≡ self.old.is_short }
    {
        let _ = self.board.release(number);
        let Some(pool) = self.pools.get_mut(viewer.lane() as usize) else {
            return false;
        };
        pool.give(viewer).is_ok()
    }

    /// Cancels a build.
    pub fn cancel(&mut self, number: u64) -> Cancelled
        ensures answer { result ≡ met_by (answer_of (on_build cancel self.old.board number)) }
        ensures board { self.new ≡ with_board self.old (after_cancel self.old.board number) }
    {
        match self.board.cancel(number) {
            Ok(true) => Cancelled::Running,
            Ok(false) => Cancelled::Waiting,
            Err(_) => Cancelled::Nothing,
        }
    }

    /// The first build that waits for the worker.
    pub fn first_waiting(&self, worker: usize) -> Option<u64>
        ensures { result ≡ position (waits_for worker) self.now.board.jobs }
    {
        match self.board.first_waiting(worker) {
            Some(number) => Some(number as u64),
            None => None,
        }
    }

    /// The first build that waits for the worker is given up: it ends RETRY. The answer is its
    /// number, None where no build waits for the worker.
    pub fn give_up_one(&mut self, worker: usize) -> Option<u64>
        ensures first { result ≡ position (waits_for worker) self.old.board.jobs }
        ensures given_up { IfSome result (λ n. self.new
            ≡ with_board self.old (after_giving_up self.old.board n)) }
        ensures unchanged { IfNone result (self.new ≡ self.old) }
    {
        let number = self.board.first_waiting(worker)? as u64;
        let _ = self.board.give_up(number);
        Some(number)
    }

    /// The result of a build, None before its end.
    pub fn result(&self, number: u64) -> Option<Results>
        ensures found { IfSome result (λ r. result_on self.now.board number ≡ Ok (Some r)) }
        ensures none { IfNone result (LacksResult self.now.board number) }
    {
        match self.board.result(number) {
            Ok(result) => result,
            Err(_) => None,
        }
    }

    /// How each build ended, by its number. None where one has not, or memory is wanting.
    pub fn results(&self, alloc: Global) -> Option<Vec<Results>>
        ensures { IfSome result (λ all. AreResults self.now.board all.items) }
    {
        let mut all = Vec::new(alloc);
        for number in 0..self.board.builds() as u64 {
            let result = self.result(number)?;
            if all.push(result).is_err() {
                return None;
            }
        }
        Some(all)
    }

    /// Whether every build has its result.
    pub fn is_over(&self) -> bool
        ensures over { result ≡ true → IsOver self.now.board }
        ensures not_over { result ≡ false
            → (number : ℕ) × (result_on self.now.board number ≡ Ok None) }
    {
        for number in 0..self.board.builds() as u64 {
            match self.board.result(number) {
                Ok(Some(_)) => {}
                Ok(None) => return false,
                Err(_) => return true,
            }
        }
        true
    }

    /// The pools, by their workers' places, once no build runs.
    pub fn into_pools(self) -> Vec<ViewerPool<Y>>
        ensures { result.items ≡ self.pools }
    {
        self.pools
    }
}
