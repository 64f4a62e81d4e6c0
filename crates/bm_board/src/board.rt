//! The board itself.

ghost use Rattle.std.specs.Prelude.{◌≡◌, ℕ, ◌<◌, ◌≤◌, ◌&&◌, ◌+◌, ◌^◌, true, nat_lt, All, length, OnOk, OnErr, IfOk, IfErr, IsOk, ◌⊎◌, Some, None, Ok, Err, position};

use crate::counts::Counts;
use crate::locks;
use crate::outcomes::Outcomes;
use crate::plan::Build;
use crate::refusal::BoardRefusal;
use crate::scheduled_build::{ScheduledBuild, Started};
use crate::steps::Next;
use crate::worker_slots::WorkerSlots;
use bm_session::Results;
use std::alloc::{AllocError, Global};
use std::marker::Model;

/// How many builds a board takes.
const MOST_BUILDS: usize = 10_000;

/// The workers, the locks, and the builds by number. A build holds a slot of its worker and its
/// locks from its start until it is released.
#[derive(Drop)]
pub struct Board {
    workers: Vec<WorkerSlots>,
    maxima: Vec<u32>,
    // What the builds hold and wait for, counted.
    counts: Counts,
    jobs: Vec<ScheduledBuild>,
}

impl Model for Board {
    ghost use Rattle.bm_board.specs.Board.{BoardState};
    ghost use Rattle.bm_board.specs.Kept.{IsCounted};

    ghost Value = { BoardState };

    ghost view = { λ b. record {
      workers = b.workers.items;
      maxima = b.maxima.items;
      jobs = b.jobs.items;
    } };

    ghost invariant = { λ b. IsCounted
        (record { workers = b.workers.items; maxima = b.maxima.items; jobs = b.jobs.items })
        b.counts };
}

impl Board {
    ghost use Rattle.bm_board.specs.Board.{IsWithinLimits, add_refusal, board_after, has_build, is_ready, is_wanted, on_build, opening, result_on, start, with_build, with_ready, worker_of};
    ghost use Rattle.bm_board.specs.ScheduledBuild.{answer_of, cancel, finish, give_up, release, waits_for};

    /// A board of workers with these many slots, none ready, and of locks with these maxima.
    pub fn new(alloc: Global, slots: &[u8], lock_max: &[u32]) -> Result<Board, AllocError>
        requires slots { All (λ n. (1 ≤ n) × (n ≤ 4)) slots.now }
        requires maxima { All (λ n. 1 ≤ n) lock_max.now }
        ensures { IfOk result (λ b. b ≡ opening slots.now lock_max.now) }
    {
        let mut workers = Vec::with_capacity(alloc, slots.len())?;
        for n in slots {
            workers.push(WorkerSlots {
                slots: *n,
                ready: false,
            })?;
        }
        Ok(Board {
            workers,
            maxima: Vec::from_slice(alloc, lock_max)?,
            counts: Counts::new(alloc, slots.len(), lock_max.len())?,
            jobs: Vec::new(alloc),
        })
    }

    /// How many workers there are.
    pub fn workers(&self) -> usize
        ensures { result ≡ length self.now.workers }
    {
        self.workers.as_slice().len()
    }

    /// How many builds there are, of all that were added.
    pub fn builds(&self) -> usize
        ensures { result ≡ length self.now.jobs }
    {
        self.jobs.as_slice().len()
    }

    /// Whether the worker is there and takes builds.
    pub fn is_ready(&self, worker: usize) -> bool
        ensures { result ≡ is_ready self.now worker }
    {
        match self.workers.get(worker) {
            Some(worker) => worker.ready,
            None => false,
        }
    }

    /// Whether a build waits for the worker.
    pub fn is_wanted(&self, worker: usize) -> bool
        ensures { result ≡ is_wanted self.now worker }
    {
        self.counts.waiting(worker) > 0
    }

    /// Whether a build of the worker was started, and hasn't given its slot back.
    pub fn has_build(&self, worker: usize) -> bool
        ensures { result ≡ has_build self.now worker }
    {
        worker < self.workers.len() && self.counts.taken(worker) > 0
    }

    /// The worker of a build, None where there is no such build.
    pub fn worker_of(&self, id: u64) -> Option<usize>
        ensures { result ≡ worker_of self.now id }
    {
        let job = self.jobs.get(id as usize)?;
        Some(job.build().worker)
    }

    /// What holds of every board. Each lock has one exclusive holder, or at most its maximum of
    /// counting ones. No worker has more builds that run or are not released than slots. The call
    /// does nothing when it runs.
    pub fn stays_within_limits(&self)
        ensures { IsWithinLimits self.now }
    {
        let _ = &self.jobs;
    }

    /// Says whether the worker takes builds. Builds that run go on.
    pub fn set_ready(&mut self, worker: usize, ready: bool)
        requires { worker < length self.old.workers }
        ensures { self.new ≡ with_ready self.old worker ready }
    {
        self.workers[worker].ready = ready;
    }

    /// Adds a build, which waits. Its number is how many were added before.
    /// Errors, with the build: `NoWorker`, `BadLock`, `Full`, `Mem`. The board is then unchanged.
    pub fn add_build(&mut self, build: Build) -> Result<u64, (Build, BoardRefusal)>
        ensures number { IfOk result (λ id. id ≡ length self.old.jobs) }
        ensures added { OnOk result (self.new ≡ with_build self.old build) }
        ensures fits { OnOk result (add_refusal self.old build ≡ None) }
        ensures back { IfErr result (λ r. r.0 ≡ build) }
        ensures refused { IfErr result (λ r. (add_refusal self.old build ≡ Some r.1)
            ⊎ ((add_refusal self.old build ≡ None) × (r.1 ≡ BoardRefusal.Mem))) }
        ensures unchanged { OnErr result (self.new ≡ self.old) }
    {
        if build.worker >= self.workers.len() {
            return Err((build, BoardRefusal::NoWorker));
        }
        if !locks::are_good(self.maxima.len(), build.locks.as_slice()) {
            return Err((build, BoardRefusal::BadLock));
        }
        let id = self.jobs.len();
        if id >= MOST_BUILDS {
            return Err((build, BoardRefusal::Full));
        }
        let worker = build.worker;
        let job = ScheduledBuild::new(*self.jobs.allocator(), build);
        match self.jobs.push(job) {
            Ok(()) => {
                self.counts.add_waiting(worker);
                Ok(id as u64)
            }
            Err(failed) => Err((failed.value.into_build(), BoardRefusal::Mem)),
        }
    }

    /// Starts a waiting build: it takes a slot of its worker, and its locks.
    /// Errors: `NoBuild`, `NotWaiting`, `NoWorker` (not ready, or no free slot), `LockHeld`, `Mem`.
    /// The board is then unchanged.
    pub fn try_start(&mut self, id: u64) -> Result<Started, BoardRefusal>
        ensures started { OnOk result (result ≡ answer_of (on_build (start self.old) self.old id)) }
        ensures board { OnOk result (self.new
            ≡ board_after self.old id (on_build (start self.old) self.old id)) }
        ensures refused { IfErr result (λ e. (on_build (start self.old) self.old id ≡ Err e)
            ⊎ (IsOk (on_build (start self.old) self.old id) × (e ≡ BoardRefusal.Mem))) }
        ensures unchanged { OnErr result (self.new ≡ self.old) }
    {
        let place = id as usize;
        if place >= self.jobs.len() {
            return Err(BoardRefusal::NoBuild);
        }
        let job = &self.jobs[place];
        if !job.is_waiting() {
            return Err(BoardRefusal::NotWaiting);
        }
        let build = job.build();
        let worker = build.worker;
        let had = self.workers[worker];
        if !has_place(had, self.counts.taken(worker)) {
            return Err(BoardRefusal::NoWorker);
        }
        if !self.counts.are_free(&self.maxima, build) {
            return Err(BoardRefusal::LockHeld);
        }
        let steps = build.steps.as_slice().len();
        let Ok(outcomes) = Outcomes::skipped(*self.jobs.allocator(), steps) else {
            return Err(BoardRefusal::Mem);
        };
        self.counts.remove_waiting(worker);
        self.counts.take(build);
        let next = self.jobs[place].start(outcomes);
        Ok(Started { worker, next })
    }

    /// The step that runs ended so, or CANCELLED where the build was cancelled meanwhile: what
    /// follows.
    /// Errors: `NoBuild`, `NotRunning`. The board is then unchanged.
    pub fn step_done(&mut self, id: u64, outcome: Results) -> Result<Next, BoardRefusal>
        ensures answer { result ≡ answer_of (on_build (finish outcome) self.old id) }
        ensures board { self.new ≡ board_after self.old id (on_build (finish outcome) self.old id) }
    {
        let place = id as usize;
        if place >= self.jobs.len() {
            return Err(BoardRefusal::NoBuild);
        }
        self.jobs[place].finish(outcome)
    }

    /// Cancels a build: a waiting one ends CANCELLED (false); of a running one the next `step_done`
    /// counts as CANCELLED (true).
    /// Errors: `NoBuild`, `NotRunning` (it is over). The board is then unchanged.
    pub fn cancel(&mut self, id: u64) -> Result<bool, BoardRefusal>
        ensures answer { result ≡ answer_of (on_build cancel self.old id) }
        ensures board { self.new ≡ board_after self.old id (on_build cancel self.old id) }
    {
        let place = id as usize;
        if place >= self.jobs.len() {
            return Err(BoardRefusal::NoBuild);
        }
        let job = &mut self.jobs[place];
        let waited = job.is_waiting();
        let worker = job.build().worker;
        let answer = job.cancel();
        if waited {
            self.counts.remove_waiting(worker);
        }
        answer
    }

    /// The result of a build, None before its end.
    /// Errors: `NoBuild`.
    pub fn result(&self, id: u64) -> Result<Option<Results>, BoardRefusal>
        ensures { result ≡ result_on self.now id }
    {
        let place = id as usize;
        if place >= self.jobs.len() {
            return Err(BoardRefusal::NoBuild);
        }
        Ok(self.jobs[place].result())
    }

    /// The number of the first build that waits for the worker, None where none does.
    pub fn first_waiting(&self, worker: usize) -> Option<usize>
        ensures { result ≡ position (waits_for worker) self.now.jobs }
    {
        self.jobs.iter().position(|job| job.is_waiting_for(worker))
    }

    /// Gives back the slot and the locks of a build that is over.
    /// Errors: `NoBuild`, `NotRunning` (it runs on, or holds nothing). The board is then unchanged.
    pub fn release(&mut self, id: u64) -> Result<(), BoardRefusal>
        ensures answer { result ≡ answer_of (on_build release self.old id) }
        ensures board { self.new ≡ board_after self.old id (on_build release self.old id) }
    {
        let place = id as usize;
        if place >= self.jobs.len() {
            return Err(BoardRefusal::NoBuild);
        }
        let job = &self.jobs[place];
        if !job.is_unreleased() {
            return Err(BoardRefusal::NotRunning);
        }
        self.counts.give(job.build());
        self.jobs[place].release();
        Ok(())
    }

    /// Gives a waiting build up: it ends RETRY.
    /// Errors: `NoBuild`, `NotWaiting`. The board is then unchanged.
    pub fn give_up(&mut self, id: u64) -> Result<(), BoardRefusal>
        ensures answer { result ≡ answer_of (on_build give_up self.old id) }
        ensures board { self.new ≡ board_after self.old id (on_build give_up self.old id) }
    {
        let place = id as usize;
        if place >= self.jobs.len() {
            return Err(BoardRefusal::NoBuild);
        }
        let job = &mut self.jobs[place];
        let waited = job.is_waiting();
        let worker = job.build().worker;
        let answer = job.give_up();
        if waited {
            self.counts.remove_waiting(worker);
        }
        answer
    }
}

// Whether a worker with so many slots taken may run one build more.
fn has_place(had: WorkerSlots, taken: u8) -> bool
    ensures place { result ≡ (had.ready && nat_lt taken had.slots) }
    ensures room { result ≡ true → taken + 1 < 2 ^ 8 }
{
    had.ready && taken < had.slots
}
