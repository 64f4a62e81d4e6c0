//! How many slots are taken, how often each lock is held, and how many builds wait.

ghost use Rattle.std.specs.Prelude.{◌≡◌, ◌+◌, ◌<◌, ◌≤◌, ◌^◌, All, length, replicate, slice_index, IfOk};
ghost use Rattle.std.specs.List.{list_all};
ghost use Rattle.bm_board.specs.Kept.{HasRoom, IsHeld, IsListed, IsOneMore, IsTaken, are_free};
ghost use Rattle.bm_board.specs.Locks.{may_have};

use crate::locks;
use crate::plan::{Build, LockUse, Mode};
use std::alloc::{AllocError, Global};
use std::marker::Model;

/// What the builds of a board hold and wait for, counted as they change. No call but `new` takes
/// memory.
///
/// The board alone counts. A count beside it, in the queue, would be a second owner of one fact,
/// with an invariant of its own.
#[derive(Drop)]
pub struct Counts {
    // Of each worker, how many slots are taken.
    taken: Vec<u8>,
    // Of each lock, how many builds hold it in each mode.
    counting: Vec<u32>,
    exclusive: Vec<u32>,
    // Of each worker, how many builds wait for it.
    waiting: Vec<u32>,
}

impl Model for Counts {
    ghost use Rattle.bm_board.specs.Kept.{BoardCounts};

    ghost Value = { BoardCounts };

    ghost view = { λ c. record {
      held = record {
        taken = c.taken.items;
        counting = c.counting.items;
        exclusive = c.exclusive.items;
      };
      waiting = c.waiting.items;
    } };
}

impl Counts {
    /// Nothing is held, and no build waits.
    pub fn new(alloc: Global, workers: usize, locks: usize) -> Result<Counts, AllocError>
        ensures { IfOk result (λ c. c ≡ record {
          held = record {
            taken = replicate workers 0;
            counting = replicate locks 0;
            exclusive = replicate locks 0;
          };
          waiting = replicate workers 0;
        }) }
    {
        Ok(Counts {
            taken: vec![in alloc; 0; workers]?,
            counting: vec![in alloc; 0; locks]?,
            exclusive: vec![in alloc; 0; locks]?,
            waiting: vec![in alloc; 0; workers]?,
        })
    }

    /// How many slots of the worker are taken.
    pub fn taken(&self, worker: usize) -> u8
        requires { worker < length self.now.held.taken }
        ensures { result ≡ slice_index self.now.held.taken worker }
    {
        self.taken[worker]
    }

    /// How many builds wait for the worker; 0 where there is no such worker.
    pub fn waiting(&self, worker: usize) -> u32
        ensures { result ≡ slice_index self.now.waiting worker }
    {
        if worker < self.waiting.len() {
            self.waiting[worker]
        } else {
            0
        }
    }

    /// One build more waits for the worker.
    pub fn add_waiting(&mut self, worker: usize)
        requires there { worker < length self.old.waiting }
        requires room { slice_index self.old.waiting worker + 1 < 2 ^ 32 }
        ensures held { self.new.held ≡ self.old.held }
        ensures more { IsOneMore self.old.waiting self.new.waiting worker }
    {
        self.waiting[worker] += 1;
    }

    /// One build fewer waits for the worker.
    pub fn remove_waiting(&mut self, worker: usize)
        requires there { worker < length self.old.waiting }
        requires some { 0 < slice_index self.old.waiting worker }
        ensures held { self.new.held ≡ self.old.held }
        ensures fewer { IsOneMore self.new.waiting self.old.waiting worker }
    {
        self.waiting[worker] -= 1;
    }

    /// Whether each lock of the build may be had.
    pub fn are_free(&self, maxima: &[u32], build: &Build) -> bool
        requires listed { IsListed self.now.held build.now }
        requires maxima { length maxima.now ≡ length self.now.held.counting }
        requires maxima_too { length maxima.now ≡ length self.now.held.exclusive }
        ensures free { result ≡ are_free self.now.held maxima.now build.now.locks }
        ensures small { All (λ m. m < 2 ^ 32) maxima.now }
    {
        are_free(
            maxima,
            &self.counting,
            &self.exclusive,
            build.locks.as_slice(),
        )
    }

    /// Counts what a build takes.
    pub fn take(&mut self, build: &Build)
        requires listed { IsListed self.old.held build.now }
        requires room { HasRoom self.old.held build.now }
        ensures held { IsTaken self.old.held self.new.held build.now }
        ensures waiting { self.new.waiting ≡ self.old.waiting }
    {
        let uses = build.locks.as_slice();
        self.taken[build.worker] += 1;
        locks::take_locks(&mut self.counting, Mode::Counting, uses);
        locks::take_locks(&mut self.exclusive, Mode::Exclusive, uses);
    }

    /// Counts no longer what a build took.
    pub fn give(&mut self, build: &Build)
        requires listed { IsListed self.old.held build.now }
        requires held { IsHeld self.old.held build.now }
        ensures held { IsTaken self.new.held self.old.held build.now }
        ensures waiting { self.new.waiting ≡ self.old.waiting }
    {
        let uses = build.locks.as_slice();
        self.taken[build.worker] -= 1;
        locks::give_locks(&mut self.counting, Mode::Counting, uses);
        locks::give_locks(&mut self.exclusive, Mode::Exclusive, uses);
    }
}

fn are_free(maxima: &[u32], counting: &[u32], exclusive: &[u32], uses: &[LockUse]) -> bool
    requires there { All (λ u. u.lock < length maxima.now) uses.now }
    requires counted { length counting.now ≡ length maxima.now }
    requires counted_too { length exclusive.now ≡ length maxima.now }
    ensures { result ≡ list_all (λ u. may_have u.mode (slice_index maxima.now u.lock)
        (slice_index counting.now u.lock) (slice_index exclusive.now u.lock)) uses.now }
{
    uses.iter().all(|u| {
        locks::may_have(u.mode, maxima[u.lock], counting[u.lock], exclusive[u.lock])
    })
}
