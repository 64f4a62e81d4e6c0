//! The builds of a master, from their starts to their results.

ghost use Rattle.std.specs.Prelude.{◌≡◌, ◌<◌, ◌≤◌, ◌||◌, ℕ, IfSome, IfNone, None, Some, Ok, length, not, position, true, false};
ghost use Rattle.std.specs.List.{list_all, list_any};
ghost use Rattle.std.specs.Option.{option_map};
ghost use Rattle.bm_board.specs.Board.{has_build, is_wanted, on_build, result_on, with_ready};
ghost use Rattle.bm_board.specs.ScheduledBuild.{answer_of, cancel, waits_for};
ghost use Rattle.bm_build_queue.specs.BuildQueue.{AreResults, IsOver, LacksResult, Releases, after_cancel, after_giving_up, after_release, can_start, with_board};
ghost use Rattle.bm_build_queue.specs.Cancels.{met_by};
ghost use Rattle.bm_build_queue.specs.ViewerPool.{IsGiven};
ghost use Rattle.bm_latent.specs.StartTries.{tries_after};
ghost use Rattle.bm_master.specs.Builds.{IsNext, is_short, noted, opened};
ghost use Rattle.bm_master.specs.Held.{IsNotedIn, is_free, is_of, is_vacant};

use crate::held_builds::HeldBuilds;
use crate::unstarted_build::UnstartedBuild;
use crate::values::FinishedBuild;
use bm_build_queue::{Assignment, BuildQueue, Cancelled, HeldBuild, ViewerPool};
use bm_lane::{Viewer, Yard};
use bm_session::Results;
use std::alloc::Global;
use std::marker::Model;

/// The builds of a master: those that wait, run, hold their slots and are over.
#[derive(Drop)]
pub(crate) struct MasterBuilds<Y: Yard> {
    queue: BuildQueue<Y>,
    /// The build that has its slot, and whose thread could not be started yet.
    unstarted: Option<UnstartedBuild<Y>>,
    /// The builds that hold their slots although they have their results.
    held: HeldBuilds<Y>,
    /// Whether a build could not be run.
    has_failed: bool,
}

impl<Y: Yard> Model for MasterBuilds<Y> {
    ghost use Rattle.bm_master.specs.Builds.{BuildsView};

    ghost Value = { BuildsView };

    ghost view = { λ b. record {
      queue = b.queue;
      unstarted = b.unstarted;
      held = b.held;
      failed = b.has_failed;
    } };
}

impl<Y: Yard> MasterBuilds<Y> {
    /// The builds of this queue, of which none was started.
    pub(crate) fn new(alloc: Global, queue: BuildQueue<Y>) -> MasterBuilds<Y>
        ensures { result ≡ opened queue }
    {
        MasterBuilds {
            queue,
            unstarted: None,
            held: HeldBuilds::new(alloc),
            has_failed: false,
        }
    }

    /// How many there are.
    pub(crate) fn count(&self) -> u64
        ensures { result ≡ length self.now.queue.board.jobs }
    {
        self.queue.builds()
    }

    /// The result of a build, None before its end.
    pub(crate) fn result(&self, number: u64) -> Option<Results>
        ensures found { IfSome result (λ r. result_on self.now.queue.board number ≡ Ok (Some r)) }
        ensures none { IfNone result (LacksResult self.now.queue.board number) }
    {
        self.queue.result(number)
    }

    /// Whether each has its result.
    pub(crate) fn is_over(&self) -> bool
        ensures over { result ≡ true → IsOver self.now.queue.board }
        ensures not_over { result ≡ false
            → (number : ℕ) × (result_on self.now.queue.board number ≡ Ok None) }
    {
        self.queue.is_over()
    }

    /// Whether the start of a build is to be tried again.
    pub(crate) fn is_short(&self) -> bool
        ensures { result ≡ is_short self.now }
    {
        self.queue.is_short() || self.unstarted.is_some()
    }

    /// The build that has its slot, and whose thread could not be started yet.
    pub(crate) fn unstarted(&self) -> Option<u64>
        ensures { result ≡ option_map (λ b. b.number) self.now.unstarted }
    {
        match &self.unstarted {
            Some(build) => Some(build.number()),
            None => None,
        }
    }

    /// Whether a build holds its slot although it has its result.
    pub(crate) fn is_held(&self, number: u64) -> bool
        ensures { result ≡ list_any (is_of number) self.now.held.places }
    {
        self.held.has(number)
    }

    /// Whether something of them waits for ticks.
    pub(crate) fn is_timed(&self) -> bool
        ensures { result ≡ (is_short self.now || not (list_all is_vacant self.now.held.places)) }
    {
        self.is_short() || !self.held.is_empty()
    }

    /// Whether a build could not be run.
    pub(crate) fn has_failed(&self) -> bool
        ensures { result ≡ self.now.failed }
    {
        self.has_failed
    }

    /// Whether a build waits for the worker.
    pub(crate) fn is_wanted(&self, worker: usize) -> bool
        ensures { result ≡ is_wanted self.now.queue.board worker }
    {
        self.queue.is_wanted(worker)
    }

    /// Whether a build of the worker holds a slot.
    pub(crate) fn has_build(&self, worker: usize) -> bool
        ensures { result ≡ has_build self.now.queue.board worker }
    {
        self.queue.has_build(worker)
    }

    /// The first build that waits for the worker.
    pub(crate) fn first_waiting(&self, worker: usize) -> Option<u64>
        ensures { result ≡ position (waits_for worker) self.now.queue.board.jobs }
    {
        self.queue.first_waiting(worker)
    }

    /// Says whether the worker takes builds.
    pub(crate) fn set_ready(&mut self, worker: usize, is_ready: bool)
        ensures there { worker < length self.old.queue.board.workers
            → self.new ≡ record self.old {
              queue = with_board self.old.queue
                  (with_ready self.old.queue.board worker is_ready);
            } }
        ensures nowhere { length self.old.queue.board.workers ≤ worker → self.new ≡ self.old }
    {
        self.queue.set_ready(worker, is_ready);
    }

    /// The build that is to be started now: one whose thread was refused comes before all others.
    pub(crate) fn next(&mut self) -> Option<UnstartedBuild<Y>>
        ensures next { IfSome result (IsNext self.old self.new) }
        ensures again { IfNone result (self.old.unstarted ≡ None) }
        ensures none { IfNone result ((k : ℕ) → can_start self.old.queue k ≡ true
            → self.new.queue.is_short ≡ true) }
        ensures board { IfNone result (self.new.queue.board ≡ self.old.queue.board) }
        ensures unstarted { self.new.unstarted ≡ None }
        ensures held { self.new.held ≡ self.old.held }
        ensures failed { self.new.failed ≡ self.old.failed }
    {
        match self.unstarted.take() {
            Some(build) => Some(build),
            None => match self.queue.next() {
                Some(assignment) => Some(UnstartedBuild::new(assignment)),
                None => None,
            },
        }
    }

    /// A build has ended that had no thread: its number. `fails`: it was tried for too long.
    pub(crate) fn ends_unrun(&mut self, build: UnstartedBuild<Y>, fails: bool) -> u64
        ensures number { result ≡ build.number }
        ensures unstarted { self.new.unstarted ≡ self.old.unstarted }
        ensures failed { fails ≡ true → self.new.failed ≡ true }
    {
        let (Assignment { number, viewer, .. }, _) = build.into_parts();
        if fails {
            self.has_failed = true;
        }
        self.ends(number, Results::Retry, viewer);
        number
    }

    /// The thread of a build could not be started: it is tried again at the next tick. The answer
    /// is whether that is told.
    pub(crate) fn refused(&mut self, build: UnstartedBuild<Y>) -> bool
        ensures first { result ≡ not build.start.told }
        ensures again { self.new ≡ record self.old {
          unstarted = Some (record build { start = record build.start { told = true } });
        } }
    {
        let mut build = build;
        let is_told = build.refused();
        self.unstarted = Some(build);
        is_told
    }

    /// A tick has passed for the build whose thread is tried to be started.
    pub(crate) fn tick(&mut self)
        ensures queue { self.new.queue ≡ self.old.queue }
        ensures held { self.new.held ≡ self.old.held }
        ensures failed { self.new.failed ≡ self.old.failed }
    {
        if let Some(build) = &mut self.unstarted {
            build.tick();
        }
    }

    // A build has ended, with this result of its runner. It holds its slot and its locks until it
    // is released. Without memory for that it is at once.
    fn ends(&mut self, number: u64, reported: Results, viewer: Viewer<Y>)
        ensures unstarted { self.new.unstarted ≡ self.old.unstarted }
        ensures failed { self.old.failed ≡ true → self.new.failed ≡ true }
    {
        self.queue.report(number, reported);
        if let Some(build) = self.held.hold(number, viewer) {
            self.release(build);
        }
    }

    /// The thread of a build has ended.
    pub(crate) fn finish(&mut self, finished: FinishedBuild<Y>)
        ensures unstarted { self.new.unstarted ≡ self.old.unstarted }
        ensures failed { finished.result ≡ None → self.new.failed ≡ true }
    {
        let FinishedBuild {
            number,
            result,
            viewer,
        } = finished;
        if result.is_none() {
            self.has_failed = true;
        }
        self.ends(number, result.unwrap_or(Results::Retry), viewer);
    }

    // A build gives its slot, its locks and its viewer back.
    fn release(&mut self, build: HeldBuild<Y>)
        ensures board { self.new.queue.board ≡ after_release self.old.queue.board build.number }
        ensures released { Releases self.old.queue.board self.new.queue.board build.number }
        ensures unstarted { self.new.unstarted ≡ self.old.unstarted }
        ensures held { self.new.held ≡ self.old.held }
        ensures failed { self.old.failed ≡ true → self.new.failed ≡ true }
    {
        let (number, viewer) = build.into_parts();
        if !self.queue.release(number, viewer) {
            self.has_failed = true;
        }
    }

    /// A build has started this command. It holds its slot until that has ended.
    pub(crate) fn note(&mut self, build: u64, command: u64)
        ensures queue { self.new.queue ≡ self.old.queue }
        ensures noted { IsNotedIn self.old.held self.new.held
            (record { build = build; command = command }) }
        ensures unstarted { self.new.unstarted ≡ self.old.unstarted }
        ensures failed { self.new.failed ≡ self.old.failed }
    {
        self.held.note(build, command);
    }

    /// Looks which commands have ended of the builds that hold their slots. Viewers are asked each
    /// tick, since the book has an end later than the lane's actor tells of it.
    pub(crate) fn look(&mut self)
        ensures queue { self.new.queue ≡ self.old.queue }
        ensures unstarted { self.new.unstarted ≡ self.old.unstarted }
        ensures failed { self.new.failed ≡ self.old.failed }
    {
        self.held.look();
    }

    /// Whether a build holds its slot of which no command was open at the last look.
    pub(crate) fn has_free(&self) -> bool
        ensures { result ≡ list_any is_free self.now.held.places }
    {
        self.held.has_free()
    }

    /// Releases the builds of which no command was open at the last look. The answer is whether
    /// there was one.
    pub(crate) fn release_free(&mut self) -> bool {
        let mut is_any = false;
        for _ in 0..self.queue.builds() {
            let Some(build) = self.held.take_free() else {
                return is_any;
            };
            self.release(build);
            is_any = true;
        }
        is_any
    }

    /// Releases the builds that are held, whatever becomes of their commands.
    pub(crate) fn release_all(&mut self) {
        for _ in 0..self.queue.builds() {
            let Some(build) = self.held.take_any() else {
                return;
            };
            self.release(build);
        }
    }

    /// Cancels a build. One whose thread isn't started yet ends at the next look.
    pub(crate) fn cancel(&mut self, number: u64) -> Cancelled
        ensures answer { result ≡ met_by (answer_of (on_build cancel self.old.queue.board number)) }
        ensures builds { self.new ≡ record self.old {
          queue = with_board self.old.queue (after_cancel self.old.queue.board number);
          unstarted = option_map (noted number) self.old.unstarted;
        } }
    {
        if let Some(build) = &mut self.unstarted {
            if build.number() == number {
                build.cancel();
            }
        }
        self.queue.cancel(number)
    }

    /// The first build that waits for the worker is given up: its number.
    pub(crate) fn give_up_one(&mut self, worker: usize) -> Option<u64>
        ensures first { result ≡ position (waits_for worker) self.old.queue.board.jobs }
        ensures given_up { IfSome result (λ n. self.new ≡ record self.old {
          queue = with_board self.old.queue (after_giving_up self.old.queue.board n);
        }) }
        ensures unchanged { IfNone result (self.new ≡ self.old) }
    {
        self.queue.give_up_one(worker)
    }

    /// How each build ended, by its number. None where one has not, or memory is wanting.
    pub(crate) fn results(&self, alloc: Global) -> Option<Vec<Results>>
        ensures { IfSome result (λ all. AreResults self.now.queue.board all.items) }
    {
        self.queue.results(alloc)
    }

    /// The viewers of the builds, by their lanes.
    pub(crate) fn into_pools(self) -> Vec<ViewerPool<Y>>
        ensures { result.items ≡ self.queue.pools }
    {
        self.queue.into_pools()
    }
}
