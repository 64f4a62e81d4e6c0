//! Callers of the queue of builds.

ghost use Rattle.std.specs.Prelude.{◌≡◌, ◌≢◌, ℕ, Some, slice_get};
ghost use Rattle.bm_board.specs.Board.{worker_of};

use bm_build_queue::BuildQueue;
use bm_lane::Yard;

/// Where a build that waits for a worker is given up, those of the others stay as they are.
pub fn builds_of_other_workers_stay<Y: Yard>(
    queue: &mut BuildQueue<Y>,
    worker: usize,
) -> Option<u64>
    ensures { (number : ℕ) → worker_of queue.old.board number ≢ Some worker
        → slice_get queue.new.board.jobs number ≡ slice_get queue.old.board.jobs number }
{
    queue.give_up_one(worker)
}
