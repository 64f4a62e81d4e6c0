//! What a configuration's workers and locks say, as lists.

ghost use Rattle.std.specs.Prelude.{◌≡◌, ◌≤◌, All, IfOk, IfSome};
ghost use Rattle.bm_lanes.specs.ConfigLists.{maxima, slots, users};

use bm_config::{LockConfig, WorkerConfig};
use bm_link::User;
use std::alloc::{AllocError, Global};

pub(crate) const MOST_SLOTS: u8 = 4;

/// How many slots each worker has. None where memory is wanting, or a number is out of its limits.
pub fn slots_of(alloc: Global, workers: &[WorkerConfig]) -> Option<Vec<u8>>
    ensures limits { IfSome result (λ slots. All (λ n. (1 ≤ n) × (n ≤ 4)) slots.items) }
    ensures all { IfSome result (λ found. found.items ≡ slots workers.now) }
{
    let mut slots = Vec::new(alloc);
    for worker in workers {
        if worker.slots == 0 || worker.slots > MOST_SLOTS || slots.push(worker.slots).is_err() {
            return None;
        }
    }
    Some(slots)
}

/// How many builds may hold each lock. None where memory is wanting, or a number is out of its
/// limits.
pub fn maxima_of(alloc: Global, locks: &[LockConfig]) -> Option<Vec<u32>>
    ensures limits { IfSome result (λ maxima. All (λ n. 1 ≤ n) maxima.items) }
    ensures all { IfSome result (λ found. found.items ≡ maxima locks.now) }
{
    let mut maxima = Vec::new(alloc);
    for lock in locks {
        if lock.max == 0 || maxima.push(lock.max).is_err() {
            return None;
        }
    }
    Some(maxima)
}

/// Who may log in: a user for each worker, in their order.
pub fn users_of(alloc: Global, workers: &[WorkerConfig]) -> Result<Vec<User>, AllocError>
    ensures { IfOk result (λ found. found.items ≡ users workers.now) }
{
    let mut users = Vec::new(alloc);
    for worker in workers {
        users.push(User {
            name: worker.name.copy()?,
            password: worker.password.copy()?,
        })?;
    }
    Ok(users)
}
