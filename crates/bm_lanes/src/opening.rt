//! The opening of all lanes.

ghost use Rattle.std.specs.Prelude.{◌≡◌, ◌+◌, ◌<◌, ◌≤◌, IfSome, map};
ghost use Rattle.bm_lanes.specs.ConfigLists.{capacities, viewer_counts};

use crate::config_lists::MOST_SLOTS;
use bm_config::WorkerConfig;
use bm_lane::{Blank, open};
use std::alloc::Global;
use std::sync::Wait;

const MOST_ITEMS: u32 = 65_536;

/// A blank for the lane of a worker with so many slots.
fn open_for<W: Wait + Drop>(rt: W, alloc: Global, capacity: usize, slots: u8) -> Option<Blank<W>>
    requires { (0 < capacity) × (capacity ≤ 65536) }
    ensures { IfSome result
        (λ blank. (blank.capacity ≡ capacity) × (blank.viewers ≡ slots + 1)) }
{
    if slots > MOST_SLOTS {
        return None;
    }
    open(rt, alloc, capacity, slots as usize + 1).ok()
}

/// A blank for each worker. Its queue takes so many items, and it has a viewer for each of the
/// worker's slots and one for the web. None where memory is wanting, or a number is out of its
/// limits.
pub fn open_all<W: Wait + Copy + Drop>(
    rt: W,
    alloc: Global,
    capacity: u32,
    workers: &[WorkerConfig],
) -> Option<Vec<Blank<W>>>
    ensures capacity { IfSome result
        (λ blanks. map (λ b. b.capacity) blanks.items ≡ capacities capacity workers.now) }
    ensures viewers { IfSome result
        (λ blanks. map (λ b. b.viewers) blanks.items ≡ viewer_counts workers.now) }
{
    if capacity == 0 || capacity > MOST_ITEMS {
        return None;
    }
    let mut blanks = Vec::new(alloc);
    for worker in workers {
        let blank = open_for(rt, alloc, capacity as usize, worker.slots)?;
        if blanks.push(blank).is_err() {
            return None;
        }
    }
    Some(blanks)
}
