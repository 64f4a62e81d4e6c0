//! What an operator is told first: what the master has, and the keys that nobody reads.

ghost use Rattle.std.specs.Prelude.{◌≡◌, ◌+◌, ◌-◌, ◌^◌, length, min};
ghost use Rattle.bm_operator.specs.Remark.{counted, told};
ghost use Rattle.bm_remarks.specs.Tellings.{steps_in};

use crate::remarks::Remarks;
use crate::tellings::key_remark;
use bm_board::Build;
use bm_config::{Config, UnknownKey};
use bm_operator::Remark;
use std::alloc::Global;
use std::sync::Wait;
use std::time::Clock;

/// Tells how many workers, builds and steps there are, and then of each key that nobody reads. A
/// key for whose place memory is wanting is passed over. All of it comes behind the line that says
/// where the master listens: one that can't write that runs nothing, and says no more.
pub fn tell_first<R: Wait + Clock>(
    rt: &R,
    alloc: Global,
    remarks: &Remarks,
    config: &Config,
    unknown: &[UnknownKey],
) {
    remarks.tell(rt, &counted_remark(config));
    for key in unknown {
        if let Ok(place) = key.place.text(alloc) {
            remarks.tell(rt, &key_remark(place.as_str(), key));
        }
    }
}

// What is told of how many workers, builds and steps there are.
fn counted_remark(config: &Config) -> Remark<'static>
    ensures { told result ≡ counted
        (length config.now.workers) (length config.now.builds) (steps_in config.now.builds) }
{
    let builds = config.builds.as_slice();
    Remark::Counted {
        workers: config.workers.as_slice().len() as u64,
        builds: builds.len() as u64,
        steps: steps_in(builds),
    }
}

// How many steps these builds have, up to 2^64-1.
fn steps_in(builds: &[Build]) -> u64
    ensures { result ≡ steps_in builds.now }
{
    builds.iter().fold(
        0,
        |sum, build| add_steps(sum, build.steps.as_slice().len() as u64),
    )
}

fn add_steps(sum: u64, steps: u64) -> u64
    ensures { result ≡ min (sum + steps) (2 ^ 64 - 1) }
{
    sum.saturating_add(steps)
}
