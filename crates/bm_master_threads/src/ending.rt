//! The end of a master: its lanes are settled, and its exit status is decided.
ghost use Rattle.std.specs.Prelude.{◌≡◌, Bool, [], ◌||◌, IfSome, IsSomeAnd, length, not, Option, true, Vec};
ghost use Rattle.std.specs.Arc.{arc_value};
ghost use Rattle.std.specs.Option.{option_map_or};
ghost use Rattle.std.specs.declared.alloc.Global.{Global};
ghost use Rattle.bm_build_queue.specs.BuildQueue.{AreResults};
ghost use Rattle.bm_operator.specs.Exit.{exit_status};
ghost use Rattle.bm_session.specs.declared.results.Results.{Results};

use crate::threads::MasterLeft;
use bm_build_queue::ViewerPool;
use bm_config::WorkerConfig;
use bm_coordinator::write_line;
use bm_lane::{ReaderEnd, WriterEnd, Yard};
use bm_lane_threads::LaneThreadsShared;
use bm_lanes::{AllEnds, LaneTotals, SettleError, settle_all};
use bm_operator::{OutputLine, status};
use bm_session::Results;
use bm_web_server::LogService;
use std::alloc::Global;
use std::io::Write;
use std::sync::{Arc, Mutex, Wait};
use std::time::Clock;

// The exit status of a master whose builds ended so, where each result is known. It has failed
// where a build or a report could not be had. It also has where its threads did not do their work
// to the end, or its lanes could not be settled.
fn status_of(
    results: Option<Vec<Results>>,
    has_failed: bool,
    is_whole: bool,
    is_settled: bool,
) -> u8
    ensures { result ≡ option_map_or
        (λ all. exit_status all.items (has_failed || not is_whole || not is_settled)) results 1 }
{
    let failed = has_failed || !is_whole || !is_settled;
    match &results {
        Some(all) => status(all.as_slice(), failed),
        None => status(&[], true),
    }
}

/// Settles the lanes once all threads have ended, and `logs` are served no more. The answer is the
/// exit status: 0 only where all that was to be done was done, and each build ended well.
pub fn end<Y, R, O>(
    shared: LaneThreadsShared<Y, R>,
    left: MasterLeft<Y, O>,
    logs: Arc<LogService<Y>>,
) -> u8
where
    Y: Yard,
    R: Wait + Clock + Drop,
    O: Write + Drop,
    ensures { (all : Option (Vec Results Global)) × (settled : Bool)
        × IfSome all (λ all. AreResults left.coordinator.master.builds.queue.board all.items)
        × (result ≡ option_map_or
        (λ all. exit_status all.items
        ((left.coordinator.failed || left.coordinator.master.builds.failed)
        || not left.is_whole || not settled)) all 1) }
{
    let MasterLeft {
        readers,
        coordinator,
        is_whole,
    } = left;
    let LaneThreadsShared { base, writers, .. } = shared;
    let alloc = base.alloc;
    let results = coordinator.results(alloc);
    let has_failed = coordinator.has_failed();
    let (pools, output) = coordinator.into_ends();
    let ends = all_ends(readers, writers, pools, logs);
    let workers = base.config.workers.as_slice();
    let is_settled = close(&base.rt, alloc, workers, ends, output);
    status_of(results, has_failed, is_whole, is_settled)
}

// All ends of the lanes. None where the logs are still served, which never comes.
fn all_ends<Y: Yard, R: Wait + Drop>(
    readers: Vec<ReaderEnd<Y>>,
    writers: Vec<Mutex<WriterEnd<Y, R>>>,
    pools: Vec<ViewerPool<Y>>,
    logs: Arc<LogService<Y>>,
) -> Option<AllEnds<Y, R>>
    ensures readers { IfSome result (λ ends. ends.readers ≡ readers) }
    ensures writers { IfSome result (λ ends. ends.writers ≡ writers) }
    ensures pools { IfSome result (λ ends. ends.pools ≡ pools) }
    ensures viewers { IfSome result
        (λ ends. length ends.web_viewers.items ≡ (arc_value logs).lanes) }
{
    match LogService::into_viewers(logs) {
        Some(web_viewers) => Some(AllEnds {
            readers,
            writers,
            pools,
            web_viewers,
        }),
        None => None,
    }
}

// Settles the lanes, and writes what each had. The answer is whether all could be settled and
// written.
#[tactic(auto, using(crate::proofs::Settling::as_many))]
fn close<Y: Yard, R: Wait + Drop, O: Write + Drop>(
    rt: &R,
    alloc: Global,
    workers: &[WorkerConfig],
    ends: Option<AllEnds<Y, R>>,
    output: O,
) -> bool
    ensures { result ≡ true
        → IsSomeAnd ends (λ ends. length ends.readers.items ≡ length workers.now) }
{
    let mut output = output;
    let Some(ends) = ends else {
        return false;
    };
    let Ok(totals) = settle_all(rt, alloc, ends) else {
        return false;
    };
    let is_each_told = write_totals(alloc, workers, totals.as_slice(), &mut output);
    if totals.len() == workers.len() {
        is_each_told
    } else {
        false
    }
}

// Writes what each lane had. The answer is whether all could be settled and written.
fn write_totals<O: Write>(
    alloc: Global,
    workers: &[WorkerConfig],
    totals: &[Result<LaneTotals, SettleError>],
    output: &mut O,
) -> bool {
    let mut is_good = true;
    for (worker, total) in workers.iter().zip(totals) {
        match total {
            Ok(total) => {
                let lane = OutputLine::Lane {
                    name: worker.name.as_str(),
                    commands: total.commands,
                    lines: total.lines,
                };
                is_good = write_line(alloc, lane, output) && is_good;
            }
            Err(_) => is_good = false,
        }
    }
    is_good
}
