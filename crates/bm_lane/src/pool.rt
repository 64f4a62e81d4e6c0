//! Threads that drain lanes.
ghost use Rattle.std.specs.Prelude.{◌≡◌, ◌<◌, ◌≤◌, ◌+◌, ◌-◌, ◌*◌, ◌^◌, [], All, IfOk, IfSome, vec_len};
ghost use Rattle.std.specs.Prelude.{vec_capacity};
ghost use Rattle.bm_lane.specs.Tallies.{counted, drains};

use crate::writer_end::{Drained, WriterEnd};
use crate::yard::Yard;
use std::alloc::{AllocError, Global};
use std::sync::atomic::{AtomicBool, Ordering};
use std::sync::{Mutex, Wait};
use std::thread;
use std::thread::{Promise, PromisedHandle, Scope, Threads};
use thiserror::Error;

/// What a worker may do at its turn.
#[derive(Clone, Copy, PartialEq, Eq)]
pub enum Pass {
    /// Drain the lane.
    Go,
    /// Leave the lane to the next turn at it.
    Skip,
    /// Return: the pool is about to end.
    Stop,
}

/// Who may drain which lane, and when. Workers call it while they hold no lock.
pub trait Gate {
    /// Asked before each drain, and before the lane's lock is taken.
    fn pass(&self, worker: usize, lane: usize) -> Pass;

    /// Told what each drain answered.
    fn done(&self, worker: usize, lane: usize, answer: Result<Drained, AllocError>);
}

/// How many drains of all workers took an item, and how many met want of memory.
#[derive(Clone, Copy, PartialEq, Eq)]
pub struct PoolReport {
    pub took: u128,
    pub refused: u128,
}

/// Why a pool didn't run to its end.
#[derive(Clone, Copy, Debug, PartialEq, Eq, Error)]
pub enum PoolFault {
    /// A thread could not be started, maybe since memory was wanting for it. The others ended at
    /// their next turn, and what they drained stays drained.
    #[error("no thread")]
    Spawn,
    /// Memory is wanting for the pool's own list. No thread was started.
    #[error("out of memory")]
    Mem,
}

/// What the drains of one worker came to.
#[derive(Clone, Copy)]
pub struct Tally {
    pub took: u64,
    pub refused: u64,
}

/// A worker's promise that it counts no more drains than it has turns.
#[derive(Clone, Copy)]
pub struct Within {
    pub turns: u64,
}

impl Promise<Tally> for Within {
    ghost use Rattle.std.specs.Prelude.{◌≤◌};
    ghost use Rattle.bm_lane.specs.Tallies.{drains};

    ghost kept_by = { λ p t. drains t ≤ p.turns };
}

impl Tally {
    // With one answer more.
    fn with(self, answer: &Result<Drained, AllocError>) -> Tally
        requires { drains self < 2 ^ 64 - 1 }
        ensures { result ≡ counted self answer.now }
    {
        let Tally { took, refused } = self;
        match answer {
            Ok(Drained::Took) => Tally {
                took: took + 1,
                refused,
            },
            Ok(Drained::Empty) => self,
            Err(_) => Tally {
                took,
                refused: refused + 1,
            },
        }
    }
}

// A worker's turn at a lane: what its drains came to then, or None where it ends.
fn turn<Y: Yard, W: Wait + Drop, G: Gate, R: Wait>(
    rt: &R,
    end: &Mutex<WriterEnd<Y, W>>,
    gate: &G,
    worker: usize,
    lane: usize,
    tally: Tally,
) -> Option<Tally>
    requires { drains tally < 2 ^ 64 - 1 }
    ensures { IfSome result (λ t. drains t ≤ drains tally + 1) }
{
    match gate.pass(worker, lane) {
        Pass::Stop => None,
        Pass::Skip => Some(tally),
        Pass::Go => {
            let answer = end.lock(rt).drain();
            let tally = tally.with(&answer);
            gate.done(worker, lane, answer);
            Some(tally)
        }
    }
}

// The lane after this one, going round.
fn lane_after(lane: usize, lanes: usize) -> usize
    requires { lane < lanes }
    ensures inside { result < lanes }
    ensures next { lane + 1 < lanes → result ≡ lane + 1 }
    ensures round { lane + 1 ≡ lanes → result ≡ 0 }
{
    if lane + 1 < lanes { lane + 1 } else { 0 }
}

// Goes round the lanes, from lane `worker` on.
fn work<Y: Yard, W: Wait + Drop, G: Gate, R: Wait>(
    rt: &R,
    lanes: &[Mutex<WriterEnd<Y, W>>],
    gate: &G,
    ended: &AtomicBool,
    worker: usize,
    turns: u64,
) -> Tally
    ensures { drains result ≤ turns }
{
    let mut tally = Tally {
        took: 0,
        refused: 0,
    };
    if lanes.is_empty() {
        return tally;
    }
    let mut lane = worker % lanes.len();
    for _ in 0..turns {
        if ended.load(Ordering::SeqCst) {
            return tally;
        }
        let Some(more) = turn(rt, &lanes[lane], gate, worker, lane, tally) else {
            return tally;
        };
        tally = more;
        lane = lane_after(lane, lanes.len());
    }
    tally
}

// Waits for all workers, and adds up what their drains came to.
fn report<R: Threads>(rt: &R, workers: Vec<PromisedHandle<Tally, Within>>, turns: u64) -> PoolReport
    requires { All (λ w. w.promise.turns ≡ turns) workers.items }
    ensures { result.took + result.refused ≤ vec_len workers * turns }
{
    let mut report = PoolReport {
        took: 0,
        refused: 0,
    };
    let mut workers = workers;
    while let Some(worker) = workers.pop() {
        let tally = worker.join(rt);
        report.took += tally.took as u128;
        report.refused += tally.refused as u128;
    }
    report
}

// Starts so many workers, and tells whether all were started. `workers` has room for them.
fn spawn_all<'s, E, Y, W, G, R>(
    scope: &Scope<'s, E>,
    rt: &'s R,
    lanes: &'s [Mutex<WriterEnd<Y, W>>],
    gate: &'s G,
    ended: &'s AtomicBool,
    turns: u64,
    threads: usize,
    workers: &mut Vec<PromisedHandle<Tally, Within>>,
) -> bool
where
    Y: Yard + Send + Sync + 's,
    W: Wait + Drop + Send + 's,
    G: Gate + Sync + 's,
    R: Threads + Wait + Sync + 's,
    requires room { (workers.old.items ≡ []) × (threads ≤ vec_capacity workers.old) }
    ensures count { vec_len workers.new ≤ threads }
    ensures turns { All (λ w. w.promise.turns ≡ turns) workers.new.items }
{
    for worker in 0..threads {
        let promise = Within { turns };
        match scope.spawn_with(promise, move || work(rt, lanes, gate, ended, worker, turns)) {
            Ok(handle) => workers.push_reserved(handle),
            Err(_) => return false,
        }
    }
    true
}

/// So many threads drain these lanes. Worker w begins at lane w, modulo the number of lanes, and
/// goes round. It ends where its gate says so, or after so many turns. Each drain that took an item
/// or met want of memory is counted once. There may be no thread and no lane: a condition that
/// nothing needs would be proved by each caller.
///
/// After `Spawn` the workers that were started have ended, and what they drained stays drained;
/// after `Mem` nothing was.
pub fn writers<
    Y: Yard + Send + Sync,
    W: Wait + Drop + Send,
    G: Gate + Sync,
    R: Threads + Wait + Sync,
>(
    rt: &R,
    alloc: Global,
    lanes: &[Mutex<WriterEnd<Y, W>>],
    gate: &G,
    threads: usize,
    turns: u64,
) -> Result<PoolReport, PoolFault>
    ensures { IfOk result (λ r. r.took + r.refused ≤ threads * turns) }
{
    let ended = AtomicBool::new(false);
    let flag = &ended;
    thread::scope(
        thread::scope_env(),
        rt,
        |scope| -> Result<PoolReport, PoolFault>
            ensures { IfOk result (λ r. r.took + r.refused ≤ threads * turns) }
        {
            let Ok(mut workers) = Vec::with_capacity(alloc, threads) else {
                return Err(PoolFault::Mem);
            };
            let all_started = spawn_all(scope, rt, lanes, gate, flag, turns, threads, &mut workers);
            if !all_started {
                flag.store(true, Ordering::SeqCst);
            }
            let report = report(rt, workers, turns);
            if all_started {
                Ok(report)
            } else {
                Err(PoolFault::Spawn)
            }
        },
    )
}
