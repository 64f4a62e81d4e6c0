//! A gate under which a pool of writers sleeps while no lane has anything.
//!
//! A lane's actor calls `wake` after each event. Each worker of the pool remembers how many such
//! calls there had been when its round of the lanes began. It sleeps after a whole round without an
//! item, as long as there was no call since.
//!
//! Builds wait here too. Each waits until the actor has heard what may end its command, and then
//! until the pool has drained an item. So a build that is woken sees what woke it.

ghost use Rattle.std.specs.Prelude.{◌≡◌, ◌≤◌, ◌%◌, ◌^◌, IfOk, vec_len};
ghost use Rattle.bm_lane_actor.specs.Gates.{is_whole_round, may_have_more, pass_of};

use bm_lane::{Drained, Gate, Pass};
use bm_latent::TICK_MS;
use std::alloc::{AllocError, Global};
use std::sync::Wait;
use std::sync::atomic::{AtomicBool, AtomicU64, Ordering};
use std::thread;
use std::time::{Clock, Duration};

/// How long a worker of the pool sleeps at most, in milliseconds.
const REST_MS: u64 = 500;

/// What the actor of a lane, its builds and the workers tell each other.
#[derive(Drop)]
struct LaneFlags {
    /// 1 where the queue may have an item that no worker goes for.
    full: AtomicU64,
    /// A count that grows with each item taken from it, and with each call of all its builds.
    took: AtomicU64,
    /// How often the lane's builds were called to look.
    calls: AtomicU64,
    /// How many wait until more were taken.
    waits: AtomicU64,
}

/// What a worker knows of its round.
#[derive(Drop)]
struct WorkerRound {
    /// How many calls of `wake` there had been when the round began.
    wakes: AtomicU64,
    /// How many lanes of the round had nothing.
    idle: AtomicU64,
}

/// Wakes workers, the actors that met Busy, and the builds that wait for their command's end. A
/// worker sleeps for half a second at most, and rests for a tick after want of memory.
#[derive(Drop)]
pub struct DrainGate<R: Wait + Clock + Drop> {
    rt: R,
    lanes: Vec<LaneFlags>,
    rounds: Vec<WorkerRound>,
    /// How many calls of `wake` and `stop` there were.
    wakes: AtomicU64,
    asleep: AtomicU64,
    stopped: AtomicBool,
}

/// What a sleep compares of a count.
fn low(count: u64) -> u32
    ensures { result ≡ count % 2 ^ 32 }
{
    (count & 0xffff_ffff) as u32
}

/// What a worker does at its turn at a lane.
fn pass_of(is_stopped: bool, is_claimed: bool) -> Pass
    ensures { result ≡ pass_of is_stopped is_claimed }
{
    match (is_stopped, is_claimed) {
        (true, _) => Pass::Stop,
        (false, true) => Pass::Go,
        (false, false) => Pass::Skip,
    }
}

/// Whether as many lanes in a row had nothing as there are.
fn is_whole_round(idle: u64, lanes: u64) -> bool
    ensures { result ≡ is_whole_round idle lanes }
{
    lanes <= idle
}

/// Whether a lane may have an item after a drain that came to this. One that met want of memory
/// took nothing.
fn may_have_more(answer: &Result<Drained, AllocError>) -> bool
    ensures { result ≡ may_have_more answer.now }
{
    match answer {
        Ok(Drained::Empty) => false,
        Ok(Drained::Took) | Err(_) => true,
    }
}

/// The flags of so many lanes, of which none has anything.
fn lane_flags(alloc: Global, count: usize) -> Result<Vec<LaneFlags>, AllocError>
    ensures { IfOk result (λ lanes. vec_len lanes ≡ count) }
{
    let mut lanes = Vec::new(alloc);
    while lanes.len() < count {
        lanes.push(LaneFlags {
            full: AtomicU64::new(0),
            took: AtomicU64::new(0),
            calls: AtomicU64::new(0),
            waits: AtomicU64::new(0),
        })?;
    }
    Ok(lanes)
}

/// The rounds of so many workers, which have yet to begin.
fn worker_rounds(alloc: Global, count: usize) -> Result<Vec<WorkerRound>, AllocError>
    ensures { IfOk result (λ rounds. vec_len rounds ≡ count) }
{
    let mut rounds = Vec::new(alloc);
    while rounds.len() < count {
        rounds.push(WorkerRound {
            wakes: AtomicU64::new(0),
            idle: AtomicU64::new(0),
        })?;
    }
    Ok(rounds)
}

impl<R: Wait + Clock + Drop> DrainGate<R> {
    /// A gate for so many lanes and so many workers of the pool.
    pub fn new(
        rt: R,
        alloc: Global,
        lane_count: usize,
        workers: usize,
    ) -> Result<DrainGate<R>, AllocError>
        ensures lanes { IfOk result (λ gate. vec_len gate.lanes ≡ lane_count) }
        ensures workers { IfOk result (λ gate. vec_len gate.rounds ≡ workers) }
    {
        let lanes = lane_flags(alloc, lane_count)?;
        let rounds = worker_rounds(alloc, workers)?;
        Ok(DrainGate {
            rt,
            lanes,
            rounds,
            wakes: AtomicU64::new(0),
            asleep: AtomicU64::new(0),
            stopped: AtomicBool::new(false),
        })
    }

    /// Tells that the lane may have an item.
    pub fn wake(&self, lane: usize) {
        if let Some(flags) = self.lanes.get(lane) {
            flags.full.store(1, Ordering::SeqCst);
        }
        self.wakes.fetch_add(1, Ordering::SeqCst);
        if self.asleep.load(Ordering::SeqCst) > 0 {
            self.wakes.wake_one();
        }
    }

    /// Tells that the lane may have an item by which a command ends: its builds are called.
    pub(crate) fn ring(&self, lane: usize) {
        if let Some(flags) = self.lanes.get(lane) {
            flags.calls.fetch_add(1, Ordering::SeqCst);
            flags.calls.wake_all();
        }
        self.wake(lane);
    }

    /// Calls the lane's builds whatever they wait for: one of them was cancelled, or the lane is
    /// connected in another way.
    pub fn call_builds(&self, lane: usize) {
        if let Some(flags) = self.lanes.get(lane) {
            flags.calls.fetch_add(1, Ordering::SeqCst);
            flags.calls.wake_all();
            flags.took.fetch_add(1, Ordering::SeqCst);
            flags.took.wake_all();
        }
    }

    /// How often the lane's builds were called.
    pub(crate) fn calls(&self, lane: usize) -> u64
        ensures { vec_len self.now.lanes ≤ lane → result ≡ 0 }
    {
        match self.lanes.get(lane) {
            Some(flags) => flags.calls.load(Ordering::SeqCst),
            None => 0,
        }
    }

    /// Waits until they were called more often than so; `most` at most.
    pub(crate) fn wait_for_call(&self, lane: usize, calls: u64, most: Duration) {
        if let Some(flags) = self.lanes.get(lane) {
            flags.calls.park_timeout(&self.rt, low(calls), most);
        }
    }

    /// Ends the workers at their next turn.
    pub fn stop(&self) {
        self.stopped.store(true, Ordering::SeqCst);
        self.wakes.fetch_add(1, Ordering::SeqCst);
        self.wakes.wake_all();
    }

    /// A count that grows with each item that is taken from the lane's queue, once it is shown.
    pub(crate) fn took(&self, lane: usize) -> u64
        ensures { vec_len self.now.lanes ≤ lane → result ≡ 0 }
    {
        match self.lanes.get(lane) {
            Some(flags) => flags.took.load(Ordering::SeqCst),
            None => 0,
        }
    }

    /// Waits until that count is another one; `most` at most.
    pub(crate) fn wait_for_drain(&self, lane: usize, took: u64, most: Duration) {
        if let Some(flags) = self.lanes.get(lane) {
            flags.waits.fetch_add(1, Ordering::SeqCst);
            flags.took.park_timeout(&self.rt, low(took), most);
            flags.waits.fetch_sub(1, Ordering::SeqCst);
        }
    }

    /// A lane had nothing: after a whole round of such lanes the worker sleeps, unless `wake` was
    /// called since it began. It wakes by itself in time, so that a pool that is ended from within
    /// ends.
    fn rest(&self, round: &WorkerRound) {
        let idle = round.idle.load(Ordering::SeqCst).saturating_add(1);
        if !is_whole_round(idle, self.lanes.len() as u64) {
            round.idle.store(idle, Ordering::SeqCst);
            return;
        }
        self.asleep.fetch_add(1, Ordering::SeqCst);
        let wakes = low(round.wakes.load(Ordering::SeqCst));
        self.wakes
            .park_timeout(&self.rt, wakes, Duration::from_millis(REST_MS));
        self.asleep.fetch_sub(1, Ordering::SeqCst);
        self.begin(round);
    }

    fn begin(&self, round: &WorkerRound) {
        round
            .wakes
            .store(self.wakes.load(Ordering::SeqCst), Ordering::SeqCst);
        round.idle.store(0, Ordering::SeqCst);
    }
}

impl<R: Wait + Clock + Drop> Gate for DrainGate<R> {
    fn pass(&self, worker: usize, lane: usize) -> Pass
        ensures lane { vec_len self.now.lanes ≤ lane → result ≡ Pass.Stop }
        ensures worker { vec_len self.now.rounds ≤ worker → result ≡ Pass.Stop }
    {
        let (Some(flags), Some(round)) = (self.lanes.get(lane), self.rounds.get(worker)) else {
            return Pass::Stop;
        };
        let is_stopped = self.stopped.load(Ordering::SeqCst);
        // The one worker that takes the flag back goes for the lane.
        let full = &flags.full;
        let is_claimed = full.load(Ordering::SeqCst) == 1 && full.swap(0, Ordering::SeqCst) == 1;
        let pass = pass_of(is_stopped, is_claimed);
        match pass {
            Pass::Go => self.begin(round),
            Pass::Skip => self.rest(round),
            Pass::Stop => {}
        }
        pass
    }

    fn done(&self, _worker: usize, lane: usize, answer: Result<Drained, AllocError>) {
        let Some(flags) = self.lanes.get(lane) else {
            return;
        };
        if answer.is_err() {
            thread::sleep(&self.rt, Duration::from_millis(TICK_MS));
        }
        if may_have_more(&answer) {
            flags.full.store(1, Ordering::SeqCst);
        }
        if let Ok(Drained::Took) = answer {
            flags.took.fetch_add(1, Ordering::SeqCst);
            if flags.waits.load(Ordering::SeqCst) > 0 {
                flags.took.wake_all();
            }
        }
    }
}
