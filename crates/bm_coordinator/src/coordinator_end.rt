//! What the coordinator does and hears once all builds are over.

ghost use Rattle.bm_coordinator.specs.Coordination.{NoneRuns};

use crate::coordinator::Coordinator;
use crate::host::MasterHost;
use crate::shared::CoordinatorShared;
use crate::tick_wait::TickWait;
use bm_lane::Yard;
use bm_lane_actor::LaneRequest;
use bm_latent::TICK_MS;
use bm_master::MasterInput;
use crossbeam_channel::bounded;
use std::io::Write;
use std::sync::Wait;
use std::thread::Scope;
use std::time::{Clock, Duration};

/// How many milliseconds the lanes have to tell logins that wait that the master ends.
const PUT_OFF_MS: u64 = 1_000;

/// How many ticks the processes of workers have to end, once the master ends.
const LAST_TICKS: u64 = 1_001;

/// For how many ticks workers that were told to shut down may still go, once their programs have
/// ended.
const GONE_TICKS: u64 = 20;

/// How many events that lie ready are heard then. More are those of strangers that go on coming.
const MOST_LAST_EVENTS: usize = 10_000;

impl<Y: Yard, O: Write + Drop> Coordinator<Y, O> {
    /// Has each login that still waits told `busy`, and the processes of workers ended. Tells the
    /// operator of logins that were refused, and of workers that have gone.
    pub(crate) fn end<'s, E, R>(
        &mut self,
        scope: &Scope<'s, E>,
        shared: &'s CoordinatorShared<Y, R>,
    )
    where
        Y: Send + Sync + 's,
        R: MasterHost + 's,
    {
        put_off_logins(shared);
        self.hear_ready(shared);
        self.end_programs(scope, shared);
        self.hear_gone(shared);
        self.teller.tell_all_left_out(&shared.rt);
    }

    // Has the processes of workers ended, and ends those that don't in time.
    fn end_programs<'s, E, R>(&mut self, scope: &Scope<'s, E>, shared: &'s CoordinatorShared<Y, R>)
    where
        Y: Send + Sync + 's,
        R: MasterHost + 's,
        ensures { NoneRuns self.new.programs }
    {
        self.master.step(MasterInput::Over);
        self.serve(scope, shared);
        let mut wait = TickWait::new(LAST_TICKS);
        self.ended_ticks(&shared.rt);
        for _ in shared.rt.forever() {
            if wait.is_over(self.master.has_program()) {
                break;
            }
            self.hear_within_a_tick(shared);
            let ticks = self.ended_ticks(&shared.rt);
            for _ in 0..ticks {
                wait.tick();
            }
            self.master.step(MasterInput::Woke { ticks });
            self.serve(scope, shared);
        }
        self.programs.kill();
    }

    // How many ticks have ended since the last call.
    fn ended_ticks<R: Wait + Clock>(&mut self, rt: &R) -> u64 {
        let now_ms = self.teller.now_ms(rt);
        self.ticks.told(now_ms)
    }

    // Hears what lies ready.
    fn hear_ready<R: MasterHost>(&mut self, shared: &CoordinatorShared<Y, R>) {
        for _ in 0..MOST_LAST_EVENTS {
            match self.events.look(&shared.rt) {
                Some(event) => self.hear_last(shared, event),
                None => return,
            }
        }
    }

    // Hears for a moment of workers that were told to shut down and haven't gone.
    fn hear_gone<R: MasterHost>(&mut self, shared: &CoordinatorShared<Y, R>) {
        self.hear_ready(shared);
        let mut wait = TickWait::new(GONE_TICKS);
        self.ended_ticks(&shared.rt);
        for _ in shared.rt.forever() {
            if wait.is_over(self.master.awaits_workers()) {
                break;
            }
            self.hear_within_a_tick(shared);
            for _ in 0..self.ended_ticks(&shared.rt) {
                wait.tick();
            }
        }
    }

    // Hears the next event, if it comes within a tick.
    fn hear_within_a_tick<R: MasterHost>(&mut self, shared: &CoordinatorShared<Y, R>) {
        let tick = Duration::from_millis(TICK_MS);
        if let Some(event) = self.events.wait_for(&shared.rt, tick) {
            self.hear_last(shared, event);
        }
    }
}

// Asks each lane to put its logins off, and waits until those that could be asked have done so.
fn put_off_logins<Y: Yard, R: MasterHost>(shared: &CoordinatorShared<Y, R>) {
    let rt = &shared.rt;
    let Ok((done, answers)) = bounded(shared.alloc, shared.lanes.len()) else {
        return;
    };
    let mut asked = 0usize;
    for lane in shared.lanes.iter() {
        if let Ok(done) = done.clone() {
            if lane.tell(rt, LaneRequest::PutOff(done)) {
                asked = asked.saturating_add(1);
            }
        }
    }
    let most = Duration::from_millis(PUT_OFF_MS);
    for _ in 0..asked {
        if answers.recv_timeout(rt, most).is_err() {
            return;
        }
    }
}
