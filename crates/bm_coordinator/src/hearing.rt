//! What the coordinator hears: an event is handed in to the machine, or told.

ghost use Rattle.bm_lane_actor.specs.LaneEvents.{event_of};
ghost use Rattle.bm_master.specs.Masters.{IsCancelled};
ghost use Rattle.bm_coordinator.specs.Coordination.{HearsKept, HearsLast, HearsLastOf, HearsOf, HearsTaken, LaneIsHeard, OnlyMaster, StepIsHeard, WorkerHears, filling};

use crate::coordinator::Coordinator;
use crate::events::MasterEvent;
use crate::host::MasterHost;
use crate::shared::CoordinatorShared;
use bm_lane::Yard;
use bm_lane_actor::{LaneEvent, declines, event_of, fills};
use bm_latent::WorkerEvent;
use bm_master::{Master, MasterInput};
use bm_operator::{Remark, StepEvent};
use bm_remarks::ReportedStep;
use std::io::Write;

impl<Y: Yard, O: Write + Drop> Coordinator<Y, O> {
    /// Hands in the event that was taken.
    pub(crate) fn hear_taken<R: MasterHost>(&mut self, shared: &CoordinatorShared<Y, R>)
        ensures { HearsTaken self.old self.new }
    {
        if let Some(event) = self.taken.take() {
            self.hear(shared, event);
        }
        self.teller.tell_left_out(&shared.rt);
    }

    // Hands an event to the machine, or tells it.
    fn hear<R: MasterHost>(&mut self, shared: &CoordinatorShared<Y, R>, event: MasterEvent<Y>)
        ensures heard { HearsOf event self.old.master self.new.master }
        ensures rest { OnlyMaster self.old self.new }
    {
        let rt = &shared.rt;
        match &event {
            MasterEvent::Refused(_) | MasterEvent::Ended(_) => return self.hear_kept(rt, event),
            MasterEvent::Step(step) => self.hear_step(shared, step),
            MasterEvent::Cancelling(build) => {
                self.teller
                    .remark(rt, &Remark::BuildCancelled { build: *build });
            }
            MasterEvent::Paused => self.teller.remark(rt, &Remark::AcceptingPaused),
            MasterEvent::Misread => self.teller.remark(rt, &Remark::InputUnknown),
            MasterEvent::Lane(worker, event) => self.hear_lane(shared, *worker, *event),
            MasterEvent::Cancel(build) => self.hear_cancel(shared, *build),
            MasterEvent::InputEnded => self.master.step(MasterInput::InputEnded),
        }
        drop(event);
    }

    // Hears an event of which something is kept.
    fn hear_kept<R: MasterHost>(&mut self, rt: &R, event: MasterEvent<Y>)
        ensures heard { HearsKept event self.old.master self.new.master }
        ensures rest { OnlyMaster self.old self.new }
    {
        match event {
            MasterEvent::Refused(refused) => self.teller.hear_refused(rt, refused),
            MasterEvent::Ended(finished) => self.master.step(MasterInput::BuildEnded(finished)),
            other => drop(other),
        }
    }

    // A line of the input cancels a build.
    fn hear_cancel<R: MasterHost>(&mut self, shared: &CoordinatorShared<Y, R>, build: u64)
        ensures heard { IsCancelled self.old.master self.new.master build }
        ensures rest { OnlyMaster self.old self.new }
    {
        shared.lines.heard();
        self.master.step(MasterInput::Cancel(build));
    }

    // Something happened to a step of a build.
    fn hear_step<R: MasterHost>(&mut self, shared: &CoordinatorShared<Y, R>, step: &ReportedStep)
        ensures heard { StepIsHeard step.now.event step.now.build self.old.master self.new.master }
        ensures rest { OnlyMaster self.old self.new }
    {
        self.teller.tell_step(&shared.rt, &shared.config, step);
        if let StepEvent::Started(command) = step.event {
            let build = step.build;
            self.master.step(MasterInput::Commanded { build, command });
        }
    }

    // The actor of a worker's lane tells what happened to it.
    fn hear_lane<R: MasterHost>(
        &mut self,
        shared: &CoordinatorShared<Y, R>,
        at: usize,
        event: LaneEvent,
    )
        ensures heard { LaneIsHeard event at self.old.master self.new.master }
        ensures rest { OnlyMaster self.old self.new }
    {
        let is_dismissed = self.master.is_dismissed(at);
        let workers = shared.config.workers.as_slice();
        self.teller
            .tell_lane(&shared.rt, workers, at, event, is_dismissed);
        tell_worker(&mut self.master, at, event);
        tell_filled(&mut self.master, at, event);
    }

    /// Hears an event once all builds are over: of a login that was refused, and of a worker that
    /// was told to shut down. All else is over.
    pub(crate) fn hear_last<R: MasterHost>(
        &mut self,
        shared: &CoordinatorShared<Y, R>,
        event: MasterEvent<Y>,
    )
        ensures heard { HearsLast event self.old.master self.new.master }
        ensures rest { OnlyMaster self.old self.new }
    {
        match &event {
            MasterEvent::Refused(_) => return self.hear_kept(&shared.rt, event),
            MasterEvent::Lane(worker, event) => self.hear_last_of(shared, *worker, *event),
            _ => {}
        }
        drop(event);
    }

    // Hears what happened to the lane of a worker, where somebody still wants to know.
    fn hear_last_of<R: MasterHost>(
        &mut self,
        shared: &CoordinatorShared<Y, R>,
        worker: usize,
        event: LaneEvent,
    )
        ensures heard { HearsLastOf event worker self.old.master self.new.master }
        ensures rest { OnlyMaster self.old self.new }
    {
        if self.master.is_dismissed(worker) || declines(event) {
            self.hear_lane(shared, worker, event);
        }
    }
}

// The machine of a worker hears what happened to its lane.
fn tell_worker<Y: Yard>(master: &mut Master<Y>, at: usize, event: LaneEvent)
    ensures { WorkerHears (event_of event) at master.old master.new }
{
    if let Some(event) = event_of(event) {
        master.step(MasterInput::Worker(at, event));
    }
}

// The machine of a worker hears that its lane takes nothing more.
fn tell_filled<Y: Yard>(master: &mut Master<Y>, at: usize, event: LaneEvent)
    ensures { WorkerHears (filling event) at master.old master.new }
{
    if fills(event) {
        master.step(MasterInput::Worker(at, WorkerEvent::Filled));
    }
}
