//! The thread of a build.
ghost use Rattle.std.specs.Prelude.{◌≡◌, IfErr, IfOk, IfSome};
ghost use Rattle.bm_coordinator.specs.StepReports.{Reaches};

use crate::events::{EventSender, MasterEvent};
use crate::shared::CoordinatorShared;
use bm_board::{Build, StepPlan};
use bm_build_queue::Assignment;
use bm_lane::{Viewer, Yard};
use bm_lane_actor::{CancelFlag, DrainGate, LaneHandle, LanePort, Watch, WorkerStream, handle_of};
use bm_lines::Text;
use bm_master::FinishedBuild;
use bm_operator::{StartRefusal, StepEvent, StepLimit};
use bm_remarks::ReportedStep;
use bm_runner::{place_of, run_build};
use bm_session::Results;
use crossbeam_channel::bounded;
use std::alloc::Global;
use std::sync::Wait;
use std::thread::{Scope, Threads};
use std::time::Clock;

/// How often a command is asked for its end before it is interrupted: once a tick, for a year and
/// more.
const TURNS: u64 = 1 << 32;

/// What the thread of a build owns: the build's number, and by what its worker's lane is seen and
/// reached.
#[derive(Drop)]
struct BuildTask<Y: Yard, R: Wait + Clock + Drop> {
    number: u64,
    worker: usize,
    viewer: Viewer<Y>,
    lane: LaneHandle<WorkerStream<R>>,
    ghost of_the_worker: { viewer.lane ≡ worker },
    ghost fits: { viewer.lane ≡ lane },
}

impl<Y: Yard, R: Wait + Clock + Drop> BuildTask<Y, R> {
    // The assignment comes back, which no thread took.
    fn into_assignment(self) -> Assignment<Y>
        ensures number { result.number ≡ self.number }
        ensures worker { result.worker ≡ self.worker }
        ensures viewer { result.viewer ≡ self.viewer }
    {
        let BuildTask {
            number,
            worker,
            viewer,
            ..
        } = self;
        Assignment {
            number,
            worker,
            viewer,
        }
    }
}

/// Which step of a build was reached.
#[derive(Drop)]
struct ReachedStep {
    /// How many of the build's steps are over or left out.
    behind: usize,
    /// The place of the last that was started or refused, and its name.
    place: usize,
    name: Option<Text>,
}

impl ReachedStep {
    // Notes that this step is the next of these.
    fn reaches(&mut self, steps: &[StepPlan], step: &StepPlan)
        ensures { Reaches steps.now step.now self.old self.new }
    {
        if let Some(place) = place_of(steps, self.behind, step.always_run) {
            self.place = place;
            self.behind = place.saturating_add(1);
        }
        self.name = step.name.copy().ok();
    }

    // What is told of it.
    fn report(&self, build: u64, event: StepEvent, said: Option<Text>) -> ReportedStep
        ensures step { (result.build ≡ build) × (result.place ≡ self.now.place) }
        ensures name { IfSome result.name (λ name. self.now.name ≡ Some name) }
        ensures what { (result.event ≡ event) × (result.said ≡ said) }
    {
        let name = match &self.name {
            Some(name) => name.copy().ok(),
            None => None,
        };
        ReportedStep {
            build,
            place: self.place as u64,
            name,
            said,
            event,
        }
    }
}

/// Tells the coordinator of a build's steps.
#[derive(Drop)]
struct StepReporter<'s, Y: Yard, R: Wait + Clock> {
    rt: &'s R,
    events: EventSender<Y>,
    build: u64,
    steps: &'s [StepPlan],
    reached: ReachedStep,
}

impl<'s, Y: Yard, R: Wait + Clock> StepReporter<'s, Y, R> {
    // Tells of the steps of this build, of which nothing happened yet.
    fn new(
        rt: &'s R,
        events: EventSender<Y>,
        build: u64,
        steps: &'s [StepPlan],
    ) -> StepReporter<'s, Y, R>
        ensures build { (result.build ≡ build) × (result.steps.now ≡ steps.now) }
        ensures reached { result.reached ≡ record { behind = 0; place = 0; name = None } }
    {
        StepReporter {
            rt,
            events,
            build,
            steps,
            reached: ReachedStep {
                behind: 0,
                place: 0,
                name: None,
            },
        }
    }

    // Tells what happened to the step.
    fn tell(&self, event: StepEvent, said: Option<Text>) {
        let reported = self.reached.report(self.build, event, said);
        self.events.tell(self.rt, MasterEvent::Step(reported));
    }
}

impl<'s, Y: Yard, R: Wait + Clock> Watch for StepReporter<'s, Y, R> {
    fn started(&mut self, step: &StepPlan, command: u64)
        ensures { Reaches self.old.steps.now step.now self.old.reached self.new.reached }
    {
        self.reached.reaches(self.steps, step);
        self.tell(StepEvent::Started(command), None);
    }

    fn cancelled(&mut self)
        ensures { self.new.reached ≡ self.old.reached }
    {
        self.events
            .tell(self.rt, MasterEvent::Cancelling(self.build));
    }

    fn stopped(&mut self, command: u64, limit: StepLimit)
        ensures { self.new.reached ≡ self.old.reached }
    {
        self.tell(StepEvent::Stopped(command, limit), None);
    }

    fn refused(&mut self, step: &StepPlan, why: StartRefusal)
        ensures { Reaches self.old.steps.now step.now self.old.reached self.new.reached }
    {
        self.reached.reaches(self.steps, step);
        self.tell(StepEvent::Refused(why), None);
    }

    fn failed(&mut self, command: u64, said: Option<Text>)
        ensures { self.new.reached ≡ self.old.reached }
    {
        self.tell(StepEvent::Failed(command), said);
    }

    fn ended(&mut self, command: u64, outcome: Results)
        ensures { self.new.reached ≡ self.old.reached }
    {
        self.tell(StepEvent::Ended(command, outcome), None);
    }
}

// Runs a build to its end. Its steps are told by `steps`.
fn run<Y, R>(
    rt: &R,
    alloc: Global,
    build: &Build,
    task: BuildTask<Y, R>,
    gate: &DrainGate<R>,
    cancelled: &CancelFlag,
    steps: EventSender<Y>,
) -> FinishedBuild<Y>
where
    Y: Yard,
    R: Wait + Clock + Drop,
    ensures { result.number ≡ task.number }
{
    let BuildTask {
        number,
        worker: _,
        viewer,
        lane,
    } = task;
    let reporter = StepReporter::new(rt, steps, number, build.steps.as_slice());
    let mut port = LanePort::over(rt, alloc, viewer, lane, gate, cancelled, reporter);
    let result = match run_build(alloc, build, &mut port, TURNS) {
        Ok(report) => Some(report.result),
        Err(_) => None,
    };
    let (viewer, _) = port.into_parts();
    FinishedBuild {
        number,
        result,
        viewer,
    }
}

// The task of an assignment. The assignment comes back where memory is wanting.
fn task_of<Y: Yard, R: Wait + Clock + Drop>(
    lanes: &[LaneHandle<WorkerStream<R>>],
    assignment: Assignment<Y>,
) -> Result<BuildTask<Y, R>, Assignment<Y>>
    ensures number { IfOk result (λ task. task.number ≡ assignment.number) }
    ensures worker { IfOk result (λ task. task.worker ≡ assignment.worker) }
    ensures viewer { IfOk result (λ task. task.viewer ≡ assignment.viewer) }
    ensures back { IfErr result (λ back. back ≡ assignment) }
{
    let Some(lane) = handle_of(lanes, assignment.worker) else {
        return Err(assignment);
    };
    let Ok(lane) = lane.copy() else {
        return Err(assignment);
    };
    let Assignment {
        number,
        worker,
        viewer,
    } = assignment;
    Ok(BuildTask {
        number,
        worker,
        viewer,
        lane,
    })
}

/// Runs an assigned build in a thread of its own, which tells its end. Where no thread can be
/// started, or memory is wanting, the assignment comes back.
pub fn start_build<'s, E, Y, R>(
    scope: &Scope<'s, E>,
    shared: &'s CoordinatorShared<Y, R>,
    assignment: Assignment<Y>,
) -> Result<(), Assignment<Y>>
where
    Y: Yard + Send + Sync + 's,
    R: Wait + Clock + Threads + Drop + Send + Sync + 's,
    ensures number { IfErr result (λ back. back.number ≡ assignment.number) }
    ensures worker { IfErr result (λ back. back.worker ≡ assignment.worker) }
    ensures viewer { IfErr result (λ back. back.viewer ≡ assignment.viewer) }
{
    let (rt, alloc, gate) = (&shared.rt, shared.alloc, &shared.drain_gate);
    let worker = assignment.worker;
    let Some((build, cancel)) = shared.build(assignment.number) else {
        return Err(assignment);
    };
    cancel.begins(worker);
    let (Ok(events), Ok(steps)) = (shared.events.copy(), shared.events.copy()) else {
        return Err(assignment);
    };
    let Ok((give, take)) = bounded::<BuildTask<Y, R>, Global>(alloc, 1) else {
        return Err(assignment);
    };
    let task = match task_of(shared.lanes.as_slice(), assignment) {
        Ok(task) => task,
        Err(assignment) => return Err(assignment),
    };
    // The task follows the thread, so that it isn't lost.
    let thread = scope.spawn(move || {
        if let Ok(task) = take.recv(rt) {
            let finished = run(rt, alloc, build, task, gate, &cancel.flag, steps);
            events.tell(rt, MasterEvent::Ended(finished));
        }
    });
    if thread.is_err() {
        return Err(task.into_assignment());
    }
    match give.send(rt, task) {
        Ok(()) => Ok(()),
        Err(error) => Err(error.into_inner().into_assignment()),
    }
}
