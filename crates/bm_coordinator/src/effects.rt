//! What the coordinator does where the machine of the master says so.

ghost use Rattle.std.specs.Prelude.{◌≡◌};
ghost use Rattle.bm_coordinator.specs.Coordination.{EndIsHeard, goes_on, IsAnswered, IsCounted, IsStartAnswered, LooksAtProgram, OnlyMaster, Reports, StartIsHeard, StartsProgram};

use crate::build_thread::start_build;
use crate::coordinator::Coordinator;
use crate::host::MasterHost;
use crate::shared::CoordinatorShared;
use bm_lane::Yard;
use bm_lane_actor::LaneSignal;
use bm_master::{Master, MasterEffect, MasterInput, StartFailure, UnstartedBuild};
use bm_operator::{OutputLine, Remark};
use bm_remarks::name_at;
use std::alloc::Global;
use std::io::Write;
use std::thread::Scope;

impl<Y: Yard, O: Write + Drop> Coordinator<Y, O> {
    /// Does what the machine says. False once there is nothing more to do.
    pub(crate) fn does<'s, E, R>(
        &mut self,
        scope: &Scope<'s, E>,
        shared: &'s CoordinatorShared<Y, R>,
        effect: MasterEffect<Y>,
    ) -> bool
    where
        Y: Send + Sync + 's,
        R: MasterHost + 's,
        ensures answered { IsAnswered effect self.old self.new }
        ensures goes { result ≡ goes_on effect }
    {
        let (rt, alloc) = (&shared.rt, shared.alloc);
        match effect {
            MasterEffect::Nothing => {}
            MasterEffect::StartBuild(build) => self.start(scope, shared, build),
            MasterEffect::CancelBuild(build) => shared.cancel(build),
            MasterEffect::StartProgram(at) => self.start_program(rt, alloc, at),
            MasterEffect::LookAtProgram(at) => self.look_at_program(at),
            MasterEffect::EndProgram(at, act) => self.programs.end(rt, alloc, at, act),
            MasterEffect::ShutDown(at) => self.shut_down(shared, at),
            MasterEffect::TellEnded(at) => shared.signal(at, LaneSignal::Ended),
            MasterEffect::Tell(remark) => {
                self.teller
                    .tell(rt, shared.config.workers.as_slice(), remark);
            }
            MasterEffect::Report => self.report(alloc),
            MasterEffect::Count { .. } => self.count(),
            MasterEffect::Listen => self.listen(rt),
            MasterEffect::Hear => self.hear_taken(shared),
            MasterEffect::Wait {
                is_timed,
                is_counted,
            } => self.wait(rt, is_timed, is_counted),
            MasterEffect::Leave => return false,
        }
        true
    }

    // Starts the thread of a build, and hands in what came of that.
    fn start<'s, E, R>(
        &mut self,
        scope: &Scope<'s, E>,
        shared: &'s CoordinatorShared<Y, R>,
        build: UnstartedBuild<Y>,
    )
    where
        Y: Send + Sync + 's,
        R: MasterHost + 's,
        ensures answered { IsStartAnswered build self.old.master self.new.master }
        ensures rest { OnlyMaster self.old self.new }
    {
        let (assignment, start) = build.into_parts();
        let (build, worker) = (assignment.number, assignment.worker);
        match start_build(scope, shared, assignment) {
            Ok(()) => self
                .master
                .step(MasterInput::BuildStarted { build, worker }),
            Err(assignment) => {
                let again = UnstartedBuild::again(assignment, start);
                self.master.step(MasterInput::BuildRefused(again));
            }
        }
    }

    // Starts the program of a worker, and hands in what came of that.
    fn start_program<R: MasterHost>(&mut self, rt: &R, alloc: Global, at: usize)
        ensures { StartsProgram at self.old self.new }
    {
        let started = self.programs.start(rt, alloc, at);
        tell_start(&mut self.master, at, started);
    }

    // Hands in that the program of a worker has ended, where it has.
    fn look_at_program(&mut self, at: usize)
        ensures { LooksAtProgram at self.old self.new }
    {
        let has_ended = self.programs.has_ended(at);
        tell_end(&mut self.master, at, has_ended);
    }

    // Has a worker told to shut down.
    fn shut_down<R: MasterHost>(&self, shared: &CoordinatorShared<Y, R>, at: usize) {
        shared.signal(at, LaneSignal::ShutDown);
        let worker = name_at(shared.config.workers.as_slice(), at);
        self.teller
            .remark(&shared.rt, &Remark::Dismissed { worker });
    }

    // Hands in how many events lie ready.
    fn count(&mut self)
        ensures counted { IsCounted self.old.master self.new.master }
        ensures rest { OnlyMaster self.old self.new }
    {
        let events = self.events.count();
        self.master.step(MasterInput::Ready { events });
    }

    // Writes the results of all builds.
    fn report(&mut self, alloc: Global)
        ensures { Reports self.old self.new }
    {
        if !write_results(alloc, &self.master, &mut self.output) {
            self.has_failed = true;
        }
    }
}

// The machine hears what came of the start of a worker's program.
fn tell_start<Y: Yard>(master: &mut Master<Y>, at: usize, started: Result<(), StartFailure>)
    ensures { StartIsHeard started at master.old master.new }
{
    match started {
        Ok(()) => master.step(MasterInput::ProgramStarted(at)),
        Err(failure) => master.step(MasterInput::ProgramRefused(at, failure)),
    }
}

// The machine hears that the program of a worker has ended, where it has.
fn tell_end<Y: Yard>(master: &mut Master<Y>, at: usize, has_ended: bool)
    ensures { EndIsHeard has_ended at master.old master.new }
{
    if has_ended {
        master.step(MasterInput::ProgramEnded(at));
    }
}

// Writes the results of all builds. The answer is whether all could be written.
fn write_results<Y: Yard, O: Write>(alloc: Global, master: &Master<Y>, output: &mut O) -> bool {
    let mut is_written = true;
    for number in 0..master.builds() {
        if let Some(result) = master.result(number) {
            let line = OutputLine::Build { number, result };
            is_written = line.write(alloc, output).is_ok() && is_written;
        }
    }
    output.flush().is_ok() && is_written
}
