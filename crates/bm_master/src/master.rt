//! The machine of a master, and what comes to it.

ghost use Rattle.std.specs.Prelude.{◌≡◌, Some, Ok};
ghost use Rattle.bm_board.specs.Board.{result_on};
ghost use Rattle.bm_session.specs.declared.results.Results.{Results};
ghost use Rattle.bm_master.specs.Flow.{flow_after};
ghost use Rattle.bm_master.specs.Masters.{Hears, IsCancelled, IsNoted, Takes, begun_master, woken};

use crate::known_worker::KnownWorker;
use crate::master_builds::MasterBuilds;
use crate::master_flow::{FlowInput, MasterFlow};
use crate::values::{MasterInput, MasterRemark};
use bm_build_queue::{BuildQueue, Cancelled};
use bm_lane::Yard;
use bm_latent::WorkerInput;
use std::alloc::Global;
use std::marker::Model;

/// What a master's machine is about, a move at a time.
#[derive(Clone, Copy, PartialEq, Eq)]
pub(crate) enum Agenda {
    /// It looks what is next.
    Look,
    /// The program of the worker at this place is looked at, and then a tick is told to the worker.
    /// Then come those behind it.
    Program(usize),
    Tick(usize),
    /// The worker at this place is told where a build waits for it, and so are those behind it.
    /// `starts`: builds are started then.
    Want { at: usize, starts: bool },
    /// So many builds at the most are started.
    Start(u64),
    /// It is told where a build waits for the worker at this place, or one behind it. `waits`: the
    /// next event is waited for then.
    Notice { at: usize, waits: bool },
    /// The worker at this place is told that the master ends, and so are those behind it.
    End(usize),
}

/// What a master knows, and what it does next. It knows no thread, no clock and no stream: who
/// drives it hands in what comes, and does what each effect says. An effect at a time, and no input
/// is handed in before a wait, but for the answer to the last effect.
#[derive(Drop)]
pub struct Master<Y: Yard> {
    pub(crate) builds: MasterBuilds<Y>,
    /// The workers, in their order.
    pub(crate) workers: Vec<KnownWorker>,
    pub(crate) flow: MasterFlow,
    pub(crate) agenda: Agenda,
    /// What is told next, which build is to be cancelled, and of which worker the lane is told that
    /// its program has ended.
    pub(crate) tells: Option<MasterRemark>,
    pub(crate) cancels: Option<u64>,
    pub(crate) ended: Option<usize>,
    /// Whether something may be owed to a worker.
    pub(crate) owes: bool,
    /// How many ticks are still to be told, and whether those of the next wait count.
    pub(crate) ticks: u64,
    pub(crate) is_timed: bool,
    /// Whether an event was taken, which is handed in once those ticks are told.
    pub(crate) hears: bool,
    /// Whether all programs are to end.
    pub(crate) is_over: bool,
    /// Whether the builds that hold their slots are to be looked at.
    pub(crate) looks: bool,
    /// How many of the events that lay ready behind such a look are still to be heard, before slots
    /// are given back. None where no build was free at the look.
    pub(crate) unheard: Option<u64>,
}

impl<Y: Yard> Model for Master<Y> {
    ghost use Rattle.bm_master.specs.Masters.{MasterView};

    ghost Value = { MasterView };

    ghost view = { λ m. record {
      builds = m.builds;
      workers = m.workers.items;
      flow = m.flow;
      agenda = m.agenda;
      tells = m.tells;
      cancels = m.cancels;
      ended = m.ended;
      owes = m.owes;
      ticks = m.ticks;
      timed = m.is_timed;
      hears = m.hears;
      over = m.is_over;
      looks = m.looks;
      unheard = m.unheard;
    } };
}

impl<Y: Yard> Master<Y> {
    /// Nothing was started.
    pub fn new(alloc: Global, queue: BuildQueue<Y>, workers: Vec<KnownWorker>) -> Master<Y>
        ensures { result ≡ begun_master queue workers.items }
    {
        Master {
            builds: MasterBuilds::new(alloc, queue),
            workers,
            flow: MasterFlow::new(),
            agenda: Agenda::Look,
            tells: None,
            cancels: None,
            ended: None,
            owes: false,
            ticks: 0,
            is_timed: false,
            hears: false,
            is_over: false,
            looks: false,
            unheard: None,
        }
    }

    /// Takes an input.
    pub fn step(&mut self, input: MasterInput<Y>)
        ensures { Takes self.old self.new input }
    {
        match input {
            MasterInput::Woke { ticks } => self.wakes(ticks),
            MasterInput::Ready { events } => self.unheard = Some(events),
            MasterInput::Quiet => self.unheard = Some(0),
            MasterInput::Worker(at, event) => {
                self.hears(at, WorkerInput::Happened(event));
                self.flow.hears(FlowInput::Changed);
            }
            MasterInput::ProgramStarted(at) => {
                self.hears(at, WorkerInput::Started);
                self.tells = Some(MasterRemark::ProgramStarted { worker: at });
            }
            MasterInput::ProgramRefused(at, failure) => {
                let may_pass = failure.may_pass;
                if self.hears(at, WorkerInput::Refused { may_pass }) {
                    let (worker, why) = (at, failure.why);
                    self.tells = Some(MasterRemark::ProgramFailed { worker, why });
                }
            }
            MasterInput::ProgramEnded(at) => {
                self.hears(at, WorkerInput::Ended);
                self.tells = Some(MasterRemark::ProgramEnded { worker: at });
                self.ended = if self.is_over { None } else { Some(at) };
            }
            MasterInput::BuildStarted { build, worker } => {
                self.tells = Some(MasterRemark::BuildStarted { build, worker });
            }
            MasterInput::BuildRefused(unstarted) => {
                let build = unstarted.number();
                if self.builds.refused(unstarted) {
                    self.tells = Some(MasterRemark::BuildUnstarted { build });
                }
                self.agenda = Agenda::Start(0);
            }
            MasterInput::BuildEnded(finished) => {
                let number = finished.number;
                self.builds.finish(finished);
                self.looks = true;
                self.tells_end(number);
                self.flow.hears(FlowInput::Changed);
            }
            MasterInput::Commanded { build, command } => self.builds.note(build, command),
            MasterInput::Cancel(number) => self.cancel(number),
            MasterInput::InputEnded => self.flow.hears(FlowInput::InputEnded),
            MasterInput::Over => {
                self.is_over = true;
                self.agenda = Agenda::End(0);
            }
        }
    }

    // A wait is over. Builds may be started that couldn't be before it, and ticks count, where they
    // were waited for. They ended before the event came that the wait has brought.
    fn wakes(&mut self, ticks: u64)
        ensures { self.new ≡ woken ticks self.old }
    {
        self.hears = true;
        if !self.is_timed && !self.is_over {
            return;
        }
        self.looks = true;
        if self.builds.is_short() {
            self.flow.hears(FlowInput::Changed);
        }
        self.ticks = ticks;
        if ticks > 0 {
            self.agenda = Agenda::Program(0);
        }
    }

    // An input comes to a worker's machine. True where its program isn't tried any more.
    pub(crate) fn hears(&mut self, at: usize, input: WorkerInput) -> bool
        ensures heard { Hears self.old self.new at input }
        ensures tells { self.new.tells ≡ self.old.tells }
        ensures over { self.new.over ≡ self.old.over }
        ensures flow { flow_after FlowInput.Changed self.new.flow
            ≡ flow_after FlowInput.Changed self.old.flow }
    {
        let Some(worker) = self.workers.get_mut(at) else {
            return false;
        };
        let effect = worker.step(input);
        self.owes = true;
        self.builds.set_ready(at, effect.action.ready);
        if effect.action.gives_up {
            self.flow.hears(FlowInput::Changed);
        }
        effect.fails
    }

    // A build is told to have ended, where it has its result.
    pub(crate) fn tells_end(&mut self, build: u64)
        ensures told { (r : Results) → result_on self.old.builds.queue.board build ≡ Ok (Some r)
            → self.new.tells ≡ Some (MasterRemark.BuildEnded build r) }
        ensures noted { IsNoted self.old self.new }
        ensures rest { self.new ≡ record self.old { tells = self.new.tells } }
    {
        if let Some(result) = self.builds.result(build) {
            self.tells = Some(MasterRemark::BuildEnded { build, result });
        }
    }

    // A build is cancelled, where it has not ended. One that runs tells itself that it obeys.
    fn cancel(&mut self, build: u64)
        ensures cancelled { IsCancelled self.old self.new build }
        ensures noted { IsNoted self.old self.new }
    {
        match self.builds.cancel(build) {
            Cancelled::Waiting => {
                self.tells_end(build);
                self.flow.hears(FlowInput::Changed);
            }
            Cancelled::Running => {
                self.cancels = Some(build);
                if self.builds.is_short() {
                    self.flow.hears(FlowInput::Changed);
                }
            }
            Cancelled::Nothing => {
                if build >= self.builds.count() {
                    self.tells = Some(MasterRemark::BuildMissing { build });
                }
            }
        }
    }
}
