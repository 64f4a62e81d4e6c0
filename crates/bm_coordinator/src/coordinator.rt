//! The coordinator: it alone drives the machine of the master, and does what that says.

ghost use Rattle.std.specs.Prelude.{◌≡◌, ◌||◌, IfSome};
ghost use Rattle.std.specs.Option.{is_none};
ghost use Rattle.std.specs.Thread.{IsSend, IsSync};
ghost use Rattle.bm_build_queue.specs.BuildQueue.{AreResults};
ghost use Rattle.bm_latent.specs.TickCounter.{after_telling, told_at};
ghost use Rattle.bm_master.specs.Masters.{woken};
ghost use Rattle.bm_coordinator.specs.Coordination.{begun, HasLeft, Listens, Wakes};

use crate::events::{EventReceiver, MasterEvent};
use crate::host::MasterHost;
use crate::shared::CoordinatorShared;
use bm_build_queue::ViewerPool;
use bm_config::UnknownKey;
use bm_lane::Yard;
use bm_latent::{TICK_MS, TickCounter};
use bm_master::{Master, MasterInput, NextWait, next_wait};
use bm_operator::OutputLine;
use bm_programs::WorkerPrograms;
use bm_remarks::{Remarks, Teller};
use bm_session::Results;
use std::alloc::Global;
use std::io::Write;
use std::marker::Model;
use std::sync::Wait;
use std::thread;
use std::thread::Scope;
use std::time::{Clock, Duration};

/// How long refused connections that are not told one by one are counted, before they are told.
const COUNTED_SECONDS: u64 = 1;

/// The coordinator, with what it owns to the end of the master. It alone drives the machine, and
/// writes output and remarks while builds may run.
#[derive(Drop)]
pub struct Coordinator<Y: Yard, O> {
    pub(crate) events: EventReceiver<Y>,
    pub(crate) master: Master<Y>,
    pub(crate) programs: WorkerPrograms,
    /// Standard output.
    pub(crate) output: O,
    pub(crate) teller: Teller,
    /// The ticks since it began.
    pub(crate) ticks: TickCounter,
    /// The event that was taken last, until the machine asks for it.
    pub(crate) taken: Option<MasterEvent<Y>>,
    /// Whether a line could not be written, or nobody writes remarks.
    pub(crate) has_failed: bool,
}

impl<Y: Yard, O> Model for Coordinator<Y, O> {
    ghost use Rattle.bm_coordinator.specs.Coordination.{CoordinatorView};
    ghost use Rattle.bm_coordinator.specs.declared.events.MasterEvent.{MasterEvent};

    ghost Value = { CoordinatorView (MasterEvent Y) };

    ghost view = { λ c. record {
      master = c.master;
      programs = c.programs;
      ticks = c.ticks;
      taken = c.taken;
      failed = c.has_failed;
    } };
}

impl<Y: Yard, O: Write + Drop> Coordinator<Y, O> {
    /// A coordinator that hasn't begun. Without a thread that writes remarks it has failed.
    pub fn new(
        alloc: Global,
        events: EventReceiver<Y>,
        master: Master<Y>,
        programs: WorkerPrograms,
        output: O,
        remarks: Option<Remarks>,
    ) -> Coordinator<Y, O>
        ensures { result ≡ begun master programs (is_none remarks) }
    {
        let has_failed = remarks.is_none();
        Coordinator {
            events,
            master,
            programs,
            output,
            teller: Teller::new(alloc, remarks),
            ticks: TickCounter::new(TICK_MS, 0),
            taken: None,
            has_failed,
        }
    }

    /// Tells where the master listens, and then what it has. False where the first can't be told.
    pub fn greet<R: MasterHost>(
        &mut self,
        shared: &CoordinatorShared<Y, R>,
        listening: OutputLine<'_>,
        unknown: &[UnknownKey],
    ) -> bool
        ensures { self.new ≡ self.old }
    {
        if !write_line(shared.alloc, listening, &mut self.output) {
            return false;
        }
        self.teller.tell_first(&shared.rt, &shared.config, unknown);
        true
    }

    /// Does what the machine says until it leaves.
    pub(crate) fn serve<'s, E, R>(
        &mut self,
        scope: &Scope<'s, E>,
        shared: &'s CoordinatorShared<Y, R>,
    )
    where
        Y: Send + Sync + 's,
        R: MasterHost + 's,
        ensures { HasLeft self.new.master }
    {
        let rt = &shared.rt;
        for _ in rt.forever() {
            let now_ms = self.teller.now_ms(rt);
            let effect = self.master.next_effect(now_ms);
            if !self.does(scope, shared, effect) {
                return;
            }
        }
        unreachable!()
    }

    /// Waits for the next event, and takes it.
    pub(crate) fn wait<R: Wait + Clock>(&mut self, rt: &R, is_timed: bool, is_counted: bool)
        ensures { Wakes self.old self.new }
    {
        let wait = next_wait(is_timed, is_counted || self.teller.is_left_out());
        put(&mut self.taken, next_event(rt, &self.events, wait));
        let now_ms = self.teller.now_ms(rt);
        wake(&mut self.master, &mut self.ticks, now_ms);
    }

    /// Takes an event that lies ready, or says that there is none.
    pub(crate) fn listen<R: Wait + Clock>(&mut self, rt: &R)
        ensures { Listens self.new.taken self.old self.new }
    {
        put(&mut self.taken, self.events.look(rt));
        let now_ms = self.teller.now_ms(rt);
        if self.taken.is_some() {
            wake(&mut self.master, &mut self.ticks, now_ms);
        } else {
            self.master.step(MasterInput::Quiet);
        }
    }

    /// The results by the builds' numbers. None where a build has none, or memory is wanting.
    pub fn results(&self, alloc: Global) -> Option<Vec<Results>>
        ensures { IfSome result
            (λ all. AreResults self.now.master.builds.queue.board all.items) }
    {
        self.master.results(alloc)
    }

    /// Whether a line could not be written, or a build could not be run.
    pub fn has_failed(&self) -> bool
        ensures { result ≡ (self.now.failed || self.now.master.builds.failed) }
    {
        self.has_failed || self.master.has_failed()
    }

    /// The viewers of the builds, by their lanes, and standard output.
    pub fn into_ends(self) -> (Vec<ViewerPool<Y>>, O)
        ensures { result.0.items ≡ self.master.builds.queue.pools }
    {
        let Coordinator { master, output, .. } = self;
        (master.into_pools(), output)
    }
}

/// Writes a line at once. The answer is whether it was written.
pub fn write_line<O: Write>(alloc: Global, line: OutputLine<'_>, output: &mut O) -> bool {
    line.write(alloc, output).is_ok() && output.flush().is_ok()
}

// Tells the machine how many ticks have ended at this time.
fn wake<Y: Yard>(master: &mut Master<Y>, ticks: &mut TickCounter, now_ms: Option<u64>)
    ensures machine { master.new ≡ woken (told_at ticks.old now_ms) master.old }
    ensures counted { ticks.new ≡ after_telling ticks.old now_ms }
{
    let ended = ticks.told(now_ms);
    master.step(MasterInput::Woke { ticks: ended });
}

// Puts a value in the place of another one, which is dropped. It is generic: else the proof of each
// such assignment would take that one apart.
fn put<T: Drop>(place: &mut T, value: T)
    ensures { place.new ≡ value }
{
    *place = value;
}

// The next event, if it comes in time.
fn next_event<Y: Yard, R: Wait + Clock>(
    rt: &R,
    events: &EventReceiver<Y>,
    wait: NextWait,
) -> Option<MasterEvent<Y>> {
    match wait {
        NextWait::Tick => events.wait_for(rt, Duration::from_millis(TICK_MS)),
        NextWait::Second => events.wait_for(rt, Duration::from_secs(COUNTED_SECONDS)),
        NextWait::Event => events.wait(rt),
    }
}

// Does the coordinator's work to its end, with the threads of builds below it.
fn work<'s, E, Y, R, O>(
    scope: &Scope<'s, E>,
    shared: &'s CoordinatorShared<Y, R>,
    coordinator: Coordinator<Y, O>,
) -> Coordinator<Y, O>
where
    Y: Yard + Send + Sync + 's,
    R: MasterHost + 's,
    O: Write + Drop,
{
    let mut coordinator = coordinator;
    coordinator.teller.begin(&shared.rt);
    coordinator.serve(scope, shared);
    coordinator.end(scope, shared);
    coordinator.teller.end(&shared.rt);
    coordinator
}

/// Does the coordinator's work to its end.
pub fn coordinate<Y, R, O>(
    shared: &CoordinatorShared<Y, R>,
    coordinator: Coordinator<Y, O>,
) -> Coordinator<Y, O>
where
    Y: Yard + Send + Sync,
    R: MasterHost,
    O: Write + Drop,
{
    let left = thread::scope(
        thread::scope_env(),
        &shared.rt,
        |scope| -> Coordinator<Y, O>
            requires { IsSend Y.row × IsSync Y.row × IsSend R.row × IsSync R.row }
        { work(scope, shared, coordinator) },
    );
    left
}
