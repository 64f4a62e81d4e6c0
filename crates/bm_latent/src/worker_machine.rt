//! A worker as its master drives it: what is known of it, and its program, where one is started on
//! demand.

ghost use Rattle.std.specs.Prelude.{◌≡◌, if◌then◌else◌, true, false};
ghost use Rattle.bm_latent.specs.declared.deadline.EndAct.TheVariants as end_act;
ghost use Rattle.bm_latent.specs.declared.worker_event.ProcessAction.TheVariants as process_act;
ghost use Rattle.bm_latent.specs.declared.worker_input.WorkerInput.TheVariants as input;
ghost use Rattle.bm_latent.specs.Deadline.{act_at, after_tick};
ghost use Rattle.bm_latent.specs.WorkerState.{is_ready};
ghost use Rattle.bm_latent.specs.WorkerMachine.{answer, does, effect_of, ending, fault, fresh, heard, is_machine_timed, is_of_lane, machine_after, nothing, ticked, unstarted};

use crate::deadline::{Deadline, EndAct};
use crate::start_tries::StartTries;
use crate::worker_event::{ProcessAction, WorkerAction, WorkerEvent};
use crate::worker_input::{WorkerEffect, WorkerInput};
use crate::worker_state::WorkerState;
use std::marker::Model;

/// A worker as its master drives it. Who owns it starts, asks and kills programs, and does nothing
/// that no effect says. So one program runs at most, it is asked to end before it is killed, and
/// none is forgotten once the master ends.
#[derive(Drop)]
pub struct WorkerMachine {
    state: WorkerState,
    /// Whether its program is to be started, and no answer to that was final.
    is_starting: bool,
    tries: StartTries,
    /// Whether a program was started whose end was not seen.
    is_running: bool,
    /// How long the program has that is to end.
    deadline: Deadline,
    /// Whether the last program was asked to end, or killed.
    is_asked: bool,
    /// Whether the worker was told to shut down, and hasn't gone or logged in since.
    is_dismissed: bool,
    is_over: bool,
}

impl Model for WorkerMachine {
    ghost use Rattle.std.specs.Prelude.{◌≡◌, ◌≤◌, IfSome, true, false};
    ghost use Rattle.bm_latent.specs.WorkerMachine.{MachineView};

    ghost Value = { MachineView };

    ghost view = { λ m. record {
      known = m.state;
      starting = m.is_starting;
      tries = m.tries;
      running = m.is_running;
      deadline = m.deadline;
      asked = m.is_asked;
      dismissed = m.is_dismissed;
      over = m.is_over;
    } };

    ghost invariant = { λ m. IfSome m.deadline (λ ticks. 200 ≤ ticks → m.is_asked ≡ true)
        × (m.is_starting ≡ true → m.is_running ≡ false) };
}

// What happens to a program, and a tick, have inputs of their own.
fn is_of_lane(event: WorkerEvent) -> bool
    ensures { result ≡ is_of_lane event }
{
    match event {
        WorkerEvent::Wanted
        | WorkerEvent::Attached
        | WorkerEvent::Cut
        | WorkerEvent::Lost
        | WorkerEvent::Filled => true,
        WorkerEvent::Started
        | WorkerEvent::Failed
        | WorkerEvent::Stopped
        | WorkerEvent::Tick { .. } => false,
    }
}

// This alone is to be done.
fn does(action: WorkerAction) -> WorkerEffect
    ensures { result ≡ does action }
{
    WorkerEffect {
        action,
        ends: EndAct::None,
        fails: false,
    }
}

impl WorkerMachine {
    /// A worker of which this is known, and whose program wasn't started.
    pub fn new(state: WorkerState) -> WorkerMachine
        ensures { result ≡ fresh state }
    {
        WorkerMachine {
            state,
            is_starting: false,
            tries: StartTries::new(),
            is_running: false,
            deadline: Deadline::new(),
            is_asked: false,
            is_dismissed: false,
            is_over: false,
        }
    }

    /// Takes an input, and answers what is then to be done.
    ///
    /// No program is started while one runs, and none is killed that wasn't asked to end before.
    pub fn step(&mut self, input: WorkerInput) -> WorkerEffect
        ensures machine { self.new ≡ machine_after self.old input }
        ensures effect { result ≡ effect_of self.old input }
        ensures one { result.action.process ≡ process_act.Start → self.new.running ≡ false }
        ensures asked { result.ends ≡ end_act.Kill → self.old.asked ≡ true }
    {
        match input {
            WorkerInput::Happened(event) => self.happens(event),
            WorkerInput::Started => self.begins(),
            WorkerInput::Refused { may_pass } => self.refused(may_pass),
            WorkerInput::Ended => self.stops(),
            WorkerInput::Tick {
                is_wanted,
                has_build,
            } => self.ticks(is_wanted, has_build),
            WorkerInput::Over => self.ends(),
        }
    }

    fn nothing(&self) -> WorkerAction
        ensures { result ≡ nothing self.now }
    {
        WorkerAction {
            ready: self.state.is_ready(),
            process: ProcessAction::None,
            gives_up: false,
        }
    }

    // A program that runs is to end from now on.
    fn must_end(&mut self)
        ensures { self.new ≡ ending self.old }
    {
        if self.is_running {
            self.deadline.begin();
        }
    }

    // Hears an event, and answers what is to be done. A program that no build was just said to wait
    // for is started by the next tick, if by then one does.
    fn hear(&mut self, event: WorkerEvent) -> WorkerAction
        ensures machine { self.new ≡ heard self.old event }
        ensures action { result ≡ answer self.old event }
        ensures one { result.process ≡ process_act.Start → self.new.running ≡ false }
    {
        let mut action = self.state.hear(event);
        if action.process == ProcessAction::Start && (self.is_running || self.is_starting) {
            action.process = ProcessAction::None;
        }
        match action.process {
            ProcessAction::None => {}
            ProcessAction::Start => {
                self.is_starting = true;
                self.tries = StartTries::new();
            }
            ProcessAction::Shutdown => self.is_dismissed = true,
        }
        if self.state.is_stopping() {
            self.must_end();
        }
        if action.process == ProcessAction::Start && event != WorkerEvent::Wanted {
            action.process = ProcessAction::None;
        }
        action
    }

    fn happens(&mut self, event: WorkerEvent) -> WorkerEffect
        ensures machine { self.new ≡ machine_after self.old (input.Happened event) }
        ensures effect { result ≡ effect_of self.old (input.Happened event) }
        ensures one { result.action.process ≡ process_act.Start → self.new.running ≡ false }
        ensures asked { result.ends ≡ end_act.Kill → self.old.asked ≡ true }
    {
        if !is_of_lane(event) {
            return does(self.nothing());
        }
        if event == WorkerEvent::Attached || event == WorkerEvent::Lost {
            self.is_dismissed = false;
        }
        if self.is_over {
            return does(self.nothing());
        }
        does(self.hear(event))
    }

    fn begins(&mut self) -> WorkerEffect
        ensures machine { self.new ≡ machine_after self.old input.Started }
        ensures effect { result ≡ effect_of self.old input.Started }
        ensures one { result.action.process ≡ process_act.Start → self.new.running ≡ false }
        ensures asked { result.ends ≡ end_act.Kill → self.old.asked ≡ true }
    {
        if !self.is_starting {
            return does(self.nothing());
        }
        self.is_starting = false;
        self.is_running = true;
        self.is_asked = false;
        self.deadline.stop();
        if self.is_over {
            self.deadline.begin();
        }
        does(self.hear(WorkerEvent::Started))
    }

    // Its program isn't started any more. One that connected meanwhile, as by hand, goes on as one
    // whose program has ended.
    fn gives_start_up(&mut self) -> WorkerAction
        ensures machine { self.new ≡ heard (unstarted self.old) (fault self.old) }
        ensures action { result ≡ answer (unstarted self.old) (fault self.old) }
        ensures one { result.process ≡ process_act.Start → self.new.running ≡ false }
    {
        self.is_starting = false;
        if self.state.is_ready() {
            self.hear(WorkerEvent::Stopped)
        } else {
            self.hear(WorkerEvent::Failed)
        }
    }

    fn refused(&mut self, may_pass: bool) -> WorkerEffect
        ensures machine { self.new ≡ machine_after self.old (input.Refused may_pass) }
        ensures effect { result ≡ effect_of self.old (input.Refused may_pass) }
        ensures one { result.action.process ≡ process_act.Start → self.new.running ≡ false }
        ensures asked { result.ends ≡ end_act.Kill → self.old.asked ≡ true }
    {
        if !self.is_starting || may_pass && !self.tries.is_given_up(false) {
            return does(self.nothing());
        }
        WorkerEffect {
            action: self.gives_start_up(),
            ends: EndAct::None,
            fails: true,
        }
    }

    fn stops(&mut self) -> WorkerEffect
        ensures machine { self.new ≡ machine_after self.old input.Ended }
        ensures effect { result ≡ effect_of self.old input.Ended }
        ensures one { result.action.process ≡ process_act.Start → self.new.running ≡ false }
        ensures asked { result.ends ≡ end_act.Kill → self.old.asked ≡ true }
    {
        if !self.is_running {
            return does(self.nothing());
        }
        self.is_running = false;
        self.deadline.stop();
        if self.is_over {
            return does(self.nothing());
        }
        let mut action = self.hear(WorkerEvent::Stopped);
        action.gives_up = action.gives_up && !self.is_asked;
        does(action)
    }

    fn ticks(&mut self, is_wanted: bool, has_build: bool) -> WorkerEffect
        ensures machine { self.new ≡ machine_after self.old (input.Tick is_wanted has_build) }
        ensures effect { result ≡ effect_of self.old (input.Tick is_wanted has_build) }
        ensures one { result.action.process ≡ process_act.Start → self.new.running ≡ false }
        ensures asked { result.ends ≡ end_act.Kill → self.old.asked ≡ true }
    {
        if self.state.is_needless(is_wanted) {
            self.must_end();
        }
        let ends = self.tick_program();
        let action = if self.is_over {
            self.nothing()
        } else if self.is_starting {
            self.tries_again(is_wanted)
        } else {
            let has_build = self.state.is_occupied(is_wanted, has_build);
            self.hear(WorkerEvent::Tick { has_build })
        };
        WorkerEffect {
            action,
            ends,
            fails: false,
        }
    }

    // A tick more for the program that is to end, and for the one that is to start.
    fn tick_program(&mut self) -> EndAct
        ensures machine { self.new ≡ ticked self.old }
        ensures ends { result ≡ act_at (after_tick self.old.deadline) }
        ensures asked { result ≡ end_act.Kill → self.old.asked ≡ true }
    {
        if self.is_starting {
            self.tries.tick();
        }
        let ends = self.deadline.tick();
        self.is_asked = self.is_asked || ends != EndAct::None;
        ends
    }

    // The program that could not be started is to be started again, where a build waits for it.
    fn tries_again(&mut self, is_wanted: bool) -> WorkerAction
        requires { self.old.starting ≡ true }
        ensures machine { self.new ≡ (if is_wanted then self.old else heard (unstarted self.old) (fault self.old)) }
        ensures action { result ≡ (if is_wanted
            then record { ready = is_ready self.old.known; process = process_act.Start; gives_up = false }
            else answer (unstarted self.old) (fault self.old)) }
        ensures one { result.process ≡ process_act.Start → self.new.running ≡ false }
    {
        if !is_wanted {
            return self.gives_start_up();
        }
        WorkerAction {
            ready: self.state.is_ready(),
            process: ProcessAction::Start,
            gives_up: false,
        }
    }

    // The master ends. A worker whose login isn't heard yet counts as not there: it ends with its
    // program.
    fn ends(&mut self) -> WorkerEffect
        ensures machine { self.new ≡ machine_after self.old input.Over }
        ensures effect { result ≡ effect_of self.old input.Over }
        ensures one { result.action.process ≡ process_act.Start → self.new.running ≡ false }
        ensures asked { result.ends ≡ end_act.Kill → self.old.asked ≡ true }
    {
        self.must_end();
        let mut action = self.nothing();
        let is_there = self.state.is_there();
        if self.is_running && !self.is_over && !self.is_dismissed && is_there {
            action.process = ProcessAction::Shutdown;
        }
        self.is_dismissed = self.is_dismissed || self.is_running && is_there;
        self.is_over = true;
        does(action)
    }

    /// Whether the worker takes builds.
    pub fn is_ready(&self) -> bool
        ensures { result ≡ is_ready self.now.known }
    {
        self.state.is_ready()
    }

    /// Whether a program was started whose end was not told.
    pub fn is_running(&self) -> bool
        ensures { result ≡ self.now.running }
    {
        self.is_running
    }

    /// Whether the worker was told to shut down, and hasn't gone or logged in since.
    pub fn is_dismissed(&self) -> bool
        ensures { result ≡ self.now.dismissed }
    {
        self.is_dismissed
    }

    /// Whether ticks are to be told.
    pub fn is_timed(&self) -> bool
        ensures { result ≡ is_machine_timed self.now }
    {
        self.is_starting || self.is_running || self.state.is_timed()
    }
}
