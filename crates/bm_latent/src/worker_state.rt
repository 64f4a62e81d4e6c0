//! What a build master knows of one worker.

ghost use Rattle.std.specs.Prelude.{◌≡◌, ◌≤◌, Some, None};
ghost use Rattle.bm_latent.specs.declared.event.LatentState;
ghost use Rattle.bm_latent.specs.WorkerState.{act_of, action_of, gives_up, is_needless, is_occupied, is_ready, is_there, is_timed, is_to_stop, known_after, latent_after, newcomer, process_action};

use crate::event::{Act, LatentEvent, LatentState};
use crate::machine::Latent;
use crate::worker_event::{ProcessAction, WorkerAction, WorkerEvent};
use std::marker::Model;

/// What a build master knows of one worker. One that isn't latent takes builds while its connection
/// is attached. One that is latent takes them while it is substantiated. Its process is started
/// once a build waits for it. Its worker is told to shut down once it has been idle for long
/// enough. A worker whose process ends while it is attached goes on until its connection ends.
#[derive(Drop)]
pub struct WorkerState {
    latent: Option<Latent>,
    attached: bool,
    running: bool,
    full: bool,
}

impl Model for WorkerState {
    ghost use Rattle.bm_latent.specs.WorkerState.{WorkerView};

    ghost Value = { WorkerView };

    ghost view = { λ w. record {
      latent = w.latent;
      attached = w.attached;
      running = w.running;
      full = w.full;
    } };
}

impl WorkerState {
    /// A worker that connects by itself, and has not yet.
    pub fn plain() -> WorkerState
        ensures { result ≡ newcomer None }
    {
        WorkerState {
            latent: None,
            attached: false,
            running: false,
            full: false,
        }
    }

    /// A worker whose process is started on demand, and stopped after `idle_ticks` ticks without a
    /// build.
    pub fn latent(idle_ticks: u32) -> WorkerState
        requires { 1 ≤ idle_ticks }
        ensures { result
            ≡ newcomer (Some (record { state = LatentState.Not; idle = 0; limit = idle_ticks })) }
    {
        WorkerState {
            latent: Some(Latent::new(idle_ticks)),
            attached: false,
            running: false,
            full: false,
        }
    }

    /// Something happened to the worker. Answers what is to be done.
    pub fn hear(&mut self, event: WorkerEvent) -> WorkerAction
        ensures worker { self.new ≡ known_after self.old event }
        ensures action { result ≡ action_of self.old event }
    {
        let gives_up = self.gives_up(event);
        let act = self.tell_machine(event);
        self.attached = match event {
            WorkerEvent::Attached => true,
            WorkerEvent::Cut | WorkerEvent::Lost => false,
            _ => self.attached,
        };
        self.running = match event {
            WorkerEvent::Started => true,
            WorkerEvent::Failed | WorkerEvent::Stopped => false,
            _ => self.running,
        };
        self.full = self.full || event == WorkerEvent::Filled;
        WorkerAction {
            ready: self.is_ready(),
            process: self.process_action(event, act),
            gives_up,
        }
    }

    // Tells the machine of a latent worker what it is to hear of the event. Answers what it asks
    // for.
    fn tell_machine(&mut self, event: WorkerEvent) -> Act
        ensures worker { self.new ≡ record {
          latent = latent_after self.old event;
          attached = self.old.attached;
          running = self.old.running;
          full = self.old.full;
        } }
        ensures act { result ≡ act_of self.old event }
    {
        let Some(latent) = &mut self.latent else {
            return Act::None;
        };
        match event {
            WorkerEvent::Wanted if self.full => Act::None,
            WorkerEvent::Wanted => latent.step(LatentEvent::Want),
            WorkerEvent::Started => latent.step(LatentEvent::Started),
            WorkerEvent::Failed => latent.step(LatentEvent::Failed),
            WorkerEvent::Attached => latent.step(LatentEvent::Attached),
            WorkerEvent::Cut => latent.step(LatentEvent::Cut),
            WorkerEvent::Lost if self.running => latent.step(LatentEvent::Lost),
            WorkerEvent::Lost => {
                latent.step(LatentEvent::Lost);
                latent.step(LatentEvent::Stopped)
            }
            WorkerEvent::Stopped if self.attached => Act::None,
            WorkerEvent::Stopped => latent.step(LatentEvent::Stopped),
            WorkerEvent::Tick { has_build: false } => latent.step(LatentEvent::IdleTick),
            WorkerEvent::Filled | WorkerEvent::Tick { has_build: true } => Act::None,
        }
    }

    // Whether the builds that wait are given up: before the machine hears of it.
    fn gives_up(&self, event: WorkerEvent) -> bool
        ensures { result ≡ gives_up self.now event }
    {
        match event {
            WorkerEvent::Wanted => self.full,
            WorkerEvent::Failed | WorkerEvent::Filled => true,
            WorkerEvent::Stopped => match &self.latent {
                Some(latent) => latent.state() == LatentState::Substantiating,
                None => false,
            },
            _ => false,
        }
    }

    // What is to be done with the process: the machine has heard of the event. One that connects
    // though it was to be stopped, or without a process of ours, is told to shut down. Else its
    // process would not end, or builds would wait for the end of one that is gone.
    fn process_action(&self, event: WorkerEvent, act: Act) -> ProcessAction
        ensures { result ≡ process_action self.now event act }
    {
        if act == Act::Start {
            return ProcessAction::Start;
        }
        let is_dismissed = match event {
            WorkerEvent::Attached => self.is_stopping(),
            _ => self.attached && act == Act::Stop,
        };
        if is_dismissed {
            ProcessAction::Shutdown
        } else {
            ProcessAction::None
        }
    }

    /// Whether the worker is to stop, and its process has not ended.
    pub fn is_stopping(&self) -> bool
        ensures { result ≡ is_to_stop self.now }
    {
        match &self.latent {
            Some(latent) => match latent.state() {
                LatentState::Insubstantiating | LatentState::Waiting => true,
                _ => false,
            },
            None => false,
        }
    }

    /// Whether the worker is there: attached, or cut with a session that may be resumed.
    pub fn is_there(&self) -> bool
        ensures { result ≡ is_there self.now }
    {
        let is_held = match &self.latent {
            Some(latent) => latent.state() == LatentState::Held,
            None => false,
        };
        self.attached || is_held
    }

    /// Whether the worker takes builds.
    pub fn is_ready(&self) -> bool
        ensures { result ≡ is_ready self.now }
    {
        !self.full
            && match &self.latent {
                Some(latent) => latent.state() == LatentState::Substantiated,
                None => self.attached,
            }
    }

    /// Whether it has a build, or one waits that it may still take. `is_wanted`: a build waits.
    pub fn is_occupied(&self, is_wanted: bool, has_build: bool) -> bool
        ensures { result ≡ is_occupied self.now is_wanted has_build }
    {
        has_build || (is_wanted && !self.full)
    }

    /// Whether the worker's process is to be ended, since no build waits for its login any more.
    /// None comes to want it again: all builds are there from the start, and one that waits for a
    /// lock counts as waiting.
    pub fn is_needless(&self, is_wanted: bool) -> bool
        ensures { result ≡ is_needless self.now is_wanted }
    {
        !is_wanted
            && self.running
            && match &self.latent {
                Some(latent) => latent.state() == LatentState::Substantiating,
                None => false,
            }
    }

    /// Whether ticks are to be told: while the worker's process runs, whose end is to be seen, and
    /// while idle ticks count.
    pub fn is_timed(&self) -> bool
        ensures { result ≡ is_timed self.now }
    {
        self.running
            || match &self.latent {
                Some(latent) => latent.state() == LatentState::Substantiated,
                None => false,
            }
    }
}
