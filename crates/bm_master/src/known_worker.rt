//! A worker as the master's machine keeps it, with what is still to be done about it.

ghost use Rattle.std.specs.Prelude.{◌≡◌, ◌&&◌, not};
ghost use Rattle.bm_latent.specs.WorkerMachine.{effect_of, fresh, is_machine_timed, machine_after};
ghost use Rattle.bm_latent.specs.WorkerState.{is_ready};
ghost use Rattle.bm_operator.specs.WaitNotice.{is_due, is_pending, no_notice, notice_after};
ghost use Rattle.bm_master.specs.KnownWorkers.{first_of, nothing_owed, owed_with, owes, without_first};

use bm_latent::{EndAct, ProcessAction, WorkerEffect, WorkerInput, WorkerMachine, WorkerState};
use bm_operator::WaitNotice;
use std::marker::Model;

/// What is to be done about a worker next.
#[derive(Clone, Copy, PartialEq, Eq)]
pub enum WorkerAct {
    Nothing,
    /// Its program is asked to end, or killed.
    End(EndAct),
    /// Each build that waits for it is given up.
    GiveUp,
    /// Its program is to be started.
    Start,
    /// It is told to shut down.
    ShutDown,
}

/// What is to be done about a worker, in this order.
#[derive(Clone, Copy, PartialEq, Eq)]
pub struct OwedActs {
    pub ends: EndAct,
    pub gives_up: bool,
    pub process: ProcessAction,
}

/// Nothing is to be done.
fn nothing_owed() -> OwedActs
    ensures { result ≡ nothing_owed }
{
    OwedActs {
        ends: EndAct::None,
        gives_up: false,
        process: ProcessAction::None,
    }
}

impl OwedActs {
    /// This comes on top. Nothing that was to be done before is forgotten.
    fn with(self, effect: WorkerEffect) -> OwedActs
        ensures { result ≡ owed_with self effect }
    {
        OwedActs {
            ends: if effect.ends == EndAct::None {
                self.ends
            } else {
                effect.ends
            },
            gives_up: self.gives_up || effect.action.gives_up,
            process: if effect.action.process == ProcessAction::None {
                self.process
            } else {
                effect.action.process
            },
        }
    }

    /// What is to be done first.
    fn first(self) -> WorkerAct
        ensures { result ≡ first_of self }
    {
        if self.ends != EndAct::None {
            return WorkerAct::End(self.ends);
        }
        if self.gives_up {
            return WorkerAct::GiveUp;
        }
        match self.process {
            ProcessAction::None => WorkerAct::Nothing,
            ProcessAction::Start => WorkerAct::Start,
            ProcessAction::Shutdown => WorkerAct::ShutDown,
        }
    }

    /// What is left behind that.
    fn without_first(self) -> OwedActs
        ensures { result ≡ without_first self }
    {
        if self.ends != EndAct::None {
            return OwedActs {
                ends: EndAct::None,
                ..self
            };
        }
        if self.gives_up {
            return OwedActs {
                gives_up: false,
                ..self
            };
        }
        nothing_owed()
    }
}

/// A worker: the machine that decides what is done with it, and what of that is still to be done.
#[derive(Drop)]
pub struct KnownWorker {
    machine: WorkerMachine,
    /// When it is told that a build waits for it.
    waits: WaitNotice,
    owed: OwedActs,
}

impl Model for KnownWorker {
    ghost use Rattle.bm_master.specs.KnownWorkers.{KnownView};

    ghost Value = { KnownView };

    ghost view = { λ w. record { machine = w.machine; waits = w.waits; owed = w.owed } };
}

impl KnownWorker {
    /// A worker of which this is known, and nothing was heard.
    pub fn new(state: WorkerState) -> KnownWorker
        ensures { result ≡ record {
          machine = fresh state;
          waits = no_notice;
          owed = nothing_owed;
        } }
    {
        KnownWorker {
            machine: WorkerMachine::new(state),
            waits: WaitNotice::new(),
            owed: nothing_owed(),
        }
    }

    /// Takes an input. What follows is to be done besides what was.
    pub fn step(&mut self, input: WorkerInput) -> WorkerEffect
        ensures effect { result ≡ effect_of self.old.machine input }
        ensures worker { self.new ≡ record self.old {
          machine = machine_after self.old.machine input;
          owed = owed_with self.old.owed (effect_of self.old.machine input);
        } }
    {
        let effect = self.machine.step(input);
        self.owed = self.owed.with(effect);
        effect
    }

    /// Whether anything is to be done about it.
    pub fn owes(&self) -> bool
        ensures { result ≡ owes self.now.owed }
    {
        self.owed.first() != WorkerAct::Nothing
    }

    /// What is to be done first.
    pub fn first(&self) -> WorkerAct
        ensures { result ≡ first_of self.now.owed }
    {
        self.owed.first()
    }

    /// That is done.
    pub fn is_done(&mut self)
        ensures { self.new ≡ record self.old { owed = without_first self.old.owed } }
    {
        self.owed = self.owed.without_first();
    }

    /// Notes whether a build waits for it now. True once a wait has lasted for a second, told once.
    pub fn has_waited(&mut self, now_ms: u64, has_wait: bool) -> bool
        ensures due { result ≡ is_due self.old.waits now_ms (has_wait && not (is_ready self.old.machine.known)) }
        ensures worker { self.new ≡ record self.old {
          waits = notice_after self.old.waits now_ms
              (has_wait && not (is_ready self.old.machine.known));
        } }
    {
        let waits = has_wait && !self.machine.is_ready();
        self.waits.look(now_ms, waits)
    }

    /// Whether a build waits for it, and that wasn't told.
    pub fn is_waited_for(&self) -> bool
        ensures { result ≡ is_pending self.now.waits }
    {
        self.waits.is_pending()
    }

    /// Whether it takes builds.
    pub fn is_ready(&self) -> bool
        ensures { result ≡ is_ready self.now.machine.known }
    {
        self.machine.is_ready()
    }

    /// Whether something of it waits for ticks.
    pub fn is_timed(&self) -> bool
        ensures { result ≡ is_machine_timed self.now.machine }
    {
        self.machine.is_timed()
    }

    /// Whether a program was started whose end was not told.
    pub fn is_running(&self) -> bool
        ensures { result ≡ self.now.machine.running }
    {
        self.machine.is_running()
    }

    /// Whether it was told to shut down, and hasn't gone or logged in since.
    pub fn is_dismissed(&self) -> bool
        ensures { result ≡ self.now.machine.dismissed }
    {
        self.machine.is_dismissed()
    }
}
