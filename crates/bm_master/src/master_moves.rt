//! The moves of a master's machine: what it has done next.

ghost use Rattle.std.specs.Prelude.{◌≡◌, ◌<◌, ◌-◌, Some, None, false};
ghost use Rattle.std.specs.List.{list_any};
ghost use Rattle.bm_operator.specs.WaitNotice.{is_pending};
ghost use Rattle.bm_master.specs.Held.{is_free};
ghost use Rattle.bm_master.specs.Masters.{Follows};

use crate::build_start::StartFate;
use crate::known_worker::WorkerAct;
use crate::master::{Agenda, Master};
use crate::master_flow::{FlowInput, FlowStep};
use crate::values::{MasterEffect, MasterRemark};
use bm_lane::Yard;
use bm_latent::{WorkerEvent, WorkerInput};

impl<Y: Yard> Master<Y> {
    /// What is to be done next, at this time of some clock in milliseconds. None where it failed.
    pub fn next_effect(&mut self, now_ms: Option<u64>) -> MasterEffect<Y>
        ensures { Follows self.old self.new result }
    {
        if let Some(remark) = self.tells {
            self.tells = None;
            return MasterEffect::Tell(remark);
        }
        if let Some(build) = self.cancels {
            self.cancels = None;
            return MasterEffect::CancelBuild(build);
        }
        if let Some(worker) = self.ended {
            self.ended = None;
            return MasterEffect::TellEnded(worker);
        }
        if self.owes {
            return self.next_owed();
        }
        match self.agenda {
            Agenda::Look if self.hears => {
                self.hears = false;
                MasterEffect::Hear
            }
            Agenda::Look => self.looks(),
            Agenda::Program(at) => self.looks_at_program(at),
            Agenda::Tick(at) => self.ticks(at),
            Agenda::Want { at, starts } => self.wants(at, starts),
            Agenda::Start(left) => self.starts(left),
            Agenda::Notice { at, waits } => self.notices(at, waits, now_ms),
            Agenda::End(at) => self.ends(at),
        }
    }

    // The first thing that is owed to a worker is done.
    fn next_owed(&mut self) -> MasterEffect<Y>
        ensures { Follows self.old self.new result }
    {
        let Some(at) = self.workers.iter().position(|worker| worker.owes()) else {
            self.owes = false;
            return MasterEffect::Nothing;
        };
        let Some(worker) = self.workers.get_mut(at) else {
            return MasterEffect::Nothing;
        };
        let act = worker.first();
        if act == WorkerAct::GiveUp
            && let Some(build) = self.builds.give_up_one(at)
        {
            let Some(result) = self.builds.result(build) else {
                return MasterEffect::Nothing;
            };
            return MasterEffect::Tell(MasterRemark::BuildEnded { build, result });
        }
        worker.is_done();
        match act {
            WorkerAct::Nothing | WorkerAct::GiveUp => MasterEffect::Nothing,
            WorkerAct::End(act) => MasterEffect::EndProgram(at, act),
            WorkerAct::Start => MasterEffect::StartProgram(at),
            WorkerAct::ShutDown => MasterEffect::ShutDown(at),
        }
    }

    // Slots are given back before all else. Then it goes by the flow of its work.
    fn looks(&mut self) -> MasterEffect<Y>
        ensures { Follows self.old self.new result }
    {
        if let Some(left) = self.unheard {
            return self.listens(left);
        }
        if self.looks && self.sees_free() {
            return self.counts();
        }
        match self.flow.take() {
            FlowStep::Start => {
                self.agenda = Agenda::Want {
                    at: 0,
                    starts: true,
                };
                MasterEffect::Nothing
            }
            FlowStep::Report => MasterEffect::Report,
            FlowStep::Wait if self.is_waited_for() => {
                self.agenda = Agenda::Notice { at: 0, waits: true };
                MasterEffect::Nothing
            }
            FlowStep::Wait => self.waits(),
            FlowStep::Leave => {
                self.builds.release_all();
                MasterEffect::Leave
            }
        }
    }

    // The events that lay ready at the count are heard. Then the builds that were free at the look
    // before it give their slots back. A loss that ended the last command of one lay ready before
    // that end was seen. So it was heard, and no build is started on the worker that was lost.
    // However many events come meanwhile, no more than those are heard before.
    fn listens(&mut self, left: u64) -> MasterEffect<Y>
        requires { self.old.unheard ≡ Some left }
        ensures follows { Follows self.old self.new result }
        ensures heard { left ≡ 0 → self.new.unheard ≡ None }
        ensures kept { 0 < left → self.new ≡ record self.old { unheard = Some (left - 1) } }
    {
        if left > 0 {
            self.unheard = Some(left - 1);
            return MasterEffect::Listen;
        }
        self.unheard = None;
        if self.builds.release_free() {
            self.flow.hears(FlowInput::Changed);
        }
        MasterEffect::Nothing
    }

    // The builds that hold their slots are looked at. Whether one is free.
    fn sees_free(&mut self) -> bool
        ensures free { result ≡ list_any is_free self.new.builds.held.places }
        ensures rest { self.new ≡ record self.old { builds = self.new.builds; looks = false } }
        ensures queue { self.new.builds.queue ≡ self.old.builds.queue }
    {
        self.looks = false;
        self.builds.look();
        self.builds.has_free()
    }

    // It is counted how many events lie ready.
    fn counts(&mut self) -> MasterEffect<Y>
        ensures effect { result ≡ MasterEffect.Count self.new.timed }
        ensures rest { self.new ≡ record self.old { timed = self.new.timed } }
    {
        self.is_timed = self.has_timed();
        MasterEffect::Count {
            is_timed: self.is_timed,
        }
    }

    // Whether something waits for ticks.
    fn has_timed(&self) -> bool {
        self.builds.is_timed() || self.workers.iter().any(|worker| worker.is_timed())
    }

    // Whether it is to be looked again soon who waits.
    fn is_waited_for(&self) -> bool
        ensures { result ≡ list_any (λ w. is_pending w.waits) self.now.workers }
    {
        self.workers.iter().any(|worker| worker.is_waited_for())
    }

    // The next event is waited for.
    fn waits(&mut self) -> MasterEffect<Y>
        ensures effect { result ≡ MasterEffect.Wait self.new.timed
            (list_any (λ w. is_pending w.waits) self.new.workers) }
    {
        self.agenda = Agenda::Look;
        self.is_timed = self.has_timed();
        MasterEffect::Wait {
            is_timed: self.is_timed,
            is_counted: self.is_waited_for(),
        }
    }

    // It is looked whether a program has ended.
    fn looks_at_program(&mut self, at: usize) -> MasterEffect<Y>
        ensures { Follows self.old self.new result }
    {
        self.agenda = Agenda::Tick(at);
        match self.workers.get(at) {
            Some(worker) if worker.is_running() => MasterEffect::LookAtProgram(at),
            _ => MasterEffect::Nothing,
        }
    }

    // A tick is told to a worker; behind the last one a tick is over.
    fn ticks(&mut self, at: usize) -> MasterEffect<Y>
        ensures { result ≡ MasterEffect.Nothing }
    {
        if at < self.workers.len() {
            let is_wanted = self.builds.is_wanted(at);
            let has_build = self.builds.has_build(at);
            self.hears(
                at,
                WorkerInput::Tick {
                    is_wanted,
                    has_build,
                },
            );
            self.agenda = Agenda::Program(at.saturating_add(1));
        } else {
            self.builds.tick();
            self.ticks = self.ticks.saturating_sub(1);
            self.agenda = Agenda::Want {
                at: 0,
                starts: false,
            };
        }
        MasterEffect::Nothing
    }

    // A worker is told where a build waits for it. Behind the last one builds are started, or the
    // next tick is told.
    fn wants(&mut self, at: usize, starts: bool) -> MasterEffect<Y>
        ensures { result ≡ MasterEffect.Nothing }
    {
        if at < self.workers.len() {
            if self.builds.is_wanted(at) {
                self.hears(at, WorkerInput::Happened(WorkerEvent::Wanted));
            }
            let at = at.saturating_add(1);
            self.agenda = Agenda::Want { at, starts };
        } else {
            self.agenda = if starts {
                Agenda::Start(self.builds.count())
            } else if self.ticks > 0 {
                Agenda::Program(0)
            } else {
                Agenda::Look
            };
        }
        MasterEffect::Nothing
    }

    // The next build is started.
    fn starts(&mut self, left: u64) -> MasterEffect<Y>
        ensures { Follows self.old self.new result }
    {
        if left > 0
            && let Some(build) = self.builds.next()
        {
            self.agenda = Agenda::Start(left - 1);
            let fate = build.fate();
            if fate == StartFate::Try {
                return MasterEffect::StartBuild(build);
            }
            let number = self.builds.ends_unrun(build, fate == StartFate::Failed);
            self.looks = true;
            self.tells_end(number);
            return MasterEffect::Nothing;
        }
        let is_over = self.builds.is_over();
        self.flow.hears(FlowInput::Started { is_over });
        self.agenda = Agenda::Notice {
            at: 0,
            waits: false,
        };
        MasterEffect::Nothing
    }

    // It is told where a build has waited for a second for a worker that isn't there.
    fn notices(&mut self, at: usize, waits: bool, now_ms: Option<u64>) -> MasterEffect<Y>
        ensures { Follows self.old self.new result }
    {
        let has_wait = self.builds.is_wanted(at) && !self.builds.has_build(at);
        if let Some(now_ms) = now_ms
            && let Some(worker) = self.workers.get_mut(at)
        {
            self.agenda = Agenda::Notice {
                at: at.saturating_add(1),
                waits,
            };
            if worker.has_waited(now_ms, has_wait)
                && let Some(build) = self.builds.first_waiting(at)
            {
                return MasterEffect::Tell(MasterRemark::BuildWaits { build, worker: at });
            }
            return MasterEffect::Nothing;
        }
        if waits {
            return self.waits();
        }
        self.agenda = Agenda::Look;
        MasterEffect::Nothing
    }

    // A worker is told that the master ends.
    fn ends(&mut self, at: usize) -> MasterEffect<Y>
        ensures { result ≡ MasterEffect.Nothing }
    {
        if at < self.workers.len() {
            self.hears(at, WorkerInput::Over);
            self.agenda = Agenda::End(at.saturating_add(1));
        } else {
            self.agenda = Agenda::Look;
        }
        MasterEffect::Nothing
    }
}
