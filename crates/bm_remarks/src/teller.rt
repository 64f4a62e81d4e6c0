//! What the coordinator tells the operator.

ghost use Rattle.std.specs.Prelude.{◌≡◌, true, false, IfNone};
ghost use Rattle.bm_operator.specs.RateLimit.{is_left_out};
ghost use Rattle.bm_operator.specs.RefusalLimit.{has_told, no_refusals};
ghost use Rattle.bm_lane_actor.specs.LaneEvents.{declines};
ghost use Rattle.bm_remarks.specs.Refusals.{HearsIf, IsHeard, Notes, taken_before, with_left_out};

use crate::first_remarks::tell_first;
use crate::remarks::Remarks;
use crate::reports::{RefusedConnection, ReportedStep};
use crate::tellings::{master_remark, name_at, step_at, step_remark};
use bm_config::{Config, UnknownKey, WorkerConfig};
use bm_lane_actor::{LaneEvent, declines, refusal_remark, remark_of};
use bm_latent::millis;
use bm_lines::Text;
use bm_master::MasterRemark;
use bm_operator::{RefusalLimit, Remark};
use std::alloc::Global;
use std::sync::Wait;
use std::time::{Clock, Duration, Instant};

/// How many refused connections are told one by one in a second.
const MOST_REFUSALS: u32 = 10;

/// What the coordinator tells by.
#[derive(Drop)]
pub struct Teller {
    alloc: Global,
    /// Where remarks are told, where there is a thread that writes them.
    remarks: Option<Remarks>,
    /// Which refused connections are told one by one.
    refusals: RefusalLimit,
    /// When it began. None before, and where the clock failed.
    began: Option<Instant>,
}

impl Teller {
    ghost use Rattle.std.specs.Prelude.{None};

    /// It has told nothing, and hasn't begun.
    pub fn new(alloc: Global, remarks: Option<Remarks>) -> Teller
        ensures remarks { result.remarks ≡ remarks }
        ensures refusals { result.refusals ≡ no_refusals 10 }
        ensures begun { result.began ≡ None }
    {
        Teller {
            alloc,
            remarks,
            refusals: RefusalLimit::new(alloc, MOST_REFUSALS),
            began: None,
        }
    }

    /// Tells what a configuration has, and the keys that nobody reads.
    pub fn tell_first<R: Wait + Clock>(&self, rt: &R, config: &Config, unknown: &[UnknownKey]) {
        if let Some(remarks) = &self.remarks {
            tell_first(rt, self.alloc, remarks, config, unknown);
        }
    }

    /// It begins now: from here its time counts.
    pub fn begin<R: Clock>(&mut self, rt: &R)
        ensures { self.new ≡ record self.old { began = self.new.began } }
    {
        self.began = Instant::now(rt).ok();
    }

    /// Ends the thread that writes remarks.
    pub fn end<R: Wait + Clock>(&mut self, rt: &R)
        ensures { self.new ≡ record self.old { remarks = None } }
    {
        if let Some(remarks) = self.remarks.take() {
            remarks.end(rt);
        }
    }

    // How long it is there. None where the clock fails.
    fn age<R: Clock>(&self, rt: &R) -> Option<Duration>
        ensures { IfNone self.now.began (result ≡ None) }
    {
        match self.began {
            Some(began) => began.elapsed(rt).ok(),
            None => None,
        }
    }

    /// How many milliseconds it is there. None where the clock fails.
    pub fn now_ms<R: Clock>(&self, rt: &R) -> Option<u64>
        ensures { IfNone self.now.began (result ≡ None) }
    {
        match self.age(rt) {
            Some(age) => Some(millis(age)),
            None => None,
        }
    }

    // How many whole seconds it is there; none where the clock fails.
    fn second<R: Clock>(&self, rt: &R) -> u64
        ensures { IfNone self.now.began (result ≡ 0) }
    {
        match self.age(rt) {
            Some(age) => age.as_secs(),
            None => 0,
        }
    }

    /// Hands the remark to the thread that writes it. Without such a thread it is dropped.
    pub fn remark<R: Wait + Clock>(&self, rt: &R, remark: &Remark<'_>) {
        if let Some(remarks) = &self.remarks {
            remarks.tell(rt, remark);
        }
    }

    /// Tells what the master's machine says.
    pub fn tell<R: Wait + Clock>(&self, rt: &R, workers: &[WorkerConfig], remark: MasterRemark) {
        self.remark(rt, &master_remark(remark, workers));
    }

    /// Tells what happened to a step of a build.
    pub fn tell_step<R: Wait + Clock>(&self, rt: &R, config: &Config, reported: &ReportedStep) {
        let (builds, workers) = (config.builds.as_slice(), config.workers.as_slice());
        self.remark(
            rt,
            &step_remark(reported, step_at(reported), builds, workers),
        );
    }

    /// Whether refused connections are counted that are still to be told.
    pub fn is_left_out(&self) -> bool
        ensures { result ≡ is_left_out self.now.refusals.limit }
    {
        self.refusals.is_left_out()
    }

    /// Tells how many refused connections were not told one by one in seconds that are over.
    pub fn tell_left_out<R: Wait + Clock>(&mut self, rt: &R)
        ensures count { self.new.refusals
            ≡ with_left_out self.new.refusals.limit.left_out self.old.refusals }
        ensures none { is_left_out self.old.refusals.limit ≡ false
            → self.new.refusals ≡ self.old.refusals }
    {
        if self.is_left_out() {
            let second = self.second(rt);
            self.tell_left_out_before(rt, second);
        }
    }

    /// Tells how many were not told one by one, once none comes any more.
    pub fn tell_all_left_out<R: Wait + Clock>(&mut self, rt: &R)
        ensures { self.new.refusals
            ≡ with_left_out self.new.refusals.limit.left_out self.old.refusals }
    {
        let second = self.second(rt);
        self.tell_left_out_before(rt, second.wrapping_add(1));
    }

    // Tells how many were not told one by one in seconds before this one.
    fn tell_left_out_before<R: Wait + Clock>(&mut self, rt: &R, second: u64)
        ensures { self.new.refusals ≡ taken_before second self.old.refusals }
    {
        let count = self.refusals.take_left_out(second);
        if count > 0 {
            self.remark(rt, &Remark::MoreRefused { count });
        }
    }

    // Whether a refused connection is told, by whose login it had this name.
    fn tells_refused<R: Wait + Clock>(&mut self, rt: &R, name: &Option<Text>) -> bool
        ensures told { result ≡ true → has_told name.now self.new.refusals.names ≡ false }
        ensures counted { result ≡ false → is_left_out self.new.refusals.limit ≡ true }
        ensures heard { IsHeard self.new.refusals.limit }
    {
        self.tell_left_out(rt);
        let second = self.second(rt);
        self.refusals.tells(second, name)
    }

    // Notes the name of a refused connection that was told. Where it can't be kept, another one of
    // it is told too.
    fn note_refused(&mut self, is_told: bool, name: Option<Text>)
        ensures { Notes is_told name self.old.refusals self.new.refusals }
    {
        match name {
            Some(name) if is_told => {
                let _ = self.refusals.note(name);
            }
            other => drop(other),
        }
    }

    /// A connection was not taken up.
    pub fn hear_refused<R: Wait + Clock>(&mut self, rt: &R, refused: RefusedConnection)
        ensures { IsHeard self.new.refusals.limit }
    {
        let RefusedConnection { from, name, why } = refused;
        let is_told = self.tells_refused(rt, &name);
        if is_told {
            self.remark(rt, &refusal_remark(&name, from, why));
        }
        self.note_refused(is_told, name);
    }

    // A login was declined at the lane of the worker of this name.
    fn tell_declined<R: Wait + Clock>(&mut self, rt: &R, worker: &str, event: LaneEvent)
        ensures { IsHeard self.new.refusals.limit }
    {
        let name = Text::from_str(self.alloc, worker).ok();
        let is_told = self.tells_refused(rt, &name);
        if is_told {
            self.tell_event(rt, worker, event, false);
        }
        self.note_refused(is_told, name);
    }

    // Tells an event of the lane of the worker of this name.
    fn tell_event<R: Wait + Clock>(
        &self,
        rt: &R,
        worker: &str,
        event: LaneEvent,
        is_dismissed: bool,
    ) {
        if let Some(remark) = remark_of(event, is_dismissed, worker) {
            self.remark(rt, &remark);
        }
    }

    /// Tells what happened to the lane of the worker at this place. `is_dismissed`: the worker was
    /// told to shut down.
    pub fn tell_lane<R: Wait + Clock>(
        &mut self,
        rt: &R,
        workers: &[WorkerConfig],
        at: usize,
        event: LaneEvent,
        is_dismissed: bool,
    )
        ensures { HearsIf (declines event) self.old.refusals self.new.refusals }
    {
        let worker = name_at(workers, at);
        if declines(event) {
            return self.tell_declined(rt, worker, event);
        }
        self.tell_event(rt, worker, event, is_dismissed);
    }
}
