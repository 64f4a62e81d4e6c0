//! The links of a lane's actor: which one it has, and whether that one's worker lives.

ghost use Rattle.std.specs.Prelude.{◌≡◌, None, Some};
ghost use Rattle.bm_session.specs.Trace.{is_up};
ghost use Rattle.bm_lane_actor.specs.LaneActors.{Admits, AdmitsFirst, Asks, Comes, Does, DoesLink, DoesSecond, Follows, HearsLogin, Looks, LooksAgain, LooksFirst, Places, TakesTurn, Watches, Welcomes, is_first_own, ticks_heard, with_ticks, with_waiting};
ghost use Rattle.bm_lane_actor.specs.LanePolicy.{is_read};
ghost use Rattle.bm_lane_actor.specs.declared.lane_policy.SecondAct.TheVariants as second;

use crate::connection_state::ConnectionState;
use crate::lane_actor::LaneActor;
use crate::lane_event::{EventSink, LaneEvent, failed_login, greeting};
use crate::lane_policy::{LaneActs, LaneInput, LinkAct, SecondAct};
use crate::placing::put;
use crate::stream::WorkerStream;
use bm_lane::Yard;
use bm_latent::millis;
use bm_link::{Attached, LinkFault, MasterLink};
use std::io::{Read, Write};
use std::net::SocketAddr;
use std::sync::Wait;
use std::time::Clock;

impl<'a, Y, T, R> LaneActor<'a, Y, T, R>
where
    Y: Yard,
    T: EventSink + Drop,
    R: Wait + Clock + Drop,
{
    /// How long the actor is there, in milliseconds. None where the clock fails.
    pub(crate) fn age(&self) -> Option<u64>
        ensures { self.now.began ≡ None → result ≡ None }
    {
        let passed = match &self.began {
            Some(began) => began.elapsed(self.rt),
            None => return None,
        };
        match passed {
            Ok(passed) => Some(millis(passed)),
            Err(_) => None,
        }
    }

    /// The time in milliseconds, for the policy.
    pub(crate) fn now(&self) -> u64
        ensures { self.now.began ≡ None → result ≡ 0 }
    {
        self.age().unwrap_or(0)
    }

    /// Whether the lane has a link.
    pub(crate) fn is_up(&self) -> bool
        ensures { result ≡ is_up self.now.state.lane.trace }
    {
        self.state.connection() == ConnectionState::Up
    }

    /// An input comes to the policy: what follows is done.
    pub(crate) fn follows(&mut self, input: LaneInput)
        ensures { Follows ⟦<WorkerStream<R> as Read>⟧.remaining
            ⟦<WorkerStream<R> as Write>⟧.contents input self.old self.new }
    {
        let now = self.now();
        let acts = self.policy.step(input, now);
        self.does(acts);
    }

    /// Does what is to be done with the lane's link, and with the one that waits.
    fn does(&mut self, acts: LaneActs)
        ensures { Does ⟦<WorkerStream<R> as Read>⟧.remaining
            ⟦<WorkerStream<R> as Write>⟧.contents acts self.old self.new }
    {
        self.does_link(acts.link);
        self.does_second(acts.second);
    }

    /// Does what is to be done with the lane's link.
    fn does_link(&mut self, act: LinkAct)
        ensures { DoesLink ⟦<WorkerStream<R> as Read>⟧.remaining
            ⟦<WorkerStream<R> as Write>⟧.contents act self.old self.new }
    {
        match act {
            LinkAct::Nothing | LinkAct::Read => {}
            LinkAct::Ping => self.ask(),
            LinkAct::Fail => self.fail(),
        }
    }

    /// Does what is to be done with the link that waits.
    fn does_second(&mut self, act: SecondAct)
        ensures { DoesSecond ⟦<WorkerStream<R> as Write>⟧.contents act self.old self.new }
    {
        match act {
            SecondAct::Wait | SecondAct::Replace | SecondAct::Displace => {}
            SecondAct::Admit => self.admit_waiting(),
            SecondAct::Drop => put(&mut self.waiting, None),
            SecondAct::PutOff => self.put_off_waiting(),
        }
    }

    /// Asks the worker for a sign of life. Where that can't be sent the next turn meets the fault.
    fn ask(&mut self)
        ensures { Asks ⟦<WorkerStream<R> as Write>⟧.contents self.old self.new }
    {
        self.state.ping();
        self.reads.told();
    }

    /// The lane's link fails.
    fn fail(&mut self)
        ensures { TakesTurn ⟦<WorkerStream<R> as Read>⟧.remaining
            ⟦<WorkerStream<R> as Write>⟧.contents self.old self.new }
    {
        if let Some(stream) = self.state.stream() {
            stream.give_up();
        }
        self.turn();
    }

    /// What the policy says of the worker, and of the link that waits. `is_read`: the lane's link
    /// was read until nothing came.
    fn look(&mut self, is_read: bool) -> LaneActs
        ensures { Looks is_read self.old result self.new }
    {
        let has_left = match &self.waiting {
            Some(link) => link.get_ref().has_left(),
            None => false,
        };
        let now = self.now();
        let input = LaneInput::Look {
            is_up: self.is_up(),
            came: self.came(),
            is_read,
            has_left,
        };
        self.policy.step(input, now)
    }

    /// Does what is due about a silent worker, and goes on with a link that waits.
    pub(crate) fn watch(&mut self)
        ensures { Watches ⟦<WorkerStream<R> as Read>⟧.remaining
            ⟦<WorkerStream<R> as Write>⟧.contents self.old self.new }
    {
        let first = self.look(false);
        let acts = self.look_again(first);
        self.does(acts);
    }

    /// Looks once more, where the link is to be read before. A turn may read nothing, as where the
    /// lane has no room: what the worker has said meanwhile still lies there.
    fn look_again(&mut self, first: LaneActs) -> LaneActs
        ensures { LooksAgain ⟦<WorkerStream<R> as Read>⟧.remaining
            ⟦<WorkerStream<R> as Write>⟧.contents (is_read first.link) first self.old result self.new }
    {
        if first.link != LinkAct::Read {
            return first;
        }
        self.turn();
        let is_read = self.is_drained();
        self.look(is_read)
    }

    /// A link comes. One whose arrivals the system doesn't tell is let go.
    pub(crate) fn attach(&mut self, link: MasterLink<WorkerStream<R>>)
        ensures { Comes ⟦<WorkerStream<R> as Read>⟧.remaining
            ⟦<WorkerStream<R> as Write>⟧.contents link self.old self.new }
    {
        if !self.is_told_of(&link) {
            return drop(link);
        }
        self.look_first();
        let act = self.second_act(&link);
        self.places(act, link);
    }

    /// Does with a link that has logged in what the policy says.
    fn places(&mut self, act: SecondAct, link: MasterLink<WorkerStream<R>>)
        ensures { Places ⟦<WorkerStream<R> as Write>⟧.contents act link self.old self.new }
    {
        match act {
            SecondAct::Wait | SecondAct::Replace => self.put_waiting(link),
            SecondAct::Displace => self.displace(link),
            SecondAct::Admit | SecondAct::Drop | SecondAct::PutOff => self.admit(link),
        }
    }

    /// Has the system tell what arrives by this link. False where it refuses that.
    fn is_told_of(&mut self, link: &MasterLink<WorkerStream<R>>) -> bool
        ensures { self.new ≡ self.old }
    {
        let stream = link.get_ref();
        let is_told = self.mailbox.watch(stream.connection()).is_ok();
        if !is_told {
            let event = LaneEvent::Declined(LinkFault::Stream, stream.from());
            self.events.tell(event);
        }
        is_told
    }

    /// Where the lane is up it is looked whether that still holds.
    fn look_first(&mut self)
        ensures { LooksFirst ⟦<WorkerStream<R> as Read>⟧.remaining
            ⟦<WorkerStream<R> as Write>⟧.contents (is_up self.old.state.lane.trace) self.old self.new }
    {
        if self.is_up() {
            self.turn();
            self.watch();
        }
    }

    /// What is to be done with a link that comes.
    fn second_act(&mut self, link: &MasterLink<WorkerStream<R>>) -> SecondAct
        ensures { HearsLogin ⟦<WorkerStream<R> as Read>⟧.remaining
            ⟦<WorkerStream<R> as Write>⟧.contents link.now self.old result self.new }
    {
        let is_first_own = self.is_first_own();
        let now = self.now();
        let input = LaneInput::Login {
            is_up: self.is_up(),
            is_own: self.state.names_kept(link),
            is_first_own,
        };
        let acts = self.policy.step(input, now);
        self.does_link(acts.link);
        acts.second
    }

    /// Whether the link that waits is of the lane's own worker.
    fn is_first_own(&self) -> bool
        ensures { result ≡ is_first_own self.now.waiting self.now.state.resume_state }
    {
        match &self.waiting {
            Some(first) => self.state.names_kept(first),
            None => false,
        }
    }

    /// This link is the one that waits, from now on.
    fn put_waiting(&mut self, link: MasterLink<WorkerStream<R>>)
        ensures { self.new ≡ with_waiting self.old (Some link) }
    {
        put(&mut self.waiting, Some(link));
    }

    /// This link waits in the place of the first, which is admitted.
    fn displace(&mut self, link: MasterLink<WorkerStream<R>>)
        ensures { Places ⟦<WorkerStream<R> as Write>⟧.contents second.Displace link self.old self.new }
    {
        self.admit_waiting();
        self.put_waiting(link);
    }

    /// The link that waits, if there is one, is admitted.
    fn admit_waiting(&mut self)
        ensures { AdmitsFirst ⟦<WorkerStream<R> as Write>⟧.contents self.old.waiting self.old self.new }
    {
        if let Some(link) = self.waiting.take() {
            self.admit(link);
        }
    }

    /// A link takes the lane up, or is told why not.
    fn admit(&mut self, link: MasterLink<WorkerStream<R>>)
        ensures { Admits ⟦<WorkerStream<R> as Write>⟧.contents link self.old self.new }
    {
        let before = self.state.connection();
        let is_own = before == ConnectionState::Cut && self.state.names_kept(&link);
        let events = self.state.events();
        let from = link.get_ref().from();
        let answer = self.state.attach(self.rt, self.alloc, link);
        self.reads.told();
        match answer {
            Ok(attached) => self.welcome(attached, before),
            Err(fault) => self.login_failed(before, is_own, events, fault, from),
        }
    }

    /// A login failed at a lane that had so many events, and stood as `before`.
    fn login_failed(
        &mut self,
        before: ConnectionState,
        is_own: bool,
        events: usize,
        fault: LinkFault,
        from: SocketAddr,
    )
        ensures { self.new ≡ with_ticks self.old (ticks_heard events self.old) }
    {
        let after = self.state.connection();
        let is_heard = self.state.events() != events;
        self.tell_login(failed_login(before, after, is_own, is_heard, fault, from));
        if !is_heard {
            self.gate.wake(self.place);
            return;
        }
        self.ticks = None;
        self.gate.call_builds(self.place);
        self.gate.wake(self.place);
    }

    /// Tells in order what came of a login.
    fn tell_login(&mut self, told: (Option<LaneEvent>, LaneEvent, Option<LaneEvent>))
        ensures { self.new ≡ self.old }
    {
        let (loss, login, end) = told;
        if let Some(loss) = loss {
            self.events.tell(loss);
        }
        self.events.tell(login);
        if let Some(end) = end {
            self.events.tell(end);
        }
    }

    /// A link has taken the lane up, which was in the state `before`. Its builds are called once
    /// that was told.
    fn welcome(&mut self, attached: Attached, before: ConnectionState)
        ensures { Welcomes self.old self.new }
    {
        let (came, now) = (self.came(), self.now());
        self.policy.step(LaneInput::Attached { came }, now);
        self.ticks = None;
        let (loss, login) = greeting(before, attached == Attached::Resumed);
        self.tell_login((loss, login, None));
        self.gate.call_builds(self.place);
        self.gate.wake(self.place);
    }

    /// A link that waits is told `busy`, since the master ends. It would else see an end without a
    /// word, and a text of its own would be one more exception of the protocol.
    fn put_off_waiting(&mut self)
        ensures { self.new ≡ with_waiting self.old None }
    {
        let Some(link) = &mut self.waiting else {
            return;
        };
        let from = link.get_ref().from();
        let fault = link.put_off(self.alloc);
        self.events.tell(LaneEvent::Declined(fault, from));
        put(&mut self.waiting, None);
    }

    /// A count of what came from the worker by the lane's link.
    pub(crate) fn came(&self) -> u64
        ensures { self.now.state.link ≡ None → result ≡ 0 }
    {
        match self.state.stream() {
            Some(stream) => stream.heard(),
            None => 0,
        }
    }
}
