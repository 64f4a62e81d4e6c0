//! What a lane's actor does about its worker's connection, and about a link that waits for the
//! lane.

ghost use Rattle.std.specs.Prelude.{◌≡◌, if◌then◌else◌, false};
ghost use Rattle.bm_lane_actor.specs.declared.lane_policy.LinkAct.TheVariants as link;
ghost use Rattle.bm_lane_actor.specs.declared.lane_policy.SecondAct.TheVariants as second;
ghost use Rattle.bm_lane_actor.specs.PeerTimer.{glance_at, rest_at};
ghost use Rattle.bm_lane_actor.specs.LanePolicy.{acts_of, asked, begun, link_act, login_acts, login_after, look_acts, look_after, policy_after, put_off_acts, second_at};

use crate::login_fates::{LoginFate, WaitingFate, login_fate, waiting_fate};
use crate::peer_timer::{PeerAction, PeerTimer, glance_ms};
use bm_operator::LossCause;
use std::marker::Model;

/// What comes to the policy of a lane.
#[derive(Clone, Copy)]
pub enum LaneInput {
    /// It is looked whether the worker lives. `is_up`: the lane has a link. `came` counts what came
    /// by it, and `is_read` says that it was read until nothing came. `has_left`: the peer of the
    /// link that waits, if one does, has closed its connection.
    Look {
        is_up: bool,
        came: u64,
        is_read: bool,
        has_left: bool,
    },
    /// A link has logged in. `is_own`: it is of the lane's own worker, by another connection.
    /// `is_first_own`: so is the one that waits.
    Login {
        is_up: bool,
        is_own: bool,
        is_first_own: bool,
    },
    /// A link has taken the lane up, by which so much came.
    Attached {
        came: u64,
    },
    /// The worker was told to shut down.
    ShutDown,
    /// The worker's process has ended. `came`: the count of what came from the worker until now.
    Ended {
        is_up: bool,
        came: u64,
    },
    /// The master ends.
    PutOff,
}

/// What is to be done with the lane's link.
#[derive(Clone, Copy, PartialEq, Eq)]
pub enum LinkAct {
    Nothing,
    /// Ask the worker for a sign of life.
    Ping,
    /// Read once more, and look again: what lies ready may be a sign of life.
    Read,
    /// The worker is taken for dead: the link fails.
    Fail,
}

/// What is to be done with a second link: the one that has logged in, or else the one that waits.
#[derive(Clone, Copy, PartialEq, Eq)]
pub enum SecondAct {
    /// It waits, if there is one.
    Wait,
    /// It takes the lane up, or is told why not.
    Admit,
    /// It is let go without an answer: nobody hears it.
    Drop,
    /// It waits in the place of the first, which is let go: the same worker has left that one.
    Replace,
    /// It waits in the place of the first, which is told that the lane is up.
    Displace,
    /// It is told that the master ends.
    PutOff,
}

/// What a lane's actor is to do after an input.
#[derive(Clone, Copy)]
pub struct LaneActs {
    pub link: LinkAct,
    pub second: SecondAct,
}

/// The policy of a lane: how long its worker has been silent, and whether another link waits for a
/// sign of life. It knows why a cut lane would be given up. Times are in milliseconds since some
/// moment.
#[derive(Drop)]
pub struct LanePolicy {
    peer: PeerTimer,
    waits: bool,
    why: LossCause,
}

impl Model for LanePolicy {
    ghost use Rattle.bm_lane_actor.specs.LanePolicy.{PolicyView};

    ghost Value = { PolicyView };

    ghost view = { λ p. record { peer = p.peer; waits = p.waits; why = p.why } };
}

// What is to be done with a link whose worker is to be treated so. `is_read`: it was read until
// nothing came.
fn link_act(action: PeerAction, is_read: bool) -> LinkAct
    ensures { result ≡ link_act action is_read }
{
    match action {
        PeerAction::Nothing => LinkAct::Nothing,
        PeerAction::Ask => LinkAct::Ping,
        PeerAction::GiveUp if is_read => LinkAct::Fail,
        PeerAction::GiveUp => LinkAct::Read,
    }
}

impl LanePolicy {
    /// That of a lane that never had a link.
    pub fn new() -> LanePolicy
        ensures { result ≡ begun }
    {
        LanePolicy {
            peer: PeerTimer::new(0, 0),
            waits: false,
            why: LossCause::Expired,
        }
    }

    /// Takes an input at this time, and answers what is to be done.
    pub fn step(&mut self, input: LaneInput, now: u64) -> LaneActs
        ensures policy { self.new ≡ policy_after input now self.old }
        ensures acts { result ≡ acts_of input now self.old }
    {
        match input {
            LaneInput::Look {
                is_up,
                came,
                is_read,
                has_left,
            } => self.look(is_up, came, is_read, has_left, now),
            LaneInput::Login {
                is_up,
                is_own,
                is_first_own,
            } => self.login(is_up, is_own, is_first_own, now),
            LaneInput::Attached { came } => {
                self.peer = PeerTimer::new(came, now);
                self.why = LossCause::Expired;
                self.nothing()
            }
            LaneInput::ShutDown => {
                self.why = LossCause::Dismissed;
                self.nothing()
            }
            LaneInput::Ended { is_up, came } => {
                self.why = LossCause::Ended;
                // What came before is no answer.
                self.peer.hear(came, now);
                self.ask(is_up, now)
            }
            LaneInput::PutOff => self.put_off(),
        }
    }

    fn nothing(&self) -> LaneActs
        ensures { result ≡ record { link = link.Nothing; second = second.Wait } }
    {
        LaneActs {
            link: LinkAct::Nothing,
            second: SecondAct::Wait,
        }
    }

    // It is to be known soon whether the worker of the lane's link lives: it has little time for an
    // answer. The connection of a dead machine would else look alive for a minute, for which builds
    // or another login wait.
    fn ask(&mut self, is_up: bool, now: u64) -> LaneActs
        ensures policy { self.new ≡ asked is_up now self.old }
        ensures acts { result ≡ record {
          link = (if is_up then link.Ping else link.Nothing);
          second = second.Wait;
        } }
    {
        if !is_up {
            return self.nothing();
        }
        self.peer.want(now);
        LaneActs {
            link: LinkAct::Ping,
            second: SecondAct::Wait,
        }
    }

    fn look(&mut self, is_up: bool, came: u64, is_read: bool, has_left: bool, now: u64) -> LaneActs
        ensures policy { self.new ≡ look_after is_up came is_read has_left now self.old }
        ensures acts { result ≡ look_acts is_up came is_read has_left now self.old }
    {
        let link = if is_up {
            link_act(self.peer.look(came, now), is_read)
        } else {
            LinkAct::Nothing
        };
        let second = self.second_at(is_up, link, has_left);
        self.waits = self.waits && second == SecondAct::Wait;
        LaneActs { link, second }
    }

    // What is to be done with the link that waits, while this is done with the lane's own.
    fn second_at(&self, is_up: bool, link: LinkAct, has_left: bool) -> SecondAct
        ensures { result ≡ second_at is_up link has_left self.now }
    {
        if !self.waits || link == LinkAct::Read {
            return SecondAct::Wait;
        }
        let is_awaited = is_up && link == LinkAct::Nothing && self.peer.is_wanted();
        match waiting_fate(is_awaited, has_left) {
            WaitingFate::Admit => SecondAct::Admit,
            WaitingFate::Wait => SecondAct::Wait,
            WaitingFate::Drop => SecondAct::Drop,
        }
    }

    fn login(&mut self, is_up: bool, is_own: bool, is_first_own: bool, now: u64) -> LaneActs
        ensures policy { self.new ≡ login_after is_up is_own now self.old }
        ensures acts { result ≡ login_acts is_up is_own is_first_own self.old }
    {
        let second = match login_fate(is_up, self.waits, is_own) {
            LoginFate::Wait => {
                self.waits = true;
                return self.ask(is_up, now);
            }
            LoginFate::Admit => SecondAct::Admit,
            LoginFate::TakePlace if is_first_own => SecondAct::Replace,
            LoginFate::TakePlace => SecondAct::Displace,
        };
        LaneActs {
            link: LinkAct::Nothing,
            second,
        }
    }

    fn put_off(&mut self) -> LaneActs
        ensures policy { self.new ≡ record self.old { waits = false } }
        ensures acts { result ≡ put_off_acts self.old }
    {
        let second = if self.waits {
            SecondAct::PutOff
        } else {
            SecondAct::Wait
        };
        self.waits = false;
        LaneActs {
            link: LinkAct::Nothing,
            second,
        }
    }

    /// Why a cut lane is given up.
    pub fn why(&self) -> LossCause
        ensures { result ≡ self.now.why }
    {
        self.why
    }

    /// For how many milliseconds the actor waits for a request at most: until something is to be
    /// done about a silent worker.
    pub fn rest_ms(&self, is_up: bool, now: u64) -> u64
        ensures { result ≡ glance_at is_up (rest_at now self.now.peer) self.now.waits }
    {
        glance_ms(is_up, self.peer.rest(now), self.waits)
    }
}
