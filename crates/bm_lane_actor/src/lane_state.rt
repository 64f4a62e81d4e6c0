//! A lane's reader's end with the link by which it is up.

ghost use Rattle.std.specs.List.{slice_get};
ghost use Rattle.std.specs.Option.{option_copied};
ghost use Rattle.std.specs.Prelude.{◌≡◌, ◌-◌, [], nat_lt, is_some, None, length};
ghost use Rattle.bm_link.specs.Carries.{new_carried};
ghost use Rattle.bm_link.specs.Control.{names_kept};
ghost use Rattle.bm_link.specs.Laws.{CarriesPending};
ghost use Rattle.bm_link.specs.Texts.{AreShort};
ghost use Rattle.bm_lane_actor.specs.ResumeTimer.{kept as kept_timer, dismissed};
ghost use Rattle.bm_lane_actor.specs.LaneStates.{awaited_of, Attaches, Closes, Expires, GivesUp, Interrupts, Pings, ShutsDown, Starts, Ticks, Turns, with_timer};
ghost use Rattle.bm_lane_actor.specs.LaneEvents.{connection_of, order_loss};

use crate::connection_state::ConnectionState;
use crate::lane_event::{connection_of, loss_of};
use crate::link_keeping::{decline, settle, take_up};
use crate::order_outcome::{OrderOutcome, interrupt_outcome, start_outcome, unlinked_outcome};
use crate::placing::put;
use crate::resume_timer::ResumeTimer;
use bm_lane::{HearRefusal, ReaderEnd, Yard};
use bm_lines::Text;
use bm_link::{Ask, Attached, LinkFault, MasterLink, ResumeState, Turn};
use bm_operator::LossCause;
use bm_session::Event;
use bumpalo::Bump;
use std::alloc::Global;
use std::io::{Read, Write};
use std::marker::Model;
use std::sync::Wait;

/// A lane's reader's end, its resume state, the link, if it is up, and how long a cut one waits
/// for its worker. The lane is up just as long as it has a link, and ticks are counted just while
/// it is cut. The resume state has the orders of its lane that have no answer, in order, by their
/// numbers.
#[derive(Drop)]
pub struct LaneState<Y: Yard, S> {
    reader: ReaderEnd<Y>,
    resume_state: ResumeState,
    link: Option<MasterLink<S>>,
    timer: ResumeTimer,
    /// What the link answered to the last order, where that was a fault.
    fault: Option<LinkFault>,
}

impl<Y: Yard, S> Model for LaneState<Y, S> {
    ghost use Rattle.std.specs.Prelude.{◌≡◌, is_some};
    ghost use Rattle.bm_session.specs.Trace.{is_up};
    ghost use Rattle.bm_link.specs.Laws.{CarriesPending};
    ghost use Rattle.bm_lane_actor.specs.LaneStates.{LaneView};
    ghost use Rattle.bm_lane_actor.specs.LaneEvents.{is_awaited, connection_of};

    ghost Value = { LaneView S };

    ghost view = { λ d. record {
      lane = d.reader;
      resume_state = d.resume_state;
      link = d.link;
      timer = d.timer;
    } };

    ghost invariant = { λ d. (is_some d.link ≡ is_up d.reader.trace)
        × (is_some d.timer.cut ≡ is_awaited (connection_of d.reader.trace))
        × CarriesPending d.resume_state d.reader.trace };
}

/// What an actor waits for.
#[derive(Clone, Copy, PartialEq, Eq)]
pub(crate) enum Awaited {
    /// A request: the lane is down.
    Request,
    /// A request, but for a look at the link now and then: the worker has nothing to say.
    Glance,
    /// What the worker sends next, which a read may give at once.
    Message,
    /// The next tick: the lane is cut.
    Tick,
}

/// Why a lane is cut or given up by an order that its link answered so.
fn order_loss(fault: Option<LinkFault>) -> LossCause
    ensures { result ≡ order_loss fault }
{
    match fault {
        Some(fault) => loss_of(fault),
        None => LossCause::Stream,
    }
}

impl<Y: Yard, S> LaneState<Y, S> {
    /// The state of a lane that had no event. Its worker may take `resume_ticks` ticks to resume a
    /// session after a cut; where these are 0, no session is ever resumed. It takes no memory.
    #[tactic(auto, using(crate::proofs::Carrying::fresh))]
    pub fn new(alloc: Global, reader: ReaderEnd<Y>, resume_ticks: u32) -> LaneState<Y, S>
        requires { reader.trace ≡ [] }
        ensures lane { result.lane ≡ reader }
        ensures resume_state { result.resume_state ≡ new_carried (nat_lt 0 resume_ticks) }
        ensures link { result.link ≡ None }
        ensures timer { result.timer ≡ kept_timer resume_ticks }
    {
        LaneState {
            reader,
            resume_state: ResumeState::new(alloc, resume_ticks > 0),
            link: None,
            timer: ResumeTimer::new(resume_ticks),
            fault: None,
        }
    }

    /// How the lane is connected.
    pub fn connection(&self) -> ConnectionState
        ensures { result ≡ connection_of self.now.lane.trace }
    {
        connection_of(&self.reader)
    }

    /// Why the lane is cut or given up, where the last order was.
    pub fn order_loss(&self) -> LossCause {
        order_loss(self.fault)
    }

    /// The last event of the lane, if it had one.
    pub fn last_event(&self) -> Option<&Event>
        ensures { option_copied result
            ≡ slice_get self.now.lane.trace (length self.now.lane.trace - 1) }
    {
        self.reader.trace().last()
    }

    /// How many events the lane had.
    pub fn events(&self) -> usize
        ensures { result ≡ length self.now.lane.trace }
    {
        self.reader.trace().len()
    }

    /// What is waited for. `is_lively`: the worker has something to say.
    pub(crate) fn awaited(&self, is_lively: bool) -> Awaited
        ensures { result ≡ awaited_of is_lively (connection_of self.now.lane.trace) }
    {
        match self.connection() {
            ConnectionState::Up if is_lively => Awaited::Message,
            ConnectionState::Up => Awaited::Glance,
            ConnectionState::Cut => Awaited::Tick,
            ConnectionState::Down => Awaited::Request,
        }
    }

    /// What holds of every state: its resume state has the orders of its lane that have no answer,
    /// in order, by their numbers. So a link which resumes the session sends just those again. It
    /// does nothing when it runs. A link ends with its connection and can't keep this; a law alone
    /// would be chained by each caller.
    pub fn carries_what_is_pending(&self)
        ensures { CarriesPending self.now.resume_state self.now.lane.trace }
    {
        let _ = &self.resume_state;
    }

    /// The number of the lane.
    pub fn lane(&self) -> u64
        ensures { result ≡ self.now.lane.lane }
    {
        self.reader.lane()
    }

    /// Ends the state: the reader's end of the lane comes back, for whoever joins the threads.
    pub fn into_reader(self) -> ReaderEnd<Y>
    where
        S: Drop,
        ensures { result ≡ self.lane }
    {
        drop(self.link);
        self.reader
    }
}

impl<Y: Yard, S: Read + Write + Drop> LaneState<Y, S> {
    /// The stream of its link, if it has one.
    pub(crate) fn stream(&self) -> Option<&S>
        ensures { is_some result ≡ is_some self.now.link }
    {
        match &self.link {
            Some(link) => Some(link.get_ref()),
            None => None,
        }
    }

    /// Whether the link's login names the session that the lane has. So its worker is the lane's.
    pub fn names_kept(&self, link: &MasterLink<S>) -> bool
        ensures { result ≡ names_kept self.now.resume_state link.now.login }
    {
        link.names_kept(&self.resume_state)
    }

    /// A link that has logged in takes the lane up. Where the lane is up, it is declined, and the
    /// first link goes on unharmed.
    ///
    /// # Errors
    ///
    /// Those of the link's `attach`. The link is let go, unless the lane then stays up by it until
    /// its end can be taken.
    pub fn attach<R: Wait>(
        &mut self,
        rt: &R,
        alloc: Global,
        link: MasterLink<S>,
    ) -> Result<Attached, LinkFault>
        ensures { Attaches S.contents link self.old.link self.old result self.new }
    {
        if self.link.is_some() {
            return Err(decline(rt, alloc, &mut self.reader, &mut self.resume_state, link));
        }
        let (answer, link) = take_up(
            rt,
            alloc,
            &mut self.reader,
            &mut self.resume_state,
            &mut self.timer,
            link,
        );
        put(&mut self.link, link);
        answer
    }

    /// One message of the worker in, its answer out. Without a link nothing is done.
    ///
    /// # Errors
    ///
    /// Those of the link's `turn`. The lane is then cut, given up, or still up until the queue has
    /// room for its end, which the next turn tries.
    pub fn turn<R: Wait>(
        &mut self,
        rt: &R,
        alloc: Global,
        arena: &mut Bump,
    ) -> Result<Turn, LinkFault>
        ensures { Turns S.remaining S.contents self.old.link self.old result self.new }
    {
        let Some(link) = &mut self.link else {
            return Ok(Turn::Quiet);
        };
        let answer = link.turn(rt, alloc, arena, &mut self.reader, &mut self.resume_state);
        settle(&self.reader, &mut self.link, &mut self.timer);
        answer
    }

    /// Starts a command with these words. Nothing is sent on a lane without a link: a cut one is to
    /// be tried later, and one that was given up refuses.
    pub fn start<R: Wait>(&mut self, rt: &R, alloc: Global, argv: &[Text]) -> OrderOutcome
        requires { AreShort argv.now }
        ensures { Starts S.contents argv.now self.old.link self.old result self.new }
    {
        let Some(link) = &mut self.link else {
            return unlinked_outcome(&self.reader);
        };
        let command = self.reader.next_command();
        let answer = link.start(rt, alloc, &mut self.reader, &mut self.resume_state, argv);
        settle(&self.reader, &mut self.link, &mut self.timer);
        self.fault = answer.err();
        start_outcome(answer, command != self.reader.next_command())
    }

    /// Interrupts a command, as `start` starts one.
    pub fn interrupt<R: Wait>(&mut self, rt: &R, alloc: Global, command: u64) -> OrderOutcome
        ensures { Interrupts S.contents command self.old.link self.old result self.new }
    {
        let Some(link) = &mut self.link else {
            return unlinked_outcome(&self.reader);
        };
        let order = self.reader.next_order();
        let answer = link.interrupt(rt, alloc, &mut self.reader, &mut self.resume_state, command);
        settle(&self.reader, &mut self.link, &mut self.timer);
        self.fault = answer.err();
        interrupt_outcome(answer, order != self.reader.next_order())
    }

    /// Asks the worker to shut down, where the lane has a link. From now on a cut lane is given up
    /// at once. A fault of the link is told by its next turn.
    #[tactic(auto, using(crate::proofs::Carrying::asked))]
    pub fn shut_down(&mut self, alloc: Global)
        ensures { ShutsDown S.contents self.old.link self.old self.new }
    {
        self.timer.dismiss();
        if let Some(link) = &mut self.link {
            let _ = link.ask(alloc, &mut self.resume_state, Ask::Shutdown);
        }
    }

    /// Asks the worker for a sign of life, where the lane has a link. A fault of the link is told
    /// by its next turn.
    pub fn ping(&mut self)
        ensures { Pings S.contents self.old.link self.old self.new }
    {
        let Some(link) = &mut self.link else {
            return;
        };
        let _ = link.ping(&self.resume_state);
    }

    /// Tells the worker by a close frame that its connection ends, where the lane has a link.
    /// Nothing is heard any more, and the lane is still to be given up.
    pub fn close(&mut self)
        ensures { Closes S.contents self.old.link self.old self.new }
    {
        let Some(link) = &mut self.link else {
            return;
        };
        let _ = link.close();
    }

    /// The worker's process has ended: from now on a cut lane is given up at once.
    pub fn dismiss(&mut self)
        ensures { self.new ≡ with_timer self.old (dismissed self.old.timer) }
    {
        self.timer.dismiss();
    }

    /// Gives the session up, if there is one. False where that has to wait until the lane's queue
    /// has room: nothing has changed then.
    pub fn give_up<R: Wait>(&mut self, rt: &R) -> bool
        ensures { GivesUp self.old result self.new }
    {
        if let Err((_, HearRefusal::Busy)) = self.reader.down(rt) {
            return false;
        }
        settle(&self.reader, &mut self.link, &mut self.timer);
        true
    }

    /// Gives a cut lane up, whose worker is awaited no more.
    pub fn expire<R: Wait>(&mut self, rt: &R)
        ensures { Expires self.old self.new }
    {
        if self.timer.is_over() {
            self.give_up(rt);
        }
    }

    /// A tick passed. A cut lane is given up once its worker took too long, and one whose session
    /// goes on never.
    pub fn tick<R: Wait>(&mut self, rt: &R)
        ensures { Ticks self.old self.new }
    {
        self.timer.tick();
        self.expire(rt);
    }
}
