//! Which link a lane keeps, and whether its ticks count, after it had events.

ghost use Rattle.std.specs.Prelude.{◌≡◌, true, None, if◌then◌else◌};
ghost use Rattle.bm_session.specs.Trace.{is_up, was_taken};
ghost use Rattle.bm_lane_actor.specs.ConnectionState.{keeps_link};
ghost use Rattle.bm_lane_actor.specs.LaneStates.{counting, kept, renewed, timer_in, Declines, TakesUp};

use crate::connection_state::ConnectionState;
use crate::lane_event::connection_of;
use crate::placing::put;
use crate::resume_timer::ResumeTimer;
use bm_lane::{ReaderEnd, Yard};
use bm_link::{Attached, LinkFault, MasterLink, ResumeState};
use std::alloc::Global;
use std::io::{Read, Write};
use std::sync::Wait;

/// After the lane had events: a link is kept while the lane is up, and ticks are counted while it
/// is cut.
pub(crate) fn settle<Y: Yard, S: Drop>(
    reader: &ReaderEnd<Y>,
    link: &mut Option<MasterLink<S>>,
    timer: &mut ResumeTimer,
)
    ensures link { link.new ≡ kept reader.now link.old }
    ensures timer { timer.new ≡ counting reader.now timer.old }
    ensures taken { was_taken reader.now.trace ≡ true }
{
    let _events = reader.trace();
    let connection = connection_of(reader);
    keep(link, connection);
    count(timer, connection);
}

/// Lets the link of a lane go that keeps none.
fn keep<S: Drop>(link: &mut Option<MasterLink<S>>, connection: ConnectionState)
    ensures { link.new ≡ (if keeps_link connection then link.old else None) }
{
    if !connection.keeps_link() {
        put(link, None);
    }
}

/// Counts ticks while the lane is cut.
fn count(timer: &mut ResumeTimer, connection: ConnectionState)
    ensures { timer.new ≡ timer_in connection timer.old }
{
    match connection {
        ConnectionState::Up => {}
        ConnectionState::Cut => timer.cut(),
        ConnectionState::Down => timer.begin(),
    }
}

/// After a login at a lane that had so many events: the count begins anew where it had more of
/// them.
fn renew<Y: Yard>(reader: &ReaderEnd<Y>, events: usize, timer: &mut ResumeTimer)
    ensures { timer.new ≡ renewed events reader.now timer.old }
{
    if reader.is_up() || events != reader.trace().len() {
        timer.begin();
    }
}

/// A link that has logged in takes a lane up that has none, and stays its link while the lane is
/// up.
pub(crate) fn take_up<Y: Yard, S: Read + Write + Drop, R: Wait>(
    rt: &R,
    alloc: Global,
    reader: &mut ReaderEnd<Y>,
    resume_state: &mut ResumeState,
    timer: &mut ResumeTimer,
    link: MasterLink<S>,
) -> (Result<Attached, LinkFault>, Option<MasterLink<S>>)
    ensures { TakesUp S.contents link reader.old resume_state.old timer.old result.0 result.1 reader.new
        resume_state.new timer.new }
{
    let mut link = link;
    let events = reader.trace().len();
    let answer = link.attach(rt, alloc, reader, resume_state);
    renew(reader, events, timer);
    let mut link = Some(link);
    settle(reader, &mut link, timer);
    (answer, link)
}

/// A link that has logged in comes to a lane that is up: it is told so, and answers its fault.
#[tactic(auto, using(crate::proofs::Declining::declined))]
pub(crate) fn decline<Y: Yard, S: Read + Write + Drop, R: Wait>(
    rt: &R,
    alloc: Global,
    reader: &mut ReaderEnd<Y>,
    resume_state: &mut ResumeState,
    link: MasterLink<S>,
) -> LinkFault
    requires { is_up reader.old.trace ≡ true }
    ensures lane { reader.new ≡ reader.old }
    ensures resume_state { resume_state.new ≡ resume_state.old }
    ensures fault { Declines S.contents link reader.old resume_state.old result }
{
    let mut link = link;
    let answer = link.attach(rt, alloc, reader, resume_state);
    let _events = reader.trace();
    drop(link);
    match answer {
        Err(fault) => fault,
        Ok(_) => unreachable!(),
    }
}
