//! The login of a new connection: its handshake, and the hand-over to its lane.

ghost use Rattle.std.specs.Prelude.{◌≡◌, ◌≤◌, length, IfOk, IfSome, OnErr, OnOk, slice_get};
ghost use Rattle.bm_link.specs.Logins.{LogsInAt};
ghost use Rattle.bm_lane_actor.specs.Login.{HasLoggedIn, IsLoggedIn, IsPutOff};

use crate::mailbox::{HandOver, LaneHandle, handle_of};
use crate::placing::put;
use crate::stream::WorkerStream;
use bm_lines::Text;
use bm_link::{LinkFault, MasterLink, User};
use bumpalo::Bump;
use std::alloc::Global;
use std::io::{Read, Write};
use std::sync::Wait;
use std::time::Clock;

/// The most bytes that the arena of a login takes. It is enough for all that a login may say, and
/// so little that all connections without a login may take it at once.
const MOST_LOGIN_BYTES: usize = 2 * 1_048_576;

/// How many bytes the name of a refused login may have that is told.
const MOST_NAME: usize = 256;

/// A worker that has logged in: the place of its user, and its link.
#[derive(Drop)]
struct LoggedIn<S> {
    place: usize,
    link: MasterLink<S>,
}

/// The name of the login that the link refused as one of no user, where it is short enough to be
/// told.
fn stranger<S: Read + Write + Drop>(alloc: Global, link: &MasterLink<S>) -> Option<Text>
    ensures refused { IfSome result (λ name. link.now.refused ≡ Some name) }
    ensures short { IfSome result (λ name. length name ≤ 256) }
{
    match link.refused() {
        Some(name) if name.len() <= MOST_NAME => Text::from_str(alloc, name).ok(),
        _ => None,
    }
}

/// Reads the login by an arena of its own.
fn read_login<S: Read + Write + Drop>(
    alloc: Global,
    link: &mut MasterLink<S>,
    users: &[User],
) -> Result<usize, LinkFault>
    ensures { LogsInAt S.remaining S.contents users.now link.old.stage link.old.login link.old result
        link.new }
{
    let mut arena = Bump::new(alloc);
    arena.set_allocation_limit(Some(MOST_LOGIN_BYTES));
    link.login(alloc, &mut arena, users)
}

/// Agrees on a WebSocket over the stream, and reads the login. `refused` becomes the name of one
/// that is refused as one of no user.
fn accept<S: Read + Write + Drop>(
    alloc: Global,
    stream: S,
    users: &[User],
    refused: &mut Option<Text>,
) -> Result<LoggedIn<S>, LinkFault>
    ensures login { IfOk result
        (λ w. IsLoggedIn S.remaining S.contents users.now w.place w.link) }
    ensures kept { OnOk result (refused.new ≡ refused.old) }
{
    let mut link = match MasterLink::accept(alloc, stream) {
        Ok(link) => link,
        Err(fault) => return Err(fault),
    };
    match read_login(alloc, &mut link, users) {
        Ok(place) => Ok(LoggedIn { place, link }),
        Err(fault) => {
            put(refused, stranger(alloc, &link));
            drop(link);
            Err(fault)
        }
    }
}

/// The name of the user at this place, where there is memory for it.
fn name_of(users: &[User], place: usize) -> Option<Text>
    ensures { IfSome result (λ name. IfSome (slice_get users.now place) (λ u. name ≡ u.name)) }
{
    users.get(place)?.name.copy().ok()
}

/// Tells a worker `busy`, and lets its link go.
fn put_off<S: Read + Write + Drop>(alloc: Global, link: MasterLink<S>) -> LinkFault
    ensures { IsPutOff S.contents link result }
{
    let mut link = link;
    let fault = link.put_off(alloc);
    drop(link);
    fault
}

/// Hands the link of a worker that has logged in as one of these users to the actor of its own
/// lane. The result is the number of the lane. Where the mailbox has no room the worker is told
/// `busy`, and `refused` becomes its name.
///
/// # Errors
///
/// `Closed` where the actor has left; `Busy` of the lane where its mailbox has no room.
fn hand_over<S: Read + Write + Drop, R: Wait + Clock>(
    rt: &R,
    alloc: Global,
    handle: &LaneHandle<S>,
    users: &[User],
    worker: LoggedIn<S>,
    refused: &mut Option<Text>,
) -> Result<usize, LinkFault>
    requires own { handle.now ≡ worker.place }
    requires login { IsLoggedIn S.remaining S.contents users.now worker.place worker.link }
    ensures lane { IfOk result (λ lane. lane ≡ worker.place) }
    ensures login { IfOk result (HasLoggedIn S.remaining S.contents users.now) }
    ensures kept { OnOk result (refused.new ≡ refused.old) }
    ensures name { OnErr result (IfSome refused.new (λ name.
        IfSome (slice_get users.now worker.place) (λ u. name ≡ u.name))) }
{
    let LoggedIn { place, link } = worker;
    let fault = match handle.attach(rt, link) {
        HandOver::Taken => return Ok(place),
        HandOver::Back(link) => put_off(alloc, link),
        HandOver::Left => LinkFault::Closed,
    };
    put(refused, name_of(users, place));
    Err(fault)
}

/// Logs a worker in on a new connection, within some 10 seconds, and hands its link to the actor of
/// its lane. The result is the number of the lane, which is the place of the worker's user.
/// `refused` becomes the name of a login that is refused: as one of no user, where that isn't long,
/// or at its lane's mailbox. The lane's own thread goes on with the link, so that a second login is
/// answered while the first is up.
///
/// # Errors
///
/// Those of the link's `accept` and `login`. `Closed` where the lane's actor has left. `Busy` of
/// the lane where its mailbox has no room. `Stream` also where the time is over. Nothing is left
/// of the connection then.
pub fn log_in<R>(
    rt: &R,
    alloc: Global,
    stream: WorkerStream<R>,
    users: &[User],
    handles: &[LaneHandle<WorkerStream<R>>],
    refused: &mut Option<Text>,
) -> Result<usize, LinkFault>
where
    R: Wait + Clock + Drop,
    ensures login { IfOk result (HasLoggedIn ⟦<WorkerStream<R> as Read>⟧.remaining
        ⟦<WorkerStream<R> as Write>⟧.contents users.now) }
    ensures kept { OnOk result (refused.new ≡ refused.old) }
{
    if stream.bound_calls().is_err() {
        drop(stream);
        return Err(LinkFault::Stream);
    }
    let worker = match accept(alloc, stream, users, refused) {
        Ok(worker) => worker,
        Err(fault) => return Err(fault),
    };
    let Some(handle) = handle_of(handles, worker.place) else {
        drop(worker);
        return Err(LinkFault::Closed);
    };
    let stream = worker.link.get_ref();
    if stream.set_logged_in().is_err() {
        drop(worker);
        return Err(LinkFault::Stream);
    }
    hand_over(rt, alloc, handle, users, worker, refused)
}
