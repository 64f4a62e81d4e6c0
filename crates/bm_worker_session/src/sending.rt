//! How requests are handed to a link.

ghost use Rattle.std.specs.Prelude.{◌≡◌};
ghost use Rattle.bm_worker_session.specs.Sessions.{HandsOver, HandsOverProgress, TellsOn, answer_of_sending};

use crate::session_fault::SessionFault;
use bm_link::WorkerLink;
use bm_outbox::{Outbox, Progress};
use bm_work::{Sent, Worker};
use std::alloc::{AllocError, Global};
use std::io::{Read, Write};
use tungstenite::MaskKeys;

/// Hands requests to a link, in order, and answers whether all were sent. Behind one that isn't
/// sent nothing is.
pub(crate) fn hand_over<S: Read + Write + Drop, K: MaskKeys + Drop>(
    alloc: Global,
    link: &mut WorkerLink<S, K>,
    requests: &[Sent],
) -> bool
    ensures { HandsOver S.contents requests.now link.old result link.new }
{
    for request in requests {
        match link.send(alloc, request) {
            Ok(()) => {}
            Err(_fault) => return false,
        }
    }
    true
}

/// Hands over what came of telling, and answers whether anything could be told.
fn hand_over_progress<S: Read + Write + Drop, K: MaskKeys + Drop>(
    alloc: Global,
    link: &mut WorkerLink<S, K>,
    progress: Result<Progress, AllocError>,
) -> Result<bool, SessionFault>
    ensures { HandsOverProgress S.contents progress link.old result link.new }
{
    match progress {
        Ok(Progress::Nothing | Progress::Full) => Ok(false),
        Ok(Progress::Passed) => Ok(true),
        Ok(Progress::Text(request)) => outcome(hand_over(alloc, link, &[request])),
        Ok(Progress::End(requests)) => outcome(hand_over(alloc, link, requests.as_slice())),
        Err(_) => Err(SessionFault::Memory),
    }
}

/// `Link` where something wasn't sent; else true, since there was something.
pub(crate) fn outcome(is_sent: bool) -> Result<bool, SessionFault>
    ensures { result ≡ answer_of_sending is_sent }
{
    if is_sent {
        Ok(true)
    } else {
        Err(SessionFault::Link)
    }
}

/// Tells what waits first, and hands it to the link at once.
pub(crate) fn tell_on<S: Read + Write + Drop, K: MaskKeys + Drop>(
    alloc: Global,
    core: &mut Worker,
    outbox: &mut Outbox,
    link: &mut WorkerLink<S, K>,
) -> Result<bool, SessionFault>
    ensures { TellsOn S.contents core.old outbox.old link.old result core.new outbox.new link.new }
{
    let progress = outbox.tell(alloc, core);
    hand_over_progress(alloc, link, progress)
}
