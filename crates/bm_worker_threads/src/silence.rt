//! How long a connection is silent, and what is to be done about that.

ghost use Rattle.std.specs.Prelude.{◌≡◌, None};
ghost use Rattle.bm_worker_threads.specs.Silences.{kept_alive, pinged_after, seconds_between, shows_silence};

use bm_outbox::{Keepalive, after_silence};
use std::io;
use std::io::ErrorKind;
use std::time::Instant;

/// A silence: when it began, and when the other end was pinged, where it was. A moment that the
/// clock couldn't tell is None.
#[derive(Drop)]
pub(crate) struct Silence {
    begun: Option<Instant>,
    pinged: Option<Option<Instant>>,
}

impl Silence {
    /// It begins now, and nobody was pinged.
    pub(crate) fn new(now: Option<Instant>) -> Silence
        ensures { result ≡ record { begun = now; pinged = None } }
    {
        Silence {
            begun: now,
            pinged: None,
        }
    }

    /// What is to be done about it now. The other end counts as pinged from here on where that is
    /// to be done.
    pub(crate) fn next(&mut self, now: Option<Instant>) -> Keepalive
        ensures done { result ≡ kept_alive self.old.begun self.old.pinged now }
        ensures state { self.new ≡ record self.old { pinged = pinged_after result now self.old.pinged } }
    {
        let pinged_seconds = match self.pinged {
            Some(pinged) => Some(seconds_between(pinged, now)),
            None => None,
        };
        let next = after_silence(seconds_between(self.begun, now), pinged_seconds);
        if next == Keepalive::Ping {
            self.pinged = Some(now);
        }
        next
    }
}

/// Whole seconds from one moment to another; 0 where the clock couldn't tell one of them.
fn seconds_between(begun: Option<Instant>, now: Option<Instant>) -> u64
    ensures { result ≡ seconds_between begun now }
{
    match (begun, now) {
        (Some(begun), Some(now)) => now.duration_since(begun).as_secs(),
        _ => 0,
    }
}

/// Whether a look at a stream has only found no byte. What it has to read is no silence, as its end
/// isn't.
pub(crate) fn shows_silence(look: io::Result<usize>) -> bool
    ensures { result ≡ shows_silence look }
{
    match look {
        Ok(_) => false,
        Err(error) => matches!(
            error.kind(),
            ErrorKind::Interrupted | ErrorKind::WouldBlock | ErrorKind::TimedOut
        ),
    }
}
