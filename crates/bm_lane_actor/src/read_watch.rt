//! Whether a read of a lane's link may give something, of which nobody is told any more.

ghost use Rattle.std.specs.Prelude.{◌≡◌, true, false};
ghost use Rattle.bm_lane_actor.specs.ReadWatch.{goes_on, is_drained};

use bm_link::{LinkFault, Turn};
use std::marker::Model;

/// What a read of a connection came to.
#[derive(Clone, Copy)]
pub(crate) enum LastRead {
    /// Bytes, or the stream's end.
    Gave,
    /// The connection had nothing, or has failed: the actor is woken by what comes from then on.
    MetNothing,
    /// Nothing was read: the time for that was over.
    NotMade,
}

/// Whether the connection had nothing more by its last read.
pub(crate) fn is_drained(last: LastRead) -> bool
    ensures { result ≡ is_drained last }
{
    match last {
        LastRead::MetNothing => true,
        LastRead::Gave | LastRead::NotMade => false,
    }
}

/// Whether a read of the link may give something. An arrival is told once, and not again before all
/// of it was read. So it is over only with a turn by whose last read the connection had nothing.
/// Told for as long as something is there, no wait for room in the lane would last.
#[derive(Drop)]
pub(crate) struct ReadWatch {
    may_give: bool,
}

impl Model for ReadWatch {
    ghost use Rattle.std.specs.Prelude.{Bool};

    ghost Value = { Bool };

    ghost view = { λ w. w.may_give };
}

impl ReadWatch {
    /// No link.
    pub fn new() -> ReadWatch
        ensures { result ≡ false }
    {
        ReadWatch { may_give: false }
    }

    /// An arrival was told, or the lane has another link.
    pub fn told(&mut self)
        ensures { self.new ≡ true }
    {
        self.may_give = true;
    }

    /// A turn came to this, and by its last read the connection had nothing more, or may have.
    pub fn turned(&mut self, answer: &Result<Turn, LinkFault>, is_drained: bool)
        ensures { self.new ≡ goes_on answer.now is_drained }
    {
        self.may_give = match answer {
            Ok(Turn::Quiet) => !is_drained,
            _ => true,
        };
    }

    /// Whether a read may give something.
    pub fn may_give(&self) -> bool
        ensures { result ≡ self.now }
    {
        self.may_give
    }
}
