//! How far a link has come, and how it ends.

ghost use Rattle.std.specs.Prelude.{◌≡◌};
ghost use Rattle.bm_link.specs.Endings.{stage_after, Falls, Ends};

use bm_lane::{HearRefusal, ReaderEnd, Yard};
use std::sync::Wait;

/// How far a link has come.
#[derive(Clone, Copy, PartialEq, Eq)]
pub(crate) enum Stage {
    /// No lane is up by it.
    Open,
    /// Its lane is up.
    Up,
    /// It has failed, and its lane is still to be cut, where it may be, or taken down.
    Falling { may_cut: bool },
    /// It has failed, and nothing is owed to its lane.
    Failed,
}

/// What became of the lane of a link that failed.
#[derive(Clone, Copy, PartialEq, Eq)]
pub(crate) enum Ended {
    /// It was cut.
    Cut,
    /// It was taken down, or wasn't up.
    Down,
    /// It is to be taken down once its queue has room.
    Waits,
}

impl Ended {
    /// How far the link has come then.
    pub(crate) fn stage(self) -> Stage
        ensures { result ≡ stage_after self }
    {
        match self {
            Ended::Cut | Ended::Down => Stage::Failed,
            Ended::Waits => Stage::Falling { may_cut: false },
        }
    }
}

/// Takes the lane down, for a link that has failed.
fn fall<Y: Yard, R: Wait>(rt: &R, reader: &mut ReaderEnd<Y>) -> Ended
    ensures { Falls reader.old reader.new result }
{
    match reader.down(rt) {
        Ok(_) => Ended::Down,
        Err((_, HearRefusal::Busy)) => Ended::Waits,
        Err((_, HearRefusal::Session(_))) => Ended::Down,
    }
}

/// Cuts the lane of a link that has failed, where it may be cut; or else takes it down.
pub(crate) fn cut_or_fall<Y: Yard, R: Wait>(
    rt: &R,
    reader: &mut ReaderEnd<Y>,
    may_cut: bool,
) -> Ended
    ensures { Ends may_cut reader.old reader.new result }
{
    if may_cut && reader.cut(rt).is_ok() {
        return Ended::Cut;
    }
    fall(rt, reader)
}
