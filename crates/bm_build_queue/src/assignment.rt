//! A build that is to run now.
ghost use Rattle.std.specs.Prelude.{◌≡◌};

use bm_lane::{Viewer, Yard};

/// A build that was started, with the viewer through which it watches its commands: one of its
/// worker's own lane.
#[derive(Drop)]
pub struct Assignment<Y: Yard> {
    /// The build's number.
    pub number: u64,
    /// The worker's place.
    pub worker: usize,
    pub viewer: Viewer<Y>,
    pub ghost of_the_worker: { viewer.lane ≡ worker },
}
